//! A whole path (RFC 5280, 6.1).
ghost use Rattle.std.specs.Prelude.{◌≡◌, ◌↔◌, ℕ, List};
ghost use Rattle.pkix_cert.specs.Views.{CertificateParts};
ghost use Rattle.path_validation.specs.Outcomes.{IsFirst, IsValid, Tells, invalid, outcome, valid};
ghost use Rattle.path_revocation.specs.Lists.{Accepts};
ghost use Rattle.path_validation.specs.declared.error.PathReason.{PathReason};
ghost use Rattle.path_validation.specs.declared.inputs.PathInputs.{PathInputs};
ghost use Rattle.path_validation.specs.declared.inputs.ValidPath.{ValidPath};

use crate::error::{PathError, PathReason};
use crate::inputs::{PathInputs, ValidPath};
use crate::state::first_state;
use crate::step::{Step, step_at};
use pkix_cert::CertificateView;
use rcgen_sign::Verifier;
use std::alloc::Global;

/// What a path gives, if it is valid (RFC 5280, 6.1, with RFC 9618's policies), from the certificate
/// that the anchor issued to the one to validate. A fault says the first place at which a step fails,
/// and of the steps that fail there the first in the order of `PathReason`. `OutOfMemory` alone says
/// nothing of the path.
///
/// Besides the steps of 6.1, it asks of each certificate: that no extension occurs twice and that those that
/// a step reads and those that are critical can be read (4.2), with at most 256 extensions, 512 policies and
/// mappings, and 16 attributes in a part of a name; that no policy is named twice (4.2.1.4); that its
/// version has extensions where it has some, and is one of 1 to 3 (4.1.2.1, 4.1.2.9); that no time has a
/// fraction of a second (4.1.2.5.2); that the algorithm of the signature is the one that is signed
/// (4.1.1.2); and that holding names against subtrees reads no more than 1,000,000 octets. A constraint of a
/// form of names that can't be processed refuses such names whether or not it is critical (4.2.1.10).
///
/// Left to the caller: the anchor, revocation (`PathInputs::statuses`), whether a certificate occurs
/// twice in the path, and what a key is for beyond keyCertSign. So what extended key usage, the points of
/// revocation lists, key identifiers and the issuer's other names say isn't looked at; where they are
/// critical, that they are of their type is.
pub fn validate_path<V: Verifier>(
    alloc: Global,
    path: &[CertificateView<'_>],
    inputs: &PathInputs,
    verifier: &V,
) -> Result<ValidPath, PathError>
    ensures { Tells result (outcome (V.accepts verifier.now) inputs.now path.now) }
{
    let mut state = first_state(alloc, inputs, path.len() as u64)?;
    let mut passed: usize = 0;
    for view in path {
        let place = passed + 1;
        let is_last = place == path.len();
        match step_at(alloc, view, inputs, passed, is_last, state, verifier)? {
            Step::Ends(valid) => return Ok(valid),
            Step::Fails(reason) => {
                return Err(PathError::Fault {
                    place: place as u64,
                    reason,
                });
            }
            Step::Passes(next) => state = next,
        }
        passed = place;
    }
    Err(PathError::Fault {
        place: 1,
        reason: PathReason::Empty,
    })
}

/// A law: a path is valid exactly where no reason holds at any of its places, and then gives what
/// the state after its last certificate says.
pub fn valid_exactly()
    ensures { (accepts : Accepts) (x : PathInputs) (ps : List CertificateParts) (v : ValidPath) → (outcome accepts x ps ≡ valid v) ↔ IsValid accepts x ps v }
{}

/// A law: a path is invalid for a reason at a place exactly where the reason holds there, none holds
/// at a place before, and at the place itself none that comes before it in the order of the steps.
pub fn first_reason()
    ensures { (accepts : Accepts) (x : PathInputs) (ps : List CertificateParts) (i : ℕ) (r : PathReason) → (outcome accepts x ps ≡ invalid i r) ↔ IsFirst accepts x ps i r }
{}
