//! What is known of the revocation of a path's certificates (RFC 5280, 6.1.3 (a) (3)).
ghost use Rattle.std.specs.Prelude.{[], ◌≡◌, IfOk, Some};
ghost use Rattle.shelf_path.specs.Revocations.{bad_reason, first_bad, first_bad_from, passed, passed_by};

use crate::asked_lists::{lists_of, status_by};
use crate::list_issuer::{KnownIssuers, issuer_inputs, known_below, known_first, with_issuers};
use asn1_core::OutOfMemory;
use der_tree::der;
use path_validation::{PathInputs, PathReason, RevocationStatus};
use pkix_cert::{Certificate, CertificateList, CertificateView};
use std::alloc::Global;

/// A certificate that isn't known as good.
#[derive(Clone, Copy)]
pub(crate) struct BadStatus {
    /// Its place: 1 is the certificate that the anchor issued.
    pub(crate) place: u64,
    /// `Revoked` or `Undetermined`.
    pub(crate) reason: PathReason,
}

fn bad_reason(status: RevocationStatus) -> Option<PathReason>
    ensures { result ≡ bad_reason status }
{
    match status {
        RevocationStatus::Good => None,
        RevocationStatus::Revoked { .. } => Some(PathReason::Revoked),
        RevocationStatus::Undetermined => Some(PathReason::Undetermined),
    }
}

/// What comes of a certificate of a path.
#[derive(Drop)]
enum Advance {
    /// It isn't good.
    Stops(PathReason),
    /// It is, and these issuers are known below it.
    Goes(KnownIssuers),
}

/// Whether the certificate below the ones above is good.
#[tactic(auto, unfolding(crate::specs::Revocations::passed))]
fn passed(
    alloc: Global,
    inputs: &PathInputs,
    lists: &[CertificateList],
    issuers: &[CertificateView<'_>],
    above: &[CertificateView<'_>],
    known: KnownIssuers,
    view: &CertificateView<'_>,
) -> Result<Advance, OutOfMemory>
    ensures { IfOk result (λ p. p ≡ passed inputs.now lists.now issuers.now above.now known view.now) }
{
    let known = with_issuers(alloc, inputs, lists, issuers, above, known)?;
    let Some(certificate) = der::value_of(alloc, view.whole())? else {
        return Ok(Advance::Stops(PathReason::Undetermined));
    };
    passed_by(alloc, inputs, lists, known, view, certificate)
}

/// The same, once the issuers are known whose certificates the last one above issued.
fn passed_by(
    alloc: Global,
    inputs: &PathInputs,
    lists: &[CertificateList],
    known: KnownIssuers,
    view: &CertificateView<'_>,
    certificate: Certificate,
) -> Result<Advance, OutOfMemory>
    ensures { IfOk result (λ p. p ≡ passed_by inputs.now lists.now known view.now (Some certificate)) }
{
    let given = lists_of(alloc, lists, known.issuers.as_slice(), view, &certificate)?;
    let checks = given.as_slice().len() as u64;
    let status = status_by(alloc, inputs.at, known.left, given, &certificate)?;
    if let Some(reason) = bad_reason(status) {
        return Ok(Advance::Stops(reason));
    }
    let next = known_below(alloc, known, checks, view, certificate)?;
    Ok(Advance::Goes(next))
}

/// The first certificate of a path that isn't good by the lists of the issuers that are known there, from
/// the one that the anchor issued on: the anchor, the certificates above it, to which the path is the
/// front of this path, and of the other issuers those with a valid path of their own (RFC 5280, 6.3.3
/// (f)). This path has to be valid. No certificate below that one is looked at.
#[tactic(auto, unfolding(crate::specs::Revocations::first_bad))]
pub(crate) fn first_bad(
    alloc: Global,
    inputs: &PathInputs,
    lists: &[CertificateList],
    issuers: &[CertificateView<'_>],
    path: &[CertificateView<'_>],
) -> Result<Option<BadStatus>, OutOfMemory>
    ensures { IfOk result (λ bad. bad ≡ first_bad inputs.now lists.now issuers.now path.now) }
{
    let question = issuer_inputs(alloc, inputs)?;
    let known = known_first(alloc, lists, &question.anchor)?;
    first_bad_from(alloc, &question, lists, issuers, known, path)
}

fn first_bad_from(
    alloc: Global,
    inputs: &PathInputs,
    lists: &[CertificateList],
    issuers: &[CertificateView<'_>],
    first: KnownIssuers,
    path: &[CertificateView<'_>],
) -> Result<Option<BadStatus>, OutOfMemory>
    ensures { IfOk result (λ bad. bad ≡ first_bad_from inputs.now lists.now issuers.now 1 [] first path.now) }
{
    let mut known = first;
    let mut count: usize = 0;
    for view in path {
        let place = count + 1;
        match passed(alloc, inputs, lists, issuers, &path[..count], known, view)? {
            Advance::Stops(reason) => {
                return Ok(Some(BadStatus {
                    place: place as u64,
                    reason,
                }));
            }
            Advance::Goes(next) => known = next,
        }
        count = place;
    }
    Ok(None)
}
