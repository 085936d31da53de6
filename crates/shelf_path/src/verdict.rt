//! What comes of a question about a certification path.
ghost use Rattle.std.specs.Prelude.{◌≡◌, ◌<◌, ◌^◌, IfOk, Ok, Result, length, map};
ghost use Rattle.shelf_path.specs.Asked.{Asked, asked_behind, asked_in, asked_of};
ghost use Rattle.shelf_path.specs.Verdicts.{Judges, Tells, bad_if, block_at, is_valid, valid_unless, verdict_at};
ghost use Rattle.shelf_path.specs.declared.verdict.Verdict.{Verdict};

use crate::anchor::anchor_of;
use crate::certificates::certificates;
use crate::policies::policy_set;
use crate::question::{PathQuestion, question_in};
use crate::revocation::{BadStatus, first_bad};
use crate::revocation_lists::{certificate_count, lists_behind};
use asn1_core::OutOfMemory;
use path_validation::{PathError, PathInputs, PathReason, TrustAnchor, validate_path};
use pem::Block;
use pkix_cert::{CertificateList, CertificateView, GeneralSubtrees};
use shelf_fault::Fault;
use shelf_input::blocks_of_files;
use signature_verifier::SignatureVerifier;
use std::alloc::Global;

/// What comes of a certification path.
#[derive(Clone, Copy, Debug, PartialEq, Eq)]
pub enum Verdict {
    /// It is valid.
    Valid {
        /// How many certificates it has, without the anchor's.
        count: u64,
    },
    /// It isn't.
    Invalid {
        /// The number of the block, from 1, of the first certificate of the path that isn't taken.
        block: u64,
        /// The first reason why.
        reason: PathReason,
    },
}

impl Verdict {
    /// Whether the path is valid.
    pub fn is_valid(self) -> bool
        ensures { result ≡ is_valid self }
    {
        match self {
            Verdict::Valid { count: _ } => true,
            Verdict::Invalid {
                block: _,
                reason: _,
            } => false,
        }
    }
}

/// The number of the block of the certificate at this place of a path of so many.
fn block_at(count: usize, place: u64) -> u64
    requires { count < 2 ^ 63 }
    ensures { result ≡ block_at count place }
{
    (count as u64).saturating_sub(place) + 1
}

/// What comes of a path of so many certificates that is valid where each of them is good.
fn valid_unless(count: usize, bad: Option<BadStatus>) -> Verdict
    requires { count < 2 ^ 63 }
    ensures { result ≡ valid_unless count bad }
{
    match bad {
        None => Verdict::Valid {
            count: count as u64,
        },
        Some(bad) => Verdict::Invalid {
            block: block_at(count, bad.place),
            reason: bad.reason,
        },
    }
}

/// The first certificate that isn't good, where revocation is asked.
fn bad_if(
    alloc: Global,
    asked: bool,
    inputs: &PathInputs,
    lists: &[CertificateList],
    issuers: &[CertificateView<'_>],
    path: &[CertificateView<'_>],
) -> Result<Option<BadStatus>, OutOfMemory>
    ensures { IfOk result (λ bad. bad ≡ bad_if asked inputs.now lists.now issuers.now path.now) }
{
    if !asked {
        return Ok(None);
    }
    first_bad(alloc, inputs, lists, issuers, path)
}

/// The verdict on a path that is valid without revocation.
fn valid_verdict(
    alloc: Global,
    asked: bool,
    lists: &[CertificateList],
    issuers: &[CertificateView<'_>],
    path: &[CertificateView<'_>],
    inputs: &PathInputs,
) -> Result<Verdict, Fault>
    ensures { Tells (valid_unless (length path.now) (bad_if asked inputs.now lists.now issuers.now path.now)) result }
{
    match bad_if(alloc, asked, inputs, lists, issuers, path) {
        Ok(bad) => Ok(valid_unless(path.len(), bad)),
        Err(_) => Err(Fault::OutOfMemory),
    }
}

/// What comes of a path; revocation is asked only of one that is valid without it. Signatures with
/// SHA-1 aren't taken.
fn outcome_of(
    alloc: Global,
    asked: bool,
    lists: &[CertificateList],
    issuers: &[CertificateView<'_>],
    path: &[CertificateView<'_>],
    inputs: &PathInputs,
) -> Result<Verdict, Fault>
    ensures { Tells (verdict_at asked lists.now issuers.now inputs.now path.now) result }
{
    match validate_path(
        alloc,
        path,
        inputs,
        &SignatureVerifier { takes_sha1: false },
    ) {
        Ok(_) => valid_verdict(alloc, asked, lists, issuers, path, inputs),
        Err(PathError::Fault { place, reason }) => Ok(Verdict::Invalid {
            block: block_at(path.len(), place),
            reason,
        }),
        Err(PathError::OutOfMemory) => Err(Fault::OutOfMemory),
    }
}

/// The verdict on these certificates, of which the anchor's is the first and the one that is asked
/// about the last, by these lists and certificates of their issuers.
fn verdict_on(
    alloc: Global,
    question: PathQuestion,
    lists: &[CertificateList],
    issuers: &[CertificateView<'_>],
    certificates: &[CertificateView<'_>],
) -> Result<Verdict, Fault>
    ensures { Judges (asked_of question (record { lists = lists.now; issuers = issuers.now }) certificates.now) result }
{
    let [anchor, path @ ..] = certificates else {
        return Err(Fault::NoBlock);
    };
    let anchor = anchor_of(alloc, certificates.len(), anchor)?;
    let PathQuestion {
        at,
        policies,
        explicit_policy,
        inhibit_policy_mapping,
        inhibit_any_policy,
        revocation,
    } = question;
    let user_initial_policy_set = policy_set(alloc, policies)?;
    let at = at.civil();
    let inputs = PathInputs {
        at,
        user_initial_policy_set,
        anchor,
        initial_policy_mapping_inhibit: inhibit_policy_mapping,
        initial_explicit_policy: explicit_policy,
        initial_any_policy_inhibit: inhibit_any_policy,
        initial_permitted_subtrees: GeneralSubtrees::new(alloc),
        initial_excluded_subtrees: GeneralSubtrees::new(alloc),
        statuses: None,
    };
    outcome_of(alloc, revocation, lists, issuers, path, &inputs)
}

/// The verdict on the certificates of these blocks, by what comes after them.
#[tactic(auto, unfolding(crate::specs::Asked::asked_behind))]
fn verdict_behind(alloc: Global, question: PathQuestion, blocks: &[Block]) -> Result<Verdict, Fault>
    ensures { Judges (asked_behind question blocks.now) result }
{
    let count = certificate_count(question.revocation, blocks);
    let (front, rest) = blocks.split_at(count);
    let mut certificates = certificates(alloc, front)?;
    certificates.reverse();
    let data = lists_behind(alloc, count, rest)?;
    verdict_on(alloc, question, &data.lists, &data.issuers, &certificates)
}

/// What comes of the path that a question asks about, a document of a `PathQuestion`. The files have the
/// certificates, as DER or as blocks `CERTIFICATE` (RFC 7468, 5): the one that is asked about first, each
/// before its issuer's, and the trust anchor's last, of which the subject and the key alone are looked
/// at (RFC 5280, 6.1.1 (d)). No subtrees are given, and signatures with SHA-1 aren't taken.
///
/// Where revocation is asked the revocation lists come after the certificates, as DER or as blocks `X509 CRL`
/// (RFC 7468, 6), complete ones and delta lists (RFC 5280, 6.3). A list counts for a certificate if its own
/// issuer is known above that certificate (6.3.3 (f)): the anchor, a certificate of the path, or another
/// issuer, such as another key of the same name, or an issuer that a distribution point names.
///
/// Blocks `CRL ISSUER CERTIFICATE` after the first list, at most 16, are the certificates of other issuers. They
/// have a label of their own, since a file before the anchor's may come from anybody: if a list there ended
/// the path, the anchor's certificate after it would be refused, and never taken for another. One of them is
/// used if it ends a valid path through the certificates of this path down to its own issuer, at most seven,
/// at the same time and with any policies; if it has cRLSign among its key usages; and if it is good by lists
/// of the issuers that are known before it. Otherwise it is ignored.
///
/// The lists that are tried for a certificate are those of its issuer by name, or of an issuer that one of
/// its points names, with each key of that name: in all at most 64, and 16 for each list.
///
/// Revocation is asked only of a path that is valid without it, and no further than to the first
/// certificate that isn't good; without such lists that is the first one, `Undetermined`.
///
/// A fault says that the input isn't such a question: first what is wrong with the document, then with
/// the blocks, then that there is none or that one isn't a certificate, that one after the first list is
/// neither a list nor a certificate of an issuer, then that a policy isn't a valid object identifier.
#[tactic(auto, unfolding(crate::specs::Asked::asked_in))]
pub fn verdict_of(alloc: Global, question: &[u8], files: &[Vec<u8>]) -> Result<Verdict, Fault>
    ensures { Judges (asked_in question.now (map (λ file. file.items) files.now)) result }
{
    let question = question_in(alloc, question)?;
    let blocks = blocks_of_files(alloc, files)?;
    verdict_behind(alloc, question, &blocks)
}

/// A law: one verdict comes of what is asked.
pub fn one_verdict()
    ensures { (found : Result Asked Fault) (v w : Verdict) → Judges found (Ok v) → Judges found (Ok w) → v ≡ w }
{}
