//! The search of all lists (RFC 5280, 6.3.3).
ghost use Rattle.std.specs.Prelude.{◌≡◌, IfOk, fold, map};
ghost use Rattle.path_revocation.specs.Search.{after_lists, after_points, corresponds, first_state, interim_reasons};
ghost use Rattle.path_revocation.specs.Search.{is_revoked, revocation, status_among, status_at_points};
ghost use Rattle.path_revocation.specs.Search.{status_of, step, told};

use crate::entry::Revocation;
use crate::finding::{Finding, findings};
use crate::given::{GivenList, RevocationInputs};
use crate::limits::{are_few, is_too_much};
use crate::point::{has_scope, is_of_issuer};
use crate::reasons::Reasons;
use crate::signed::sound_lists;
use crate::status::RevocationStatus;
use crate::subject::{Subject, is_readable_certificate, points_of, subject_of};
use asn1_core::OutOfMemory;
use der_tree::SequenceOf;
use pkix_cert::{Certificate, DistributionPoint, IssuingDistributionPoint};
use pkix_name::Name;
use rcgen_sign::Verifier;
use std::alloc::Global;

/// The state of the search (RFC 5280, 6.3.2).
#[derive(Clone, Copy)]
pub(crate) struct Search {
    /// The reasons for which it is known whether the certificate is revoked (a).
    pub(crate) reasons_mask: Reasons,
    /// None where the certificate isn't revoked for one of them (b).
    pub(crate) cert_status: Option<Revocation>,
}

/// Whether a list of this issuer and issuing distribution point is of the point, and covers the
/// certificate (RFC 5280, 6.3.3 (b)).
#[tactic(auto, unfolding(crate::specs::Search::corresponds))]
fn corresponds(
    alloc: Global,
    subject: &Subject,
    point: &DistributionPoint,
    issuer: &Name,
    issuing_point: &Option<IssuingDistributionPoint>,
) -> Result<bool, OutOfMemory>
    ensures { IfOk result (λ b. b ≡ corresponds subject.now point.now issuer.now issuing_point.now) }
{
    if !is_of_issuer(&subject.issuer, &point.crl_issuer, issuer, issuing_point) {
        return Ok(false);
    }
    has_scope(alloc, subject.is_ca, point, issuer, issuing_point)
}

/// The reasons of the list at the point (RFC 5280, 6.3.3 (d)).
#[tactic(auto, unfolding(crate::specs::Search::interim_reasons))]
fn interim_reasons(
    point: &DistributionPoint,
    issuing_point: &Option<IssuingDistributionPoint>,
) -> Reasons
    ensures { result ≡ interim_reasons point.now issuing_point.now }
{
    let of_point = Reasons::of(&point.reasons);
    match issuing_point {
        None => of_point.intersection(Reasons::of(&None)),
        Some(q) => of_point.intersection(Reasons::of(&q.only_some_reasons)),
    }
}

/// Whether the certificate is revoked by a list that was asked.
#[tactic(auto, unfolding(crate::specs::Search::is_revoked))]
fn is_revoked(search: Search) -> bool
    ensures { result ≡ is_revoked search }
{
    search.cert_status.is_some()
}

/// The state after a list that counts (RFC 5280, 6.3.3 (b), (d) and (l)).
#[tactic(auto, unfolding(crate::specs::Search::told))]
fn told(
    alloc: Global,
    subject: &Subject,
    point: &DistributionPoint,
    search: Search,
    finding: &Finding,
) -> Result<Search, OutOfMemory>
    ensures { IfOk result (λ s. s ≡ told subject.now point.now search finding.now) }
{
    if is_revoked(search) {
        return Ok(search);
    }
    if !corresponds(
        alloc,
        subject,
        point,
        &finding.issuer,
        &finding.issuing_point,
    )? {
        return Ok(search);
    }
    let interim = interim_reasons(point, &finding.issuing_point);
    Ok(Search {
        reasons_mask: search.reasons_mask.union(interim),
        cert_status: finding.status,
    })
}

/// The state after a list.
fn step(
    alloc: Global,
    subject: &Subject,
    point: &DistributionPoint,
    search: Search,
    finding: &Option<Finding>,
) -> Result<Search, OutOfMemory>
    ensures { IfOk result (λ s. s ≡ step subject.now point.now search finding.now) }
{
    match finding {
        None => Ok(search),
        Some(finding) => told(alloc, subject, point, search, finding),
    }
}

/// The state after all lists at a point.
#[tactic(auto, unfolding(crate::specs::Search::after_lists))]
fn after_lists(
    alloc: Global,
    subject: &Subject,
    findings: &[Option<Finding>],
    search: Search,
    point: &DistributionPoint,
) -> Result<Search, OutOfMemory>
    ensures { IfOk result (λ s. s ≡ after_lists subject.now findings.now search point.now) }
{
    let mut state = search;
    for finding in findings {
        state = step(alloc, subject, point, state, finding)?;
    }
    Ok(state)
}

#[tactic(auto, unfolding(crate::specs::Search::status_of))]
fn status_of(search: Search) -> RevocationStatus
    ensures { result ≡ status_of search }
{
    match search.cert_status {
        Some(revocation) => RevocationStatus::Revoked {
            at: revocation.at,
            reason: revocation.reason,
        },
        None if search.reasons_mask.are_all() => RevocationStatus::Good,
        None => RevocationStatus::Undetermined,
    }
}

/// What is known after all points.
fn status_behind(
    alloc: Global,
    subject: &Subject,
    findings: &[Option<Finding>],
    points: &[DistributionPoint],
) -> Result<RevocationStatus, OutOfMemory>
    ensures { IfOk result (λ status. status ≡ status_of (fold (after_lists subject.now findings.now) first_state points.now)) }
{
    let mut state = Search {
        reasons_mask: Reasons::none(),
        cert_status: None,
    };
    for point in points {
        state = after_lists(alloc, subject, findings, state, point)?;
    }
    Ok(status_of(state))
}

/// The same of a certificate; undetermined where its points and the lists have more names than are
/// compared.
#[tactic(auto, unfolding(crate::specs::Search::status_at_points, crate::specs::Search::after_points))]
fn status_at_points(
    alloc: Global,
    sound: &[&GivenList],
    inputs: &RevocationInputs,
    certificate: &Certificate,
) -> Result<RevocationStatus, OutOfMemory>
    ensures { IfOk result (λ status. status ≡ status_at_points (map (λ g. g.now) sound.now) inputs.now certificate.now) }
{
    let subject = subject_of(alloc, certificate)?;
    let points = points_of(alloc, certificate)?;
    let findings = findings(alloc, sound, inputs, &subject)?;
    if is_too_much(&subject.issuer, points.as_slice(), findings.as_slice()) {
        return Ok(RevocationStatus::Undetermined);
    }
    let status = status_behind(alloc, &subject, findings.as_slice(), points.as_slice())?;
    Ok(status)
}

/// Whether the certificate is revoked, by lists of which each can be used and is well signed.
#[tactic(auto, unfolding(crate::specs::Search::status_among))]
fn status_among(
    alloc: Global,
    sound: &[&GivenList],
    inputs: &RevocationInputs,
    certificate: &Certificate,
) -> Result<RevocationStatus, OutOfMemory>
    ensures { IfOk result (λ status. status ≡ status_among (map (λ g. g.now) sound.now) inputs.now certificate.now) }
{
    if !is_readable_certificate(alloc, certificate)? {
        return Ok(RevocationStatus::Undetermined);
    }
    if !are_few(sound) {
        return Ok(RevocationStatus::Undetermined);
    }
    status_at_points(alloc, sound, inputs, certificate)
}

/// Whether the certificate is revoked by the lists that are given (RFC 5280, 6.3.3): by each of a
/// distribution point of the certificate, but for one that a newer one of its issuer and scope
/// supersedes. The order of the lists decides only which of those that revoke it says when and why.
/// Undetermined where they don't cover all reasons, where an extension of the certificate that is read
/// can't be read, where more than 512 lists can be used and are well signed, and where comparing the names
/// of all points with those of all lists would read more than 1,000,000 octets.
///
/// A list's entries are read, and its signature is checked, once. Apart from that the time grows with the
/// number of lists that can be used, and with the square of the number of those of one issuer.
#[tactic(auto, unfolding(crate::specs::Search::revocation))]
pub fn revocation_status<V: Verifier>(
    alloc: Global,
    certificate: &Certificate,
    inputs: &RevocationInputs,
    verifier: &V,
) -> Result<RevocationStatus, OutOfMemory>
    ensures { IfOk result (λ status. status ≡ revocation (V.accepts verifier.now) inputs.now certificate.now) }
{
    let sound = sound_lists(alloc, inputs, verifier)?;
    let status = status_among(alloc, sound.as_slice(), inputs, certificate)?;
    Ok(status)
}

fn statuses_by(
    alloc: Global,
    sound: &[&GivenList],
    inputs: &RevocationInputs,
    path: &[Certificate],
) -> Result<SequenceOf<RevocationStatus>, OutOfMemory>
    ensures { IfOk result (λ statuses. statuses ≡ map (status_among (map (λ g. g.now) sound.now) inputs.now) path.now) }
{
    let mut statuses = Vec::with_capacity(alloc, path.len())?;
    for certificate in path {
        statuses.push(status_among(alloc, sound, inputs, certificate)?)?;
    }
    Ok(SequenceOf::from_vec(statuses))
}

/// The same of each certificate of a path, in order, as who validates the path asks it (RFC 5280,
/// 6.1.3 (a) (3)).
#[tactic(auto, unfolding(crate::specs::Search::revocation))]
pub fn revocation_statuses<V: Verifier>(
    alloc: Global,
    path: &[Certificate],
    inputs: &RevocationInputs,
    verifier: &V,
) -> Result<SequenceOf<RevocationStatus>, OutOfMemory>
    ensures { IfOk result (λ statuses. statuses ≡ map (revocation (V.accepts verifier.now) inputs.now) path.now) }
{
    let sound = sound_lists(alloc, inputs, verifier)?;
    let statuses = statuses_by(alloc, sound.as_slice(), inputs, path)?;
    Ok(statuses)
}
