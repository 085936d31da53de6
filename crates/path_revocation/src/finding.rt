//! What a list says of a certificate, whatever the distribution point (RFC 5280, 6.3.3 (a), (c) and (h) to (k)).
ghost use Rattle.std.specs.Prelude.{◌≡◌, IfOk, map};
ghost use Rattle.path_revocation.specs.Search.{can_correspond, counts, finding_of, finding_with, findings, found_on, is_in_force, status_on};

use crate::delta::{Delta, delta_for, listed_in, listed_on};
use crate::entry::{Revocation, unless_removed};
use crate::given::{GivenList, RevocationInputs};
use crate::list::{is_complete, is_current, issuing_point};
use crate::newer::is_superseded;
use crate::point::is_indirect;
use crate::subject::Subject;
use asn1_core::OutOfMemory;
use jiff::civil::DateTime;
use path_names::names_match;
use pkix_cert::{CertificateList, IssuingDistributionPoint};
use pkix_name::Name;
use std::alloc::Global;

/// What a list says that counts, with its delta list.
#[derive(Drop)]
pub(crate) struct Finding {
    /// The issuer of the list.
    pub(crate) issuer: Name,
    /// What the list covers (RFC 5280, 5.2.5).
    pub(crate) issuing_point: Option<IssuingDistributionPoint>,
    /// None where the certificate isn't revoked by it.
    pub(crate) status: Option<Revocation>,
}

/// What the delta list, or else the list says of the certificate (RFC 5280, 6.3.3 (i) to (k)).
#[tactic(auto, unfolding(crate::specs::Search::status_on))]
fn status_on(
    alloc: Global,
    subject: &Subject,
    delta: &Option<Delta>,
    list: &CertificateList,
) -> Result<Option<Revocation>, OutOfMemory>
    ensures { IfOk result (λ o. o ≡ status_on subject.now delta.now list.now) }
{
    match listed_in(delta) {
        Some(revocation) => Ok(unless_removed(Some(revocation))),
        None => Ok(unless_removed(listed_on(alloc, subject, list)?)),
    }
}

/// Whether the list is current, or a delta list is (RFC 5280, 6.3.3 (a)).
#[tactic(auto, unfolding(crate::specs::Search::is_in_force))]
fn is_in_force(at: DateTime, list: &CertificateList, delta: &Option<Delta>) -> bool
    ensures { result ≡ is_in_force at list.now delta.now }
{
    is_current(at, list) || delta.is_some()
}

/// Whether the list is in force, and no other supersedes it.
#[tactic(auto, unfolding(crate::specs::Search::counts))]
fn counts(
    alloc: Global,
    sound: &[&GivenList],
    inputs: &RevocationInputs,
    given: &GivenList,
    delta: &Option<Delta>,
) -> Result<bool, OutOfMemory>
    ensures { IfOk result (λ b. b ≡ counts (map (λ g. g.now) sound.now) inputs.now given.now delta.now) }
{
    if !is_in_force(inputs.at, &given.list, delta) {
        return Ok(false);
    }
    let is_superseded = is_superseded(alloc, sound, inputs.at, given, delta)?;
    Ok(!is_superseded)
}

/// Whether the list may be one of a point of the certificate (RFC 5280, 6.3.3 (b) (1)).
#[tactic(auto, unfolding(crate::specs::Search::can_correspond))]
fn can_correspond(
    alloc: Global,
    subject: &Subject,
    list: &CertificateList,
) -> Result<bool, OutOfMemory>
    ensures { IfOk result (λ b. b ≡ can_correspond subject.now list.now) }
{
    if names_match(&list.tbs_cert_list.issuer, &subject.issuer) {
        return Ok(true);
    }
    let issuing_point = issuing_point(alloc, list)?;
    Ok(is_indirect(&issuing_point))
}

fn found_on(
    alloc: Global,
    subject: &Subject,
    given: &GivenList,
    delta: &Option<Delta>,
) -> Result<Finding, OutOfMemory>
    ensures { IfOk result (λ f. f ≡ found_on subject.now given.now delta.now) }
{
    let status = status_on(alloc, subject, delta, &given.list)?;
    let issuing_point = issuing_point(alloc, &given.list)?;
    let issuer = given.list.tbs_cert_list.issuer.clone()?;
    Ok(Finding {
        issuer,
        issuing_point,
        status,
    })
}

#[tactic(auto, unfolding(crate::specs::Search::finding_with))]
fn finding_with(
    alloc: Global,
    sound: &[&GivenList],
    inputs: &RevocationInputs,
    subject: &Subject,
    given: &GivenList,
    delta: &Option<Delta>,
) -> Result<Option<Finding>, OutOfMemory>
    ensures { IfOk result (λ o. o ≡ finding_with (map (λ g. g.now) sound.now) inputs.now subject.now given.now delta.now) }
{
    if !counts(alloc, sound, inputs, given, delta)? {
        return Ok(None);
    }
    let found = found_on(alloc, subject, given, delta)?;
    Ok(Some(found))
}

/// What the list says of the certificate; None where it is a delta list, can't be one of a point of
/// the certificate, isn't in force, or is superseded.
#[tactic(auto, unfolding(crate::specs::Search::finding_of))]
fn finding_of(
    alloc: Global,
    sound: &[&GivenList],
    inputs: &RevocationInputs,
    subject: &Subject,
    given: &GivenList,
) -> Result<Option<Finding>, OutOfMemory>
    ensures { IfOk result (λ o. o ≡ finding_of (map (λ g. g.now) sound.now) inputs.now subject.now given.now) }
{
    if !can_correspond(alloc, subject, &given.list)? {
        return Ok(None);
    }
    if !is_complete(&given.list) {
        return Ok(None);
    }
    let delta = delta_for(alloc, sound, inputs, subject, given)?;
    let found = finding_with(alloc, sound, inputs, subject, given, &delta)?;
    Ok(found)
}

/// The same of each list.
pub(crate) fn findings(
    alloc: Global,
    sound: &[&GivenList],
    inputs: &RevocationInputs,
    subject: &Subject,
) -> Result<Vec<Option<Finding>>, OutOfMemory>
    ensures { IfOk result (λ all. all.items ≡ findings (map (λ g. g.now) sound.now) inputs.now subject.now) }
{
    let mut all = Vec::new(alloc);
    for given in sound {
        all.push(finding_of(alloc, sound, inputs, subject, given)?)?;
    }
    Ok(all)
}
