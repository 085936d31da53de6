//! Delta lists (RFC 5280, 5.2.4 and 6.3.3 (a), (c), (h) and (i)).
ghost use Rattle.std.specs.Prelude.{◌≡◌, IfOk, map};
ghost use Rattle.std.specs.Option.{option_map};
ghost use Rattle.path_revocation.specs.Deltas.{are_in_order, asks_delta, base_number, crl_number, delta_for, follows, is_delta_of, is_newer, is_used_delta};
ghost use Rattle.path_revocation.specs.Deltas.{key_contents, listed_in, listed_on, newer, newer_of, newest};
ghost use Rattle.path_revocation.specs.Lists.{same_octets};

use crate::entry::{Revocation, found};
use crate::extension::{contents_at, has_freshest, said};
use crate::given::{GivenList, RevocationInputs};
use crate::list::{is_current, point_contents};
use crate::signed::same_key;
use crate::subject::Subject;
use asn1_core::{Integer, OutOfMemory};
use jiff::civil::DateTime;
use path_names::names_match;
use pkix_cert::extension_id::{
    ID_CE_AUTHORITY_KEY_IDENTIFIER, ID_CE_CRL_NUMBER, ID_CE_DELTA_CRL_INDICATOR,
};
use pkix_cert::{BaseCrlNumber, CertificateList, CrlNumber};
use std::alloc::Global;

/// A delta list that is used, as far as it speaks of the certificate.
#[derive(Drop)]
pub(crate) struct Delta {
    pub(crate) number: CrlNumber,
    pub(crate) listed: Option<Revocation>,
}

#[tactic(auto, unfolding(crate::specs::Deltas::crl_number))]
pub(crate) fn crl_number(
    alloc: Global,
    list: &CertificateList,
) -> Result<Option<CrlNumber>, OutOfMemory>
    ensures { IfOk result (λ o. o ≡ crl_number list.now) }
{
    said(
        alloc,
        contents_at(&list.tbs_cert_list.crl_extensions, ID_CE_CRL_NUMBER),
    )
}

/// The number of the list that the delta list adds to.
#[tactic(auto, unfolding(crate::specs::Deltas::base_number))]
fn base_number(alloc: Global, list: &CertificateList) -> Result<Option<BaseCrlNumber>, OutOfMemory>
    ensures { IfOk result (λ o. o ≡ base_number list.now) }
{
    said(
        alloc,
        contents_at(
            &list.tbs_cert_list.crl_extensions,
            ID_CE_DELTA_CRL_INDICATOR,
        ),
    )
}

#[tactic(auto, unfolding(crate::specs::Deltas::key_contents))]
fn key_contents(list: &CertificateList) -> Option<&[u8]>
    ensures { option_map (λ contents. contents.now) result ≡ key_contents list.now }
{
    contents_at(
        &list.tbs_cert_list.crl_extensions,
        ID_CE_AUTHORITY_KEY_IDENTIFIER,
    )
}

pub(crate) fn same_contents(a: Option<&[u8]>, b: Option<&[u8]>) -> bool
    ensures { result ≡ same_octets (option_map (λ octets. octets.now) a.entry) (option_map (λ octets. octets.now) b.entry) }
{
    match (a, b) {
        (None, None) => true,
        (Some(a), Some(b)) => a == b,
        _ => false,
    }
}

/// What the list says of the certificate (RFC 5280, 5.3.3).
#[tactic(auto, unfolding(crate::specs::Deltas::listed_on))]
pub(crate) fn listed_on(
    alloc: Global,
    subject: &Subject,
    list: &CertificateList,
) -> Result<Option<Revocation>, OutOfMemory>
    ensures { IfOk result (λ o. o ≡ listed_on subject.now list.now) }
{
    let tbs = &list.tbs_cert_list;
    let first = names_match(&tbs.issuer, &subject.issuer);
    let entries = tbs.revoked_certificates.as_slice();
    found(
        alloc,
        &subject.issuer,
        &subject.serial_number,
        first,
        entries,
    )
}

fn are_in_order(
    base: &Option<BaseCrlNumber>,
    complete: &Option<CrlNumber>,
    delta: &Option<CrlNumber>,
) -> bool
    ensures { result ≡ are_in_order base.now complete.now delta.now }
{
    match (base, complete, delta) {
        (Some(base), Some(complete), Some(delta)) => base.cmp(complete).is_le()
            && complete.cmp(delta).is_lt(),
        _ => false,
    }
}

/// Whether the numbers of the two say that the second may be applied to the first (RFC 5280, 5.2.4).
#[tactic(auto, unfolding(crate::specs::Deltas::follows))]
fn follows(
    alloc: Global,
    list: &CertificateList,
    delta: &CertificateList,
) -> Result<bool, OutOfMemory>
    ensures { IfOk result (λ b. b ≡ follows list.now delta.now) }
{
    let base = base_number(alloc, delta)?;
    let complete = crl_number(alloc, list)?;
    let number = crl_number(alloc, delta)?;
    Ok(are_in_order(&base, &complete, &number))
}

/// Whether the second is a delta list of the first (RFC 5280, 6.3.3 (c)).
#[tactic(auto, unfolding(crate::specs::Deltas::is_delta_of))]
fn is_delta_of(
    alloc: Global,
    list: &CertificateList,
    delta: &CertificateList,
) -> Result<bool, OutOfMemory>
    ensures { IfOk result (λ b. b ≡ is_delta_of list.now delta.now) }
{
    if !names_match(&delta.tbs_cert_list.issuer, &list.tbs_cert_list.issuer) {
        return Ok(false);
    }
    if !same_contents(point_contents(delta), point_contents(list)) {
        return Ok(false);
    }
    if !same_contents(key_contents(delta), key_contents(list)) {
        return Ok(false);
    }
    follows(alloc, list, delta)
}

/// Whether the second is applied to the first (RFC 5280, 6.3.3 (a), (c) and (h)).
#[tactic(auto, unfolding(crate::specs::Deltas::is_used_delta))]
fn is_used_delta(
    alloc: Global,
    at: DateTime,
    given: &GivenList,
    delta: &GivenList,
) -> Result<bool, OutOfMemory>
    ensures { IfOk result (λ b. b ≡ is_used_delta at given.now delta.now) }
{
    if !is_delta_of(alloc, &given.list, &delta.list)? {
        return Ok(false);
    }
    Ok(same_key(&given.issuer, &delta.issuer) && is_current(at, &delta.list))
}

fn is_newer(number: &Integer, best: &Option<Delta>) -> bool
    ensures { result ≡ is_newer number.now best.now }
{
    match best {
        None => true,
        Some(best) => best.number.cmp(number).is_lt(),
    }
}

/// The delta list of this number, where it is newer than the best so far.
fn newer_of(
    alloc: Global,
    subject: &Subject,
    best: Option<Delta>,
    number: Option<CrlNumber>,
    list: &CertificateList,
) -> Result<Option<Delta>, OutOfMemory>
    ensures { IfOk result (λ o. o ≡ newer_of best number (listed_on subject.now list.now)) }
{
    let Some(number) = number else {
        return Ok(best);
    };
    if !is_newer(&number, &best) {
        return Ok(best);
    }
    let listed = listed_on(alloc, subject, list)?;
    Ok(Some(Delta { number, listed }))
}

/// The given list, where it is applied and newer than the best so far.
#[tactic(auto, unfolding(crate::specs::Deltas::newer))]
fn newer(
    alloc: Global,
    at: DateTime,
    subject: &Subject,
    given: &GivenList,
    best: Option<Delta>,
    delta: &GivenList,
) -> Result<Option<Delta>, OutOfMemory>
    ensures { IfOk result (λ o. o ≡ newer at subject.now given.now best delta.now) }
{
    if !is_used_delta(alloc, at, given, delta)? {
        return Ok(best);
    }
    let number = crl_number(alloc, &delta.list)?;
    newer_of(alloc, subject, best, number, &delta.list)
}

/// The delta list with the highest number.
#[tactic(auto, unfolding(crate::specs::Deltas::newest))]
fn newest(
    alloc: Global,
    sound: &[&GivenList],
    at: DateTime,
    subject: &Subject,
    given: &GivenList,
) -> Result<Option<Delta>, OutOfMemory>
    ensures { IfOk result (λ o. o ≡ newest (map (λ g. g.now) sound.now) at subject.now given.now) }
{
    let mut best = None;
    for other in sound {
        best = newer(alloc, at, subject, given, best, other)?;
    }
    Ok(best)
}

/// Whether a delta list is asked for (RFC 5280, 6.3.3 (a)).
#[tactic(auto, unfolding(crate::specs::Deltas::asks_delta))]
fn asks_delta(inputs: &RevocationInputs, subject: &Subject, list: &CertificateList) -> bool
    ensures { result ≡ asks_delta inputs.now subject.now list.now }
{
    inputs.use_deltas && (subject.has_freshest || has_freshest(&list.tbs_cert_list.crl_extensions))
}

/// The delta list that is applied to this one.
#[tactic(auto, unfolding(crate::specs::Deltas::delta_for))]
pub(crate) fn delta_for(
    alloc: Global,
    sound: &[&GivenList],
    inputs: &RevocationInputs,
    subject: &Subject,
    given: &GivenList,
) -> Result<Option<Delta>, OutOfMemory>
    ensures { IfOk result (λ o. o ≡ delta_for (map (λ g. g.now) sound.now) inputs.now subject.now given.now) }
{
    if !asks_delta(inputs, subject, &given.list) {
        return Ok(None);
    }
    newest(alloc, sound, inputs.at, subject, given)
}

/// What the delta list says of the certificate (RFC 5280, 6.3.3 (i)).
pub(crate) fn listed_in(delta: &Option<Delta>) -> Option<Revocation>
    ensures { result ≡ listed_in delta.now }
{
    match delta {
        None => None,
        Some(delta) => delta.listed,
    }
}
