//! The rules that a revocation list breaks (RFC 5280, 5).
ghost use Rattle.std.specs.Prelude.{◌≡◌, ◌++◌, IfOk, not};
ghost use Rattle.std.specs.Option.{option_map};
ghost use Rattle.rule_table.specs.Found.{when};
ghost use Rattle.pkix_rules.specs.Lists.{coverage_rules, extension_rules, frame_rules, has_odd_form, has_parts, has_two, has_unreadable, identity_rules, is_bad_number, is_empty_point};
ghost use Rattle.pkix_rules.specs.Lists.{is_indirect, is_not_later, is_version_2, list_rules, number_rules, point_rules, rules_of, time_rules, two_of};

use crate::certificate::{differ, is_empty_id, issuer_key_id};
use crate::contents::has_loose_contents;
use crate::entry::{entry_rules, have_extensions};
use crate::extension::{
    extension_at, extensions_in, has_critical, has_critical_stranger, has_uncritical,
    is_unreadable, repeats_any, said_at,
};
use crate::frame::{has_fraction, has_wrong_form, is_earlier};
use crate::identifiers::KNOWN_LIST_EXTENSIONS;
use crate::integer::is_negative;
use crate::key::has_bad_parameters;
use crate::name::is_empty_name;
use crate::points::has_bad_name;
use crate::said::key_identifier_in;
use asn1_core::{Integer, OctetString, OutOfMemory};
use der_tree::der;
use pkix_cert::extension_id::{
    ID_CE_AUTHORITY_KEY_IDENTIFIER, ID_CE_CRL_NUMBER, ID_CE_DELTA_CRL_INDICATOR,
    ID_CE_ISSUING_DISTRIBUTION_POINT,
};
use pkix_cert::{
    AuthorityKeyIdentifier, Extension, IssuingDistributionPoint, TbsCertList, Time, Version,
};
use rule_table::{Rule, add, note};
use std::alloc::Global;
use strict_der::is_strict;

/// Whether the list has version 2.
fn is_version_2(version: &Option<Version>) -> bool
    ensures { result ≡ is_version_2 version.now }
{
    match version {
        None => false,
        Some(version) => version.raw_value() == 1,
    }
}

/// Whether the next list is promised for a time that isn't later than this one's.
fn is_not_later(next_update: &Option<Time>, this_update: &Time) -> bool
    ensures { result ≡ is_not_later next_update.now this_update.now }
{
    match next_update {
        None => false,
        Some(next) => !is_earlier(this_update, next),
    }
}

fn has_odd_form(time: &Option<Time>) -> bool
    ensures { result ≡ has_odd_form time.now }
{
    match time {
        None => false,
        Some(time) => has_wrong_form(time),
    }
}

fn has_parts(time: &Option<Time>) -> bool
    ensures { result ≡ has_parts time.now }
{
    match time {
        None => false,
        Some(time) => has_fraction(time),
    }
}

/// Of its times.
#[tactic(auto, unfolding(crate::specs::Lists::time_rules))]
fn time_rules(
    alloc: Global,
    this_update: &Time,
    next_update: &Option<Time>,
) -> Result<Vec<Rule>, OutOfMemory>
    ensures { IfOk result (λ v. v.items ≡ time_rules this_update.now next_update.now) }
{
    let form = has_wrong_form(this_update) || has_odd_form(next_update);
    let fraction = has_fraction(this_update) || has_parts(next_update);
    let mut found = Vec::new(alloc);
    note(&mut found, Rule::TimeForm, form)?;
    note(&mut found, Rule::TimeFraction, fraction)?;
    note(&mut found, Rule::NoNextUpdate, next_update.is_none())?;
    note(
        &mut found,
        Rule::NextUpdateNotLater,
        is_not_later(next_update, this_update),
    )?;
    Ok(found)
}

/// Of the key that signs it.
#[tactic(auto, unfolding(crate::specs::Lists::identity_rules))]
fn identity_rules(
    alloc: Global,
    extensions: &[Extension],
    issuer_key: Option<&OctetString>,
) -> Result<Vec<Rule>, OutOfMemory>
    ensures { IfOk result (λ v. v.items ≡ identity_rules extensions.now (option_map (λ k. k.now) issuer_key.entry)) }
{
    let mut found = Vec::new(alloc);
    let id: Option<AuthorityKeyIdentifier> = said_at(
        alloc,
        extensions,
        ID_CE_AUTHORITY_KEY_IDENTIFIER,
    )?;
    note(
        &mut found,
        Rule::ListWithoutKeyId,
        key_identifier_in(&id).is_none(),
    )?;
    note(
        &mut found,
        Rule::EmptyAuthorityKeyId,
        is_empty_id(key_identifier_in(&id)),
    )?;
    let differs = differ(key_identifier_in(&id), issuer_key);
    note(&mut found, Rule::AuthorityKeyIdDiffers, differs)?;
    let critical = has_critical(extensions, ID_CE_AUTHORITY_KEY_IDENTIFIER);
    note(&mut found, Rule::CriticalAuthorityKeyId, critical)?;
    Ok(found)
}

fn is_bad_number(number: &Option<Integer>) -> bool
    ensures { result ≡ is_bad_number number.now }
{
    match number {
        None => false,
        Some(number) => is_negative(number) || 20 < number.as_bytes().len(),
    }
}

/// Of its number.
#[tactic(auto, unfolding(crate::specs::Lists::number_rules))]
fn number_rules(alloc: Global, extensions: &[Extension]) -> Result<Vec<Rule>, OutOfMemory>
    ensures { IfOk result (λ v. v.items ≡ number_rules extensions.now) }
{
    let mut found = Vec::new(alloc);
    let lacks = extension_at(extensions, ID_CE_CRL_NUMBER).is_none();
    note(&mut found, Rule::NoCrlNumber, lacks)?;
    let number: Option<Integer> = said_at(alloc, extensions, ID_CE_CRL_NUMBER)?;
    note(&mut found, Rule::CrlNumberForm, is_bad_number(&number))?;
    let critical = has_critical(extensions, ID_CE_CRL_NUMBER);
    note(&mut found, Rule::CriticalCrlNumber, critical)?;
    let delta = has_uncritical(extensions, ID_CE_DELTA_CRL_INDICATOR);
    note(&mut found, Rule::UncriticalDeltaIndicator, delta)?;
    Ok(found)
}

/// Whether two of three are so.
fn two_of(a: bool, b: bool, c: bool) -> bool
    ensures { result ≡ two_of a b c }
{
    (a && b) || (a && c) || (b && c)
}

fn has_two(point: &IssuingDistributionPoint) -> bool
    ensures { result ≡ has_two point.now }
{
    two_of(
        point.only_contains_user_certs,
        point.only_contains_ca_certs,
        point.only_contains_attribute_certs,
    )
}

fn is_empty_point(point: &IssuingDistributionPoint) -> bool
    ensures { result ≡ is_empty_point point.now }
{
    point.distribution_point.is_none()
        && point.only_some_reasons.is_none()
        && !point.only_contains_user_certs
        && !point.only_contains_ca_certs
        && !point.indirect_crl
        && !point.only_contains_attribute_certs
}

/// Whether the list has entries of other issuers.
fn is_indirect(point: &Option<IssuingDistributionPoint>) -> bool
    ensures { result ≡ is_indirect point.now }
{
    match point {
        None => false,
        Some(point) => point.indirect_crl,
    }
}

/// Of what it covers.
#[tactic(auto, unfolding(crate::specs::Lists::point_rules))]
fn point_rules(
    alloc: Global,
    point: &Option<IssuingDistributionPoint>,
) -> Result<Vec<Rule>, OutOfMemory>
    ensures { IfOk result (λ v. v.items ≡ point_rules point.now) }
{
    let mut found = Vec::new(alloc);
    let Some(point) = point else {
        return Ok(found);
    };
    note(&mut found, Rule::EmptyIssuingPoint, is_empty_point(point))?;
    note(&mut found, Rule::IssuingPointFlags, has_two(point))?;
    note(
        &mut found,
        Rule::IssuingPointUri,
        has_bad_name(&point.distribution_point),
    )?;
    Ok(found)
}

/// Whether one of the extensions that are read can't be read.
fn has_unreadable(alloc: Global, extensions: &[Extension]) -> Result<bool, OutOfMemory>
    ensures { IfOk result (λ b. b ≡ has_unreadable extensions.now) }
{
    let authority = is_unreadable::<AuthorityKeyIdentifier>(
        alloc,
        extensions,
        ID_CE_AUTHORITY_KEY_IDENTIFIER,
    )?;
    let number = is_unreadable::<Integer>(alloc, extensions, ID_CE_CRL_NUMBER)?;
    let point = is_unreadable::<IssuingDistributionPoint>(
        alloc,
        extensions,
        ID_CE_ISSUING_DISTRIBUTION_POINT,
    )?;
    Ok(authority || number || point)
}

/// Of its extensions.
#[tactic(auto, unfolding(crate::specs::Lists::extension_rules))]
fn extension_rules(alloc: Global, extensions: &[Extension]) -> Result<Vec<Rule>, OutOfMemory>
    ensures { IfOk result (λ v. v.items ≡ extension_rules extensions.now) }
{
    let mut found = Vec::new(alloc);
    let repeats = repeats_any(alloc, extensions)?;
    note(&mut found, Rule::ExtensionTwice, repeats)?;
    let unreadable = has_unreadable(alloc, extensions)?;
    note(&mut found, Rule::UnreadableExtension, unreadable)?;
    note(
        &mut found,
        Rule::ExtensionNotDer,
        has_loose_contents(extensions),
    )?;
    let stranger = has_critical_stranger(extensions, KNOWN_LIST_EXTENSIONS);
    note(&mut found, Rule::UnknownCriticalExtension, stranger)?;
    let point = has_uncritical(extensions, ID_CE_ISSUING_DISTRIBUTION_POINT);
    note(&mut found, Rule::UncriticalIssuingPoint, point)?;
    Ok(found)
}

/// Of its version, issuer and algorithm.
#[tactic(auto, unfolding(crate::specs::Lists::frame_rules))]
fn frame_rules(alloc: Global, list: &TbsCertList) -> Result<Vec<Rule>, OutOfMemory>
    ensures { IfOk result (λ v. v.items ≡ frame_rules list.now) }
{
    let versioned = list.version.is_some()
        || list.crl_extensions.is_some()
        || have_extensions(list.revoked_certificates.as_slice());
    let mut found = Vec::new(alloc);
    note(
        &mut found,
        Rule::ListVersion,
        versioned && !is_version_2(&list.version),
    )?;
    note(
        &mut found,
        Rule::ListEmptyIssuer,
        is_empty_name(&list.issuer),
    )?;
    note(
        &mut found,
        Rule::SignatureParameters,
        has_bad_parameters(&list.signature),
    )?;
    let others = time_rules(alloc, &list.this_update, &list.next_update)?;
    add(&mut found, others)?;
    Ok(found)
}

/// Of its entries and what it covers.
#[tactic(auto, unfolding(crate::specs::Lists::coverage_rules))]
fn coverage_rules(
    alloc: Global,
    list: &TbsCertList,
    extensions: &[Extension],
) -> Result<Vec<Rule>, OutOfMemory>
    ensures { IfOk result (λ v. v.items ≡ coverage_rules list.now extensions.now) }
{
    let point: Option<IssuingDistributionPoint> = said_at(
        alloc,
        extensions,
        ID_CE_ISSUING_DISTRIBUTION_POINT,
    )?;
    let mut found = point_rules(alloc, &point)?;
    let is_delta = extension_at(extensions, ID_CE_DELTA_CRL_INDICATOR).is_some();
    let others = entry_rules(
        alloc,
        list.revoked_certificates.as_slice(),
        &list.this_update,
        is_indirect(&point),
        is_delta,
    )?;
    add(&mut found, others)?;
    Ok(found)
}

/// The rules that a list breaks, in order.
#[tactic(auto, unfolding(crate::specs::Lists::rules_of))]
fn rules_of(
    alloc: Global,
    list: &TbsCertList,
    issuer_key: Option<&OctetString>,
) -> Result<Vec<Rule>, OutOfMemory>
    ensures { IfOk result (λ v. v.items ≡ rules_of list.now (option_map (λ k. k.now) issuer_key.entry)) }
{
    let extensions = extensions_in(&list.crl_extensions);
    let mut found = frame_rules(alloc, list)?;
    let others = extension_rules(alloc, extensions)?;
    add(&mut found, others)?;
    let others = identity_rules(alloc, extensions, issuer_key)?;
    add(&mut found, others)?;
    let others = number_rules(alloc, extensions)?;
    add(&mut found, others)?;
    let others = coverage_rules(alloc, list, extensions)?;
    add(&mut found, others)?;
    Ok(found)
}

/// These, and whether its octets are strict DER.
fn all_rules_of(
    alloc: Global,
    list: &TbsCertList,
    issuer_key: &Option<OctetString>,
    strict: bool,
) -> Result<Vec<Rule>, OutOfMemory>
    ensures { IfOk result (λ v. v.items ≡ rules_of list.now issuer_key.now ++ when (not strict) Rule.NotStrictDer) }
{
    let mut found = rules_of(alloc, list, issuer_key.as_ref())?;
    note(&mut found, Rule::NotStrictDer, !strict)?;
    Ok(found)
}

/// The rules that the list breaks of which `message` is the DER of what is to be signed (RFC 5280, 5.1.2), in order, beside its issuer's
/// certificate, of which the DER is given where it is known. Octets that can't be read break none.
#[tactic(auto, unfolding(crate::specs::Lists::list_rules))]
pub fn list_rules(
    alloc: Global,
    message: &[u8],
    issuer: Option<&[u8]>,
) -> Result<Vec<Rule>, OutOfMemory>
    ensures { IfOk result (λ w. w.items ≡ list_rules message.now (option_map (λ octets. octets.now) issuer.entry)) }
{
    let list: Option<TbsCertList> = der::value_of(alloc, message)?;
    let Some(list) = list else {
        return Ok(Vec::new(alloc));
    };
    let key = issuer_key_id(alloc, issuer)?;
    let found = all_rules_of(alloc, &list, &key, is_strict(message))?;
    Ok(found)
}
