//! What makes each path through a certificate invalid, whatever is issued under it.
ghost use Rattle.std.specs.Prelude.{◌≡◌, IfOk};
ghost use Rattle.std.specs.List.{list_any};
ghost use Rattle.std.specs.Option.{option_map};
ghost use Rattle.extension_lookup.specs.Lookup.{read_from};
ghost use Rattle.issuer_check.specs.Judged.{algorithms_differ, authority_checked, authority_fault, has_empty_subject, has_length_below_zero, has_negative_path_length};
ghost use Rattle.issuer_check.specs.Judged.{has_first_usages, has_last_usages, has_unread_extension, has_unread_names, has_unread_policies, has_usage, is_below_zero, is_one_of, is_unknown_critical};
ghost use Rattle.issuer_check.specs.Judged.{is_unread_value, is_version_3, issuer_checked, issuer_fault, lacks_usage};
ghost use Rattle.issuer_check.specs.Judged.{left_to_others, processed, states_no_usage, unless_fault};
ghost use Rattle.shelf_fault.specs.Faults.{Passes};

use asn1_core::{BitString, Integer, OctetString, OutOfMemory};
use der_tree::{DerType, der, one_window};
use extension_lookup::{are_distinct, contents_at};
use pkix_cert::extension_id::{
    BASIC_CONSTRAINTS_DER, CERTIFICATE_POLICIES_DER, CRL_DISTRIBUTION_POINTS_DER,
    EXT_KEY_USAGE_DER, FRESHEST_CRL_DER, INHIBIT_ANY_POLICY_DER, ISSUER_ALT_NAME_DER,
    KEY_USAGE_DER, NAME_CONSTRAINTS_DER, POLICY_CONSTRAINTS_DER, POLICY_MAPPINGS_DER,
    SUBJECT_ALT_NAME_DER, SUBJECT_KEY_IDENTIFIER_DER,
};
use pkix_cert::{BasicConstraints, CertificateView, NameConstraints};
use pkix_name::GeneralNames;
use pkix_trust::{CertificatePolicies, PolicyConstraints, PolicyMappings};
use shelf_fault::{Fault, IssuerFault};
use std::alloc::Global;
use strict_der::is_strict;

/// The DER encoding of the identifier of the issuer's key (RFC 5280, 4.2.1.1).
const AUTHORITY_KEY_IDENTIFIER_DER: &[u8] = &[0x06, 0x03, 0x55, 0x1D, 0x23];

/// The DER of a name without parts.
const NO_PARTS: &[u8] = &[0x30, 0x00];

/// What the contents of what is signed begin with in version 3 (RFC 5280, 4.1.2.1).
const VERSION_3: &[u8] = &[0xA0, 0x03, 0x02, 0x01, 0x02];

fn has_empty_subject(view: &CertificateView<'_>) -> bool
    ensures { result ≡ has_empty_subject view.now }
{
    view.subject() == NO_PARTS
}

fn algorithms_differ(view: &CertificateView<'_>) -> bool
    ensures { result ≡ algorithms_differ view.now }
{
    view.tbs_signature() != view.signature_algorithm()
}

/// Whether the extension binds only who uses the key, who looks for revocation lists or who looks
/// for certificates.
#[tactic(auto, unfolding(crate::specs::Judged::is_one_of))]
fn is_left_to_others(id: &[u8]) -> bool
    ensures { result ≡ is_one_of left_to_others id.now }
{
    id == EXT_KEY_USAGE_DER
        || id == CRL_DISTRIBUTION_POINTS_DER
        || id == FRESHEST_CRL_DER
        || id == AUTHORITY_KEY_IDENTIFIER_DER
        || id == SUBJECT_KEY_IDENTIFIER_DER
        || id == ISSUER_ALT_NAME_DER
}

/// Whether a step of path validation processes the extension.
#[tactic(auto, unfolding(crate::specs::Judged::is_one_of))]
fn is_processed(id: &[u8]) -> bool
    ensures { result ≡ is_one_of processed id.now }
{
    id == KEY_USAGE_DER
        || id == SUBJECT_ALT_NAME_DER
        || id == BASIC_CONSTRAINTS_DER
        || id == NAME_CONSTRAINTS_DER
        || id == CERTIFICATE_POLICIES_DER
        || id == POLICY_MAPPINGS_DER
        || id == POLICY_CONSTRAINTS_DER
        || id == INHIBIT_ANY_POLICY_DER
}

/// Whether a critical extension isn't known.
fn has_unknown_critical(view: &CertificateView<'_>) -> bool
    ensures { result ≡ list_any is_unknown_critical view.now.extensions }
{
    for extension in view.extensions() {
        if extension.critical && !is_processed(extension.id) && !is_left_to_others(extension.id) {
            return true;
        }
    }
    false
}

/// Whether one of the first four usages is stated (RFC 5280, 4.2.1.3).
fn has_first_usages(bits: &BitString) -> bool
    ensures { result ≡ has_first_usages bits.now }
{
    bits.bit(0) || bits.bit(1) || bits.bit(2) || bits.bit(3)
}

/// Whether one of the last five is.
fn has_last_usages(bits: &BitString) -> bool
    ensures { result ≡ has_last_usages bits.now }
{
    bits.bit(4) || bits.bit(5) || bits.bit(6) || bits.bit(7) || bits.bit(8)
}

fn has_usage(bits: &BitString) -> bool
    ensures { result ≡ has_usage bits.now }
{
    has_first_usages(bits) || has_last_usages(bits)
}

fn lacks_usage(usage: &Option<BitString>) -> bool
    ensures { result ≡ lacks_usage usage.now }
{
    match usage {
        Some(bits) => !has_usage(bits),
        None => false,
    }
}

/// What the octets say, where there are any and they are one value.
#[tactic(auto, unfolding(extension_lookup::specs::Lookup::read_from))]
fn said<T: DerType>(alloc: Global, contents: Option<&[u8]>) -> Result<Option<T>, OutOfMemory>
    ensures { IfOk result (λ o. o ≡ read_from T.codec (option_map (λ octets. octets.now) contents.entry)) }
{
    match contents {
        Some(octets) => der::value_of(alloc, octets),
        None => Ok(None),
    }
}

/// Whether key usage is there and states none (RFC 5280, 4.2.1.3).
#[tactic(auto, unfolding(crate::specs::Judged::states_no_usage))]
fn states_no_usage(alloc: Global, view: &CertificateView<'_>) -> Result<bool, OutOfMemory>
    ensures { IfOk result (λ b. b ≡ states_no_usage view.now) }
{
    let usage = said::<BitString>(alloc, contents_at(view, KEY_USAGE_DER))?;
    Ok(lacks_usage(&usage))
}

/// Whether contents are there that aren't one value of the type.
fn is_unread<T: DerType>(alloc: Global, contents: Option<&[u8]>) -> Result<bool, OutOfMemory>
    ensures { IfOk result (λ b. b ≡ is_unread_value T.codec (option_map (λ octets. octets.now) contents.entry)) }
{
    match contents {
        None => Ok(false),
        Some(octets) => {
            let value: Option<T> = der::value_of(alloc, octets)?;
            Ok(value.is_none())
        }
    }
}

/// Whether the identifier of its key, what its key is for, its other names or its constraints can't be read.
fn has_unread_names(alloc: Global, view: &CertificateView<'_>) -> Result<bool, OutOfMemory>
    ensures { IfOk result (λ b. b ≡ has_unread_names view.now) }
{
    if is_unread::<OctetString>(alloc, contents_at(view, SUBJECT_KEY_IDENTIFIER_DER))? {
        return Ok(true);
    }
    if is_unread::<BitString>(alloc, contents_at(view, KEY_USAGE_DER))? {
        return Ok(true);
    }
    if is_unread::<GeneralNames>(alloc, contents_at(view, SUBJECT_ALT_NAME_DER))? {
        return Ok(true);
    }
    if is_unread::<BasicConstraints>(alloc, contents_at(view, BASIC_CONSTRAINTS_DER))? {
        return Ok(true);
    }
    is_unread::<NameConstraints>(alloc, contents_at(view, NAME_CONSTRAINTS_DER))
}

/// Whether its policies or what it says of policies can't be read.
fn has_unread_policies(alloc: Global, view: &CertificateView<'_>) -> Result<bool, OutOfMemory>
    ensures { IfOk result (λ b. b ≡ has_unread_policies view.now) }
{
    if is_unread::<CertificatePolicies>(alloc, contents_at(view, CERTIFICATE_POLICIES_DER))? {
        return Ok(true);
    }
    if is_unread::<PolicyMappings>(alloc, contents_at(view, POLICY_MAPPINGS_DER))? {
        return Ok(true);
    }
    if is_unread::<PolicyConstraints>(alloc, contents_at(view, POLICY_CONSTRAINTS_DER))? {
        return Ok(true);
    }
    is_unread::<Integer>(alloc, contents_at(view, INHIBIT_ANY_POLICY_DER))
}

/// Whether an extension that is read here or by who validates paths can't be read (RFC 5280, 4.2).
#[tactic(auto, unfolding(crate::specs::Judged::has_unread_extension))]
fn has_unread_extension(alloc: Global, view: &CertificateView<'_>) -> Result<bool, OutOfMemory>
    ensures { IfOk result (λ b. b ≡ has_unread_extension view.now) }
{
    if has_unread_names(alloc, view)? {
        return Ok(true);
    }
    has_unread_policies(alloc, view)
}

/// Whether it is of version 3 (RFC 5280, 6.1.4 (k)).
fn is_version_3(view: &CertificateView<'_>) -> bool
    ensures { result ≡ is_version_3 view.now }
{
    match one_window(view.tbs()) {
        None => false,
        Some(window) => window.content().starts_with(VERSION_3),
    }
}

/// The first reason for which what any issuer of the certificate issues isn't valid.
#[tactic(auto, unfolding(crate::specs::Judged::issuer_fault))]
fn issuer_fault(
    alloc: Global,
    view: &CertificateView<'_>,
) -> Result<Option<IssuerFault>, OutOfMemory>
    ensures { IfOk result (λ o. o ≡ issuer_fault view.now) }
{
    if !is_version_3(view) {
        return Ok(Some(IssuerFault::NotVersion3));
    }
    if has_empty_subject(view) {
        return Ok(Some(IssuerFault::EmptySubject));
    }
    if !is_strict(view.subject()) {
        return Ok(Some(IssuerFault::SubjectNotStrict));
    }
    if algorithms_differ(view) {
        return Ok(Some(IssuerFault::OtherAlgorithm));
    }
    if !are_distinct(alloc, view)? {
        return Ok(Some(IssuerFault::RepeatedExtension));
    }
    if has_unknown_critical(view) {
        return Ok(Some(IssuerFault::UnknownCritical));
    }
    if has_unread_extension(alloc, view)? {
        return Ok(Some(IssuerFault::UnreadExtension));
    }
    if states_no_usage(alloc, view)? {
        return Ok(Some(IssuerFault::NoUsage));
    }
    Ok(None)
}

fn is_below_zero(number: &Option<Integer>) -> bool
    ensures { result ≡ is_below_zero number.now }
{
    match number {
        Some(number) => match number.as_bytes() {
            [first, ..] => 127 < *first,
            [] => false,
        },
        None => false,
    }
}

fn has_length_below_zero(constraints: &Option<BasicConstraints>) -> bool
    ensures { result ≡ has_length_below_zero constraints.now }
{
    match constraints {
        Some(constraints) => is_below_zero(&constraints.path_len_constraint),
        None => false,
    }
}

/// Whether its path length is below zero (RFC 5280, 4.2.1.9).
#[tactic(auto, unfolding(crate::specs::Judged::has_negative_path_length))]
fn has_negative_path_length(alloc: Global, view: &CertificateView<'_>) -> Result<bool, OutOfMemory>
    ensures { IfOk result (λ b. b ≡ has_negative_path_length view.now) }
{
    let constraints = said::<BasicConstraints>(alloc, contents_at(view, BASIC_CONSTRAINTS_DER))?;
    Ok(has_length_below_zero(&constraints))
}

/// The first further reason for which what an authority issues isn't valid.
fn authority_fault(
    alloc: Global,
    view: &CertificateView<'_>,
) -> Result<Option<IssuerFault>, OutOfMemory>
    ensures { IfOk result (λ o. o ≡ authority_fault view.now) }
{
    if has_negative_path_length(alloc, view)? {
        return Ok(Some(IssuerFault::NegativePathLength));
    }
    Ok(None)
}

fn unless_fault(fault: Option<IssuerFault>) -> Result<(), Fault>
    ensures { Passes (unless_fault fault) result }
{
    match fault {
        Some(fault) => Err(Fault::Issuer(fault)),
        None => Ok(()),
    }
}

/// Refuses octets of a certificate under which nothing that is issued would be valid, whoever issues: with
/// `NotRead` where they begin with no certificate, else with the first reason. The time is that of sorting the
/// extensions.
#[tactic(auto, unfolding(crate::specs::Judged::issuer_checked))]
pub fn issuer_checked(alloc: Global, octets: &[u8]) -> Result<(), Fault>
    ensures { Passes (issuer_checked octets.now) result }
{
    let Some(view) = CertificateView::new(octets) else {
        return Err(Fault::Issuer(IssuerFault::NotRead));
    };
    let fault = issuer_fault(alloc, &view)?;
    unless_fault(fault)
}

/// The same of an authority's.
#[tactic(auto, unfolding(crate::specs::Judged::authority_checked))]
pub fn authority_checked(alloc: Global, octets: &[u8]) -> Result<(), Fault>
    ensures { Passes (authority_checked octets.now) result }
{
    let Some(view) = CertificateView::new(octets) else {
        return Err(Fault::Issuer(IssuerFault::NotRead));
    };
    let fault = issuer_fault(alloc, &view)?;
    unless_fault(fault)?;
    let fault = authority_fault(alloc, &view)?;
    unless_fault(fault)
}
