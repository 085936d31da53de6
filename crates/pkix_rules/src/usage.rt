//! Rules of what a key may be used for (RFC 5280, 4.2.1.3 and 4.2.1.12).
ghost use Rattle.std.specs.Prelude.{◌≡◌, IfOk, map};
ghost use Rattle.std.specs.List.{list_all};
ghost use Rattle.pkix_rules.specs.Usages.{has_any_purpose, has_high_bit, has_unknown_usage, is_not_alone, is_zero_octet, lacks_mail_usage, lacks_no_check, lacks_server_usage, lacks_signer_usage, purpose_list_rules, purpose_rules, serves_none, sets_none, stamps_beside, usage_of_key_rules, usage_rules};

use crate::extension::{extension_at, has_critical, has_uncritical};
use crate::identifiers::{
    ANY_PURPOSE, CLIENT_AUTH, CODE_SIGNING, EMAIL_PROTECTION, OCSP_NO_CHECK, OCSP_SIGNING,
    SERVER_AUTH, TIME_STAMPING,
};
use crate::key::KeyKind;
use crate::said::{Said, has_purpose, has_usage, is_authority};
use asn1_core::OutOfMemory;
use extension_lookup::are_distinct_arcs;
use pkix_cert::extension_id::ID_CE_EXT_KEY_USAGE;
use pkix_cert::{ExtKeyUsageSyntax, Extension, KeyPurposeId, KeyUsage};
use rule_table::{Rule, note};
use std::alloc::Global;

fn is_zero_octet(octet: u8) -> bool
    ensures { result ≡ is_zero_octet octet }
{
    octet == 0
}

fn are_zeros(octets: &[u8]) -> bool
    ensures { result ≡ list_all is_zero_octet octets.now }
{
    octets.iter().all(|octet| is_zero_octet(*octet))
}

/// Whether key usage is there and no bit of it is set.
fn sets_none(usage: &Option<KeyUsage>) -> bool
    ensures { result ≡ sets_none usage.now }
{
    match usage {
        None => false,
        Some(usage) => are_zeros(usage.bytes()),
    }
}

/// Whether the octets go on after bit 8.
fn has_high_bit(octets: &[u8]) -> bool
    ensures { result ≡ has_high_bit octets.now }
{
    match octets {
        [] => false,
        [_] => false,
        [_, second, ..] => *second % 128 != 0 || 2 < octets.len(),
    }
}

fn has_unknown_usage(usage: &Option<KeyUsage>) -> bool
    ensures { result ≡ has_unknown_usage usage.now }
{
    match usage {
        None => false,
        Some(usage) => has_high_bit(usage.bytes()),
    }
}

/// Of key usage by itself.
#[tactic(auto, unfolding(crate::specs::Usages::usage_rules))]
pub(crate) fn usage_rules(alloc: Global, usage: &Option<KeyUsage>) -> Result<Vec<Rule>, OutOfMemory>
    ensures { IfOk result (λ v. v.items ≡ usage_rules usage.now) }
{
    let agrees = has_usage(usage, 4);
    let enciphers = has_usage(usage, 7);
    let deciphers = has_usage(usage, 8);
    let mut found = Vec::new(alloc);
    note(&mut found, Rule::EmptyKeyUsage, sets_none(usage))?;
    note(&mut found, Rule::UnknownKeyUsage, has_unknown_usage(usage))?;
    note(
        &mut found,
        Rule::EncipherWithoutAgreement,
        (enciphers || deciphers) && !agrees,
    )?;
    note(
        &mut found,
        Rule::EncipherAndDecipherOnly,
        enciphers && deciphers,
    )?;
    Ok(found)
}

/// Of key usage beside the kind of the key.
#[tactic(auto, unfolding(crate::specs::Usages::usage_of_key_rules))]
pub(crate) fn usage_of_key_rules(
    alloc: Global,
    usage: &Option<KeyUsage>,
    kind: KeyKind,
) -> Result<Vec<Rule>, OutOfMemory>
    ensures { IfOk result (λ v. v.items ≡ usage_of_key_rules usage.now kind) }
{
    let enciphers = has_usage(usage, 2) || has_usage(usage, 3);
    let agrees = has_usage(usage, 4) || has_usage(usage, 7) || has_usage(usage, 8);
    let mut found = Vec::new(alloc);
    note(&mut found, Rule::KeyUsageOfRsa, kind.is_rsa() && agrees)?;
    note(&mut found, Rule::KeyUsageOfEc, kind.is_ec() && enciphers)?;
    note(
        &mut found,
        Rule::KeyUsageOfEd,
        kind.is_ed() && (enciphers || agrees),
    )?;
    Ok(found)
}

/// The identifiers of the purposes, in order.
fn purpose_ids(alloc: Global, purposes: &[KeyPurposeId]) -> Result<Vec<&[u32]>, OutOfMemory>
    ensures { IfOk result (λ ids. map (λ id. id.now) ids.items ≡ purposes.now) }
{
    let mut ids = Vec::new(alloc);
    for purpose in purposes {
        ids.push(purpose.arcs())?;
    }
    Ok(ids)
}

/// Of the purposes as a list.
#[tactic(auto, unfolding(crate::specs::Usages::purpose_list_rules))]
fn purpose_list_rules(
    alloc: Global,
    purposes: &Option<ExtKeyUsageSyntax>,
) -> Result<Vec<Rule>, OutOfMemory>
    ensures { IfOk result (λ v. v.items ≡ purpose_list_rules purposes.now) }
{
    let mut found = Vec::new(alloc);
    let Some(purposes) = purposes else {
        return Ok(found);
    };
    note(
        &mut found,
        Rule::EmptyPurposes,
        purposes.as_slice().is_empty(),
    )?;
    let ids = purpose_ids(alloc, purposes.as_slice())?;
    let distinct = are_distinct_arcs(ids);
    note(&mut found, Rule::PurposeTwice, !distinct)?;
    Ok(found)
}

/// Whether there is another number of purposes than one.
fn is_not_alone(purposes: &Option<ExtKeyUsageSyntax>) -> bool
    ensures { result ≡ is_not_alone purposes.now }
{
    match purposes {
        None => false,
        Some(purposes) => purposes.as_slice().len() != 1,
    }
}

/// Whether a key for servers or clients has a usage that doesn't serve it.
fn lacks_server_usage(said: &Said) -> bool
    ensures { result ≡ lacks_server_usage said.now }
{
    let signs = has_usage(&said.key_usage, 0);
    let agrees = has_usage(&said.key_usage, 4);
    let enciphers = has_usage(&said.key_usage, 2);
    (has_purpose(&said.purposes, SERVER_AUTH) && !(signs || agrees || enciphers))
        || (has_purpose(&said.purposes, CLIENT_AUTH) && !(signs || agrees))
}

/// Whether a key for code, times or OCSP has a usage that doesn't serve it.
fn lacks_signer_usage(said: &Said) -> bool
    ensures { result ≡ lacks_signer_usage said.now }
{
    let signs = has_usage(&said.key_usage, 0);
    let commits = has_usage(&said.key_usage, 1);
    (has_purpose(&said.purposes, CODE_SIGNING) && !signs)
        || (has_purpose(&said.purposes, TIME_STAMPING) && !(signs || commits))
        || (has_purpose(&said.purposes, OCSP_SIGNING) && !(signs || commits))
}

/// Whether a key for e-mail has a usage that doesn't serve it.
fn lacks_mail_usage(said: &Said) -> bool
    ensures { result ≡ lacks_mail_usage said.now }
{
    let signs = has_usage(&said.key_usage, 0);
    let commits = has_usage(&said.key_usage, 1);
    let enciphers = has_usage(&said.key_usage, 2);
    let agrees = has_usage(&said.key_usage, 4);
    has_purpose(&said.purposes, EMAIL_PROTECTION) && !(signs || commits || enciphers || agrees)
}

/// Whether key usage is there and doesn't serve one of the purposes.
fn serves_none(said: &Said) -> bool
    ensures { result ≡ serves_none said.now }
{
    said.key_usage.is_some()
        && !is_authority(&said.constraints)
        && (lacks_server_usage(said) || lacks_signer_usage(said) || lacks_mail_usage(said))
}

/// Whether the subject, which isn't an authority, has any purpose.
fn has_any_purpose(said: &Said) -> bool
    ensures { result ≡ has_any_purpose said.now }
{
    has_purpose(&said.purposes, ANY_PURPOSE) && !is_authority(&said.constraints)
}

/// Whether the subject answers for its issuer without the extension that says not to check its own certificate.
fn lacks_no_check(extensions: &[Extension], said: &Said) -> bool
    ensures { result ≡ lacks_no_check extensions.now said.now }
{
    has_purpose(&said.purposes, OCSP_SIGNING)
        && !is_authority(&said.constraints)
        && extension_at(extensions, OCSP_NO_CHECK).is_none()
}

/// Whether the subject, which isn't an authority, has another purpose beside time stamping, or that one not in a critical extension.
fn stamps_beside(extensions: &[Extension], said: &Said) -> bool
    ensures { result ≡ stamps_beside extensions.now said.now }
{
    has_purpose(&said.purposes, TIME_STAMPING)
        && !is_authority(&said.constraints)
        && (is_not_alone(&said.purposes) || has_uncritical(extensions, ID_CE_EXT_KEY_USAGE))
}

/// Of the purposes beside each other and beside key usage.
#[tactic(auto, unfolding(crate::specs::Usages::purpose_rules))]
pub(crate) fn purpose_rules(
    alloc: Global,
    extensions: &[Extension],
    said: &Said,
) -> Result<Vec<Rule>, OutOfMemory>
    ensures { IfOk result (λ v. v.items ≡ purpose_rules extensions.now said.now) }
{
    let any = has_purpose(&said.purposes, ANY_PURPOSE);
    let critical = has_critical(extensions, ID_CE_EXT_KEY_USAGE);
    let mut found = purpose_list_rules(alloc, &said.purposes)?;
    note(&mut found, Rule::AnyPurposeCritical, any && critical)?;
    note(&mut found, Rule::AnyPurpose, has_any_purpose(said))?;
    note(
        &mut found,
        Rule::OcspWithoutNoCheck,
        lacks_no_check(extensions, said),
    )?;
    note(
        &mut found,
        Rule::TimeStampingNotAlone,
        stamps_beside(extensions, said),
    )?;
    note(&mut found, Rule::PurposesWithoutUsage, serves_none(said))?;
    Ok(found)
}
