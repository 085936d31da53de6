//! Rules of the contents of extensions (RFC 5280, 4.2).
ghost use Rattle.std.specs.Prelude.{◌≡◌, IfOk};
ghost use Rattle.std.specs.List.{list_any};
ghost use Rattle.pkix_rules.specs.Contents.{contents_rules, has_unreadable, has_unreadable_key_part, has_unreadable_name_part, has_unreadable_policy_part, is_loose};

use crate::extension::{has_critical_stranger, is_unreadable};
use crate::identifiers::{AUTHORITY_INFO_ACCESS, KNOWN_EXTENSIONS};
use asn1_core::{Integer, OutOfMemory};
use pkix_cert::extension_id::{
    ID_CE_AUTHORITY_KEY_IDENTIFIER, ID_CE_BASIC_CONSTRAINTS, ID_CE_CERTIFICATE_POLICIES,
    ID_CE_CRL_DISTRIBUTION_POINTS, ID_CE_EXT_KEY_USAGE, ID_CE_INHIBIT_ANY_POLICY,
    ID_CE_ISSUER_ALT_NAME, ID_CE_KEY_USAGE, ID_CE_NAME_CONSTRAINTS, ID_CE_POLICY_CONSTRAINTS,
    ID_CE_POLICY_MAPPINGS, ID_CE_SUBJECT_ALT_NAME, ID_CE_SUBJECT_KEY_IDENTIFIER,
};
use pkix_cert::{
    AuthorityKeyIdentifier, BasicConstraints, CrlDistributionPoints, ExtKeyUsageSyntax, Extension,
    KeyIdentifier, KeyUsage, NameConstraints,
};
use pkix_name::GeneralNames;
use pkix_trust::{
    AuthorityInfoAccessSyntax, CertificatePolicies, PolicyConstraints, PolicyMappings,
};
use rule_table::{Rule, note};
use std::alloc::Global;
use strict_der::is_strict;

/// Whether one of the first ones that are read can't be read.
fn has_unreadable_key_part(alloc: Global, extensions: &[Extension]) -> Result<bool, OutOfMemory>
    ensures { IfOk result (λ b. b ≡ has_unreadable_key_part extensions.now) }
{
    let constraints = is_unreadable::<BasicConstraints>(
        alloc,
        extensions,
        ID_CE_BASIC_CONSTRAINTS,
    )?;
    let usage = is_unreadable::<KeyUsage>(alloc, extensions, ID_CE_KEY_USAGE)?;
    let purposes = is_unreadable::<ExtKeyUsageSyntax>(alloc, extensions, ID_CE_EXT_KEY_USAGE)?;
    let authority = is_unreadable::<AuthorityKeyIdentifier>(
        alloc,
        extensions,
        ID_CE_AUTHORITY_KEY_IDENTIFIER,
    )?;
    let key = is_unreadable::<KeyIdentifier>(alloc, extensions, ID_CE_SUBJECT_KEY_IDENTIFIER)?;
    Ok(constraints || usage || purposes || authority || key)
}

/// Whether one of the names and points can't be read.
fn has_unreadable_name_part(alloc: Global, extensions: &[Extension]) -> Result<bool, OutOfMemory>
    ensures { IfOk result (λ b. b ≡ has_unreadable_name_part extensions.now) }
{
    let names = is_unreadable::<GeneralNames>(alloc, extensions, ID_CE_SUBJECT_ALT_NAME)?;
    let constraints = is_unreadable::<NameConstraints>(alloc, extensions, ID_CE_NAME_CONSTRAINTS)?;
    let points = is_unreadable::<CrlDistributionPoints>(
        alloc,
        extensions,
        ID_CE_CRL_DISTRIBUTION_POINTS,
    )?;
    let access = is_unreadable::<AuthorityInfoAccessSyntax>(
        alloc,
        extensions,
        AUTHORITY_INFO_ACCESS,
    )?;
    let issuer_names = is_unreadable::<GeneralNames>(alloc, extensions, ID_CE_ISSUER_ALT_NAME)?;
    Ok(names || constraints || points || access || issuer_names)
}

/// Whether one of the policies can't be read.
fn has_unreadable_policy_part(alloc: Global, extensions: &[Extension]) -> Result<bool, OutOfMemory>
    ensures { IfOk result (λ b. b ≡ has_unreadable_policy_part extensions.now) }
{
    let policies = is_unreadable::<CertificatePolicies>(
        alloc,
        extensions,
        ID_CE_CERTIFICATE_POLICIES,
    )?;
    let mappings = is_unreadable::<PolicyMappings>(alloc, extensions, ID_CE_POLICY_MAPPINGS)?;
    let constraints = is_unreadable::<PolicyConstraints>(
        alloc,
        extensions,
        ID_CE_POLICY_CONSTRAINTS,
    )?;
    let inhibit = is_unreadable::<Integer>(alloc, extensions, ID_CE_INHIBIT_ANY_POLICY)?;
    Ok(policies || mappings || constraints || inhibit)
}

/// Whether the contents are no strict DER (X.690, 8 to 11).
fn is_loose(extension: &Extension) -> bool
    ensures { result ≡ is_loose extension.now }
{
    !is_strict(extension.extn_value.as_slice())
}

/// Whether the contents of one are no strict DER.
pub(crate) fn has_loose_contents(extensions: &[Extension]) -> bool
    ensures { result ≡ list_any is_loose extensions.now }
{
    extensions.iter().any(|extension| is_loose(extension))
}

/// Whether the contents of one can't be read as the type of its identifier.
fn has_unreadable(alloc: Global, extensions: &[Extension]) -> Result<bool, OutOfMemory>
    ensures { IfOk result (λ b. b ≡ has_unreadable extensions.now) }
{
    let key_part = has_unreadable_key_part(alloc, extensions)?;
    let name_part = has_unreadable_name_part(alloc, extensions)?;
    let policy_part = has_unreadable_policy_part(alloc, extensions)?;
    Ok(key_part || name_part || policy_part)
}

/// Of the contents of extensions.
#[tactic(auto, unfolding(crate::specs::Contents::contents_rules))]
pub(crate) fn contents_rules(
    alloc: Global,
    extensions: &[Extension],
) -> Result<Vec<Rule>, OutOfMemory>
    ensures { IfOk result (λ v. v.items ≡ contents_rules extensions.now) }
{
    let mut found = Vec::new(alloc);
    let unreadable = has_unreadable(alloc, extensions)?;
    note(&mut found, Rule::UnreadableExtension, unreadable)?;
    note(
        &mut found,
        Rule::ExtensionNotDer,
        has_loose_contents(extensions),
    )?;
    let stranger = has_critical_stranger(extensions, KNOWN_EXTENSIONS);
    note(&mut found, Rule::UnknownCriticalExtension, stranger)?;
    Ok(found)
}
