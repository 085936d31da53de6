//! Rules of which extensions are critical (RFC 5280, 4.2.1 and 4.2.2).
ghost use Rattle.std.specs.Prelude.{◌≡◌, IfOk};
ghost use Rattle.pkix_rules.specs.Criticality.{criticality_rules, identity_rules, name_rules, path_rules, pointer_rules};

use crate::extension::{has_critical, has_uncritical};
use crate::identifiers::{
    AUTHORITY_INFO_ACCESS, SUBJECT_DIRECTORY_ATTRIBUTES, SUBJECT_INFO_ACCESS,
};
use asn1_core::OutOfMemory;
use pkix_cert::Extension;
use pkix_cert::extension_id::{
    ID_CE_AUTHORITY_KEY_IDENTIFIER, ID_CE_BASIC_CONSTRAINTS, ID_CE_CRL_DISTRIBUTION_POINTS,
    ID_CE_FRESHEST_CRL, ID_CE_INHIBIT_ANY_POLICY, ID_CE_ISSUER_ALT_NAME, ID_CE_KEY_USAGE,
    ID_CE_NAME_CONSTRAINTS, ID_CE_POLICY_CONSTRAINTS, ID_CE_POLICY_MAPPINGS,
    ID_CE_SUBJECT_ALT_NAME, ID_CE_SUBJECT_KEY_IDENTIFIER,
};
use rule_table::{Rule, add, note};
use std::alloc::Global;

/// Of keys and what they may be used for.
#[tactic(auto, unfolding(crate::specs::Criticality::identity_rules))]
fn identity_rules(alloc: Global, extensions: &[Extension]) -> Result<Vec<Rule>, OutOfMemory>
    ensures { IfOk result (λ v. v.items ≡ identity_rules extensions.now) }
{
    let mut found = Vec::new(alloc);
    let authority = has_critical(extensions, ID_CE_AUTHORITY_KEY_IDENTIFIER);
    note(&mut found, Rule::CriticalAuthorityKeyId, authority)?;
    let subject = has_critical(extensions, ID_CE_SUBJECT_KEY_IDENTIFIER);
    note(&mut found, Rule::CriticalSubjectKeyId, subject)?;
    let usage = has_uncritical(extensions, ID_CE_KEY_USAGE);
    note(&mut found, Rule::UncriticalKeyUsage, usage)?;
    Ok(found)
}

/// Of names.
#[tactic(auto, unfolding(crate::specs::Criticality::name_rules))]
fn name_rules(
    alloc: Global,
    extensions: &[Extension],
    has_subject: bool,
) -> Result<Vec<Rule>, OutOfMemory>
    ensures { IfOk result (λ v. v.items ≡ name_rules extensions.now has_subject) }
{
    let mut found = Vec::new(alloc);
    let names = has_critical(extensions, ID_CE_SUBJECT_ALT_NAME);
    note(&mut found, Rule::CriticalAltNames, has_subject && names)?;
    let issuers = has_critical(extensions, ID_CE_ISSUER_ALT_NAME);
    note(&mut found, Rule::CriticalIssuerAltNames, issuers)?;
    let attributes = has_critical(extensions, SUBJECT_DIRECTORY_ATTRIBUTES);
    note(&mut found, Rule::CriticalDirectoryAttributes, attributes)?;
    Ok(found)
}

/// Of what bounds paths.
#[tactic(auto, unfolding(crate::specs::Criticality::path_rules))]
fn path_rules(
    alloc: Global,
    extensions: &[Extension],
    is_ca: bool,
) -> Result<Vec<Rule>, OutOfMemory>
    ensures { IfOk result (λ v. v.items ≡ path_rules extensions.now is_ca) }
{
    let mut found = Vec::new(alloc);
    let constraints = has_uncritical(extensions, ID_CE_BASIC_CONSTRAINTS);
    note(
        &mut found,
        Rule::UncriticalBasicConstraints,
        is_ca && constraints,
    )?;
    let names = has_uncritical(extensions, ID_CE_NAME_CONSTRAINTS);
    note(&mut found, Rule::UncriticalNameConstraints, names)?;
    let mappings = has_uncritical(extensions, ID_CE_POLICY_MAPPINGS);
    note(&mut found, Rule::UncriticalPolicyMappings, mappings)?;
    let policies = has_uncritical(extensions, ID_CE_POLICY_CONSTRAINTS);
    note(&mut found, Rule::UncriticalPolicyConstraints, policies)?;
    let any = has_uncritical(extensions, ID_CE_INHIBIT_ANY_POLICY);
    note(&mut found, Rule::UncriticalInhibitAnyPolicy, any)?;
    Ok(found)
}

/// Of what says where more is found.
#[tactic(auto, unfolding(crate::specs::Criticality::pointer_rules))]
pub(crate) fn pointer_rules(
    alloc: Global,
    extensions: &[Extension],
) -> Result<Vec<Rule>, OutOfMemory>
    ensures { IfOk result (λ v. v.items ≡ pointer_rules extensions.now) }
{
    let mut found = Vec::new(alloc);
    let points = has_critical(extensions, ID_CE_CRL_DISTRIBUTION_POINTS);
    note(&mut found, Rule::CriticalCrlPoints, points)?;
    let freshest = has_critical(extensions, ID_CE_FRESHEST_CRL);
    note(&mut found, Rule::CriticalFreshestCrl, freshest)?;
    let authority = has_critical(extensions, AUTHORITY_INFO_ACCESS);
    note(&mut found, Rule::CriticalAuthorityInfoAccess, authority)?;
    let subject = has_critical(extensions, SUBJECT_INFO_ACCESS);
    note(&mut found, Rule::CriticalSubjectInfoAccess, subject)?;
    Ok(found)
}

/// The rules of criticality that are broken, in order.
#[tactic(auto, unfolding(crate::specs::Criticality::criticality_rules))]
pub(crate) fn criticality_rules(
    alloc: Global,
    extensions: &[Extension],
    has_subject: bool,
    is_ca: bool,
) -> Result<Vec<Rule>, OutOfMemory>
    ensures { IfOk result (λ v. v.items ≡ criticality_rules extensions.now has_subject is_ca) }
{
    let mut found = identity_rules(alloc, extensions)?;
    let others = name_rules(alloc, extensions, has_subject)?;
    add(&mut found, others)?;
    let others = path_rules(alloc, extensions, is_ca)?;
    add(&mut found, others)?;
    let others = pointer_rules(alloc, extensions)?;
    add(&mut found, others)?;
    Ok(found)
}
