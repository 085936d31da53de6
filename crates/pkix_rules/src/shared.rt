//! The rules that certificates and what requests ask for have in common: of the subject, its key and its extensions.
ghost use Rattle.std.specs.Prelude.{◌≡◌, IfOk};
ghost use Rattle.std.specs.Option.{option_map};
ghost use Rattle.pkix_rules.specs.Policies.{is_below_zero};
ghost use Rattle.pkix_rules.specs.Shared.{name_value_rules, path_rules, pointer_value_rules, policy_value_rules, shared_rules, usage_value_rules, value_rules};

use crate::alt_names::alt_name_rules;
use crate::contents::contents_rules;
use crate::criticality::criticality_rules;
use crate::extension::said_at;
use crate::identifiers::AUTHORITY_INFO_ACCESS;
use crate::integer::is_negative;
use crate::key::{key_rules, kind_of};
use crate::name::is_empty_name;
use crate::name_constraints::name_constraint_rules;
use crate::points::{access_rules, point_rules};
use crate::policies::{policy_bound_rules, policy_list_rules};
use crate::said::{Said, has_path_length, has_usage, is_authority, path_length_in};
use crate::subject::subject_rules;
use crate::usage::{purpose_rules, usage_of_key_rules, usage_rules};
use asn1_core::{Integer, OutOfMemory};
use pkix_cert::extension_id::{
    ID_CE_CERTIFICATE_POLICIES, ID_CE_CRL_DISTRIBUTION_POINTS, ID_CE_INHIBIT_ANY_POLICY,
    ID_CE_NAME_CONSTRAINTS, ID_CE_POLICY_CONSTRAINTS, ID_CE_POLICY_MAPPINGS,
    ID_CE_SUBJECT_ALT_NAME,
};
use pkix_cert::{CrlDistributionPoints, Extension, NameConstraints, SubjectPublicKeyInfo};
use pkix_name::{GeneralNames, Name};
use pkix_trust::{
    AuthorityInfoAccessSyntax, CertificatePolicies, PolicyConstraints, PolicyMappings,
};
use rule_table::{Rule, add, note};
use std::alloc::Global;

fn is_below_zero(number: Option<&Integer>) -> bool
    ensures { result ≡ is_below_zero (option_map (λ n. n.now) number.entry) }
{
    match number {
        None => false,
        Some(number) => is_negative(number),
    }
}

/// Of a path length.
#[tactic(auto, unfolding(crate::specs::Shared::path_rules))]
fn path_rules(alloc: Global, said: &Said) -> Result<Vec<Rule>, OutOfMemory>
    ensures { IfOk result (λ v. v.items ≡ path_rules said.now) }
{
    let below = is_below_zero(path_length_in(&said.constraints));
    let signs = has_usage(&said.key_usage, 5);
    let has_length = has_path_length(&said.constraints);
    let mut found = Vec::new(alloc);
    note(&mut found, Rule::PathLengthNegative, below)?;
    note(
        &mut found,
        Rule::PathLengthWithoutCertSign,
        has_length && !signs,
    )?;
    Ok(found)
}

/// Of names.
#[tactic(auto, unfolding(crate::specs::Shared::name_value_rules))]
fn name_value_rules(alloc: Global, extensions: &[Extension]) -> Result<Vec<Rule>, OutOfMemory>
    ensures { IfOk result (λ v. v.items ≡ name_value_rules extensions.now) }
{
    let names: Option<GeneralNames> = said_at(alloc, extensions, ID_CE_SUBJECT_ALT_NAME)?;
    let mut found = alt_name_rules(alloc, &names)?;
    let bounds: Option<NameConstraints> = said_at(alloc, extensions, ID_CE_NAME_CONSTRAINTS)?;
    let others = name_constraint_rules(alloc, &bounds)?;
    add(&mut found, others)?;
    Ok(found)
}

/// Of policies.
#[tactic(auto, unfolding(crate::specs::Shared::policy_value_rules))]
fn policy_value_rules(alloc: Global, extensions: &[Extension]) -> Result<Vec<Rule>, OutOfMemory>
    ensures { IfOk result (λ v. v.items ≡ policy_value_rules extensions.now) }
{
    let policies: Option<CertificatePolicies> = said_at(
        alloc,
        extensions,
        ID_CE_CERTIFICATE_POLICIES,
    )?;
    let mut found = policy_list_rules(alloc, &policies)?;
    let mappings: Option<PolicyMappings> = said_at(alloc, extensions, ID_CE_POLICY_MAPPINGS)?;
    let bounds: Option<PolicyConstraints> = said_at(alloc, extensions, ID_CE_POLICY_CONSTRAINTS)?;
    let any: Option<Integer> = said_at(alloc, extensions, ID_CE_INHIBIT_ANY_POLICY)?;
    let others = policy_bound_rules(alloc, &mappings, &bounds, &any)?;
    add(&mut found, others)?;
    Ok(found)
}

/// Of where more is found.
#[tactic(auto, unfolding(crate::specs::Shared::pointer_value_rules))]
fn pointer_value_rules(alloc: Global, extensions: &[Extension]) -> Result<Vec<Rule>, OutOfMemory>
    ensures { IfOk result (λ v. v.items ≡ pointer_value_rules extensions.now) }
{
    let points: Option<CrlDistributionPoints> = said_at(
        alloc,
        extensions,
        ID_CE_CRL_DISTRIBUTION_POINTS,
    )?;
    let mut found = point_rules(alloc, &points)?;
    let accesses: Option<AuthorityInfoAccessSyntax> = said_at(
        alloc,
        extensions,
        AUTHORITY_INFO_ACCESS,
    )?;
    let others = access_rules(alloc, &accesses)?;
    add(&mut found, others)?;
    Ok(found)
}

/// Of what extensions say, each by itself.
#[tactic(auto, unfolding(crate::specs::Shared::value_rules))]
fn value_rules(alloc: Global, extensions: &[Extension]) -> Result<Vec<Rule>, OutOfMemory>
    ensures { IfOk result (λ v. v.items ≡ value_rules extensions.now) }
{
    let mut found = name_value_rules(alloc, extensions)?;
    let others = policy_value_rules(alloc, extensions)?;
    add(&mut found, others)?;
    let others = pointer_value_rules(alloc, extensions)?;
    add(&mut found, others)?;
    Ok(found)
}

/// Of what the key may be used for.
#[tactic(auto, unfolding(crate::specs::Shared::usage_value_rules))]
fn usage_value_rules(
    alloc: Global,
    extensions: &[Extension],
    said: &Said,
    key: &SubjectPublicKeyInfo,
) -> Result<Vec<Rule>, OutOfMemory>
    ensures { IfOk result (λ v. v.items ≡ usage_value_rules extensions.now said.now key.now) }
{
    let kind = kind_of(&key.algorithm.algorithm);
    let mut found = path_rules(alloc, said)?;
    let others = usage_rules(alloc, &said.key_usage)?;
    add(&mut found, others)?;
    let others = usage_of_key_rules(alloc, &said.key_usage, kind)?;
    add(&mut found, others)?;
    let others = purpose_rules(alloc, extensions, said)?;
    add(&mut found, others)?;
    Ok(found)
}

/// The rules of a subject, its key and its extensions that are broken, in order.
#[tactic(auto, unfolding(crate::specs::Shared::shared_rules))]
pub(crate) fn shared_rules(
    alloc: Global,
    subject: &Name,
    extensions: &[Extension],
    said: &Said,
    key: &SubjectPublicKeyInfo,
) -> Result<Vec<Rule>, OutOfMemory>
    ensures { IfOk result (λ v. v.items ≡ shared_rules subject.now extensions.now said.now key.now) }
{
    let has_subject = !is_empty_name(subject);
    let is_ca = is_authority(&said.constraints);
    let mut found = subject_rules(alloc, subject, extensions, said)?;
    let others = key_rules(alloc, key)?;
    add(&mut found, others)?;
    let others = contents_rules(alloc, extensions)?;
    add(&mut found, others)?;
    let others = criticality_rules(alloc, extensions, has_subject, is_ca)?;
    add(&mut found, others)?;
    let others = usage_value_rules(alloc, extensions, said, key)?;
    add(&mut found, others)?;
    let others = value_rules(alloc, extensions)?;
    add(&mut found, others)?;
    Ok(found)
}
