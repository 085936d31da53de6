//! Rules of policies (RFC 5280, 4.2.1.4, 4.2.1.5, 4.2.1.11 and 4.2.1.14).
ghost use Rattle.std.specs.Prelude.{◌≡◌, IfOk, map};
ghost use Rattle.std.specs.List.{list_any};
ghost use Rattle.pkix_rules.specs.Policies.{has_any_mapped, has_number_below_zero, is_below_zero, lacks_numbers, maps_any, policy_bound_rules, policy_ids, policy_list_rules};

use crate::identifiers::ANY_POLICY;
use crate::integer::is_negative;
use asn1_core::{Integer, OutOfMemory};
use extension_lookup::are_distinct_arcs;
use pkix_trust::{
    CertificatePolicies, PolicyConstraints, PolicyInformation, PolicyMapping, PolicyMappings,
};
use rule_table::{Rule, note};
use std::alloc::Global;

/// The identifiers of the policies, in order.
pub(crate) fn policy_ids(
    alloc: Global,
    policies: &[PolicyInformation],
) -> Result<Vec<&[u32]>, OutOfMemory>
    ensures { IfOk result (λ ids. map (λ id. id.now) ids.items ≡ policy_ids policies.now) }
{
    let mut ids = Vec::new(alloc);
    for policy in policies {
        ids.push(policy.policy_identifier.arcs())?;
    }
    Ok(ids)
}

/// Of the policies of a certificate.
#[tactic(auto, unfolding(crate::specs::Policies::policy_list_rules))]
pub(crate) fn policy_list_rules(
    alloc: Global,
    policies: &Option<CertificatePolicies>,
) -> Result<Vec<Rule>, OutOfMemory>
    ensures { IfOk result (λ v. v.items ≡ policy_list_rules policies.now) }
{
    let mut found = Vec::new(alloc);
    let Some(policies) = policies else {
        return Ok(found);
    };
    note(
        &mut found,
        Rule::EmptyPolicies,
        policies.as_slice().is_empty(),
    )?;
    let ids = policy_ids(alloc, policies.as_slice())?;
    let distinct = are_distinct_arcs(ids);
    note(&mut found, Rule::PolicyTwice, !distinct)?;
    Ok(found)
}

/// Whether it maps from or to any policy.
fn maps_any(mapping: &PolicyMapping) -> bool
    ensures { result ≡ maps_any mapping.now }
{
    mapping.issuer_domain_policy.arcs() == ANY_POLICY
        || mapping.subject_domain_policy.arcs() == ANY_POLICY
}

fn is_any_mapped(mappings: &[PolicyMapping]) -> bool
    ensures { result ≡ list_any maps_any mappings.now }
{
    mappings.iter().any(|mapping| maps_any(mapping))
}

pub(crate) fn has_any_mapped(mappings: &Option<PolicyMappings>) -> bool
    ensures { result ≡ has_any_mapped mappings.now }
{
    match mappings {
        None => false,
        Some(mappings) => is_any_mapped(mappings.as_slice()),
    }
}

fn is_below_zero(number: &Option<Integer>) -> bool
    ensures { result ≡ is_below_zero number.now }
{
    match number {
        None => false,
        Some(number) => is_negative(number),
    }
}

/// Whether policy constraints are there, and have no number.
fn lacks_numbers(constraints: &Option<PolicyConstraints>) -> bool
    ensures { result ≡ lacks_numbers constraints.now }
{
    match constraints {
        None => false,
        Some(constraints) => {
            constraints.require_explicit_policy.is_none()
                && constraints.inhibit_policy_mapping.is_none()
        }
    }
}

fn has_number_below_zero(constraints: &Option<PolicyConstraints>) -> bool
    ensures { result ≡ has_number_below_zero constraints.now }
{
    match constraints {
        None => false,
        Some(constraints) => {
            is_below_zero(&constraints.require_explicit_policy)
                || is_below_zero(&constraints.inhibit_policy_mapping)
        }
    }
}

/// Of what an authority says of policies further on in a path.
#[tactic(auto, unfolding(crate::specs::Policies::policy_bound_rules))]
pub(crate) fn policy_bound_rules(
    alloc: Global,
    mappings: &Option<PolicyMappings>,
    constraints: &Option<PolicyConstraints>,
    inhibit_any: &Option<Integer>,
) -> Result<Vec<Rule>, OutOfMemory>
    ensures { IfOk result (λ v. v.items ≡ policy_bound_rules mappings.now constraints.now inhibit_any.now) }
{
    let below = has_number_below_zero(constraints) || is_below_zero(inhibit_any);
    let mut found = Vec::new(alloc);
    note(&mut found, Rule::AnyPolicyMapped, has_any_mapped(mappings))?;
    note(
        &mut found,
        Rule::EmptyPolicyConstraints,
        lacks_numbers(constraints),
    )?;
    note(&mut found, Rule::NegativeSkipCerts, below)?;
    Ok(found)
}
