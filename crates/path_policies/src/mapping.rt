//! The level that a certificate's mappings leave (RFC 5280, 6.1.4 (a) and (b)).
ghost use Rattle.std.specs.Prelude.{◌≡◌, IfOk};
ghost use Rattle.path_policies.specs.Levels.{equivalents, generated, generated_node, is_mapped, issuer_domain_policies, mapped, mapped_level, mapped_node, maps_any, unmapped};

use crate::node::{PolicyLevel, PolicyNode};
use crate::policy::{any_policy, each_once, is_any_policy, only};
use asn1_core::{ObjectIdentifier, OutOfMemory};
use pkix_trust::PolicyMapping;
use std::alloc::Global;

/// Whether anyPolicy is mapped, or mapped to, which no path may have (RFC 5280, 6.1.4 (a)).
pub fn maps_any_policy(mappings: &[PolicyMapping]) -> bool
    ensures { result ≡ maps_any mappings.now }
{
    mappings.iter().any(|mapping| {
        is_any_policy(&mapping.issuer_domain_policy)
            || is_any_policy(&mapping.subject_domain_policy)
    })
}

/// Whether the policy is mapped.
fn is_mapped(mappings: &[PolicyMapping], policy: &ObjectIdentifier) -> bool
    ensures { result ≡ is_mapped mappings.now policy.now }
{
    mappings
        .iter()
        .any(|mapping| mapping.issuer_domain_policy == *policy)
}

/// The policies that it is mapped to.
#[tactic(auto, unfolding(crate::specs::Levels::equivalents))]
fn equivalents(
    alloc: Global,
    mappings: &[PolicyMapping],
    policy: &ObjectIdentifier,
) -> Result<Vec<ObjectIdentifier>, OutOfMemory>
    ensures { IfOk result (λ ps. ps.items ≡ equivalents mappings.now policy.now) }
{
    let mut policies = Vec::new(alloc);
    for mapping in mappings {
        if mapping.issuer_domain_policy == *policy {
            policies.push(mapping.subject_domain_policy.clone()?)?;
        }
    }
    each_once(alloc, policies)
}

/// The policies that are mapped.
#[tactic(auto, unfolding(crate::specs::Levels::issuer_domain_policies))]
fn issuer_domain_policies(
    alloc: Global,
    mappings: &[PolicyMapping],
) -> Result<Vec<ObjectIdentifier>, OutOfMemory>
    ensures { IfOk result (λ ps. ps.items ≡ issuer_domain_policies mappings.now) }
{
    let mut policies = Vec::new(alloc);
    for mapping in mappings {
        policies.push(mapping.issuer_domain_policy.clone()?)?;
    }
    each_once(alloc, policies)
}

/// Replaces what the node expects, where its policy is mapped.
#[tactic(auto, unfolding(crate::specs::Levels::mapped_node))]
fn mapped_node(
    alloc: Global,
    mappings: &[PolicyMapping],
    node: PolicyNode,
) -> Result<PolicyNode, OutOfMemory>
    ensures { IfOk result (λ v. v ≡ mapped_node mappings.now node) }
{
    if !is_mapped(mappings, &node.valid_policy) {
        return Ok(node);
    }
    let expected_policy_set = equivalents(alloc, mappings, &node.valid_policy)?;
    Ok(PolicyNode {
        valid_policy: node.valid_policy,
        expected_policy_set,
        parents: node.parents,
    })
}

/// A node of a mapped policy, below anyPolicy.
fn generated_node(
    alloc: Global,
    mappings: &[PolicyMapping],
    policy: &ObjectIdentifier,
) -> Result<PolicyNode, OutOfMemory>
    ensures { IfOk result (λ v. v ≡ generated_node mappings.now policy.now) }
{
    let expected_policy_set = equivalents(alloc, mappings, policy)?;
    let parents = only(alloc, any_policy(alloc)?)?;
    Ok(PolicyNode {
        valid_policy: policy.clone()?,
        expected_policy_set,
        parents,
    })
}

/// The nodes of policies that are mapped and have none, where anyPolicy has one.
#[tactic(auto, unfolding(crate::specs::Levels::generated))]
fn generated(
    alloc: Global,
    mappings: &[PolicyMapping],
    level: &PolicyLevel,
) -> Result<Vec<PolicyNode>, OutOfMemory>
    ensures { IfOk result (λ nodes. nodes.items ≡ generated mappings.now level.now) }
{
    let mut nodes = Vec::new(alloc);
    if !level.has_any() {
        return Ok(nodes);
    }
    let policies = issuer_domain_policies(alloc, mappings)?;
    for policy in policies.as_slice() {
        if !level.has(policy) {
            nodes.push(generated_node(alloc, mappings, policy)?)?;
        }
    }
    Ok(nodes)
}

/// The nodes with what they expect replaced, and those that are generated.
fn mapped(
    alloc: Global,
    mappings: &[PolicyMapping],
    level: PolicyLevel,
) -> Result<PolicyLevel, OutOfMemory>
    ensures { IfOk result (λ l. l ≡ mapped mappings.now level) }
{
    let more = generated(alloc, mappings, &level)?;
    let mut nodes = Vec::new(alloc);
    for node in level.nodes {
        nodes.push(mapped_node(alloc, mappings, node)?)?;
    }
    PolicyLevel { nodes }.with(more)
}

/// The nodes of policies that aren't mapped.
fn unmapped(mappings: &[PolicyMapping], nodes: Vec<PolicyNode>) -> Vec<PolicyNode>
    ensures { result.items ≡ unmapped mappings.now nodes.items }
{
    let mut left = nodes;
    left.retain(|node| !is_mapped(mappings, &node.valid_policy));
    left
}

/// The nodes of a certificate's depth after its mappings, before those without children are deleted.
/// Where policies may not be mapped, those that are mapped are deleted.
pub(crate) fn mapped_level(
    alloc: Global,
    mappings: &[PolicyMapping],
    may_map: bool,
    level: PolicyLevel,
) -> Result<PolicyLevel, OutOfMemory>
    ensures { IfOk result (λ l. l ≡ mapped_level mappings.now may_map level) }
{
    if may_map {
        return mapped(alloc, mappings, level);
    }
    Ok(PolicyLevel {
        nodes: unmapped(mappings, level.nodes),
    })
}
