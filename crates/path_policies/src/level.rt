//! The level that a certificate's policies make (RFC 5280, 6.1.3 (d)).
ghost use Rattle.std.specs.Prelude.{◌≡◌, ◌++◌, IfOk, OnOk};
ghost use Rattle.std.specs.Option.{option_to_list};
ghost use Rattle.path_policies.specs.Levels.{any_nodes, below_any, child, expected_policies, expecting, named_node, named_nodes, next_level};

use crate::node::{PolicyLevel, PolicyNode};
use crate::policy::{any_policy, each_once, has_any, is_any_policy, only, push_copies};
use asn1_core::{ObjectIdentifier, OutOfMemory};
use std::alloc::Global;

/// A node that expects its own policy.
fn child(
    alloc: Global,
    policy: &ObjectIdentifier,
    parents: Vec<ObjectIdentifier>,
) -> Result<PolicyNode, OutOfMemory>
    ensures { IfOk result (λ v. v ≡ child policy.now parents.items) }
{
    let expected_policy_set = only(alloc, policy.clone()?)?;
    Ok(PolicyNode {
        valid_policy: policy.clone()?,
        expected_policy_set,
        parents,
    })
}

/// The policies of the nodes that expect it.
fn expecting(
    alloc: Global,
    policy: &ObjectIdentifier,
    above: &PolicyLevel,
) -> Result<Vec<ObjectIdentifier>, OutOfMemory>
    ensures { IfOk result (λ ps. ps.items ≡ expecting policy.now above.now) }
{
    let mut parents = Vec::new(alloc);
    for node in above.nodes.as_slice() {
        if node.expects(policy) {
            parents.push(node.valid_policy.clone()?)?;
        }
    }
    Ok(parents)
}

/// The node of a policy that no node expects, below anyPolicy where that is.
fn below_any(
    alloc: Global,
    policy: &ObjectIdentifier,
    above: &PolicyLevel,
) -> Result<Option<PolicyNode>, OutOfMemory>
    ensures { IfOk result (λ o. o ≡ below_any above.now policy.now) }
{
    if !above.has_any() {
        return Ok(None);
    }
    let parents = only(alloc, any_policy(alloc)?)?;
    Ok(Some(child(alloc, policy, parents)?))
}

/// The node of a policy that the certificate names, where there is one.
#[tactic(auto, unfolding(crate::specs::Levels::named_node))]
fn named_node(
    alloc: Global,
    policy: &ObjectIdentifier,
    above: &PolicyLevel,
) -> Result<Option<PolicyNode>, OutOfMemory>
    ensures { IfOk result (λ o. o ≡ named_node above.now policy.now) }
{
    if is_any_policy(policy) {
        return Ok(None);
    }
    let parents = expecting(alloc, policy, above)?;
    if parents.is_empty() {
        return below_any(alloc, policy, above);
    }
    Ok(Some(child(alloc, policy, parents)?))
}

/// Appends the node, where there is one.
fn push_optional(nodes: &mut Vec<PolicyNode>, node: Option<PolicyNode>) -> Result<(), OutOfMemory>
    ensures { OnOk result (nodes.new.items ≡ nodes.old.items ++ option_to_list node) }
{
    match node {
        None => Ok(()),
        Some(node) => {
            nodes.push(node)?;
            Ok(())
        }
    }
}

/// The nodes of the policies that the certificate names.
#[tactic(auto, using(crate::proofs::Named::named_more))]
fn named_nodes(
    alloc: Global,
    policies: &[ObjectIdentifier],
    above: &PolicyLevel,
) -> Result<PolicyLevel, OutOfMemory>
    ensures { IfOk result (λ level. level ≡ named_nodes above.now policies.now) }
{
    let mut nodes = Vec::new(alloc);
    for policy in policies {
        let node = named_node(alloc, policy, above)?;
        push_optional(&mut nodes, node)?;
    }
    Ok(PolicyLevel { nodes })
}

/// The policies that nodes expect.
#[tactic(auto, unfolding(crate::specs::Levels::expected_policies))]
fn expected_policies(
    alloc: Global,
    above: &PolicyLevel,
) -> Result<Vec<ObjectIdentifier>, OutOfMemory>
    ensures { IfOk result (λ ps. ps.items ≡ expected_policies above.now) }
{
    let mut policies = Vec::new(alloc);
    for node in above.nodes.as_slice() {
        push_copies(&mut policies, node.expected_policy_set.as_slice())?;
    }
    each_once(alloc, policies)
}

/// The nodes that anyPolicy makes of policies that are expected and not named.
#[tactic(auto, unfolding(crate::specs::Levels::any_nodes))]
fn any_nodes(
    alloc: Global,
    above: &PolicyLevel,
    named: &PolicyLevel,
) -> Result<Vec<PolicyNode>, OutOfMemory>
    ensures { IfOk result (λ nodes. nodes.items ≡ any_nodes above.now named.now) }
{
    let mut nodes = Vec::new(alloc);
    let expected = expected_policies(alloc, above)?;
    for policy in expected.as_slice() {
        if !named.has(policy) {
            let parents = expecting(alloc, policy, above)?;
            nodes.push(child(alloc, policy, parents)?)?;
        }
    }
    Ok(nodes)
}

/// The nodes of a certificate's depth, before those without children are deleted.
#[tactic(auto, unfolding(crate::specs::Levels::next_level))]
pub(crate) fn next_level(
    alloc: Global,
    above: &PolicyLevel,
    policies: &[ObjectIdentifier],
    any_counts: bool,
) -> Result<PolicyLevel, OutOfMemory>
    ensures { IfOk result (λ level. level ≡ next_level above.now policies.now any_counts) }
{
    let level = named_nodes(alloc, policies, above)?;
    if !(any_counts && has_any(policies)) {
        return Ok(level);
    }
    let more = any_nodes(alloc, above, &level)?;
    level.with(more)
}
