//! A node of the valid policies, and those of one depth.
ghost use Rattle.std.specs.Prelude.{◌≡◌, ◌++◌, ◌^◌, ◌-◌, min, IfOk, OnOk};
ghost use Rattle.path_policies.specs.Growth.{level_size, node_size};
ghost use Rattle.path_policies.specs.Policies.{any_policy};
ghost use Rattle.path_policies.specs.Levels.{expects, has_policy, is_root, parents_of, roots_of, with_children};

use crate::policy::{is_among, is_any_policy, push_copies};
use asn1_core::{ObjectIdentifier, OutOfMemory};
use std::alloc::Global;
use std::marker::Model;

/// A valid policy of a certificate, the policies that represent it in the next one, and the valid
/// policies of the certificate before it that it comes from.
#[derive(Debug, Drop)]
pub(crate) struct PolicyNode {
    pub(crate) valid_policy: ObjectIdentifier,
    pub(crate) expected_policy_set: Vec<ObjectIdentifier>,
    pub(crate) parents: Vec<ObjectIdentifier>,
}

impl Model for PolicyNode {
    ghost use Rattle.path_policies.specs.Levels.{Node};

    ghost Value = { Node };

    ghost view = { λ v. record {
      valid_policy = v.valid_policy;
      expected_policy_set = v.expected_policy_set.items;
      parents = v.parents.items;
    } };
}

impl PolicyNode {
    /// Whether the policy represents the node's own in the next certificate.
    pub(crate) fn expects(&self, policy: &ObjectIdentifier) -> bool
        ensures { result ≡ expects policy.now self.now }
    {
        is_among(policy, self.expected_policy_set.as_slice())
    }

    /// How many policies it has, at most `usize::MAX`.
    #[tactic(auto, unfolding(crate::specs::Growth::node_size))]
    fn size(&self) -> usize
        ensures { result ≡ min (node_size self.now) (2 ^ 64 - 1) }
    {
        let expected = self.expected_policy_set.len().saturating_add(1);
        expected.saturating_add(self.parents.len())
    }

    /// Whether anyPolicy is its one parent, and it has another policy itself.
    pub(crate) fn is_root(&self) -> bool
        ensures { result ≡ is_root self.now }
    {
        match self.parents.as_slice() {
            [parent] => !is_any_policy(&self.valid_policy) && is_any_policy(parent),
            _ => false,
        }
    }
}

/// The nodes of one depth.
#[derive(Debug, Drop)]
pub(crate) struct PolicyLevel {
    pub(crate) nodes: Vec<PolicyNode>,
}

impl Model for PolicyLevel {
    ghost use Rattle.path_policies.specs.Levels.{Level};

    ghost Value = { Level };

    ghost view = { λ level. level.nodes.items };
}

impl PolicyLevel {
    /// How many policies its nodes have, at most `usize::MAX`.
    #[tactic(auto, using(crate::proofs::Counting::sum_more), unfolding(crate::specs::Growth::level_size))]
    pub(crate) fn size(&self) -> usize
        ensures { result ≡ min (level_size self.now) (2 ^ 64 - 1) }
    {
        let mut size: usize = 0;
        for node in self.nodes.as_slice() {
            size = size.saturating_add(node.size());
        }
        size
    }

    /// Whether a node has the policy.
    pub(crate) fn has(&self, policy: &ObjectIdentifier) -> bool
        ensures { result ≡ has_policy policy.now self.now }
    {
        self.nodes.iter().any(|node| node.valid_policy == *policy)
    }

    /// Whether a node has anyPolicy.
    pub(crate) fn has_any(&self) -> bool
        ensures { result ≡ has_policy any_policy self.now }
    {
        self.nodes
            .iter()
            .any(|node| is_any_policy(&node.valid_policy))
    }

    /// The parents of its nodes.
    pub(crate) fn parents(&self, alloc: Global) -> Result<Vec<ObjectIdentifier>, OutOfMemory>
        ensures { IfOk result (λ ps. ps.items ≡ parents_of self.now) }
    {
        let mut parents = Vec::new(alloc);
        for node in self.nodes.as_slice() {
            push_copies(&mut parents, node.parents.as_slice())?;
        }
        Ok(parents)
    }

    /// Appends the valid policies of nodes that `is_root` takes.
    pub(crate) fn push_roots(&self, policies: &mut Vec<ObjectIdentifier>) -> Result<(), OutOfMemory>
        ensures { OnOk result (policies.new.items ≡ policies.old.items ++ roots_of self.now) }
    {
        for node in self.nodes.as_slice() {
            if node.is_root() {
                policies.push(node.valid_policy.clone()?)?;
            }
        }
        Ok(())
    }

    /// With more nodes.
    pub(crate) fn with(self, more: Vec<PolicyNode>) -> Result<PolicyLevel, OutOfMemory>
        ensures { IfOk result (λ level. level ≡ self ++ more.items) }
    {
        let mut nodes = self.nodes;
        let mut rest = more;
        nodes.append(&mut rest)?;
        Ok(PolicyLevel { nodes })
    }

    /// The nodes that are among the parents.
    pub(crate) fn with_children(self, parents: &[ObjectIdentifier]) -> PolicyLevel
        ensures { result ≡ with_children parents.now self }
    {
        PolicyLevel {
            nodes: nodes_among(self.nodes, parents),
        }
    }
}

fn nodes_among(nodes: Vec<PolicyNode>, parents: &[ObjectIdentifier]) -> Vec<PolicyNode>
    ensures { result.items ≡ with_children parents.now nodes.items }
{
    let mut kept = nodes;
    kept.retain(|node| is_among(&node.valid_policy, parents));
    kept
}
