//! The valid policies of a path, level by level.
ghost use Rattle.std.specs.Prelude.{◌≡◌, ◌++◌, ◌^◌, ◌-◌, filter, min, not, IfOk, OnOk};
ghost use Rattle.path_policies.specs.Growth.{levels_size};
ghost use Rattle.std.specs.Option.{option_map};
ghost use Rattle.path_policies.specs.Policies.{is_among};
ghost use Rattle.path_policies.specs.Levels.{any_left, authority_constrained, first_levels, is_null, of_user, pruned, user_constrained, with_mappings, with_policies};

use crate::level::next_level;
use crate::mapping::mapped_level;
use crate::node::{PolicyLevel, PolicyNode};
use crate::policy::{any_policy, each_once, has_any, is_among, only};
use asn1_core::{ObjectIdentifier, OutOfMemory};
use pkix_trust::PolicyMapping;
use std::alloc::Global;
use std::marker::Model;

/// The valid policies of the certificates so far (RFC 5280, 6.1.2 (a)): a level for each certificate
/// and one above them, or none at all, which RFC 5280 calls NULL. A level has a node for each policy
/// that is valid at its certificate, below those of the certificate before that it comes from.
#[derive(Debug, Drop)]
pub struct PolicyLevels {
    /// The deepest first.
    levels: Vec<PolicyLevel>,
}

impl Model for PolicyLevels {
    ghost use Rattle.path_policies.specs.Levels.{Levels};

    ghost Value = { Levels };

    ghost view = { λ s. s.levels.items };
}

/// The level with those above it, where each node has a child but those of the level itself.
#[tactic(auto, using(crate::proofs::Pruning::pruned_more, crate::proofs::Pruning::parents_more), unfolding(crate::specs::Levels::pruned))]
fn pruned(
    alloc: Global,
    level: PolicyLevel,
    above: Vec<PolicyLevel>,
) -> Result<PolicyLevels, OutOfMemory>
    ensures { IfOk result (λ s. s ≡ pruned level above.items) }
{
    let mut levels = Vec::new(alloc);
    if level.nodes.is_empty() {
        return Ok(PolicyLevels { levels });
    }
    let mut parents = level.parents(alloc)?;
    levels.push(level)?;
    for level in above {
        let kept = level.with_children(parents.as_slice());
        parents = kept.parents(alloc)?;
        levels.push(kept)?;
    }
    Ok(PolicyLevels { levels })
}

/// anyPolicy, where the deepest level has it.
fn any_left(alloc: Global, levels: &[PolicyLevel]) -> Result<Vec<ObjectIdentifier>, OutOfMemory>
    ensures { IfOk result (λ ps. ps.items ≡ any_left levels.now) }
{
    match levels {
        [deepest, ..] if deepest.has_any() => only(alloc, any_policy(alloc)?),
        _ => Ok(Vec::new(alloc)),
    }
}

impl PolicyLevels {
    /// Before the first certificate: anyPolicy at depth 0 (RFC 5280, 6.1.2 (a)).
    pub fn new(alloc: Global) -> Result<PolicyLevels, OutOfMemory>
        ensures { IfOk result (λ s. s ≡ first_levels) }
    {
        let node = PolicyNode {
            valid_policy: any_policy(alloc)?,
            expected_policy_set: only(alloc, any_policy(alloc)?)?,
            parents: Vec::new(alloc),
        };
        let mut nodes = Vec::new(alloc);
        nodes.push(node)?;
        let mut levels = Vec::new(alloc);
        levels.push(PolicyLevel { nodes })?;
        Ok(PolicyLevels { levels })
    }

    /// Whether no policy is left.
    pub fn is_null(&self) -> bool
        ensures { result ≡ is_null self.now }
    {
        self.levels.is_empty()
    }

    /// How many policies the levels have, at most `usize::MAX`: the valid ones, those that are expected,
    /// and their parents.
    #[tactic(auto, using(crate::proofs::Counting::sum_more), unfolding(crate::specs::Growth::levels_size))]
    pub fn size(&self) -> usize
        ensures { result ≡ min (levels_size self.now) (2 ^ 64 - 1) }
    {
        let mut size: usize = 0;
        for level in self.levels.as_slice() {
            size = size.saturating_add(level.size());
        }
        size
    }

    /// With the policies of the next certificate; None is of one without that extension. `any_counts`
    /// says whether anyPolicy counts there (RFC 5280, 6.1.3 (d) and (e)). The time that it takes is at
    /// most a product of the policies and of what certificates so far named and mapped.
    pub fn with_policies(
        self,
        alloc: Global,
        policies: Option<&[ObjectIdentifier]>,
        any_counts: bool,
    ) -> Result<PolicyLevels, OutOfMemory>
        ensures { IfOk result (λ s. s ≡ with_policies self (option_map (λ ps. ps.now) policies.entry) any_counts) }
    {
        let Some(policies) = policies else {
            return Ok(PolicyLevels {
                levels: Vec::new(alloc),
            });
        };
        let Some(above) = self.levels.as_slice().first() else {
            return Ok(self);
        };
        let level = next_level(alloc, above, policies, any_counts)?;
        pruned(alloc, level, self.levels)
    }

    /// With the mappings of the certificate whose policies came last; None is of one without that
    /// extension. `may_map` says whether policies may be mapped there (RFC 5280, 6.1.4 (b)). The time
    /// that it takes is at most a product of the mappings and of what certificates so far named and
    /// mapped.
    pub fn with_mappings(
        self,
        alloc: Global,
        mappings: Option<&[PolicyMapping]>,
        may_map: bool,
    ) -> Result<PolicyLevels, OutOfMemory>
        ensures { IfOk result (λ s. s ≡ with_mappings self (option_map (λ ms. ms.now) mappings.entry) may_map) }
    {
        let Some(mappings) = mappings else {
            return Ok(self);
        };
        let mut levels = self.levels;
        if levels.is_empty() {
            return Ok(PolicyLevels { levels });
        }
        let deepest = levels.remove(0);
        let level = mapped_level(alloc, mappings, may_map, deepest)?;
        pruned(alloc, level, levels)
    }

    /// The policies that the authorities of the path agree on: those of the valid policy node set
    /// (RFC 5280, 6.1.5 (g)).
    #[tactic(auto, unfolding(crate::specs::Levels::authority_constrained))]
    pub fn authority_constrained(&self, alloc: Global) -> Result<Vec<ObjectIdentifier>, OutOfMemory>
        ensures { IfOk result (λ ps. ps.items ≡ authority_constrained self.now) }
    {
        let mut policies = any_left(alloc, self.levels.as_slice())?;
        for level in self.levels.as_slice() {
            level.push_roots(&mut policies)?;
        }
        each_once(alloc, policies)
    }

    /// Those of them that the user accepts; None is any policy (RFC 5280, 6.1.5 (g)).
    pub fn user_constrained(
        &self,
        alloc: Global,
        users: Option<&[ObjectIdentifier]>,
    ) -> Result<Vec<ObjectIdentifier>, OutOfMemory>
        ensures { IfOk result (λ ps. ps.items ≡ user_constrained (option_map (λ us. us.now) users.entry) self.now) }
    {
        let policies = self.authority_constrained(alloc)?;
        match users {
            None => Ok(policies),
            Some(users) => of_user(alloc, users, policies.as_slice()),
        }
    }
}

/// Those of the policies that the user accepts.
fn common(
    alloc: Global,
    users: &[ObjectIdentifier],
    policies: &[ObjectIdentifier],
) -> Result<Vec<ObjectIdentifier>, OutOfMemory>
    ensures { IfOk result (λ ps. ps.items ≡ filter (λ p. is_among p users.now) policies.now) }
{
    let mut accepted = Vec::new(alloc);
    for policy in policies {
        if is_among(policy, users) {
            accepted.push(policy.clone()?)?;
        }
    }
    Ok(accepted)
}

/// Appends the policies of the user that aren't among the others.
fn push_others(
    accepted: &mut Vec<ObjectIdentifier>,
    users: &[ObjectIdentifier],
    policies: &[ObjectIdentifier],
) -> Result<(), OutOfMemory>
    ensures { OnOk result (accepted.new.items ≡ accepted.old.items ++ filter (λ p. not (is_among p policies.now)) users.now) }
{
    for policy in users {
        if !is_among(policy, policies) {
            accepted.push(policy.clone()?)?;
        }
    }
    Ok(())
}

/// The policies that the user accepts, all of the user's where anyPolicy is one of them.
#[tactic(auto, unfolding(crate::specs::Levels::of_user))]
fn of_user(
    alloc: Global,
    users: &[ObjectIdentifier],
    policies: &[ObjectIdentifier],
) -> Result<Vec<ObjectIdentifier>, OutOfMemory>
    ensures { IfOk result (λ ps. ps.items ≡ of_user users.now policies.now) }
{
    let mut accepted = common(alloc, users, policies)?;
    if !has_any(policies) {
        return Ok(accepted);
    }
    push_others(&mut accepted, users, policies)?;
    Ok(accepted)
}
