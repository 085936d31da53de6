//! Policies, by their identifiers (RFC 5280, 4.2.1.4).
ghost use Rattle.std.specs.Prelude.{◌≡◌, ◌++◌, ◌∷◌, [], IfOk, OnOk};
ghost use Rattle.path_policies.specs.Policies.{any_policy, each_once, is_among, is_any};

use asn1_core::{ObjectIdentifier, OutOfMemory};
use std::alloc::Global;

/// Whether it is anyPolicy, 2.5.29.32.0 (RFC 5280, 4.2.1.4).
pub fn is_any_policy(policy: &ObjectIdentifier) -> bool
    ensures { result ≡ is_any policy.now }
{
    policy.arcs() == [2, 5, 29, 32, 0].as_slice()
}

pub(crate) fn any_policy(alloc: Global) -> Result<ObjectIdentifier, OutOfMemory>
    ensures { IfOk result (λ p. p ≡ any_policy) }
{
    match ObjectIdentifier::new(alloc, &[2, 5, 29, 32, 0]) {
        Ok(policy) => Ok(policy),
        Err(_) => Err(OutOfMemory),
    }
}

/// Whether the policy is one of these.
pub(crate) fn is_among(policy: &ObjectIdentifier, policies: &[ObjectIdentifier]) -> bool
    ensures { result ≡ is_among policy.now policies.now }
{
    policies.contains(policy)
}

/// Whether anyPolicy is one of these.
pub(crate) fn has_any(policies: &[ObjectIdentifier]) -> bool
    ensures { result ≡ is_among any_policy policies.now }
{
    policies.iter().any(|policy| is_any_policy(policy))
}

/// A list of the policy alone.
pub(crate) fn only(
    alloc: Global,
    policy: ObjectIdentifier,
) -> Result<Vec<ObjectIdentifier>, OutOfMemory>
    ensures { IfOk result (λ ps. ps.items ≡ policy ∷ []) }
{
    let mut policies = Vec::new(alloc);
    policies.push(policy)?;
    Ok(policies)
}

/// Appends copies of the policies.
pub(crate) fn push_copies(
    policies: &mut Vec<ObjectIdentifier>,
    more: &[ObjectIdentifier],
) -> Result<(), OutOfMemory>
    ensures { OnOk result (policies.new.items ≡ policies.old.items ++ more.now) }
{
    for policy in more {
        policies.push(policy.clone()?)?;
    }
    Ok(())
}

/// Each policy once, where it occurs first.
#[tactic(auto, using(crate::proofs::Once::once_more))]
pub(crate) fn each_once(
    alloc: Global,
    policies: Vec<ObjectIdentifier>,
) -> Result<Vec<ObjectIdentifier>, OutOfMemory>
    ensures { IfOk result (λ ps. ps.items ≡ each_once policies.items) }
{
    let mut once = Vec::new(alloc);
    for policy in policies {
        if !is_among(&policy, once.as_slice()) {
            once.push(policy)?;
        }
    }
    Ok(once)
}
