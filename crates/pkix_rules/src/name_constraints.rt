//! Rules of name constraints (RFC 5280, 4.2.1.10).
ghost use Rattle.std.specs.Prelude.{◌≡◌, IfOk};
ghost use Rattle.std.specs.List.{list_any};
ghost use Rattle.pkix_rules.specs.NameConstraints.{has_distance, has_odd_host_base, has_odd_mail_base, has_odd_network, name_constraint_rules, subtree_rules, subtrees_in};

use crate::general::{is_odd_host_base, is_odd_mail_base, is_odd_network};
use crate::integer::is_zero;
use asn1_core::OutOfMemory;
use pkix_cert::{GeneralSubtree, GeneralSubtrees, NameConstraints};
use rule_table::{Rule, add, note};
use std::alloc::Global;

/// The subtrees, none where there are none.
pub(crate) fn subtrees_in(subtrees: &Option<GeneralSubtrees>) -> &[GeneralSubtree]
    ensures { result.now ≡ subtrees_in subtrees.now }
{
    match subtrees {
        None => &[],
        Some(subtrees) => subtrees.as_slice(),
    }
}

/// Whether the base is meant with some levels below it alone.
fn has_distance(subtree: &GeneralSubtree) -> bool
    ensures { result ≡ has_distance subtree.now }
{
    !is_zero(&subtree.minimum) || subtree.maximum.is_some()
}

fn has_any_distance(subtrees: &[GeneralSubtree]) -> bool
    ensures { result ≡ list_any has_distance subtrees.now }
{
    subtrees.iter().any(|subtree| has_distance(subtree))
}

fn has_odd_network(subtree: &GeneralSubtree) -> bool
    ensures { result ≡ has_odd_network subtree.now }
{
    is_odd_network(&subtree.base)
}

fn has_any_odd_network(subtrees: &[GeneralSubtree]) -> bool
    ensures { result ≡ list_any has_odd_network subtrees.now }
{
    subtrees.iter().any(|subtree| has_odd_network(subtree))
}

fn has_odd_mail_base(subtree: &GeneralSubtree) -> bool
    ensures { result ≡ has_odd_mail_base subtree.now }
{
    is_odd_mail_base(&subtree.base)
}

fn has_any_odd_mail_base(subtrees: &[GeneralSubtree]) -> bool
    ensures { result ≡ list_any has_odd_mail_base subtrees.now }
{
    subtrees.iter().any(|subtree| has_odd_mail_base(subtree))
}

fn has_odd_host_base(subtree: &GeneralSubtree) -> bool
    ensures { result ≡ has_odd_host_base subtree.now }
{
    is_odd_host_base(&subtree.base)
}

fn has_any_odd_host_base(subtrees: &[GeneralSubtree]) -> bool
    ensures { result ≡ list_any has_odd_host_base subtrees.now }
{
    subtrees.iter().any(|subtree| has_odd_host_base(subtree))
}

/// Of the subtrees that are permitted and excluded.
#[tactic(auto, unfolding(crate::specs::NameConstraints::subtree_rules))]
fn subtree_rules(
    alloc: Global,
    permitted: &[GeneralSubtree],
    excluded: &[GeneralSubtree],
) -> Result<Vec<Rule>, OutOfMemory>
    ensures { IfOk result (λ v. v.items ≡ subtree_rules permitted.now excluded.now) }
{
    let distance = has_any_distance(permitted) || has_any_distance(excluded);
    let network = has_any_odd_network(permitted) || has_any_odd_network(excluded);
    let mailbox = has_any_odd_mail_base(permitted) || has_any_odd_mail_base(excluded);
    let host = has_any_odd_host_base(permitted) || has_any_odd_host_base(excluded);
    let mut found = Vec::new(alloc);
    note(&mut found, Rule::SubtreeDistance, distance)?;
    note(&mut found, Rule::SubtreeAddress, network)?;
    note(&mut found, Rule::SubtreeMailbox, mailbox)?;
    note(&mut found, Rule::SubtreePeriod, host)?;
    Ok(found)
}

/// The rules of name constraints that are broken, in order; none where there are no constraints.
#[tactic(auto, unfolding(crate::specs::NameConstraints::name_constraint_rules))]
pub(crate) fn name_constraint_rules(
    alloc: Global,
    constraints: &Option<NameConstraints>,
) -> Result<Vec<Rule>, OutOfMemory>
    ensures { IfOk result (λ v. v.items ≡ name_constraint_rules constraints.now) }
{
    let mut found = Vec::new(alloc);
    let Some(constraints) = constraints else {
        return Ok(found);
    };
    let permitted = subtrees_in(&constraints.permitted_subtrees);
    let excluded = subtrees_in(&constraints.excluded_subtrees);
    let empty = permitted.is_empty() && excluded.is_empty();
    note(&mut found, Rule::EmptyNameConstraints, empty)?;
    let others = subtree_rules(alloc, permitted, excluded)?;
    add(&mut found, others)?;
    Ok(found)
}
