//! Weak keys of subjects, which an order has to accept.
ghost use Rattle.std.specs.Prelude.{◌≡◌, IfOk};
ghost use Rattle.std.specs.List.{list_any};
ghost use Rattle.shelf_job.specs.WeakKeys.{is_weak, with_weak_key};

use asn1_core::OutOfMemory;
use rule_table::{Rule, note};

/// Whether a key that breaks the rule is weak, isn't one, or is the issuer's.
#[tactic(auto, unfolding(crate::specs::WeakKeys::is_weak))]
fn is_weak(rule: Rule) -> bool
    ensures { result ≡ is_weak rule }
{
    match rule {
        Rule::UnreadableKey => true,
        Rule::ShortRsaKey => true,
        Rule::RsaExponent => true,
        Rule::RsaExponentSize => true,
        Rule::PointOffCurve => true,
        Rule::KeyOfIssuer => true,
        _ => false,
    }
}

fn some_weak(rules: &[Rule]) -> bool
    ensures { result ≡ list_any is_weak rules.now }
{
    rules.iter().any(|rule| is_weak(*rule))
}

/// The rules that are broken, and after them that the key is weak where that isn't accepted.
#[tactic(auto, unfolding(crate::specs::WeakKeys::with_weak_key))]
pub(crate) fn with_weak_key(is_accepted: bool, rules: Vec<Rule>) -> Result<Vec<Rule>, OutOfMemory>
    ensures { IfOk result (λ all. all.items ≡ with_weak_key is_accepted rules.items) }
{
    let is_refused = !is_accepted && some_weak(&rules);
    let mut all = rules;
    note(&mut all, Rule::WeakKey, is_refused)?;
    Ok(all)
}
