//! Rules that are broken, in order.
ghost use Rattle.std.specs.Prelude.{◌≡◌, ◌++◌, IfOk};
ghost use Rattle.rule_table.specs.Found.{when};

use crate::rule::Rule;
use asn1_core::OutOfMemory;

/// Adds the rule where it is broken.
#[tactic(auto, unfolding(crate::specs::Found::when))]
pub fn note(found: &mut Vec<Rule>, rule: Rule, broken: bool) -> Result<(), OutOfMemory>
    ensures { IfOk result (λ _. found.new.items ≡ found.old.items ++ when broken rule) }
{
    if broken {
        found.push(rule)?;
    }
    Ok(())
}

/// Adds the others.
pub fn add(found: &mut Vec<Rule>, others: Vec<Rule>) -> Result<(), OutOfMemory>
    ensures { IfOk result (λ _. found.new.items ≡ found.old.items ++ others.items) }
{
    found.extend_from_slice(others.as_slice())?;
    Ok(())
}
