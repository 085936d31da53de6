//! Lines on rules that are broken.
ghost use Rattle.std.specs.Prelude.{◌≡◌, IfOk};
ghost use Rattle.rule_texts.specs.Errors.{has_error};
ghost use Rattle.rule_texts.specs.Lines.{finding_line, finding_lines, severity};

use crate::wording::{is_error, text};
use asn1_core::OutOfMemory;
use rule_table::Rule;
use std::alloc::Global;

/// `error: ` or `warning: `.
pub fn severity(error: bool) -> &'static [u8]
    ensures { result.now ≡ severity error }
{
    if error { b"error: " } else { b"warning: " }
}

/// A line on a rule that is broken.
#[tactic(auto, unfolding(crate::specs::Lines::finding_line))]
fn finding_line(alloc: Global, rule: Rule) -> Result<Vec<u8>, OutOfMemory>
    ensures { IfOk result (λ line. line.items ≡ finding_line rule) }
{
    let mut line = Vec::new(alloc);
    line.extend_from_slice(severity(is_error(rule)))?;
    line.extend_from_slice(text(rule).as_bytes())?;
    line.push(b'\n')?;
    Ok(line)
}

/// A line for each of the rules, in order: `error: ` or `warning: `, and its text.
#[tactic(auto, unfolding(crate::specs::Lines::finding_lines))]
pub fn finding_lines(alloc: Global, rules: &[Rule]) -> Result<Vec<u8>, OutOfMemory>
    ensures { IfOk result (λ lines. lines.items ≡ finding_lines rules.now) }
{
    let mut lines = Vec::new(alloc);
    for rule in rules {
        let line = finding_line(alloc, *rule)?;
        lines.extend_from_slice(&line)?;
    }
    Ok(lines)
}

/// Whether one of them stops an order.
#[tactic(auto, unfolding(crate::specs::Errors::has_error))]
pub fn has_error(rules: &[Rule]) -> bool
    ensures { result ≡ has_error rules.now }
{
    rules.iter().any(|rule| is_error(*rule))
}
