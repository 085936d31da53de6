//! Where octets aren't DER (X.690), and why.
ghost use Rattle.std.specs.Prelude.{◌≡◌, ◌++◌, OnOk};
ghost use Rattle.shelf_explain.specs.Faults.{fault_text, offence_words, rule_words};

use crate::line::{next_line, push_labelled};
use crate::part::Part;
use std::alloc::{AllocError, Global};
use strict_der::{Offence, Rule, first_offence};

/// What breaks a rule, and the section with the rule.
#[tactic(auto, unfolding(crate::specs::Faults::rule_words))]
fn rule_words(rule: Rule) -> &'static [u8]
    ensures { result.now ≡ rule_words rule }
{
    match rule {
        Rule::HighTag => b"tag number, X.690, 8.1.2.4",
        Rule::Indefinite => b"indefinite length, X.690, 10.1",
        Rule::LongLength => b"length of more than 8 octets",
        Rule::LengthForm => b"length, X.690, 10.1",
        Rule::Incomplete => b"incomplete, X.690, 8.1",
        Rule::Trailing => b"octets after the element",
        Rule::Depth => b"more than 64 levels",
        Rule::Boolean => b"BOOLEAN, X.690, 11.1",
        Rule::Integer => b"INTEGER, X.690, 8.3.2",
        Rule::BitString => b"BIT STRING, X.690, 11.2.1",
        Rule::Null => b"NULL, X.690, 8.8",
        Rule::Identifier => b"OBJECT IDENTIFIER, X.690, 8.19.2",
        Rule::Real => b"REAL with a mantissa",
        Rule::UtcTime => b"UTCTime, X.690, 11.8",
        Rule::GeneralizedTime => b"GeneralizedTime, X.690, 11.7",
        Rule::Characters => b"characters of a string, X.690, 8.23",
        Rule::Constructed => b"constructed, X.690, 10.2",
        Rule::Primitive => b"not constructed, X.690, 8.9 and 8.11",
        Rule::UnknownType => b"unknown type, X.680, 8.4",
        Rule::Order => b"order of a SET, X.690, 10.3 and 11.6",
    }
}

/// Pushes on the next line where a rule of DER is broken, and which; the octets begin at a place of the block.
#[tactic(auto, unfolding(crate::specs::Faults::offence_words))]
fn push_offence(
    alloc: Global,
    lines: &mut Vec<u8>,
    at: u64,
    offence: Offence,
) -> Result<(), AllocError>
    ensures { OnOk result (lines.new.items ≡ lines.old.items ++ offence_words at offence) }
{
    let place = at.saturating_add(offence.at as u64);
    lines.extend_from_slice(next_line())?;
    push_labelled(alloc, lines, b"not DER at octet ", &place)?;
    lines.extend_from_slice(b" (")?;
    lines.extend_from_slice(rule_words(offence.rule))?;
    lines.push(b')')?;
    Ok(())
}

/// Pushes the first offence of a part against DER, if there is one.
#[tactic(auto, unfolding(crate::specs::Faults::fault_text, crate::specs::Faults::offence_text))]
pub(crate) fn push_fault(
    alloc: Global,
    lines: &mut Vec<u8>,
    part: &Part<'_>,
) -> Result<(), AllocError>
    ensures { OnOk result (lines.new.items ≡ lines.old.items ++ fault_text part.now) }
{
    match first_offence(part.octets()) {
        None => Ok(()),
        Some(offence) => push_offence(alloc, lines, part.at(), offence),
    }
}
