//! What is read of a part of a block, and its octets where nothing is.
ghost use Rattle.std.specs.Prelude.{◌≡◌, ◌++◌, ℕ, List, OnOk};
ghost use Rattle.shelf_explain.specs.PartTexts.{each_or_unreadable, parts_text, place_text, read_at, read_or_parts, spread, spread_parts, unreadable_at, whole_place};
ghost use Rattle.shelf_explain.specs.Parts.{Place};

use crate::fault::push_fault;
use crate::line::{next_line, push_labelled};
use crate::part::{Part, Parts};
use crate::show::{ShowText, push_hex};
use der_tree::{DerType, SequenceOf, der};
use std::alloc::{AllocError, Global};

/// Shows a part of a block.
pub(crate) trait ShowPart {
    ghost part_text: { Place → List ℕ };

    /// Pushes the text. On an error a first part of it may have been pushed.
    fn push_part(alloc: Global, lines: &mut Vec<u8>, part: &Part<'_>) -> Result<(), AllocError>
        ensures { OnOk result (lines.new.items ≡ lines.old.items ++ part_text part.now) };
}

/// Pushes where a part is, and the rule of DER that it breaks, if it breaks one.
#[tactic(auto, unfolding(crate::specs::PartTexts::place_text))]
fn push_place(
    alloc: Global,
    lines: &mut Vec<u8>,
    label: &[u8],
    part: &Part<'_>,
) -> Result<(), AllocError>
    ensures { OnOk result (lines.new.items ≡ lines.old.items ++ place_text label.now part.now) }
{
    push_labelled(alloc, lines, label, &part.at())?;
    push_fault(alloc, lines, part)
}

/// Pushes where a part is that can't be read as a whole, and the rule of DER that it breaks.
#[tactic(auto, unfolding(crate::specs::PartTexts::whole_place))]
pub(crate) fn push_whole_place(
    alloc: Global,
    lines: &mut Vec<u8>,
    part: &Part<'_>,
) -> Result<(), AllocError>
    ensures { OnOk result (lines.new.items ≡ lines.old.items ++ whole_place part.now) }
{
    push_place(alloc, lines, b"unreadable as a whole at octet ", part)?;
    lines.extend_from_slice(b"; its parts:")?;
    Ok(())
}

/// Pushes the octets of a part that can't be read.
#[tactic(auto, unfolding(crate::specs::PartTexts::unreadable_at))]
pub(crate) fn push_unreadable_at(
    alloc: Global,
    lines: &mut Vec<u8>,
    part: &Part<'_>,
) -> Result<(), AllocError>
    ensures { OnOk result (lines.new.items ≡ lines.old.items ++ unreadable_at part.now) }
{
    push_place(alloc, lines, b"unreadable at octet ", part)?;
    lines.extend_from_slice(b": ")?;
    push_hex(alloc, lines, part.octets())?;
    Ok(())
}

/// Pushes the value whose DER encoding a part is.
#[tactic(auto, unfolding(crate::specs::PartTexts::read_at, crate::specs::PartTexts::text_or_unreadable_at))]
pub(crate) fn push_read_at<T: DerType + ShowText + Drop>(
    alloc: Global,
    lines: &mut Vec<u8>,
    part: &Part<'_>,
) -> Result<(), AllocError>
    ensures { OnOk result (lines.new.items ≡ lines.old.items ++ read_at T.codec T.text part.now) }
{
    let Some(value) = der::value_of::<T>(alloc, part.octets())? else {
        return push_unreadable_at(alloc, lines, part);
    };
    value.push_onto(alloc, lines)?;
    Ok(())
}

impl<T: DerType + ShowText + Drop> ShowPart for SequenceOf<T> {
    ghost part_text = { read_at T.codec T.text };

    fn push_part(alloc: Global, lines: &mut Vec<u8>, part: &Part<'_>) -> Result<(), AllocError> {
        push_read_at::<T>(alloc, lines, part)
    }
}

/// Pushes the parts, each after the same text.
#[tactic(auto, using(crate::proofs::PartSteps::pushing), unfolding(crate::specs::PartTexts::parts_text))]
pub(crate) fn push_parts<P: ShowPart>(
    alloc: Global,
    lines: &mut Vec<u8>,
    before: &[u8],
    parts: Parts<'_>,
) -> Result<(), AllocError>
    ensures { OnOk result (lines.new.items ≡ lines.old.items ++ parts_text before.now P.part_text parts.entry) }
{
    let mut left = parts;
    while let Some((part, rest)) = left.first() {
        lines.extend_from_slice(before)?;
        P::push_part(alloc, lines, &part)?;
        left = rest;
    }
    Ok(())
}

/// Pushes the parts of a part that can't be read as a whole.
#[tactic(auto, unfolding(crate::specs::PartTexts::by_parts))]
pub(crate) fn push_by_parts<P: ShowPart>(
    alloc: Global,
    lines: &mut Vec<u8>,
    before: &[u8],
    part: &Part<'_>,
) -> Result<(), AllocError>
    ensures { OnOk result (lines.new.items ≡ lines.old.items ++ each_or_unreadable before.now P.part_text part.now) }
{
    let Some(parts) = part.parts() else {
        return push_unreadable_at(alloc, lines, part);
    };
    push_whole_place(alloc, lines, part)?;
    push_parts::<P>(alloc, lines, before, parts)
}

/// Pushes the value whose DER encoding a part is, or else its parts.
#[tactic(auto, unfolding(crate::specs::PartTexts::read_or_parts, crate::specs::PartTexts::text_or_parts))]
pub(crate) fn push_read_or_parts<T: DerType + ShowText + Drop, P: ShowPart>(
    alloc: Global,
    lines: &mut Vec<u8>,
    before: &[u8],
    part: &Part<'_>,
) -> Result<(), AllocError>
    ensures { OnOk result (lines.new.items ≡ lines.old.items ++ read_or_parts T.codec T.text before.now P.part_text part.now) }
{
    let Some(value) = der::value_of::<T>(alloc, part.octets())? else {
        return push_by_parts::<P>(alloc, lines, before, part);
    };
    value.push_onto(alloc, lines)?;
    Ok(())
}

/// Pushes the parts, a line for each.
#[tactic(auto, unfolding(crate::specs::PartTexts::spread_parts))]
fn push_spread_parts<P: ShowPart>(
    alloc: Global,
    lines: &mut Vec<u8>,
    parts: Parts<'_>,
) -> Result<(), AllocError>
    ensures { OnOk result (lines.new.items ≡ lines.old.items ++ spread_parts P.part_text parts.entry) }
{
    let Some((part, left)) = parts.first() else {
        return lines.extend_from_slice(b"none");
    };
    P::push_part(alloc, lines, &part)?;
    push_parts::<P>(alloc, lines, next_line(), left)
}

/// Pushes what is within a part, a line for each.
#[tactic(auto, unfolding(crate::specs::PartTexts::spread_or_unreadable))]
pub(crate) fn push_spread<P: ShowPart>(
    alloc: Global,
    lines: &mut Vec<u8>,
    part: &Part<'_>,
) -> Result<(), AllocError>
    ensures { OnOk result (lines.new.items ≡ lines.old.items ++ spread P.part_text part.now) }
{
    let Some(parts) = part.parts() else {
        return push_unreadable_at(alloc, lines, part);
    };
    push_spread_parts::<P>(alloc, lines, parts)
}
