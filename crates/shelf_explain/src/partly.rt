//! What is signed with its signature, field by field, where it can't be read as a whole.
ghost use Rattle.std.specs.Prelude.{◌≡◌, ◌++◌, map, OnOk};
ghost use Rattle.shelf_explain.specs.Partly.{by_rows, has_signed_form, is_signed, parts_or_unread, read_or_rows, signed_parts, within_lines, whole_line};
ghost use Rattle.shelf_explain.specs.Parts.{in_front, parts_of};
ghost use Rattle.shelf_explain.specs.Tables.{as_row};

use crate::block::{LINE, ShowLines, push_unread_octets, push_unreadable_part};
use crate::line::push_key;
use crate::part::{Part, Parts, begins_with};
use crate::part_text::push_whole_place;
use crate::row::{FieldRow, push_rows};
use crate::table::signature_fields;
use der_tree::{DerType, der};
use std::alloc::{AllocError, Global};

/// The identifier octet of a SEQUENCE.
const SEQUENCE: u8 = 0x30;

/// Whether an element, and the one after it, may be what is signed and an algorithm.
#[tactic(auto, unfolding(crate::specs::Partly::is_signed))]
pub(crate) fn is_signed(signed: &Part<'_>, rest: &Parts<'_>) -> bool
    ensures { result ≡ is_signed signed.now rest.now }
{
    let Some((algorithm, _)) = rest.first() else {
        return false;
    };
    begins_with(signed.octets(), SEQUENCE) && begins_with(algorithm.octets(), SEQUENCE)
}

/// Whether octets have the form of a signed value.
#[tactic(auto, unfolding(crate::specs::Partly::has_signed_form))]
pub(crate) fn has_signed_form(octets: &[u8]) -> bool
    ensures { result ≡ has_signed_form (parts_of (in_front octets.now)) }
{
    let Some(parts) = Part::in_front(octets).parts() else {
        return false;
    };
    match parts.first() {
        None => false,
        Some((signed, rest)) => is_signed(&signed, &rest),
    }
}

/// Pushes that a block can't be read as a whole.
#[tactic(auto, unfolding(crate::specs::Partly::whole_line, crate::specs::Lines::line))]
fn push_whole_line(alloc: Global, lines: &mut Vec<u8>, block: &Part<'_>) -> Result<(), AllocError>
    ensures { OnOk result (lines.new.items ≡ lines.old.items ++ whole_line block.now) }
{
    push_key(lines, LINE, b"block")?;
    push_whole_place(alloc, lines, block)?;
    lines.push(b'\n')?;
    Ok(())
}

/// Pushes the fields within what is signed.
#[tactic(auto, unfolding(crate::specs::Partly::within_lines, crate::specs::Partly::rows_or_unreadable))]
fn push_within(
    alloc: Global,
    lines: &mut Vec<u8>,
    rows: &[FieldRow],
    signed: &Part<'_>,
) -> Result<(), AllocError>
    ensures { OnOk result (lines.new.items ≡ lines.old.items ++ within_lines (map as_row rows.now) signed.now) }
{
    let Some(fields) = signed.parts() else {
        return push_unreadable_part(alloc, lines, LINE, b"signed part", signed);
    };
    push_rows(alloc, lines, rows, fields)
}

/// Pushes what is signed, and its signature.
#[tactic(auto, unfolding(crate::specs::Partly::signed_parts))]
fn push_signed_parts(
    alloc: Global,
    lines: &mut Vec<u8>,
    rows: &[FieldRow],
    block: &Part<'_>,
    signed: &Part<'_>,
    rest: Parts<'_>,
) -> Result<(), AllocError>
    ensures { OnOk result (lines.new.items ≡ lines.old.items ++ signed_parts (map as_row rows.now) block.now signed.now rest.entry) }
{
    push_whole_line(alloc, lines, block)?;
    push_within(alloc, lines, rows, signed)?;
    push_rows(alloc, lines, signature_fields(), rest)?;
    Ok(())
}

/// Pushes the parts of a block that has the form of a signed value; of any other block the number of octets.
#[tactic(auto, unfolding(crate::specs::Partly::parts_or_unread))]
fn push_parts_or_unread(
    alloc: Global,
    lines: &mut Vec<u8>,
    rows: &[FieldRow],
    block: &Part<'_>,
    parts: Parts<'_>,
) -> Result<(), AllocError>
    ensures { OnOk result (lines.new.items ≡ lines.old.items ++ parts_or_unread (map as_row rows.now) block.now parts.entry) }
{
    let Some((signed, rest)) = parts.first() else {
        return push_unread_octets(alloc, lines, block.octets());
    };
    if is_signed(&signed, &rest) {
        push_signed_parts(alloc, lines, rows, block, &signed, rest)
    } else {
        push_unread_octets(alloc, lines, block.octets())
    }
}

#[tactic(auto, unfolding(crate::specs::Partly::by_rows, crate::specs::Partly::block_parts))]
pub(crate) fn push_by_rows(
    alloc: Global,
    lines: &mut Vec<u8>,
    rows: &[FieldRow],
    block: &Part<'_>,
) -> Result<(), AllocError>
    ensures { OnOk result (lines.new.items ≡ lines.old.items ++ by_rows (map as_row rows.now) block.now) }
{
    let Some(parts) = block.parts() else {
        return push_unread_octets(alloc, lines, block.octets());
    };
    push_parts_or_unread(alloc, lines, rows, block, parts)
}

/// Pushes the lines of the value whose DER encoding the octets are, or else what can be read of its fields.
#[tactic(auto, unfolding(crate::specs::Partly::read_or_rows, crate::specs::Partly::lines_or_rows))]
pub(crate) fn push_read_or_rows<T: DerType + ShowLines + Drop>(
    alloc: Global,
    lines: &mut Vec<u8>,
    rows: &[FieldRow],
    octets: &[u8],
) -> Result<(), AllocError>
    ensures { OnOk result (lines.new.items ≡ lines.old.items ++ read_or_rows T.codec T.written (map as_row rows.now) octets.now) }
{
    let Some(value) = der::value_of::<T>(alloc, octets)? else {
        return push_by_rows(alloc, lines, rows, &Part::in_front(octets));
    };
    value.push_lines(alloc, lines)?;
    Ok(())
}
