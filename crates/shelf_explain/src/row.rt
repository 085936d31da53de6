//! The fields of what is signed, one by one, where it can't be read as a whole.
ghost use Rattle.std.specs.Prelude.{◌≡◌, ◌++◌, map, OnOk};
ghost use Rattle.shelf_explain.specs.Rows.{is_one_of, is_of, missing_line, row_lines, rows_lines, step_left, step_lines};
ghost use Rattle.shelf_explain.specs.Tables.{as_row};
ghost use Rattle.shelf_explain.specs.PartTexts.{parts_text};
ghost use Rattle.shelf_explain.specs.FieldParts.{other_at};

use crate::block::LINE;
use crate::field_part::{Field, OtherPart, push_field};
use crate::line::push_key;
use crate::part::{Part, Parts, begins_with};
use crate::part_text::push_parts;
use std::alloc::{AllocError, Global};

/// A field: its name, the identifier octets that it may begin with (none for a required field), and what it is.
#[derive(Clone, Copy)]
pub(crate) struct FieldRow {
    pub(crate) name: &'static [u8],
    pub(crate) starts: &'static [u8],
    pub(crate) field: Field,
}

fn is_one_of(starts: &[u8], octets: &[u8]) -> bool
    ensures { result ≡ is_one_of starts.now octets.now }
{
    starts.iter().any(|start| begins_with(octets, *start))
}

/// Whether an element may be that of the row.
#[tactic(auto, unfolding(crate::specs::Rows::is_of))]
fn is_of(starts: &[u8], octets: &[u8]) -> bool
    ensures { result ≡ is_of starts.now octets.now }
{
    match starts {
        [] => true,
        starts => is_one_of(starts, octets),
    }
}

/// Pushes that a required field is missing.
#[tactic(auto, unfolding(crate::specs::Rows::missing_line, crate::specs::Rows::missing_of, crate::specs::Lines::line))]
fn push_missing(lines: &mut Vec<u8>, row: &FieldRow) -> Result<(), AllocError>
    ensures { OnOk result (lines.new.items ≡ lines.old.items ++ missing_line (as_row row.now)) }
{
    match row.starts {
        [] => {
            push_key(lines, LINE, row.name)?;
            lines.extend_from_slice(b"missing\n")
        }
        _ => Ok(()),
    }
}

/// Pushes the lines of a field.
#[tactic(auto, unfolding(crate::specs::Rows::row_lines))]
fn push_row(
    alloc: Global,
    lines: &mut Vec<u8>,
    row: &FieldRow,
    part: &Part<'_>,
) -> Result<(), AllocError>
    ensures { OnOk result (lines.new.items ≡ lines.old.items ++ row_lines (as_row row.now) part.now) }
{
    push_field(alloc, lines, row.field, row.name, part)
}

/// Pushes the field of the row where the next element is one, or that it is missing.
#[tactic(auto, unfolding(crate::specs::Rows::step_lines))]
fn push_step(
    alloc: Global,
    lines: &mut Vec<u8>,
    row: &FieldRow,
    parts: &Parts<'_>,
) -> Result<(), AllocError>
    ensures { OnOk result (lines.new.items ≡ lines.old.items ++ step_lines (as_row row.now) parts.now) }
{
    let Some((part, _)) = parts.first() else {
        return push_missing(lines, row);
    };
    if is_of(row.starts, part.octets()) {
        push_row(alloc, lines, row, &part)
    } else {
        Ok(())
    }
}

/// The elements after the field of the row.
#[tactic(auto, unfolding(crate::specs::Rows::step_left))]
fn step_left<'a>(row: &FieldRow, parts: Parts<'a>) -> Parts<'a>
    ensures { result ≡ step_left (as_row row.now) parts.entry }
{
    let Some((part, left)) = parts.first() else {
        return parts;
    };
    if is_of(row.starts, part.octets()) {
        left
    } else {
        parts
    }
}

/// Pushes the fields, and the elements after them.
#[tactic(auto, using(crate::proofs::RowSteps::rows))]
pub(crate) fn push_rows(
    alloc: Global,
    lines: &mut Vec<u8>,
    rows: &[FieldRow],
    parts: Parts<'_>,
) -> Result<(), AllocError>
    ensures { OnOk result (lines.new.items ≡ lines.old.items ++ rows_lines (map as_row rows.now) parts.entry) }
{
    let mut left = parts;
    for row in rows {
        push_step(alloc, lines, row, &left)?;
        left = step_left(row, left);
    }
    push_parts::<OtherPart>(alloc, lines, b"", left)?;
    Ok(())
}
