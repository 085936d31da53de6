//! Octets without a label that can't be read as a whole.
ghost use Rattle.std.specs.Prelude.{◌≡◌, ◌++◌, map, OnOk};
ghost use Rattle.shelf_explain.specs.Bundles.{guessed_lines, has_time, has_update, has_version, is_time, shown_as, unlabelled_lines};
ghost use Rattle.shelf_explain.specs.Parts.{parts_of};
ghost use Rattle.shelf_explain.specs.Tables.{as_row};

use crate::block::push_not_explained;
use crate::digest::push_fingerprint;
use crate::part::{Part, Parts, begins_with};
use crate::partly::{is_signed, push_by_rows};
use crate::row::FieldRow;
use crate::table::{certificate_fields, list_fields};
use std::alloc::{AllocError, Global};

/// Whether a version comes first, as in a certificate (RFC 5280, 4.1).
#[tactic(auto, unfolding(crate::specs::Bundles::has_version))]
fn has_version(signed: &Part<'_>) -> bool
    ensures { result ≡ has_version (parts_of signed.now) }
{
    let Some(parts) = signed.parts() else {
        return false;
    };
    match parts.first() {
        None => false,
        Some((first, _)) => begins_with(first.octets(), 0xa0),
    }
}

fn is_time(octets: &[u8]) -> bool
    ensures { result ≡ is_time octets.now }
{
    begins_with(octets, 0x17) || begins_with(octets, 0x18)
}

/// Whether the third is a time, as after the version of a list (RFC 5280, 5.1).
#[tactic(auto, unfolding(crate::specs::Bundles::has_time))]
fn has_time(parts: &Parts<'_>) -> bool
    ensures { result ≡ has_time parts.now }
{
    let Some((_, left)) = parts.first() else {
        return false;
    };
    let Some((_, left)) = left.first() else {
        return false;
    };
    match left.first() {
        None => false,
        Some((time, _)) => is_time(time.octets()),
    }
}

/// Whether the fields begin as those of a list.
#[tactic(auto, unfolding(crate::specs::Bundles::has_update))]
fn has_update(signed: &Part<'_>) -> bool
    ensures { result ≡ has_update (parts_of signed.now) }
{
    let Some(parts) = signed.parts() else {
        return false;
    };
    let Some((first, rest)) = parts.first() else {
        return false;
    };
    if begins_with(first.octets(), 0x02) {
        has_time(&rest)
    } else {
        has_time(&parts)
    }
}

fn push_shown_as(
    alloc: Global,
    lines: &mut Vec<u8>,
    rows: &[FieldRow],
    octets: &[u8],
) -> Result<(), AllocError>
    ensures { OnOk result (lines.new.items ≡ lines.old.items ++ shown_as (map as_row rows.now) octets.now) }
{
    push_by_rows(alloc, lines, rows, &Part::in_front(octets))?;
    push_fingerprint(alloc, lines, octets)?;
    Ok(())
}

/// Pushes a certificate or a list, by the first fields of the part that is signed.
#[tactic(auto, unfolding(crate::specs::Bundles::guessed_lines))]
fn push_guessed(
    alloc: Global,
    lines: &mut Vec<u8>,
    signed: &Part<'_>,
    octets: &[u8],
) -> Result<(), AllocError>
    ensures { OnOk result (lines.new.items ≡ lines.old.items ++ guessed_lines signed.now octets.now) }
{
    if has_version(signed) {
        return push_shown_as(alloc, lines, certificate_fields(), octets);
    }
    if has_update(signed) {
        return push_shown_as(alloc, lines, list_fields(), octets);
    }
    push_not_explained(alloc, lines, octets)
}

/// Pushes what can be read of octets without a label.
#[tactic(auto, unfolding(crate::specs::Bundles::unlabelled_lines, crate::specs::Bundles::guessed_or_not))]
pub(crate) fn push_unlabelled(
    alloc: Global,
    lines: &mut Vec<u8>,
    octets: &[u8],
) -> Result<(), AllocError>
    ensures { OnOk result (lines.new.items ≡ lines.old.items ++ unlabelled_lines octets.now) }
{
    let Some(parts) = Part::in_front(octets).parts() else {
        return push_not_explained(alloc, lines, octets);
    };
    let Some((signed, rest)) = parts.first() else {
        return push_not_explained(alloc, lines, octets);
    };
    if is_signed(&signed, &rest) {
        push_guessed(alloc, lines, &signed, octets)
    } else {
        push_not_explained(alloc, lines, octets)
    }
}
