//! The entries of a text.
ghost use Rattle.std.specs.Prelude.{◌≡◌, ◌++◌, OnOk, option_to_list};
ghost use Rattle.std.specs.Str.Lines.{lines};
ghost use Rattle.shelf_fault.specs.Faults.{Gets};
ghost use Rattle.revoked_lines.specs.Lines.{with_lines, with_text};

use crate::entry::line_entry;
use shelf_fault::Fault;
use std::alloc::{AllocError, Global};
use std::str;
use toml_format::Revoked;

/// One more entry, where there is one.
fn push_optional(found: &mut Vec<Revoked>, entry: Option<Revoked>) -> Result<(), AllocError>
    ensures { OnOk result (found.new.items ≡ found.old.items ++ option_to_list entry) }
{
    if let Some(entry) = entry {
        found.push(entry)?;
    }
    Ok(())
}

/// These entries, and after them those of the lines of a text.
fn with_lines(
    alloc: Global,
    is_delta: bool,
    found: Vec<Revoked>,
    text: &str,
) -> Result<Vec<Revoked>, Fault>
    ensures { Gets (λ v. v.items) (with_lines is_delta 0 found.items (lines text.now)) result }
{
    let mut found = found;
    let mut number = 0usize;
    for line in text.lines() {
        number += 1;
        push_optional(&mut found, line_entry(alloc, is_delta, number, line)?)?;
    }
    Ok(found)
}

/// These entries, and after them those of a text in UTF-8.
#[tactic(auto, unfolding(crate::specs::Lines::with_text))]
pub(crate) fn with_text(
    alloc: Global,
    is_delta: bool,
    found: Vec<Revoked>,
    text: &[u8],
) -> Result<Vec<Revoked>, Fault>
    ensures { Gets (λ v. v.items) (with_text is_delta found.items text.now) result }
{
    match str::from_utf8(text) {
        Ok(text) => with_lines(alloc, is_delta, found, text),
        Err(_) => Err(Fault::RevokedText),
    }
}
