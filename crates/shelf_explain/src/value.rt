//! The values of attributes, and other texts.
ghost use Rattle.std.specs.Prelude.{◌≡◌, OnOk, ◌++◌, flat_map};
ghost use Rattle.pkix_name.specs.Characters.{codes_of};
ghost use Rattle.shelf_explain.specs.Characters.{plain};
ghost use Rattle.shelf_explain.specs.Values.{is_marked, marked, plain_text, value_text};

use crate::character::{is_special, push_plain, push_shown, push_utf8, unicode};
use pkix_name::Characters;
use std::alloc::{AllocError, Global};

/// Pushes the characters.
#[tactic(auto, unfolding(crate::specs::Values::plain_text))]
pub(crate) fn push_plain_text(
    alloc: Global,
    lines: &mut Vec<u8>,
    text: Characters<'_>,
) -> Result<(), AllocError>
    ensures { OnOk result (lines.new.items ≡ lines.old.items ++ plain_text (codes_of text.entry)) }
{
    for code in text {
        push_plain(alloc, lines, code)?;
    }
    Ok(())
}

/// Whether a backslash comes before the character: before each that has a meaning, before a space or
/// a number sign that is the first, and before a space that is the last (RFC 4514, 2.4).
#[tactic(auto, unfolding(crate::specs::Values::is_marked))]
fn is_marked(is_first: bool, is_last: bool, code: u32) -> bool
    ensures { result ≡ is_marked is_first is_last code }
{
    is_special(code) || (code == 32 && (is_first || is_last)) || (code == 35 && is_first)
}

#[tactic(auto, unfolding(crate::specs::Values::marked))]
fn push_marked(
    alloc: Global,
    lines: &mut Vec<u8>,
    is_first: bool,
    is_last: bool,
    code: u32,
) -> Result<(), AllocError>
    ensures { OnOk result (lines.new.items ≡ lines.old.items ++ marked is_first is_last code) }
{
    if is_marked(is_first, is_last, code) {
        lines.push(b'\\')?;
        push_utf8(lines, unicode(code))
    } else {
        push_shown(alloc, lines, code)
    }
}

/// Pushes the characters as the value of an attribute (RFC 4514, 2.4).
#[tactic(auto, unfolding(crate::specs::Values::value_text))]
pub(crate) fn push_value(
    alloc: Global,
    lines: &mut Vec<u8>,
    mut text: Characters<'_>,
) -> Result<(), AllocError>
    ensures { OnOk result (lines.new.items ≡ lines.old.items ++ value_text (codes_of text.entry)) }
{
    let Some(first) = text.next() else {
        return Ok(());
    };
    let mut held = first;
    let mut is_first = true;
    for code in text {
        push_marked(alloc, lines, is_first, false, held)?;
        held = code;
        is_first = false;
    }
    push_marked(alloc, lines, is_first, true, held)?;
    Ok(())
}
