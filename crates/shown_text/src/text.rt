//! Texts with hidden characters.
ghost use Rattle.std.specs.Prelude.{◌≡◌, ◌++◌, OnOk, chars, flat_map, string_bytes};
ghost use Rattle.std.specs.List.{list_any};
ghost use Rattle.shown_text.specs.Hidden.{is_hidden, masked};

use crate::table::{is_hidden, is_shown};
use std::alloc::AllocError;

/// Whether a text has a hidden character.
pub fn has_hidden(text: &str) -> bool
    ensures { result ≡ list_any is_hidden (chars text.now) }
{
    text.chars().any(|character| is_hidden(character))
}

/// Adds a character, or `?` in its place.
#[tactic(auto, unfolding(crate::specs::Hidden::masked))]
fn push_mask(text: &mut String, character: char) -> Result<(), AllocError>
    ensures { OnOk result (string_bytes text.new ≡ string_bytes text.old ++ masked character) }
{
    if is_shown(u32::from(character)) {
        text.push(character)
    } else {
        text.push('?')
    }
}

/// Adds a text with `?` in place of each character that isn't shown as it is, so that no character ends a line, acts on
/// a terminal or reorders what is next to it. An error may leave a front of it there.
pub fn push_masked(text: &mut String, shown: &str) -> Result<(), AllocError>
    ensures { OnOk result (string_bytes text.new ≡ string_bytes text.old ++ flat_map masked (chars shown.now)) }
{
    for character in shown.chars() {
        push_mask(text, character)?;
    }
    Ok(())
}
