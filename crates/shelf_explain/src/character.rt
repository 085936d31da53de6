//! Characters of a text as they are shown.
ghost use Rattle.std.specs.Prelude.{◌≡◌, OnOk, ◌++◌, cond, encode_utf8};
ghost use Rattle.asn1_core.specs.StringTypes.{scalar};
ghost use Rattle.shelf_explain.specs.Characters.{hex_pair, hex_pairs, is_special, plain, shown, unicode};

use crate::show::push_hex;
use shown_text::is_shown;
use std::alloc::{AllocError, Global};

/// The character with the code; U+FFFD where there is none.
#[tactic(auto, unfolding(crate::specs::Characters::unicode))]
pub(crate) fn unicode(code: u32) -> char
    ensures { result ≡ unicode code }
{
    match char::from_u32(code) {
        Some(character) => character,
        None => '\u{fffd}',
    }
}

/// Whether it has a meaning in the text of a name (RFC 4514, 2.4).
#[tactic(auto, unfolding(crate::specs::Characters::is_special))]
pub(crate) fn is_special(code: u32) -> bool
    ensures { result ≡ is_special code }
{
    code == 34 || code == 43 || code == 44 || code == 59 || code == 60 || code == 62 || code == 92
}

/// Pushes an octet as a backslash and two hexadecimal digits.
#[tactic(auto, unfolding(crate::specs::Characters::hex_pair))]
fn push_hex_pair(alloc: Global, lines: &mut Vec<u8>, octet: u8) -> Result<(), AllocError>
    ensures { OnOk result (lines.new.items ≡ lines.old.items ++ hex_pair octet) }
{
    lines.push(b'\\')?;
    push_hex(alloc, lines, &[octet])
}

#[tactic(auto, using(crate::proofs::Joined::pushing), unfolding(crate::specs::Characters::hex_pairs))]
fn push_hex_pairs(alloc: Global, lines: &mut Vec<u8>, octets: &[u8]) -> Result<(), AllocError>
    ensures { OnOk result (lines.new.items ≡ lines.old.items ++ hex_pairs octets.now) }
{
    for octet in octets {
        push_hex_pair(alloc, lines, *octet)?;
    }
    Ok(())
}

/// Pushes a character in UTF-8.
pub(crate) fn push_utf8(lines: &mut Vec<u8>, character: char) -> Result<(), AllocError>
    ensures { OnOk result (lines.new.items ≡ lines.old.items ++ encode_utf8 character) }
{
    let mut buffer = [0; 4];
    lines.extend_from_slice(character.encode_utf8(&mut buffer).as_bytes())
}

/// Pushes the octets of a character, each as a backslash and its hexadecimal digits.
fn push_octets(alloc: Global, lines: &mut Vec<u8>, character: char) -> Result<(), AllocError>
    ensures { OnOk result (lines.new.items ≡ lines.old.items ++ hex_pairs (encode_utf8 character)) }
{
    let mut buffer = [0; 4];
    push_hex_pairs(alloc, lines, character.encode_utf8(&mut buffer).as_bytes())
}

/// Pushes a character in UTF-8; of one that is hidden, or of a script that runs from right to left, the octets, each as a
/// backslash and its hexadecimal digits.
#[tactic(auto, unfolding(crate::specs::Characters::shown))]
pub(crate) fn push_shown(alloc: Global, lines: &mut Vec<u8>, code: u32) -> Result<(), AllocError>
    ensures { OnOk result (lines.new.items ≡ lines.old.items ++ shown code) }
{
    let character = unicode(code);
    if is_shown(u32::from(character)) {
        push_utf8(lines, character)
    } else {
        push_octets(alloc, lines, character)
    }
}

/// Pushes a character so, and a backslash twice.
#[tactic(auto, unfolding(crate::specs::Characters::plain))]
pub(crate) fn push_plain(alloc: Global, lines: &mut Vec<u8>, code: u32) -> Result<(), AllocError>
    ensures { OnOk result (lines.new.items ≡ lines.old.items ++ plain code) }
{
    if code == 92 {
        lines.extend_from_slice(b"\\\\")
    } else {
        push_shown(alloc, lines, code)
    }
}
