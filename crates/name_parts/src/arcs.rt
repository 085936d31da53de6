//! Arcs as text (RFC 4512, 1.4: numericoid): decimals to 4294967295 without leading zeros, joined by
//! periods.
ghost use Rattle.std.specs.Prelude.{◌≡◌, ◌-◌, if◌then◌else◌, None, IfOk};
ghost use Rattle.std.specs.Char.{is_ascii_digit};
ghost use Rattle.std.specs.Option.{option_map};
ghost use Rattle.name_parts.specs.Arcs.{arcs, with_digit};

use std::alloc::{AllocError, Global};

/// The number with the byte appended, where that is a digit and the number stays below 2^32.
#[tactic(auto, unfolding(crate::specs::Arcs::with_digit))]
fn with_digit(number: Option<u32>, byte: u8) -> Option<u32>
    ensures { result ≡ (if is_ascii_digit byte then with_digit number (byte - 48) else None) }
{
    if !byte.is_ascii_digit() {
        return None;
    }
    let digit = u32::from(byte - b'0');
    let Some(number) = number else {
        return Some(digit);
    };
    if number == 0 || number > (u32::MAX - digit) / 10 {
        return None;
    }
    Some(10 * number + digit)
}

/// The arcs that the text is.
#[tactic(auto, unfolding(crate::specs::Arcs::arcs), using(crate::proofs::Reading::reading))]
pub(crate) fn arcs_of(alloc: Global, text: &[u8]) -> Result<Option<Vec<u32>>, AllocError>
    ensures { IfOk result (λ found. option_map (λ all. all.items) found ≡ arcs text.now) }
{
    let mut arcs = Vec::new(alloc);
    let mut number = None;
    let mut rest = text;
    while let [byte, after @ ..] = rest {
        if *byte == b'.' {
            let Some(arc) = number else {
                return Ok(None);
            };
            arcs.push(arc)?;
            number = None;
        } else {
            number = with_digit(number, *byte);
            if number.is_none() {
                return Ok(None);
            }
        }
        rest = after;
    }
    match number {
        Some(arc) => {
            arcs.push(arc)?;
            Ok(Some(arcs))
        }
        None => Ok(None),
    }
}
