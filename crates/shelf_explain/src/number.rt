//! Whole numbers.
ghost use Rattle.std.specs.Prelude.{◌≡◌, OnOk, ◌++◌};
ghost use Rattle.asn1_core.specs.Twos.{is_negative};
ghost use Rattle.shelf_explain.specs.Lines.{labelled};
ghost use Rattle.shelf_explain.specs.Numbers.{hex_number, in_decimal, in_parentheses, integer_text, serial_text, short_decimal};

use crate::decimal::push_short_number;
use crate::show::{ShowText, push_decimal, push_hex};
use asn1_core::Integer;
use std::alloc::{AllocError, Global};

impl ShowText for Integer {
    ghost text = { integer_text };

    #[tactic(auto, unfolding(crate::specs::Numbers::integer_text, crate::specs::Numbers::counted))]
    fn push_onto(&self, alloc: Global, lines: &mut Vec<u8>) -> Result<(), AllocError> {
        match self.to_u64() {
            Some(number) => push_decimal(alloc, lines, number),
            None => push_hex_number(alloc, lines, self.as_bytes()),
        }
    }
}

/// Pushes the octets of a number in two's complement.
#[tactic(auto, unfolding(crate::specs::Numbers::hex_number))]
pub(crate) fn push_hex_number(
    alloc: Global,
    lines: &mut Vec<u8>,
    octets: &[u8],
) -> Result<(), AllocError>
    ensures { OnOk result (lines.new.items ≡ lines.old.items ++ hex_number octets.now) }
{
    lines.extend_from_slice(b"0x")?;
    push_hex(alloc, lines, octets)
}

/// Whether the number of these octets in two's complement is below 0.
pub(crate) fn is_negative(octets: &[u8]) -> bool
    ensures { result ≡ is_negative octets.now }
{
    match octets {
        [] => false,
        [first, ..] => *first > 127,
    }
}

#[tactic(auto, unfolding(crate::specs::Lines::labelled))]
pub(crate) fn push_labelled_number(
    alloc: Global,
    lines: &mut Vec<u8>,
    label: &[u8],
    octets: &[u8],
) -> Result<(), AllocError>
    ensures { OnOk result (lines.new.items ≡ lines.old.items ++ labelled label.now (short_decimal octets.now)) }
{
    lines.extend_from_slice(label)?;
    push_short_number(alloc, lines, octets)
}

#[tactic(auto, unfolding(crate::specs::Numbers::in_parentheses))]
fn push_in_parentheses(alloc: Global, lines: &mut Vec<u8>, octets: &[u8]) -> Result<(), AllocError>
    ensures { OnOk result (lines.new.items ≡ lines.old.items ++ in_parentheses octets.now) }
{
    push_labelled_number(alloc, lines, b" (", octets)?;
    lines.push(b')')?;
    Ok(())
}

#[tactic(auto, unfolding(crate::specs::Numbers::in_decimal))]
fn push_in_decimal(alloc: Global, lines: &mut Vec<u8>, octets: &[u8]) -> Result<(), AllocError>
    ensures { OnOk result (lines.new.items ≡ lines.old.items ++ in_decimal octets.now) }
{
    if is_negative(octets) {
        Ok(())
    } else {
        push_in_parentheses(alloc, lines, octets)
    }
}

/// Pushes a serial number in hexadecimal digits, and in decimal ones where it isn't negative.
#[tactic(auto, unfolding(crate::specs::Numbers::serial_text))]
pub(crate) fn push_serial(
    alloc: Global,
    lines: &mut Vec<u8>,
    serial: &Integer,
) -> Result<(), AllocError>
    ensures { OnOk result (lines.new.items ≡ lines.old.items ++ serial_text serial.now) }
{
    push_hex_number(alloc, lines, serial.as_bytes())?;
    push_in_decimal(alloc, lines, serial.as_bytes())
}
