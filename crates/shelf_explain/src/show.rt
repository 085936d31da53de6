//! Texts of values, on one line.
ghost use Rattle.std.specs.Prelude.{◌≡◌, ◌++◌, ℕ, List, decimal, OnOk, reverse};
ghost use Rattle.std.specs.List.{join_by};
ghost use Rattle.hex.specs.Hex.{encode_lower};
ghost use Rattle.shelf_explain.specs.Lines.{dotted, each_below, hex_text, labelled};

use crate::line::below_line;
use std::alloc::{AllocError, Global};

/// A value with a text for people.
pub(crate) trait ShowText {
    ghost text: { Self → List ℕ };

    /// Pushes the text. On an error a first part of it may have been pushed.
    fn push_onto(&self, alloc: Global, lines: &mut Vec<u8>) -> Result<(), AllocError>
        ensures { OnOk result (lines.new.items ≡ lines.old.items ++ text self.now) };
}

/// Pushes a number in decimal digits.
pub(crate) fn push_decimal(
    alloc: Global,
    lines: &mut Vec<u8>,
    number: u64,
) -> Result<(), AllocError>
    ensures { OnOk result (lines.new.items ≡ lines.old.items ++ decimal number) }
{
    lines.extend_from_slice(number.to_string(alloc)?.as_bytes())
}

/// Pushes octets in hexadecimal digits.
#[tactic(auto, unfolding(crate::specs::Lines::hex_text))]
pub(crate) fn push_hex(alloc: Global, lines: &mut Vec<u8>, octets: &[u8]) -> Result<(), AllocError>
    ensures { OnOk result (lines.new.items ≡ lines.old.items ++ hex_text octets.now) }
{
    lines.extend_from_slice(hex::encode(alloc, octets)?.as_bytes())
}

/// Pushes what octets are, and the octets in hexadecimal digits.
#[tactic(auto, unfolding(crate::specs::Lines::labelled))]
pub(crate) fn push_labelled_hex(
    alloc: Global,
    lines: &mut Vec<u8>,
    label: &[u8],
    octets: &[u8],
) -> Result<(), AllocError>
    ensures { OnOk result (lines.new.items ≡ lines.old.items ++ labelled label.now (hex_text octets.now)) }
{
    lines.extend_from_slice(label)?;
    push_hex(alloc, lines, octets)
}

/// Pushes the texts with the separator between them.
#[tactic(auto, using(crate::proofs::Joined::pushing))]
pub(crate) fn push_joined<T: ShowText>(
    alloc: Global,
    lines: &mut Vec<u8>,
    separator: &[u8],
    parts: &[T],
) -> Result<(), AllocError>
    ensures { OnOk result (lines.new.items ≡ lines.old.items ++ join_by T.text separator.now parts.now) }
{
    let [first, rest @ ..] = parts else {
        return Ok(());
    };
    first.push_onto(alloc, lines)?;
    for part in rest {
        lines.extend_from_slice(separator)?;
        part.push_onto(alloc, lines)?;
    }
    Ok(())
}

/// Pushes the texts from the last to the first, with the separator between them.
#[tactic(auto, using(crate::proofs::Joined::from_last))]
pub(crate) fn push_joined_from_last<T: ShowText>(
    alloc: Global,
    lines: &mut Vec<u8>,
    separator: &[u8],
    parts: &[T],
) -> Result<(), AllocError>
    ensures { OnOk result (lines.new.items ≡ lines.old.items ++ join_by T.text separator.now (reverse parts.now)) }
{
    let Some((last, front)) = parts.split_last() else {
        return Ok(());
    };
    last.push_onto(alloc, lines)?;
    for i in (0..front.len()).rev() {
        lines.extend_from_slice(separator)?;
        front[i].push_onto(alloc, lines)?;
    }
    Ok(())
}

impl ShowText for u8 {
    ghost text = { decimal };

    fn push_onto(&self, alloc: Global, lines: &mut Vec<u8>) -> Result<(), AllocError> {
        push_decimal(alloc, lines, u64::from(*self))
    }
}

impl ShowText for u64 {
    ghost text = { decimal };

    fn push_onto(&self, alloc: Global, lines: &mut Vec<u8>) -> Result<(), AllocError> {
        push_decimal(alloc, lines, *self)
    }
}

impl ShowText for u32 {
    ghost text = { decimal };

    fn push_onto(&self, alloc: Global, lines: &mut Vec<u8>) -> Result<(), AllocError> {
        push_decimal(alloc, lines, u64::from(*self))
    }
}

impl ShowText for u128 {
    ghost text = { decimal };

    fn push_onto(&self, alloc: Global, lines: &mut Vec<u8>) -> Result<(), AllocError> {
        lines.extend_from_slice(self.to_string(alloc)?.as_bytes())
    }
}

/// Pushes arcs with dots between them.
#[tactic(auto, unfolding(crate::specs::Lines::dotted))]
pub(crate) fn push_dotted(
    alloc: Global,
    lines: &mut Vec<u8>,
    arcs: &[u32],
) -> Result<(), AllocError>
    ensures { OnOk result (lines.new.items ≡ lines.old.items ++ dotted arcs.now) }
{
    push_joined(alloc, lines, b".", arcs)
}

/// Pushes the texts, each on a line of its own, indented below the value.
#[tactic(auto, using(crate::proofs::Joined::pushing), unfolding(crate::specs::Lines::each_below))]
pub(crate) fn push_below<T: ShowText>(
    alloc: Global,
    lines: &mut Vec<u8>,
    parts: &[T],
) -> Result<(), AllocError>
    ensures { OnOk result (lines.new.items ≡ lines.old.items ++ each_below T.text parts.now) }
{
    for part in parts {
        lines.extend_from_slice(below_line())?;
        part.push_onto(alloc, lines)?;
    }
    Ok(())
}
