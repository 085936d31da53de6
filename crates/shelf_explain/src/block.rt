//! Blocks of several lines.
ghost use Rattle.std.specs.Prelude.{◌≡◌, ◌++◌, ℕ, List, OnOk, codes};
ghost use Rattle.std.specs.Option.{option_copied};
ghost use Rattle.shelf_explain.specs.ExtensionTexts.{all_extensions};
ghost use Rattle.shelf_explain.specs.Keys.{full_algorithm_text};
ghost use Rattle.shelf_explain.specs.Lines.{labelled, line};
ghost use Rattle.shelf_explain.specs.PartTexts.{unreadable_part};
ghost use Rattle.shelf_explain.specs.Blocks.{algorithm_line, inner_algorithm, line_of, not_explained, read_lines, serial_line, signature_lines, time_text, titled_extensions, unread_octets, unreadable_line, version_text};

use crate::extension::push_all_extensions;
use crate::key::{is_same_algorithm, push_full_algorithm};
use crate::line::{push_key, push_labelled, push_line};
use crate::number::push_serial;
use crate::part::Part;
use crate::part_text::push_unreadable_at;
use crate::show::{ShowText, push_hex};
use asn1_core::{BitString, GeneralizedTime, Integer};
use der_tree::{DerType, der};
use pkix_cert::{AlgorithmIdentifier, Extensions, Time, Version};
use std::alloc::{AllocError, Global};

/// The indent of a line of a block.
pub(crate) const LINE: &[u8] = b"  ";

/// The indent of what belongs to a line.
pub(crate) const BELOW: &[u8] = b"    ";

/// Has lines, for people.
pub(crate) trait ShowLines {
    ghost written: { Self → List ℕ };

    /// Pushes the lines. An error may leave a front of them there.
    fn push_lines(&self, alloc: Global, lines: &mut Vec<u8>) -> Result<(), AllocError>
        ensures { OnOk result (lines.new.items ≡ lines.old.items ++ written self.now) };
}

impl ShowText for Time {
    ghost text = { time_text };

    #[tactic(auto, unfolding(crate::specs::Blocks::time_text))]
    fn push_onto(&self, alloc: Global, lines: &mut Vec<u8>) -> Result<(), AllocError> {
        match self {
            Time::Utc(time) => GeneralizedTime { at: time.at }.push_onto(alloc, lines),
            Time::General(time) => time.push_onto(alloc, lines),
        }
    }
}

impl ShowText for Version {
    ghost text = { version_text };

    #[tactic(auto, unfolding(crate::specs::Blocks::version_text))]
    fn push_onto(&self, alloc: Global, lines: &mut Vec<u8>) -> Result<(), AllocError> {
        let number = self.raw_value();
        if number == 0 {
            lines.push(b'1')?;
            Ok(())
        } else if number == 1 {
            lines.push(b'2')?;
            Ok(())
        } else if number == 2 {
            lines.push(b'3')?;
            Ok(())
        } else {
            push_labelled(alloc, lines, b"number ", &number)
        }
    }
}

/// Pushes the line where there is a value.
#[tactic(auto, unfolding(crate::specs::Blocks::line_of))]
pub(crate) fn push_line_of<T: ShowText>(
    alloc: Global,
    lines: &mut Vec<u8>,
    key: &[u8],
    value: Option<&T>,
) -> Result<(), AllocError>
    ensures { OnOk result (lines.new.items ≡ lines.old.items ++ line_of key.now T.text (option_copied value.entry)) }
{
    match value {
        None => Ok(()),
        Some(value) => push_line(alloc, lines, LINE, key, value),
    }
}

/// Pushes the line of a serial number.
#[tactic(auto, unfolding(crate::specs::Blocks::serial_line, crate::specs::Lines::line))]
pub(crate) fn push_serial_line(
    alloc: Global,
    lines: &mut Vec<u8>,
    indent: &[u8],
    serial: &Integer,
) -> Result<(), AllocError>
    ensures { OnOk result (lines.new.items ≡ lines.old.items ++ serial_line indent.now serial.now) }
{
    push_key(lines, indent, b"serial")?;
    push_serial(alloc, lines, serial)?;
    lines.push(b'\n')?;
    Ok(())
}

#[tactic(auto, unfolding(crate::specs::Lines::labelled))]
fn push_below_title(
    alloc: Global,
    lines: &mut Vec<u8>,
    title: &[u8],
    extensions: &Extensions,
) -> Result<(), AllocError>
    ensures { OnOk result (lines.new.items ≡ lines.old.items ++ labelled title.now (all_extensions (codes "    ") extensions.now.0)) }
{
    lines.extend_from_slice(title)?;
    push_all_extensions(alloc, lines, BELOW, extensions.0.as_slice())
}

/// Pushes the extensions under a title, where there are any.
#[tactic(auto, unfolding(crate::specs::Blocks::titled_extensions))]
pub(crate) fn push_titled_extensions(
    alloc: Global,
    lines: &mut Vec<u8>,
    extensions: Option<&Extensions>,
) -> Result<(), AllocError>
    ensures { OnOk result (lines.new.items ≡ lines.old.items ++ titled_extensions (option_copied extensions.entry)) }
{
    match extensions {
        None => Ok(()),
        Some(extensions) => push_below_title(alloc, lines, b"  extensions:\n", extensions),
    }
}

/// Pushes the algorithm of what is to be signed.
#[tactic(auto, unfolding(crate::specs::Blocks::algorithm_line))]
pub(crate) fn push_algorithm(
    alloc: Global,
    lines: &mut Vec<u8>,
    algorithm: &AlgorithmIdentifier,
) -> Result<(), AllocError>
    ensures { OnOk result (lines.new.items ≡ lines.old.items ++ algorithm_line algorithm.now) }
{
    push_line(alloc, lines, LINE, b"signature algorithm", algorithm)
}

/// Pushes a line: a key and an algorithm with its parameters.
#[tactic(auto, unfolding(crate::specs::Lines::line))]
fn push_full_line(
    alloc: Global,
    lines: &mut Vec<u8>,
    indent: &[u8],
    key: &[u8],
    algorithm: &AlgorithmIdentifier,
) -> Result<(), AllocError>
    ensures { OnOk result (lines.new.items ≡ lines.old.items ++ line indent.now key.now (full_algorithm_text algorithm.now)) }
{
    push_key(lines, indent, key)?;
    push_full_algorithm(alloc, lines, algorithm)?;
    lines.push(b'\n')?;
    Ok(())
}

/// Pushes the algorithm in what is signed, where it isn't the one of the signature (RFC 5280, 4.1.1.2).
#[tactic(auto, unfolding(crate::specs::Blocks::inner_algorithm))]
pub(crate) fn push_inner_algorithm(
    alloc: Global,
    lines: &mut Vec<u8>,
    inner: &AlgorithmIdentifier,
    outer: &AlgorithmIdentifier,
) -> Result<(), AllocError>
    ensures { OnOk result (lines.new.items ≡ lines.old.items ++ inner_algorithm inner.now outer.now) }
{
    if is_same_algorithm(inner, outer) {
        return Ok(());
    }
    push_full_line(alloc, lines, LINE, b"signed algorithm", inner)
}

/// Pushes the algorithm of a signature, and the signature.
#[tactic(auto, unfolding(crate::specs::Blocks::signature_lines))]
pub(crate) fn push_signature(
    alloc: Global,
    lines: &mut Vec<u8>,
    algorithm: &AlgorithmIdentifier,
    signature: &BitString,
) -> Result<(), AllocError>
    ensures { OnOk result (lines.new.items ≡ lines.old.items ++ signature_lines algorithm.now signature.now) }
{
    push_line(alloc, lines, LINE, b"signature algorithm", algorithm)?;
    push_line(alloc, lines, LINE, b"signature", signature)
}

/// Pushes the lines of the value whose DER encoding the octets are.
#[tactic(auto, unfolding(crate::specs::Blocks::read_lines, crate::specs::Blocks::lines_or_unreadable, crate::specs::Lines::line))]
pub(crate) fn push_read_lines<T: DerType + ShowLines + Drop>(
    alloc: Global,
    lines: &mut Vec<u8>,
    octets: &[u8],
) -> Result<(), AllocError>
    ensures { OnOk result (lines.new.items ≡ lines.old.items ++ read_lines T.codec T.written octets.now) }
{
    let Some(value) = der::value_of::<T>(alloc, octets)? else {
        return push_unread_octets(alloc, lines, octets);
    };
    value.push_lines(alloc, lines)?;
    Ok(())
}

/// Pushes how many octets of a block can't be read: under a wrong label they may be a secret.
#[tactic(auto, unfolding(crate::specs::Blocks::unread_octets))]
pub(crate) fn push_unread_octets(
    alloc: Global,
    lines: &mut Vec<u8>,
    octets: &[u8],
) -> Result<(), AllocError>
    ensures { OnOk result (lines.new.items ≡ lines.old.items ++ unread_octets octets.now) }
{
    let count = octets.len() as u64;
    push_line(alloc, lines, LINE, b"unreadable, octets", &count)
}

/// Pushes how many octets there are: those of a block of another kind may be a secret.
#[tactic(auto, unfolding(crate::specs::Blocks::not_explained))]
pub(crate) fn push_not_explained(
    alloc: Global,
    lines: &mut Vec<u8>,
    octets: &[u8],
) -> Result<(), AllocError>
    ensures { OnOk result (lines.new.items ≡ lines.old.items ++ not_explained octets.now) }
{
    let count = octets.len() as u64;
    push_line(alloc, lines, LINE, b"not explained, octets", &count)
}

/// Pushes octets that can't be read.
#[tactic(auto, unfolding(crate::specs::Blocks::unreadable_line, crate::specs::Lines::line))]
pub(crate) fn push_unreadable_line(
    alloc: Global,
    lines: &mut Vec<u8>,
    indent: &[u8],
    octets: &[u8],
) -> Result<(), AllocError>
    ensures { OnOk result (lines.new.items ≡ lines.old.items ++ unreadable_line indent.now octets.now) }
{
    push_key(lines, indent, b"unreadable")?;
    push_hex(alloc, lines, octets)?;
    lines.push(b'\n')?;
    Ok(())
}

/// Pushes the line of a part that can't be read.
#[tactic(auto, unfolding(crate::specs::PartTexts::unreadable_part, crate::specs::Lines::line))]
pub(crate) fn push_unreadable_part(
    alloc: Global,
    lines: &mut Vec<u8>,
    indent: &[u8],
    key: &[u8],
    part: &Part<'_>,
) -> Result<(), AllocError>
    ensures { OnOk result (lines.new.items ≡ lines.old.items ++ unreadable_part indent.now key.now part.now) }
{
    push_key(lines, indent, key)?;
    push_unreadable_at(alloc, lines, part)?;
    lines.push(b'\n')?;
    Ok(())
}
