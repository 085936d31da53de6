//! Bits that have names.
ghost use Rattle.std.specs.Prelude.{◌≡◌, ◌++◌, [], IfOk, OnOk};
ghost use Rattle.shelf_explain.specs.BitNames.{all_names, bit_name, bits_text, key_usage_names, names_in, names_text, numbered_bits, or_none, reason_names, unused_text, with_name, with_octets};

use crate::line::push_labelled;
use crate::show::{ShowText, push_hex};
use asn1_core::BitString;
use std::alloc::{AllocError, Global};

/// The names of the bits of a key usage, from bit 0 on (RFC 5280, 4.2.1.3).
const KEY_USAGES: [&[u8]; 9] = [
    b"digital signature",
    b"content commitment",
    b"key encipherment",
    b"data encipherment",
    b"key agreement",
    b"certificate signing",
    b"CRL signing",
    b"encipher only",
    b"decipher only",
];

/// The names of the bits of reasons, from bit 0 on (RFC 5280, 4.2.1.13).
const REASONS: [&[u8]; 9] = [
    b"unused",
    b"key compromise",
    b"CA compromise",
    b"affiliation changed",
    b"superseded",
    b"cessation of operation",
    b"certificate hold",
    b"privilege withdrawn",
    b"AA compromise",
];

/// The bits of the first four octets by their numbers.
const NUMBERED: [&[u8]; 32] = [
    b"bit 0", b"bit 1", b"bit 2", b"bit 3", b"bit 4", b"bit 5", b"bit 6", b"bit 7", b"bit 8",
    b"bit 9", b"bit 10", b"bit 11", b"bit 12", b"bit 13", b"bit 14", b"bit 15", b"bit 16",
    b"bit 17", b"bit 18", b"bit 19", b"bit 20", b"bit 21", b"bit 22", b"bit 23", b"bit 24",
    b"bit 25", b"bit 26", b"bit 27", b"bit 28", b"bit 29", b"bit 30", b"bit 31",
];

/// Adds the name where the bit is set.
#[tactic(auto, unfolding(crate::specs::BitNames::with_name))]
fn add_name(names: &mut Vec<u8>, is_set: bool, name: &[u8]) -> Result<(), AllocError>
    ensures { OnOk result (names.new.items ≡ with_name names.old.items is_set name.now) }
{
    if !is_set {
        return Ok(());
    }
    if !names.is_empty() {
        names.extend_from_slice(b", ")?;
    }
    names.extend_from_slice(name)
}

/// Adds the name of a bit that is set, or else its number.
#[tactic(auto, using(crate::proofs::Naming::naming), unfolding(crate::specs::BitNames::bit_name))]
fn add_bit(
    names: &mut Vec<u8>,
    is_set: bool,
    table: &[&[u8]],
    i: usize,
    number: &[u8],
) -> Result<(), AllocError>
    ensures { OnOk result (names.new.items ≡ with_name names.old.items is_set (bit_name (names_in table.now) i number.now)) }
{
    match table.get(i) {
        Some(name) => add_name(names, is_set, name),
        None => add_name(names, is_set, number),
    }
}

/// The names of the bits that are set, or else their numbers.
#[tactic(auto, unfolding(crate::specs::BitNames::all_names))]
fn names_of(
    alloc: Global,
    bits: &BitString,
    table: &[&[u8]],
    numbers: &[&[u8]],
) -> Result<Vec<u8>, AllocError>
    ensures { IfOk result (λ names. names.items ≡ all_names bits.now (names_in table.now) (names_in numbers.now) 0 []) }
{
    let mut names = Vec::new(alloc);
    for (i, number) in numbers.iter().enumerate() {
        add_bit(&mut names, bits.bit(i), table, i, number)?;
    }
    Ok(names)
}

/// The names of the bits that are set, or else their numbers, of the first four octets.
#[tactic(auto, unfolding(crate::specs::BitNames::numbered_bits))]
fn names_or_numbers(alloc: Global, bits: &BitString, table: &[&[u8]]) -> Result<Vec<u8>, AllocError>
    ensures { IfOk result (λ names. names.items ≡ all_names bits.now (names_in table.now) numbered_bits 0 []) }
{
    names_of(alloc, bits, table, &NUMBERED)
}

/// Adds the octets, where there are more bits than the 32 that have a name or a number.
#[tactic(auto, unfolding(crate::specs::BitNames::with_octets))]
fn add_octets(alloc: Global, names: &mut Vec<u8>, octets: &[u8]) -> Result<(), AllocError>
    ensures { OnOk result (names.new.items ≡ with_octets names.old.items octets.now) }
{
    if octets.len() <= 4 {
        return Ok(());
    }
    let mut text = Vec::new(alloc);
    text.extend_from_slice(b"octets ")?;
    push_hex(alloc, &mut text, octets)?;
    add_name(names, true, text.as_slice())
}

#[tactic(auto, unfolding(crate::specs::BitNames::or_none))]
fn push_or_none(lines: &mut Vec<u8>, names: &[u8]) -> Result<(), AllocError>
    ensures { OnOk result (lines.new.items ≡ lines.old.items ++ or_none names.now) }
{
    match names {
        [] => lines.extend_from_slice(b"none"),
        names => lines.extend_from_slice(names),
    }
}

/// Pushes the names of the bits that are set.
#[tactic(auto, unfolding(crate::specs::BitNames::names_text))]
fn push_names(
    alloc: Global,
    lines: &mut Vec<u8>,
    bits: &BitString,
    table: &[&[u8]],
) -> Result<(), AllocError>
    ensures { OnOk result (lines.new.items ≡ lines.old.items ++ names_text (names_in table.now) bits.now) }
{
    let mut names = names_or_numbers(alloc, bits, table)?;
    add_octets(alloc, &mut names, bits.bytes())?;
    push_or_none(lines, names.as_slice())?;
    Ok(())
}

/// Pushes what a key is for.
#[tactic(auto, unfolding(crate::specs::BitNames::key_usage_names))]
pub(crate) fn push_key_usage(
    alloc: Global,
    lines: &mut Vec<u8>,
    bits: &BitString,
) -> Result<(), AllocError>
    ensures { OnOk result (lines.new.items ≡ lines.old.items ++ names_text key_usage_names bits.now) }
{
    push_names(alloc, lines, bits, &KEY_USAGES)
}

/// Pushes reasons.
#[tactic(auto, unfolding(crate::specs::BitNames::reason_names))]
pub(crate) fn push_reasons(
    alloc: Global,
    lines: &mut Vec<u8>,
    bits: &BitString,
) -> Result<(), AllocError>
    ensures { OnOk result (lines.new.items ≡ lines.old.items ++ names_text reason_names bits.now) }
{
    push_names(alloc, lines, bits, &REASONS)
}

/// Pushes how many bits of the last octet are unused.
#[tactic(auto, unfolding(crate::specs::BitNames::unused_text))]
fn push_unused(alloc: Global, lines: &mut Vec<u8>, unused: u8) -> Result<(), AllocError>
    ensures { OnOk result (lines.new.items ≡ lines.old.items ++ unused_text unused) }
{
    if unused == 0 {
        Ok(())
    } else {
        push_labelled(alloc, lines, b", unused bits ", &unused)
    }
}

impl ShowText for BitString {
    ghost text = { bits_text };

    #[tactic(auto, unfolding(crate::specs::BitNames::bits_text))]
    fn push_onto(&self, alloc: Global, lines: &mut Vec<u8>) -> Result<(), AllocError> {
        push_hex(alloc, lines, self.bytes())?;
        push_unused(alloc, lines, self.unused())
    }
}
