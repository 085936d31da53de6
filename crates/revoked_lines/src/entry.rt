//! The entry of a line, of which each word is read as in an order.
ghost use Rattle.std.specs.Prelude.{◌≡◌, IfOk};
ghost use Rattle.std.specs.Option.{option_map};
ghost use Rattle.shelf_fault.specs.Faults.{Gets};
ghost use Rattle.revoked_lines.specs.Lines.{entry_of, entry_reason, invalid_in, is_comment, line_entry, reason_in, serial_in, time_in, if_allowed, words_view};

use crate::words::{Words, words_of};
use rcgen_text::RevocationReason;
use shelf_fault::{Fault, LineFault};
use shelf_profile::{SerialOctets, is_reason};
use std::alloc::{AllocError, Global};
use toml_format::{FromText, HexBytes, Revoked, Timestamp};

#[tactic(auto, unfolding(crate::specs::Lines::serial_in))]
fn serial_in(alloc: Global, number: usize, word: &str) -> Result<HexBytes, Fault>
    ensures { Gets (λ s. s) (serial_in number word.now) result }
{
    match SerialOctets::from_text(alloc, word)? {
        Some(serial) => Ok(serial.into_hex()),
        None => Err(Fault::RevokedLine(number, LineFault::Serial)),
    }
}

#[tactic(auto, unfolding(crate::specs::Lines::time_in))]
fn time_in(alloc: Global, number: usize, word: &str) -> Result<Timestamp, Fault>
    ensures { Gets (λ t. t) (time_in number word.now) result }
{
    match Timestamp::from_text(alloc, word)? {
        Some(time) => Ok(time),
        None => Err(Fault::RevokedLine(number, LineFault::Time)),
    }
}

/// The reason, unless it takes a certificate off a list that is no delta list (RFC 5280, 5.3.1).
fn if_allowed(is_delta: bool, reason: RevocationReason) -> Option<RevocationReason>
    ensures { result ≡ if_allowed is_delta reason }
{
    if is_reason(is_delta, Some(reason)) {
        Some(reason)
    } else {
        None
    }
}

/// The reason that an entry may have.
#[tactic(auto, unfolding(crate::specs::Lines::entry_reason))]
fn entry_reason(
    alloc: Global,
    is_delta: bool,
    word: &str,
) -> Result<Option<RevocationReason>, AllocError>
    ensures { IfOk result (λ reason. reason ≡ entry_reason is_delta word.now) }
{
    match RevocationReason::from_text(alloc, word)? {
        Some(reason) => Ok(if_allowed(is_delta, reason)),
        None => Ok(None),
    }
}

#[tactic(auto, unfolding(crate::specs::Lines::reason_in))]
fn reason_in(
    alloc: Global,
    is_delta: bool,
    number: usize,
    word: Option<&str>,
) -> Result<Option<RevocationReason>, Fault>
    ensures { Gets (λ r. r) (reason_in is_delta number (option_map (λ w. w.now) word.entry)) result }
{
    let Some(word) = word else {
        return Ok(None);
    };
    if word == "-" {
        return Ok(None);
    }
    match entry_reason(alloc, is_delta, word)? {
        Some(reason) => Ok(Some(reason)),
        None => Err(Fault::RevokedLine(number, LineFault::Reason)),
    }
}

#[tactic(auto, unfolding(crate::specs::Lines::invalid_in))]
fn invalid_in(alloc: Global, number: usize, word: Option<&str>) -> Result<Option<Timestamp>, Fault>
    ensures { Gets (λ t. t) (invalid_in number (option_map (λ w. w.now) word.entry)) result }
{
    let Some(word) = word else {
        return Ok(None);
    };
    match Timestamp::from_text(alloc, word)? {
        Some(time) => Ok(Some(time)),
        None => Err(Fault::RevokedLine(number, LineFault::Invalid)),
    }
}

#[tactic(auto, unfolding(crate::specs::Lines::entry_of))]
fn entry_of(
    alloc: Global,
    is_delta: bool,
    number: usize,
    words: Words<'_>,
) -> Result<Revoked, Fault>
    ensures { Gets (λ e. e) (entry_of is_delta number (words_view words.entry)) result }
{
    let serial = serial_in(alloc, number, words.serial)?;
    let time = time_in(alloc, number, words.time)?;
    let reason = reason_in(alloc, is_delta, number, words.reason)?;
    let invalid = invalid_in(alloc, number, words.invalid)?;
    Ok(Revoked {
        serial,
        time,
        reason,
        invalid,
    })
}

/// Whether a line is empty or a comment.
fn is_comment(line: &str) -> bool
    ensures { result ≡ is_comment line.now }
{
    match line.as_bytes() {
        [] => true,
        [first, ..] => *first == b'#',
    }
}

/// The entry of the line of this number, from 1, in a delta list or in a complete one; none where it is empty or a comment.
#[tactic(auto, unfolding(crate::specs::Lines::line_entry))]
pub(crate) fn line_entry(
    alloc: Global,
    is_delta: bool,
    number: usize,
    line: &str,
) -> Result<Option<Revoked>, Fault>
    ensures { Gets (λ e. e) (line_entry is_delta number line.now) result }
{
    if is_comment(line) {
        return Ok(None);
    }
    let Some(words) = words_of(line) else {
        return Err(Fault::RevokedLine(number, LineFault::Words));
    };
    let entry = entry_of(alloc, is_delta, number, words)?;
    Ok(Some(entry))
}
