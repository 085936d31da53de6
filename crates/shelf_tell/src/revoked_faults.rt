//! What is wrong with the file of `--revoked`, with the number of the line.
use crate::lines::line;
use crate::named::Named;
use crate::value_kind::{Single, misfit_word};
use shelf_fault::LineFault;
use std::alloc::{AllocError, Global};
use std::str;

/// What a line is.
const LINE: &str = "a line is SERIAL TIME [REASON [INVALID]], with single spaces; - is no reason";

/// What a time is.
const TIME: &str = "a time such as 2026-01-31T12:00:00Z";

/// The text of a file, as far as it is one.
fn text_of(octets: &[u8]) -> &str {
    str::from_utf8(octets).unwrap_or("")
}

/// The word at a place, from 0, on the line of this number, from 1.
fn word_at(octets: &[u8], number: usize, place: usize) -> &str {
    let text = text_of(octets);
    let line = text.lines().nth(number.saturating_sub(1)).unwrap_or("");
    line.split(' ').nth(place).unwrap_or("")
}

/// What is wrong with the word at a place, from 0, on a line, and what would be right.
fn word_text(
    alloc: Global,
    word: &str,
    name: &str,
    single: Single,
    wanted: &str,
) -> Result<String, AllocError> {
    if word.is_empty() {
        return String::from_str(alloc, LINE);
    }
    let what = misfit_word(alloc, single, word, wanted)?;
    format!(in alloc; "{name}: {what}")
}

fn reason_text(alloc: Global, word: &str, is_delta: bool) -> Result<String, AllocError> {
    let single = if is_delta {
        Single::DeltaReason
    } else {
        Single::Reason
    };
    let reasons = format!(in alloc; "- or {}", single.description())?;
    word_text(alloc, word, "reason", single, reasons.as_str())
}

/// What is wrong with a line of a delta list or of a complete one, after its number.
fn line_text(
    alloc: Global,
    octets: &[u8],
    number: usize,
    fault: LineFault,
    is_delta: bool,
) -> Result<String, AllocError> {
    match fault {
        LineFault::Words => String::from_str(alloc, LINE),
        LineFault::Serial => {
            let word = word_at(octets, number, 0);
            let wanted = Single::Serial.description();
            word_text(alloc, word, "serial", Single::Serial, wanted)
        }
        LineFault::Time => {
            let word = word_at(octets, number, 1);
            word_text(alloc, word, "time", Single::Time, TIME)
        }
        LineFault::Reason => reason_text(alloc, word_at(octets, number, 2), is_delta),
        LineFault::Invalid => {
            let word = word_at(octets, number, 3);
            word_text(alloc, word, "invalid", Single::Time, TIME)
        }
    }
}

/// That a line isn't an entry of a delta list, or of a complete one.
pub(crate) fn line_complaint(
    alloc: Global,
    file: Named<'_>,
    number: usize,
    fault: LineFault,
    is_delta: bool,
) -> Result<Vec<u8>, AllocError> {
    let place = format!(in alloc; "line {number}")?;
    let what = line_text(alloc, file.octets, number, fault, is_delta)?;
    line(alloc, file.name, place.as_str(), what.as_str())
}

/// That the file isn't UTF-8.
pub(crate) fn text_complaint(alloc: Global, file: Named<'_>) -> Result<Vec<u8>, AllocError> {
    let valid = match str::from_utf8(file.octets) {
        Ok(text) => text.len(),
        Err(error) => error.valid_up_to(),
    };
    let before = file.octets.iter().take(valid);
    let number = before
        .filter(|octet| **octet == b'\n')
        .count()
        .saturating_add(1);
    let place = format!(in alloc; "line {number}")?;
    line(alloc, file.name, place.as_str(), "not UTF-8")
}
