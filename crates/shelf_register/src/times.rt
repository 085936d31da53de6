//! Times as words and as seconds since 1970.
use crate::halt::{Halt, bad_input_with, refused};
use crate::told::shown;
use jiff::Timestamp;
use std::alloc::{AllocError, Global};
use toml_format::{FromText, UtcInstant};

/// Seconds since 1970 of a time that a word says.
fn time_named(alloc: Global, text: &str) -> Result<Option<i64>, AllocError> {
    match UtcInstant::from_text(alloc, text)? {
        Some(instant) => Ok(Some(instant.civil().to_plain().to_second())),
        None => Ok(None),
    }
}

/// The time that the value of an option says.
pub(crate) fn time_in(alloc: Global, option: &str, text: &str) -> Result<i64, Halt> {
    match time_named(alloc, text)? {
        Some(time) => Ok(time),
        None => {
            let word = shown(text);
            Err(bad_input_with(format!(in alloc;
                "{option}: {word} is not a time such as 2026-01-31T12:00:00Z\n"
            )))
        }
    }
}

/// The time of an option, or another where it isn't given.
pub(crate) fn time_or(
    alloc: Global,
    option: &str,
    text: Option<&str>,
    other: i64,
) -> Result<i64, Halt> {
    match text {
        Some(text) => time_in(alloc, option, text),
        None => Ok(other),
    }
}

/// Whether the year of so many seconds since 1970 is one from 0 to 9999.
fn has_year(seconds: i64) -> bool {
    -62_167_219_200 <= seconds && seconds <= 253_402_300_799
}

/// A time as a text (RFC 3339).
pub(crate) fn time_text(alloc: Global, seconds: i64) -> Result<String, Halt> {
    if !has_year(seconds) {
        return Err(refused(alloc, "a time is not in the years 0 to 9999\n"));
    }
    match Timestamp::from_second(seconds) {
        Ok(at) => Ok(format!(in alloc; "{at}")?),
        Err(_) => Err(refused(alloc, "a time is not in the years 0 to 9999\n")),
    }
}

/// The time less five minutes, to the minute: when a certificate begins that says nothing of it.
pub(crate) fn start_at(now: i64) -> i64 {
    let before = now.saturating_sub(300);
    before.saturating_sub(before.rem_euclid(60))
}

/// The time so many seconds later.
pub(crate) fn later(time: i64, seconds: i64) -> i64 {
    time.saturating_add(seconds)
}
