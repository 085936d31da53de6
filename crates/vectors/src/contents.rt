//! Identifiers, numbers, bits and times, by their contents octets, arcs, digits and texts (X.690, 8 and 11).
use crate::octets::{numbers_of, octets_text};
use asn1_core::{
    BitString, GeneralizedTime, Integer, ObjectIdentifier, OffsetDateTime, Oid, TryClone, UtcTime,
    u64_from_contents, u64_to_contents,
};
use case_octets::octets_of;
use jiff::civil::DateTime;
use std::alloc::{AllocError, Global};

// The arcs of the identifier that the text is of, or why it is of none.
fn arcs_text(alloc: Global, text: &str) -> Result<String, AllocError> {
    match Oid::parse(alloc, text) {
        Ok(id) => format!(in alloc; " {:?}", id.arcs()),
        Err(fault) => format!(in alloc; " {fault}"),
    }
}

// Whether the identifier is read of these contents octets.
fn is_read(alloc: Global, id: &ObjectIdentifier, contents: &[u8]) -> bool {
    match ObjectIdentifier::from_contents(alloc, contents) {
        Ok(Some(read)) => read == *id,
        _ => false,
    }
}

// Whether it is made of its arcs.
fn is_made(alloc: Global, id: &ObjectIdentifier) -> bool {
    match ObjectIdentifier::new(alloc, id.arcs()) {
        Ok(made) => made == *id,
        Err(_) => false,
    }
}

// Its contents octets, or that it isn't the same one anew.
fn identifier_contents(alloc: Global, id: &ObjectIdentifier) -> Result<String, AllocError> {
    let copy = id.try_clone(alloc)?;
    match copy.to_contents(alloc) {
        Ok(contents) if is_read(alloc, id, &contents) && is_made(alloc, id) => octets_text(
            alloc, &contents,
        ),
        _ => " another".to_string(alloc),
    }
}

// Those of the identifier of these arcs, or why there is none.
fn identifier_text(alloc: Global, words: &str) -> Result<String, AllocError> {
    let arcs = numbers_of(alloc, words)?;
    match ObjectIdentifier::from_u64(alloc, arcs.as_slice()) {
        Ok(id) => identifier_contents(alloc, &id),
        Err(fault) => format!(in alloc; " {fault}"),
    }
}

// Whether the number is read of these contents octets.
fn is_number(alloc: Global, number: u64, contents: &[u8]) -> bool {
    match Integer::from_contents(alloc, contents) {
        Ok(Some(read)) => read.to_u64() == Some(number),
        _ => false,
    }
}

// Whether they are the octets of a copy of the number.
fn are_octets(alloc: Global, number: u64, contents: &[u8]) -> bool {
    match Integer::from_u64(alloc, number) {
        Ok(made) => made
            .try_clone(alloc)
            .is_ok_and(|copy| copy.as_bytes() == contents),
        Err(_) => false,
    }
}

// The number's contents octets, or that it isn't the same one anew.
fn integer_text(alloc: Global, word: &str) -> Result<String, AllocError> {
    let number = word.parse::<u64>().unwrap_or(0);
    match u64_to_contents(alloc, number) {
        Ok(contents)
            if is_number(alloc, number, &contents)
                && are_octets(alloc, number, &contents)
                && u64_from_contents(&contents) == Some(number) => octets_text(alloc, &contents),
        _ => " another".to_string(alloc),
    }
}

// The shortest octets of a number, and the number where it is from 0 to 2^64 - 1.
fn number_text(alloc: Global, integer: &Integer) -> Result<String, AllocError> {
    let digits = hex::encode(alloc, integer.as_bytes())?;
    match integer.to_u64() {
        Some(number) => format!(in alloc; " {digits} {number}"),
        None => format!(in alloc; " {digits}"),
    }
}

// Of octets in two's complement, or without a sign.
fn shortest_text(alloc: Global, name: &str, words: &str) -> Result<String, AllocError> {
    let octets = octets_of(alloc, words).unwrap_or(Vec::new(alloc));
    let made = if name == "signed" {
        Integer::from_twos(alloc, octets.as_slice())
    } else {
        Integer::from_unsigned(alloc, octets.as_slice())
    };
    match made {
        Ok(integer) => number_text(alloc, &integer),
        Err(_) => " none".to_string(alloc),
    }
}

// Whether a copy of the string has these contents octets.
fn are_contents(alloc: Global, bits: &BitString, contents: &[u8]) -> bool {
    match bits.try_clone(alloc) {
        Ok(copy) => copy
            .to_contents(alloc)
            .is_ok_and(|again| again.as_slice() == contents),
        Err(_) => false,
    }
}

// The string of the octets, where it is the one of the contents octets too.
fn bits_of(alloc: Global, contents: &[u8]) -> Option<BitString> {
    let read = BitString::from_contents(alloc, contents).ok()??;
    let made = BitString::new(read.bytes().to_vec(alloc).ok()?, read.unused())?;
    if are_contents(alloc, &made, contents) {
        Some(made)
    } else {
        None
    }
}

// Bits 3, 4, 43 and 44 of that string.
fn bits_text(alloc: Global, words: &str) -> Result<String, AllocError> {
    let contents = octets_of(alloc, words).unwrap_or(Vec::new(alloc));
    match bits_of(alloc, contents.as_slice()) {
        Some(bits) => format!(in alloc;
            " {} {} {} {}",
            bits.bit(3),
            bits.bit(4),
            bits.bit(43),
            bits.bit(44)
        ),
        None => " none".to_string(alloc),
    }
}

fn moment_text(alloc: Global, at: Option<DateTime>) -> Result<String, AllocError> {
    match at {
        Some(at) => format!(in alloc; " {at}"),
        None => " none".to_string(alloc),
    }
}

// The time that the text is the contents octets of, where they are written again.
fn utc_time(alloc: Global, contents: &[u8]) -> Option<DateTime> {
    let time = UtcTime::from_contents(contents)?;
    match time.to_contents(alloc) {
        Ok(Some(again)) if again.as_slice() == contents => Some(time.at),
        _ => None,
    }
}

fn generalized_time(alloc: Global, contents: &[u8]) -> Option<DateTime> {
    let time = GeneralizedTime::from_contents(contents)?;
    match time.to_contents(alloc) {
        Ok(Some(again)) if again.as_slice() == contents => Some(time.at),
        _ => None,
    }
}

// The time in UTC of a civil time, and of how many seconds its clock is ahead.
fn utc(words: &str) -> Option<DateTime> {
    let (local, offset) = words.split_once(' ')?;
    match (local.parse::<DateTime>(), offset.parse::<i32>()) {
        (Ok(local), Ok(offset)) => OffsetDateTime::new(local, offset)?.utc(),
        _ => None,
    }
}

// The first moment of a date in UTC.
fn date(words: &str) -> Option<OffsetDateTime> {
    let (year, rest) = words.split_once('-')?;
    let (month, day) = rest.split_once('-')?;
    match (year.parse::<i32>(), month.parse::<u8>(), day.parse::<u8>()) {
        (Ok(year), Ok(month), Ok(day)) => OffsetDateTime::ymd(year, month, day),
        _ => None,
    }
}

fn date_text(alloc: Global, words: &str) -> Result<String, AllocError> {
    match date(words) {
        Some(date) => format!(in alloc; " {} {}", date.local(), date.offset_seconds()),
        None => " none".to_string(alloc),
    }
}

/// What there is to say of a line `contents.NAME WORDS`.
pub fn answer_to(alloc: Global, name: &str, words: &str) -> Result<String, AllocError> {
    if name == "arcs" {
        return arcs_text(alloc, words);
    }
    if name == "identifier" {
        return identifier_text(alloc, words);
    }
    if name == "integer" {
        return integer_text(alloc, words);
    }
    if name == "bits" {
        return bits_text(alloc, words);
    }
    if name == "signed" || name == "unsigned" {
        return shortest_text(alloc, name, words);
    }
    time_text(alloc, name, words)
}

fn time_text(alloc: Global, name: &str, words: &str) -> Result<String, AllocError> {
    if name == "utc_time" {
        return moment_text(alloc, utc_time(alloc, words.as_bytes()));
    }
    if name == "generalized_time" {
        return moment_text(alloc, generalized_time(alloc, words.as_bytes()));
    }
    if name == "utc" {
        return moment_text(alloc, utc(words));
    }
    date_text(alloc, words)
}
