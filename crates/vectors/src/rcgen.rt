//! Types of attributes, distinguished names, serial numbers and dates of rcgen, and texts of its errors.
use crate::octets::numbers_of;
use asn1_core::TryClone;
use case_octets::octets_of;
use rcgen_text::{DistinguishedName, DnType, DnValue, Error, SerialNumber, date_time_ymd};
use std::alloc::{AllocError, Global};

// A copy of the type of the arcs, and its arcs.
fn type_text(alloc: Global, words: &str) -> Result<String, AllocError> {
    let arcs = numbers_of(alloc, words)?;
    let Ok(kind) = DnType::from_oid(alloc, arcs.as_slice()) else {
        return Err(AllocError);
    };
    let copy = kind.try_clone(alloc)?;
    format!(in alloc; " {copy:?} {:?}", copy.oid())
}

// The type and the value of a word `ARC=TEXT`, the arc that of a type of X.520.
fn attribute(alloc: Global, word: &str) -> Option<(DnType, DnValue)> {
    let (arc, text) = word.split_once('=')?;
    let arc = arc.parse::<u64>().unwrap_or(0);
    let value = DnValue::from(String::from_str(alloc, text).ok()?);
    let kind = DnType::from_oid(alloc, &[2, 5, 4, arc]).ok()?;
    Some((kind, value))
}

// The attributes of the words.
fn attributes(alloc: Global, words: &str) -> Option<Vec<(DnType, DnValue)>> {
    let mut list = Vec::new(alloc);
    for word in words.split(' ') {
        list.push(attribute(alloc, word)?).ok()?;
    }
    Some(list)
}

// The name of them, put together one by one.
fn pushed(alloc: Global, words: &str) -> Option<DistinguishedName> {
    let mut name = DistinguishedName::new(alloc);
    for word in words.split(' ') {
        let (kind, value) = attribute(alloc, word)?;
        name.push(kind, value).ok()?;
    }
    Some(name)
}

// A copy of the name that is made of all, where that is equal.
fn name_of(alloc: Global, words: &str) -> Option<DistinguishedName> {
    let made = DistinguishedName::from_entries(alloc, attributes(alloc, words)?).ok()?;
    let name = pushed(alloc, words)?;
    if name == made {
        made.try_clone(alloc).ok()
    } else {
        None
    }
}

// Its attributes in order.
fn name_text(alloc: Global, words: &str) -> Result<String, AllocError> {
    match name_of(alloc, words) {
        Some(name) => format!(in alloc; " {:?}", name.entries()),
        None => " none".to_string(alloc),
    }
}

// What is left of the name, and what it has of each type, once the country and then a common name are taken out.
fn removed_text(alloc: Global, words: &str) -> Result<String, AllocError> {
    let Some(mut name) = pushed(alloc, words) else {
        return " none".to_string(alloc);
    };
    let first = name.remove(&DnType::CommonName);
    let second = name.remove(&DnType::CommonName);
    let country = name.get(&DnType::CountryName);
    let locality = name.get(&DnType::LocalityName);
    format!(in alloc;
        " {first} {second} {country:?} {locality:?} {}",
        name.iter().count()
    )
}

// The serial number in hex, how many octets it is, and whether a copy, one of its octets and one of a list of them are equal.
fn serial_text(alloc: Global, serial: &SerialNumber) -> Result<String, AllocError> {
    let copy = serial.try_clone(alloc)?;
    let Ok(octets) = copy.to_bytes(alloc) else {
        return Err(AllocError);
    };
    let Ok(again) = SerialNumber::from_slice(alloc, octets.as_slice()) else {
        return Err(AllocError);
    };
    let is_same = again == *serial && SerialNumber::from_vec(octets) == *serial;
    format!(in alloc; " {serial} of {}, {is_same}", serial.len())
}

fn number_text(alloc: Global, words: &str) -> Result<String, AllocError> {
    match SerialNumber::from_u64(alloc, words.parse::<u64>().unwrap_or(0)) {
        Ok(serial) => serial_text(alloc, &serial),
        Err(_) => Err(AllocError),
    }
}

fn octets_serial_text(alloc: Global, words: &str) -> Result<String, AllocError> {
    let octets = octets_of(alloc, words).unwrap_or(Vec::new(alloc));
    serial_text(alloc, &SerialNumber::from_vec(octets))
}

// Midnight of a date in UTC, or why there is none.
fn date_text(alloc: Global, words: &str) -> Result<String, AllocError> {
    let numbers = numbers_of(alloc, words)?;
    let [year, month, day] = numbers.as_slice() else {
        return " no date".to_string(alloc);
    };
    let year = i32::try_from(*year).unwrap_or(0);
    let month = u8::try_from(*month).unwrap_or(0);
    match date_time_ymd(year, month, u8::try_from(*day).unwrap_or(0)) {
        Ok(date) => format!(in alloc; " {} {}", date.local(), date.offset_seconds()),
        Err(error) => format!(in alloc; " {error}"),
    }
}

// The text of an error that no other program's rows make.
fn error_text(alloc: Global, name: &str) -> Result<String, AllocError> {
    if name == "OutOfMemory" {
        return format!(in alloc; " {}", Error::OutOfMemory);
    }
    format!(in alloc; " {}", Error::EmptyCrlDistributionPointUris)
}

/// What there is to say of a line `rcgen.NAME WORDS`.
pub fn answer_to(alloc: Global, name: &str, words: &str) -> Result<String, AllocError> {
    if name == "type" {
        return type_text(alloc, words);
    }
    if name == "name" {
        return name_text(alloc, words);
    }
    if name == "removed" {
        return removed_text(alloc, words);
    }
    if name == "serial" {
        return number_text(alloc, words);
    }
    if name == "serial_octets" {
        return octets_serial_text(alloc, words);
    }
    if name == "date" {
        return date_text(alloc, words);
    }
    error_text(alloc, words)
}
