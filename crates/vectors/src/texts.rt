//! Texts of the restricted character string types (X.680, 41), by their contents octets.
use asn1_core::{
    BmpString, CharacterString, GeneralString, GraphicString, Ia5String, NumericString,
    PrintableString, StringType, TeletexString, TextFault, TryClone, UniversalString, Utf8String,
    VisibleString,
};
use case_octets::octets_of;
use std::alloc::{AllocError, Global};

// What became of octets: how many characters a copy of their text has, or their fault.
fn told<S: StringType>(
    alloc: Global,
    made: Result<CharacterString<S>, TextFault>,
) -> Result<usize, TextFault> {
    match made?.try_clone(alloc) {
        Ok(copy) => Ok(copy.char_count()),
        Err(_) => Err(TextFault::OutOfMemory),
    }
}

fn told_of(alloc: Global, name: &str, octets: &[u8]) -> Result<usize, TextFault> {
    if name == "numeric" {
        return told(alloc, NumericString::new(alloc, octets));
    }
    if name == "printable" {
        return told(alloc, PrintableString::new(alloc, octets));
    }
    if name == "ia5" {
        return told(alloc, Ia5String::new(alloc, octets));
    }
    if name == "visible" {
        return told(alloc, VisibleString::new(alloc, octets));
    }
    if name == "teletex" {
        return told(alloc, TeletexString::new(alloc, octets));
    }
    told_of_others(alloc, name, octets)
}

fn told_of_others(alloc: Global, name: &str, octets: &[u8]) -> Result<usize, TextFault> {
    if name == "graphic" {
        return told(alloc, GraphicString::new(alloc, octets));
    }
    if name == "general" {
        return told(alloc, GeneralString::new(alloc, octets));
    }
    if name == "bmp" {
        return told(alloc, BmpString::new(alloc, octets));
    }
    if name == "universal" {
        return told(alloc, UniversalString::new(alloc, octets));
    }
    told(alloc, Utf8String::new(alloc, octets))
}

/// What there is to say of a line `text.NAME OCTETS`.
pub fn answer_to(alloc: Global, name: &str, words: &str) -> Result<String, AllocError> {
    let octets = octets_of(alloc, words).unwrap_or(Vec::new(alloc));
    match told_of(alloc, name, &octets) {
        Ok(count) => format!(in alloc; " {count}"),
        Err(TextFault::BadCharacter { at }) => format!(in alloc; " {at} BadCharacter"),
        Err(fault) => format!(in alloc; " {fault}"),
    }
}
