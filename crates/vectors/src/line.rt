//! Lines: a type, by its crate and its name, and bytes in hex; or a kind of question, its name and words.
use crate::reading::Reading;
use crate::{
    alg, attr, base, bounded, cert, constructed, contents, elements, emptied, lists, made, name,
    partial, rcgen, registered, strings, texts, times, trust, x400, x400_ext,
};
use case_octets::octets_of;
use std::alloc::{AllocError, Global};

fn read(alloc: Global, place: &str, name: &str, form: &[u8]) -> Reading {
    if place == "base" {
        return base::read(alloc, name, form);
    }
    if place == "x400" {
        return x400::read(alloc, name, form);
    }
    if place == "x400_ext" {
        return x400_ext::read(alloc, name, form);
    }
    if place == "name" {
        return name::read(alloc, name, form);
    }
    if place == "cert" {
        return cert::read(alloc, name, form);
    }
    if place == "trust" {
        return trust::read(alloc, name, form);
    }
    if place == "attr" {
        return attr::read(alloc, name, form);
    }
    if place == "alg" {
        return alg::read(alloc, name, form);
    }
    write(alloc, place, name, form)
}

// The same of values that are made otherwise than by reading the bytes.
fn write(alloc: Global, place: &str, name: &str, form: &[u8]) -> Reading {
    if place == "made" {
        return made::write(alloc, name, form);
    }
    if place == "bounded" {
        return bounded::write(alloc, name, form);
    }
    if place == "constructed" {
        return constructed::write(alloc, name, form);
    }
    if place == "partial" {
        return partial::write(alloc, name, form);
    }
    if place == "emptied" {
        return emptied::write(alloc, name, form);
    }
    Reading::NoType
}

/// What the line's type has to do with its bytes, or none where it is no such line.
pub fn reading_of(alloc: Global, line: &str) -> Option<Reading> {
    let (kind, words) = line.split_once(' ')?;
    let (place, name) = kind.split_once('.')?;
    let form = octets_of(alloc, words)?;
    Some(read(alloc, place, name, form.as_slice()))
}

// What there is to say of base types, elements and types of PKIX.
fn answer(alloc: Global, place: &str, name: &str, words: &str) -> Result<String, AllocError> {
    if place == "contents" {
        return contents::answer_to(alloc, name, words);
    }
    if place == "text" {
        return texts::answer_to(alloc, name, words);
    }
    if place == "element" {
        return elements::answer_to(alloc, name, words);
    }
    if place == "list" {
        return lists::answer_to(alloc, name, words);
    }
    if place == "time" {
        return times::answer_to(alloc, name, words);
    }
    if place == "shown" {
        return constructed::answer_to(alloc, name, words);
    }
    if place == "registered" {
        return registered::answer_to(alloc, name, words);
    }
    answer_to_rcgen(alloc, place, name, words)
}

// The same of what rcgen's callers hand in.
fn answer_to_rcgen(
    alloc: Global,
    place: &str,
    name: &str,
    words: &str,
) -> Result<String, AllocError> {
    if place == "string" || place == "printed" {
        return strings::answer_to_text(alloc, place, name, words);
    }
    if place == "units" {
        return strings::answer_to_units(alloc, name, words);
    }
    if place == "address" {
        return strings::answer_to_address(alloc, name, words);
    }
    if place == "rcgen" {
        return rcgen::answer_to(alloc, name, words);
    }
    Ok(String::new(alloc))
}

/// What there is to say of a line `PLACE.NAME WORDS`; nothing of any other line.
pub fn answer_of(alloc: Global, line: &str) -> Result<String, AllocError> {
    let Some((kind, words)) = line.split_once(' ') else {
        return Ok(String::new(alloc));
    };
    match kind.split_once('.') {
        Some((place, name)) => answer(alloc, place, name, words),
        None => Ok(String::new(alloc)),
    }
}
