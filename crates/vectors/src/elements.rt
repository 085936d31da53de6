//! Elements of the input, their fields, and the octets of elements (X.690, 8.1).
use crate::octets::octets_text;
use asn1_core::{Class, Tag};
use case_octets::octets_of;
use der_tree::{
    Bytes, DecodeError, Fields, Tree, Window, defaulted, end, explicit, implicit, optional,
    read_window, required, tree_octets,
};
use std::alloc::{AllocError, Global};

// The element's number, what it is as a whole, and its contents.
fn parts_text(alloc: Global, window: Window<'_>) -> Result<String, AllocError> {
    let whole = hex::encode(alloc, window.whole())?;
    let contents = hex::encode(alloc, window.content())?;
    let number = window.tag().number;
    format!(in alloc; " {number} {whole} {contents} {}", window.is_constructed())
}

// The first two elements within it, where there are no others and none within these.
fn two_within<'a>(window: Window<'a>) -> Option<(Window<'a>, Window<'a>)> {
    let mut children = window.children()?;
    let first = children.next()?;
    let second = children.next()?;
    if children.next().is_none() && first.fields().is_none() && second.fields().is_none() {
        Some((first, second))
    } else {
        None
    }
}

fn within_text(alloc: Global, window: Window<'_>) -> Result<String, AllocError> {
    let Some((first, second)) = two_within(window) else {
        return " others".to_string(alloc);
    };
    let first = hex::encode(alloc, first.whole())?;
    let second = hex::encode(alloc, second.whole())?;
    format!(in alloc; " {first} {second}")
}

// What is read of a field, or of none.
fn word_of(read: Result<Option<bool>, DecodeError>) -> &'static str {
    match read {
        Ok(Some(true)) => " true",
        Ok(Some(false)) => " false",
        Ok(None) => " absent",
        Err(_) => " refused",
    }
}

fn required_word(read: Result<bool, DecodeError>) -> &'static str {
    match read {
        Ok(true) => " true",
        Ok(false) => " false",
        Err(_) => " refused",
    }
}

// What one step reads of the fields.
fn step_word(alloc: Global, step: &str, fields: &mut Fields<'_>) -> &'static str {
    if step == "explicit" {
        return word_of(explicit(alloc, fields, Tag::CONTEXT_0));
    }
    if step == "implicit" {
        return word_of(implicit(alloc, fields, Tag::CONTEXT_0));
    }
    if step == "optional" {
        return word_of(optional(alloc, fields));
    }
    if step == "defaulted" {
        return required_word(defaulted(alloc, fields, false));
    }
    if step == "required" {
        return required_word(required(alloc, fields));
    }
    match end(fields) {
        Ok(()) => " end",
        Err(_) => " no end",
    }
}

// What three steps read one after the other of the fields of the element.
fn steps_text(alloc: Global, steps: &str, window: Window<'_>) -> Result<String, AllocError> {
    let Some(mut fields) = window.fields() else {
        return " no fields".to_string(alloc);
    };
    let (first, rest) = steps.split_once(',').unwrap_or((steps, "end"));
    let (second, third) = rest.split_once(',').unwrap_or((rest, "end"));
    let first = step_word(alloc, first, &mut fields);
    let second = step_word(alloc, second, &mut fields);
    let third = step_word(alloc, third, &mut fields);
    format!(in alloc; "{first}{second}{third}")
}

// The identifier and length octets of an element of so many octets 7, and how many octets it is.
fn header_text(
    alloc: Global,
    number: u32,
    contents: Vec<u8>,
    length: usize,
) -> Result<String, AllocError> {
    let leaf = Tree::Leaf {
        tag: Tag {
            class: Class::Context,
            number,
        },
        bytes: Bytes::from_vec(contents),
    };
    let octets = tree_octets(alloc, &leaf)?;
    let header = octets.len().saturating_sub(length);
    let digits = hex::encode(alloc, &octets[..header])?;
    format!(in alloc; " {digits} of {}", octets.len())
}

fn words_header_text(alloc: Global, words: &str) -> Result<String, AllocError> {
    let (number, length) = words.split_once(' ').unwrap_or((words, ""));
    let number = number.parse::<u32>().unwrap_or(0);
    let length = length.parse::<usize>().unwrap_or(0);
    header_text(alloc, number, b"\x07".repeat(alloc, length)?, length)
}

/// What there is to say of a line `element.NAME WORDS`.
pub fn answer_to(alloc: Global, name: &str, words: &str) -> Result<String, AllocError> {
    if name == "header" {
        return words_header_text(alloc, words);
    }
    let octets = octets_of(alloc, words).unwrap_or(Vec::new(alloc));
    let Ok((window, _)) = read_window(octets.as_slice()) else {
        return Ok(String::new(alloc));
    };
    if name == "parts" {
        return parts_text(alloc, window);
    }
    if name == "retagged" {
        return parts_text(alloc, window.retagged(Tag::CONTEXT_0));
    }
    if name == "within" {
        return within_text(alloc, window);
    }
    steps_text(alloc, name, window)
}
