//! Inputs of PEM blocks. Octets are in hex.
use case_octets::NamedOctets;
use pem::{is_label, pem_text};
use pkix_rules::{attribute_certificate_rules, certificate_rules, list_rules, request_rules};
use rule_table::Rule;
use rule_texts::text;
use shelf_explain::explanation;
use std::alloc::Global;

/// The text of a block; none where that is no label, the digits are no octets, or memory runs out.
pub fn block_text(alloc: Global, label: &str, digits: &str) -> Option<Vec<u8>> {
    let octets = hex::decode(alloc, digits.as_bytes()).ok()?;
    let label = label.as_bytes();
    if !is_label(label) {
        return None;
    }
    pem_text(alloc, label, octets.as_slice()).ok()
}

/// The block of a label and octets.
pub fn one_block(alloc: Global, words: &str) -> Option<Vec<u8>> {
    let (label, digits) = words.rsplit_once(' ')?;
    block_text(alloc, label, digits)
}

/// Keeps the block of a name and octets.
pub fn keep(alloc: Global, blocks: &mut NamedOctets, label: &str, words: &str) -> Option<()> {
    let (name, digits) = words.split_once(' ')?;
    let text = block_text(alloc, label, digits)?;
    blocks.push(alloc, name, text)
}

/// Keeps the block of a name, a label and octets.
pub fn keep_labelled(alloc: Global, blocks: &mut NamedOctets, words: &str) -> Option<()> {
    let (name, block) = words.split_once(' ')?;
    let text = one_block(alloc, block)?;
    blocks.push(alloc, name, text)
}

/// The blocks of these names, which commas part (`-`: none).
pub fn text_of(alloc: Global, blocks: &NamedOctets, names: &str) -> Option<Vec<u8>> {
    let mut text = Vec::new(alloc);
    if names == "-" {
        return Some(text);
    }
    for name in names.split(',') {
        text.extend_from_slice(blocks.octets(name)?).ok()?;
    }
    Some(text)
}

/// A document, in which `;` is a line feed.
pub fn document(alloc: Global, lines: &str) -> Option<Vec<u8>> {
    let mut text = Vec::new(alloc);
    for line in lines.split(';') {
        text.extend_from_slice(line.as_bytes()).ok()?;
        text.push(b'\n').ok()?;
    }
    Some(text)
}

/// What is said of octets after a label.
pub fn explained(alloc: Global, words: &str) -> Option<String> {
    let (label, digits) = words.rsplit_once(' ')?;
    let octets = hex::decode(alloc, digits.as_bytes()).ok()?;
    let text = explanation(alloc, label.as_bytes(), octets.as_slice()).ok()?;
    String::from_utf8(text).ok()
}

/// The identifiers of the rules that octets of a kind break: those of what is to be signed, and of the issuer's certificate, if any.
pub fn rules(alloc: Global, words: &str) -> Option<String> {
    let mut parts = words.split(' ');
    let kind = parts.next()?;
    let octets = hex::decode(alloc, parts.next()?.as_bytes()).ok()?;
    let issuer = match parts.next() {
        None => None,
        Some(digits) => Some(hex::decode(alloc, digits.as_bytes()).ok()?),
    };
    let issuer = match &issuer {
        None => None,
        Some(octets) => Some(octets.as_slice()),
    };
    let found = broken(alloc, kind, octets.as_slice(), issuer)?;
    names(alloc, found.as_slice())
}

// Those that octets of a kind break.
fn broken(alloc: Global, kind: &str, octets: &[u8], issuer: Option<&[u8]>) -> Option<Vec<Rule>> {
    if kind == "certificate" {
        return certificate_rules(alloc, octets, issuer).ok();
    }
    if kind == "request" {
        return request_rules(alloc, octets).ok();
    }
    if kind == "list" {
        return list_rules(alloc, octets, issuer).ok();
    }
    if kind == "attribute" {
        return attribute_certificate_rules(alloc, octets, issuer).ok();
    }
    None
}

// Their identifiers, with a blank between two, or `-`.
fn names(alloc: Global, rules: &[Rule]) -> Option<String> {
    let mut names = String::new(alloc);
    for rule in rules {
        if !names.is_empty() {
            names.push(' ').ok()?;
        }
        names.push_str(name(*rule)).ok()?;
    }
    if names.is_empty() {
        names.push('-').ok()?;
    }
    Some(names)
}

// What the brackets at the end of its text have.
fn name(rule: Rule) -> &'static str {
    let text = text(rule);
    let end = match text.rsplit_once('[') {
        Some((_, end)) => end,
        None => text,
    };
    match end.strip_suffix(']') {
        Some(name) => name,
        None => end,
    }
}
