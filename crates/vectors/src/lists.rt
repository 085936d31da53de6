//! Lists, sets and bounds: how many values there may be, and their order (X.680, 51; X.690, 8.10 and 11.6).
use crate::octets::octets_text;
use asn1_core::{Bounded, TryClone};
use case_octets::octets_of;
use der_tree::der::{decode, encode};
use der_tree::{
    Any, EncodeError, SequenceOf, SetOf, Tree, Window, read_window, sequence_of, sequence_tree,
    set_of, set_tree, tree_octets,
};
use std::alloc::{AllocError, Global};
use std::cmp::Ordering;

// The octets of the tree, where there is one, or why there is none.
fn tree_text(alloc: Global, tree: Result<Tree, EncodeError>) -> Result<String, AllocError> {
    match tree {
        Ok(tree) => {
            let octets = tree_octets(alloc, &tree)?;
            octets_text(alloc, octets.as_slice())
        }
        Err(fault) => format!(in alloc; " {fault}"),
    }
}

// The list of truth values that the window shows, of at least and at most so many, written within the same bounds.
fn sequence_text(
    alloc: Global,
    window: Window<'_>,
    min: usize,
    max: Option<usize>,
) -> Result<String, AllocError> {
    match sequence_of::<bool>(alloc, window, min, max) {
        Ok(list) => tree_text(alloc, sequence_tree(alloc, &list, min, max)),
        Err(_) => " refused".to_string(alloc),
    }
}

// The same of a set.
fn set_text(
    alloc: Global,
    window: Window<'_>,
    min: usize,
    max: Option<usize>,
) -> Result<String, AllocError> {
    match set_of::<bool>(alloc, window, min, max) {
        Ok(set) => tree_text(alloc, set_tree(alloc, &set, min, max)),
        Err(_) => " refused".to_string(alloc),
    }
}

// The words `MIN MAX OCTETS`; another word than a number is no bound.
fn bounded_text(alloc: Global, name: &str, words: &str) -> Result<String, AllocError> {
    let (min, rest) = words.split_once(' ').unwrap_or((words, ""));
    let (max, rest) = rest.split_once(' ').unwrap_or((rest, ""));
    let octets = octets_of(alloc, rest).unwrap_or(Vec::new(alloc));
    let Ok((window, _)) = read_window(octets.as_slice()) else {
        return Ok(String::new(alloc));
    };
    let (min, max) = (min.parse::<usize>().unwrap_or(0), max.parse::<usize>().ok());
    if name == "sequence" {
        sequence_text(alloc, window, min, max)
    } else {
        set_text(alloc, window, min, max)
    }
}

// The list of what the words contain, an element of any type each.
fn list_of(alloc: Global, words: &str) -> Result<SequenceOf<Any>, AllocError> {
    let mut list = SequenceOf::new(alloc);
    for word in words.split(' ') {
        if !word.is_empty() {
            list.push(Any::new(octets_of(alloc, word).unwrap_or(Vec::new(alloc))))?;
        }
    }
    Ok(list)
}

// A copy of that list, written with at least so many values.
fn pushed_text(alloc: Global, words: &str) -> Result<String, AllocError> {
    let (min, rest) = words.split_once(' ').unwrap_or((words, ""));
    let list = list_of(alloc, rest)?;
    let copy = list.try_clone(alloc)?;
    let min = min.parse::<usize>().unwrap_or(0);
    tree_text(alloc, sequence_tree(alloc, &copy, min, None))
}

// Puts the value into the set, where it is an element.
fn insert(set: &mut SetOf<Any>, value: Any) -> Result<(), AllocError> {
    match set.insert(value) {
        Err(EncodeError::OutOfMemory) => Err(AllocError),
        _ => Ok(()),
    }
}

// The set of what the words contain, but for what isn't an element.
fn set_of_words(alloc: Global, words: &str) -> Result<SetOf<Any>, AllocError> {
    let mut set = SetOf::new(alloc);
    for word in words.split(' ') {
        insert(
            &mut set,
            Any::new(octets_of(alloc, word).unwrap_or(Vec::new(alloc))),
        )?;
    }
    Ok(set)
}

// Whether the set is read of its form, and copied value by value.
fn is_read(alloc: Global, set: &SetOf<Any>, form: &[u8]) -> bool {
    match decode::<SetOf<Any>>(alloc, form) {
        Ok(read) => match read.to_vec(alloc) {
            Ok(values) => values.as_slice() == set.as_slice(),
            Err(_) => false,
        },
        Err(_) => false,
    }
}

// The form of a copy of that set.
fn inserted_text(alloc: Global, words: &str) -> Result<String, AllocError> {
    let set = set_of_words(alloc, words)?;
    let copy = set.try_clone(alloc)?;
    match encode(alloc, &copy) {
        Ok(form) if is_read(alloc, &set, &form) => octets_text(alloc, &form),
        _ => " another".to_string(alloc),
    }
}

// How the list before the slash compares with the list after it.
fn order_text(alloc: Global, words: &str) -> Result<String, AllocError> {
    let (left, right) = words.split_once('/').unwrap_or((words, ""));
    let left = list_of(alloc, left)?;
    let right = list_of(alloc, right)?;
    match left.cmp(&right) {
        Ordering::Less => " less".to_string(alloc),
        Ordering::Equal => " equal".to_string(alloc),
        Ordering::Greater => " greater".to_string(alloc),
    }
}

// The bounds of a start and an end.
fn bounds_of(start: Option<u64>, end: Option<u64>) -> Bounded<u64> {
    match (start, end) {
        (Some(start), Some(end)) => Bounded::const_new(start, end),
        (Some(start), None) => Bounded::start_from(start),
        (None, Some(end)) => Bounded::up_to(end),
        (None, None) => Bounded::None,
    }
}

// One value, or bounds; another word than a number is no bound.
fn bounds_of_words(words: &str) -> Bounded<u64> {
    match words.split_once(' ') {
        Some((start, end)) => bounds_of(start.parse::<u64>().ok(), end.parse::<u64>().ok()),
        None => Bounded::Single(words.parse::<u64>().unwrap_or(0)),
    }
}

// Whether 1, 2, 3 and 4 lie within the bounds.
fn within_text(alloc: Global, words: &str) -> Result<String, AllocError> {
    let bounds = bounds_of_words(words);
    let (one, two) = (bounds.contains(&1), bounds.contains(&2));
    let (three, four) = (bounds.contains(&3), bounds.contains(&4));
    format!(in alloc; " {one} {two} {three} {four}")
}

/// What there is to say of a line `list.NAME WORDS`.
pub fn answer_to(alloc: Global, name: &str, words: &str) -> Result<String, AllocError> {
    if name == "pushed" {
        return pushed_text(alloc, words);
    }
    if name == "order" {
        return order_text(alloc, words);
    }
    if name == "within" {
        return within_text(alloc, words);
    }
    if name == "inserted" {
        return inserted_text(alloc, words);
    }
    bounded_text(alloc, name, words)
}
