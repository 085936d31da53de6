//! Words of lines, and texts of answers.
use std::alloc::{AllocError, Global};

/// The octets in hex after a space.
pub fn octets_text(alloc: Global, octets: &[u8]) -> Result<String, AllocError> {
    let digits = hex::encode(alloc, octets)?;
    format!(in alloc; " {digits}")
}

/// The same, or that there are none.
pub fn octets_or_none(alloc: Global, octets: Option<Vec<u8>>) -> Result<String, AllocError> {
    match octets {
        Some(octets) => octets_text(alloc, octets.as_slice()),
        None => " none".to_string(alloc),
    }
}

/// The text, or that there is none.
pub fn text_or_none(alloc: Global, text: Option<String>) -> Result<String, AllocError> {
    match text {
        Some(text) => Ok(text),
        None => " none".to_string(alloc),
    }
}

/// The numbers of words with one space between them; 0 for a word that is none.
pub fn numbers_of(alloc: Global, words: &str) -> Result<Vec<u64>, AllocError> {
    let mut numbers = Vec::new(alloc);
    for word in words.split(' ') {
        numbers.push(word.parse::<u64>().unwrap_or(0))?;
    }
    Ok(numbers)
}
