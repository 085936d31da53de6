//! The octets that a line of cases says in words.
#![tactic(auto)]

mod named;

pub use named::NamedOctets;
use std::alloc::Global;

/// The octets of words of hex with one space between them. A word may say how often its octets occur,
/// as `31*32` does; `nested*3` is three SEQUENCEs one within the other. None where a word is otherwise,
/// where it says more than 65,535, or where memory runs out.
pub fn octets_of(alloc: Global, words: &str) -> Option<Vec<u8>> {
    let mut octets = Vec::new(alloc);
    for word in words.split(' ') {
        let mut part = word_octets(alloc, word)?;
        octets.append(&mut part).ok()?;
    }
    Some(octets)
}

// The octets of one word.
fn word_octets(alloc: Global, word: &str) -> Option<Vec<u8>> {
    let (word, times) = match word.split_once('*') {
        Some((word, times)) => (word, times.parse::<u16>().ok()?),
        None => (word, 1),
    };
    if word == "nested" {
        return nested(alloc, times);
    }
    let part = hex::decode(alloc, word.as_bytes()).ok()?;
    part.as_slice().repeat(alloc, usize::from(times)).ok()
}

// So many SEQUENCEs one within the other (X.690, 8.9), made from the innermost one on, the last octet first.
fn nested(alloc: Global, count: u16) -> Option<Vec<u8>> {
    let mut octets = Vec::new(alloc);
    for _ in 0..count {
        let length = octets.len();
        push_length(&mut octets, length)?;
        octets.push(0x30).ok()?;
    }
    octets.reverse();
    Some(octets)
}

// The length octets (X.690, 10.1), the last one first.
fn push_length(octets: &mut Vec<u8>, length: usize) -> Option<()> {
    let [_, third, second, first] = u32::try_from(length).ok()?.to_be_bytes();
    let pushed = match length {
        0..=127 => octets.extend_from_slice(&[first]),
        128..=255 => octets.extend_from_slice(&[first, 0x81]),
        256..=65535 => octets.extend_from_slice(&[first, second, 0x82]),
        _ => octets.extend_from_slice(&[first, second, third, 0x83]),
    };
    pushed.ok()
}
