//! Damaged input: elements that are none, and each front and each turned bit of a certificate.
use crate::views::BITS;
use case_octets::octets_of;
use der_tree::der::{decode, decode_with_remainder, encode};
use der_tree::{DecodeError, WindowFault, read_window};
use pkix_cert::Certificate;
use std::alloc::{AllocError, Global};

/// How many of some inputs are read as a certificate.
#[derive(Clone, Copy)]
struct Counts {
    refused: usize,
    same: usize,
    others: usize,
}

impl Counts {
    // None so far.
    fn new() -> Counts {
        Counts {
            refused: 0,
            same: 0,
            others: 0,
        }
    }

    // And this input, of which a certificate's form may be a front.
    fn count(&mut self, alloc: Global, input: &[u8]) {
        match is_same(alloc, input) {
            Some(true) => self.same = self.same.saturating_add(1),
            Some(false) => self.others = self.others.saturating_add(1),
            None => self.refused = self.refused.saturating_add(1),
        }
    }
}

// Whether the certificate at the front has exactly those octets as its form; none where there is no certificate.
fn is_same(alloc: Global, input: &[u8]) -> Option<bool> {
    match decode_with_remainder::<Certificate>(alloc, input) {
        Ok((certificate, rest)) => {
            let Ok(octets) = encode(alloc, &certificate) else {
                return Some(false);
            };
            Some(input.strip_prefix(octets.as_slice()) == Some(rest))
        }
        Err(DecodeError::NotInGrammar) => None,
        Err(DecodeError::OutOfMemory) => Some(false),
    }
}

// The fronts of a certificate's form, which all break off.
fn fronts_text(alloc: Global, form: &[u8]) -> Result<String, AllocError> {
    let mut counts = Counts::new();
    let mut incomplete: usize = 0;
    for length in 0..form.len() {
        let front = &form[..length];
        counts.count(alloc, front);
        if let Err(WindowFault::Incomplete) = read_window(front) {
            incomplete = incomplete.saturating_add(1);
        }
    }
    format!(in alloc;
        " fronts: {incomplete} incomplete, {} refused, {} same, {} others;",
        counts.refused, counts.same, counts.others,
    )
}

// A certificate's form with one bit turned, each in turn.
fn turned_text(alloc: Global, form: &[u8]) -> Result<String, AllocError> {
    let mut counts = Counts::new();
    for place in 0..form.len() {
        for bit in BITS {
            let mut turned = form.to_vec(alloc)?;
            turned[place] ^= *bit;
            counts.count(alloc, &turned);
        }
    }
    format!(in alloc;
        " turned bits: {} refused, {} same, {} others",
        counts.refused, counts.same, counts.others,
    )
}

// Both.
fn damaged_text(alloc: Global, form: &[u8]) -> Result<String, AllocError> {
    let mut text = fronts_text(alloc, form)?;
    let turned = turned_text(alloc, form)?;
    text.push_str(turned.as_str())?;
    Ok(text)
}

// The element at the front of the input, or why there is none (X.690, 8.1 and 10.1).
fn window_text(alloc: Global, input: &[u8]) -> Result<String, AllocError> {
    match read_window(input) {
        Ok((window, rest)) => format!(in alloc;
            " tag {}, {} octets, {} behind",
            window.tag().number,
            window.content().len(),
            rest.len(),
        ),
        Err(WindowFault::Incomplete) => " incomplete".to_string(alloc),
        Err(WindowFault::Malformed) => " malformed".to_string(alloc),
    }
}

/// What there is to say of a line `window OCTETS` or `damaged OCTETS`; nothing of any other line.
pub fn answer_to(alloc: Global, line: &str) -> Result<String, AllocError> {
    let Some((word, words)) = line.split_once(' ') else {
        return Ok(String::new(alloc));
    };
    let octets = octets_of(alloc, words).unwrap_or(Vec::new(alloc));
    match word {
        "window" => window_text(alloc, &octets),
        "damaged" => damaged_text(alloc, &octets),
        _ => Ok(String::new(alloc)),
    }
}
