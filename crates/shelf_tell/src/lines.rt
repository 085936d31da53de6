//! The lines of a complaint, each with the name of what it is about.
use crate::named::push_name;
use shown_text::push_masked;
use std::alloc::{AllocError, Global};

/// How many places are reported.
const REPORTED: usize = 100;

/// How many characters of a value or of a name that isn't known are shown at most: a longer one may be a secret.
pub(crate) const SHOWN: usize = 20;

/// Lines on one document.
#[derive(Drop)]
pub(crate) struct Lines {
    name: String,
    text: String,
    count: usize,
}

impl Lines {
    /// No lines yet on the document with this name.
    pub(crate) fn new(alloc: Global, name: &str) -> Result<Lines, AllocError> {
        let mut shown = String::new(alloc);
        push_name(&mut shown, name)?;
        Ok(Lines {
            name: shown,
            text: String::new(alloc),
            count: 0,
        })
    }

    /// Whether no more places are reported.
    pub(crate) fn are_full(&self) -> bool {
        self.count >= REPORTED
    }

    /// Whether there is no line.
    pub(crate) fn are_empty(&self) -> bool {
        self.count == 0
    }

    /// One more line, on a place of the document. Past the last that is reported one line says so.
    pub(crate) fn say(&mut self, place: &str, what: &str) -> Result<(), AllocError> {
        if self.count > REPORTED {
            return Ok(());
        }
        let is_last = self.are_full();
        self.count = self.count.saturating_add(1);
        self.text.push_str(self.name.as_str())?;
        if is_last {
            return self.text.push_str("and more errors\n");
        }
        if !place.is_empty() {
            push_masked(&mut self.text, place)?;
            self.text.push_str(": ")?;
        }
        push_masked(&mut self.text, what)?;
        self.text.push_str("\n")
    }

    /// The lines.
    pub(crate) fn into_octets(self) -> Vec<u8> {
        let Lines { text, .. } = self;
        text.into_bytes()
    }
}

/// One line: the name of an order or a file, a place in it, and what is wrong there.
pub(crate) fn line(
    alloc: Global,
    name: &str,
    place: &str,
    what: &str,
) -> Result<Vec<u8>, AllocError> {
    let mut lines = Lines::new(alloc, name)?;
    lines.say(place, what)?;
    Ok(lines.into_octets())
}

/// Adds a text, of one with more than 20 characters the first four and how many there are.
pub(crate) fn push_short(alloc: Global, text: &mut String, shown: &str) -> Result<(), AllocError> {
    let count = shown.chars().count();
    if count <= SHOWN {
        return text.push_str(shown);
    }
    for character in shown.chars().take(4) {
        text.push(character)?;
    }
    let rest = format!(in alloc; ".. ({count} characters)")?;
    text.push_str(rest.as_str())
}
