//! What is read, each by its name.
use shown_text::push_masked;
use std::alloc::AllocError;

/// An order or a file, by the name that the caller gave it.
#[derive(Clone, Copy, Debug)]
pub struct Named<'a> {
    /// The name, as the words of the command have it. `-` is standard input.
    pub name: &'a str,
    /// What it has in it.
    pub octets: &'a [u8],
}

/// Adds a name, and a colon with a space after it. For an empty name it adds nothing.
pub(crate) fn push_name(text: &mut String, name: &str) -> Result<(), AllocError> {
    if name.is_empty() {
        return Ok(());
    }
    if name == "-" {
        text.push_str("standard input")?;
    } else {
        push_masked(text, name)?;
    }
    text.push_str(": ")?;
    Ok(())
}
