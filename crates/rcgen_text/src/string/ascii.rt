ghost use Rattle.std.specs.Prelude.{◌≡◌, ℕ, Bool, true, List, string_bytes, Some, IsTrue, ◌↔◌};
ghost use Rattle.std.specs.List.{list_all};
ghost use Rattle.std.proofs.Common.{rules};
ghost use Rattle.rcgen_text.specs.Causes.{Cause, text_cause, TakesMemory, TakesNone};
ghost use Rattle.rcgen_text.specs.Strings.{MakesAscii};

use crate::error::{Error, InvalidAsn1String};
use crate::string::text::OwnedText;
use asn1_core::TryClone;
use std::alloc::Global;
use std::fmt;
use std::marker::{Model, PhantomData};

/// A set of ASCII characters, and the error that names its type.
pub trait AsciiSet {
    ghost is_character: { ℕ → Bool };

    ghost cause: { List ℕ → Cause };

    /// Whether each character of the text is in the set.
    fn has_all(text: &str) -> bool
        ensures { result ≡ list_all is_character text.now };

    /// The error of a text with another character.
    fn invalid(text: String) -> InvalidAsn1String
        ensures { text_cause result ≡ cause (string_bytes text) };
}

/// A text of a set of ASCII characters.
#[derive_where(Clone, Debug, PartialEq, Eq, Hash)]
pub struct AsciiString<S: AsciiSet> {
    text: OwnedText,
    set: PhantomData<S>,
}

impl<S: AsciiSet> Model for AsciiString<S> {
    ghost use Rattle.std.specs.Prelude.{◌≡◌, ℕ, List, true};
    ghost use Rattle.std.specs.List.{list_all};

    ghost Value = { List ℕ };

    ghost view = { λ s. s.text };

    ghost invariant = { λ s. list_all S.is_character s.text ≡ true };

    ghost inverse = { λ b. record { text = b; set = record {} } };
}

impl<S: AsciiSet> Drop for AsciiString<S> {
    fn drop(self) {
        let AsciiString { text: _, set: _ } = self;
    }
}

impl<S: AsciiSet> AsciiString<S> {
    /// A copy of the text. `InvalidAsn1String` with the type and the text exactly where a character
    /// isn't in the set.
    pub fn try_from_str(alloc: Global, text: &str) -> Result<AsciiString<S>, Error>
        ensures { MakesAscii TakesMemory S.is_character S.cause text.now result }
    {
        AsciiString::try_from_string(String::from_str(alloc, text)?)
    }

    /// The text, without a copy. Refused as `try_from_str`.
    pub fn try_from_string(text: String) -> Result<AsciiString<S>, Error>
        ensures { MakesAscii TakesNone S.is_character S.cause (string_bytes text) result }
    {
        if !S::has_all(text.as_str()) {
            return Err(Error::InvalidAsn1String(S::invalid(text)));
        }
        Ok(AsciiString {
            text: OwnedText::new(text),
            set: PhantomData,
        })
    }

    /// The text.
    pub fn as_str(&self) -> &str
        ensures text { result.now ≡ self.now }
        ensures set { list_all S.is_character self.now ≡ true }
    {
        self.text.as_str()
    }

    /// Whether it is this text.
    pub fn is_text(&self, text: &str) -> bool
        ensures { IsTrue result ↔ (self.now ≡ text.now) }
    {
        self.as_str() == text
    }
}

impl<S: AsciiSet> fmt::Display for AsciiString<S> {
    ghost output = { λ s. Some s };

    fn fmt<W: fmt::Write>(&self, f: &mut fmt::Formatter<W>) -> fmt::Result {
        f.pad(self.as_str())
    }
}

impl<S: AsciiSet> TryClone for AsciiString<S> {
    ghost copies_are_equal = { Prim.search rules };
}
