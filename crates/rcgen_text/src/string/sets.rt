ghost use Rattle.std.specs.Prelude.{◌≡◌};
ghost use Rattle.asn1_core.specs.StringTypes.{is_printable};
ghost use Rattle.rcgen_text.specs.Causes.{printable_text, ia5_text, teletex_text};
ghost use Rattle.rcgen_text.specs.Strings.{is_ia5, is_teletex};

use crate::error::InvalidAsn1String;
use crate::string::ascii::{AsciiSet, AsciiString};

/// Letters, digits, space and `'()+,-./:=?`.
pub struct Printable;

impl AsciiSet for Printable {
    ghost is_character = { is_printable };

    ghost cause = { printable_text };

    fn has_all(text: &str) -> bool {
        text.as_bytes().iter().all(|b| b.is_ascii_alphanumeric()
            || matches!(*b, b' ' | b'\'' ..= b')' | b'+' ..= b'/' | b':' | b'=' | b'?'))
    }

    fn invalid(text: String) -> InvalidAsn1String {
        InvalidAsn1String::PrintableString(text)
    }
}

/// All of ASCII.
pub struct Ia5;

impl AsciiSet for Ia5 {
    ghost is_character = { is_ia5 };

    ghost cause = { ia5_text };

    fn has_all(text: &str) -> bool {
        text.as_bytes().iter().all(|b| b.is_ascii())
    }

    fn invalid(text: String) -> InvalidAsn1String {
        InvalidAsn1String::Ia5String(text)
    }
}

/// The characters U+0020 to U+007F.
pub struct Teletex;

impl AsciiSet for Teletex {
    ghost is_character = { is_teletex };

    ghost cause = { teletex_text };

    fn has_all(text: &str) -> bool {
        text.as_bytes().iter().all(|b| matches!(*b, 0x20..=0x7F))
    }

    fn invalid(text: String) -> InvalidAsn1String {
        InvalidAsn1String::TeletexString(text)
    }
}

/// Letters, digits, space and `'()+,-./:=?` (X.680, 41).
pub type PrintableString = AsciiString<Printable>;

/// The characters of ASCII (X.680, 41).
pub type Ia5String = AsciiString<Ia5>;

/// The characters U+0020 to U+007F. Other sets that a TeletexString may change to aren't known here;
/// RFC 5280, 4.1.2.4, keeps the type for names that already have it.
pub type TeletexString = AsciiString<Teletex>;

impl TeletexString {
    /// The characters as bytes.
    pub fn as_bytes(&self) -> &[u8]
        ensures { result.now ≡ self.now }
    {
        self.as_str().as_bytes()
    }
}
