ghost use Rattle.std.specs.Prelude.{◌≡◌, ◌↔◌, Some, None, IsTrue, refl};
ghost use Rattle.std.proofs.Common.{rules};
ghost use Rattle.der_tree.specs.Tags.{universal};
ghost use Rattle.pkix_name.specs.X520.{country_name, serial_number, upper_bound, x520_text, as_directory_string};

use crate::directory_string::DirectoryString;
use asn1_core::{
    BmpString, Ia5String, PrintableString, Tag, TeletexString, TryClone, UniversalString,
    Utf8String,
};
use der_tree::{DecodeError, DerType, EncodeError, Form, Tree, Window, text_of, text_tree};
use std::alloc::Global;
use std::ops::{Deref, DerefMut};

/// What tells apart entries of one name (RFC 5280, A.1).
pub type X520DnQualifier = PrintableString;

/// One label of a domain name (RFC 4519, 2.4).
pub type DomainComponent = Ia5String;

/// A mailbox (RFC 5280, A.1). Its length isn't bounded here.
pub type EmailAddress = Ia5String;

/// The two letters of a country (ISO 3166; RFC 5280, A.1). Another number of characters is refused when it
/// is encoded, with `SizeOutOfRange`, and isn't read.
#[derive(Clone, Debug, Drop, PartialEq, Eq, PartialOrd, Ord, Hash)]
pub struct X520CountryName(pub PrintableString);

impl From<PrintableString> for X520CountryName {
    ghost from_gives = { λ inner v. v.0 ≡ inner };

    fn from(inner: PrintableString) -> X520CountryName {
        X520CountryName(inner)
    }
}

impl Deref for X520CountryName {
    type Target = PrintableString;

    ghost deref_gives = { λ v inner. inner ≡ v.0 };

    fn deref(&self) -> &PrintableString {
        &self.0
    }
}

impl DerefMut for X520CountryName {
    ghost use Rattle.std.specs.Borrow.{sem};
    ghost use Rattle.pkix_name.specs.Lending.{LendsCountry};

    ghost deref_mut_gives = { λ v inner. inner ≡ v.0 };

    fn deref_mut(&mut self) -> &mut PrintableString
        ensures* writes_back { sem 𝓛 (LendsCountry self.entry result) }
        ensures value { result.now ≡ self.old.0 }
    {
        &mut self.0
    }
}

impl TryClone for X520CountryName {
    ghost copies_are_equal = { Prim.search rules };
}

impl Form for X520CountryName {
    ghost codec = { country_name };
}

impl DerType for X520CountryName {
    ghost TAG = { Some (universal 19) };

    ghost tag_is = { refl };

    const TAG: Option<Tag> = Some(Tag::PRINTABLE_STRING);

    fn starts(tag: Tag) -> bool {
        PrintableString::starts(tag)
    }

    fn to_tree(&self, alloc: Global) -> Result<Tree, EncodeError> {
        text_tree(alloc, &self.0, 2, Some(2))
    }

    fn from_tree(alloc: Global, window: Window<'_>) -> Result<Self, DecodeError> {
        Ok(X520CountryName(text_of(alloc, window, 2, Some(2))?))
    }
}

/// The number of a device, 1 to 64 characters (RFC 5280, A.1). Another number of characters is refused when
/// it is encoded, with `SizeOutOfRange`, and isn't read.
#[derive(Clone, Debug, Drop, PartialEq, Eq, PartialOrd, Ord, Hash)]
pub struct X520SerialNumber(pub PrintableString);

impl From<PrintableString> for X520SerialNumber {
    ghost from_gives = { λ inner v. v.0 ≡ inner };

    fn from(inner: PrintableString) -> X520SerialNumber {
        X520SerialNumber(inner)
    }
}

impl Deref for X520SerialNumber {
    type Target = PrintableString;

    ghost deref_gives = { λ v inner. inner ≡ v.0 };

    fn deref(&self) -> &PrintableString {
        &self.0
    }
}

impl DerefMut for X520SerialNumber {
    ghost use Rattle.std.specs.Borrow.{sem};
    ghost use Rattle.pkix_name.specs.Lending.{LendsSerial};

    ghost deref_mut_gives = { λ v inner. inner ≡ v.0 };

    fn deref_mut(&mut self) -> &mut PrintableString
        ensures* writes_back { sem 𝓛 (LendsSerial self.entry result) }
        ensures value { result.now ≡ self.old.0 }
    {
        &mut self.0
    }
}

impl TryClone for X520SerialNumber {
    ghost copies_are_equal = { Prim.search rules };
}

impl Form for X520SerialNumber {
    ghost codec = { serial_number };
}

impl DerType for X520SerialNumber {
    ghost TAG = { Some (universal 19) };

    ghost tag_is = { refl };

    const TAG: Option<Tag> = Some(Tag::PRINTABLE_STRING);

    fn starts(tag: Tag) -> bool {
        PrintableString::starts(tag)
    }

    fn to_tree(&self, alloc: Global) -> Result<Tree, EncodeError> {
        text_tree(alloc, &self.0, 1, Some(64))
    }

    fn from_tree(alloc: Global, window: Window<'_>) -> Result<Self, DecodeError> {
        Ok(X520SerialNumber(text_of(alloc, window, 1, Some(64))?))
    }
}

/// A name, at most 32768 characters (RFC 5280, A.1).
pub type X520Name = X520Text<41>;

/// A common name, at most 64 characters (RFC 5280, A.1).
pub type X520CommonName = X520Text<3>;

/// A place, at most 128 characters (RFC 5280, A.1).
pub type X520LocalityName = X520Text<7>;

/// A state or province, at most 128 characters (RFC 5280, A.1).
pub type X520StateOrProvinceName = X520Text<8>;

/// An organisation, at most 64 characters (RFC 5280, A.1).
pub type X520OrganisationName = X520Text<10>;

/// A unit of an organisation, at most 64 characters (RFC 5280, A.1).
pub type X520OrganisationalUnitName = X520Text<11>;

/// A title, at most 64 characters (RFC 5280, A.1).
pub type X520Title = X520Text<12>;

/// A pseudonym, at most 128 characters (RFC 5280, A.1).
pub type X520Pseudonym = X520Text<65>;

/// The most characters that a text of the attribute 2.5.4.`arc` has (RFC 5280, A.1).
fn upper_bound(arc: u32) -> usize
    ensures { result ≡ upper_bound arc }
{
    match arc {
        41 => 32768,
        7 | 8 | 65 => 128,
        _ => 64,
    }
}

/// The text of the attribute 2.5.4.`ARC`: a `DirectoryString` with an upper bound (RFC 5280, A.1), which is 64
/// for an arc that none of the names above has. A text that is empty or too long is refused when it is
/// encoded, with `SizeOutOfRange`, and isn't read.
#[derive(Clone, Debug, Drop, PartialEq, Eq, PartialOrd, Ord, Hash)]
pub enum X520Text<const ARC: u32> {
    Teletex(TeletexString),
    Printable(PrintableString),
    Universal(UniversalString),
    Utf8(Utf8String),
    Bmp(BmpString),
}

impl<const ARC: u32> From<X520Text<ARC>> for DirectoryString {
    ghost from_gives = { λ text v. v ≡ as_directory_string text };

    fn from(text: X520Text<ARC>) -> DirectoryString {
        match text {
            X520Text::Teletex(text) => DirectoryString::Teletex(text),
            X520Text::Printable(text) => DirectoryString::Printable(text),
            X520Text::Universal(text) => DirectoryString::Universal(text),
            X520Text::Utf8(text) => DirectoryString::Utf8(text),
            X520Text::Bmp(text) => DirectoryString::Bmp(text),
        }
    }
}

/// Texts that are compared with those of another type.
pub trait SameText<T> {
    /// The other type's text as one of this type.
    ghost as_self: { T → Self };

    /// Whether kind and text are equal.
    fn same_text(&self, other: &T) -> bool
        ensures { IsTrue result ↔ (self.now ≡ as_self other.now) };
}

impl<const ARC: u32> SameText<X520Text<ARC>> for DirectoryString {
    ghost as_self = { as_directory_string };

    #[tactic(auto, using(crate::proofs::Same::comparing))]
    fn same_text(&self, other: &X520Text<ARC>) -> bool {
        match (self, other) {
            (DirectoryString::Teletex(a), X520Text::Teletex(b)) => a.as_bytes() == b.as_bytes(),
            (DirectoryString::Printable(a), X520Text::Printable(b)) => a.as_bytes() == b.as_bytes(),
            (DirectoryString::Universal(a), X520Text::Universal(b)) => a.as_bytes() == b.as_bytes(),
            (DirectoryString::Utf8(a), X520Text::Utf8(b)) => a.as_bytes() == b.as_bytes(),
            (DirectoryString::Bmp(a), X520Text::Bmp(b)) => a.as_bytes() == b.as_bytes(),
            _ => false,
        }
    }
}

impl<const ARC: u32> TryClone for X520Text<ARC> {
    ghost copies_are_equal = { Prim.search rules };
}

impl<const ARC: u32> Form for X520Text<ARC> {
    ghost codec = { x520_text ARC };
}

impl<const ARC: u32> DerType for X520Text<ARC> {
    ghost TAG = { None };

    ghost tag_is = { refl };

    const TAG: Option<Tag> = None;

    fn starts(tag: Tag) -> bool {
        DirectoryString::starts(tag)
    }

    fn to_tree(&self, alloc: Global) -> Result<Tree, EncodeError> {
        let max = Some(upper_bound(ARC));
        match self {
            X520Text::Teletex(text) => text_tree(alloc, text, 1, max),
            X520Text::Printable(text) => text_tree(alloc, text, 1, max),
            X520Text::Universal(text) => text_tree(alloc, text, 1, max),
            X520Text::Utf8(text) => text_tree(alloc, text, 1, max),
            X520Text::Bmp(text) => text_tree(alloc, text, 1, max),
        }
    }

    fn from_tree(alloc: Global, window: Window<'_>) -> Result<Self, DecodeError> {
        let max = Some(upper_bound(ARC));
        let tag = window.tag();
        if TeletexString::starts(tag) {
            Ok(X520Text::Teletex(text_of(alloc, window, 1, max)?))
        } else if PrintableString::starts(tag) {
            Ok(X520Text::Printable(text_of(alloc, window, 1, max)?))
        } else if UniversalString::starts(tag) {
            Ok(X520Text::Universal(text_of(alloc, window, 1, max)?))
        } else if Utf8String::starts(tag) {
            Ok(X520Text::Utf8(text_of(alloc, window, 1, max)?))
        } else {
            Ok(X520Text::Bmp(text_of(alloc, window, 1, max)?))
        }
    }
}
