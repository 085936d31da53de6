ghost use Rattle.std.specs.Prelude.{◌≡◌, ℕ, List, None, length, refl};
ghost use Rattle.std.proofs.Common.{rules};
ghost use Rattle.asn1_core.specs.StringTypes.{StringType};
ghost use Rattle.asn1_core.specs.Tags.{universal};
ghost use Rattle.asn1_core.specs.Texts.{fault_of, MakesText, char_count};
ghost use Rattle.asn1_core.specs.declared.tag.Tag.{Tag};
ghost use Rattle.asn1_core.specs.declared.text.TextFault.TheVariants as fault;

mod sets;

use crate::error::OutOfMemory;
use crate::octet_string::OctetString;
use crate::tag::Tag;
use crate::try_clone::TryClone;
pub use sets::{Bmp, General, Graphic, Ia5, Numeric, Printable, Teletex, Universal, Utf8, Visible};
use std::alloc::{AllocError, Global};
use std::marker::{Model, PhantomData};
use thiserror::Error;

/// Why octets aren't a text.
#[derive(Clone, Copy, Debug, PartialEq, Eq, Error)]
pub enum TextFault {
    /// The first character that isn't in the set begins at this octet, counted from 0.
    #[error("BadCharacter")]
    BadCharacter { at: usize },
    /// Their number cuts a character: it isn't even, or no multiple of 4.
    #[error("BadLength")]
    BadLength,
    /// Memory ran out.
    #[error("OutOfMemory")]
    OutOfMemory,
}

impl From<AllocError> for TextFault {
    ghost from_gives = { λ _ e. e ≡ fault.OutOfMemory };

    fn from(_e: AllocError) -> TextFault {
        TextFault::OutOfMemory
    }
}

/// A restricted character string type: its characters, and how they are octets (X.680, 41;
/// X.690, 8.23).
pub trait StringType {
    ghost string_type: { StringType };

    ghost TAG: { Tag };

    ghost WIDTH: { ℕ };

    /// The type's universal tag.
    const TAG: Tag;

    /// How many octets each unit has that characters are written in.
    const WIDTH: usize;

    /// How many octets the leading characters take, up to the first that isn't of the type.
    fn valid_len(octets: &[u8]) -> usize
        ensures { result ≡ string_type.valid_len octets.now };

    /// How many characters the octets of a text are.
    fn char_count(octets: &[u8]) -> usize
        requires { fault_of string_type octets.now ≡ None }
        ensures { result ≡ char_count string_type octets.now };

    ghost tag_is: { TAG ≡ universal string_type.number };

    ghost width_is: { WIDTH ≡ string_type.width };
}

/// A text of a restricted character string type (X.680, 41): its contents octets, which are
/// characters of the set. The order is that of the octets.
#[derive_where(Clone, Debug, PartialEq, Eq, PartialOrd, Ord, Hash)]
pub struct CharacterString<S: StringType> {
    contents: OctetString,
    set: PhantomData<S>,
}

impl<S: StringType> Model for CharacterString<S> {
    ghost use Rattle.std.specs.Prelude.{◌≡◌, ℕ, List, None};
    ghost use Rattle.asn1_core.specs.Texts.{fault_of};

    ghost Value = { List ℕ };

    ghost view = { λ s. s.contents };

    ghost invariant = { λ s. fault_of S.string_type s.contents ≡ None };

    ghost inverse = { λ b. record { contents = b; set = record {} } };
}

impl<S: StringType> Drop for CharacterString<S> {
    fn drop(self) {
        let CharacterString {
            contents: _,
            set: _,
        } = self;
    }
}

impl<S: StringType> CharacterString<S> {
    /// The text of these octets. `BadLength` exactly where their number cuts a unit, and else
    /// `BadCharacter` exactly where some character isn't in the set, with the place of the first
    /// octet of the first one.
    pub fn new(alloc: Global, contents: &[u8]) -> Result<CharacterString<S>, TextFault>
        ensures { MakesText S.string_type contents.now result }
    {
        if contents.len() % S::WIDTH != 0 {
            return Err(TextFault::BadLength);
        }
        let at = S::valid_len(contents);
        if at != contents.len() {
            return Err(TextFault::BadCharacter { at });
        }
        let contents = OctetString::new(Vec::from_slice(alloc, contents)?);
        Ok(CharacterString {
            contents,
            set: PhantomData,
        })
    }

    /// The contents octets (X.690, 8.23).
    pub fn as_bytes(&self) -> &[u8]
        ensures octets { result.now ≡ self.now }
        ensures valid { fault_of S.string_type self.now ≡ None }
    {
        self.contents.as_slice()
    }

    /// How many characters the text has.
    pub fn char_count(&self) -> usize
        ensures { result ≡ char_count S.string_type self.now }
    {
        S::char_count(self.as_bytes())
    }
}

impl<S: StringType> TryClone for CharacterString<S> {
    ghost copies_are_equal = { Prim.search rules };
}

/// Characters of Unicode in UTF-8 (X.680, 41; X.690, 8.23.10).
pub type Utf8String = CharacterString<Utf8>;

/// Digits and space (X.680, 41.2).
pub type NumericString = CharacterString<Numeric>;

/// Letters, digits, space and `'()+,-./:=?` (X.680, 41.4).
pub type PrintableString = CharacterString<Printable>;

/// Any octets: the sets that a TeletexString may change to are not looked at.
pub type TeletexString = CharacterString<Teletex>;

/// The octets 00 to 7F.
pub type Ia5String = CharacterString<Ia5>;

/// Any octets: the sets that a GraphicString may change to are not looked at.
pub type GraphicString = CharacterString<Graphic>;

/// The octets 20 to 7E.
pub type VisibleString = CharacterString<Visible>;

/// Any octets: the sets that a GeneralString may change to are not looked at.
pub type GeneralString = CharacterString<General>;

/// Characters of Unicode, each in four octets (X.690, 8.23.7).
pub type UniversalString = CharacterString<Universal>;

/// Characters of Unicode up to U+FFFF, each in two octets (X.690, 8.23.8).
pub type BmpString = CharacterString<Bmp>;
