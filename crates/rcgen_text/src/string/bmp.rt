ghost use Rattle.std.specs.Prelude.{◌≡◌, true, not, Some, IfOk};
ghost use Rattle.std.proofs.Common.{rules};
ghost use Rattle.rcgen_text.specs.Causes.{TakesMemory, Makes, MayAnswer, origin_of, when};
ghost use Rattle.rcgen_text.specs.Strings.{is_bmp_code, is_bmp, fits_bmp, utf16be, no_utf16};

use crate::error::{Error, InvalidAsn1String};
use asn1_core::{OctetString, TryClone};
use std::alloc::{AllocError, Global};
use std::marker::Model;

/// Characters of Unicode up to U+FFFE, each in two octets, the first the higher (X.680, 41;
/// X.690, 8.23.8). RFC 5280, 4.1.2.4, keeps the type for names that already have it.
#[derive(Clone, Debug, PartialEq, Eq, Hash)]
pub struct BmpString {
    octets: OctetString,
}

impl Model for BmpString {
    ghost use Rattle.std.specs.Prelude.{◌≡◌, ℕ, List, true};
    ghost use Rattle.rcgen_text.specs.Strings.{is_bmp};

    ghost Value = { List ℕ };

    ghost view = { λ s. s.octets };

    ghost invariant = { λ s. is_bmp s.octets ≡ true };

    ghost inverse = { λ b. record { octets = b } };
}

impl Drop for BmpString {
    fn drop(self) {
        let BmpString { octets: _ } = self;
    }
}

fn is_bmp_code(code: u32) -> bool
    ensures { result ≡ is_bmp_code code }
{
    char::from_u32(code).is_some() && code < 0xFFFF
}

#[tactic(auto, using(crate::proofs::Units::two))]
fn is_bmp(octets: &[u8]) -> bool
    ensures { result ≡ is_bmp octets.now }
{
    let mut rest = octets;
    while let [high, low, after @ ..] = rest {
        if !is_bmp_code(256 * u32::from(*high) + u32::from(*low)) {
            return false;
        }
        rest = after;
    }
    rest.is_empty()
}

fn fits_bmp(text: &str) -> bool
    ensures { result ≡ fits_bmp text.now }
{
    text.chars().all(|character| u32::from(character) < 0xFFFF)
}

fn utf16be(alloc: Global, text: &str) -> Result<Vec<u8>, AllocError>
    ensures { IfOk result (λ octets. octets.items ≡ utf16be text.now) }
{
    let mut octets = Vec::new(alloc);
    for character in text.chars() {
        let code = u32::from(character);
        octets.push((code / 0x100 % 0x100) as u8)?;
        octets.push((code % 0x100) as u8)?;
    }
    Ok(octets)
}

/// The error of octets that aren't a text.
fn invalid(alloc: Global) -> Error
    ensures { MayAnswer TakesMemory (Some no_utf16) (origin_of result) }
{
    match String::from_str(alloc, "Invalid UTF-16 encoding") {
        Ok(text) => Error::InvalidAsn1String(InvalidAsn1String::BmpString(text)),
        Err(_) => Error::OutOfMemory,
    }
}

impl BmpString {
    /// The text in UTF-16BE. Refused as `from_utf16be`, so exactly where a character is above U+FFFE.
    #[tactic(auto, using(crate::proofs::Units::bmp_text))]
    pub fn try_from_str(alloc: Global, text: &str) -> Result<BmpString, Error>
        ensures { Makes TakesMemory (when (not (fits_bmp text.now)) no_utf16)
            (λ made. made ≡ utf16be text.now) result }
    {
        if !fits_bmp(text) {
            return Err(invalid(alloc));
        }
        Ok(BmpString {
            octets: OctetString::new(utf16be(alloc, text)?),
        })
    }

    /// The text of these octets, in UTF-16BE without surrogates. `InvalidAsn1String` exactly where
    /// their number is odd, or they contain a surrogate or U+FFFF.
    pub fn from_utf16be(alloc: Global, bytes: Vec<u8>) -> Result<BmpString, Error>
        ensures { Makes TakesMemory (when (not (is_bmp bytes.items)) no_utf16)
            (λ made. made ≡ bytes.items) result }
    {
        if !is_bmp(bytes.as_slice()) {
            return Err(invalid(alloc));
        }
        Ok(BmpString {
            octets: OctetString::new(bytes),
        })
    }

    /// The contents octets.
    pub fn as_bytes(&self) -> &[u8]
        ensures octets { result.now ≡ self.now }
        ensures valid { is_bmp self.now ≡ true }
    {
        self.octets.as_slice()
    }
}

impl TryClone for BmpString {
    ghost copies_are_equal = { Prim.search rules };
}
