ghost use Rattle.std.specs.Prelude.{◌≡◌, true, not, Some, IfOk, IfErr};
ghost use Rattle.std.proofs.Common.{rules};
ghost use Rattle.rcgen_text.specs.Causes.{TakesMemory, Makes, MayAnswer, origin_of, when};
ghost use Rattle.asn1_core.specs.StringTypes.{scalar};
ghost use Rattle.rcgen_text.specs.Strings.{is_universal, utf32be, no_utf32};
ghost use Rattle.rcgen_text.specs.declared.error.Error.TheVariants.{OutOfMemory as NoMemory};

use crate::error::{Error, InvalidAsn1String};
use asn1_core::{OctetString, TryClone};
use std::alloc::{AllocError, Global};
use std::marker::Model;

/// Characters of Unicode, each in four octets, the first the highest (X.680, 41; X.690, 8.23.7).
/// RFC 5280, 4.1.2.4, keeps the type for names that already have it.
#[derive(Clone, Debug, PartialEq, Eq, Hash)]
pub struct UniversalString {
    octets: OctetString,
}

impl Model for UniversalString {
    ghost use Rattle.std.specs.Prelude.{◌≡◌, ℕ, List, true};
    ghost use Rattle.rcgen_text.specs.Strings.{is_universal};

    ghost Value = { List ℕ };

    ghost view = { λ s. s.octets };

    ghost invariant = { λ s. is_universal s.octets ≡ true };

    ghost inverse = { λ b. record { octets = b } };
}

impl Drop for UniversalString {
    fn drop(self) {
        let UniversalString { octets: _ } = self;
    }
}

fn is_scalar(code: u32) -> bool
    ensures { result ≡ scalar code }
{
    char::from_u32(code).is_some()
}

#[tactic(auto, using(crate::proofs::Units::four))]
fn is_universal(octets: &[u8]) -> bool
    ensures { result ≡ is_universal octets.now }
{
    let mut rest = octets;
    while let [a, b, c, d, after @ ..] = rest {
        if !is_scalar(u32::from_be_bytes([*a, *b, *c, *d])) {
            return false;
        }
        rest = after;
    }
    rest.is_empty()
}

fn utf32be(alloc: Global, text: &str) -> Result<Vec<u8>, AllocError>
    ensures { IfOk result (λ octets. octets.items ≡ utf32be text.now) }
{
    let mut octets = Vec::new(alloc);
    for character in text.chars() {
        let code = u32::from(character);
        octets.push((code / 0x100_0000) as u8)?;
        octets.push((code / 0x1_0000 % 0x100) as u8)?;
        octets.push((code / 0x100 % 0x100) as u8)?;
        octets.push((code % 0x100) as u8)?;
    }
    Ok(octets)
}

/// The error of octets that aren't a text.
fn invalid(alloc: Global) -> Error
    ensures { MayAnswer TakesMemory (Some no_utf32) (origin_of result) }
{
    match String::from_str(alloc, "Invalid UTF-32 encoding") {
        Ok(text) => Error::InvalidAsn1String(InvalidAsn1String::UniversalString(text)),
        Err(_) => Error::OutOfMemory,
    }
}

impl UniversalString {
    /// The text in UTF-32BE.
    #[tactic(auto, using(crate::proofs::Units::universal_text))]
    pub fn try_from_str(alloc: Global, text: &str) -> Result<UniversalString, Error>
        ensures text { IfOk result (λ made. made ≡ utf32be text.now) }
        ensures memory { IfErr result (λ e. e ≡ NoMemory) }
    {
        Ok(UniversalString {
            octets: OctetString::new(utf32be(alloc, text)?),
        })
    }

    /// The text of these octets, in UTF-32BE. `InvalidAsn1String` exactly where their number isn't
    /// a multiple of 4, or four of them aren't a character of Unicode.
    pub fn from_utf32be(alloc: Global, bytes: Vec<u8>) -> Result<UniversalString, Error>
        ensures { Makes TakesMemory (when (not (is_universal bytes.items)) no_utf32)
            (λ made. made ≡ bytes.items) result }
    {
        if !is_universal(bytes.as_slice()) {
            return Err(invalid(alloc));
        }
        Ok(UniversalString {
            octets: OctetString::new(bytes),
        })
    }

    /// The contents octets.
    pub fn as_bytes(&self) -> &[u8]
        ensures octets { result.now ≡ self.now }
        ensures valid { is_universal self.now ≡ true }
    {
        self.octets.as_slice()
    }
}

impl TryClone for UniversalString {
    ghost copies_are_equal = { Prim.search rules };
}
