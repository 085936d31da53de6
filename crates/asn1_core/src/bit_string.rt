ghost use Rattle.std.specs.Prelude.{◌≡◌, true, false, Some, is_some, IfOk, MatchOption};
ghost use Rattle.std.proofs.Common.{rules};
ghost use Rattle.asn1_core.specs.Bits.{Bits, bits, are_bits, has_bit, bit_string_contents};

use crate::error::OutOfMemory;
use crate::octet_string::OctetString;
use crate::try_clone::TryClone;
use std::alloc::Global;
use std::marker::Model;

/// A BIT STRING (X.690, 8.6): its bytes, the first bit the highest of the first byte, and how many
/// bits at the end of the last byte are not of the string. Those are zero; zero bits before them are
/// kept. The order is that of the bytes, and then of how many bits are unused.
#[derive(Clone, Debug, PartialEq, Eq, PartialOrd, Ord, Hash)]
pub struct BitString {
    bytes: OctetString,
    unused: u8,
}

impl Model for BitString {
    ghost use Rattle.std.specs.Prelude.{◌≡◌, true};
    ghost use Rattle.asn1_core.specs.Bits.{Bits, bits, are_bits};

    ghost Value = { Bits };

    ghost view = { λ s. bits s.unused s.bytes };

    ghost invariant = { λ s. are_bits (bits s.unused s.bytes) ≡ true };

    ghost inverse = { λ b. record { bytes = b.bytes; unused = b.unused } };
}

impl Drop for BitString {
    fn drop(self) {
        let BitString {
            bytes: _,
            unused: _,
        } = self;
    }
}

fn are_bits(bytes: &[u8], unused: u8) -> bool
    ensures { result ≡ are_bits (bits unused bytes.now) }
{
    match bytes.last() {
        None => unused == 0,
        Some(last) => unused < 8 && *last % (1 << unused) == 0,
    }
}

impl BitString {
    /// The string of these bytes but for the last bits, `unused` many. None where `unused` is above
    /// 7, where it isn't 0 and there is no byte, and where one of the unused bits is set.
    pub fn new(bytes: Vec<u8>, unused: u8) -> Option<BitString>
        ensures { MatchOption result (are_bits (bits unused bytes.items) ≡ false) (λ s. (s ≡ bits unused bytes.items) × (are_bits s ≡ true)) }
    {
        if are_bits(&bytes, unused) {
            let bytes = OctetString::new(bytes);
            Some(BitString { bytes, unused })
        } else {
            None
        }
    }

    /// The bits from the first on, eight a byte, and the unused ones at the end.
    pub fn bytes(&self) -> &[u8]
        ensures bytes { result.now ≡ self.now.bytes }
        ensures valid { are_bits self.now ≡ true }
    {
        self.bytes.as_slice()
    }

    /// How many bits at the end of the last byte are not of the string: 0 to 7.
    pub fn unused(&self) -> u8
        ensures unused { result ≡ self.now.unused }
        ensures valid { are_bits self.now ≡ true }
    {
        self.unused
    }

    /// Whether bit `i` is set, where bit 0 is the highest of the first byte. False past the end.
    #[tactic(auto, using(crate::proofs::BitPlaces::bit_is))]
    pub fn bit(&self, i: usize) -> bool
        ensures { result ≡ has_bit self.now i }
    {
        match self.bytes().get(i / 8) {
            None => false,
            Some(byte) => (*byte >> (7 - i % 8)) % 2 == 1,
        }
    }

    /// The contents octets (X.690, 8.6, 11.2.1).
    #[tactic(auto, unfolding(crate::specs::Bits::bit_string_contents))]
    pub fn to_contents(&self, alloc: Global) -> Result<Vec<u8>, OutOfMemory>
        ensures { IfOk result (λ v. bit_string_contents.to self.now ≡ Some v.items) }
    {
        let mut contents = Vec::new(alloc);
        contents.push(self.unused)?;
        contents.extend_from_slice(self.bytes.as_slice())?;
        Ok(contents)
    }

    /// Whether these are the contents octets of a string (X.690, 8.6, 11.2.1).
    #[tactic(auto, unfolding(crate::specs::Bits::bit_string_contents))]
    pub fn is_contents(contents: &[u8]) -> bool
        ensures { result ≡ is_some (bit_string_contents.of contents.now) }
    {
        match contents {
            [] => false,
            [unused, bytes @ ..] => are_bits(bytes, *unused),
        }
    }

    /// The string that these are the contents octets of, if any (X.690, 8.6, 11.2.1).
    #[tactic(auto, unfolding(crate::specs::Bits::bit_string_contents))]
    pub fn from_contents(alloc: Global, contents: &[u8]) -> Result<Option<BitString>, OutOfMemory>
        ensures { IfOk result (λ o. o ≡ bit_string_contents.of contents.now) }
    {
        match contents {
            [] => Ok(None),
            [unused, bytes @ ..] => Ok(BitString::new(Vec::from_slice(alloc, bytes)?, *unused)),
        }
    }
}

impl TryClone for BitString {
    ghost copies_are_equal = { Prim.search rules };
}
