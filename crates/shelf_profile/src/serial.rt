//! Serial numbers of certificates (RFC 5280, 4.1.2.2), and numbers of revocation lists (5.2.3).
ghost use Rattle.std.specs.Prelude.{◌≡◌, ◌==◌, true, not, IfOk};
ghost use Rattle.std.specs.List.{list_any};
ghost use Rattle.toml_format.specs.Values.{text_as};
ghost use Rattle.asn1_core.specs.Arcs.{are_below};
ghost use Rattle.asn1_core.specs.Twos.{without_zeros};
ghost use Rattle.shelf_profile.specs.Serial.{is_less, is_number, is_serial, serial};

use std::alloc::{AllocError, Global};
use std::marker::Model;
use toml::Value;
use toml_format::{FromText, FromValue, HexBytes, Reason, from_hex, text_as};

/// The octets of a serial number, the highest first: 1 to 20 of a positive number, whose INTEGER has
/// no more than 20.
pub struct SerialOctets {
    bytes: HexBytes,
}

impl Model for SerialOctets {
    ghost use Rattle.std.specs.Prelude.{ℕ, List};

    ghost Value = { List ℕ };

    ghost view = { λ s. s.bytes };
}

impl Drop for SerialOctets {
    fn drop(self) {
        let SerialOctets { bytes: _ } = self;
    }
}

impl SerialOctets {
    /// The octets, without a copy.
    pub fn into_hex(self) -> HexBytes
        ensures { result ≡ self }
    {
        let SerialOctets { bytes } = self;
        bytes
    }
}

/// Whether some octet isn't zero.
fn is_positive(octets: &[u8]) -> bool
    ensures { result ≡ list_any (λ b. not (b == 0)) octets.now }
{
    octets.iter().any(|octet| *octet != 0)
}

/// Whether the octets are those of a number, the highest first, whose INTEGER has 1 to 20: as the number
/// of a revocation list may have (RFC 5280, 5.2.3).
pub fn is_number(octets: &[u8]) -> bool
    ensures { result ≡ is_number octets.now }
{
    let [first, ..] = octets else {
        return false;
    };
    octets.len() < 20 || octets.len() == 20 && *first < 128
}

/// Whether they are such a number and positive (RFC 5280, 4.1.2.2).
pub(crate) fn is_serial(octets: &[u8]) -> bool
    ensures { result ≡ is_serial octets.now }
{
    is_number(octets) && is_positive(octets)
}

/// A law: what is read of a slice of octets is known to be octets.
fn are_octets(octets: &[u8])
    ensures { are_below 256 octets.now ≡ true }
{
    if !octets.is_empty() {
        let _rest = &octets[1..];
    }
}

fn without_zeros(octets: &[u8]) -> &[u8]
    ensures { result.now ≡ without_zeros octets.now }
{
    let mut rest = octets;
    while let [0, after @ ..] = rest {
        rest = after;
    }
    rest
}

/// Whether the octets are those of a lower number than the others, the highest first.
pub fn is_less(a: &[u8], b: &[u8]) -> bool
    ensures { result ≡ is_less a.now b.now }
{
    let (a, b) = (without_zeros(a), without_zeros(b));
    are_octets(a);
    are_octets(b);
    a.len().cmp(&b.len()).then(a.cmp(b)).is_lt()
}

impl FromText for SerialOctets {
    ghost from_text = { serial };

    #[tactic(auto, unfolding(crate::specs::Serial::serial))]
    fn from_text(alloc: Global, text: &str) -> Result<Option<SerialOctets>, AllocError> {
        match from_hex(alloc, text.as_bytes())? {
            Some(bytes) => Ok(if is_serial(bytes.as_slice()) {
                Some(SerialOctets { bytes })
            } else {
                None
            }),
            None => Ok(None),
        }
    }
}

impl FromValue for SerialOctets {
    ghost format = { text_as serial };

    fn from_value(
        alloc: Global,
        value: &Value,
    ) -> Result<Result<SerialOctets, Reason>, AllocError> {
        text_as(alloc, value)
    }
}
