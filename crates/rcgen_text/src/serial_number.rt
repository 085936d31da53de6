ghost use Rattle.std.specs.Prelude.{◌≡◌, ◌<◌, length, Some, IfOk, IfErr};
ghost use Rattle.std.specs.Int.{w64, to_be_bytes};
ghost use Rattle.std.specs.Char.{digit_char};
ghost use Rattle.std.proofs.Common.{rules};
ghost use Rattle.rcgen_text.specs.Serials.{two_digits, serial_text};
ghost use Rattle.rcgen_text.specs.declared.error.Error.TheVariants.{OutOfMemory as NoMemory};

use crate::error::Error;
use asn1_core::{OctetString, TryClone};
use std::alloc::Global;
use std::fmt;
use std::marker::Model;

/// The serial number of a certificate, as the big-endian bytes of a number that isn't negative
/// (RFC 5280, 4.1.2.2). Leading zero bytes are kept here, and not written.
#[derive(Clone, Debug, PartialEq, Eq, Hash)]
pub struct SerialNumber {
    octets: OctetString,
}

impl Model for SerialNumber {
    ghost use Rattle.std.specs.Prelude.{ℕ, List};

    ghost Value = { List ℕ };

    ghost view = { λ s. s.octets };

    ghost inverse = { λ b. record { octets = b } };
}

impl Drop for SerialNumber {
    fn drop(self) {
        let SerialNumber { octets: _ } = self;
    }
}

impl SerialNumber {
    /// A copy of the bytes.
    pub fn from_slice(alloc: Global, bytes: &[u8]) -> Result<SerialNumber, Error>
        ensures value { IfOk result (λ s. s ≡ bytes.now) }
        ensures memory { IfErr result (λ e. e ≡ NoMemory) }
    {
        Ok(SerialNumber::from_vec(Vec::from_slice(alloc, bytes)?))
    }

    /// The bytes as they are.
    pub fn from_vec(bytes: Vec<u8>) -> SerialNumber
        ensures { result ≡ bytes.items }
    {
        SerialNumber {
            octets: OctetString::new(bytes),
        }
    }

    /// All eight bytes of the number, the highest first.
    pub fn from_u64(alloc: Global, n: u64) -> Result<SerialNumber, Error>
        ensures value { IfOk result (λ s. s ≡ to_be_bytes w64 n) }
        ensures memory { IfErr result (λ e. e ≡ NoMemory) }
    {
        SerialNumber::from_slice(alloc, &n.to_be_bytes())
    }

    /// A copy of the bytes, as they were given.
    pub fn to_bytes(&self, alloc: Global) -> Result<Vec<u8>, Error>
        ensures value { IfOk result (λ bytes. bytes.items ≡ self.now) }
        ensures memory { IfErr result (λ e. e ≡ NoMemory) }
    {
        Ok(Vec::from_slice(alloc, self.as_slice())?)
    }

    /// The bytes as they were given.
    pub fn as_slice(&self) -> &[u8]
        ensures { result.now ≡ self.now }
    {
        self.octets.as_slice()
    }

    /// The number of bytes.
    pub fn len(&self) -> usize
        ensures { result ≡ length self.now }
    {
        self.as_slice().len()
    }
}

impl TryClone for SerialNumber {
    ghost copies_are_equal = { Prim.search rules };
}

/// The character of a hex digit, in lower case.
fn digit_char(digit: u8) -> char
    requires { digit < 16 }
    ensures { result ≡ digit_char digit }
{
    if digit < 10 {
        char::from(b'0' + digit)
    } else {
        char::from(b'a' + (digit - 10))
    }
}

/// A byte in two lower-case hex digits.
#[derive(Clone, Copy)]
struct HexByte(u8);

impl fmt::Display for HexByte {
    ghost output = { λ b. Some (two_digits b.0) };

    #[tactic(auto, using(crate::proofs::HexDigits::writing))]
    fn fmt<W: fmt::Write>(&self, f: &mut fmt::Formatter<W>) -> fmt::Result {
        f.write_char(digit_char(self.0 / 16))?;
        f.write_char(digit_char(self.0 % 16))
    }
}

/// Two lower-case hex digits a byte, joined by colons.
impl fmt::Display for SerialNumber {
    ghost output = { λ s. Some (serial_text s) };

    fn fmt<W: fmt::Write>(&self, f: &mut fmt::Formatter<W>) -> fmt::Result {
        if let [first, rest @ ..] = self.as_slice() {
            write!(f, "{}", HexByte(*first))?;
            for byte in rest {
                write!(f, ":{}", HexByte(*byte))?;
            }
        }
        Ok(())
    }
}
