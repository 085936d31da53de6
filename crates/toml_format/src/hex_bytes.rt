//! Bytes as text: an even number of hexadecimal digits of either case, or none.
ghost use Rattle.std.specs.Prelude.{◌≡◌, IfOk};
ghost use Rattle.toml_format.specs.Values.{text_as};
ghost use Rattle.toml_format.specs.Hex.{from_hex};

use crate::from_value::{FromText, FromValue, text_as};
use crate::reason::Reason;
use hex::FromHexError;
use std::alloc::{AllocError, Global};
use std::marker::Model;
use toml::Value;

/// Bytes that are written in hexadecimal digits.
pub struct HexBytes {
    bytes: Vec<u8>,
}

impl Model for HexBytes {
    ghost use Rattle.std.specs.Prelude.{ℕ, List};

    ghost Value = { List ℕ };

    ghost view = { λ h. h.bytes.items };
}

impl Drop for HexBytes {
    fn drop(self) {
        let HexBytes { bytes: _ } = self;
    }
}

impl HexBytes {
    /// The bytes.
    pub fn as_slice(&self) -> &[u8]
        ensures { result.now ≡ self.now }
    {
        self.bytes.as_slice()
    }

    /// The bytes, without a copy.
    pub fn into_vec(self) -> Vec<u8>
        ensures { result.items ≡ self }
    {
        let HexBytes { bytes } = self;
        bytes
    }
}

/// The bytes that pairs of hexadecimal digits write, of either case.
#[tactic(auto, unfolding(crate::specs::Hex::from_hex))]
pub fn from_hex(alloc: Global, text: &[u8]) -> Result<Option<HexBytes>, AllocError>
    ensures { IfOk result (λ found. found ≡ from_hex text.now) }
{
    match hex::decode(alloc, text) {
        Ok(bytes) => Ok(Some(HexBytes { bytes })),
        Err(FromHexError::OutOfMemory) => Err(AllocError),
        Err(_) => Ok(None),
    }
}

impl FromText for HexBytes {
    ghost from_text = { from_hex };

    fn from_text(alloc: Global, text: &str) -> Result<Option<HexBytes>, AllocError> {
        from_hex(alloc, text.as_bytes())
    }
}

impl FromValue for HexBytes {
    ghost format = { text_as from_hex };

    fn from_value(alloc: Global, value: &Value) -> Result<Result<HexBytes, Reason>, AllocError> {
        text_as(alloc, value)
    }
}
