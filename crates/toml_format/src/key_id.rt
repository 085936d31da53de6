//! How a key is identified: by `sha256`, `sha384` or `sha512`, or by `hex:` and bytes in hex.
ghost use Rattle.std.specs.Prelude.{◌≡◌, IfOk};
ghost use Rattle.toml_format.specs.Values.{text_as};
ghost use Rattle.toml_format.specs.KeyId.{key_id};

use crate::from_value::{FromText, FromValue, text_as};
use crate::hex_bytes::{HexBytes, from_hex};
use crate::reason::Reason;
use std::alloc::{AllocError, Global};
use toml::Value;

/// How the identifier of a key is made: from the digest of its key info, or as these bytes.
#[derive(Drop)]
pub enum KeyId {
    /// By SHA-256.
    Sha256,
    /// By SHA-384.
    Sha384,
    /// By SHA-512.
    Sha512,
    /// These bytes.
    PreSpecified(HexBytes),
}

impl FromText for KeyId {
    ghost from_text = { key_id };

    #[tactic(auto, unfolding(crate::specs::KeyId::key_id))]
    fn from_text(alloc: Global, text: &str) -> Result<Option<KeyId>, AllocError> {
        if let Some(digits) = text.as_bytes().strip_prefix(b"hex:") {
            return match from_hex(alloc, digits)? {
                Some(bytes) => Ok(Some(KeyId::PreSpecified(bytes))),
                None => Ok(None),
            };
        }
        match text {
            "sha256" => Ok(Some(KeyId::Sha256)),
            "sha384" => Ok(Some(KeyId::Sha384)),
            "sha512" => Ok(Some(KeyId::Sha512)),
            _ => Ok(None),
        }
    }
}

impl FromValue for KeyId {
    ghost format = { text_as key_id };

    fn from_value(alloc: Global, value: &Value) -> Result<Result<KeyId, Reason>, AllocError> {
        text_as(alloc, value)
    }
}
