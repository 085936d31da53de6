//! The padding of an RSA signature, where the signing key doesn't determine it.
ghost use Rattle.std.specs.Prelude.{◌≡◌, IfOk};
ghost use Rattle.toml_format.specs.Values.{text_as};
ghost use Rattle.shelf_profile.specs.Signing.{padding};

use std::alloc::{AllocError, Global};
use toml::Value;
use toml_format::{FromText, FromValue, Reason, text_as};

/// The padding of an RSA signature (RFC 8017, 8).
#[derive(Clone, Copy, Debug, PartialEq, Eq)]
pub enum Padding {
    /// RSASSA-PKCS1-v1_5 (RFC 8017, 8.2).
    Pkcs1,
    /// RSASSA-PSS (RFC 8017, 8.1), with MGF1 of the same hash function and a salt as long as a digest.
    Pss,
}

impl FromText for Padding {
    ghost from_text = { padding };

    #[tactic(auto, unfolding(crate::specs::Signing::padding))]
    fn from_text(_alloc: Global, text: &str) -> Result<Option<Padding>, AllocError> {
        Ok(match text {
            "pkcs1" => Some(Padding::Pkcs1),
            "pss" => Some(Padding::Pss),
            _ => None,
        })
    }
}

impl FromValue for Padding {
    ghost format = { text_as padding };

    fn from_value(alloc: Global, value: &Value) -> Result<Result<Padding, Reason>, AllocError> {
        text_as(alloc, value)
    }
}
