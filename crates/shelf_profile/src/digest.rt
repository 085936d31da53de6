//! The hash function of a signature, where the signing key doesn't determine it.
ghost use Rattle.std.specs.Prelude.{◌≡◌, IfOk};
ghost use Rattle.toml_format.specs.Values.{text_as};
ghost use Rattle.shelf_profile.specs.Signing.{digest};

use std::alloc::{AllocError, Global};
use toml::Value;
use toml_format::{FromText, FromValue, Reason, text_as};

/// A hash function (FIPS 180-4).
#[derive(Clone, Copy, Debug, PartialEq, Eq)]
pub enum Digest {
    Sha256,
    Sha384,
    Sha512,
}

impl FromText for Digest {
    ghost from_text = { digest };

    #[tactic(auto, unfolding(crate::specs::Signing::digest))]
    fn from_text(_alloc: Global, text: &str) -> Result<Option<Digest>, AllocError> {
        Ok(match text {
            "sha256" => Some(Digest::Sha256),
            "sha384" => Some(Digest::Sha384),
            "sha512" => Some(Digest::Sha512),
            _ => None,
        })
    }
}

impl FromValue for Digest {
    ghost format = { text_as digest };

    fn from_value(alloc: Global, value: &Value) -> Result<Result<Digest, Reason>, AllocError> {
        text_as(alloc, value)
    }
}
