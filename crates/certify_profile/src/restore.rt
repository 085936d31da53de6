//! The profile of an issuer that is restored: `secret` and `certificate` must be there.
ghost use Rattle.std.specs.Prelude.{◌≡◌, IfOk};
ghost use Rattle.certify_profile.specs.Restore.{restore_values, restore_of};

use crate::hex_input::HexInput;
use std::alloc::{AllocError, Global};
use toml_format::{Entries, FromTable, Reason, TableReader, Text};

/// A certificate, and the secret of its key: an issuer that is restored from both.
#[derive(Drop)]
pub struct RestoreProfile {
    /// The secret of the issuer's key. Required.
    pub secret: Text,
    /// The DER of the issuer's certificate (RFC 5280, 4.1). Required.
    pub certificate: HexInput,
}

impl FromTable for RestoreProfile {
    type Keys = (((), Text), HexInput);

    ghost keys = { restore_values };

    ghost of_keys = { restore_of };

    #[tactic(auto, unfolding(crate::specs::Restore::restore_values))]
    fn keys<'a>(
        alloc: Global,
        entries: Entries<'a>,
    ) -> Result<TableReader<'a, Self::Keys>, AllocError> {
        let reader = TableReader::new(entries)
            .required(alloc, "secret")?
            .required(alloc, "certificate")?;
        Ok(reader)
    }

    #[tactic(auto, unfolding(crate::specs::Restore::restore_of))]
    fn of_keys(values: Self::Keys) -> Result<RestoreProfile, Reason> {
        let (((), secret), certificate) = values;
        Ok(RestoreProfile {
            secret,
            certificate,
        })
    }
}
