//! The profile of a certification path: `chain`, `anchor`, `at` and `secrets` must be there.
ghost use Rattle.std.specs.Prelude.{◌≡◌, IfOk};
ghost use Rattle.certify_profile.specs.Check.{check_values, check_of};

use crate::hex_input::{HexInput, JoinedHex};
use std::alloc::{AllocError, Global};
use toml_format::{Entries, FromTable, List, Reason, TableReader, Text, UtcInstant};

/// A certification path that is checked (RFC 5280, 6.1).
#[derive(Drop)]
pub struct CheckProfile {
    /// The DER of the certificates one after another, from the one that is asked about to the one
    /// that the anchor issued. Required.
    pub chain: JoinedHex,
    /// The DER of the trust anchor's certificate. Required.
    pub anchor: HexInput,
    /// The time at which the path is to be valid. Required.
    pub at: UtcInstant,
    /// The secrets of the keys that may have signed. Required.
    pub secrets: List<Text>,
}

impl FromTable for CheckProfile {
    type Keys = (((((), JoinedHex), HexInput), UtcInstant), List<Text>);

    ghost keys = { check_values };

    ghost of_keys = { check_of };

    #[tactic(auto, unfolding(crate::specs::Check::check_values))]
    fn keys<'a>(
        alloc: Global,
        entries: Entries<'a>,
    ) -> Result<TableReader<'a, Self::Keys>, AllocError> {
        let reader = TableReader::new(entries)
            .required(alloc, "chain")?
            .required(alloc, "anchor")?
            .required(alloc, "at")?
            .required(alloc, "secrets")?;
        Ok(reader)
    }

    #[tactic(auto, unfolding(crate::specs::Check::check_of))]
    fn of_keys(values: Self::Keys) -> Result<CheckProfile, Reason> {
        let (((((), chain), anchor), at), secrets) = values;
        Ok(CheckProfile {
            chain,
            anchor,
            at,
            secrets,
        })
    }
}
