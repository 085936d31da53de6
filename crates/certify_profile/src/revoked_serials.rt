//! The profile of a lookup in a revocation list: `list` and `serials` must be there.
ghost use Rattle.std.specs.Prelude.{◌≡◌, IfOk};
ghost use Rattle.certify_profile.specs.RevokedSerials.{revoked_values, revoked_of};

use crate::hex_input::HexInput;
use std::alloc::{AllocError, Global};
use toml_format::{Entries, FromTable, List, Reason, TableReader};

/// A revocation list, and the serial numbers that are looked up in it.
#[derive(Drop)]
pub struct RevokedProfile {
    /// The DER of the revocation list (RFC 5280, 5.1). Required.
    pub list: HexInput,
    /// The serial numbers, each the octets of a number that isn't negative, the highest first; no
    /// octets are the number zero. Required.
    pub serials: List<HexInput>,
}

impl FromTable for RevokedProfile {
    type Keys = (((), HexInput), List<HexInput>);

    ghost keys = { revoked_values };

    ghost of_keys = { revoked_of };

    #[tactic(auto, unfolding(crate::specs::RevokedSerials::revoked_values))]
    fn keys<'a>(
        alloc: Global,
        entries: Entries<'a>,
    ) -> Result<TableReader<'a, Self::Keys>, AllocError> {
        let reader = TableReader::new(entries)
            .required(alloc, "list")?
            .required(alloc, "serials")?;
        Ok(reader)
    }

    #[tactic(auto, unfolding(crate::specs::RevokedSerials::revoked_of))]
    fn of_keys(values: Self::Keys) -> Result<RevokedProfile, Reason> {
        let (((), list), serials) = values;
        Ok(RevokedProfile { list, serials })
    }
}
