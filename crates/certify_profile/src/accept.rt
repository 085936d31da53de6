//! The profile of a request that is accepted: `request`, `requester` and `issuer` must be there.
ghost use Rattle.std.specs.Prelude.{◌≡◌, IfOk};
ghost use Rattle.certify_profile.specs.Accept.{accept_values, accept_of};

use crate::hex_input::HexInput;
use crate::issuer::IssuerTable;
use std::alloc::{AllocError, Global};
use toml_format::{Entries, FromTable, Reason, TableReader, Text};

/// A request, who answers for it, and who issues its certificate.
#[derive(Drop)]
pub struct AcceptProfile {
    /// The DER of the request (RFC 2986). Required.
    pub request: HexInput,
    /// The secret of the key that is to have signed the request. Required.
    pub requester: Text,
    /// Who issues the certificate. Required.
    pub issuer: IssuerTable,
}

impl FromTable for AcceptProfile {
    type Keys = ((((), HexInput), Text), IssuerTable);

    ghost keys = { accept_values };

    ghost of_keys = { accept_of };

    #[tactic(auto, unfolding(crate::specs::Accept::accept_values))]
    fn keys<'a>(
        alloc: Global,
        entries: Entries<'a>,
    ) -> Result<TableReader<'a, Self::Keys>, AllocError> {
        let reader = TableReader::new(entries)
            .required(alloc, "request")?
            .required(alloc, "requester")?
            .required(alloc, "issuer")?;
        Ok(reader)
    }

    #[tactic(auto, unfolding(crate::specs::Accept::accept_of))]
    fn of_keys(values: Self::Keys) -> Result<AcceptProfile, Reason> {
        let ((((), request), requester), issuer) = values;
        Ok(AcceptProfile {
            request,
            requester,
            issuer,
        })
    }
}
