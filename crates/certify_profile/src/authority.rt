//! The profile of an authority: `issuer` and `commands` must be there, `limit` may be.
ghost use Rattle.std.specs.Prelude.{◌≡◌, IfOk};
ghost use Rattle.certify_profile.specs.Authority.{authority_values, authority_of};

use crate::authority_command::AuthorityCommand;
use crate::issuer::IssuerTable;
use std::alloc::{AllocError, Global};
use toml_format::{Entries, FromTable, List, Number, Reason, TableReader};

/// How many certificates an authority issues at most, and how many lists.
pub type Limit = Number<1, 100000>;

/// An authority, and the commands to it, in order.
#[derive(Drop)]
pub struct AuthorityProfile {
    /// Who issues the certificates and the lists. Required.
    pub issuer: IssuerTable,
    /// How many certificates are issued at most, and how many lists; by default 100000.
    pub limit: Limit,
    /// The commands, in order. Required.
    pub commands: List<AuthorityCommand>,
}

impl FromTable for AuthorityProfile {
    type Keys = ((((), IssuerTable), Limit), List<AuthorityCommand>);

    ghost keys = { authority_values };

    ghost of_keys = { authority_of };

    #[tactic(auto, unfolding(crate::specs::Authority::authority_values))]
    fn keys<'a>(
        alloc: Global,
        entries: Entries<'a>,
    ) -> Result<TableReader<'a, Self::Keys>, AllocError> {
        let reader = TableReader::new(entries)
            .required(alloc, "issuer")?
            .defaulted(alloc, "limit", Number::new(100000))?
            .required(alloc, "commands")?;
        Ok(reader)
    }

    #[tactic(auto, unfolding(crate::specs::Authority::authority_of))]
    fn of_keys(values: Self::Keys) -> Result<AuthorityProfile, Reason> {
        let ((((), issuer), limit), commands) = values;
        Ok(AuthorityProfile {
            issuer,
            limit,
            commands,
        })
    }
}
