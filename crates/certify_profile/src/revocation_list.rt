//! The profile of a revocation list (RFC 5280, 5): `issuer`, both times and `number` must be there.
ghost use Rattle.std.specs.Prelude.{◌≡◌, IfOk};
ghost use Rattle.certify_profile.specs.RevocationList.{list_values, list_of};

use crate::issuer::IssuerTable;
use std::alloc::{AllocError, Global};
use toml_format::{Entries, FromTable, ListContent, Reason, TableReader};

/// What a revocation list is to say, and who issues it.
#[derive(Drop)]
pub struct ListProfile {
    /// Who issues the list. Required.
    pub issuer: IssuerTable,
    /// What the list is to say.
    pub content: ListContent,
}

impl FromTable for ListProfile {
    type Keys = (((), IssuerTable), ListContent);

    ghost keys = { list_values };

    ghost of_keys = { list_of };

    #[tactic(auto, unfolding(crate::specs::RevocationList::list_values))]
    fn keys<'a>(
        alloc: Global,
        entries: Entries<'a>,
    ) -> Result<TableReader<'a, Self::Keys>, AllocError> {
        let reader = TableReader::new(entries)
            .required(alloc, "issuer")?
            .and(alloc)?;
        Ok(reader)
    }

    #[tactic(auto, unfolding(crate::specs::RevocationList::list_of))]
    fn of_keys(values: Self::Keys) -> Result<ListProfile, Reason> {
        let (((), issuer), content) = values;
        Ok(ListProfile { issuer, content })
    }
}
