//! Issuers, of which `secret` must be there.
ghost use Rattle.std.specs.Prelude.{◌≡◌, IfOk};
ghost use Rattle.certify_profile.specs.Issuer.{issuer_values, issuer_of, issuer};
ghost use Rattle.toml_format.specs.Tables.{table_of};

use rcgen_text::KeyUsagePurpose;
use std::alloc::{AllocError, Global};
use toml::Value;
use toml_format::{
    Entries, FromTable, FromValue, KeyId, List, Name, Reason, TableReader, Text, read_table,
};

/// Who issues: the secret of its key, its name, what its key may be used for, and how the key's
/// identifier is made.
#[derive(Drop)]
pub struct IssuerTable {
    /// The secret of its key. Required.
    pub secret: Text,
    /// Its name; by default `Name::Default`.
    pub name: Name,
    /// What its key is for; by default nothing is said.
    pub key_usages: List<KeyUsagePurpose>,
    /// How the identifier of its key is made; by default `KeyId::Sha256`.
    pub key_id: KeyId,
}

impl FromTable for IssuerTable {
    type Keys = (((((), Text), Name), List<KeyUsagePurpose>), KeyId);

    ghost keys = { issuer_values };

    ghost of_keys = { issuer_of };

    #[tactic(auto, unfolding(crate::specs::Issuer::issuer_values))]
    fn keys<'a>(
        alloc: Global,
        entries: Entries<'a>,
    ) -> Result<TableReader<'a, Self::Keys>, AllocError> {
        let reader = TableReader::new(entries)
            .required(alloc, "secret")?
            .and(alloc)?
            .listed(alloc, "key_usages")?
            .defaulted(alloc, "key_id", KeyId::Sha256)?;
        Ok(reader)
    }

    #[tactic(auto, unfolding(crate::specs::Issuer::issuer_of))]
    fn of_keys(values: Self::Keys) -> Result<IssuerTable, Reason> {
        let (((((), secret), name), key_usages), key_id) = values;
        Ok(IssuerTable {
            secret,
            name,
            key_usages,
            key_id,
        })
    }
}

impl FromValue for IssuerTable {
    ghost format = { table_of issuer };

    fn from_value(alloc: Global, value: &Value) -> Result<Result<IssuerTable, Reason>, AllocError> {
        read_table(alloc, value)
    }
}
