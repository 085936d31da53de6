//! How the signing key signs.
ghost use Rattle.std.specs.Prelude.{◌≡◌, IfOk};
ghost use Rattle.shelf_profile.specs.Signing.{signing_values, signing_of};

use crate::digest::Digest;
use crate::padding::Padding;
use std::alloc::{AllocError, Global};
use toml_format::{Entries, FromTable, Reason, TableReader};

/// How the signing key signs, where the key doesn't determine it.
#[derive(Clone, Copy, Debug, PartialEq, Eq)]
pub struct Signing {
    /// The hash function: of an RSA key, by default SHA-256, and of one on P-521, by default SHA-512.
    pub digest: Option<Digest>,
    /// The padding of an RSA key's signatures, by default PKCS #1 v1.5; of one of id-RSASSA-PSS, PSS.
    pub padding: Option<Padding>,
}

impl FromTable for Signing {
    type Keys = (((), Option<Digest>), Option<Padding>);

    ghost keys = { signing_values };

    ghost of_keys = { signing_of };

    #[tactic(auto, unfolding(crate::specs::Signing::signing_values))]
    fn keys<'a>(
        alloc: Global,
        entries: Entries<'a>,
    ) -> Result<TableReader<'a, Self::Keys>, AllocError> {
        let reader = TableReader::new(entries)
            .optional(alloc, "digest")?
            .optional(alloc, "padding")?;
        Ok(reader)
    }

    #[tactic(auto, unfolding(crate::specs::Signing::signing_of))]
    fn of_keys(values: Self::Keys) -> Result<Signing, Reason> {
        let (((), digest), padding) = values;
        Ok(Signing { digest, padding })
    }
}
