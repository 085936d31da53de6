//! Where more is found about the issuer, and its policies.
ghost use Rattle.std.specs.Prelude.{◌≡◌, IfOk};
ghost use Rattle.shelf_profile.specs.Access.{access_of, access_values};

use std::alloc::{AllocError, Global};
use toml_format::{Arcs, Entries, FromTable, List, Reason, TableReader, Text};

/// Where the issuer's responders and certificates are, and the policies that the certificate is
/// issued under.
#[derive(Drop)]
pub struct Access {
    /// The URIs of OCSP responders (RFC 5280, 4.2.2.1), in order; by default none.
    pub ocsp: List<Text>,
    /// The URIs of the issuer's certificates (RFC 5280, 4.2.2.1), in order; by default none.
    pub ca_issuers: List<Text>,
    /// The arcs of the policies (RFC 5280, 4.2.1.4), in order; by default none.
    pub policies: List<Arcs>,
}

impl FromTable for Access {
    type Keys = ((((), List<Text>), List<Text>), List<Arcs>);

    ghost keys = { access_values };

    ghost of_keys = { access_of };

    #[tactic(auto, unfolding(crate::specs::Access::access_values))]
    fn keys<'a>(
        alloc: Global,
        entries: Entries<'a>,
    ) -> Result<TableReader<'a, Self::Keys>, AllocError> {
        let reader = TableReader::new(entries)
            .listed(alloc, "ocsp")?
            .listed(alloc, "ca_issuers")?
            .listed(alloc, "policies")?;
        Ok(reader)
    }

    #[tactic(auto, unfolding(crate::specs::Access::access_of))]
    fn of_keys(values: Self::Keys) -> Result<Access, Reason> {
        let ((((), ocsp), ca_issuers), policies) = values;
        Ok(Access {
            ocsp,
            ca_issuers,
            policies,
        })
    }
}
