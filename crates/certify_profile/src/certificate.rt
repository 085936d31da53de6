//! The profile of a certificate, of whose keys `secret` alone must be there: what the certificate is to
//! say, the subject's key, and who issues it.
ghost use Rattle.std.specs.Prelude.{◌≡◌, IfOk};
ghost use Rattle.certify_profile.specs.Certificate.{certificate_values, certificate_of};

use crate::issuer::IssuerTable;
use std::alloc::{AllocError, Global};
use toml_format::{CertificateContent, Entries, FromTable, Reason, TableReader, Text};

/// The subject's key, what a certificate is to say, and who issues it.
#[derive(Drop)]
pub struct CertificateProfile {
    /// The secret of the subject's key. Required.
    pub secret: Text,
    /// What the certificate is to say.
    pub content: CertificateContent,
    /// Who issues the certificate; `None` where the subject is its own issuer.
    pub issuer: Option<IssuerTable>,
}

impl FromTable for CertificateProfile {
    type Keys = ((((), Text), CertificateContent), Option<IssuerTable>);

    ghost keys = { certificate_values };

    ghost of_keys = { certificate_of };

    #[tactic(auto, unfolding(crate::specs::Certificate::certificate_values))]
    fn keys<'a>(
        alloc: Global,
        entries: Entries<'a>,
    ) -> Result<TableReader<'a, Self::Keys>, AllocError> {
        let reader = TableReader::new(entries)
            .required(alloc, "secret")?
            .and(alloc)?
            .optional(alloc, "issuer")?;
        Ok(reader)
    }

    #[tactic(auto, unfolding(crate::specs::Certificate::certificate_of))]
    fn of_keys(values: Self::Keys) -> Result<CertificateProfile, Reason> {
        let ((((), secret), content), issuer) = values;
        Ok(CertificateProfile {
            secret,
            content,
            issuer,
        })
    }
}
