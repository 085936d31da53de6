//! The profile of an attribute certificate (RFC 5755): all keys but `authority_key_id` must be
//! there.
ghost use Rattle.std.specs.Prelude.{◌≡◌, false, IfOk};
ghost use Rattle.certify_profile.specs.AttributeCertificate.{attribute_certificate_values, attribute_certificate_of};

use crate::issuer::IssuerTable;
use std::alloc::{AllocError, Global};
use toml_format::{
    AttributeEntry, AttributeHolder, Entries, FromTable, HexBytes, List, Reason, TableReader,
    Timestamp,
};

/// What an attribute certificate is to say, and who issues it.
#[derive(Drop)]
pub struct AttributeCertificateProfile {
    /// Who holds the attributes. Required.
    pub holder: AttributeHolder,
    /// The serial number: the octets of a number that isn't negative, the highest first. Required.
    pub serial: HexBytes,
    /// From when the attributes are held. Required.
    pub not_before: Timestamp,
    /// Until when the attributes are held. Required.
    pub not_after: Timestamp,
    /// The attributes, in order. Required.
    pub attributes: List<AttributeEntry>,
    /// Who issues the certificate. Required.
    pub issuer: IssuerTable,
    /// Whether the certificate contains the identifier of the issuer's key; by default `false`.
    pub authority_key_id: bool,
}

impl FromTable for AttributeCertificateProfile {
    type Keys = (
        (
            (
                (((((), AttributeHolder), HexBytes), Timestamp), Timestamp),
                List<AttributeEntry>,
            ),
            IssuerTable,
        ),
        bool,
    );

    ghost keys = { attribute_certificate_values };

    ghost of_keys = { attribute_certificate_of };

    #[tactic(auto, unfolding(crate::specs::AttributeCertificate::attribute_certificate_values))]
    fn keys<'a>(
        alloc: Global,
        entries: Entries<'a>,
    ) -> Result<TableReader<'a, Self::Keys>, AllocError> {
        let reader = TableReader::new(entries)
            .required(alloc, "holder")?
            .required(alloc, "serial")?
            .required(alloc, "not_before")?
            .required(alloc, "not_after")?
            .required(alloc, "attributes")?
            .required(alloc, "issuer")?
            .defaulted(alloc, "authority_key_id", false)?;
        Ok(reader)
    }

    #[tactic(auto, unfolding(crate::specs::AttributeCertificate::attribute_certificate_of))]
    fn of_keys(values: Self::Keys) -> Result<AttributeCertificateProfile, Reason> {
        let (values, authority_key_id) = values;
        let (values, issuer) = values;
        let (values, attributes) = values;
        let (values, not_after) = values;
        let (values, not_before) = values;
        let (values, serial) = values;
        let ((), holder) = values;
        Ok(AttributeCertificateProfile {
            holder,
            serial,
            not_before,
            not_after,
            attributes,
            issuer,
            authority_key_id,
        })
    }
}
