//! The order of an attribute certificate (RFC 5755).
ghost use Rattle.std.specs.Prelude.{◌≡◌, IfOk};
ghost use Rattle.shelf_profile.specs.AttributeCertificate.{attribute_of, attribute_values};

use crate::serial::{SerialOctets, is_serial};
use crate::signing::Signing;
use crate::validity::Validity;
use std::alloc::{AllocError, Global};
use toml_format::{
    AttributeEntry, AttributeHolder, Entries, FromTable, HexBytes, List, Reason, TableReader,
};

/// What an attribute certificate is to say.
#[derive(Drop)]
pub struct AttributeOrder {
    /// How it is signed.
    pub signing: Signing,
    /// From when until when the attributes are held (RFC 5755, 4.2.6).
    pub validity: Validity,
    /// Who holds them, by its certificate (RFC 5755, 4.2.2), whose serial number is one as certificates have
    /// it (RFC 5280, 4.1.2.2). Required.
    pub holder: AttributeHolder,
    /// The serial number (RFC 5755, 4.2.5): 1 to 20 octets of a positive number, the highest first.
    /// Required.
    pub serial: HexBytes,
    /// The attributes, in order. Required.
    pub attributes: List<AttributeEntry>,
    /// Whether the certificate contains the identifier of the issuer's key (RFC 5755, 4.3.3); by
    /// default `true`.
    pub authority_key_id: bool,
}

impl FromTable for AttributeOrder {
    type Keys = (
        (
            (((((), Signing), Validity), AttributeHolder), SerialOctets),
            List<AttributeEntry>,
        ),
        bool,
    );

    ghost keys = { attribute_values };

    ghost of_keys = { attribute_of };

    #[tactic(auto, unfolding(crate::specs::AttributeCertificate::attribute_values))]
    fn keys<'a>(
        alloc: Global,
        entries: Entries<'a>,
    ) -> Result<TableReader<'a, Self::Keys>, AllocError> {
        let reader = TableReader::new(entries)
            .and(alloc)?
            .and(alloc)?
            .required(alloc, "holder")?
            .required(alloc, "serial")?
            .required(alloc, "attributes")?
            .defaulted(alloc, "authority_key_id", true)?;
        Ok(reader)
    }

    #[tactic(auto, unfolding(crate::specs::AttributeCertificate::attribute_of))]
    fn of_keys(values: Self::Keys) -> Result<AttributeOrder, Reason> {
        let (values, authority_key_id) = values;
        let (values, attributes) = values;
        let (values, serial) = values;
        let (values, holder) = values;
        let (((), signing), validity) = values;
        if !is_serial(holder.serial.as_slice()) {
            return Err(Reason::WrongValue);
        }
        Ok(AttributeOrder {
            signing,
            validity,
            holder,
            serial: serial.into_hex(),
            attributes,
            authority_key_id,
        })
    }
}
