//! Who holds attributes, and each of them (RFC 5755): all keys must be there.
ghost use Rattle.std.specs.Prelude.{◌≡◌, IfOk};
ghost use Rattle.toml_format.specs.AttributeCertificate.{holder_values, holder_of, holder, entry_values, entry_of, entry};
ghost use Rattle.toml_format.specs.Tables.{table_of};

use crate::arcs::Arcs;
use crate::entries::Entries;
use crate::from_value::FromValue;
use crate::hex_bytes::HexBytes;
use crate::issuer::{GivenName, Name};
use crate::reason::Reason;
use crate::table_reader::{FromTable, TableReader, read_table};
use std::alloc::{AllocError, Global};
use toml::Value;

/// Who holds the attributes, by its certificate: the name of that one's issuer, and its serial number
/// (RFC 5755, 4.2.2).
#[derive(Drop)]
pub struct AttributeHolder {
    /// The name of the issuer of the holder's certificate. Required, so never `Name::Default`.
    pub name: Name,
    /// The serial number of the holder's certificate: the octets of a number that isn't negative,
    /// the highest first. Required.
    pub serial: HexBytes,
}

impl FromTable for AttributeHolder {
    type Keys = (((), GivenName), HexBytes);

    ghost keys = { holder_values };

    ghost of_keys = { holder_of };

    #[tactic(auto, unfolding(crate::specs::AttributeCertificate::holder_values))]
    fn keys<'a>(
        alloc: Global,
        entries: Entries<'a>,
    ) -> Result<TableReader<'a, Self::Keys>, AllocError> {
        let reader = TableReader::new(entries)
            .and(alloc)?
            .required(alloc, "serial")?;
        Ok(reader)
    }

    #[tactic(auto, unfolding(crate::specs::AttributeCertificate::holder_of))]
    fn of_keys(values: Self::Keys) -> Result<AttributeHolder, Reason> {
        let (((), given), serial) = values;
        let GivenName { name } = given;
        Ok(AttributeHolder { name, serial })
    }
}

impl FromValue for AttributeHolder {
    ghost format = { table_of holder };

    fn from_value(
        alloc: Global,
        value: &Value,
    ) -> Result<Result<AttributeHolder, Reason>, AllocError> {
        read_table(alloc, value)
    }
}

/// An attribute: its type, and its values as DER has them (RFC 5755, 4.2.7).
#[derive(Drop)]
pub struct AttributeEntry {
    /// The type. Required.
    pub oid: Arcs,
    /// The DER of the SET OF the values, with its header. Required.
    pub values: HexBytes,
}

impl FromTable for AttributeEntry {
    type Keys = (((), Arcs), HexBytes);

    ghost keys = { entry_values };

    ghost of_keys = { entry_of };

    #[tactic(auto, unfolding(crate::specs::AttributeCertificate::entry_values))]
    fn keys<'a>(
        alloc: Global,
        entries: Entries<'a>,
    ) -> Result<TableReader<'a, Self::Keys>, AllocError> {
        let reader = TableReader::new(entries)
            .required(alloc, "oid")?
            .required(alloc, "values")?;
        Ok(reader)
    }

    #[tactic(auto, unfolding(crate::specs::AttributeCertificate::entry_of))]
    fn of_keys(values: Self::Keys) -> Result<AttributeEntry, Reason> {
        let (((), oid), values) = values;
        Ok(AttributeEntry { oid, values })
    }
}

impl FromValue for AttributeEntry {
    ghost format = { table_of entry };

    fn from_value(
        alloc: Global,
        value: &Value,
    ) -> Result<Result<AttributeEntry, Reason>, AllocError> {
        read_table(alloc, value)
    }
}
