//! Reads TOML documents by formats: which keys a table has, and which values they take; and what
//! certificates and lists are to say, as keys.
#![tactic(auto)]

mod alt_name;
mod arcs;
mod attribute;
mod attribute_certificate;
mod ca;
mod certificate;
mod document;
mod entries;
mod from_value;
mod hex_bytes;
mod issuer;
mod key_id;
mod key_usage;
mod list;
mod number;
mod purpose;
mod reason;
mod restricted;
mod revocation_list;
mod separator;
mod subtree;
mod table_reader;
mod text;
mod time_text;
mod timestamp;
mod utc_instant;

pub use alt_name::AltName;
pub use arcs::Arcs;
pub use attribute::Attribute;
pub use attribute_certificate::{AttributeEntry, AttributeHolder};
pub use certificate::{CertificateContent, Constraints, ExtensionEntry};
pub use document::read_document;
pub use entries::Entries;
pub use from_value::{FromText, FromValue, text_as};
pub use hex_bytes::{HexBytes, from_hex};
pub use issuer::{GivenName, Name};
pub use key_id::KeyId;
pub use list::List;
pub use number::Number;
pub use purpose::Purpose;
pub use reason::Reason;
pub use revocation_list::{IssuingPoint, ListContent, Revoked};
pub use subtree::Subtree;
pub use table_reader::{FromChoice, FromTable, TableReader, read_chosen, read_fields, read_table};
pub use text::Text;
pub use timestamp::Timestamp;
pub use utc_instant::UtcInstant;
