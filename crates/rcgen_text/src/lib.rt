//! What rcgen's parameters are made of and needs no DER: texts, types of attributes, distinguished
//! names, alternative names, addresses and serial numbers, the words of extensions and revocation
//! lists, and the errors of issuing.
#![tactic(auto)]

mod basic_constraints;
mod cidr;
mod crl_scope;
mod date_time;
mod distinguished_name;
mod dn_type;
mod dn_value;
mod error;
mod ip;
mod key_usage;
mod revocation_reason;
mod san;
mod serial_number;
pub mod string;

pub use basic_constraints::{BasicConstraints, IsCa};
pub use cidr::CidrSubnet;
pub use crl_scope::CrlScope;
pub use date_time::date_time_ymd;
pub use distinguished_name::{DistinguishedName, DistinguishedNameIterator};
pub use dn_type::{DnType, custom_type_is_another, type_keeps_arcs, types_are_same};
pub use dn_value::DnValue;
pub use error::{Error, InvalidAsn1String};
pub use ip::IpAddr;
pub use key_usage::KeyUsagePurpose;
pub use revocation_reason::RevocationReason;
pub use san::{OtherNameValue, SanType};
pub use serial_number::SerialNumber;
