//! Reads the orders of what a key that is held elsewhere is to sign: certificates, requests, revocation lists
//! and attribute certificates.
#![tactic(auto)]

mod access;
mod attribute_certificate;
mod ca;
mod certificate;
mod digest;
mod extension_id;
mod order;
mod padding;
mod preset;
mod request;
mod request_use;
mod revocation_list;
mod serial;
mod signing;
mod subject_name;
mod validity;

pub use access::Access;
pub use attribute_certificate::AttributeOrder;
pub use ca::OrderCa;
pub use certificate::CertificateOrder;
pub use digest::Digest;
pub use extension_id::ExtensionId;
pub use order::{NoOrder, Order, OrderChoice, OrderKind};
pub use padding::Padding;
pub use preset::Preset;
pub use request::RequestOrder;
pub use request_use::{RequestUse, Take};
pub use revocation_list::{ListOrder, is_reason};
pub use serial::{SerialOctets, is_less, is_number};
pub use signing::Signing;
pub use subject_name::{NamePart, NameParts, SubjectAttribute, SubjectAttributes, SubjectName};
pub use validity::{Days, End, Validity};
