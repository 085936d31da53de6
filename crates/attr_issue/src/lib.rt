//! Issues attribute certificates from parameters (RFC 5755).
#![tactic(auto)]

mod attribute_certificate;
mod attribute_table;
mod causes;
mod error;
mod info;
mod kinds;
mod once;

pub use attribute_certificate::{
    AttributeCertificateParams, IssuedAttribute, info_to_be_signed, issue_and_read_attribute,
};
pub use attribute_table::attribute_certificate_exists;
pub use causes::repeated_type_exactly;
pub use error::AttrError;
pub use kinds::tbs_types_disjoint;
pub use once::{attribute_info_once, attribute_issued_once};
