//! Reads what others wrote: certification requests, issuers from their own certificates, and the
//! names in both.
#![tactic(auto)]

mod alternative_name;
mod basic_constraints;
mod extended_key_usage;
mod extensions;
mod issuer;
mod issuer_laws;
mod key_usage;
mod name;
mod reading;
mod reading_laws;
mod received;
mod request;
mod request_laws;

pub use issuer::{ReadBack, issuer_as_certified, issuer_from_ca_cert_der};
pub use issuer_laws::{issuers_are_restored, restored_names_have_types};
pub use reading::fronts_are_forms;
pub use reading_laws::{
    alternative_names_are_read_back, distinct_names_are_kept, names_are_read_back,
    names_are_written_back,
};
pub use received::{has_unused_bits, requested_extensions};
pub use request::{CertificateSigningRequestParams, params_asked_for};
pub use request_laws::{extensions_are_kept, issued_as_requested, written_requests_are_read};
