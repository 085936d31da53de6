//! What the order of a certificate, with the request after it, or of an attribute certificate asks
//! for, as parameters.
#![tactic(auto)]

mod allowed;
mod allowed_subject;
mod asked_extensions;
mod asked_names;
mod attribute_certificate;
mod common_names;
mod parameters;
mod request;
mod subject_types;

pub use attribute_certificate::attribute_params;
pub use common_names::with_common_names;
pub use parameters::certificate_params;
pub use request::{request_of, takes_some, with_taken};
pub use subject_types::content_params;
