//! The octets that an issuer's key signs, for a key that is held elsewhere: they go to it, and `assemble` puts them and what it answers together.
#![tactic(auto)]

mod delta;
mod delta_laws;
mod laws;
mod list;
mod named;
mod named_laws;
mod stand_in;
mod subject;
mod subject_certificate;
mod to_be_signed;

pub use delta::list_to_be_signed_on;
pub use delta_laws::{assembled_list, list_over_once, one_list_message};
pub use laws::{
    assembled_is_issued, attribute_is_over_message, certificate_is_over_message,
    certificate_over_message_once, crl_is_over_message, info_tree_of_form, known_subject,
    messages_are_elements, one_message, one_message_for, request_is_over_message,
};
pub use named::certificate_to_be_signed_as;
pub use named_laws::{assembled_as, certificate_as_once, one_message_as};
pub use rcgen_certificate::assemble;
pub use subject::Subject;
pub use subject_certificate::certificate_to_be_signed_for;
pub use to_be_signed::{
    attribute_to_be_signed, certificate_to_be_signed, crl_to_be_signed, request_to_be_signed,
};
