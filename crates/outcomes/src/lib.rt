//! What comes of an order: where nothing is against it, there is a message to be signed for it.
#![tactic(auto)]

mod laws;

pub use laws::{
    attribute_certificates_have_messages, certificates_have_messages, each_instant_is_civil,
    each_job_has_one_message, each_signature_has_one_result, lists_have_messages,
    requests_have_messages,
};
