//! What comes of a request and the files that it reads: within the limits, exactly one answer.
#![tactic(auto)]

mod laws;

pub use laws::{each_request_has_one_answer, each_request_has_one_outcome};
