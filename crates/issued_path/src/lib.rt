//! Certificates that were issued, in paths: why path validation may refuse one (RFC 5280, 6.1).
#![tactic(auto)]

mod laws;

pub use laws::{
    accepted_beneath_its_issuer, accepted_in_its_path, accepted_under_its_anchor, plain_is_valid,
};
