//! Why nothing that is issued under a certificate would be valid (RFC 5280, 4.1, 4.2 and 6.1).
#![tactic(auto)]

mod judged;

pub use judged::{authority_checked, issuer_checked};
