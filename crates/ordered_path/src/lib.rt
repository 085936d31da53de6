//! Certificates that orders ask for, in paths: what is sealed for an order is what the laws of
//! `sealed_path` and `issued_path` ask for.
#![tactic(auto)]

mod laws;

pub use laws::{ordered_is_sealed, own_is_issued};
