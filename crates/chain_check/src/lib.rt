//! Certification paths (RFC 5280, 6.1): how many certificates a chain has up to an anchor, or where
//! and why it isn't taken.
#![tactic(auto)]

mod chain;
mod error;
mod extension;
mod place;

pub use chain::{check_chain, one_outcome};
pub use error::{ChainError, ChainReason};
