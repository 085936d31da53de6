//! The entries of a revocation list as lines of a text.
#![tactic(auto)]

mod entry;
mod laws;
mod order;
mod text;
mod words;

pub use laws::lines_are_tables;
pub use order::with_revoked;
