//! Fast answers to whether a list of revoked certificates has a serial (RFC 5280, 5.1.2.6).
#![tactic(auto)]

mod index;
mod serials;

pub use index::CrlIndex;
pub use serials::Serials;
