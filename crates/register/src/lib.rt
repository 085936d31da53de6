//! The register of an authority: the record in memory, and the store that has a row for each of its
//! events.
#![tactic(auto)]

mod error;
mod opening;
mod register;

pub use error::{AppendError, CreateError, OpenError};
pub use register::Register;
