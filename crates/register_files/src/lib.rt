//! Files of registers: SQLite databases that one run at a time has open; random octets and the clock of
//! the system.
#![tactic(auto)]

mod error;
mod host;
mod keeper;

pub use error::FileError;
pub use host::HostKeeper;
pub use keeper::Keeper;
