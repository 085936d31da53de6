//! What a register's subcommands make of messages, signatures and certificates: what a message says,
//! what its signature makes of it, the message of a renewed certificate, and certificates and lists that
//! were issued before.
#![tactic(auto)]

mod encoding;
mod import;
mod listed;
mod message;
mod named;
mod renewal;
mod sealing;
mod signed_octets;

pub use encoding::encoded;
pub use import::{ImportedEvents, imported};
pub use listed::{IssuedList, ListedEntry, ListedError, issued_list};
pub use message::{Description, described};
pub use named::subject_in;
pub use renewal::{RenewError, renewed, time_at};
pub use sealing::{SealError, algorithm_in, opened, sealed};
