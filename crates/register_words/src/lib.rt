//! What a register's subcommands do with its record: serial numbers, what is asked of certificates, and
//! events as JSON.
#![tactic(auto)]

mod drawing;
mod finding;
mod json;

pub use drawing::{DrawError, draw};
pub use finding::{Query, Status, find, matches, status_of};
pub use json::{event_line, event_value, kind_word, list_word, reason_word};
