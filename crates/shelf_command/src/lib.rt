//! The command line of `shelf`: what the words after the program's name ask for, with which files, and what is said where they
//! ask for nothing.
#![tactic(auto)]

mod command_line;
mod request;
mod usage;
mod word;

pub use request::{Action, Request, request_in};
pub use usage::{stopped_text, usage_text};
pub use word::Word;
