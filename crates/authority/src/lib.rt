//! An authority that issues, revokes and lists by commands, and keeps a book of them.
#![tactic(auto)]

mod authority;
mod book;
mod commands;
mod laws;

pub use authority::Authority;
pub use commands::{AuthorityError, Command, Issued, Limits, Listed, Refusal, Register, Reply};
pub use laws::{
    issuer_is_one, lists_are_of_the_revoked, runs_go_on, runs_join, runs_keep_books, runs_part,
    step_is_run,
};
