//! A certificate authority whose key is held elsewhere: what that key is to sign for an order, and what its signature makes.
#![tactic(auto)]

mod answer;
mod explaining;
mod laws;
mod linting;
mod program;
mod text;

pub use answer::answer_to;
pub use laws::{no_fault_is_done, one_message_for_both, one_outcome};
pub use program::Program;
