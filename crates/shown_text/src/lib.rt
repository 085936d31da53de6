//! Which characters may be shown to a person as they are, and a text in which the others are masked.
#![tactic(auto)]

mod table;
mod text;

pub use table::{is_hidden, is_hidden_code, is_right_to_left, is_shown};
pub use text::{has_hidden, push_masked};
