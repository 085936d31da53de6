//! What is written of rules that are broken, and which of them stop an order.
#![tactic(auto)]

mod line;
mod wording;

pub use line::{finding_lines, has_error, severity};
pub use wording::{is_error, text};
