//! What an explanation tells: two certificates with one explanation have the same fields.
#![tactic(auto)]

mod laws;

pub use laws::{fields_are_told, lines_are_explained};
