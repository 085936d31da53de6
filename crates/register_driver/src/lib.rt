//! A step of an authority: its event is recorded before anything of it is written.
#![tactic(auto)]

mod performing;
mod step;
mod writing;

pub use performing::{append_status, append_text, perform};
pub use step::{Step, done};
pub use writing::written;
