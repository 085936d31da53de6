//! Messages about faults: the file, the key or block, what is wrong there, and what would be right.
#![tactic(auto)]

mod begun_blocks;
mod guesses;
mod lines;
mod named;
mod offences;
mod order_faults;
mod order_keys;
mod revoked_faults;
mod telling;
mod value_kind;

pub use named::Named;
pub use order_keys::OrderForm;
pub use telling::complaint;
