//! Texts of a register: the order of the next list with the lines of its entries, lines on certificates
//! for people, and lines of the file index.txt of `openssl ca`.
#![tactic(auto)]

mod found;
mod index;
mod order;
mod text;
mod time;

pub use found::found_line;
pub use index::{Indexed, index_line};
pub use order::{ListOrder, OrderError, list_order};
pub use time::{has_year, moment_at, second_of};
