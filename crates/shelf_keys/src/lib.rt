//! Public keys of orders with the algorithms of their signatures, and signatures that were handed in.
#![tactic(auto)]

mod encoding;
mod key;
mod parameters;
mod verification;

pub use encoding::encoded;
pub use key::{ANY, key_of_info, public_key};
pub use verification::checked;
