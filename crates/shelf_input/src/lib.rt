//! Reads what `shelf` is given: an order, which is a TOML document alone; files, each of which is PEM with any text around its
//! blocks, or DER; and a signature.
#![tactic(auto)]

mod blocks;
mod der_file;
mod files;
mod order;
mod signature;

pub use blocks::{Blocks, blocks_in};
pub use files::blocks_of_files;
pub use order::order_in;
pub use signature::signature_in;
