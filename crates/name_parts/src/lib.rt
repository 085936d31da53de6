//! Parts of names as text (RFC 4514).
#![tactic(auto)]

mod arcs;
mod attribute;
mod octet;
mod part;
mod types;
mod value;

pub use part::relative_name;
