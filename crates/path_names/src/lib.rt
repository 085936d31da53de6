//! Names that are one (RFC 5280, 7), and names that a constraint permits or excludes (RFC 5280,
//! 4.2.1.10). No function takes memory.
#![tactic(auto)]

mod address;
mod attribute;
mod character;
mod host;
mod mail;
mod mapped;
mod name;
mod other;
mod significant;
mod size;
mod subtree;
mod text;
mod uri;

pub use address::same_under;
pub use host::dns_within;
pub use mail::mail_within;
pub use mapped::preparable_texts_are_normal;
pub use name::{name_is_below_itself, names_match, names_match_is_equivalence};
pub use size::{directory_size, name_size, names_size, part_size};
pub use subtree::{
    is_excluded_by, is_permitted_by, is_unprocessed_by, is_within,
    matching_names_are_constrained_alike,
};
