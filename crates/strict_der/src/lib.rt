//! DER all the way down (X.690): whether octets are one element, with none at any depth that is forbidden for its type, and where they
//! aren't, why.
#![tactic(auto)]

mod contents;
mod element;
mod offence;

pub use element::{LEVEL_LIMIT, is_strict};
pub use offence::{Offence, Rule, first_offence, no_offence_is_strict};
