//! What the extensions of a certificate say (RFC 5280, 4.2), as they are in its octets, and whether each is there once.
#![tactic(auto)]

mod lookup;

pub use lookup::{
    are_distinct, are_distinct_arcs, are_distinct_extensions, contents_at, read_optional,
};
