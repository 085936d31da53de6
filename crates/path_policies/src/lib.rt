//! The valid policies of a certification path (RFC 5280, section 6.1, as RFC 9618 has them), level by
//! level.
#![tactic(auto)]

mod growth;
mod level;
mod levels;
mod mapping;
mod node;
mod policy;

pub use growth::grows_slowly;
pub use levels::PolicyLevels;
pub use mapping::maps_any_policy;
pub use policy::is_any_policy;
