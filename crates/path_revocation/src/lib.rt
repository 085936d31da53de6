//! Whether a certificate is revoked, by the revocation lists that the caller gives (RFC 5280, section
//! 6.3). Nothing is fetched.
//!
//! Lists count of the certificate's issuer and of others (indirect lists), whole or by distribution
//! points and reasons, complete or with delta lists. The path to the issuer of a list is the caller's
//! to validate.
#![tactic(auto)]

mod delta;
mod entry;
mod extension;
mod finding;
mod given;
mod laws;
mod limits;
mod list;
mod newer;
mod point;
mod reasons;
mod search;
mod signed;
mod status;
mod subject;
mod time;

pub use given::{GivenList, ListIssuer, RevocationInputs};
pub use laws::{good_is_covered, good_is_unlisted, revoked_is_listed};
pub use search::{revocation_status, revocation_statuses};
pub use signed::is_issuer_of;
pub use status::RevocationStatus;
