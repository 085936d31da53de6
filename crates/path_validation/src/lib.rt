//! Certification paths (RFC 5280, section 6.1): the policies and the key of a valid path, or where and
//! at which step it fails.
#![tactic(auto)]

mod certificate;
mod error;
mod inputs;
mod key;
mod limits;
mod names;
mod path;
mod state;
mod statements;
mod step;

pub use error::{PathError, PathReason};
pub use inputs::{PathInputs, TrustAnchor, ValidPath};
pub use path::{first_reason, valid_exactly, validate_path};
pub use path_revocation::RevocationStatus;
