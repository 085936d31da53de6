//! The documents that certify's words take, by formats of TOML tables.
#![tactic(auto)]

mod accept;
mod attribute_certificate;
mod authority;
mod authority_command;
mod certificate;
mod check;
mod hex_input;
mod issuer;
mod restore;
mod revocation_list;
mod revoked_serials;

pub use accept::AcceptProfile;
pub use attribute_certificate::AttributeCertificateProfile;
pub use authority::AuthorityProfile;
pub use authority_command::{AuthorityCommand, IssueCommand, ListCommand, RevokeCommand};
pub use certificate::CertificateProfile;
pub use check::CheckProfile;
pub use hex_input::{HexInput, JoinedHex};
pub use issuer::IssuerTable;
pub use restore::RestoreProfile;
pub use revocation_list::ListProfile;
pub use revoked_serials::RevokedProfile;
