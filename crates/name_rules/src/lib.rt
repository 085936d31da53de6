//! What may be wrong with the texts of alternative names: domain names, URIs and subtrees of mailboxes (RFC 5280, 4.2.1.6 and 4.2.1.10).
#![tactic(auto)]

mod control;
mod host;
mod uri;

pub use control::has_control;
pub use host::{HostFault, has_host_fault, is_mail_base};
pub use uri::{UriFault, has_uri_fault};
