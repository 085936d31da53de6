//! Who checks the signatures of certificates: by RSA, ECDSA and Ed25519, under keys as certificates
//! hold them. Nothing is allocated, and each call returns.
#![tactic(auto)]

mod key_kind;
mod public_key;
mod scheme;
mod sequence;
mod verifier;

pub use key_kind::KeyKind;
pub use scheme::SignatureScheme;
pub use verifier::{SignatureVerifier, accepted_by_one_scheme, nothing_follows, sha1_is_refused};
