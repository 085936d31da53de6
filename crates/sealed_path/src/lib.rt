//! Certificates that `shelf` seals, in paths: what the laws of `issued_path` ask for is there.
#![tactic(auto)]

mod laws;

pub use laws::sealed_is_issued;
