//! Signatures by ECDSA: what `ecdsa` reads as one is the DER of `EcdsaSigValue` (`pkix_alg`).
#![tactic(auto)]

mod laws;

pub use laws::signatures_are_values;
