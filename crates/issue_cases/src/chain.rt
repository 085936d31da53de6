//! A chain that others made.
use chain_check::check_chain;
use jiff::civil::DateTime;
use signature_verifier::SignatureVerifier;
use std::alloc::{AllocError, Global};

/// Whether the chain, the leaf first, leads to the anchor at noon of the first of June.
pub fn verdict(alloc: Global, chain: &[u8], anchor: &[u8]) -> Result<String, AllocError> {
    let Ok(at) = DateTime::new(2026, 6, 1, 12, 0, 0, 0) else {
        return "no such time".to_string(alloc);
    };
    match check_chain(alloc, chain, anchor, at, &SignatureVerifier::new()) {
        Ok(count) => format!(in alloc; "valid {count}"),
        Err(fault) => format!(in alloc; "invalid {fault}"),
    }
}
