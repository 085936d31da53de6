//! Rules that standards have for certificates, requests, CRLs and attribute certificates. `pkix_rules` says when each is broken, and
//! `rule_texts` what is written of it.
#![tactic(auto)]

mod found;
mod rule;

pub use found::{add, note};
pub use rule::Rule;
