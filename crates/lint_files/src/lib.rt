//! What is wrong with certificates, requests, CRLs and attribute certificates that others made: the rules of `pkix_rules` that each
//! block of a list breaks, beside its issuer's certificate where that is another block.
#![tactic(auto)]

mod artefact;
mod extension;
mod finding;
mod index_key;
mod issuers;
mod json;
mod kind;
mod line;
mod parts;

pub use finding::{Finding, Located, findings_in, has_error};
pub use json::findings_json;
pub use line::finding_lines;
