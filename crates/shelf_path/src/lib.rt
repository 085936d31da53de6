//! What comes of a question about a certification path: a document that says the time and what the
//! user accepts, and after it as PEM blocks the path's certificates and, where revocation is asked,
//! lists (RFC 5280, 6.1).
#![tactic(auto)]

mod anchor;
mod asked_lists;
mod certificates;
mod laws;
mod list_issuer;
mod policies;
mod question;
mod revocation;
mod revocation_lists;
mod verdict;
mod verdict_text;

pub use anchor::anchor_is_subject;
pub use laws::{anchor_is_last, issuers_lists_are_asked, lists_are_of_issuers, valid_is_good};
pub use question::{PathQuestion, question_in};
pub use verdict::{Verdict, one_verdict, verdict_of};
