//! What an order comes to: what the key that is held elsewhere is to sign, and what its signature makes.
#![tactic(auto)]

mod calls;
mod issuer;
mod job;
mod laws;
mod named_request;
mod signing;
mod subject;
mod weak_key;

pub use job::{AttributeJob, CertificateJob, Job, ListJob, RequestJob, job_of};
pub use laws::{der_once, message_once};
