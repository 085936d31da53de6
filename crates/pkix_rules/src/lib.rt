//! Which rules of the standards a certificate, a request, a revocation list, an attribute certificate or a public key breaks, as its octets
//! show them, beside the certificate of its issuer where that is given (RFC 5280; RFC 5755; RFC 2986; RFC 3279). `rule_texts` has the text of each.
#![tactic(auto)]

mod address;
mod alt_names;
mod attribute;
mod certificate;
mod constrained;
mod contents;
mod criticality;
mod entry;
mod extension;
mod frame;
mod general;
mod identifiers;
mod integer;
mod issuer;
mod key;
mod list;
mod name;
mod name_constraints;
mod points;
mod policies;
mod public_key;
mod repeated;
mod request;
mod said;
mod shared;
mod subject;
mod usage;

pub use attribute::attribute_certificate_rules;
pub use certificate::certificate_rules;
pub use list::list_rules;
pub use public_key::public_key_rules;
pub use request::request_rules;
