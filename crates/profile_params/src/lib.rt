//! What a profile says, as the parameters of certificates and revocation lists, and the attributes of
//! attribute certificates.
#![tactic(auto)]

mod attributes;
mod certificate;
mod constraints;
mod extensions;
mod keys;
mod names;
mod revocation_list;

pub use attributes::attributes_of_profile;
pub use certificate::params_of_profile;
pub use keys::method_of_profile;
pub use names::name_of_profile;
pub use revocation_list::list_of_profile;
