//! Further attributes of addresses of X.400 (RFC 5280, A.1; X.411, MTSAbstractService), each type
//! with its one form in DER. What is out of bounds has no form: it is neither written nor read.
#![tactic(auto)]

mod delivery;
mod name;
mod network;

pub use delivery::{
    PdsName, PdsParameter, PhysicalDeliveryCountryName, PostalCode, PrintableAddress,
    TeletexAddress, UnformattedPostalAddress,
};
pub use name::{
    CommonName, TeletexCommonName, TeletexDomainDefinedAttribute, TeletexDomainDefinedAttributes,
    TeletexOrganisationalUnitName, TeletexOrganisationalUnitNames, TeletexOrganizationName,
    TeletexPersonalName,
};
pub use network::{E1634Address, ExtendedNetworkAddress, PresentationAddress};
