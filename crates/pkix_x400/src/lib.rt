//! Addresses of X.400 (RFC 5280, A.1; X.411, MTSAbstractService), each type with its one form in
//! DER. What is out of bounds has no form: it is neither written nor read.
#![tactic(auto)]

mod address;
mod standard;

pub use address::{
    BuiltInDomainDefinedAttribute, BuiltInDomainDefinedAttributes, ExtensionAttribute,
    ExtensionAttributes, OrAddress,
};
pub use standard::{
    AdministrationDomainName, BuiltInStandardAttributes, CountryName, NetworkAddress,
    NumericUserIdentifier, OrganisationName, OrganisationalUnitName, OrganisationalUnitNames,
    PersonalName, PrivateDomainName, TerminalIdentifier, TerminalType, X121Address,
};
