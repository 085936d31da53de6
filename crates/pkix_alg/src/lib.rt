//! The types of public keys and their parameters (RFC 3279) and of enrolment (RFC 7030), each with
//! its one form in DER, and the identifiers of algorithms.
#![tactic(auto)]

pub mod algorithms;
pub mod est;
mod identifiers;

pub use algorithms::{
    CharacteristicTwo, Curve, DhPublicKey, DomainParameters, DsaPublicKey, DssParams, DssSigValue,
    EcParameters, EcPoint, EcdsaSigValue, EcpVer, EcpkParameters, FieldElement, FieldId,
    KeaParamsId, Pentanomial, PrimeP, RsaPublicKey, Trinomial, ValidationParams,
};
pub use est::{AsymmetricDecryptKeyIdentifier, AttrOrOid, Attribute, CsrAttrs};
