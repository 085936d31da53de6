//! Attribute certificates (RFC 5755), each type with its one form in DER.
#![tactic(auto)]

pub mod attribute_certificate;
mod certificate;
mod clearance;
mod controls;
mod digest;
mod holder;
mod target;
mod value;

pub use attribute_certificate::{
    AaControls, AttrSpec, AttributeCertificate, AttributeCertificateClearAttributes,
    AttributeCertificateInfo, AttributeCertificateValidityPeriod, AttributeCertificateVersion,
    ClassList, Clearance, DisgestedObjectType, Holder, IetfAttrSyntax, IetfAttrSyntaxValue, Issuer,
    IssuerSerial, ObjectDigestInfo, ProxyInfo, RoleSyntax, SecurityCategory, SvceAuthInfo, Target,
    TargetCert, Targets, V2Form, parts_of_each_attribute_certificate,
};
