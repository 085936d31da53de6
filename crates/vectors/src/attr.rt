//! The types of `pkix_attr`.
use crate::reading::{Reading, read_as};
use pkix_attr::{
    AaControls, AttributeCertificate, AttributeCertificateClearAttributes,
    AttributeCertificateInfo, AttributeCertificateValidityPeriod, ClassList, Clearance,
    DisgestedObjectType, Holder, IetfAttrSyntax, IetfAttrSyntaxValue, Issuer, IssuerSerial,
    ObjectDigestInfo, ProxyInfo, RoleSyntax, SecurityCategory, SvceAuthInfo, Target, TargetCert,
    V2Form,
};
use std::alloc::Global;

/// What of the type of this name has the bytes as its form.
pub fn read(alloc: Global, name: &str, form: &[u8]) -> Reading {
    if name == "AaControls" {
        return read_as::<AaControls>(alloc, form);
    }
    if name == "AttributeCertificate" {
        return read_as::<AttributeCertificate>(alloc, form);
    }
    if name == "AttributeCertificateClearAttributes" {
        return read_as::<AttributeCertificateClearAttributes>(alloc, form);
    }
    if name == "AttributeCertificateInfo" {
        return read_as::<AttributeCertificateInfo>(alloc, form);
    }
    if name == "AttributeCertificateValidityPeriod" {
        return read_as::<AttributeCertificateValidityPeriod>(alloc, form);
    }
    if name == "ClassList" {
        return read_as::<ClassList>(alloc, form);
    }
    if name == "Clearance" {
        return read_as::<Clearance>(alloc, form);
    }
    if name == "DisgestedObjectType" {
        return read_as::<DisgestedObjectType>(alloc, form);
    }
    if name == "Holder" {
        return read_as::<Holder>(alloc, form);
    }
    if name == "IetfAttrSyntax" {
        return read_as::<IetfAttrSyntax>(alloc, form);
    }
    if name == "IetfAttrSyntaxValue" {
        return read_as::<IetfAttrSyntaxValue>(alloc, form);
    }
    read_further(alloc, name, form)
}

// The further types.
fn read_further(alloc: Global, name: &str, form: &[u8]) -> Reading {
    if name == "Issuer" {
        return read_as::<Issuer>(alloc, form);
    }
    if name == "IssuerSerial" {
        return read_as::<IssuerSerial>(alloc, form);
    }
    if name == "ObjectDigestInfo" {
        return read_as::<ObjectDigestInfo>(alloc, form);
    }
    if name == "ProxyInfo" {
        return read_as::<ProxyInfo>(alloc, form);
    }
    if name == "RoleSyntax" {
        return read_as::<RoleSyntax>(alloc, form);
    }
    if name == "SecurityCategory" {
        return read_as::<SecurityCategory>(alloc, form);
    }
    if name == "SvceAuthInfo" {
        return read_as::<SvceAuthInfo>(alloc, form);
    }
    if name == "Target" {
        return read_as::<Target>(alloc, form);
    }
    if name == "TargetCert" {
        return read_as::<TargetCert>(alloc, form);
    }
    if name == "V2Form" {
        return read_as::<V2Form>(alloc, form);
    }
    Reading::NoType
}
