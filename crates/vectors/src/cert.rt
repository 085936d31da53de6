//! The types of `pkix_cert`.
use crate::reading::{Reading, read_as};
use pkix_cert::{
    AlgorithmIdentifier, AuthorityKeyIdentifier, BasicConstraints, Certificate, CertificateList,
    CertificationRequest, CrlReason, DistributionPoint, DistributionPointName, Extension,
    Extensions, InvalidityDate, RevokedCertificate, TbsCertList, TbsCertificate, Time, Validity,
    Version,
};
use std::alloc::Global;

/// What of the type of this name has the bytes as its form.
pub fn read(alloc: Global, name: &str, form: &[u8]) -> Reading {
    if name == "AlgorithmIdentifier" {
        return read_as::<AlgorithmIdentifier>(alloc, form);
    }
    if name == "AuthorityKeyIdentifier" {
        return read_as::<AuthorityKeyIdentifier>(alloc, form);
    }
    if name == "BasicConstraints" {
        return read_as::<BasicConstraints>(alloc, form);
    }
    if name == "Certificate" {
        return read_as::<Certificate>(alloc, form);
    }
    if name == "CertificateList" {
        return read_as::<CertificateList>(alloc, form);
    }
    if name == "CertificationRequest" {
        return read_as::<CertificationRequest>(alloc, form);
    }
    if name == "CrlReason" {
        return read_as::<CrlReason>(alloc, form);
    }
    if name == "DistributionPoint" {
        return read_as::<DistributionPoint>(alloc, form);
    }
    if name == "DistributionPointName" {
        return read_as::<DistributionPointName>(alloc, form);
    }
    read_further(alloc, name, form)
}

// The further types.
fn read_further(alloc: Global, name: &str, form: &[u8]) -> Reading {
    if name == "Extension" {
        return read_as::<Extension>(alloc, form);
    }
    if name == "Extensions" {
        return read_as::<Extensions>(alloc, form);
    }
    if name == "InvalidityDate" {
        return read_as::<InvalidityDate>(alloc, form);
    }
    if name == "RevokedCertificate" {
        return read_as::<RevokedCertificate>(alloc, form);
    }
    if name == "TbsCertList" {
        return read_as::<TbsCertList>(alloc, form);
    }
    if name == "TbsCertificate" {
        return read_as::<TbsCertificate>(alloc, form);
    }
    if name == "Time" {
        return read_as::<Time>(alloc, form);
    }
    if name == "Validity" {
        return read_as::<Validity>(alloc, form);
    }
    if name == "Version" {
        return read_as::<Version>(alloc, form);
    }
    Reading::NoType
}
