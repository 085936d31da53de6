//! The types of `pkix_trust`.
use crate::reading::{Reading, read_as};
use pkix_trust::{
    AccessDescription, CertPathControls, CertificatePolicies, DisplayText, NoticeReference,
    PolicyConstraints, PolicyInformation, PolicyMapping, PolicyQualifierInfo,
    PrivateKeyUsagePeriod, TrustAnchorChoice, TrustAnchorInfo, TrustAnchorInfoVersion, UserNotice,
};
use std::alloc::Global;

/// What of the type of this name has the bytes as its form.
pub fn read(alloc: Global, name: &str, form: &[u8]) -> Reading {
    if name == "AccessDescription" {
        return read_as::<AccessDescription>(alloc, form);
    }
    if name == "CertPathControls" {
        return read_as::<CertPathControls>(alloc, form);
    }
    if name == "CertificatePolicies" {
        return read_as::<CertificatePolicies>(alloc, form);
    }
    if name == "DisplayText" {
        return read_as::<DisplayText>(alloc, form);
    }
    if name == "NoticeReference" {
        return read_as::<NoticeReference>(alloc, form);
    }
    if name == "PolicyConstraints" {
        return read_as::<PolicyConstraints>(alloc, form);
    }
    if name == "PolicyInformation" {
        return read_as::<PolicyInformation>(alloc, form);
    }
    read_further(alloc, name, form)
}

// The further types.
fn read_further(alloc: Global, name: &str, form: &[u8]) -> Reading {
    if name == "PolicyMapping" {
        return read_as::<PolicyMapping>(alloc, form);
    }
    if name == "PolicyQualifierInfo" {
        return read_as::<PolicyQualifierInfo>(alloc, form);
    }
    if name == "PrivateKeyUsagePeriod" {
        return read_as::<PrivateKeyUsagePeriod>(alloc, form);
    }
    if name == "TrustAnchorChoice" {
        return read_as::<TrustAnchorChoice>(alloc, form);
    }
    if name == "TrustAnchorInfo" {
        return read_as::<TrustAnchorInfo>(alloc, form);
    }
    if name == "TrustAnchorInfoVersion" {
        return read_as::<TrustAnchorInfoVersion>(alloc, form);
    }
    if name == "UserNotice" {
        return read_as::<UserNotice>(alloc, form);
    }
    Reading::NoType
}
