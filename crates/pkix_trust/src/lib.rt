//! Policies and trust anchors (RFC 5280, 4.2.1; RFC 5914), each type with its one form in DER.
#![tactic(auto)]

mod access;
mod anchor;
mod notice;
mod policy;

pub use access::{AccessDescription, AuthorityInfoAccessSyntax, SubjectInfoAccessSyntax};
pub use anchor::{
    CertPathControls, TrustAnchorChoice, TrustAnchorInfo, TrustAnchorInfoVersion, TrustAnchorList,
    anchor_version_numbers,
};
pub use notice::{DisplayText, NoticeReference, UserNotice};
pub use policy::{
    CertificatePolicies, PolicyConstraints, PolicyInformation, PolicyMapping, PolicyMappings,
    PolicyQualifierInfo, PrivateKeyUsagePeriod,
};
