//! Attribute certificates, and the identifiers of their attributes and extensions as arcs
//! (RFC 5755).

pub use crate::certificate::{
    AttributeCertificate, AttributeCertificateClearAttributes, AttributeCertificateInfo,
    AttributeCertificateValidityPeriod, AttributeCertificateVersion,
    parts_of_each_attribute_certificate,
};
pub use crate::clearance::{ClassList, Clearance, SecurityCategory};
pub use crate::controls::{AaControls, AttrSpec};
pub use crate::digest::{DisgestedObjectType, ObjectDigestInfo};
pub use crate::holder::{Holder, Issuer, IssuerSerial, V2Form};
pub use crate::target::{ProxyInfo, Target, TargetCert, Targets};
pub use crate::value::{IetfAttrSyntax, IetfAttrSyntaxValue, RoleSyntax, SvceAuthInfo};

/// The extension by which audit trails name the holder (RFC 5755, 4.3.1), 1.3.6.1.5.5.7.1.4.
pub const AUDIT_IDENTITY: &[u32] = &[1, 3, 6, 1, 5, 5, 7, 1, 4];

/// The extension of which attributes an issuer may certify (RFC 5755, 7.4), 1.3.6.1.5.5.7.1.6.
pub const AA_CONTROLS: &[u32] = &[1, 3, 6, 1, 5, 5, 7, 1, 6];

/// The extension of who may pass the certificate on (RFC 5755, 7.2), 1.3.6.1.5.5.7.1.10.
pub const AC_PROXYING: &[u32] = &[1, 3, 6, 1, 5, 5, 7, 1, 10];

/// The extension of whom the certificate is for (RFC 5755, 4.3.2), 2.5.29.55.
pub const TARGET_INFORMATION: &[u32] = &[2, 5, 29, 55];

/// The attribute of how to log on to a service (RFC 5755, 4.4.1), 1.3.6.1.5.5.7.10.1.
pub const AUTHENTICATION_INFO: &[u32] = &[1, 3, 6, 1, 5, 5, 7, 10, 1];

/// The attribute of the identity at a service (RFC 5755, 4.4.2), 1.3.6.1.5.5.7.10.2.
pub const ACCESS_IDENTITY: &[u32] = &[1, 3, 6, 1, 5, 5, 7, 10, 2];

/// The attribute of who is charged (RFC 5755, 4.4.3), 1.3.6.1.5.5.7.10.3.
pub const CHARGING_IDENTITY: &[u32] = &[1, 3, 6, 1, 5, 5, 7, 10, 3];

/// The attribute of the groups of the holder (RFC 5755, 4.4.4), 1.3.6.1.5.5.7.10.4.
pub const GROUP: &[u32] = &[1, 3, 6, 1, 5, 5, 7, 10, 4];

/// The attribute that holds other attributes enciphered (RFC 5755, 7.1), 1.3.6.1.5.5.7.10.6.
pub const ENC_ATTRIBUTES: &[u32] = &[1, 3, 6, 1, 5, 5, 7, 10, 6];

/// The attribute of the roles of the holder (RFC 5755, 4.4.5), 2.5.4.72.
pub const ROLE: &[u32] = &[2, 5, 4, 72];

/// The attribute of what the holder may see (RFC 5755, 4.4.6), 2.5.4.55.
pub const CLEARANCE: &[u32] = &[2, 5, 4, 55];
