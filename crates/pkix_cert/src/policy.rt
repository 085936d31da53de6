use asn1_core::{BitString, Ia5String, Integer, ObjectIdentifier, Utf8String};

/// The identifier of a policy under which certificates are issued (RFC 5280, 4.2.1.4).
pub type CertPolicyId = ObjectIdentifier;

/// The identifier of a kind of what qualifies a policy (RFC 5280, 4.2.1.4).
pub type PolicyQualifierId = ObjectIdentifier;

/// Where the practice of an issuer is stated (RFC 5280, 4.2.1.4).
pub type CpsUri = Ia5String;

/// How many more certificates may come in a path before a rule holds (RFC 5280, 4.2.1.11).
pub type SkipCerts = Integer;

/// From which certificate of a path on anyPolicy doesn't match other policies (RFC 5280, 4.2.1.14).
pub type InhibitAnyPolicy = SkipCerts;

/// Which rules on policies hold from a trust anchor on, a bit each (RFC 5914, 2.5).
pub type CertPolicyFlags = BitString;

/// What people call a trust anchor (RFC 5914, 2.4). Its length isn't bounded here.
pub type TrustAnchorTitle = Utf8String;
