//! Issues X.509 certificates and revocation lists from parameters, and writes requests.
#![tactic(auto)]

mod certified;
mod crl;
mod list_table;
mod once;

pub use certified::{CertifiedIssuer, CertifiedKey, generate_simple_self_signed};
pub use crl::{
    CertificateRevocationList, CertificateRevocationListParams, CrlIssuingDistributionPoint,
    RevokedCertParams, entry, list_frame, list_to_be_signed,
};
pub use list_table::crl_exists;
pub use once::{
    digest_key_fits_once, list_issued_once, list_to_be_signed_once, one_view_issues_the_same,
    one_view_signs_the_same,
};
pub use rcgen_certificate::{
    Attribute, BasicConstraints, Certificate, CertificateParams, CertificateSigningRequest,
    CidrSubnet, CrlDistributionPoint, CustomExtension, DigestKey, DigestVerifier,
    DistinguishedName, DistinguishedNameIterator, DnType, DnValue, Error, ExtendedKeyUsagePurpose,
    FixedKey, GeneralSubtree, InvalidAsn1String, IpAddr, IsCa, Issuer, KeyAlgorithm, KeyIdMethod,
    KeyInfo, KeyUsagePurpose, NameConstraints, OtherNameValue, PKCS_ECDSA_P256_SHA256,
    PKCS_ECDSA_P384_SHA384, PKCS_ECDSA_P521_SHA256, PKCS_ECDSA_P521_SHA384, PKCS_ECDSA_P521_SHA512,
    PKCS_ED25519, PKCS_ML_DSA_44, PKCS_ML_DSA_65, PKCS_ML_DSA_87, PKCS_RSA_SHA256, PKCS_RSA_SHA384,
    PKCS_RSA_SHA512, PublicKey, PublicKeyData, RefusingKey, SanType, SerialNumber,
    SignatureAlgorithm, SigningKey, SubjectPublicKeyInfo, Verifier, algorithms,
    algorithms_are_told_apart, assemble, attribute_values_exactly, certificate_exists,
    contents_are_forms, custom_type_is_another, date_time_ymd, issue_and_read, issued_once,
    key_infos_are_fields, key_parameters_are_forms, key_usage_bits, methods_are_same,
    other_purpose_is_another, purposes_are_same, request_exists, request_info, request_info_once,
    requested_once, signed_is_accepted, spki_in_front, spki_octets, string, to_be_signed,
    to_be_signed_once, type_keeps_arcs, types_are_same,
};
pub use rcgen_text::{CrlScope, RevocationReason};

// of this attribute certificates are made too
pub use crl::general_moment;
