//! Certificates from parameters, and requests for them. Its users take it through `rcgen_issue`.
#![tactic(auto)]

mod basic_constraints;
mod causes;
mod certificate;
mod csr;
mod custom_extension;
mod distribution_point;
mod extended_key_usage;
mod extension;
mod extensions;
mod issuer;
mod key_identifier;
mod key_usage;
mod name_constraints;
mod name_value;
mod params;
mod signing;
mod subject_alt_name;
mod value;

pub use certificate::{
    Certificate, certificate_exists, issue_and_read, issued_once, to_be_signed, to_be_signed_once,
};
pub use csr::{
    Attribute, CertificateSigningRequest, attribute_values_exactly, request_exists, request_info,
    request_info_once, requested_once,
};
pub use custom_extension::CustomExtension;
pub use distribution_point::CrlDistributionPoint;
pub use extended_key_usage::{
    ExtendedKeyUsagePurpose, other_purpose_is_another, purposes_are_same,
};
pub use extension::contents_are_forms;
pub use issuer::{Issuer, decoded_name_stands};
pub use key_usage::key_usage_bits;
pub use name_constraints::{GeneralSubtree, NameConstraints};
pub use params::CertificateParams;
pub use rcgen_sign::{
    DigestKey, DigestVerifier, FixedKey, KeyAlgorithm, KeyIdMethod, KeyInfo,
    PKCS_ECDSA_P256_SHA256, PKCS_ECDSA_P384_SHA384, PKCS_ECDSA_P521_SHA256, PKCS_ECDSA_P521_SHA384,
    PKCS_ECDSA_P521_SHA512, PKCS_ED25519, PKCS_ML_DSA_44, PKCS_ML_DSA_65, PKCS_ML_DSA_87,
    PKCS_PSS_ONLY_SHA256, PKCS_PSS_ONLY_SHA384, PKCS_PSS_ONLY_SHA512, PKCS_PSS_SHA256,
    PKCS_PSS_SHA384, PKCS_PSS_SHA512, PKCS_RSA_PSS_SHA256, PKCS_RSA_PSS_SHA384,
    PKCS_RSA_PSS_SHA512, PKCS_RSA_SHA256, PKCS_RSA_SHA384, PKCS_RSA_SHA512, PublicKey,
    PublicKeyData, RefusingKey, SignatureAlgorithm, SigningKey, SubjectPublicKeyInfo, Verifier,
    algorithms, algorithms_are_told_apart, key_parameters_are_forms, methods_are_same,
    signed_is_accepted, spki_in_front, spki_octets,
};
pub use rcgen_text::{
    BasicConstraints, CidrSubnet, DistinguishedName, DistinguishedNameIterator, DnType, DnValue,
    Error, InvalidAsn1String, IpAddr, IsCa, KeyUsagePurpose, OtherNameValue, SanType, SerialNumber,
    custom_type_is_another, date_time_ymd, string, type_keeps_arcs, types_are_same,
};
pub use value::key_infos_are_fields;

// of these revocation lists and attribute certificates are made too, and what is shown of an issuer
pub use causes::{first_uri_not_ascii, has_issuer_value, not_ascii_error};
pub use csr::{attribute_value, have_attribute_types};
pub use distribution_point::full_name;
pub use extension::{extensions_field, push_extension};
pub use key_identifier::{authority_key, key_id, push_authority_key};
pub use key_usage::signs_lists;
pub use name_value::{issuer_name_exists, issuer_value};
pub use signing::{Signed, assemble, sign_der, sign_value};
pub use value::{signature_identifier, written_moment};
