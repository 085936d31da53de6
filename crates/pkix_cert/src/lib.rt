//! The types of X.509 certificates (RFC 5280, 4.1), each with its one form in DER.
#![tactic(auto)]

mod algorithm;
mod certificate;
mod constraint;
mod distribution;
mod elements;
mod extension;
pub mod extension_id;
mod grammar;
mod key_identifier;
mod leaf;
mod policy;
mod request;
mod revocation;
mod seen;
mod time;
mod view;

pub use algorithm::{AlgorithmIdentifier, SubjectPublicKeyInfo};
pub use certificate::{
    Certificate, CertificateSerialNumber, TbsCertificate, UniqueIdentifier, Version,
    parts_of_each_form, version_numbers,
};
pub use constraint::{
    BaseDistance, BasicConstraints, GeneralSubtree, GeneralSubtrees, NameConstraints,
};
pub use distribution::{
    BaseCrlNumber, CrlDistributionPoints, CrlNumber, DistributionPoint, DistributionPointName,
    FreshestCrl, InvalidityDate, IssuingDistributionPoint, ReasonFlags,
};
pub use extension::{Extension, Extensions};
pub use extension_id::extension_ids_are_encoded;
pub use key_identifier::{
    AuthorityKeyIdentifier, CRL_SIGN, ExtKeyUsageSyntax, KEY_CERT_SIGN, KeyIdentifier,
    KeyPurposeId, KeyUsage, SubjectDirectoryAttributes, SubjectKeyIdentifier,
};
pub use pkix_name::{
    Attribute, AttributeType, AttributeTypeAndValue, AttributeValue, CertificateIssuer,
    DirectoryString, DomainComponent, EdiPartyName, EmailAddress, GeneralName, GeneralNames, Name,
    RdnSequence, RelativeDistinguishedName, SameText, SubjectAltName, X520CommonName,
    X520CountryName, X520DnQualifier, X520LocalityName, X520Name, X520OrganisationName,
    X520OrganisationalUnitName, X520Pseudonym, X520SerialNumber, X520StateOrProvinceName, X520Text,
    X520Title,
};
pub use policy::{
    CertPolicyFlags, CertPolicyId, CpsUri, InhibitAnyPolicy, PolicyQualifierId, SkipCerts,
    TrustAnchorTitle,
};
pub use request::{CertificationRequest, CertificationRequestInfo, parts_of_each_request};
pub use revocation::{
    CertificateList, CrlReason, RevokedCertificate, TbsCertList, parts_of_each_list,
};
pub use time::{Time, Validity};
pub use view::{CertificateView, ExtensionView, ExtensionViews, parts_of_each_view};
