//! Names of X.509 (RFC 5280, 4.1.2.4 and 4.2.1.6) and texts of X.520, each with its one form in DER.
#![tactic(auto)]

mod characters;
mod directory_string;
mod general_name;
mod name;
mod x520;

pub use characters::{Characters, utf8_characters};
pub use directory_string::DirectoryString;
pub use general_name::{
    CertificateIssuer, EdiPartyName, GeneralName, GeneralNames, SubjectAltName,
};
pub use name::{
    Attribute, AttributeType, AttributeTypeAndValue, AttributeValue, Name, RdnSequence,
    RelativeDistinguishedName,
};
pub use x520::{
    DomainComponent, EmailAddress, SameText, X520CommonName, X520CountryName, X520DnQualifier,
    X520LocalityName, X520Name, X520OrganisationName, X520OrganisationalUnitName, X520Pseudonym,
    X520SerialNumber, X520StateOrProvinceName, X520Text, X520Title,
};
