//! What is asked, and the lists that a caller gives.
use der_tree::SequenceOf;
use jiff::civil::DateTime;
use pkix_cert::{CertificateList, KeyUsage, SubjectPublicKeyInfo};
use pkix_name::Name;

/// Who signs a list (RFC 5280, 6.3.3 (f)): the subject of the last certificate of a path that is
/// valid, or the trust anchor itself. The anchor has to be that of the path to the certificate that
/// is asked about.
#[derive(Debug, Drop)]
pub struct ListIssuer {
    pub name: Name,
    /// What the certificate says of its key's use; None for an anchor.
    pub key_usage: Option<KeyUsage>,
    /// The working public key that the path gives (RFC 5280, 6.1.6).
    pub key_info: SubjectPublicKeyInfo,
}

/// A list, with what is known of its issuer.
#[derive(Debug, Drop)]
pub struct GivenList {
    pub list: CertificateList,
    /// None where no path to it is valid; such a list isn't used.
    pub issuer: Option<ListIssuer>,
}

/// What is asked about a certificate's revocation (RFC 5280, 6.3.1).
#[derive(Debug, Drop)]
pub struct RevocationInputs {
    /// The time, in UTC.
    pub at: DateTime,
    /// Whether delta lists are applied to complete ones.
    pub use_deltas: bool,
    /// Complete lists and delta lists.
    pub lists: SequenceOf<GivenList>,
}
