//! The subject of a certificate, whose key need not be one that signs.
use pkix_cert::SubjectPublicKeyInfo;
use rcgen_sign::PublicKey;

/// The key of a certificate's subject (RFC 5280, 4.1.2.7).
#[derive(Drop)]
pub enum Subject {
    /// A key of an algorithm that signs.
    Known(PublicKey),
    /// The info of a key of whatever algorithm, which the certificate has octet by octet.
    Other(SubjectPublicKeyInfo),
}
