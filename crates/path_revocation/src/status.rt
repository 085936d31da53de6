//! What is known of a certificate's revocation.
use jiff::civil::DateTime;
use pkix_cert::CrlReason;

/// What is known of a certificate's revocation (RFC 5280, 6.3.3).
#[derive(Clone, Copy, Debug, PartialEq, Eq)]
pub enum RevocationStatus {
    /// It isn't revoked for any reason.
    Good,
    /// It is revoked: since when, in UTC, and why.
    Revoked { at: DateTime, reason: CrlReason },
    /// Whether it is revoked isn't known.
    Undetermined,
}
