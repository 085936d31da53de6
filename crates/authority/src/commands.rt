//! Commands, and the replies to them.
ghost use Rattle.std.specs.Prelude.{◌≡◌};
ghost use Rattle.authority.specs.Book.{IsToldAs};
ghost use Rattle.authority.specs.declared.commands.AuthorityError.TheVariants.{OutOfMemory as NoMemory};

use asn1_core::OffsetDateTime;
use der_tree::Bytes;
use rcgen_issue::{Certificate, CertificateRevocationList, RevocationReason, RevokedCertParams};
use rcgen_sign::PublicKey;
use rcgen_text::DistinguishedName;
use std::alloc::{AllocError, AllocFailed};
use thiserror::Error;

/// How many certificates there may be, and how many lists. With `u64::MAX` lists there is always a
/// next one.
#[derive(Clone, Copy, Debug, PartialEq, Eq)]
pub struct Limits {
    pub certificates: u64,
    pub lists: u64,
}

/// What was issued, listed and revoked, as a caller keeps it.
#[derive(Clone, Debug, PartialEq, Eq, Drop)]
pub struct Register {
    /// How many certificates were issued, which is the serial number of the last one.
    pub issued: u64,
    /// How many lists were made, which is the number of the last one.
    pub lists: u64,
    /// The entries, in the order in which they were revoked.
    pub revoked: Vec<RevokedCertParams>,
}

/// What an authority is asked for.
#[derive(Clone, Debug, PartialEq, Eq, Drop)]
pub enum Command {
    /// A certificate for the key, as `Authority::issue` makes it.
    Issue {
        key: PublicKey,
        name: DistinguishedName,
        not_before: OffsetDateTime,
        not_after: OffsetDateTime,
    },
    /// That the certificate with that serial number is revoked, as by `Authority::revoke`.
    Revoke {
        serial: u64,
        time: OffsetDateTime,
        reason: Option<RevocationReason>,
    },
    /// A list of what is revoked, as `Authority::list` makes it.
    List {
        this_update: OffsetDateTime,
        next_update: OffsetDateTime,
    },
}

/// What it answers.
#[derive(Debug, Drop)]
pub enum Reply {
    /// A certificate with that serial number, and its DER.
    Issued { serial: u64, der: Bytes },
    /// The certificate with that serial number is revoked.
    Revoked { serial: u64 },
    /// The list with that number, and its DER.
    Listed { number: u64, der: Bytes },
    /// Nothing was done.
    Refused(Refusal),
}

/// Why a command is refused, which changes nothing.
#[derive(Clone, Debug, PartialEq, Eq, Drop)]
pub enum Refusal {
    /// As many certificates, or lists, as there may be were made.
    Full,
    /// No certificate has that serial number.
    UnknownSerial,
    /// The certificate with that serial number is revoked.
    AlreadyRevoked,
    /// What is asked for can't be issued, and why.
    Refused(rcgen_text::Error),
}

/// Why a call fails, which changes nothing.
#[derive(Clone, Debug, PartialEq, Eq, Drop, Error)]
pub enum AuthorityError {
    /// As many certificates, or lists, as there may be were made.
    #[error("Full")]
    Full,
    /// No certificate has that serial number.
    #[error("UnknownSerial")]
    UnknownSerial,
    /// The certificate with that serial number is revoked.
    #[error("AlreadyRevoked")]
    AlreadyRevoked,
    /// What is asked for can't be issued, and why. It is never lack of memory.
    #[error("{0}")]
    Refused(rcgen_text::Error),
    /// No memory was left.
    #[error("OutOfMemory")]
    OutOfMemory,
}

impl From<AllocError> for AuthorityError {
    ghost from_gives = { λ _ e. e ≡ NoMemory };

    fn from(_e: AllocError) -> AuthorityError {
        AuthorityError::OutOfMemory
    }
}

impl<T: Drop> From<AllocFailed<T>> for AuthorityError {
    ghost from_gives = { λ _ e. e ≡ NoMemory };

    fn from(_e: AllocFailed<T>) -> AuthorityError {
        AuthorityError::OutOfMemory
    }
}

impl From<rcgen_text::Error> for AuthorityError {
    ghost from_gives = { λ e told. IsToldAs e told };

    fn from(e: rcgen_text::Error) -> AuthorityError {
        match e {
            rcgen_text::Error::OutOfMemory => AuthorityError::OutOfMemory,
            e => AuthorityError::Refused(e),
        }
    }
}

/// A certificate that was issued.
#[derive(Clone, Debug, PartialEq, Eq, Drop)]
pub struct Issued {
    /// Its serial number.
    pub serial: u64,
    /// The certificate with its DER.
    pub certificate: Certificate,
}

/// A list that was made.
#[derive(Clone, Debug, PartialEq, Eq, Drop)]
pub struct Listed {
    /// Its number (RFC 5280, 5.2.3).
    pub number: u64,
    /// The list with its DER.
    pub list: CertificateRevocationList,
}
