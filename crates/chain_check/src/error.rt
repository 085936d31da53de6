//! Why a chain isn't taken.
ghost use Rattle.std.specs.Prelude.{◌≡◌};
ghost use Rattle.chain_check.specs.declared.error.ChainError.TheVariants as error;

use asn1_core::OutOfMemory;
use std::alloc::{AllocError, AllocFailed};
use thiserror::Error;

/// Why a certificate isn't taken at its place, in the order of the tests.
#[derive(Clone, Copy, Debug, PartialEq, Eq, Error)]
pub enum ChainReason {
    /// The chain has no certificate.
    #[error("Empty")]
    Empty,
    /// What is left of the chain doesn't begin with a certificate, or the anchor isn't exactly one.
    #[error("NotCertificate")]
    NotCertificate,
    /// The algorithm within what is signed isn't the one after it (RFC 5280, 4.1.1.2).
    #[error("AlgorithmsDiffer")]
    AlgorithmsDiffer,
    /// The time is before `not_before` (RFC 5280, 4.1.2.5).
    #[error("NotYetValid")]
    NotYetValid,
    /// The time is after `not_after` (RFC 5280, 4.1.2.5).
    #[error("Expired")]
    Expired,
    /// Two extensions have one identifier, or key usage or basic constraints can't be read
    /// (RFC 5280, 4.2).
    #[error("BadExtension")]
    BadExtension,
    /// A critical extension is none that is known here (RFC 5280, 4.2).
    #[error("UnhandledCritical")]
    UnhandledCritical,
    /// It issued another certificate of the chain and is no CA's (RFC 5280, 6.1.4 (k)).
    #[error("NotCa")]
    NotCa,
    /// It issued another certificate of the chain, and its key isn't for that (RFC 5280, 6.1.4 (n)).
    #[error("NoCertSign")]
    NoCertSign,
    /// More certificates that aren't self-issued are between it and the leaf than it allows
    /// (RFC 5280, 6.1.4 (l) and (m)).
    #[error("PathTooLong")]
    PathTooLong,
    /// Its issuer isn't the subject of the next certificate (RFC 5280, 6.1.3 (a) (4)).
    #[error("NameMismatch")]
    NameMismatch,
    /// Its signature has unused bits, or isn't accepted under the key of the next certificate
    /// (RFC 5280, 6.1.3 (a) (1)).
    #[error("BadSignature")]
    BadSignature,
}

/// Why a chain isn't taken.
#[derive(Clone, Copy, Debug, PartialEq, Eq, Drop, Error)]
pub enum ChainError {
    /// The first reason, and the place where it holds: 1 is the leaf, and the anchor comes after the
    /// last of the chain.
    #[error("{place} {reason}")]
    Fault { place: u64, reason: ChainReason },
    /// Whether the chain is taken isn't known.
    #[error("OutOfMemory")]
    OutOfMemory,
}

impl From<AllocError> for ChainError {
    ghost from_gives = { λ _ e. e ≡ error.OutOfMemory };

    fn from(_e: AllocError) -> ChainError {
        ChainError::OutOfMemory
    }
}

impl<T: Drop> From<AllocFailed<T>> for ChainError {
    ghost from_gives = { λ _ e. e ≡ error.OutOfMemory };

    fn from(_e: AllocFailed<T>) -> ChainError {
        ChainError::OutOfMemory
    }
}

impl From<OutOfMemory> for ChainError {
    ghost from_gives = { λ _ e. e ≡ error.OutOfMemory };

    fn from(_e: OutOfMemory) -> ChainError {
        ChainError::OutOfMemory
    }
}
