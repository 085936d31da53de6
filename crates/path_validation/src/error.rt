//! Why a path isn't valid.
ghost use Rattle.std.specs.Prelude.{◌≡◌};
ghost use Rattle.path_validation.specs.declared.error.PathError.TheVariants as error;

use asn1_core::OutOfMemory;
use std::alloc::{AllocError, AllocFailed};
use thiserror::Error;

/// Why a certificate isn't taken at its place, in the order of the steps. The sections are those of
/// RFC 5280.
#[derive(Clone, Copy, Debug, PartialEq, Eq, Error)]
pub enum PathReason {
    /// The path has no certificate (6.1.1 (a)).
    #[error("Empty")]
    Empty,
    /// Two extensions have one identifier, one that is critical or that a step reads can't be read, has
    /// not the size of its type or more than is compared, or a policy is named twice (4.2, 4.2.1); its
    /// version isn't one that has extensions, or is none (4.1.2.1, 4.1.2.9); or a time has a fraction of
    /// a second (4.1.2.5.2).
    #[error("BadExtension")]
    BadExtension,
    /// The algorithm within what is signed isn't the one after it (4.1.1.2).
    #[error("AlgorithmsDiffer")]
    AlgorithmsDiffer,
    /// The signature has unused bits, or isn't accepted under the working public key (6.1.3 (a) (1)).
    #[error("BadSignature")]
    BadSignature,
    /// The time is before `not_before` (6.1.3 (a) (2)).
    #[error("NotYetValid")]
    NotYetValid,
    /// The time is after `not_after` (6.1.3 (a) (2)).
    #[error("Expired")]
    Expired,
    /// It is revoked (6.1.3 (a) (3)).
    #[error("Revoked")]
    Revoked,
    /// Whether it is revoked isn't known (6.1.3 (a) (3)).
    #[error("Undetermined")]
    Undetermined,
    /// Its issuer isn't the working issuer name (6.1.3 (a) (4), 7.1).
    #[error("NameMismatch")]
    NameMismatch,
    /// A part of its issuer or of its subject has more than 16 attributes, more than 16,777,216 pairs of
    /// policies would be compared, or comparing its names with the subtrees above it would read more
    /// than 1,000,000 octets (6.1.3 (a) (4), (b), (c) and (d), 6.1.5 (g)).
    #[error("TooMuchWork")]
    TooMuchWork,
    /// It has a name of a form for which there is a constraint that can't be held against it
    /// (6.1.3 (b) and (c), 4.2.1.10).
    #[error("UnprocessedNameForm")]
    UnprocessedNameForm,
    /// A name of it is in none of the permitted subtrees (6.1.3 (b)).
    #[error("NotPermitted")]
    NotPermitted,
    /// A name of it is in an excluded subtree (6.1.3 (c)).
    #[error("Excluded")]
    Excluded,
    /// A policy is required, and none is valid (6.1.3 (f)).
    #[error("NoPolicy")]
    NoPolicy,
    /// It maps anyPolicy, or to anyPolicy (6.1.4 (a)).
    #[error("MappedAnyPolicy")]
    MappedAnyPolicy,
    /// It issued another certificate of the path and isn't one of version 3 that is a CA's (6.1.4 (k)).
    #[error("NotCa")]
    NotCa,
    /// More certificates that aren't self-issued are below a CA than it allows (6.1.4 (l)).
    #[error("PathTooLong")]
    PathTooLong,
    /// It issued another certificate of the path, and its key isn't for that (6.1.4 (n)).
    #[error("NoCertSign")]
    NoCertSign,
    /// A critical extension isn't one that is processed here (6.1.4 (o), 6.1.5 (f)).
    #[error("UnprocessedCritical")]
    UnprocessedCritical,
    /// A policy is required, and none of the user's is valid (6.1.5 (g)).
    #[error("NoUserPolicy")]
    NoUserPolicy,
}

/// Why a path isn't valid.
#[derive(Clone, Copy, Debug, PartialEq, Eq, Drop, Error)]
pub enum PathError {
    /// The first reason, and the place where it holds: 1 is the certificate that the anchor issued.
    #[error("{place} {reason}")]
    Fault { place: u64, reason: PathReason },
    /// Whether the path is valid isn't known.
    #[error("OutOfMemory")]
    OutOfMemory,
}

impl From<AllocError> for PathError {
    ghost from_gives = { λ _ e. e ≡ error.OutOfMemory };

    fn from(_e: AllocError) -> PathError {
        PathError::OutOfMemory
    }
}

impl<T: Drop> From<AllocFailed<T>> for PathError {
    ghost from_gives = { λ _ e. e ≡ error.OutOfMemory };

    fn from(_e: AllocFailed<T>) -> PathError {
        PathError::OutOfMemory
    }
}

impl From<OutOfMemory> for PathError {
    ghost from_gives = { λ _ e. e ≡ error.OutOfMemory };

    fn from(_e: OutOfMemory) -> PathError {
        PathError::OutOfMemory
    }
}
