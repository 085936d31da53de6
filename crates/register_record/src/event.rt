//! The events of an authority's history.
use asn1_core::{Integer, OctetString};

/// What a serial number is for.
#[derive(Clone, Copy, Debug)]
pub enum Kind {
    Certificate,
    /// RFC 5755.
    AttributeCertificate,
}

/// Why a certificate is revoked: the CRLReason of RFC 5280, 5.3.1, without removeFromCRL, which is no
/// reason to revoke.
#[derive(Clone, Copy, Debug)]
pub enum Reason {
    Unspecified,
    KeyCompromise,
    CaCompromise,
    AffiliationChanged,
    Superseded,
    CessationOfOperation,
    CertificateHold,
    PrivilegeWithdrawn,
    AaCompromise,
}

/// What the entry of a revoked certificate says (RFC 5280, 5.1.2.6, 5.3). Times are seconds since 1970.
#[derive(Clone, Copy, Debug)]
pub struct Revocation {
    pub time: i64,
    pub reason: Reason,
    pub invalidity_date: Option<i64>,
}

/// Whether a list has all that is revoked, or what has changed since the last that has (RFC 5280,
/// 5.2.4).
#[derive(Clone, Copy, Debug)]
pub enum ListKind {
    Complete,
    Delta,
}

/// What an authority does. Times are seconds since 1970; messages are to-be-signed octets.
#[derive(Drop)]
pub enum Event {
    /// Its own certificate.
    Issuer {
        certificate: OctetString,
    },
    /// A serial number is taken for a message that a key is to sign.
    Reserved {
        serial: Integer,
        kind: Kind,
        not_after: i64,
        message: OctetString,
    },
    /// The certificate that the signature made of the message.
    Sealed {
        serial: Integer,
        octets: OctetString,
    },
    /// The certificate is revoked, or put on hold.
    Revoked {
        serial: Integer,
        revocation: Revocation,
    },
    /// A certificate on hold is revoked for good. The entry keeps the time of the hold (X.509, reason
    /// code extension).
    MadeFinal {
        serial: Integer,
        revocation: Revocation,
    },
    /// A certificate on hold is valid again.
    Released {
        serial: Integer,
        time: i64,
    },
    /// A list's number is taken for a message that a key is to sign.
    ListReserved {
        number: u64,
        kind: ListKind,
        this_update: i64,
        next_update: i64,
        message: OctetString,
    },
    /// The list that the signature made of the message.
    ListSealed {
        number: u64,
        octets: OctetString,
    },
}
