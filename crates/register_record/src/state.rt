//! What the events so far come to.
use crate::event::{Kind, ListKind, Revocation};
use asn1_core::{Integer, OctetString};

/// What a key is to sign, or what its signature made of it.
#[derive(Drop)]
pub enum Content {
    /// The message.
    Pending(OctetString),
    /// The octets.
    Sealed(OctetString),
}

/// How the status of a certificate changed last.
#[derive(Clone, Copy, Debug)]
pub enum Change {
    Revoked(Revocation),
    /// It was on hold until this time.
    Released(i64),
}

/// What is recorded under a serial number.
#[derive(Drop)]
pub struct Certificate {
    pub serial: Integer,
    pub kind: Kind,
    /// When its validity ends.
    pub not_after: i64,
    pub content: Content,
    /// None where it was never revoked.
    pub change: Option<Change>,
    /// The number of the last list that was reserved before this change, or 0.
    pub since: u64,
}

/// The last list that was reserved.
#[derive(Drop)]
pub struct RevocationList {
    pub number: u64,
    pub kind: ListKind,
    pub this_update: i64,
    pub next_update: i64,
    pub content: Content,
}

/// The last complete list that was sealed, which delta lists are based on.
#[derive(Clone, Copy, Debug)]
pub struct Base {
    pub number: u64,
    pub this_update: i64,
}
