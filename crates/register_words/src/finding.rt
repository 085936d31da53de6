//! Certificates by what is asked of them.
ghost use Rattle.std.specs.Prelude.{◌≡◌, ◌&&◌, IfOk, map};
ghost use Rattle.std.specs.Borrow.{Bor};
ghost use Rattle.std.specs.List.{filter};
ghost use Rattle.register_record.specs.Following.{is_hold};
ghost use Rattle.register_record.specs.declared.state.Certificate.{Certificate};
ghost use Rattle.register_words.specs.Find.{has_serial, has_status, is_from, is_to, matches, status_number, status_of, status_of_change};

use asn1_core::Integer;
use register_record::{Certificate, Change, Content, Reason};
use std::alloc::{AllocError, Global};

/// What there is of a certificate.
#[derive(Clone, Copy, Debug)]
pub enum Status {
    /// Its message is reserved, and not yet signed.
    Pending,
    Issued,
    OnHold,
    Revoked,
}

fn status_number(status: Status) -> u8
    ensures { result ≡ status_number status }
{
    match status {
        Status::Pending => 0,
        Status::Issued => 1,
        Status::OnHold => 2,
        Status::Revoked => 3,
    }
}

fn is_hold(reason: Reason) -> bool
    ensures { result ≡ is_hold reason }
{
    matches!(reason, Reason::CertificateHold)
}

fn status_of_change(change: Option<Change>) -> Status
    ensures { result ≡ status_of_change change }
{
    match change {
        Some(Change::Revoked(revocation)) => {
            if is_hold(revocation.reason) {
                Status::OnHold
            } else {
                Status::Revoked
            }
        }
        _ => Status::Issued,
    }
}

/// What there is of a certificate.
pub fn status_of(certificate: &Certificate) -> Status
    ensures { result ≡ status_of certificate.now.content certificate.now.change }
{
    match certificate.content {
        Content::Pending(_) => Status::Pending,
        Content::Sealed(_) => status_of_change(certificate.change),
    }
}

/// What is asked of certificates: each part that there is has to hold. Times are seconds since 1970.
#[derive(Drop)]
pub struct Query {
    pub serial: Option<Integer>,
    pub status: Option<Status>,
    /// The validity ends at this time or later.
    pub ends_from: Option<i64>,
    /// The validity ends at this time or before.
    pub ends_to: Option<i64>,
}

fn has_serial(serial: &Option<Integer>, certificate: &Certificate) -> bool
    ensures { result ≡ has_serial serial.now certificate.now.serial }
{
    match serial {
        Some(serial) => certificate.serial.as_bytes() == serial.as_bytes(),
        None => true,
    }
}

fn has_status(status: Option<Status>, certificate: &Certificate) -> bool
    ensures { result ≡ has_status status certificate.now }
{
    match status {
        Some(status) => status_number(status_of(certificate)) == status_number(status),
        None => true,
    }
}

fn is_from(from: Option<i64>, time: i64) -> bool
    ensures { result ≡ is_from from time }
{
    match from {
        Some(from) => from <= time,
        None => true,
    }
}

fn is_to(to: Option<i64>, time: i64) -> bool
    ensures { result ≡ is_to to time }
{
    match to {
        Some(to) => time <= to,
        None => true,
    }
}

/// Whether the certificate is what is asked for.
pub fn matches(query: &Query, certificate: &Certificate) -> bool
    ensures { result ≡ matches query.now certificate.now }
{
    has_serial(&query.serial, certificate)
        && has_status(query.status, certificate)
        && is_from(query.ends_from, certificate.not_after)
        && is_to(query.ends_to, certificate.not_after)
}

/// The certificates that are asked for, in the order in which their serial numbers were reserved.
pub fn find<'a>(
    alloc: Global,
    query: &Query,
    certificates: &'a [Certificate],
) -> Result<Vec<&'a Certificate>, AllocError>
    ensures { IfOk result (λ found. map (λ (b : Bor Certificate). b.now) found.items ≡ filter (matches query.now) certificates.now) }
{
    let mut found = Vec::new(alloc);
    for certificate in certificates {
        if matches(query, certificate) {
            found.push(certificate)?;
        }
    }
    Ok(found)
}
