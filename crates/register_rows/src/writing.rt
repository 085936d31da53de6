//! Events as rows.
ghost use Rattle.std.specs.Prelude.{◌≡◌, ◌↔◌, ◌<◌, ◌^◌, ◌∷◌, [], ℕ, pos, suc, false, nat_lt, IfOk, IsErrOf};
ghost use Rattle.sqlite_value.specs.Value.{owned};
ghost use Rattle.sqlite_value.specs.declared.value.Value.TheVariants as value;
ghost use Rattle.register_rows.specs.Columns.{columns, kind_number, list_kind_number, reason_number, revocation_columns, time_or_null};
ghost use Rattle.register_rows.specs.Given.{given};
ghost use Rattle.register_rows.specs.Rows.{is_kept, row_of};
ghost use Rattle.register_record.specs.Following.{end_of_numbers};
ghost use Rattle.register_rows.specs.declared.error.RowError.TheVariants as failure;

use crate::error::RowError;
use asn1_core::Integer;
use register_record::{Event, Kind, ListKind, Reason, Revocation};
use sqlite_value::row::Row;
use sqlite_value::value::ValueRef;
use std::alloc::{AllocError, Global};

/// The columns after the rowid and the column of the INTEGER PRIMARY KEY.
#[derive(Clone, Copy)]
pub(crate) struct Columns<'a> {
    pub(crate) kind: ValueRef<'a>,
    pub(crate) detail: ValueRef<'a>,
    pub(crate) serial: ValueRef<'a>,
    pub(crate) number: ValueRef<'a>,
    pub(crate) time: ValueRef<'a>,
    pub(crate) until: ValueRef<'a>,
    pub(crate) body: ValueRef<'a>,
}

fn kind_number(kind: Kind) -> i64
    ensures { result ≡ pos (kind_number kind) }
{
    match kind {
        Kind::Certificate => 0,
        Kind::AttributeCertificate => 1,
    }
}

fn list_kind_number(kind: ListKind) -> i64
    ensures { result ≡ pos (list_kind_number kind) }
{
    match kind {
        ListKind::Complete => 0,
        ListKind::Delta => 1,
    }
}

/// The CRLReason (RFC 5280, 5.3.1).
fn reason_number(reason: Reason) -> i64
    ensures { result ≡ pos (reason_number reason) }
{
    match reason {
        Reason::Unspecified => 0,
        Reason::KeyCompromise => 1,
        Reason::CaCompromise => 2,
        Reason::AffiliationChanged => 3,
        Reason::Superseded => 4,
        Reason::CessationOfOperation => 5,
        Reason::CertificateHold => 6,
        Reason::PrivilegeWithdrawn => 9,
        Reason::AaCompromise => 10,
    }
}

fn time_or_null(time: Option<i64>) -> ValueRef<'static>
    ensures { owned result ≡ time_or_null time }
{
    match time {
        Some(time) => ValueRef::Int(time),
        None => ValueRef::Null,
    }
}

/// The number of a list, which a row keeps below 2^63.
fn list_number(number: u64) -> Result<ValueRef<'static>, RowError>
    ensures ok { IfOk result (λ n. owned n ≡ value.Int (pos number)) }
    ensures too_large { IsErrOf result failure.NumberTooLarge ↔ (nat_lt number end_of_numbers ≡ false) }
{
    if number > i64::MAX as u64 {
        return Err(RowError::NumberTooLarge);
    }
    Ok(ValueRef::Int(number as i64))
}

/// The columns of a kind of event, with nothing in the others.
fn of_kind(kind: i64) -> Columns<'static>
    ensures { given result ≡ value.Int kind ∷ value.Null ∷ value.Null ∷ value.Null ∷ value.Null ∷ value.Null ∷ value.Null ∷ [] }
{
    Columns {
        kind: ValueRef::Int(kind),
        detail: ValueRef::Null,
        serial: ValueRef::Null,
        number: ValueRef::Null,
        time: ValueRef::Null,
        until: ValueRef::Null,
        body: ValueRef::Null,
    }
}

fn revocation_columns<'a>(kind: i64, serial: &'a Integer, revocation: &Revocation) -> Columns<'a>
    ensures { (k : ℕ) → kind ≡ pos k → given result ≡ revocation_columns k serial.now revocation.now }
{
    Columns {
        kind: ValueRef::Int(kind),
        detail: ValueRef::Int(reason_number(revocation.reason)),
        serial: ValueRef::Blob(serial.as_bytes()),
        number: ValueRef::Null,
        time: ValueRef::Int(revocation.time),
        until: time_or_null(revocation.invalidity_date),
        body: ValueRef::Null,
    }
}

fn columns_of(event: &Event) -> Result<Columns<'_>, RowError>
    ensures ok { IfOk result (λ c. given c ≡ columns event.now) }
    ensures too_large { IsErrOf result failure.NumberTooLarge → is_kept event.now ≡ false }
{
    match event {
        Event::Issuer { certificate } => Ok(Columns {
            body: ValueRef::Blob(certificate.as_slice()),
            ..of_kind(1)
        }),
        Event::Reserved {
            serial,
            kind,
            not_after,
            message,
        } => Ok(Columns {
            detail: ValueRef::Int(kind_number(*kind)),
            serial: ValueRef::Blob(serial.as_bytes()),
            time: ValueRef::Int(*not_after),
            body: ValueRef::Blob(message.as_slice()),
            ..of_kind(2)
        }),
        Event::Sealed { serial, octets } => Ok(Columns {
            serial: ValueRef::Blob(serial.as_bytes()),
            body: ValueRef::Blob(octets.as_slice()),
            ..of_kind(3)
        }),
        Event::Revoked { serial, revocation } => Ok(revocation_columns(4, serial, revocation)),
        Event::MadeFinal { serial, revocation } => Ok(revocation_columns(5, serial, revocation)),
        Event::Released { serial, time } => Ok(Columns {
            serial: ValueRef::Blob(serial.as_bytes()),
            time: ValueRef::Int(*time),
            ..of_kind(6)
        }),
        Event::ListReserved {
            number,
            kind,
            this_update,
            next_update,
            message,
        } => {
            let number = list_number(*number)?;
            Ok(Columns {
                detail: ValueRef::Int(list_kind_number(*kind)),
                number,
                time: ValueRef::Int(*this_update),
                until: ValueRef::Int(*next_update),
                body: ValueRef::Blob(message.as_slice()),
                ..of_kind(7)
            })
        }
        Event::ListSealed { number, octets } => {
            let number = list_number(*number)?;
            Ok(Columns {
                number,
                body: ValueRef::Blob(octets.as_slice()),
                ..of_kind(8)
            })
        }
    }
}

fn rowid(before: u64) -> ValueRef<'static>
    requires { before < 2 ^ 62 }
    ensures { owned result ≡ value.Int (pos (suc before)) }
{
    ValueRef::Int((before + 1) as i64)
}

/// The row of these columns, after so many others.
fn row_with(alloc: Global, before: u64, columns: Columns<'_>) -> Result<Row, AllocError>
    requires { before < 2 ^ 62 }
    ensures { IfOk result (λ row. row ≡ value.Int (pos (suc before)) ∷ value.Null ∷ given columns.entry) }
{
    let mut row = Row::new(alloc);
    row.push(rowid(before))?;
    row.push(ValueRef::Null)?;
    row.push(columns.kind)?;
    row.push(columns.detail)?;
    row.push(columns.serial)?;
    row.push(columns.number)?;
    row.push(columns.time)?;
    row.push(columns.until)?;
    row.push(columns.body)?;
    Ok(row)
}

/// The row of an event, after so many others.
pub fn row_of(alloc: Global, before: u64, event: &Event) -> Result<Row, RowError>
    requires { before < 2 ^ 62 }
    ensures ok { IfOk result (λ row. row ≡ row_of before event.now) }
    ensures too_large { IsErrOf result failure.NumberTooLarge → is_kept event.now ≡ false }
{
    let columns = columns_of(event)?;
    Ok(row_with(alloc, before, columns)?)
}
