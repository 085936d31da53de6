//! Rows as events.
ghost use Rattle.std.specs.Prelude.{◌≡◌, ◌≢◌, ◌<◌, ◌^◌, None, Some, IfOk, IsErrOf, true, false};
ghost use Rattle.std.specs.Option.{option_map};
ghost use Rattle.sqlite_value.specs.Value.{owned};
ghost use Rattle.register_rows.specs.Rows.{is_kept, row_of};
ghost use Rattle.register_rows.specs.Reading.{event_in, integer, integer_at, issuer_in, kind_of, list_kind_of, list_reserved_in, list_sealed_in, made_final_in, natural, octets_at, reason_of, released_in, reserved_in, revocation_in, revoked_in, sealed_in, serial_in, time_in};
ghost use Rattle.register_rows.specs.declared.error.ReadError.TheVariants as failure;

use crate::error::{ReadError, RowError};
use crate::writing::row_of;
use asn1_core::{Integer, OctetString, OutOfMemory};
use register_record::{Event, Kind, ListKind, Reason, Revocation};
use sqlite_value::row::Row;
use sqlite_value::value::ValueRef;
use std::alloc::Global;

fn integer(value: ValueRef<'_>) -> i64
    ensures { result ≡ integer (owned value.entry) }
{
    match value {
        ValueRef::Int(n) => n,
        _ => 0,
    }
}

fn time_in(value: ValueRef<'_>) -> Option<i64>
    ensures { result ≡ time_in (owned value.entry) }
{
    match value {
        ValueRef::Int(n) => Some(n),
        _ => None,
    }
}

fn natural(n: i64) -> u64
    ensures { result ≡ natural n }
{
    if n < 0 { 0 } else { n as u64 }
}

fn kind_of(n: i64) -> Kind
    ensures { result ≡ kind_of n }
{
    match n {
        0 => Kind::Certificate,
        _ => Kind::AttributeCertificate,
    }
}

fn list_kind_of(n: i64) -> ListKind
    ensures { result ≡ list_kind_of n }
{
    match n {
        0 => ListKind::Complete,
        _ => ListKind::Delta,
    }
}

fn reason_of(n: i64) -> Reason
    ensures { result ≡ reason_of n }
{
    match n {
        0 => Reason::Unspecified,
        1 => Reason::KeyCompromise,
        2 => Reason::CaCompromise,
        3 => Reason::AffiliationChanged,
        4 => Reason::Superseded,
        5 => Reason::CessationOfOperation,
        6 => Reason::CertificateHold,
        9 => Reason::PrivilegeWithdrawn,
        _ => Reason::AaCompromise,
    }
}

fn octets_at(row: &Row, at: usize) -> &[u8]
    ensures { result.now ≡ octets_at row.now at }
{
    match row.get(at) {
        ValueRef::Text(octets) => octets,
        ValueRef::Blob(octets) => octets,
        _ => &[],
    }
}

fn integer_at(row: &Row, at: usize) -> i64
    ensures { result ≡ integer_at row.now at }
{
    integer(row.get(at))
}

fn body(alloc: Global, row: &Row) -> Result<OctetString, OutOfMemory>
    ensures { IfOk result (λ octets. octets ≡ octets_at row.now 8) }
{
    Ok(OctetString::new(Vec::from_slice(alloc, octets_at(row, 8))?))
}

#[tactic(auto, unfolding(asn1_core::specs::Twos::integer_contents))]
fn serial(alloc: Global, row: &Row) -> Result<Integer, ReadError>
    ensures ok { IfOk result (λ s. serial_in row.now ≡ Some s) }
    ensures no_event { IsErrOf result failure.NoEvent → serial_in row.now ≡ None }
{
    match Integer::from_contents(alloc, octets_at(row, 4))? {
        Some(serial) => Ok(serial),
        None => Err(ReadError::NoEvent),
    }
}

fn revocation(row: &Row) -> Revocation
    ensures { result ≡ revocation_in row.now }
{
    Revocation {
        time: integer_at(row, 6),
        reason: reason_of(integer_at(row, 3)),
        invalidity_date: time_in(row.get(7)),
    }
}

fn reserved(alloc: Global, row: &Row) -> Result<Event, ReadError>
    ensures ok { IfOk result (λ e. option_map (reserved_in row.now) (serial_in row.now) ≡ Some e) }
    ensures no_event { IsErrOf result failure.NoEvent → option_map (reserved_in row.now) (serial_in row.now) ≡ None }
{
    let serial = serial(alloc, row)?;
    let message = body(alloc, row)?;
    Ok(Event::Reserved {
        serial,
        kind: kind_of(integer_at(row, 3)),
        not_after: integer_at(row, 6),
        message,
    })
}

fn sealed(alloc: Global, row: &Row) -> Result<Event, ReadError>
    ensures ok { IfOk result (λ e. option_map (sealed_in row.now) (serial_in row.now) ≡ Some e) }
    ensures no_event { IsErrOf result failure.NoEvent → option_map (sealed_in row.now) (serial_in row.now) ≡ None }
{
    let serial = serial(alloc, row)?;
    let octets = body(alloc, row)?;
    Ok(Event::Sealed { serial, octets })
}

fn revoked(alloc: Global, row: &Row) -> Result<Event, ReadError>
    ensures ok { IfOk result (λ e. option_map (revoked_in row.now) (serial_in row.now) ≡ Some e) }
    ensures no_event { IsErrOf result failure.NoEvent → option_map (revoked_in row.now) (serial_in row.now) ≡ None }
{
    let serial = serial(alloc, row)?;
    let revocation = revocation(row);
    Ok(Event::Revoked { serial, revocation })
}

fn made_final(alloc: Global, row: &Row) -> Result<Event, ReadError>
    ensures ok { IfOk result (λ e. option_map (made_final_in row.now) (serial_in row.now) ≡ Some e) }
    ensures no_event { IsErrOf result failure.NoEvent → option_map (made_final_in row.now) (serial_in row.now) ≡ None }
{
    let serial = serial(alloc, row)?;
    let revocation = revocation(row);
    Ok(Event::MadeFinal { serial, revocation })
}

fn released(alloc: Global, row: &Row) -> Result<Event, ReadError>
    ensures ok { IfOk result (λ e. option_map (released_in row.now) (serial_in row.now) ≡ Some e) }
    ensures no_event { IsErrOf result failure.NoEvent → option_map (released_in row.now) (serial_in row.now) ≡ None }
{
    let serial = serial(alloc, row)?;
    let time = integer_at(row, 6);
    Ok(Event::Released { serial, time })
}

fn list_reserved(alloc: Global, row: &Row) -> Result<Event, OutOfMemory>
    ensures { IfOk result (λ e. e ≡ list_reserved_in row.now) }
{
    let message = body(alloc, row)?;
    Ok(Event::ListReserved {
        number: natural(integer_at(row, 5)),
        kind: list_kind_of(integer_at(row, 3)),
        this_update: integer_at(row, 6),
        next_update: integer_at(row, 7),
        message,
    })
}

fn list_sealed(alloc: Global, row: &Row) -> Result<Event, OutOfMemory>
    ensures { IfOk result (λ e. e ≡ list_sealed_in row.now) }
{
    let octets = body(alloc, row)?;
    let number = natural(integer_at(row, 5));
    Ok(Event::ListSealed { number, octets })
}

fn issuer(alloc: Global, row: &Row) -> Result<Event, OutOfMemory>
    ensures { IfOk result (λ e. e ≡ issuer_in row.now) }
{
    let certificate = body(alloc, row)?;
    Ok(Event::Issuer { certificate })
}

/// The one event that the row can be of.
fn event_in(alloc: Global, row: &Row) -> Result<Event, ReadError>
    ensures ok { IfOk result (λ e. event_in row.now ≡ Some e) }
    ensures no_event { IsErrOf result failure.NoEvent → event_in row.now ≡ None }
{
    match integer_at(row, 2) {
        1 => Ok(issuer(alloc, row)?),
        2 => reserved(alloc, row),
        3 => sealed(alloc, row),
        4 => revoked(alloc, row),
        5 => made_final(alloc, row),
        6 => released(alloc, row),
        7 => Ok(list_reserved(alloc, row)?),
        8 => Ok(list_sealed(alloc, row)?),
        _ => Err(ReadError::NoEvent),
    }
}

fn is_row_of(alloc: Global, before: u64, event: &Event, row: &Row) -> Result<bool, OutOfMemory>
    requires { before < 2 ^ 62 }
    ensures yes { IfOk result (λ same. same ≡ true → row.now ≡ row_of before event.now) }
    ensures no { IfOk result (λ same. same ≡ false → is_kept event.now ≡ true → row.now ≢ row_of before event.now) }
{
    match row_of(alloc, before, event) {
        Ok(made) => Ok(made.is_same(row)),
        Err(RowError::NumberTooLarge) => Ok(false),
        Err(RowError::OutOfMemory) => Err(OutOfMemory),
    }
}

/// The event of a row that so many others come before. `NoEvent` exactly where it is the row of none.
pub fn read_event(alloc: Global, before: u64, row: &Row) -> Result<Event, ReadError>
    requires { before < 2 ^ 62 }
    ensures ok { IfOk result (λ e. row.now ≡ row_of before e) }
    ensures no_event { IsErrOf result failure.NoEvent → (e : Event) → is_kept e ≡ true → row.now ≢ row_of before e }
{
    let event = event_in(alloc, row)?;
    if !is_row_of(alloc, before, &event, row)? {
        return Err(ReadError::NoEvent);
    }
    Ok(event)
}
