//! Events as JSON.
ghost use Rattle.std.specs.Prelude.{◌≡◌, ◌++◌, ◌∷◌, [], IfOk, codes, string_bytes};
ghost use Rattle.hex.specs.Hex.{encode_lower};
ghost use Rattle.serde_json.specs.Data.{Data, member, no_members, number, object, string, unsigned};
ghost use Rattle.serde_json.specs.View.{view};
ghost use Rattle.serde_json.specs.Written.{compact_text};
ghost use Rattle.register_words.specs.Json.{event_data, kind_word, list_word, number_data, octets_data, reason_word, revocation_data, time_data, time_or_null};

use asn1_core::{Integer, OctetString};
use register_record::{Event, Kind, ListKind, Reason, Revocation};
use serde_json::{Value, json};
use std::alloc::{AllocError, Global};

/// The word for what a serial number is for.
pub fn kind_word(kind: Kind) -> &'static str
    ensures { result.now ≡ kind_word kind }
{
    match kind {
        Kind::Certificate => "certificate",
        Kind::AttributeCertificate => "attribute certificate",
    }
}

/// The word for whether a list is complete.
pub fn list_word(kind: ListKind) -> &'static str
    ensures { result.now ≡ list_word kind }
{
    match kind {
        ListKind::Complete => "complete",
        ListKind::Delta => "delta",
    }
}

/// The name of a reason (RFC 5280, 5.3.1).
pub fn reason_word(reason: Reason) -> &'static str
    ensures { result.now ≡ reason_word reason }
{
    match reason {
        Reason::Unspecified => "unspecified",
        Reason::KeyCompromise => "keyCompromise",
        Reason::CaCompromise => "cACompromise",
        Reason::AffiliationChanged => "affiliationChanged",
        Reason::Superseded => "superseded",
        Reason::CessationOfOperation => "cessationOfOperation",
        Reason::CertificateHold => "certificateHold",
        Reason::PrivilegeWithdrawn => "privilegeWithdrawn",
        Reason::AaCompromise => "aACompromise",
    }
}

fn octets_value(alloc: Global, octets: &[u8]) -> Result<Value, AllocError>
    ensures { IfOk result (λ v. view v ≡ octets_data octets.now) }
{
    let text = hex::encode(alloc, octets)?;
    Ok(Value::from(text))
}

fn time_value(time: i64) -> Value
    ensures { view result ≡ time_data time }
{
    Value::from(time)
}

fn time_or_null(time: Option<i64>) -> Value
    ensures { view result ≡ time_or_null time }
{
    match time {
        Some(time) => time_value(time),
        None => Value::Null,
    }
}

fn issuer_value(alloc: Global, certificate: &OctetString) -> Result<Value, AllocError>
    ensures { IfOk result (λ v. view v ≡ object
        (member (codes "event") (string (codes "issuer")) (member (codes "octets") (octets_data certificate.now) no_members))) }
{
    let octets = octets_value(alloc, certificate.as_slice())?;
    json!(in alloc; {"event": "issuer", "octets": octets})
}

fn reserved_value(
    alloc: Global,
    serial: &Integer,
    kind: Kind,
    not_after: i64,
    message: &OctetString,
) -> Result<Value, AllocError>
    ensures { IfOk result (λ v. view v ≡ object
        (member (codes "event") (string (codes "reserved"))
        (member (codes "kind") (string (kind_word kind))
        (member (codes "message") (octets_data message.now)
        (member (codes "not_after") (time_data not_after) (member (codes "serial") (octets_data serial.now) no_members)))))) }
{
    let message = octets_value(alloc, message.as_slice())?;
    let serial = octets_value(alloc, serial.as_bytes())?;
    let kind = kind_word(kind);
    let not_after = time_value(not_after);
    json!(in alloc; {"event": "reserved", "kind": kind, "message": message, "not_after": not_after, "serial": serial})
}

fn sealed_value(alloc: Global, serial: &Integer, octets: &OctetString) -> Result<Value, AllocError>
    ensures { IfOk result (λ v. view v ≡ object
        (member (codes "event") (string (codes "sealed"))
        (member (codes "octets") (octets_data octets.now) (member (codes "serial") (octets_data serial.now) no_members)))) }
{
    let octets = octets_value(alloc, octets.as_slice())?;
    let serial = octets_value(alloc, serial.as_bytes())?;
    json!(in alloc; {"event": "sealed", "octets": octets, "serial": serial})
}

fn revocation_value(
    alloc: Global,
    word: &str,
    serial: &Integer,
    revocation: &Revocation,
) -> Result<Value, AllocError>
    ensures { IfOk result (λ v. view v ≡ revocation_data word.now serial.now revocation.now) }
{
    let serial = octets_value(alloc, serial.as_bytes())?;
    let invalidity_date = time_or_null(revocation.invalidity_date);
    let reason = reason_word(revocation.reason);
    let time = time_value(revocation.time);
    json!(in alloc; {
        "event": word,
        "invalidity_date": invalidity_date,
        "reason": reason,
        "serial": serial,
        "time": time
    })
}

fn released_value(alloc: Global, serial: &Integer, time: i64) -> Result<Value, AllocError>
    ensures { IfOk result (λ v. view v ≡ object
        (member (codes "event") (string (codes "released"))
        (member (codes "serial") (octets_data serial.now) (member (codes "time") (time_data time) no_members)))) }
{
    let serial = octets_value(alloc, serial.as_bytes())?;
    let time = time_value(time);
    json!(in alloc; {"event": "released", "serial": serial, "time": time})
}

fn list_reserved_value(
    alloc: Global,
    number: u64,
    kind: ListKind,
    this_update: i64,
    next_update: i64,
    message: &OctetString,
) -> Result<Value, AllocError>
    ensures { IfOk result (λ v. view v ≡ object
        (member (codes "event") (string (codes "list reserved"))
        (member (codes "kind") (string (list_word kind))
        (member (codes "message") (octets_data message.now)
        (member (codes "next_update") (time_data next_update)
        (member (codes "number") (number_data number) (member (codes "this_update") (time_data this_update) no_members))))))) }
{
    let message = octets_value(alloc, message.as_slice())?;
    let kind = list_word(kind);
    let next_update = time_value(next_update);
    let this_update = time_value(this_update);
    json!(in alloc; {
        "event": "list reserved",
        "kind": kind,
        "message": message,
        "next_update": next_update,
        "number": number,
        "this_update": this_update
    })
}

fn list_sealed_value(alloc: Global, number: u64, octets: &OctetString) -> Result<Value, AllocError>
    ensures { IfOk result (λ v. view v ≡ object
        (member (codes "event") (string (codes "list sealed"))
        (member (codes "number") (number_data number) (member (codes "octets") (octets_data octets.now) no_members)))) }
{
    let octets = octets_value(alloc, octets.as_slice())?;
    json!(in alloc; {"event": "list sealed", "number": number, "octets": octets})
}

/// An event as a JSON object: octets and serial numbers in hexadecimal digits, times in seconds since
/// 1970, and reasons by their names (RFC 5280, 5.3.1).
pub fn event_value(alloc: Global, event: &Event) -> Result<Value, AllocError>
    ensures { IfOk result (λ v. view v ≡ event_data event.now) }
{
    match event {
        Event::Issuer { certificate } => issuer_value(alloc, certificate),
        Event::Reserved {
            serial,
            kind,
            not_after,
            message,
        } => reserved_value(alloc, serial, *kind, *not_after, message),
        Event::Sealed { serial, octets } => sealed_value(alloc, serial, octets),
        Event::Revoked { serial, revocation } => {
            revocation_value(alloc, "revoked", serial, revocation)
        }
        Event::MadeFinal { serial, revocation } => {
            revocation_value(alloc, "made final", serial, revocation)
        }
        Event::Released { serial, time } => released_value(alloc, serial, *time),
        Event::ListReserved {
            number,
            kind,
            this_update,
            next_update,
            message,
        } => list_reserved_value(alloc, *number, *kind, *this_update, *next_update, message),
        Event::ListSealed { number, octets } => list_sealed_value(alloc, *number, octets),
    }
}

/// An event as a line of JSON, without the line feed.
#[tactic(auto, using(crate::proofs::Plain::no_float))]
pub fn event_line(alloc: Global, event: &Event) -> Result<String, AllocError>
    ensures { IfOk result (λ text. string_bytes text ≡ compact_text (event_data event.now)) }
{
    let value = event_value(alloc, event)?;
    value.to_string(alloc)
}
