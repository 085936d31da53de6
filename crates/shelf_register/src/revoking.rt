//! `revoke`: certificates that are revoked, put on hold or released.
ghost use Rattle.std.specs.Prelude.{◌≡◌, [], IfOk, map};
ghost use Rattle.register_record.specs.Following.{is_hold, is_on_hold};
ghost use Rattle.register_record.specs.Records.{found};
ghost use Rattle.shelf_register.specs.Revoking.{Records, changed_status, is_held, revoked_or_final};
ghost use Rattle.shelf_register.specs.Steps.{IsRevoke};

use crate::arguments::REASONS;
use crate::halt::{Halt, bad_input_with};
use crate::issuing::Surroundings;
use crate::named::named_certificate;
use crate::numbers::digits;
use crate::options::{Line, Opt};
use crate::times::{time_in, time_or};
use crate::told::{halted, shown};
use asn1_core::{Integer, TryClone};
use register_driver::Step;
use register_record::{Change, Event, Reason, Record, Refusal, Revocation};
use std::alloc::{AllocError, Global};

/// The reason of a word (RFC 5280, 5.3.1).
fn reason_named(word: &str) -> Option<Reason> {
    match word {
        "unspecified" => Some(Reason::Unspecified),
        "keyCompromise" => Some(Reason::KeyCompromise),
        "cACompromise" => Some(Reason::CaCompromise),
        "affiliationChanged" => Some(Reason::AffiliationChanged),
        "superseded" => Some(Reason::Superseded),
        "cessationOfOperation" => Some(Reason::CessationOfOperation),
        "certificateHold" => Some(Reason::CertificateHold),
        "privilegeWithdrawn" => Some(Reason::PrivilegeWithdrawn),
        "aACompromise" => Some(Reason::AaCompromise),
        _ => None,
    }
}

/// The reason that the word says; none to release.
fn reason_in(alloc: Global, word: &str) -> Result<Option<Reason>, Halt> {
    if word == "removeFromCRL" {
        return Ok(None);
    }
    match reason_named(word) {
        Some(reason) => Ok(Some(reason)),
        None => {
            let (word, reasons) = (shown(word), REASONS);
            Err(bad_input_with(format!(in alloc;
                "--reason: {word} is not a reason: give one of {reasons}\n"
            )))
        }
    }
}

/// How the status of a certificate is to change: it is revoked, or with no reason a hold ends. Times are
/// seconds since 1970.
#[derive(Clone, Copy, Debug)]
pub(crate) struct StatusChange {
    pub(crate) reason: Option<Reason>,
    pub(crate) time: i64,
    pub(crate) invalidity_date: Option<i64>,
}

fn is_hold(reason: Reason) -> bool
    ensures { result ≡ is_hold reason }
{
    matches!(reason, Reason::CertificateHold)
}

fn is_on_hold(change: Option<Change>) -> bool
    ensures { result ≡ is_on_hold change }
{
    match change {
        Some(Change::Revoked(revocation)) => is_hold(revocation.reason),
        _ => false,
    }
}

/// Whether what is recorded under the serial number is on hold.
fn is_held(record: &Record, serial: &Integer) -> bool
    ensures { result ≡ is_held (found serial.now «record».now.certificates) }
{
    match record.certificate(serial) {
        Some(certificate) => is_on_hold(certificate.change),
        None => false,
    }
}

fn revoked_or_final(
    record: &Record,
    serial: Integer,
    revocation: Revocation,
    now: i64,
) -> Result<Event, Refusal>
    ensures { result ≡ revoked_or_final (is_held (found serial «record».now.certificates)) «record».now serial revocation now }
{
    if is_held(record, &serial) {
        record.make_final(serial, revocation, now)
    } else {
        record.revoke(serial, revocation, now)
    }
}

/// What is recorded of a change.
fn changed_status(
    record: &Record,
    serial: Integer,
    change: StatusChange,
    now: i64,
) -> Result<Event, Refusal>
    ensures { result ≡ changed_status «record».now serial change.reason change.time change.invalidity_date now }
{
    let StatusChange {
        reason,
        time,
        invalidity_date,
    } = change;
    match reason {
        Some(reason) => revoked_or_final(
            record,
            serial,
            Revocation {
                time,
                reason,
                invalidity_date,
            },
            now,
        ),
        None => record.release(serial, time, now),
    }
}

/// The line with what was recorded.
fn told(alloc: Global, event: &Event, digits: &str) -> Result<Vec<u8>, AllocError> {
    let word = match event {
        Event::Released { .. } => "released",
        Event::MadeFinal { .. } => "revoked for good",
        Event::Revoked { revocation, .. } if is_hold(revocation.reason) => "on hold",
        _ => "revoked",
    };
    let text = format!(in alloc; "serial: {digits}: {word}\n")?;
    Ok(text.into_bytes())
}

/// The step that changes the status of a certificate: what the record decides is recorded, and nothing is
/// written.
pub(crate) fn change_status(
    alloc: Global,
    record: &Record,
    serial: Integer,
    change: StatusChange,
    now: i64,
) -> Result<Step, Halt>
    ensures event { IfOk result (λ step. Records (changed_status «record».now serial change.reason change.time change.invalidity_date now) step.event) }
    ensures text { IfOk result (λ step. step.answer.text.items ≡ []) }
{
    let digits = digits(alloc, &serial)?;
    match changed_status(record, serial, change, now) {
        Ok(event) => {
            let told = told(alloc, &event, digits.as_str())?;
            Ok(Step::recorded(event, Vec::new(alloc), told))
        }
        Err(refusal) => Err(halted(alloc, refusal)),
    }
}

/// The invalidity date, where it is given.
fn invalidity_date(alloc: Global, line: &Line) -> Result<Option<i64>, Halt> {
    match line.value(Opt::InvalidityDate) {
        Some(text) => Ok(Some(time_in(alloc, "--invalidity-date", text)?)),
        None => Ok(None),
    }
}

/// The change that the options say.
fn change_of(alloc: Global, line: &Line, now: i64) -> Result<StatusChange, Halt> {
    let reason = reason_in(alloc, line.value(Opt::Reason).unwrap_or(""))?;
    let time = time_or(alloc, "--time", line.value(Opt::Time), now)?;
    let invalidity_date = invalidity_date(alloc, line)?;
    Ok(StatusChange {
        reason,
        time,
        invalidity_date,
    })
}

/// What `revoke` comes to.
pub(crate) fn revoked(
    alloc: Global,
    record: &Record,
    line: &Line,
    files: Vec<Vec<u8>>,
    around: &Surroundings,
) -> Result<Step, Halt>
    ensures { IfOk result (λ step. IsRevoke line.now.given.items «record».now around.now.clock (map (λ file. file.items) files.items)
        step.event step.answer.text.items) }
{
    let change = change_of(alloc, line, around.clock)?;
    let certificate = named_certificate(alloc, record, line, files)?;
    let serial = certificate.serial.try_clone(alloc)?;
    let step = change_status(alloc, record, serial, change, around.clock)?;
    Ok(step)
}
