//! `register import`: certificates and lists that were issued before, and revocations.
ghost use Rattle.std.specs.Prelude.{◌≡◌, false, true, IfOk, OnOk};
ghost use Rattle.std.specs.List.{list_any};
ghost use Rattle.std.specs.Option.{option_copied};
ghost use Rattle.register_record.specs.Decisions.{decided, taken_fault};
ghost use Rattle.register_record.specs.Following.{fault_under, is_revoked, revoked_fault};
ghost use Rattle.register_record.specs.Lists.{is_off};
ghost use Rattle.register_record.specs.Records.{found};
ghost use Rattle.register_record.specs.declared.event.Event.TheVariants as event;
ghost use Rattle.register_record.specs.declared.event.ListKind.TheVariants.{Complete};
ghost use Rattle.register_steps.specs.Import.{IsImported};
ghost use Rattle.register_steps.specs.Listed.{IsIssuedList};
ghost use Rattle.shelf_register.specs.Importing.{EndsNothing, LacksList, Takes, agrees, agrees_with, has_ended, is_pending_as, is_same, is_sealed_as, last_content, same_date};

use crate::halt::{Halt, bad_input_with, refused_with};
use crate::issuing::copied;
use crate::numbers::digits;
use crate::told::{halted, not_listed, not_sealed, shown_file};
use asn1_core::{Integer, OctetString, TryClone};
use pem::Block;
use register_lines::index_line;
use register_record::{Base, Certificate, Change, Content, Event, Record, Refusal, Revocation};
use register_steps::{ImportedEvents, IssuedList, ListedEntry, imported, issued_list};
use register_words::reason_word;
use shelf_input::blocks_of_files;
use std::alloc::{AllocError, Global};

/// Whether the file is an index of `openssl ca`: its first line has a status and a tab.
pub(crate) fn is_index(file: &[u8]) -> bool {
    matches!(file, [b'V' | b'R' | b'E', b'\t', ..])
}

/// The events of a certificate that the issuer's key signed.
pub(crate) fn events_of(
    alloc: Global,
    issuer: &[u8],
    certificate: &[u8],
) -> Result<ImportedEvents, Halt>
    ensures { IfOk result (IsImported issuer.now certificate.now) }
{
    match imported(alloc, issuer, certificate) {
        Ok(events) => Ok(events),
        Err(error) => Err(not_sealed(alloc, error)),
    }
}

/// What is to be recorded of a certificate that is imported.
#[derive(Drop)]
pub(crate) enum Lack {
    Nothing,
    /// Its octets: its message is pending.
    Octets(Event),
    /// Its message and its octets.
    Both(Event, Event),
}

/// The event that reserves a serial number, if it may be reserved.
fn reserved_now(alloc: Global, record: &Record, event: Event) -> Result<Event, Halt> {
    let Event::Reserved {
        serial,
        kind,
        not_after,
        message,
    } = event
    else {
        return Ok(event);
    };
    match record.reserve(serial, kind, not_after, message) {
        Ok(event) => Ok(event),
        Err(refusal) => Err(halted(alloc, refusal)),
    }
}

/// What is recorded of the certificate with this serial number.
fn state_of(record: &Record, reserved: &Event) -> Option<bool> {
    let Event::Reserved { serial, .. } = reserved else {
        return None;
    };
    match record.certificate(serial) {
        Some(certificate) => Some(matches!(certificate.content, Content::Sealed(_))),
        None => None,
    }
}

/// What is to be recorded of a certificate that is imported.
pub(crate) fn lacking(
    alloc: Global,
    record: &Record,
    events: ImportedEvents,
) -> Result<Lack, Halt> {
    match state_of(record, &events.reserved) {
        Some(true) => Ok(Lack::Nothing),
        Some(false) => Ok(Lack::Octets(events.sealed)),
        None => {
            let reserved = reserved_now(alloc, record, events.reserved)?;
            Ok(Lack::Both(reserved, events.sealed))
        }
    }
}

/// The certificates and lists of a file.
pub(crate) fn blocks_of(alloc: Global, name: &str, file: Vec<u8>) -> Result<Vec<Block>, Halt> {
    let mut files = Vec::new(alloc);
    files.push(file)?;
    match blocks_of_files(alloc, files.as_slice()) {
        Ok(blocks) => Ok(blocks),
        Err(_) => {
            let name = shown_file(name);
            Err(bad_input_with(format!(in alloc;
                "{name}: it has no certificates or lists that can be read\n"
            )))
        }
    }
}

/// The text of an index.
pub(crate) fn index_text<'a>(alloc: Global, name: &str, file: &'a [u8]) -> Result<&'a str, Halt> {
    match std::str::from_utf8(file) {
        Ok(text) => Ok(text),
        Err(_) => {
            let name = shown_file(name);
            Err(bad_input_with(format!(in alloc; "{name}: it isn't UTF-8\n")))
        }
    }
}

/// What a revocation comes to.
#[derive(Drop)]
pub(crate) enum Taken {
    /// Nothing is to be recorded: there is no revocation, or it is recorded.
    Nothing,
    /// Its certificate isn't in the register.
    Unknown,
    /// A revocation.
    Revocation(Event),
}

/// The revocation, as the record takes it.
fn revocation_taken(
    alloc: Global,
    record: &Record,
    serial: Integer,
    revocation: Revocation,
    now: i64,
) -> Result<Taken, Halt>
    ensures { IfOk result (Takes (decided now (fault_under serial revoked_fault «record».now) (event.Revoked serial revocation))) }
{
    match record.revoke(serial, revocation, now) {
        Ok(event) => Ok(Taken::Revocation(event)),
        Err(Refusal::AlreadyRevoked) => Ok(Taken::Nothing),
        Err(Refusal::Unknown) => Ok(Taken::Unknown),
        Err(refusal) => Err(halted(alloc, refusal)),
    }
}

fn same_date(one: Option<i64>, other: Option<i64>) -> bool
    ensures { result ≡ same_date one other }
{
    match (one, other) {
        (None, None) => true,
        (Some(one), Some(other)) => one == other,
        _ => false,
    }
}

fn is_same(one: Revocation, other: Revocation) -> bool
    ensures { result ≡ is_same one other }
{
    one.time == other.time
        && reason_word(one.reason) == reason_word(other.reason)
        && same_date(one.invalidity_date, other.invalidity_date)
}

fn agrees_with(change: Option<Change>, revocation: Revocation) -> bool
    ensures { result ≡ agrees_with change revocation }
{
    match change {
        Some(Change::Revoked(recorded)) => is_same(recorded, revocation),
        _ => true,
    }
}

/// Whether no other revocation is recorded under the serial number.
fn agrees(record: &Record, serial: &Integer, revocation: Revocation) -> bool
    ensures { result ≡ agrees (found serial.now «record».now.certificates) revocation }
{
    match record.certificate(serial) {
        Some(certificate) => agrees_with(certificate.change, revocation),
        None => true,
    }
}

fn of_serial(alloc: Global, name: &str, serial: &Integer, text: &str) -> Halt {
    let name = shown_file(name);
    match digits(alloc, serial) {
        Ok(digits) => refused_with(format!(in alloc; "{name}: serial {digits}: {text}\n")),
        Err(_) => Halt::OutOfMemory,
    }
}

/// The revocation, as the record takes it; refused where another one is recorded.
fn revocation_of(
    alloc: Global,
    record: &Record,
    name: &str,
    serial: Integer,
    revocation: Revocation,
    now: i64,
) -> Result<Taken, Halt>
    ensures agrees { OnOk result (agrees (found serial «record».now.certificates) revocation ≡ true) }
    ensures takes { IfOk result (Takes (decided now (fault_under serial revoked_fault «record».now) (event.Revoked serial revocation))) }
{
    if !agrees(record, &serial, revocation) {
        return Err(of_serial(
            alloc,
            name,
            &serial,
            "the register has another revocation of it",
        ));
    }
    let taken = revocation_taken(alloc, record, serial, revocation, now)?;
    Ok(taken)
}

/// What an entry of a list comes to on the record: its certificate has to be there.
pub(crate) fn entry_taken(
    alloc: Global,
    record: &Record,
    name: &str,
    entry: &ListedEntry,
    now: i64,
) -> Result<Taken, Halt>
    ensures agrees { OnOk result (agrees (found entry.now.serial «record».now.certificates) entry.now.revocation ≡ true) }
    ensures takes { IfOk result (Takes (decided now (fault_under entry.now.serial revoked_fault «record».now)
        (event.Revoked entry.now.serial entry.now.revocation))) }
{
    let serial = entry.serial.try_clone(alloc)?;
    let taken = revocation_of(alloc, record, name, serial, entry.revocation, now)?;
    if let Taken::Unknown = taken {
        let text =
            "it is on the list, and the register doesn't have it: import its certificate first";
        return Err(of_serial(alloc, name, &entry.serial, text));
    }
    Ok(taken)
}

fn is_revoked(change: Option<Change>) -> bool
    ensures { result ≡ is_revoked change }
{
    matches!(change, Some(Change::Revoked(_)))
}

fn is_off(base: Option<Base>, since: u64, not_after: i64) -> bool
    ensures { result ≡ is_off base since not_after }
{
    match base {
        Some(base) => since < base.number && not_after < base.this_update,
        None => false,
    }
}

fn has_ended(base: Option<Base>, time: i64, certificate: &Certificate) -> bool
    ensures { result ≡ has_ended base time certificate.now }
{
    is_revoked(certificate.change)
        && !is_off(base, certificate.since, certificate.not_after)
        && certificate.not_after < time
}

/// Whether a list of this time would take a certificate off the lists.
fn ends_any(base: Option<Base>, time: i64, certificates: &[Certificate]) -> bool
    ensures { result ≡ list_any (has_ended base time) certificates.now }
{
    certificates
        .iter()
        .any(|certificate| has_ended(base, time, certificate))
}

fn ended(alloc: Global, name: &str) -> Halt {
    let name = shown_file(name);
    refused_with(format!(in alloc;
        "{name}: certificates that ended before this list are revoked in the register: import the list first\n"
    ))
}

/// The list of these octets, which the issuer's key signed.
pub(crate) fn list_of(
    alloc: Global,
    name: &str,
    issuer: &[u8],
    octets: &[u8],
) -> Result<IssuedList, Halt>
    ensures { IfOk result (IsIssuedList issuer.now octets.now) }
{
    match issued_list(alloc, issuer, octets) {
        Ok(list) => Ok(list),
        Err(error) => Err(not_listed(alloc, name, error)),
    }
}

/// The event that takes the number of a list, where it may be the last one.
fn number_taken(alloc: Global, record: &Record, list: &IssuedList, now: i64) -> Result<Event, Halt>
    ensures { IfOk result (λ e. decided now (taken_fault list.now.number list.now.this_update list.now.next_update «record».now)
        (event.ListReserved list.now.number Complete list.now.this_update list.now.next_update list.now.message) ≡ Ok e) }
{
    let message = copied(alloc, list.message.as_slice())?;
    match record.take_list(
        list.number,
        list.this_update,
        list.next_update,
        message,
        now,
    ) {
        Ok(event) => Ok(event),
        Err(refusal) => Err(halted(alloc, refusal)),
    }
}

/// What the record has of a list with this number, if that is its last one.
fn last_content(record: &Record, number: u64) -> Option<&Content>
    ensures { option_copied result ≡ last_content number «record».now.last }
{
    match record.last_list() {
        Some(last) if last.number == number => Some(&last.content),
        _ => None,
    }
}

pub(crate) fn is_sealed_as(content: Option<&Content>, octets: &[u8]) -> bool
    ensures { result ≡ is_sealed_as octets.now (option_copied content.entry) }
{
    match content {
        Some(Content::Sealed(sealed)) => sealed.as_slice() == octets,
        _ => false,
    }
}

fn is_pending_as(content: Option<&Content>, message: &[u8]) -> bool
    ensures { result ≡ is_pending_as message.now (option_copied content.entry) }
{
    match content {
        Some(Content::Pending(pending)) => pending.as_slice() == message,
        _ => false,
    }
}

/// What is to be recorded of a list that was issued before.
pub(crate) fn lacking_list(
    alloc: Global,
    record: &Record,
    list: &IssuedList,
    octets: &[u8],
    now: i64,
) -> Result<Lack, Halt>
    ensures { IfOk result (LacksList «record».now list.now octets.now now) }
{
    let copy = OctetString::new(Vec::from_slice(alloc, octets)?);
    let sealed = Event::ListSealed {
        number: list.number,
        octets: copy,
    };
    let content = last_content(record, list.number);
    if is_sealed_as(content, octets) {
        return Ok(Lack::Nothing);
    }
    if is_pending_as(content, list.message.as_slice()) {
        return Ok(Lack::Octets(sealed));
    }
    let reserved = number_taken(alloc, record, list, now)?;
    Ok(Lack::Both(reserved, sealed))
}

/// Refused where a list of this time takes certificates off the lists that it may never have had.
pub(crate) fn check_ended(
    alloc: Global,
    record: &Record,
    name: &str,
    lack: &Lack,
    time: i64,
) -> Result<(), Halt>
    ensures { OnOk result (EndsNothing «record».now time lack.now) }
{
    let is_new = !matches!(lack, Lack::Nothing);
    if is_new && ends_any(record.base(), time, record.certificates()) {
        return Err(ended(alloc, name));
    }
    Ok(())
}

fn bad_line(alloc: Global, name: &str, number: usize) -> Halt {
    let name = shown_file(name);
    bad_input_with(format!(in alloc; "{name}: line {number}: not one of an index of openssl ca\n"))
}

/// What a line of an index comes to on the record.
pub(crate) fn line_taken(
    alloc: Global,
    record: &Record,
    name: &str,
    number: usize,
    line: &str,
    now: i64,
) -> Result<Taken, Halt> {
    let Some(indexed) = index_line(alloc, line)? else {
        return Err(bad_line(alloc, name, number));
    };
    match indexed.revocation {
        Some(revocation) => revocation_of(alloc, record, name, indexed.serial, revocation, now),
        None => Ok(Taken::Nothing),
    }
}

/// Whether the block is a list, by its label (RFC 7468, 6).
pub(crate) fn is_list(block: &Block) -> bool {
    block.label() == b"X509 CRL".as_slice()
}

/// What was imported of a file of certificates and lists.
#[derive(Clone, Copy, Debug)]
pub(crate) struct Found {
    pub(crate) certificates: usize,
    /// Whether the file has lists, new ones or not.
    pub(crate) has_lists: bool,
    pub(crate) lists: usize,
    pub(crate) revocations: usize,
}

/// The line on a file of certificates and lists.
pub(crate) fn found_line(alloc: Global, name: &str, found: Found) -> Result<Vec<u8>, AllocError> {
    let name = shown_file(name);
    let certificates = found.certificates;
    let (lists, revocations) = (found.lists, found.revocations);
    let text = if found.has_lists {
        format!(in alloc;
            "{name}: {certificates} certificates, {lists} CRLs, {revocations} revocations\n"
        )?
    } else {
        format!(in alloc; "{name}: {certificates} certificates\n")?
    };
    Ok(text.into_bytes())
}

/// What was imported of an index.
#[derive(Clone, Copy, Debug)]
pub(crate) struct Totals {
    pub(crate) count: usize,
    /// How many revocations are of certificates that aren't in the register.
    pub(crate) unknown: usize,
}

/// The line on an index.
pub(crate) fn imported_line(
    alloc: Global,
    name: &str,
    totals: Totals,
) -> Result<Vec<u8>, AllocError> {
    let name = shown_file(name);
    let (count, unknown) = (totals.count, totals.unknown);
    let text = if unknown == 0 {
        format!(in alloc; "{name}: {count} revocations\n")?
    } else {
        format!(in alloc;
            "{name}: {count} revocations; {unknown} of certificates that are not in the register\n"
        )?
    };
    Ok(text.into_bytes())
}
