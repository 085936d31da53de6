//! `tbs`: the message of an order, whose serial number is reserved.
ghost use Rattle.std.specs.Prelude.{◌≡◌, ◌++◌, ◌∷◌, [], None, Some, IfOk, OnOk, map};
ghost use Rattle.register_record.specs.Following.{reserved_fault};
ghost use Rattle.register_record.specs.declared.event.Event.TheVariants as event;
ghost use Rattle.register_words.specs.Draw.{drawn};
ghost use Rattle.shelf_register.specs.Issued.{AreAdded, IsIssued, IsSerialLine, IsStartLine, Reserves, key_line};

use crate::halt::{Halt, refused};
use crate::missing::{Kind as OrderKind, Missing, missing_keys, without_mark};
use crate::numbers::{digits, serial_line};
use crate::times::{start_at, time_text};
use crate::told::halted;
use asn1_core::{Integer, OctetString};
use command_run::{Answer, Ending};
use register_driver::Step;
use register_record::{Event, Kind, Record, Refusal};
use register_steps::described;
use register_words::{DrawError, draw};
use shelf_command::Request;
use shelf_core::answer_to;
use std::alloc::{AllocError, Global};

/// What a step takes from outside.
#[derive(Clone, Copy)]
pub(crate) struct Surroundings {
    /// Octets of a random source.
    pub(crate) random: [u8; 16],
    /// Seconds since 1970.
    pub(crate) clock: i64,
}

/// A serial number that may be reserved.
#[tactic(auto, using(crate::proofs::Issued::free_as))]
pub(crate) fn drawn(alloc: Global, record: &Record, random: &[u8; 16]) -> Result<Integer, Halt>
    ensures serial { IfOk result (λ s. s ≡ drawn random.now) }
    ensures free { OnOk result (reserved_fault (drawn random.now) «record».now ≡ None) }
{
    match draw(alloc, record, random) {
        Ok(serial) => Ok(serial),
        Err(DrawError::Refused(refusal)) => Err(halted(alloc, refusal)),
        Err(DrawError::OutOfMemory) => Err(Halt::OutOfMemory),
    }
}

fn not_recorded(alloc: Global) -> Halt {
    refused(
        alloc,
        "kind: a register records certificates and attribute certificates; shelf list makes CRLs\n",
    )
}

fn key_line(alloc: Global, key: &[u8], value: &[u8]) -> Result<Vec<u8>, AllocError>
    ensures { IfOk result (λ line. line.items ≡ key_line key.now value.now) }
{
    let mut line = Vec::new(alloc);
    line.extend_from_slice(key)?;
    line.extend_from_slice(b" = \"")?;
    line.extend_from_slice(value)?;
    line.extend_from_slice(b"\"\n")?;
    Ok(line)
}

/// The line of a serial number, where it is lacking.
fn serial_line_if(
    alloc: Global,
    is_lacking: bool,
    record: &Record,
    random: &[u8; 16],
) -> Result<Vec<u8>, Halt>
    ensures { IfOk result (λ line. IsSerialLine is_lacking «record».now random.now line.items) }
{
    if is_lacking {
        let serial = drawn(alloc, record, random)?;
        let digits = digits(alloc, &serial)?;
        let line = key_line(alloc, b"serial", digits.as_bytes())?;
        Ok(line)
    } else {
        Ok(Vec::new(alloc))
    }
}

#[tactic(auto, using(crate::proofs::Issued::start_line))]
fn start_line_if(alloc: Global, is_lacking: bool, now: i64) -> Result<Vec<u8>, Halt>
    ensures { IfOk result (λ line. IsStartLine is_lacking line.items) }
{
    if is_lacking {
        let time = time_text(alloc, start_at(now))?;
        let line = key_line(alloc, b"start", time.as_bytes())?;
        Ok(line)
    } else {
        Ok(Vec::new(alloc))
    }
}

#[tactic(auto, using(crate::proofs::Issued::added))]
fn lines_of(
    alloc: Global,
    record: &Record,
    missing: Missing,
    around: &Surroundings,
) -> Result<Vec<u8>, Halt>
    ensures { IfOk result (λ lines. AreAdded «record».now around.now.random lines.items) }
{
    let serial = serial_line_if(alloc, missing.serial, record, &around.random)?;
    let start = start_line_if(alloc, missing.start, around.clock)?;
    let mut lines = serial;
    lines.extend_from_slice(start.as_slice())?;
    Ok(lines)
}

/// The lines that come before an order.
fn added_lines(
    alloc: Global,
    record: &Record,
    order: &[u8],
    around: &Surroundings,
) -> Result<Vec<u8>, Halt>
    ensures { IfOk result (λ lines. AreAdded «record».now around.now.random lines.items) }
{
    let missing = missing_keys(alloc, order)?;
    if !matches!(missing.kind, OrderKind::Other) {
        return Err(not_recorded(alloc));
    }
    let lines = lines_of(alloc, record, missing, around)?;
    Ok(lines)
}

/// The issuer's certificate.
pub(crate) fn issuer_of(alloc: Global, record: &Record) -> Result<Vec<u8>, Halt>
    ensures { IfOk result (λ certificate. «record».now.issuer ≡ Some certificate.items) }
{
    let Some(certificate) = record.issuer() else {
        return Err(halted(alloc, Refusal::NoIssuer));
    };
    let octets = Vec::from_slice(alloc, certificate.as_slice())?;
    Ok(octets)
}

/// The inputs of `tbs`: the lines and the order, the files, and the issuer's certificate.
fn inputs_with(
    lines: Vec<u8>,
    order: &[u8],
    files: Vec<Vec<u8>>,
    issuer: Vec<u8>,
) -> Result<Vec<Vec<u8>>, AllocError>
    ensures { IfOk result (λ inputs. map (λ input. input.items) inputs.items
        ≡ (lines.items ++ order.now) ∷ (map (λ file. file.items) files.items ++ issuer.items ∷ [])) }
{
    let mut text = lines;
    text.extend_from_slice(order)?;
    let mut inputs = files;
    inputs.push(issuer)?;
    inputs.insert(0, text)?;
    Ok(inputs)
}

/// The warnings, and then the line with the serial number.
fn with_serial(alloc: Global, complaint: Vec<u8>, serial: &Integer) -> Result<Vec<u8>, AllocError> {
    let line = serial_line(alloc, serial)?;
    let mut told = complaint;
    told.extend_from_slice(line.as_slice())?;
    Ok(told)
}

/// A copy of a message.
pub(crate) fn copied(alloc: Global, text: &[u8]) -> Result<OctetString, AllocError>
    ensures { IfOk result (λ copy. copy ≡ text.now) }
{
    let copy = Vec::from_slice(alloc, text)?;
    Ok(OctetString::new(copy))
}

/// The event that reserves the serial number of a message.
#[tactic(auto, using(crate::proofs::Issued::free))]
fn reservation(
    alloc: Global,
    record: &Record,
    serial: Integer,
    kind: Kind,
    not_after: i64,
    message: OctetString,
) -> Result<Event, Halt>
    ensures event { IfOk result (λ e. e ≡ event.Reserved serial kind not_after message) }
    ensures free { OnOk result (reserved_fault serial «record».now ≡ None) }
{
    match record.reserve(serial, kind, not_after, message) {
        Ok(event) => Ok(event),
        Err(refusal) => Err(halted(alloc, refusal)),
    }
}

/// Reserves the serial number of a message, and reports it.
pub(crate) fn reserve(
    alloc: Global,
    record: &Record,
    serial: Integer,
    kind: Kind,
    not_after: i64,
    text: Vec<u8>,
    complaint: Vec<u8>,
) -> Result<Step, Halt>
    ensures event { IfOk result (λ step. step.event ≡ Some (event.Reserved serial kind not_after text.items)) }
    ensures free { OnOk result (reserved_fault serial «record».now ≡ None) }
    ensures text { IfOk result (λ step. step.answer.text.items ≡ text.items) }
{
    let told = with_serial(alloc, complaint, &serial)?;
    let message = copied(alloc, text.as_slice())?;
    let event = reservation(alloc, record, serial, kind, not_after, message)?;
    Ok(Step::recorded(event, text, told))
}

/// The answer as a step: where it is a message, its serial number is reserved for it.
#[tactic(auto, using(crate::proofs::Issued::reserves))]
fn reserved(alloc: Global, record: &Record, answer: Answer) -> Result<Step, Halt>
    ensures done { OnOk result (answer.ending ≡ Ending.Done) }
    ensures reserves { IfOk result (λ step. Reserves «record».now answer.text.items step.event) }
    ensures text { IfOk result (λ step. step.answer.text.items ≡ answer.text.items) }
{
    let Answer {
        ending,
        text,
        complaint,
    } = answer;
    let Ending::Done = ending else {
        return Err(Halt::Said(ending, complaint));
    };
    let Some(found) = described(alloc, text.as_slice())? else {
        return Err(not_recorded(alloc));
    };
    let step = reserve(
        alloc,
        record,
        found.serial,
        found.kind,
        found.not_after,
        text,
        complaint,
    )?;
    Ok(step)
}

/// What `tbs` comes to: the message is what the filter writes for the order, with the lines that it lacks,
/// its files and the register's certificate.
#[tactic(auto, using(crate::proofs::Issued::issued))]
pub(crate) fn issued(
    alloc: Global,
    record: &Record,
    request: &Request,
    order: &[u8],
    files: Vec<Vec<u8>>,
    around: &Surroundings,
) -> Result<Step, Halt>
    ensures { IfOk result (λ step. IsIssued request.now «record».now around.now.random order.now (map (λ file. file.items) files.items) step.event step.answer.text.items) }
{
    let lines = added_lines(alloc, record, order, around)?;
    let issuer = issuer_of(alloc, record)?;
    let inputs = inputs_with(lines, without_mark(order), files, issuer)?;
    let answer = answer_to(alloc, request, inputs.as_slice())?;
    let step = reserved(alloc, record, answer)?;
    Ok(step)
}
