//! `renew`: the message of a certificate like another, with its own serial number and times.
ghost use Rattle.std.specs.Prelude.{◌≡◌, IfOk, map};
ghost use Rattle.register_record.specs.declared.state.Content.TheVariants.{Sealed};
ghost use Rattle.register_steps.specs.Renewal.{IsRenewed};
ghost use Rattle.shelf_register.specs.Renewing.{IsRenewal};
ghost use Rattle.shelf_register.specs.Steps.{IsRenew};

use crate::halt::{Halt, refused};
use crate::issuing::{Surroundings, drawn, reserve};
use crate::named::named_certificate;
use crate::numbers::days_in;
use crate::options::{Line, Opt};
use crate::times::{later, start_at};
use crate::told::halted;
use crate::validity::seconds_of;
use asn1_core::{Integer, TryClone};
use register_driver::Step;
use register_record::{Certificate, Content, Kind, Record, Refusal};
use register_steps::{RenewError, renewed};
use std::alloc::Global;

/// The octets of the certificate that is renewed.
fn octets_of<'a>(alloc: Global, certificate: &'a Certificate) -> Result<&'a [u8], Halt>
    ensures { IfOk result (λ octets. certificate.now.content ≡ Sealed octets.now) }
{
    if let Kind::AttributeCertificate = certificate.kind {
        return Err(refused(
            alloc,
            "register: an attribute certificate isn't renewed: shelf tbs makes a new one\n",
        ));
    }
    match &certificate.content {
        Content::Sealed(octets) => Ok(octets.as_slice()),
        Content::Pending(_) => Err(halted(alloc, Refusal::NotIssued)),
    }
}

fn message_of(
    alloc: Global,
    octets: &[u8],
    serial: Integer,
    start: i64,
    end: i64,
) -> Result<Vec<u8>, Halt>
    ensures { IfOk result (λ message. IsRenewed octets.now serial start end message.items) }
{
    match renewed(alloc, octets, serial, start, end) {
        Ok(message) => Ok(message),
        Err(RenewError::NotCertificate) => {
            Err(refused(alloc, "register: the certificate can't be read\n"))
        }
        Err(RenewError::Time) => Err(refused(alloc, "a time is not in the years 0 to 9999\n")),
        Err(RenewError::OutOfMemory) => Err(Halt::OutOfMemory),
    }
}

/// The step that renews a certificate with these octets for so many seconds: the message has a serial
/// number that is drawn, which is reserved for it.
#[tactic(auto, using(crate::proofs::Renewed::renewal))]
pub(crate) fn renewal_step(
    alloc: Global,
    record: &Record,
    octets: &[u8],
    seconds: i64,
    around: &Surroundings,
) -> Result<Step, Halt>
    ensures { IfOk result (λ step. IsRenewal «record».now octets.now around.now.random step.event step.answer.text.items) }
{
    let serial = drawn(alloc, record, &around.random)?;
    let start = start_at(around.clock);
    let end = later(start, seconds);
    let copy = serial.try_clone(alloc)?;
    let message = message_of(alloc, octets, copy, start, end)?;
    let step = reserve(
        alloc,
        record,
        serial,
        Kind::Certificate,
        end,
        message,
        Vec::new(alloc),
    )?;
    Ok(step)
}

/// How long the new one is valid.
fn seconds_asked(alloc: Global, line: &Line, octets: &[u8], not_after: i64) -> Result<i64, Halt> {
    match line.value(Opt::Days) {
        Some(text) => days_in(alloc, "--days", text),
        None => seconds_of(alloc, octets, not_after),
    }
}

/// What `renew` comes to.
pub(crate) fn renewed_step(
    alloc: Global,
    record: &Record,
    line: &Line,
    files: Vec<Vec<u8>>,
    around: &Surroundings,
) -> Result<Step, Halt>
    ensures { IfOk result (λ step. IsRenew line.now.given.items «record».now around.now.random (map (λ file. file.items) files.items)
        step.event step.answer.text.items) }
{
    let certificate = named_certificate(alloc, record, line, files)?;
    let octets = octets_of(alloc, certificate)?;
    let seconds = seconds_asked(alloc, line, octets, certificate.not_after)?;
    let step = renewal_step(alloc, record, octets, seconds, around)?;
    Ok(step)
}
