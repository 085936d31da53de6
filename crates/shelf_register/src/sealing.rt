//! `seal`: what a signature makes of a message that is kept.
ghost use Rattle.std.specs.Prelude.{◌≡◌, None, Some, IfOk, true};
ghost use Rattle.pem.specs.Abnf.{is_label};
ghost use Rattle.register_record.specs.declared.event.Event.TheVariants as event;
ghost use Rattle.register_record.specs.declared.state.Content.TheVariants.{Pending};
ghost use Rattle.register_steps.specs.Sealing.{IsSealed};
ghost use Rattle.shelf_register.specs.Sealing.{IsSealedBy, SealsAs, label, list_label, text_of};
ghost use Rattle.shelf_register.specs.Steps.{Has, IsSeal};

use crate::halt::{Halt, bad_input, refused};
use crate::issuing::issuer_of;
use crate::named::{certificate_named, pending};
use crate::numbers::digits;
use crate::options::{Line, Opt};
use crate::told::{halted, not_sealed};
use asn1_core::{Integer, OctetString, OutOfMemory, TryClone};
use command_run::Ending;
use pem::pem_text;
use register_driver::Step;
use register_record::{Certificate, Content, Event, Kind, Record, RevocationList};
use register_steps::{SealError, algorithm_in, described, sealed, subject_in};
use shelf_explain::{algorithm_text, name_text};
use shelf_input::signature_in;
use std::alloc::{AllocError, Global};

/// The label of what is sealed.
pub(crate) fn label(kind: Kind) -> &'static [u8]
    ensures label { result.now ≡ label kind }
    ensures form { is_label result.now ≡ true }
{
    match kind {
        Kind::Certificate => b"CERTIFICATE",
        Kind::AttributeCertificate => b"ATTRIBUTE CERTIFICATE",
    }
}

/// The label of a list.
fn list_label() -> &'static [u8]
    ensures label { result.now ≡ list_label }
    ensures form { is_label result.now ≡ true }
{
    b"X509 CRL"
}

/// The octets as DER or as PEM.
pub(crate) fn text_of(
    alloc: Global,
    is_der: bool,
    label: &[u8],
    octets: &[u8],
) -> Result<Vec<u8>, AllocError>
    requires { is_label label.now ≡ true }
    ensures { IfOk result (λ text. text.items ≡ text_of is_der label.now octets.now) }
{
    if is_der {
        let text = Vec::from_slice(alloc, octets)?;
        Ok(text)
    } else {
        let text = pem_text(alloc, label, octets)?;
        Ok(text)
    }
}

fn signature_of(alloc: Global, file: Option<&[u8]>) -> Result<OctetString, Halt> {
    let Some(file) = file else {
        return Err(bad_input(
            alloc,
            "--signature: required, since the message isn't sealed yet\n",
        ));
    };
    match signature_in(alloc, file) {
        Ok(signature) => Ok(signature),
        Err(_) => Err(bad_input(alloc, "signature: the file has no signature\n")),
    }
}

/// Which message it is.
fn message_name(alloc: Global, message: &[u8]) -> Result<String, AllocError> {
    match described(alloc, message)? {
        Some(found) => {
            let digits = digits(alloc, &found.serial)?;
            format!(in alloc; "the message with serial number {digits}")
        }
        None => String::from_str(alloc, "the message of the last CRL"),
    }
}

/// The subject of the issuer.
fn issuer_text(alloc: Global, issuer: &[u8]) -> Result<Vec<u8>, OutOfMemory> {
    match subject_in(alloc, issuer)? {
        Some(subject) => name_text(alloc, &subject),
        None => Ok(Vec::from_slice(alloc, b"the issuer")?),
    }
}

/// The algorithm that the message names.
fn message_algorithm(alloc: Global, message: &[u8]) -> Result<Vec<u8>, OutOfMemory> {
    match algorithm_in(alloc, message)? {
        Some(algorithm) => algorithm_text(alloc, &algorithm),
        None => Ok(Vec::from_slice(alloc, b"its algorithm")?),
    }
}

fn wrong_signature_text(
    alloc: Global,
    issuer: &[u8],
    message: &[u8],
) -> Result<Vec<u8>, OutOfMemory> {
    let name = message_name(alloc, message)?;
    let subject = issuer_text(alloc, issuer)?;
    let algorithm = message_algorithm(alloc, message)?;
    let mut text = Vec::from_slice(alloc, b"signature: doesn't verify: sign ")?;
    text.extend_from_slice(name.as_bytes())?;
    text.extend_from_slice(b", by ")?;
    text.extend_from_slice(algorithm.as_slice())?;
    text.extend_from_slice(b" and the key of ")?;
    text.extend_from_slice(subject.as_slice())?;
    text.push(b'\n')?;
    Ok(text)
}

/// The issuer's key didn't make the signature of the message.
fn wrong_signature(alloc: Global, issuer: &[u8], message: &[u8]) -> Halt {
    match wrong_signature_text(alloc, issuer, message) {
        Ok(text) => Halt::Said(Ending::Refused, text),
        Err(_) => Halt::OutOfMemory,
    }
}

fn sealed_with(
    alloc: Global,
    issuer: &[u8],
    message: &[u8],
    signature: &[u8],
) -> Result<Vec<u8>, Halt>
    ensures { IfOk result (λ octets. IsSealed issuer.now message.now signature.now octets.items) }
{
    match sealed(alloc, issuer, message, signature) {
        Ok(octets) => Ok(octets),
        Err(SealError::WrongSignature) => Err(wrong_signature(alloc, issuer, message)),
        Err(error) => Err(not_sealed(alloc, error)),
    }
}

/// The octets that the signature makes of the message.
#[tactic(auto, using(crate::proofs::Seals::sealed_by))]
fn sealed_octets(
    alloc: Global,
    record: &Record,
    message: &[u8],
    file: Option<&[u8]>,
) -> Result<Vec<u8>, Halt>
    ensures { IfOk result (λ octets. IsSealedBy «record».now message.now octets.items) }
{
    let signature = signature_of(alloc, file)?;
    let issuer = issuer_of(alloc, record)?;
    let octets = sealed_with(alloc, issuer.as_slice(), message, signature.as_slice())?;
    Ok(octets)
}

/// What was sealed before.
fn sealed_before(alloc: Global, is_der: bool, label: &[u8], octets: &[u8]) -> Result<Step, Halt>
    requires { is_label label.now ≡ true }
    ensures event { IfOk result (λ step. step.event ≡ None) }
    ensures text { IfOk result (λ step. step.answer.text.items ≡ text_of is_der label.now octets.now) }
{
    let text = text_of(alloc, is_der, label, octets)?;
    let step = Step::written(alloc, text);
    Ok(step)
}

/// The event that records the octets of a certificate.
#[tactic(auto, using(crate::proofs::Issued::decided))]
fn sealing(
    alloc: Global,
    record: &Record,
    serial: Integer,
    octets: OctetString,
) -> Result<Event, Halt>
    ensures { IfOk result (λ e. e ≡ event.Sealed serial octets) }
{
    match record.seal(serial, octets) {
        Ok(event) => Ok(event),
        Err(refusal) => Err(halted(alloc, refusal)),
    }
}

/// The event that records the octets of a list.
#[tactic(auto, using(crate::proofs::Issued::decided))]
fn list_sealing(
    alloc: Global,
    record: &Record,
    number: u64,
    octets: OctetString,
) -> Result<Event, Halt>
    ensures { IfOk result (λ e. e ≡ event.ListSealed number octets) }
{
    match record.seal_list(number, octets) {
        Ok(event) => Ok(event),
        Err(refusal) => Err(halted(alloc, refusal)),
    }
}

/// What is made of the message of a certificate now, which is recorded.
fn seal_certificate_now(
    alloc: Global,
    record: &Record,
    serial: &Integer,
    message: &[u8],
    is_der: bool,
    label: &[u8],
    file: Option<&[u8]>,
) -> Result<Step, Halt>
    requires { is_label label.now ≡ true }
    ensures { IfOk result (λ step. SealsAs «record».now is_der label.now (Pending message.now) (event.Sealed serial.now) step.event step.answer.text.items) }
{
    let octets = sealed_octets(alloc, record, message, file)?;
    let text = text_of(alloc, is_der, label, octets.as_slice())?;
    let copy = serial.try_clone(alloc)?;
    let taken = OctetString::new(octets);
    let event = sealing(alloc, record, copy, taken)?;
    Ok(Step::recorded(event, text, Vec::new(alloc)))
}

/// The same of a list.
fn seal_list_now(
    alloc: Global,
    record: &Record,
    number: u64,
    message: &[u8],
    is_der: bool,
    file: Option<&[u8]>,
) -> Result<Step, Halt>
    ensures { IfOk result (λ step. SealsAs «record».now is_der list_label (Pending message.now) (event.ListSealed number) step.event step.answer.text.items) }
{
    let octets = sealed_octets(alloc, record, message, file)?;
    let text = text_of(alloc, is_der, list_label(), octets.as_slice())?;
    let taken = OctetString::new(octets);
    let event = list_sealing(alloc, record, number, taken)?;
    Ok(Step::recorded(event, text, Vec::new(alloc)))
}

/// What is made of a certificate's message, or was made of it before: the octets that are written are
/// those that are recorded.
#[tactic(auto, using(crate::proofs::Seals::seals_again))]
pub(crate) fn seal_certificate(
    alloc: Global,
    record: &Record,
    certificate: &Certificate,
    is_der: bool,
    file: Option<&[u8]>,
) -> Result<Step, Halt>
    ensures { IfOk result (λ step. SealsAs «record».now is_der (label certificate.now.kind) certificate.now.content (event.Sealed certificate.now.serial)
        step.event step.answer.text.items) }
{
    let label = label(certificate.kind);
    match &certificate.content {
        Content::Sealed(octets) => {
            let step = sealed_before(alloc, is_der, label, octets.as_slice())?;
            Ok(step)
        }
        Content::Pending(message) => {
            let step = seal_certificate_now(
                alloc,
                record,
                &certificate.serial,
                message.as_slice(),
                is_der,
                label,
                file,
            )?;
            Ok(step)
        }
    }
}

/// What is made of a list's message, or was made of it before.
#[tactic(auto, using(crate::proofs::Seals::seals_again))]
pub(crate) fn seal_list(
    alloc: Global,
    record: &Record,
    list: &RevocationList,
    is_der: bool,
    file: Option<&[u8]>,
) -> Result<Step, Halt>
    ensures { IfOk result (λ step. SealsAs «record».now is_der list_label list.now.content (event.ListSealed list.now.number)
        step.event step.answer.text.items) }
{
    match &list.content {
        Content::Sealed(octets) => {
            let step = sealed_before(alloc, is_der, list_label(), octets.as_slice())?;
            Ok(step)
        }
        Content::Pending(message) => {
            let step = seal_list_now(alloc, record, list.number, message.as_slice(), is_der, file)?;
            Ok(step)
        }
    }
}

fn certificate_asked<'a>(
    alloc: Global,
    record: &'a Record,
    line: &Line,
) -> Result<&'a Certificate, Halt>
    ensures { IfOk result (λ c. Has c.now «record».now.certificates) }
{
    match line.value(Opt::Serial) {
        Some(text) => certificate_named(alloc, record, text),
        None => pending(alloc, record),
    }
}

fn last_list<'a>(alloc: Global, record: &'a Record) -> Result<&'a RevocationList, Halt>
    ensures { IfOk result (λ l. «record».now.last ≡ Some l.now) }
{
    match record.last_list() {
        Some(list) => Ok(list),
        None => Err(refused(alloc, "register: it has no CRL yet: shelf list makes one\n")),
    }
}

/// What is made of the message of the certificate that is asked for.
fn seal_asked(
    alloc: Global,
    record: &Record,
    line: &Line,
    file: Option<&[u8]>,
) -> Result<Step, Halt>
    ensures { IfOk result (λ step. IsSeal «record».now step.event step.answer.text.items) }
{
    let certificate = certificate_asked(alloc, record, line)?;
    let step = seal_certificate(alloc, record, certificate, line.has(Opt::Der), file)?;
    Ok(step)
}

/// What is made of the message of the last list.
fn seal_last_list(
    alloc: Global,
    record: &Record,
    line: &Line,
    file: Option<&[u8]>,
) -> Result<Step, Halt>
    ensures { IfOk result (λ step. IsSeal «record».now step.event step.answer.text.items) }
{
    let list = last_list(alloc, record)?;
    let step = seal_list(alloc, record, list, line.has(Opt::Der), file)?;
    Ok(step)
}

/// What `seal` comes to.
pub(crate) fn sealed_step(
    alloc: Global,
    record: &Record,
    line: &Line,
    file: Option<&[u8]>,
) -> Result<Step, Halt>
    ensures { IfOk result (λ step. IsSeal «record».now step.event step.answer.text.items) }
{
    if line.has(Opt::List) {
        let step = seal_last_list(alloc, record, line, file)?;
        Ok(step)
    } else {
        let step = seal_asked(alloc, record, line, file)?;
        Ok(step)
    }
}
