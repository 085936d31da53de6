//! `find`: the certificates that are asked for.
ghost use Rattle.std.specs.Prelude.{◌≡◌, IfOk};
ghost use Rattle.std.specs.Option.{option_map};
ghost use Rattle.register_lines.specs.Found.{IsFoundLine};
ghost use Rattle.shelf_register.specs.Finding.{AreShown, IsShown, IsShownIf, has_part, is_asked, is_named, octets_of, pem_of};
ghost use Rattle.shelf_register.specs.Options.{IsQuery, IsSerialAsked, form_of, status_asked};
ghost use Rattle.shelf_register.specs.Steps.{IsFind};
ghost use Rattle.shelf_register.specs.Subjects.{subject_text};

use crate::halt::Halt;
use crate::issuing::Surroundings;
use crate::numbers::{certificate_digits, days_in, serial_in};
use crate::options::{Line, Opt};
use crate::sealing::{label, text_of};
use crate::subject::subject_text;
use crate::times::later;
use asn1_core::Integer;
use register_driver::Step;
use register_lines::found_line;
use register_record::{Certificate, Change, Content, Reason, Record};
use register_words::{Query, Status, kind_word, matches, reason_word, status_of};
use serde_json::{Value, json};
use std::alloc::{AllocError, Global};

fn status_asked(line: &Line) -> Option<Status>
    ensures { result ≡ status_asked line.now.given.items }
{
    if line.has(Opt::Revoked) {
        Some(Status::Revoked)
    } else if line.has(Opt::OnHold) {
        Some(Status::OnHold)
    } else if line.has(Opt::Pending) {
        Some(Status::Pending)
    } else if line.has(Opt::ExpiresWithin) {
        Some(Status::Issued)
    } else {
        None
    }
}

/// The serial number of a text, where there is one.
fn serial_asked(alloc: Global, text: Option<&str>) -> Result<Option<Integer>, Halt>
    ensures { IfOk result (IsSerialAsked (option_map (λ text. text.now) text.entry)) }
{
    match text {
        Some(text) => {
            let serial = serial_in(alloc, text)?;
            Ok(Some(serial))
        }
        None => Ok(None),
    }
}

/// What is asked for.
fn query_of(alloc: Global, line: &Line, now: i64) -> Result<Query, Halt>
    ensures { IfOk result (IsQuery line.now.given.items now) }
{
    let serial = serial_asked(alloc, line.value(Opt::Serial))?;
    let status = status_asked(line);
    match line.value(Opt::ExpiresWithin) {
        Some(text) => {
            let seconds = days_in(alloc, "--expires-within", text)?;
            Ok(Query {
                serial,
                status,
                ends_from: Some(now),
                ends_to: Some(later(now, seconds)),
            })
        }
        None => Ok(Query {
            serial,
            status,
            ends_from: None,
            ends_to: None,
        }),
    }
}

fn octets_of(certificate: &Certificate) -> &[u8]
    ensures { result.now ≡ octets_of certificate.now.content }
{
    match &certificate.content {
        Content::Pending(octets) => octets.as_slice(),
        Content::Sealed(octets) => octets.as_slice(),
    }
}

fn has_part(octets: &[u8], part: &[u8]) -> bool
    ensures { result ≡ has_part part.now octets.now }
{
    let mut rest = octets;
    while let [_, after @ ..] = rest {
        if rest.starts_with(part) {
            return true;
        }
        rest = after;
    }
    rest.starts_with(part)
}

/// Whether a certificate has the text among its octets.
fn is_named(certificate: &Certificate, name: Option<&[u8]>) -> bool
    ensures { result ≡ is_named (option_map (λ text. text.now) name.entry) certificate.now }
{
    match name {
        Some(name) => has_part(octets_of(certificate), name),
        None => true,
    }
}

/// Whether the certificate is asked for.
fn is_asked(query: &Query, name: Option<&[u8]>, certificate: &Certificate) -> bool
    ensures { result ≡ is_asked query.now (option_map (λ text. text.now) name.entry) certificate.now }
{
    matches(query, certificate) && is_named(certificate, name)
}

fn status_name(status: Status) -> &'static str {
    match status {
        Status::Pending => "pending",
        Status::Issued => "issued",
        Status::OnHold => "on hold",
        Status::Revoked => "revoked",
    }
}

/// When it was revoked last, and why.
fn revocation_of(certificate: &Certificate) -> Option<(i64, Reason)> {
    match certificate.change {
        Some(Change::Revoked(revocation)) => Some((revocation.time, revocation.reason)),
        _ => None,
    }
}

/// A certificate as a line of JSON.
fn json_line(alloc: Global, certificate: &Certificate) -> Result<Vec<u8>, Halt> {
    let text = subject_text(alloc, certificate)?;
    let subject = match std::str::from_utf8(text.as_slice()) {
        Ok(subject) => subject,
        Err(_) => "-",
    };
    let serial = certificate_digits(alloc, certificate)?;
    let status = status_name(status_of(certificate));
    let kind = kind_word(certificate.kind);
    let not_after = certificate.not_after;
    let value: Value = match revocation_of(certificate) {
        Some((time, reason)) => {
            let reason = reason_word(reason);
            json!(in alloc; {"kind": kind, "not_after": not_after, "reason": reason, "revoked": time, "serial": serial, "status": status, "subject": subject})?
        }
        None => {
            json!(in alloc; {"kind": kind, "not_after": not_after, "serial": serial, "status": status, "subject": subject})?
        }
    };
    let mut text = value.to_string(alloc)?.into_bytes();
    text.push(b'\n')?;
    Ok(text)
}

/// A certificate that is sealed, as PEM.
fn pem_block(alloc: Global, certificate: &Certificate) -> Result<Vec<u8>, AllocError>
    ensures { IfOk result (λ text. text.items ≡ pem_of certificate.now.kind certificate.now.content) }
{
    match &certificate.content {
        Content::Sealed(octets) => {
            let text = text_of(alloc, false, label(certificate.kind), octets.as_slice())?;
            Ok(text)
        }
        Content::Pending(_) => Ok(Vec::new(alloc)),
    }
}

/// How certificates are written.
#[derive(Clone, Copy, Debug, PartialEq, Eq)]
pub(crate) enum Form {
    /// A line each, for people.
    Lines,
    /// A line of JSON each.
    Json,
    /// Those that are sealed, as PEM.
    Pem,
}

/// A certificate as a line for people.
#[tactic(auto, using(crate::proofs::Shown::with_subject))]
fn line_of(alloc: Global, certificate: &Certificate) -> Result<Vec<u8>, Halt>
    ensures { IfOk result (λ text. IsFoundLine certificate.now (subject_text certificate.now.kind certificate.now.content) text.items) }
{
    let subject = subject_text(alloc, certificate)?;
    let line = found_line(alloc, certificate, subject.as_slice())?;
    Ok(line)
}

fn shown(alloc: Global, form: Form, certificate: &Certificate) -> Result<Vec<u8>, Halt>
    ensures { IfOk result (λ text. IsShown form certificate.now text.items) }
{
    match form {
        Form::Lines => {
            let text = line_of(alloc, certificate)?;
            Ok(text)
        }
        Form::Json => {
            let text = json_line(alloc, certificate)?;
            Ok(text)
        }
        Form::Pem => {
            let text = pem_block(alloc, certificate)?;
            Ok(text)
        }
    }
}

/// What is written of a certificate, if it is asked for.
fn shown_if(
    alloc: Global,
    form: Form,
    is_asked: bool,
    certificate: &Certificate,
) -> Result<Vec<u8>, Halt>
    ensures { IfOk result (λ text. IsShownIf is_asked form certificate.now text.items) }
{
    if is_asked {
        let text = shown(alloc, form, certificate)?;
        Ok(text)
    } else {
        Ok(Vec::new(alloc))
    }
}

/// What is written of certificates: of each that is asked for, in the order in which their serial numbers
/// were reserved.
pub(crate) fn found_text(
    alloc: Global,
    form: Form,
    query: &Query,
    name: Option<&[u8]>,
    certificates: &[Certificate],
) -> Result<Vec<u8>, Halt>
    ensures { IfOk result (λ text. AreShown form query.now (option_map (λ text. text.now) name.entry) certificates.now text.items) }
{
    let mut text = Vec::new(alloc);
    for certificate in certificates {
        let part = shown_if(alloc, form, is_asked(query, name, certificate), certificate)?;
        text.extend_from_slice(part.as_slice())?;
    }
    Ok(text)
}

fn form_of(line: &Line) -> Form
    ensures { result ≡ form_of line.now.given.items }
{
    if line.has(Opt::Json) {
        Form::Json
    } else if line.has(Opt::Pem) {
        Form::Pem
    } else {
        Form::Lines
    }
}

/// What `find` comes to.
pub(crate) fn found(
    alloc: Global,
    record: &Record,
    line: &Line,
    around: &Surroundings,
) -> Result<Step, Halt>
    ensures { IfOk result (λ step. IsFind line.now.given.items «record».now around.now.clock step.event step.answer.text.items) }
{
    let query = query_of(alloc, line, around.clock)?;
    let name = line.value(Opt::Name).map(|name| name.as_bytes());
    let text = found_text(alloc, form_of(line), &query, name, record.certificates())?;
    Ok(Step::written(alloc, text))
}
