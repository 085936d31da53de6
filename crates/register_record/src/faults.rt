//! Why an event may not follow the record.
ghost use Rattle.std.specs.Prelude.{◌≡◌, ◌&&◌, ℕ, None, Some, true, false, nat_lt, nat_le, is_none, nat_eq, length};
ghost use Rattle.std.specs.Option.{option_copied};
ghost use Rattle.std.specs.List.{list_any};
ghost use Rattle.register_record.specs.Records.{State, found, number_of};
ghost use Rattle.register_record.specs.Following.{contents, end_of_numbers, ends_at, fault_if, fault_under, final_fault, has_base, header, is_hold, is_later, is_not_zero, is_on_hold, is_revoked, is_sequence, is_serial, is_signed, issued_fault, length_in, octet, list_fault, list_sealing_fault, released_fault, reserved_fault, revoked_fault, sealing_fault};

use crate::event::{ListKind, Reason, Revocation};
use crate::record::Record;
use crate::refusal::Refusal;
use crate::state::{Base, Certificate, Change, Content, RevocationList};
use asn1_core::{Integer, OctetString};

/// One more than the greatest number of a list.
const END_OF_NUMBERS: u64 = 1 << 63;

fn octet(octets: &[u8], at: usize) -> u8
    ensures { result ≡ octet octets.now at }
{
    octets.get(at).copied().unwrap_or(0)
}

/// How many octets come before the contents octets (X.690, 8.1.3).
fn header(octets: &[u8]) -> usize
    ensures { result ≡ header octets.now }
{
    let length = octet(octets, 1);
    if length < 128 {
        2
    } else {
        2 + usize::from(length - 128)
    }
}

/// How many contents octets the length octets say, of which the long form has four at most.
fn length_in(octets: &[u8]) -> Option<u64>
    ensures { result ≡ length_in octets.now }
{
    let length = octet(octets, 1);
    if length < 128 {
        return Some(u64::from(length));
    }
    let one = u64::from(octet(octets, 2));
    if length == 129 {
        return Some(one);
    }
    let two = one * 256 + u64::from(octet(octets, 3));
    if length == 130 {
        return Some(two);
    }
    let three = two * 256 + u64::from(octet(octets, 4));
    if length == 131 {
        return Some(three);
    }
    let four = three * 256 + u64::from(octet(octets, 5));
    if length == 132 {
        return Some(four);
    }
    None
}

fn ends_at(octets: &[u8], length: Option<u64>) -> bool
    ensures { result ≡ ends_at octets.now length }
{
    match length {
        Some(n) => octets.len() as u128 == header(octets) as u128 + u128::from(n),
        None => false,
    }
}

/// What follows the identifier octet and the length octets (X.690, 8.1.3).
fn contents(octets: &[u8]) -> &[u8]
    ensures { result.now ≡ contents octets.now }
{
    octets.get(header(octets)..).unwrap_or(&[])
}

/// Whether the octets are one SEQUENCE.
fn is_sequence(octets: &[u8]) -> bool
    ensures { result ≡ is_sequence octets.now }
{
    octet(octets, 0) == 48 && ends_at(octets, length_in(octets))
}

/// Whether the octets are a SEQUENCE that begins with the message.
fn is_signed(message: &[u8], octets: &[u8]) -> bool
    ensures { result ≡ is_signed message.now octets.now }
{
    is_sequence(message) && is_sequence(octets) && contents(octets).starts_with(message)
}

fn is_not_zero(octet: u8) -> bool
    ensures { result ≡ is_not_zero octet }
{
    octet != 0
}

fn has_number(serial: &[u8]) -> bool
    ensures { result ≡ list_any is_not_zero serial.now }
{
    serial.iter().any(|octet| is_not_zero(*octet))
}

/// Whether the contents octets are those of a positive number, and 20 at most.
fn is_serial(serial: &[u8]) -> bool
    ensures { result ≡ is_serial serial.now }
{
    octet(serial, 0) < 128 && has_number(serial) && serial.len() <= 20
}

fn sealing_fault(content: &Content, octets: &OctetString) -> Option<Refusal>
    ensures { result ≡ sealing_fault content.now octets.now }
{
    match content {
        Content::Sealed(_) => Some(Refusal::AlreadySealed),
        Content::Pending(message) => {
            if is_signed(message.as_slice(), octets.as_slice()) {
                None
            } else {
                Some(Refusal::OtherMessage)
            }
        }
    }
}

fn is_hold(reason: Reason) -> bool
    ensures { result ≡ is_hold reason }
{
    matches!(reason, Reason::CertificateHold)
}

fn is_on_hold(change: Option<Change>) -> bool
    ensures { result ≡ is_on_hold change }
{
    match change {
        Some(Change::Revoked(revocation)) => is_hold(revocation.reason),
        _ => false,
    }
}

fn is_revoked(change: Option<Change>) -> bool
    ensures { result ≡ is_revoked change }
{
    matches!(change, Some(Change::Revoked(_)))
}

fn revoked_fault(certificate: &Certificate) -> Option<Refusal>
    ensures { result ≡ revoked_fault certificate.now }
{
    match certificate.content {
        Content::Pending(_) => Some(Refusal::NotIssued),
        Content::Sealed(_) => {
            if is_revoked(certificate.change) {
                Some(Refusal::AlreadyRevoked)
            } else {
                None
            }
        }
    }
}

fn final_fault(revocation: &Revocation, certificate: &Certificate) -> Option<Refusal>
    ensures { result ≡ final_fault revocation.now certificate.now }
{
    if !is_on_hold(certificate.change) {
        return Some(Refusal::NotOnHold);
    }
    if is_hold(revocation.reason) {
        return Some(Refusal::AlreadyOnHold);
    }
    None
}

fn released_fault(certificate: &Certificate) -> Option<Refusal>
    ensures { result ≡ released_fault certificate.now }
{
    if is_on_hold(certificate.change) {
        None
    } else {
        Some(Refusal::NotOnHold)
    }
}

fn is_later(time: i64, last: Option<&RevocationList>) -> bool
    ensures { result ≡ is_later time (option_copied last.entry) }
{
    match last {
        Some(list) => list.this_update < time,
        None => true,
    }
}

fn has_base(kind: ListKind, base: Option<Base>) -> bool
    ensures { result ≡ has_base kind base }
{
    match kind {
        ListKind::Complete => true,
        ListKind::Delta => base.is_some(),
    }
}

impl Record {
    /// The number of the last list that was reserved, or 0.
    pub(crate) fn last_number(&self) -> u64
        ensures { result ≡ number_of self.now.last }
    {
        match &self.last {
            Some(list) => list.number,
            None => 0,
        }
    }

    pub(crate) fn reserved_fault(&self, serial: &Integer) -> Option<Refusal>
        ensures { result ≡ reserved_fault serial.now self.now }
    {
        if self.issuer.is_none() {
            return Some(Refusal::NoIssuer);
        }
        if !is_serial(serial.as_bytes()) {
            return Some(Refusal::NoSerialNumber);
        }
        if self.certificate(serial).is_some() {
            return Some(Refusal::Taken);
        }
        None
    }

    pub(crate) fn sealed_fault(&self, serial: &Integer, octets: &OctetString) -> Option<Refusal>
        ensures { result ≡ fault_under serial.now (λ c. sealing_fault c.content octets.now) self.now }
    {
        match self.certificate(serial) {
            Some(certificate) => sealing_fault(&certificate.content, octets),
            None => Some(Refusal::Unknown),
        }
    }

    pub(crate) fn revoked_fault(&self, serial: &Integer) -> Option<Refusal>
        ensures { result ≡ fault_under serial.now revoked_fault self.now }
    {
        match self.certificate(serial) {
            Some(certificate) => revoked_fault(certificate),
            None => Some(Refusal::Unknown),
        }
    }

    pub(crate) fn final_fault(&self, serial: &Integer, revocation: &Revocation) -> Option<Refusal>
        ensures { result ≡ fault_under serial.now (final_fault revocation.now) self.now }
    {
        match self.certificate(serial) {
            Some(certificate) => final_fault(revocation, certificate),
            None => Some(Refusal::Unknown),
        }
    }

    pub(crate) fn released_fault(&self, serial: &Integer) -> Option<Refusal>
        ensures { result ≡ fault_under serial.now released_fault self.now }
    {
        match self.certificate(serial) {
            Some(certificate) => released_fault(certificate),
            None => Some(Refusal::Unknown),
        }
    }

    pub(crate) fn list_fault(
        &self,
        kind: ListKind,
        this_update: i64,
        next_update: i64,
    ) -> Option<Refusal>
        ensures { result ≡ list_fault kind this_update next_update self.now }
    {
        if self.issuer.is_none() {
            return Some(Refusal::NoIssuer);
        }
        if !is_later(this_update, self.last.as_ref()) {
            return Some(Refusal::NotLater);
        }
        if this_update >= next_update {
            return Some(Refusal::EndsBefore);
        }
        if !has_base(kind, self.base) {
            return Some(Refusal::NoBase);
        }
        None
    }

    pub(crate) fn list_may_follow(
        &self,
        number: u64,
        kind: ListKind,
        this_update: i64,
        next_update: i64,
    ) -> bool
        ensures { result ≡ (nat_lt (number_of self.now.last) number && nat_lt number end_of_numbers
            && is_none (list_fault kind this_update next_update self.now)) }
    {
        self.last_number() < number
            && number < END_OF_NUMBERS
            && self.list_fault(kind, this_update, next_update).is_none()
    }

    pub(crate) fn list_sealing_fault(&self, number: u64, octets: &OctetString) -> Option<Refusal>
        ensures { result ≡ list_sealing_fault number octets.now self.now.last }
    {
        match &self.last {
            Some(list) if list.number == number => sealing_fault(&list.content, octets),
            _ => Some(Refusal::OtherList),
        }
    }
}
