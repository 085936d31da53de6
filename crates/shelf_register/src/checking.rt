//! `register check`: decodes and verifies all that a register has.
use crate::exporting::{Events, give_all};
use crate::halt::{Halt, refused_with};
use crate::numbers::digits;
use asn1_core::{Integer, OctetString};
use register_record::{Event, Kind};
use register_steps::{SealError, described, opened};
use sqlite_trees::store::Alter;
use std::alloc::{AllocError, Global};

/// What was counted, and the issuer's certificate.
#[derive(Drop)]
struct Counts {
    issuer: Vec<u8>,
    reserved: u64,
    sealed: u64,
    revoked: u64,
    lists: u64,
}

fn bad_certificate(alloc: Global, serial: &Integer, what: &str) -> Halt {
    match digits(alloc, serial) {
        Ok(digits) => refused_with(format!(in alloc; "register: serial {digits}: {what}\n")),
        Err(_) => Halt::OutOfMemory,
    }
}

fn bad_list(alloc: Global, number: u64, what: &str) -> Halt {
    refused_with(format!(in alloc; "register: CRL {number}: {what}\n"))
}

fn is_same_kind(one: Kind, other: Kind) -> bool {
    matches!(
        (one, other),
        (Kind::Certificate, Kind::Certificate)
            | (Kind::AttributeCertificate, Kind::AttributeCertificate)
    )
}

/// Whether the message says what was recorded of it.
fn is_described(
    alloc: Global,
    serial: &Integer,
    kind: Kind,
    not_after: i64,
    message: &[u8],
) -> Result<bool, Halt> {
    match described(alloc, message)? {
        Some(found) => Ok(
            found.serial.as_bytes() == serial.as_bytes()
                && is_same_kind(found.kind, kind)
                && found.not_after == not_after,
        ),
        None => Ok(false),
    }
}

/// Whether the octets are signed by the issuer.
fn is_opened(alloc: Global, issuer: &[u8], octets: &OctetString) -> Result<bool, Halt> {
    match opened(alloc, issuer, octets.as_slice()) {
        Ok(_) => Ok(true),
        Err(SealError::OutOfMemory) => Err(Halt::OutOfMemory),
        Err(_) => Ok(false),
    }
}

fn one_more(count: u64) -> u64 {
    count.saturating_add(1)
}

impl Counts {
    fn take_reserved(
        &mut self,
        alloc: Global,
        serial: &Integer,
        kind: Kind,
        not_after: i64,
        message: &OctetString,
    ) -> Result<(), Halt> {
        if !is_described(alloc, serial, kind, not_after, message.as_slice())? {
            return Err(bad_certificate(alloc, serial, "its message isn't what was recorded"));
        }
        self.reserved = one_more(self.reserved);
        Ok(())
    }

    fn take_sealed(
        &mut self,
        alloc: Global,
        serial: &Integer,
        octets: &OctetString,
    ) -> Result<(), Halt> {
        if !is_opened(alloc, self.issuer.as_slice(), octets)? {
            return Err(bad_certificate(alloc, serial, "its signature isn't the issuer's"));
        }
        self.sealed = one_more(self.sealed);
        Ok(())
    }

    fn take_list(&mut self, alloc: Global, number: u64, octets: &OctetString) -> Result<(), Halt> {
        if !is_opened(alloc, self.issuer.as_slice(), octets)? {
            return Err(bad_list(alloc, number, "its signature isn't the issuer's"));
        }
        self.lists = one_more(self.lists);
        Ok(())
    }
}

impl Events for Counts {
    fn take(&mut self, alloc: Global, event: &Event) -> Result<(), Halt> {
        match event {
            Event::Issuer { certificate } => {
                self.issuer = Vec::from_slice(alloc, certificate.as_slice())?;
                Ok(())
            }
            Event::Reserved {
                serial,
                kind,
                not_after,
                message,
            } => self.take_reserved(alloc, serial, *kind, *not_after, message),
            Event::Sealed { serial, octets } => self.take_sealed(alloc, serial, octets),
            Event::ListSealed { number, octets } => self.take_list(alloc, *number, octets),
            Event::Revoked { .. } => {
                self.revoked = one_more(self.revoked);
                Ok(())
            }
            _ => Ok(()),
        }
    }
}

fn counted(alloc: Global, counts: &Counts) -> Result<Vec<u8>, AllocError> {
    let (reserved, sealed) = (counts.reserved, counts.sealed);
    let (revoked, lists) = (counts.revoked, counts.lists);
    let text = format!(in alloc;
        "ok\nserial numbers: {reserved}\ncertificates: {sealed}\nrevocations: {revoked}\nCRLs: {lists}\n"
    )?;
    Ok(text.into_bytes())
}

/// What `register check` says of a store with so many events.
pub(crate) fn checked<S: Alter>(alloc: Global, store: &mut S, count: u64) -> Result<Vec<u8>, Halt> {
    let mut counts = Counts {
        issuer: Vec::new(alloc),
        reserved: 0,
        sealed: 0,
        revoked: 0,
        lists: 0,
    };
    give_all(alloc, store, count, &mut counts)?;
    Ok(counted(alloc, &counts)?)
}
