//! The record of an authority, and what it decides.
ghost use Rattle.std.specs.Prelude.{◌≡◌, ◌↔◌, ◌&&◌, ◌≤◌, ◌^◌, ℕ, List, true, false, Some, None, IfOk, IfErr, OnOk, OnErr, IsErrOf};
ghost use Rattle.std.specs.Option.{option_copied};
ghost use Rattle.register_record.specs.Records.{after, found, nothing, with_event, State};
ghost use Rattle.register_record.specs.Following.{may_follow};
ghost use Rattle.register_record.specs.declared.record.PushError.TheVariants as failure;

use crate::certificates::Certificates;
use crate::event::{Event, ListKind, Revocation};
use crate::state::{Base, Certificate, Change, Content, RevocationList};
use asn1_core::{Integer, OctetString, OutOfMemory};
use std::alloc::Global;
use std::marker::Model;

/// So many events a record has at most.
pub const MOST_EVENTS: u64 = 1 << 62;

/// The state that events give.
#[derive(Drop)]
pub struct Record {
    pub(crate) issuer: Option<OctetString>,
    pub(crate) certificates: Certificates,
    pub(crate) last: Option<RevocationList>,
    pub(crate) base: Option<Base>,
    pub(crate) count: u64,
}

impl Model for Record {
    ghost use Rattle.register_record.specs.Records.{State};

    ghost Value = { State };

    ghost view = { λ r. record { issuer = r.issuer; certificates = r.certificates; last = r.last; base = r.base; count = r.count } };
}

/// Why an event isn't added.
#[derive(Clone, Copy, Debug)]
pub enum PushError {
    /// It may not follow.
    NotNext,
    /// There are `MOST_EVENTS` already.
    Full,
    OutOfMemory,
}

impl From<OutOfMemory> for PushError {
    ghost use Rattle.std.specs.Prelude.{◌≡◌};
    ghost use Rattle.register_record.specs.declared.record.PushError.TheVariants.{OutOfMemory as NoMemory};

    ghost from_gives = { λ _ r. r ≡ NoMemory };

    fn from(_: OutOfMemory) -> PushError {
        PushError::OutOfMemory
    }
}

impl Record {
    /// The record of no events.
    pub fn new(alloc: Global) -> Record
        ensures { result ≡ nothing }
    {
        Record {
            issuer: None,
            certificates: Certificates::new(alloc),
            last: None,
            base: None,
            count: 0,
        }
    }

    /// How many events it has.
    pub fn count(&self) -> u64
        ensures { result ≡ self.now.count }
    {
        self.count
    }

    /// The issuer's certificate.
    pub fn issuer(&self) -> Option<&OctetString>
        ensures { option_copied result ≡ self.now.issuer }
    {
        self.issuer.as_ref()
    }

    /// What serial numbers are reserved for, in order.
    pub fn certificates(&self) -> &[Certificate]
        ensures { result.now ≡ self.now.certificates }
    {
        self.certificates.as_slice()
    }

    /// What is recorded under the serial number.
    pub fn certificate(&self, serial: &Integer) -> Option<&Certificate>
        ensures { option_copied result ≡ found serial.now self.now.certificates }
    {
        self.certificates.get(serial)
    }

    /// The last list that was reserved.
    pub fn last_list(&self) -> Option<&RevocationList>
        ensures { option_copied result ≡ self.now.last }
    {
        self.last.as_ref()
    }

    /// The last complete list that was sealed.
    pub fn base(&self) -> Option<Base>
        ensures { result ≡ self.now.base }
    {
        self.base
    }

    /// Adds an event. `NotNext` exactly where it may not follow, else `Full` where it is one too many.
    pub fn push(&mut self, event: Event) -> Result<(), PushError>
        ensures ok { OnOk result ((may_follow self.old event ≡ true) × (self.new ≡ after self.old event)) }
        ensures err { OnErr result (self.new ≡ self.old) }
        ensures not_next { IsErrOf result failure.NotNext ↔ (may_follow self.old event ≡ false) }
        ensures full { IsErrOf result failure.Full → 2 ^ 62 ≤ self.old.count }
    {
        if !self.may_follow(&event) {
            return Err(PushError::NotNext);
        }
        if self.count >= MOST_EVENTS {
            return Err(PushError::Full);
        }
        self.add(event)?;
        self.count += 1;
        Ok(())
    }

    /// Whether the event may follow.
    fn may_follow(&self, event: &Event) -> bool
        ensures { result ≡ may_follow self.now event.now }
    {
        match event {
            Event::Issuer { certificate: _ } => self.issuer.is_none(),
            Event::Reserved { serial, .. } => self.reserved_fault(serial).is_none(),
            Event::Sealed { serial, octets } => self.sealed_fault(serial, octets).is_none(),
            Event::Revoked { serial, .. } => self.revoked_fault(serial).is_none(),
            Event::MadeFinal { serial, revocation } => {
                self.final_fault(serial, revocation).is_none()
            }
            Event::Released { serial, .. } => self.released_fault(serial).is_none(),
            Event::ListReserved {
                number,
                kind,
                this_update,
                next_update,
                ..
            } => self.list_may_follow(*number, *kind, *this_update, *next_update),
            Event::ListSealed { number, octets } => {
                self.list_sealing_fault(*number, octets).is_none()
            }
        }
    }

    /// Adds an event that may follow, but for its count.
    fn add(&mut self, event: Event) -> Result<(), OutOfMemory>
        requires { may_follow self.old event ≡ true }
        ensures ok { OnOk result (self.new ≡ with_event self.old event) }
        ensures err { OnErr result (self.new ≡ self.old) }
    {
        match event {
            Event::Issuer { certificate } => self.issuer = Some(certificate),
            Event::Reserved {
                serial,
                kind,
                not_after,
                message,
            } => self.certificates.push(Certificate {
                serial,
                kind,
                not_after,
                content: Content::Pending(message),
                change: None,
                since: 0,
            })?,
            Event::Sealed { serial, octets } => self.certificates.seal(&serial, octets),
            Event::Revoked { serial, revocation } => {
                self.change(&serial, Change::Revoked(revocation));
            }
            Event::MadeFinal { serial, revocation } => self.set_final(&serial, revocation),
            Event::Released { serial, time } => self.change(&serial, Change::Released(time)),
            Event::ListReserved {
                number,
                kind,
                this_update,
                next_update,
                message,
            } => {
                self.last = Some(RevocationList {
                    number,
                    kind,
                    this_update,
                    next_update,
                    content: Content::Pending(message),
                });
            }
            Event::ListSealed { number: _, octets } => self.set_list_octets(octets),
        }
        Ok(())
    }
}
