//! What the record decides: an event that may follow, or why there is none.
ghost use Rattle.std.specs.Prelude.{◌≡◌, ◌||◌, ℕ, None, Some, IfOk, IfErr, OnOk, int_lt};
ghost use Rattle.register_record.specs.Records.{State};
ghost use Rattle.register_record.specs.Following.{fault_under, final_fault, list_sealing_fault, released_fault, reserved_fault, revoked_fault, sealing_fault};
ghost use Rattle.register_record.specs.Decisions.{ExplainsNext, IsNextList, decided, is_after, is_ahead, list_decided, list_fault_at, next_fault, next_number, revocation_is_ahead, taken_fault, unless, unless_ahead};
ghost use Rattle.register_record.specs.Lists.{base_number};
ghost use Rattle.register_record.specs.declared.event.Event.TheVariants as event;
ghost use Rattle.register_record.specs.declared.event.ListKind.TheVariants.{Complete};

use crate::event::{Event, Kind, ListKind, Revocation};
use crate::list::{NextList, entries};
use crate::record::Record;
use crate::refusal::{ListError, Refusal};
use crate::state::Base;
use asn1_core::{Integer, OctetString};
use std::alloc::Global;

/// The greatest number of a list.
const LAST_NUMBER: u64 = (1 << 63) - 1;

fn unless(fault: Option<Refusal>, event: Event) -> Result<Event, Refusal>
    ensures { result ≡ unless fault event }
{
    match fault {
        None => Ok(event),
        Some(why) => Err(why),
    }
}

fn is_after(now: i64, time: Option<i64>) -> bool
    ensures { result ≡ is_after now time }
{
    match time {
        Some(time) => now < time,
        None => false,
    }
}

fn revocation_is_ahead(now: i64, revocation: &Revocation) -> bool
    ensures { result ≡ revocation_is_ahead now revocation.now }
{
    now < revocation.time || is_after(now, revocation.invalidity_date)
}

/// Whether the event says of something that it happened after `now`.
fn is_ahead(now: i64, event: &Event) -> bool
    ensures { result ≡ is_ahead now event.now }
{
    match event {
        Event::Revoked { revocation, .. } => revocation_is_ahead(now, revocation),
        Event::MadeFinal { revocation, .. } => revocation_is_ahead(now, revocation),
        Event::Released { time, .. } => now < *time,
        Event::ListReserved { this_update, .. } => now < *this_update,
        _ => false,
    }
}

fn unless_ahead(ahead: bool, fault: Option<Refusal>) -> Option<Refusal>
    ensures { result ≡ unless_ahead ahead fault }
{
    match fault {
        Some(why) => Some(why),
        None => { if ahead { Some(Refusal::Ahead) } else { None } }
    }
}

fn decided(now: i64, fault: Option<Refusal>, event: Event) -> Result<Event, Refusal>
    ensures { result ≡ decided now fault event }
{
    let ahead = is_ahead(now, &event);
    unless(unless_ahead(ahead, fault), event)
}

fn base_number(kind: ListKind, base: Option<Base>) -> Option<u64>
    ensures { result ≡ base_number kind base }
{
    match kind {
        ListKind::Complete => None,
        ListKind::Delta => match base {
            Some(base) => Some(base.number),
            None => None,
        },
    }
}

impl Record {
    /// Reserves a serial number for a message: `NoIssuer` in an empty record, else `NoSerialNumber`
    /// where it isn't positive or has more than 20 octets, else `Taken` where it was reserved before.
    pub fn reserve(
        &self,
        serial: Integer,
        kind: Kind,
        not_after: i64,
        message: OctetString,
    ) -> Result<Event, Refusal>
        ensures { result ≡ unless (reserved_fault serial self.now) (event.Reserved serial kind not_after message) }
    {
        let fault = self.reserved_fault(&serial);
        unless(
            fault,
            Event::Reserved {
                serial,
                kind,
                not_after,
                message,
            },
        )
    }

    /// What the signature made of a message: `Unknown` where the serial number isn't reserved, else
    /// `AlreadySealed`, for which `certificate` has the octets, else `OtherMessage` where the octets
    /// aren't one SEQUENCE that begins with the message, or that isn't one SEQUENCE.
    pub fn seal(&self, serial: Integer, octets: OctetString) -> Result<Event, Refusal>
        ensures { result ≡ unless (fault_under serial (λ c. sealing_fault c.content octets) self.now) (event.Sealed serial octets) }
    {
        let fault = self.sealed_fault(&serial, &octets);
        unless(fault, Event::Sealed { serial, octets })
    }

    /// Revokes a certificate, or puts it on hold: `Unknown`, `NotIssued` where the signature isn't
    /// there yet, `AlreadyRevoked`, on hold too, or `Ahead` where a time of it is after `now`.
    pub fn revoke(
        &self,
        serial: Integer,
        revocation: Revocation,
        now: i64,
    ) -> Result<Event, Refusal>
        ensures { result ≡ decided now (fault_under serial revoked_fault self.now) (event.Revoked serial revocation) }
    {
        let fault = self.revoked_fault(&serial);
        decided(now, fault, Event::Revoked { serial, revocation })
    }

    /// Revokes for good what is on hold: `Unknown`, `NotOnHold`, `AlreadyOnHold` where the reason is a
    /// hold, or `Ahead` where a time of it is after `now`.
    pub fn make_final(
        &self,
        serial: Integer,
        revocation: Revocation,
        now: i64,
    ) -> Result<Event, Refusal>
        ensures { result ≡ decided now (fault_under serial (final_fault revocation) self.now) (event.MadeFinal serial revocation) }
    {
        let fault = self.final_fault(&serial, &revocation);
        decided(now, fault, Event::MadeFinal { serial, revocation })
    }

    /// Ends a hold: `Unknown`, `NotOnHold`, or `Ahead` where the time is after `now`.
    pub fn release(&self, serial: Integer, time: i64, now: i64) -> Result<Event, Refusal>
        ensures { result ≡ decided now (fault_under serial released_fault self.now) (event.Released serial time) }
    {
        let fault = self.released_fault(&serial);
        decided(now, fault, Event::Released { serial, time })
    }

    fn next_fault(&self, kind: ListKind, this_update: i64, next_update: i64) -> Option<Refusal>
        ensures { result ≡ next_fault kind this_update next_update self.now }
    {
        if self.last_number() >= LAST_NUMBER {
            return Some(Refusal::Full);
        }
        self.list_fault(kind, this_update, next_update)
    }

    /// Reserves the number of a list for its message: `Stale` where an event came after `next_list`
    /// made it, else why there is no next list, else `Ahead` where its time is after `now`.
    pub fn reserve_list(
        &self,
        list: &NextList,
        message: OctetString,
        now: i64,
    ) -> Result<Event, Refusal>
        ensures { result ≡ list_decided now list.now message self.now }
    {
        if list.count != self.count {
            return Err(Refusal::Stale);
        }
        let fault = self.next_fault(list.kind, list.this_update, list.next_update);
        if let Some(why) = fault {
            return Err(why);
        }
        let number = self.last_number() + 1;
        let event = Event::ListReserved {
            number,
            kind: list.kind,
            this_update: list.this_update,
            next_update: list.next_update,
            message,
        };
        decided(now, None, event)
    }

    fn taken_fault(&self, number: u64, this_update: i64, next_update: i64) -> Option<Refusal>
        ensures { result ≡ taken_fault number this_update next_update self.now }
    {
        if number <= self.last_number() {
            return Some(Refusal::OldNumber);
        }
        if number > LAST_NUMBER {
            return Some(Refusal::Full);
        }
        self.list_fault(ListKind::Complete, this_update, next_update)
    }

    /// Takes the number of a complete list that was issued elsewhere for its message: `OldNumber` where
    /// it isn't above that of the last list, `Full`, else why there is no next list of these times, else
    /// `Ahead` where its time is after `now`.
    pub fn take_list(
        &self,
        number: u64,
        this_update: i64,
        next_update: i64,
        message: OctetString,
        now: i64,
    ) -> Result<Event, Refusal>
        ensures { result ≡ decided now (taken_fault number this_update next_update self.now)
            (event.ListReserved number Complete this_update next_update message) }
    {
        let fault = self.taken_fault(number, this_update, next_update);
        let event = Event::ListReserved {
            number,
            kind: ListKind::Complete,
            this_update,
            next_update,
            message,
        };
        decided(now, fault, event)
    }

    /// What the signature made of a list's message: `OtherList` where another number was reserved
    /// last, else `AlreadySealed`, for which `last_list` has the octets, else `OtherMessage`.
    pub fn seal_list(&self, number: u64, octets: OctetString) -> Result<Event, Refusal>
        ensures { result ≡ unless (list_sealing_fault number octets self.now.last) (event.ListSealed number octets) }
    {
        let fault = self.list_sealing_fault(number, &octets);
        unless(fault, Event::ListSealed { number, octets })
    }

    /// The number, the base and the entries of the next list, whose time isn't after `now`. Its time
    /// is n log n at most.
    pub fn next_list(
        &self,
        alloc: Global,
        kind: ListKind,
        this_update: i64,
        next_update: i64,
        now: i64,
    ) -> Result<NextList, ListError>
        ensures ok { OnOk result (list_fault_at now kind this_update next_update self.now ≡ None) }
        ensures is { IfOk result (λ l. IsNextList l kind this_update next_update self.now) }
        ensures why { IfErr result (ExplainsNext (list_fault_at now kind this_update next_update self.now)) }
    {
        let fault = self.next_fault(kind, this_update, next_update);
        if let Some(why) = unless_ahead(now < this_update, fault) {
            return Err(ListError::Refused(why));
        }
        let entries = entries(alloc, kind, self.base, self.certificates())?;
        let number = self.last_number() + 1;
        let base = base_number(kind, self.base);
        Ok(NextList {
            count: self.count,
            kind,
            this_update,
            next_update,
            number,
            base,
            entries,
        })
    }
}
