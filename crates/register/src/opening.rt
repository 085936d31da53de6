//! The rows of a store as the record of an authority.
ghost use Rattle.std.specs.Prelude.{◌≡◌, ◌<◌, ◌^◌, [], false, IsTrue, IfOk, IfErr, OnOk};
ghost use Rattle.sqlite_trees.specs.View.{IsClean, IsQuiet};
ghost use Rattle.register_record.specs.Records.{after, nothing};
ghost use Rattle.register_record.specs.declared.event.Event.TheVariants as event;
ghost use Rattle.register.specs.Registers.{HasRecord, IsOpenRegister};
ghost use Rattle.register.specs.Opening.{EndsAt, FoundRecord, GoesOn, Refuses};

use crate::error::{CreateError, OpenError};
use crate::register::Register;
use asn1_core::OctetString;
use register_record::{Event, MOST_EVENTS, PushError, Record};
use register_rows::{ReadError, TABLE, read_event};
use sqlite_trees::store::{Alter, Direction, Shape};
use sqlite_value::row::Row;
use std::alloc::Global;

/// Adds the event of a row to the record.
fn push_row(alloc: Global, known: &mut Record, before: u64, row: &Row) -> Result<(), OpenError>
    requires { before < 2 ^ 62 }
    ensures ok { OnOk result (GoesOn before row.now known.old known.new) }
    ensures why { IfErr result (EndsAt before row.now known.old) }
{
    let event = match read_event(alloc, before, row) {
        Ok(event) => event,
        Err(ReadError::NoEvent) => return Err(OpenError::NoEvent(before)),
        Err(ReadError::OutOfMemory) => return Err(OpenError::OutOfMemory),
    };
    match known.push(event) {
        Ok(()) => Ok(()),
        Err(PushError::NotNext) => Err(OpenError::NotNext(before)),
        Err(PushError::Full) => Err(OpenError::Full),
        Err(PushError::OutOfMemory) => Err(OpenError::OutOfMemory),
    }
}

fn read_all<S: Alter>(alloc: Global, store: &mut S) -> Result<Record, OpenError>
    ensures found { IfOk result (λ r. FoundRecord (S.Store.view store.old) (S.Store.view store.new) r) }
    ensures why { IfErr result (λ e. IsClean (S.Store.view store.new) → Refuses ((S.Store.view store.new).trees 0) e) }
    ensures quiet { IsQuiet S.Store.view S.Store.faults S.Store.recovers S.Store.is_shielded store.old store.new }
{
    let Shape::Table = store.shape(TABLE) else {
        return Err(OpenError::NoTable);
    };
    let mut row = Row::new(alloc);
    store.seek(0, TABLE, &row, Direction::Forward)?;
    let mut record = Record::new(alloc);
    'rows: for before in 0..MOST_EVENTS {
        if !store.next(0, &mut row)? {
            return Ok(record);
        }
        push_row(alloc, &mut record, before, &row)?;
    }
    Err(OpenError::Full)
}

fn has_events(known: &Record) -> bool
    ensures { result ≡ false → known.now.count ≡ 0 }
{
    known.count() != 0
}

impl<S: Alter> Register<S> {
    /// Reads the register of a store, whose rows have to be those of a record. What is pending in the
    /// store is rolled back first. An `Err` gives the store back, with the rows that are refused.
    pub fn open(alloc: Global, mut store: S) -> Result<Register<S>, (OpenError, S)>
        ensures register { IfOk result (λ r. IsOpenRegister r.is_closed (S.Store.view r.store) r.record) }
        ensures opened { IfOk result (λ r. r.is_closed ≡ false) }
        ensures found { IfOk result (λ r. IsClean (S.Store.view r.store) → IsTrue (S.Store.view r.store).is_open
            → HasRecord ((S.Store.view store).committed 0) r.record) }
        ensures why { IfErr result (λ e. IsClean (S.Store.view e.1) → Refuses ((S.Store.view e.1).trees 0) e.0) }
        ensures quiet { IfOk result (λ r. IsQuiet S.Store.view S.Store.faults S.Store.recovers S.Store.is_shielded store r.store) }
    {
        store.rollback();
        match read_all(alloc, &mut store) {
            Ok(record) => Ok(Register {
                store,
                record,
                is_closed: false,
            }),
            Err(error) => Err((error, store)),
        }
    }

    /// Makes the register of an issuer in a store whose table has no rows. An `Err` gives the store
    /// back.
    pub fn create(
        alloc: Global,
        store: S,
        certificate: OctetString,
    ) -> Result<Register<S>, (CreateError, S)>
        ensures register { IfOk result (λ r. IsOpenRegister r.is_closed (S.Store.view r.store) r.record) }
        ensures opened { IfOk result (λ r. r.is_closed ≡ false) }
        ensures issuer { IfOk result (λ r. r.record ≡ after nothing (event.Issuer certificate)) }
    {
        let mut register = match Register::open(alloc, store) {
            Ok(register) => register,
            Err((error, store)) => return Err((CreateError::Unopened(error), store)),
        };
        if has_events(&register.record) {
            return Err((CreateError::NotEmpty, register.into_store()));
        }
        match register.append(alloc, Event::Issuer { certificate }) {
            Ok(()) => Ok(register),
            Err(error) => Err((CreateError::Unrecorded(error), register.into_store())),
        }
    }
}
