//! The register: the record in memory, and the store that keeps its events.
ghost use Rattle.std.specs.Prelude.{◌≡◌, ◌⊎◌, ◌<◌, ◌^◌, true, false, IsTrue, IfOk, IfErr, OnOk, OnErr};
ghost use Rattle.sqlite_trees.specs.Tree.{Trees};
ghost use Rattle.sqlite_trees.specs.View.{IsClean};
ghost use Rattle.register_record.specs.Following.{may_follow};
ghost use Rattle.register_record.specs.Records.{after};
ghost use Rattle.register.specs.Registers.{HasRecord, IsOpenRegister};
ghost use Rattle.register_rows.specs.Rows.{row_of};
ghost use Rattle.register.specs.Errors.{ExplainsAppend};

use crate::error::AppendError;
use register_record::{Event, MOST_EVENTS, Record};
use register_rows::{row_of, write_row};
use sqlite_trees::store::Alter;
use sqlite_value::row::Row;
use std::alloc::Global;

/// Adds an event to the record in memory, and makes its row.
fn add_event(
    alloc: Global,
    known: &mut Record,
    is_closed: bool,
    event: Event,
) -> Result<Row, AppendError>
    ensures open { OnOk result ((is_closed ≡ false) × (known.old.count < 2 ^ 62)) }
    ensures row { IfOk result (λ row. row ≡ row_of known.old.count event) }
    ensures ok { OnOk result ((may_follow known.old event ≡ true) × (known.new ≡ after known.old event)) }
    ensures err { OnErr result (known.new ≡ known.old) }
    ensures why { IfErr result (ExplainsAppend is_closed known.old event) }
{
    if is_closed {
        return Err(AppendError::Closed);
    }
    let count = known.count();
    if count >= MOST_EVENTS {
        return Err(AppendError::Full);
    }
    let row = row_of(alloc, count, &event)?;
    known.push(event)?;
    Ok(row)
}

/// The record of an authority, and the store whose table 0 has a row for each of its events.
#[derive(Drop)]
pub struct Register<S: Alter> {
    pub store: S,
    pub record: Record,
    /// A write failed: the record is that of the store no longer, which has to be opened again.
    pub is_closed: bool,
}

impl<S: Alter> Register<S> {
    /// Adds an event. At `Ok` its row is in the store, and stays there over a crash. At an `Err` the
    /// store has the record as it was, or is shut; after `Store` the register is closed.
    pub fn append(&mut self, alloc: Global, event: Event) -> Result<(), AppendError>
        requires { IsOpenRegister self.old.is_closed (S.Store.view self.old.store) self.old.record }
        ensures kept { IsOpenRegister self.new.is_closed (S.Store.view self.new.store) self.new.record }
        ensures ok { OnOk result ((may_follow self.old.record event ≡ true) × (self.new.record ≡ after self.old.record event)
            × (self.new.is_closed ≡ false)) }
        ensures same { OnErr result (self.new.is_closed ≡ false → self.new.record ≡ self.old.record) }
        ensures why { IfErr result (ExplainsAppend self.old.is_closed self.old.record event) }
        ensures err { OnErr result (self.old.is_closed ≡ false → IsClean (S.Store.view self.new.store) → IsTrue (S.Store.view self.new.store).is_open
            → HasRecord ((S.Store.view self.new.store).trees 0) self.old.record) }
        ensures crash { self.old.is_closed ≡ false → IsClean (S.Store.view self.new.store) → IsTrue (S.Store.view self.old.store).is_open → (db : Trees)
            → S.Store.recovers self.new.store db → HasRecord (db 0) self.old.record ⊎ HasRecord (db 0) (after self.old.record event) }
    {
        let row = add_event(alloc, &mut self.record, self.is_closed, event)?;
        if let Err(error) = write_row(&mut self.store, &row) {
            self.is_closed = true;
            return Err(AppendError::Store(error));
        }
        Ok(())
    }

    /// The store, which may be closed.
    pub fn into_store(self) -> S
        ensures { result ≡ self.store }
    {
        let Register {
            store,
            record: _,
            is_closed: _,
        } = self;
        store
    }
}
