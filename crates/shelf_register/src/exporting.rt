//! `register export`: all events, a line of JSON each.
use crate::halt::{Halt, refused};
use register_record::{Event, MOST_EVENTS};
use register_rows::{ReadError, TABLE, read_event};
use register_words::event_line;
use sqlite_trees::error::StoreError;
use sqlite_trees::store::{Alter, Direction, Shape};
use sqlite_value::row::Row;
use std::alloc::Global;

/// What takes events, one after the other.
pub(crate) trait Events {
    fn take(&mut self, alloc: Global, event: &Event) -> Result<(), Halt>;
}

/// Why not all events were given.
#[derive(Drop)]
enum Stop {
    Store(StoreError),
    NoTable,
    NoEvent,
    Halted(Halt),
}

impl From<StoreError> for Stop {
    fn from(error: StoreError) -> Stop {
        Stop::Store(error)
    }
}

impl From<Halt> for Stop {
    fn from(halt: Halt) -> Stop {
        Stop::Halted(halt)
    }
}

/// Gives the event of a row.
fn give<E: Events>(alloc: Global, events: &mut E, before: u64, row: &Row) -> Result<(), Stop> {
    if before >= MOST_EVENTS {
        return Err(Stop::NoEvent);
    }
    match read_event(alloc, before, row) {
        Ok(event) => {
            events.take(alloc, &event)?;
            Ok(())
        }
        Err(ReadError::NoEvent) => Err(Stop::NoEvent),
        Err(ReadError::OutOfMemory) => Err(Stop::Halted(Halt::OutOfMemory)),
    }
}

fn give_rows<S: Alter, E: Events>(
    alloc: Global,
    store: &mut S,
    count: u64,
    events: &mut E,
) -> Result<(), Stop> {
    let Shape::Table = store.shape(TABLE) else {
        return Err(Stop::NoTable);
    };
    let mut row = Row::new(alloc);
    store.seek(0, TABLE, &row, Direction::Forward)?;
    'rows: for before in 0..count {
        if !store.next(0, &mut row)? {
            return Ok(());
        }
        give(alloc, events, before, &row)?;
    }
    Ok(())
}

fn halt_of(alloc: Global, stop: Stop) -> Halt {
    match stop {
        Stop::Store(StoreError::OutOfMemory) => Halt::OutOfMemory,
        Stop::Store(_) => refused(alloc, "register: it can't be read\n"),
        Stop::NoTable => refused(alloc, "register: it has no table\n"),
        Stop::NoEvent => refused(alloc, "register: a row is no event\n"),
        Stop::Halted(halt) => halt,
    }
}

/// Gives the events of a store, which are so many.
pub(crate) fn give_all<S: Alter, E: Events>(
    alloc: Global,
    store: &mut S,
    count: u64,
    events: &mut E,
) -> Result<(), Halt> {
    match give_rows(alloc, store, count, events) {
        Ok(()) => Ok(()),
        Err(stop) => Err(halt_of(alloc, stop)),
    }
}

/// The lines of events.
#[derive(Drop)]
struct Lines {
    text: Vec<u8>,
}

impl Events for Lines {
    fn take(&mut self, alloc: Global, event: &Event) -> Result<(), Halt> {
        let line = event_line(alloc, event)?;
        self.text.extend_from_slice(line.as_bytes())?;
        self.text.push(b'\n')?;
        Ok(())
    }
}

/// The lines of all events of a store.
pub(crate) fn exported<S: Alter>(
    alloc: Global,
    store: &mut S,
    count: u64,
) -> Result<Vec<u8>, Halt> {
    let mut lines = Lines {
        text: Vec::new(alloc),
    };
    give_all(alloc, store, count, &mut lines)?;
    Ok(lines.text)
}
