//! The files, the random source and the clock of the system.
ghost use Rattle.std.specs.Prelude.{◌≡◌, IsTrue, IfOk};
ghost use Rattle.sqlite_trees.specs.View.{IsClean};

use crate::error::FileError;
use crate::keeper::Keeper;
use sqlite::{Connection, Error, ErrorCode, File, FileStore};
use sqlite_schema::schema::Schema;
use sqlite_trees::error::StoreError;
use sqlite_trees::store::{Alter, Store};
use std::alloc::Global;
use std::fs;
use std::io::ErrorKind;
use std::random::RandomSource;
use std::time::Clock;

/// The table of events, a row each.
const TABLE: &str =
    "CREATE TABLE event (id INTEGER PRIMARY KEY, kind INTEGER NOT NULL, detail INTEGER, serial BLOB, number INTEGER, time INTEGER, until INTEGER, body BLOB) STRICT";

/// Keeps each register in a file of its name.
#[derive(Clone, Copy)]
pub struct HostKeeper<'a> {
    rt: &'a HostRuntime,
}

impl<'a> HostKeeper<'a> {
    /// The files of this runtime.
    pub fn new(rt: &'a HostRuntime) -> HostKeeper<'a>
        ensures { result.rt ≡ rt.entry }
    {
        HostKeeper { rt }
    }
}

fn file_error(error: Error) -> FileError {
    match error {
        Error::SqliteFailure(ErrorCode::OutOfMemory) => FileError::OutOfMemory,
        Error::SqliteFailure(ErrorCode::DatabaseBusy) => FileError::InUse,
        Error::SqliteFailure(ErrorCode::DiskFull) => FileError::Full,
        Error::SqliteFailure(ErrorCode::NotADatabase | ErrorCode::DatabaseCorrupt) => {
            FileError::Damaged
        }
        _ => FileError::Io,
    }
}

fn store_error(error: StoreError) -> FileError {
    match error {
        StoreError::OutOfMemory => FileError::OutOfMemory,
        StoreError::Full => FileError::Full,
        StoreError::Corrupt => FileError::Damaged,
        _ => FileError::Io,
    }
}

/// Whether something has this name.
fn is_there(rt: &HostRuntime, name: &str) -> Result<bool, FileError> {
    match fs::metadata(rt, name) {
        Ok(_) => Ok(true),
        Err(error) if error.kind() == ErrorKind::NotFound => Ok(false),
        Err(error) if error.kind() == ErrorKind::OutOfMemory => Err(FileError::OutOfMemory),
        Err(_) => Err(FileError::Io),
    }
}

fn connected(rt: &HostRuntime, name: &str) -> Result<Connection<FileStore<File>>, FileError> {
    match Connection::open(rt, name) {
        Ok(connection) => Ok(connection),
        Err(error) => Err(file_error(error)),
    }
}

/// How many columns the table of events has.
const COLUMNS: usize = 8;

/// Whether the database has the table of events, and nothing else.
fn is_register(schema: &Schema) -> bool {
    match schema.tables.as_slice() {
        [table] => {
            table.is_named(b"event")
                && table.columns.len() == COLUMNS
                && schema.indexes.is_empty()
                && schema.views.is_empty()
        }
        _ => false,
    }
}

/// The store, where no failure has shut it.
fn opened<S: Alter + Drop>(store: S) -> Result<S, FileError>
    ensures same { IfOk result (λ opened. opened ≡ store) }
    ensures opened { IfOk result (λ opened. IsClean (S.Store.view opened) → IsTrue (S.Store.view opened).is_open) }
{
    if store.is_broken() {
        Err(FileError::Io)
    } else {
        Ok(store)
    }
}

/// The store of a register's database.
fn store_of<S: Alter + Drop>(connection: Connection<S>) -> Result<S, FileError>
    ensures opened { IfOk result (λ store. IsClean (S.Store.view store) → IsTrue (S.Store.view store).is_open) }
{
    if is_register(connection.schema()) {
        opened(connection.into_store())
    } else {
        Err(FileError::Foreign)
    }
}

/// Makes the table, where the database has none.
fn make_table(connection: &mut Connection<FileStore<File>>) -> Result<(), FileError> {
    if !connection.schema().tables.is_empty() {
        return Ok(());
    }
    match connection.execute(TABLE, &[]) {
        Ok(_) => Ok(()),
        Err(error) => Err(file_error(error)),
    }
}

/// The name of the log beside the file, where no link leads elsewhere.
fn log_name(rt: &HostRuntime, alloc: Global, name: &str) -> Option<String> {
    match fs::canonicalize(rt, name) {
        Ok(real) => format!(in alloc; "{}-wal", real.as_str()).ok(),
        Err(_) => None,
    }
}

/// Copies the log into the file, and removes the log while the file is still locked.
fn close_store(
    rt: &HostRuntime,
    alloc: Global,
    name: &str,
    store: FileStore<File>,
) -> Result<(), FileError> {
    let mut store = store;
    let copied = store.checkpoint();
    let files = store.close();
    if let Err(error) = copied {
        drop(files);
        return Err(store_error(error));
    }
    if let Some(log) = log_name(rt, alloc, name) {
        let _removed = fs::remove_file(rt, log.as_str());
    }
    drop(files);
    Ok(())
}

impl<'a> Keeper for HostKeeper<'a> {
    type Kept = FileStore<File>;

    fn open(&mut self, _alloc: Global, name: &str) -> Result<FileStore<File>, FileError> {
        if !is_there(self.rt, name)? {
            return Err(FileError::NotFound);
        }
        let connection = connected(self.rt, name)?;
        store_of(connection)
    }

    fn create(&mut self, _alloc: Global, name: &str) -> Result<FileStore<File>, FileError> {
        let mut connection = connected(self.rt, name)?;
        make_table(&mut connection)?;
        store_of(connection)
    }

    fn close(
        &mut self,
        alloc: Global,
        name: &str,
        store: FileStore<File>,
    ) -> Result<(), FileError> {
        close_store(self.rt, alloc, name, store)
    }

    fn random(&mut self) -> Option<[u8; 16]> {
        let mut octets = [0; 16];
        match self.rt.fill_bytes(&mut octets) {
            Ok(()) => Some(octets),
            Err(_) => None,
        }
    }

    fn now(&mut self) -> Option<i64> {
        match self.rt.since_1970() {
            Ok(time) => i64::try_from(time.as_secs()).ok(),
            Err(_) => None,
        }
    }
}
