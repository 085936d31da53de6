//! What goes wrong with a register's file.

/// Why a register's file isn't opened, made or closed.
#[derive(Clone, Copy, Debug, PartialEq, Eq)]
pub enum FileError {
    /// Nothing has this name.
    NotFound,
    /// It is a database of something else.
    Foreign,
    /// Another run has it open.
    InUse,
    /// It is no database, or a damaged one.
    Damaged,
    /// The disk has no room.
    Full,
    /// It can't be opened, or a read or a write failed.
    Io,
    OutOfMemory,
}
