//! Where registers are kept.
ghost use Rattle.std.specs.Prelude.{IsTrue, IfOk};
ghost use Rattle.sqlite_trees.specs.View.{IsClean};

use crate::error::FileError;
use sqlite_trees::store::Alter;
use std::alloc::Global;

/// Keeps registers, each under a name, and has a random source and a clock.
pub trait Keeper {
    type Kept: Alter + Drop;

    /// Opens the register of this name. Which rows it has is not in the contract: no clause ties a file
    /// of the system to its name.
    fn open(&mut self, alloc: Global, name: &str) -> Result<Self::Kept, FileError>
        ensures opened { IfOk result (λ store. IsClean (Self.Kept.Store.view store) → IsTrue (Self.Kept.Store.view store).is_open) };

    /// The same, and a name that nothing has gets a register without rows.
    fn create(&mut self, alloc: Global, name: &str) -> Result<Self::Kept, FileError>
        ensures opened { IfOk result (λ store. IsClean (Self.Kept.Store.view store) → IsTrue (Self.Kept.Store.view store).is_open) };

    /// Closes the register of this name.
    fn close(&mut self, alloc: Global, name: &str, store: Self::Kept) -> Result<(), FileError>;

    /// Octets of a random source.
    fn random(&mut self) -> Option<[u8; 16]>;

    /// Seconds since 1970.
    fn now(&mut self) -> Option<i64>;
}
