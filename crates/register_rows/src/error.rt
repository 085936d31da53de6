//! What goes wrong.
use asn1_core::OutOfMemory;
use std::alloc::AllocError;

/// Why an event has no row.
#[derive(Clone, Copy, Debug)]
pub enum RowError {
    /// The number of a list is 2^63 or more.
    NumberTooLarge,
    OutOfMemory,
}

/// Why a row isn't read.
#[derive(Clone, Copy, Debug)]
pub enum ReadError {
    /// It is the row of no event.
    NoEvent,
    OutOfMemory,
}

impl From<OutOfMemory> for RowError {
    ghost use Rattle.std.specs.Prelude.{◌≡◌};
    ghost use Rattle.register_rows.specs.declared.error.RowError.TheVariants.{OutOfMemory as NoMemory};

    ghost from_gives = { λ _ r. r ≡ NoMemory };

    fn from(_: OutOfMemory) -> RowError {
        RowError::OutOfMemory
    }
}

impl From<AllocError> for RowError {
    ghost use Rattle.std.specs.Prelude.{◌≡◌};
    ghost use Rattle.register_rows.specs.declared.error.RowError.TheVariants.{OutOfMemory as NoMemory};

    ghost from_gives = { λ _ r. r ≡ NoMemory };

    fn from(_: AllocError) -> RowError {
        RowError::OutOfMemory
    }
}

impl From<OutOfMemory> for ReadError {
    ghost use Rattle.std.specs.Prelude.{◌≡◌};
    ghost use Rattle.register_rows.specs.declared.error.ReadError.TheVariants.{OutOfMemory as NoMemory};

    ghost from_gives = { λ _ r. r ≡ NoMemory };

    fn from(_: OutOfMemory) -> ReadError {
        ReadError::OutOfMemory
    }
}

impl From<AllocError> for ReadError {
    ghost use Rattle.std.specs.Prelude.{◌≡◌};
    ghost use Rattle.register_rows.specs.declared.error.ReadError.TheVariants.{OutOfMemory as NoMemory};

    ghost from_gives = { λ _ r. r ≡ NoMemory };

    fn from(_: AllocError) -> ReadError {
        ReadError::OutOfMemory
    }
}
