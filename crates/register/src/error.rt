//! What goes wrong.
use register_record::PushError;
use register_rows::RowError;
use sqlite_trees::error::StoreError;

/// Why an event isn't added.
#[derive(Clone, Copy, Debug)]
pub enum AppendError {
    /// It may not follow.
    NotNext,
    /// The number of a list is 2^63 or more.
    NumberTooLarge,
    /// There is no room for another event.
    Full,
    /// A write failed before.
    Closed,
    Store(StoreError),
    OutOfMemory,
}

/// Why a store isn't opened. Rows are counted from 0.
#[derive(Clone, Copy, Debug)]
pub enum OpenError {
    /// It has no table.
    NoTable,
    /// This row is that of no event.
    NoEvent(u64),
    /// This row's event may not follow those before it.
    NotNext(u64),
    /// It has too many rows.
    Full,
    Store(StoreError),
    OutOfMemory,
}

/// Why a register isn't made.
#[derive(Clone, Copy, Debug)]
pub enum CreateError {
    /// It isn't opened.
    Unopened(OpenError),
    /// It has events already.
    NotEmpty,
    /// Its first event isn't added.
    Unrecorded(AppendError),
}

impl From<RowError> for AppendError {
    ghost use Rattle.register.specs.Errors.{of_row};
    ghost use Rattle.std.specs.Prelude.{◌≡◌};

    ghost from_gives = { λ e r. r ≡ of_row e };

    fn from(error: RowError) -> AppendError {
        match error {
            RowError::NumberTooLarge => AppendError::NumberTooLarge,
            RowError::OutOfMemory => AppendError::OutOfMemory,
        }
    }
}

impl From<PushError> for AppendError {
    ghost use Rattle.register.specs.Errors.{of_push};
    ghost use Rattle.std.specs.Prelude.{◌≡◌};

    ghost from_gives = { λ e r. r ≡ of_push e };

    fn from(error: PushError) -> AppendError {
        match error {
            PushError::NotNext => AppendError::NotNext,
            PushError::Full => AppendError::Full,
            PushError::OutOfMemory => AppendError::OutOfMemory,
        }
    }
}

impl From<StoreError> for OpenError {
    ghost use Rattle.register.specs.declared.error.OpenError.TheVariants.{Store as InStore};
    ghost use Rattle.std.specs.Prelude.{◌≡◌};

    ghost from_gives = { λ e r. r ≡ InStore e };

    fn from(error: StoreError) -> OpenError {
        OpenError::Store(error)
    }
}
