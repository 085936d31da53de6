//! Reading a table key by key.
ghost use Rattle.std.specs.Prelude.{◌≡◌, IfOk, Result};
ghost use Rattle.toml.specs.View.{view};
ghost use Rattle.toml_format.specs.ReaderView.{entries_view, seen};
ghost use Rattle.toml_format.specs.TableReading.{read_none, then_read, read_required, read_optional, read_defaulted, closed};
ghost use Rattle.toml_format.specs.Tables.{TableFormat, chosen, listed, fields, table_of};
ghost use Rattle.toml_format.specs.declared.reason.Reason.{Reason};

use crate::entries::Entries;
use crate::from_value::{FromValue, both, first_of};
use crate::list::List;
use crate::reason::Reason;
use std::alloc::{AllocError, Global};
use toml::Value;

/// What was read of a table, or the least reason against it, and what is left of the table.
#[derive(Drop)]
pub struct TableReader<'a, T> {
    /// The entries of the table that nobody asked for yet.
    pub left: Entries<'a>,
    /// What was read.
    pub read: Result<T, Reason>,
}

/// A type that is read from some keys of a table.
pub trait FromTable: Sized + Drop {
    /// The values at the keys, in order.
    type Keys: Drop;

    ghost keys: { TableFormat Self.Keys };

    ghost of_keys: { Self.Keys → Result Self Reason };

    /// Reads the keys.
    fn keys<'a>(
        alloc: Global,
        entries: Entries<'a>,
    ) -> Result<TableReader<'a, Self::Keys>, AllocError>
        ensures { IfOk result (λ reader. seen reader ≡ keys.read (entries_view entries.entry)) };

    /// What the values at the keys are together, or the reason against that.
    fn of_keys(values: Self::Keys) -> Result<Self, Reason>
        ensures { result ≡ of_keys values };
}

/// Reads the keys of `T`.
#[tactic(auto, unfolding(crate::specs::TableReading::read_checked, crate::specs::TableReading::read_fields, crate::specs::ReaderView::seen))]
pub fn read_fields<'a, T: FromTable>(
    alloc: Global,
    entries: Entries<'a>,
) -> Result<TableReader<'a, T>, AllocError>
    ensures { IfOk result (λ reader. seen reader ≡ (fields T.keys T.of_keys).read (entries_view entries.entry)) }
{
    let TableReader { left, read } = T::keys(alloc, entries)?;
    match read {
        Ok(keys) => Ok(TableReader {
            left,
            read: T::of_keys(keys),
        }),
        Err(reason) => Ok(TableReader {
            left,
            read: Err(reason),
        }),
    }
}

/// A type that is read from keys of a table of which some depend on a choice.
pub trait FromChoice: Sized + Drop {
    /// What is chosen.
    type Choice: FromTable;

    /// What the keys of all choices are, none of which has to be there.
    type All: FromTable;

    ghost own: { Self.Choice → TableFormat Self };

    /// Reads the keys that go with a choice.
    fn own<'a>(
        alloc: Global,
        choice: Self::Choice,
        entries: Entries<'a>,
    ) -> Result<TableReader<'a, Self>, AllocError>
        ensures { IfOk result (λ reader. seen reader ≡ (own choice).read (entries_view entries.entry)) };
}

/// Reads the choice, and the keys that go with it. Where nothing was chosen, the keys of all choices are known.
#[tactic(auto, unfolding(crate::specs::TableReading::read_chosen, crate::specs::ReaderView::seen))]
pub fn read_chosen<'a, T: FromChoice>(
    alloc: Global,
    entries: Entries<'a>,
) -> Result<TableReader<'a, T>, AllocError>
    ensures { IfOk result (λ reader. seen reader ≡ (chosen (fields T.Choice.keys T.Choice.of_keys) T.own (fields T.All.keys T.All.of_keys)).read (entries_view entries.entry)) }
{
    let TableReader { left, read } = read_fields::<T::Choice>(alloc, entries)?;
    match read {
        Ok(choice) => T::own(alloc, choice, left),
        Err(reason) => {
            let TableReader { left, read } = read_fields::<T::All>(alloc, left)?;
            Ok(TableReader {
                left,
                read: first_of(both(Err(reason), read)),
            })
        }
    }
}

impl<'a> TableReader<'a, ()> {
    /// Nothing was read yet.
    #[tactic(auto, unfolding(crate::specs::TableReading::read_none, crate::specs::ReaderView::seen))]
    pub fn new(entries: Entries<'a>) -> TableReader<'a, ()>
        ensures { seen result ≡ read_none (entries_view entries.entry) }
    {
        TableReader {
            left: entries,
            read: Ok(()),
        }
    }
}

impl<'a, T: Drop> TableReader<'a, T> {
    /// Reads the value at a key that must be there.
    #[tactic(auto, unfolding(crate::specs::TableReading::read_required, crate::specs::TableReading::then_read, crate::specs::ReaderView::seen))]
    pub fn required<B: FromValue>(
        self,
        alloc: Global,
        key: &str,
    ) -> Result<TableReader<'a, (T, B)>, AllocError>
        ensures { IfOk result (λ reader. seen reader ≡ then_read (seen self.entry) (read_required key.now B.format.read)) }
    {
        let TableReader { mut left, read } = self;
        let found = match left.take(key) {
            Some(value) => B::from_value(alloc, value)?,
            None => Err(Reason::MissingKey),
        };
        Ok(TableReader {
            left,
            read: both(read, found),
        })
    }

    /// Reads the value at a key that may be there.
    #[tactic(auto, unfolding(crate::specs::TableReading::read_optional, crate::specs::TableReading::then_read, crate::specs::ReaderView::seen))]
    pub fn optional<B: FromValue>(
        self,
        alloc: Global,
        key: &str,
    ) -> Result<TableReader<'a, (T, Option<B>)>, AllocError>
        ensures { IfOk result (λ reader. seen reader ≡ then_read (seen self.entry) (read_optional key.now B.format.read)) }
    {
        let TableReader { mut left, read } = self;
        let found = match left.take(key) {
            Some(value) => B::from_value(alloc, value)?.map(Some),
            None => Ok(None),
        };
        Ok(TableReader {
            left,
            read: both(read, found),
        })
    }

    /// Reads the value at a key; where there is none, the default holds.
    #[tactic(auto, unfolding(crate::specs::TableReading::read_defaulted, crate::specs::TableReading::then_read, crate::specs::ReaderView::seen))]
    pub fn defaulted<B: FromValue>(
        self,
        alloc: Global,
        key: &str,
        default: B,
    ) -> Result<TableReader<'a, (T, B)>, AllocError>
        ensures { IfOk result (λ reader. seen reader ≡ then_read (seen self.entry) (read_defaulted key.now B.format.read default)) }
    {
        let TableReader { mut left, read } = self;
        let found = match left.take(key) {
            Some(value) => B::from_value(alloc, value)?,
            None => Ok(default),
        };
        Ok(TableReader {
            left,
            read: both(read, found),
        })
    }

    /// Reads the array at a key; where it isn't there, it is empty.
    pub fn listed<B: FromValue>(
        self,
        alloc: Global,
        key: &str,
    ) -> Result<TableReader<'a, (T, List<B>)>, AllocError>
        ensures { IfOk result (λ reader. seen reader ≡ then_read (seen self.entry) (listed key.now B.format).read) }
    {
        let reader = self.defaulted(alloc, key, List::new(alloc))?;
        Ok(reader)
    }

    /// Reads further keys.
    #[tactic(auto, unfolding(crate::specs::TableReading::then_read, crate::specs::ReaderView::seen))]
    pub fn and<B: FromTable>(self, alloc: Global) -> Result<TableReader<'a, (T, B)>, AllocError>
        ensures { IfOk result (λ reader. seen reader ≡ then_read (seen self.entry) (fields B.keys B.of_keys).read) }
    {
        let TableReader { left, read } = self;
        let TableReader { left, read: found } = read_fields::<B>(alloc, left)?;
        Ok(TableReader {
            left,
            read: both(read, found),
        })
    }

    /// What was read, where no key is left.
    #[tactic(auto, unfolding(crate::specs::TableReading::closed, crate::specs::ReaderView::seen))]
    pub fn closed(self) -> Result<T, Reason>
        ensures { result ≡ closed (seen self.entry) }
    {
        let TableReader { left, read } = self;
        first_of(both(read, left.no_more()))
    }
}

/// Reads a table with the keys of `T` and no other.
#[tactic(auto, unfolding(crate::specs::TableReading::read_table))]
pub fn read_table<T: FromTable>(
    alloc: Global,
    value: &Value,
) -> Result<Result<T, Reason>, AllocError>
    ensures { IfOk result (λ found. found ≡ (table_of (fields T.keys T.of_keys)).read (view value.now)) }
{
    match value.as_table() {
        Some(table) => {
            let entries = Entries::of(alloc, table)?;
            Ok(read_fields::<T>(alloc, entries)?.closed())
        }
        None => Ok(Err(Reason::WrongType)),
    }
}
