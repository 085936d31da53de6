//! The entries of a table while it is read: a key that nobody asks for is unknown.
ghost use Rattle.std.specs.Prelude.{◌≡◌, IfOk};
ghost use Rattle.std.specs.List.{position};
ghost use Rattle.std.specs.Option.{option_map};
ghost use Rattle.toml.specs.Data.{get_member};
ghost use Rattle.toml.specs.View.{view, table_view};
ghost use Rattle.toml_format.specs.ReaderView.{entries_view, is_at};
ghost use Rattle.toml_format.specs.TableReading.{without, no_more};

use crate::reason::Reason;
use std::alloc::{AllocError, Global};
use toml::{Table, Value};

/// What is left of a table that is read key by key: keys, and the value at each.
#[derive(Drop)]
pub struct Entries<'a> {
    entries: Vec<(&'a String, &'a Value)>,
}

/// The place of the key's entry.
fn place_of(entries: &[(&String, &Value)], key: &str) -> Option<usize>
    ensures { result ≡ position (is_at key.now) entries.now }
{
    entries
        .iter()
        .position(|entry| key.cmp(entry.0.as_str()).is_eq())
}

impl<'a> Entries<'a> {
    /// All of a table.
    pub fn of(alloc: Global, table: &'a Table) -> Result<Entries<'a>, AllocError>
        ensures { IfOk result (λ all. entries_view all ≡ table_view table.now) }
    {
        let mut entries = Vec::with_capacity(alloc, table.len())?;
        for entry in table.iter() {
            entries.push(entry)?;
        }
        Ok(Entries { entries })
    }

    /// Takes out the value at the key, if there is one. A profile asks for few keys, so each is
    /// searched for from the front.
    pub(crate) fn take(&mut self, key: &str) -> Option<&'a Value>
        ensures value { option_map (λ v. view v.now) result ≡ get_member key.now (entries_view self.old) }
        ensures left { entries_view self.new ≡ without key.now (entries_view self.old) }
    {
        let index = place_of(self.entries.as_slice(), key)?;
        let (_, value) = self.entries.remove(index);
        Some(value)
    }

    /// Fails where a key is left.
    pub(crate) fn no_more(&self) -> Result<(), Reason>
        ensures { result ≡ no_more (entries_view self.now) }
    {
        if self.entries.is_empty() {
            Ok(())
        } else {
            Err(Reason::UnknownKey)
        }
    }
}
