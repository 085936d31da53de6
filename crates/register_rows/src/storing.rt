//! One row more in the table of a store.
ghost use Rattle.std.specs.Prelude.{◌≡◌, ◌⊎◌, ◌∷◌, ◌++◌, ◌≤◌, [], List, length, IsTrue, OnOk, OnErr};
ghost use Rattle.sqlite_trees.specs.Tree.{Trees, rowid};
ghost use Rattle.sqlite_trees.specs.View.{doubt, is_int, IsClean};
ghost use Rattle.sqlite_trees.specs.declared.store.Shape.TheVariants.{Table};
ghost use Rattle.register_record.specs.declared.event.Event.{Event};
ghost use Rattle.register_rows.specs.Kept.{Keeps};
ghost use Rattle.register_rows.specs.Rows.{row_of, rows_of};

use sqlite_trees::error::StoreError;
use sqlite_trees::store::Alter;
use sqlite_value::row::Row;

/// The number of the table.
pub const TABLE: u32 = 0;

/// Writes a row and commits it. At `Ok` it comes after the rows before, and stays there over a crash.
/// At an `Err` the rows are as they were, or the store is shut.
pub fn write_row<S: Alter>(store: &mut S, row: &Row) -> Result<(), StoreError>
    requires keyed { IsTrue (is_int (rowid row.now)) }
    requires table { IsClean (S.Store.view store.old) → IsTrue (S.Store.view store.old).is_open → (S.Store.view store.old).shape 0 ≡ Table }
    ensures ok { OnOk result ((es : List Event) (e : Event) → row.now ≡ row_of (length es) e → Keeps (S.Store.view store.old) es
        → Keeps (S.Store.view store.new) (es ++ e ∷ [])) }
    ensures err { OnErr result ((es : List Event) → Keeps (S.Store.view store.old) es → Keeps (S.Store.view store.new) es) }
    ensures clean { doubt (S.Store.view store.old).is_clean ≤ doubt (S.Store.view store.new).is_clean }
    ensures crash { IsClean (S.Store.view store.new) → (es : List Event) (e : Event) → row.now ≡ row_of (length es) e → Keeps (S.Store.view store.old) es
        → (db : Trees) → S.Store.recovers store.new db → S.Store.recovers store.old db ⊎ (db 0 ≡ rows_of (es ++ e ∷ [])) }
{
    if store.is_broken() {
        return Err(StoreError::Broken);
    }
    if let Err(error) = store.put(TABLE, row) {
        store.rollback();
        return Err(error);
    }
    store.commit()?;
    Ok(())
}
