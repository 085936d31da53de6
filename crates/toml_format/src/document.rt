//! A whole document: UTF-8 in TOML, with the keys of one profile and no other.
ghost use Rattle.std.specs.Prelude.{◌≡◌, IfOk};
ghost use Rattle.toml_format.specs.Document.{document_of, document_reasons};
ghost use Rattle.toml_format.specs.Outcome.{IsLeast};
ghost use Rattle.toml_format.specs.Tables.{fields};

use crate::entries::Entries;
use crate::reason::Reason;
use crate::table_reader::{FromTable, read_fields};
use std::alloc::{AllocError, Global};

/// Reads a document whose table has the keys of `T` and no other. The reason against it is the
/// least of all those that hold in some part of it.
pub fn read_document<T: FromTable>(
    alloc: Global,
    input: &[u8],
) -> Result<Result<T, Reason>, AllocError>
    ensures value { IfOk result (λ found. found ≡ document_of (fields T.keys T.of_keys).read input.now) }
    ensures least { IfOk result (λ found. IsLeast found (document_reasons (fields T.keys T.of_keys) input.now)) }
{
    match toml::table_from_slice(alloc, input) {
        Ok(table) => {
            let entries = Entries::of(alloc, &table)?;
            let found = read_fields::<T>(alloc, entries)?.closed();
            Ok(found)
        }
        Err(error) if error.is_memory() => Err(AllocError),
        Err(_) => Ok(Err(Reason::NotToml)),
    }
}
