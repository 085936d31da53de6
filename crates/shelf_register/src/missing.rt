//! The lines that an order lacks.
ghost use Rattle.shelf_register.specs.Issued.{IsPlain};

use std::alloc::{AllocError, Global};
use toml::Table;

/// The order without a byte order mark.
pub(crate) fn without_mark(order: &[u8]) -> &[u8]
    ensures { IsPlain order.now result.now }
{
    match order {
        [0xef, 0xbb, 0xbf, rest @ ..] => rest,
        _ => order,
    }
}

/// The keys of the order; none where it is no TOML.
fn table_of(alloc: Global, order: &[u8]) -> Result<Option<Table>, AllocError> {
    match toml::table_from_slice(alloc, order) {
        Ok(table) => Ok(Some(table)),
        Err(error) if error.is_memory() => Err(AllocError),
        Err(_) => Ok(None),
    }
}

fn has_key(table: &Table, key: &str) -> bool {
    table.get(key).is_some()
}

/// What an order is for.
#[derive(Clone, Copy, Debug)]
pub(crate) enum Kind {
    List,
    Request,
    /// A certificate, an attribute certificate, or no order.
    Other,
}

fn kind_of(table: &Table) -> Kind {
    match table.get("kind") {
        Some(value) => match value.as_str() {
            Some("list") => Kind::List,
            Some("request") => Kind::Request,
            _ => Kind::Other,
        },
        None => Kind::Other,
    }
}

/// What an order lacks.
#[derive(Clone, Copy, Debug)]
pub(crate) struct Missing {
    pub(crate) kind: Kind,
    pub(crate) serial: bool,
    pub(crate) start: bool,
}

/// What an order lacks; nothing where it is no TOML.
pub(crate) fn missing_keys(alloc: Global, order: &[u8]) -> Result<Missing, AllocError> {
    let Some(table) = table_of(alloc, order)? else {
        return Ok(Missing {
            kind: Kind::Other,
            serial: false,
            start: false,
        });
    };
    Ok(Missing {
        kind: kind_of(&table),
        serial: !has_key(&table, "serial"),
        start: !has_key(&table, "start"),
    })
}
