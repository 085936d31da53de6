//! The order of a revocation list with the entries of a file.
ghost use Rattle.std.specs.Prelude.{◌≡◌};
ghost use Rattle.std.specs.Option.{option_map};
ghost use Rattle.shelf_fault.specs.Faults.{Gets};
ghost use Rattle.revoked_lines.specs.Orders.{list_with, with_revoked};

use crate::text::with_text;
use shelf_fault::Fault;
use shelf_profile::{ListOrder, Order};
use std::alloc::Global;
use toml_format::{List, ListContent};

/// The order with the entries of a text after its own.
#[tactic(auto, unfolding(crate::specs::Orders::list_with))]
fn list_with(alloc: Global, order: ListOrder, text: &[u8]) -> Result<ListOrder, Fault>
    ensures { Gets (λ o. o) (list_with order text.now) result }
{
    let ListOrder {
        signing,
        content,
        base,
    } = order;
    let entries = with_text(alloc, base.is_some(), content.revoked.into_vec(), text)?;
    Ok(ListOrder {
        signing,
        content: ListContent {
            revoked: List::from_vec(entries),
            ..content
        },
        base,
    })
}

/// The order with the entries of a file, where one is given: lines `SERIAL TIME [REASON [INVALID]]`, which LF or CRLF end, and which
/// have the texts that the keys of an entry have in that order; `-` is no reason. Empty lines, and those that begin with `#`, say nothing.
///
/// Refused are a file that isn't UTF-8, the first line that can't be read, and a file beside another order than that of a list. The
/// time is about that of reading the text once.
#[tactic(auto, unfolding(crate::specs::Orders::with_revoked))]
pub fn with_revoked(alloc: Global, order: Order, revoked: Option<&[u8]>) -> Result<Order, Fault>
    ensures { Gets (λ o. o) (with_revoked order (option_map (λ text. text.now) revoked.entry)) result }
{
    let Some(text) = revoked else {
        return Ok(order);
    };
    match order {
        Order::List(order) => {
            let order = list_with(alloc, order, text)?;
            Ok(Order::List(order))
        }
        _ => Err(Fault::RevokedUnused),
    }
}
