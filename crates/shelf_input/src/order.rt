//! An order.
ghost use Rattle.shelf_fault.specs.Faults.{Gets};
ghost use Rattle.shelf_input.specs.Orders.{order_in};

use shelf_fault::Fault;
use shelf_profile::Order;
use std::alloc::Global;
use toml_format::read_document;

/// The order that the text is, as a whole.
#[tactic(auto, unfolding(crate::specs::Orders::order_in))]
pub fn order_in(alloc: Global, text: &[u8]) -> Result<Order, Fault>
    ensures { Gets (λ o. o) (order_in text.now) result }
{
    match read_document::<Order>(alloc, text)? {
        Ok(order) => Ok(order),
        Err(reason) => Err(Fault::Order(reason)),
    }
}
