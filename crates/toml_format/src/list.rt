//! Arrays: each of their values is read by itself, and the order stays.
ghost use Rattle.std.specs.Prelude.{◌≡◌, [], ◌∷◌, IfOk};
ghost use Rattle.toml.specs.View.{items_view};
ghost use Rattle.toml_format.specs.ValueReading.{read_items};
ghost use Rattle.toml_format.specs.Values.{array_of};
ghost use Rattle.toml_format.specs.Outcome.{mapped};
ghost use Rattle.toml_format.specs.Lists.{with_more};

use crate::from_value::FromValue;
use crate::reason::Reason;
use std::alloc::{AllocError, Global};
use std::marker::Model;
use toml::Value;

/// The values of an array, in order.
#[derive(Drop)]
pub struct List<T> {
    items: Vec<T>,
}

impl<T> Model for List<T> {
    ghost use Rattle.std.specs.Prelude.{List as Items};
    ghost use Rattle.std.specs.Coded.{coded_list};

    ghost Value = { Items T };

    ghost coded = { coded_list T.code };

    ghost view = { λ l. l.items.items };
}

impl<T> List<T> {
    /// No value.
    pub fn new(alloc: Global) -> List<T>
        ensures { result ≡ [] }
    {
        List {
            items: Vec::new(alloc),
        }
    }

    /// These values.
    pub fn from_vec(items: Vec<T>) -> List<T>
        ensures { result ≡ items.items }
    {
        List { items }
    }

    /// The values.
    pub fn as_slice(&self) -> &[T]
        ensures { result.now ≡ self.now }
    {
        self.items.as_slice()
    }

    /// The values, without a copy.
    pub fn into_vec(self) -> Vec<T>
        ensures { result.items ≡ self }
    {
        let List { items } = self;
        items
    }
}

/// The values with one more at the end, or the least reason.
#[tactic(auto, unfolding(crate::specs::Outcome::both))]
fn pushed<T: Drop>(
    list: Result<List<T>, Reason>,
    found: Result<T, Reason>,
) -> Result<Result<List<T>, Reason>, AllocError>
    ensures { IfOk result (λ new. new ≡ with_more list (mapped found (λ x. x ∷ []))) }
{
    match list {
        Ok(List { mut items }) => match found {
            Ok(value) => {
                items.push(value)?;
                Ok(Ok(List { items }))
            }
            Err(reason) => Ok(Err(reason)),
        },
        Err(reason) => match found {
            Ok(_) => Ok(Err(reason)),
            Err(other) => Ok(Err(reason.least(other))),
        },
    }
}

/// Each value of an array by itself.
#[tactic(auto, using(crate::proofs::Items::reading))]
fn read_items<T: FromValue>(
    alloc: Global,
    values: &[Value],
) -> Result<Result<List<T>, Reason>, AllocError>
    ensures { IfOk result (λ list. list ≡ read_items T.format.read (items_view values.now)) }
{
    let mut list = Ok(List::new(alloc));
    for value in values {
        list = pushed(list, T::from_value(alloc, value)?)?;
    }
    Ok(list)
}

impl<T: FromValue> FromValue for List<T> {
    ghost format = { array_of T.format };

    #[tactic(auto, unfolding(crate::specs::ValueReading::read_array))]
    fn from_value(alloc: Global, value: &Value) -> Result<Result<List<T>, Reason>, AllocError> {
        match value.as_array() {
            Some(values) => read_items(alloc, values),
            None => Ok(Err(Reason::WrongType)),
        }
    }
}
