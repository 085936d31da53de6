//! Integers: between two bounds, both of which are allowed, or all of TOML that aren't negative.
ghost use Rattle.std.specs.Prelude.{◌≡◌, ◌≤◌, IfOk};
ghost use Rattle.std.specs.Option.{IfSome};
ghost use Rattle.toml_format.specs.ValueReading.{within};
ghost use Rattle.toml_format.specs.Values.{number_within};

use crate::from_value::FromValue;
use crate::reason::Reason;
use std::alloc::{AllocError, Global};
use std::marker::Model;
use toml::Value;

/// The number, where it is at least the lowest and at most the highest.
pub(crate) fn within(low: u64, high: u64, number: i64) -> Option<u64>
    ensures value { result ≡ within low high number }
    ensures highest { IfSome result (λ n. n ≤ high) }
{
    if number < 0 {
        return None;
    }
    let number = number as u64;
    if low <= number && number <= high {
        Some(number)
    } else {
        None
    }
}

/// A number from `LOW` to `HIGH`.
pub struct Number<const LOW: u64, const HIGH: u64> {
    value: u64,
}

impl<const LOW: u64, const HIGH: u64> Model for Number<LOW, HIGH> {
    ghost use Rattle.std.specs.Prelude.{ℕ};

    ghost Value = { ℕ };

    ghost view = { λ n. n.value };
}

impl<const LOW: u64, const HIGH: u64> Drop for Number<LOW, HIGH> {
    fn drop(self) {
        let Number { value: _ } = self;
    }
}

impl<const LOW: u64, const HIGH: u64> Number<LOW, HIGH> {
    /// The number, as a default.
    pub fn new(value: u64) -> Number<LOW, HIGH>
        ensures { result ≡ value }
    {
        Number { value }
    }

    /// The number.
    pub fn get(&self) -> u64
        ensures { result ≡ self.now }
    {
        self.value
    }
}

impl<const LOW: u64, const HIGH: u64> FromValue for Number<LOW, HIGH> {
    ghost format = { number_within LOW HIGH };

    #[tactic(auto, unfolding(crate::specs::ValueReading::read_number))]
    fn from_value(
        _alloc: Global,
        value: &Value,
    ) -> Result<Result<Number<LOW, HIGH>, Reason>, AllocError> {
        let Some(number) = value.as_integer() else {
            return Ok(Err(Reason::WrongType));
        };
        match within(LOW, HIGH, number) {
            Some(number) => Ok(Ok(Number { value: number })),
            None => Ok(Err(Reason::WrongValue)),
        }
    }
}

impl FromValue for u64 {
    ghost format = { number_within 0 9223372036854775807 };

    #[tactic(auto, unfolding(crate::specs::ValueReading::read_number))]
    fn from_value(_alloc: Global, value: &Value) -> Result<Result<u64, Reason>, AllocError> {
        match value.as_integer() {
            Some(number) => Ok(within(0, 9223372036854775807, number).ok_or(Reason::WrongValue)),
            None => Ok(Err(Reason::WrongType)),
        }
    }
}
