//! What is read of a value of a document.
ghost use Rattle.std.specs.Prelude.{◌≡◌, ℕ, List, Option, IfOk, Result};
ghost use Rattle.toml.specs.View.{view};
ghost use Rattle.toml_format.specs.Outcome.{both, mapped};
ghost use Rattle.toml_format.specs.Values.{ValueFormat, boolean, text_as};
ghost use Rattle.toml_format.specs.declared.reason.Reason.{Reason};

use crate::reason::Reason;
use std::alloc::{AllocError, Global};
use toml::Value;

/// A type that is read from the value at a key.
pub trait FromValue: Sized + Drop {
    ghost format: { ValueFormat Self };

    /// What the value represents, or the least reason against it.
    fn from_value(alloc: Global, value: &Value) -> Result<Result<Self, Reason>, AllocError>
        ensures { IfOk result (λ found. found ≡ format.read (view value.now)) };
}

impl FromValue for bool {
    ghost format = { boolean };

    #[tactic(auto, unfolding(crate::specs::ValueReading::read_boolean))]
    fn from_value(_alloc: Global, value: &Value) -> Result<Result<bool, Reason>, AllocError> {
        Ok(value.as_bool().ok_or(Reason::WrongType))
    }
}

/// Both values, or the least reason against them.
#[tactic(auto, unfolding(crate::specs::Outcome::both))]
pub(crate) fn both<A: Drop, B: Drop>(
    first: Result<A, Reason>,
    second: Result<B, Reason>,
) -> Result<(A, B), Reason>
    ensures { result ≡ both first second }
{
    match first {
        Ok(x) => match second {
            Ok(y) => Ok((x, y)),
            Err(reason) => Err(reason),
        },
        Err(reason) => match second {
            Ok(_) => Err(reason),
            Err(other) => Err(reason.least(other)),
        },
    }
}

/// The first of two values.
pub(crate) fn first_of<A: Drop, B: Drop>(values: Result<(A, B), Reason>) -> Result<A, Reason>
    ensures { result ≡ mapped values (λ x. x.0) }
{
    match values {
        Ok((first, _)) => Ok(first),
        Err(reason) => Err(reason),
    }
}

/// A type whose values are written as texts.
pub trait FromText: Sized + Drop {
    ghost from_text: { List ℕ → Option Self };

    /// The value that the text represents.
    fn from_text(alloc: Global, text: &str) -> Result<Option<Self>, AllocError>
        ensures { IfOk result (λ found. found ≡ from_text text.now) };
}

/// Reads a text that represents a value.
#[tactic(auto, unfolding(crate::specs::ValueReading::read_text, crate::specs::ValueReading::read_text_as))]
pub fn text_as<T: FromText>(alloc: Global, value: &Value) -> Result<Result<T, Reason>, AllocError>
    ensures { IfOk result (λ found. found ≡ (text_as T.from_text).read (view value.now)) }
{
    match value.as_str() {
        Some(text) => match T::from_text(alloc, text)? {
            Some(value) => Ok(Ok(value)),
            None => Ok(Err(Reason::WrongValue)),
        },
        None => Ok(Err(Reason::WrongType)),
    }
}
