//! Names and algorithms by themselves, as an explanation has them.
ghost use Rattle.std.specs.Prelude.{◌≡◌, IfOk, codes};
ghost use Rattle.std.specs.List.{join_by};
ghost use Rattle.shelf_explain.specs.GeneralNames.{general_name_text};
ghost use Rattle.shelf_explain.specs.Keys.{algorithm_text};
ghost use Rattle.shelf_explain.specs.Names.{name_text};

use crate::show::{ShowText, push_joined};
use asn1_core::OutOfMemory;
use pkix_cert::AlgorithmIdentifier;
use pkix_name::{GeneralName, Name};
use std::alloc::{AllocError, Global};

fn shown<T: ShowText>(alloc: Global, value: &T) -> Result<Vec<u8>, AllocError>
    ensures { IfOk result (λ text. text.items ≡ T.text value.now) }
{
    let mut text = Vec::new(alloc);
    value.push_onto(alloc, &mut text)?;
    Ok(text)
}

fn joined<T: ShowText>(alloc: Global, separator: &[u8], values: &[T]) -> Result<Vec<u8>, AllocError>
    ensures { IfOk result (λ text. text.items ≡ join_by T.text separator.now values.now) }
{
    let mut text = Vec::new(alloc);
    push_joined(alloc, &mut text, separator, values)?;
    Ok(text)
}

/// A name in the form of RFC 4514, the last part first; `(empty)` where it has no parts.
pub fn name_text(alloc: Global, name: &Name) -> Result<Vec<u8>, OutOfMemory>
    ensures { IfOk result (λ text. text.items ≡ name_text name.now) }
{
    let text = shown(alloc, name)?;
    Ok(text)
}

/// Names of other kinds, each after its kind, with a comma and a space between two.
pub fn general_names_text(alloc: Global, names: &[GeneralName]) -> Result<Vec<u8>, OutOfMemory>
    ensures { IfOk result (λ text. text.items ≡ join_by general_name_text (codes ", ") names.now) }
{
    let text = joined(alloc, b", ", names)?;
    Ok(text)
}

/// The name of an algorithm, and its parameters where it has other ones than NULL.
pub fn algorithm_text(
    alloc: Global,
    algorithm: &AlgorithmIdentifier,
) -> Result<Vec<u8>, OutOfMemory>
    ensures { IfOk result (λ text. text.items ≡ algorithm_text algorithm.now) }
{
    let text = shown(alloc, algorithm)?;
    Ok(text)
}
