//! Values as the octets of their DER encodings.
ghost use Rattle.std.specs.Prelude.{◌≡◌, ◌++◌, IfOk, OnOk};
ghost use Rattle.std.specs.Option.{option_map};
ghost use Rattle.shelf_explain.specs.Encodings.{encoded_text, encoding_of, hex_or_nothing};
ghost use Rattle.shelf_explain.specs.Lines.{labelled};

use crate::name::push_hex_value;
use der_tree::{DerType, EncodeError, der};
use std::alloc::{AllocError, Global};

/// The DER encoding; each value that was read has one.
#[tactic(auto, unfolding(crate::specs::Encodings::encoding_of))]
fn encoded<T: DerType>(alloc: Global, value: &T) -> Result<Option<Vec<u8>>, AllocError>
    ensures { IfOk result (λ o. option_map (λ v. v.items) o ≡ encoding_of T.codec value.now) }
{
    match der::encode(alloc, value) {
        Ok(octets) => Ok(Some(octets)),
        Err(EncodeError::OutOfMemory) => Err(AllocError),
        Err(_) => Ok(None),
    }
}

#[tactic(auto, unfolding(crate::specs::Encodings::hex_or_nothing))]
fn push_hex_or_nothing(
    alloc: Global,
    lines: &mut Vec<u8>,
    octets: &Option<Vec<u8>>,
) -> Result<(), AllocError>
    ensures { OnOk result (lines.new.items ≡ lines.old.items ++ hex_or_nothing (option_map (λ v. v.items) octets.now)) }
{
    match octets {
        Some(octets) => push_hex_value(alloc, lines, octets.as_slice()),
        None => Ok(()),
    }
}

/// Pushes the encoding in hexadecimal digits.
#[tactic(auto, unfolding(crate::specs::Encodings::encoded_text))]
fn push_encoded<T: DerType>(alloc: Global, lines: &mut Vec<u8>, value: &T) -> Result<(), AllocError>
    ensures { OnOk result (lines.new.items ≡ lines.old.items ++ encoded_text T.codec value.now) }
{
    let octets = encoded(alloc, value)?;
    push_hex_or_nothing(alloc, lines, &octets)?;
    Ok(())
}

/// Pushes what a value is, and its encoding in hexadecimal digits.
#[tactic(auto, unfolding(crate::specs::Lines::labelled))]
pub(crate) fn push_labelled_encoding<T: DerType>(
    alloc: Global,
    lines: &mut Vec<u8>,
    label: &[u8],
    value: &T,
) -> Result<(), AllocError>
    ensures { OnOk result (lines.new.items ≡ lines.old.items ++ labelled label.now (encoded_text T.codec value.now)) }
{
    lines.extend_from_slice(label)?;
    push_encoded(alloc, lines, value)
}
