//! A part of a name as text: attributes, with a plus sign between two (RFC 4514, 2.2).
ghost use Rattle.std.specs.Prelude.{◌≡◌, nat_eq, IfOk};
ghost use Rattle.std.specs.Cmp.Lexicographic.{pointwise};
ghost use Rattle.std.specs.List.{list_any};
ghost use Rattle.std.specs.Option.{option_map};
ghost use Rattle.name_parts.specs.Parts.{added, attributes, has_type, joined, relative_name};

use crate::attribute::{attribute, is_plain};
use crate::octet::{Octet, octets_of};
use der_tree::{EncodeError, SetOf};
use pkix_name::{AttributeTypeAndValue, RelativeDistinguishedName};
use std::alloc::{AllocError, Global};

fn has_type(set: &[AttributeTypeAndValue], arcs: &[u32]) -> bool
    ensures { result ≡ has_type set.now arcs.now }
{
    set.iter()
        .any(|attribute| attribute.attr_type.arcs() == arcs)
}

/// The attributes with one more, where its type isn't there yet and it has a DER encoding.
#[tactic(auto, unfolding(crate::specs::Parts::added), using(crate::proofs::Forms::forms))]
fn added(
    mut set: SetOf<AttributeTypeAndValue>,
    attribute: AttributeTypeAndValue,
) -> Result<Option<SetOf<AttributeTypeAndValue>>, AllocError>
    ensures { IfOk result (λ found. found ≡ added set attribute) }
{
    if has_type(set.as_slice(), attribute.attr_type.arcs()) {
        return Ok(None);
    }
    match set.insert(attribute) {
        Ok(()) => Ok(Some(set)),
        Err(EncodeError::OutOfMemory) => Err(AllocError),
        Err(_) => Ok(None),
    }
}

/// The attributes with the one that the octets represent.
#[tactic(auto, unfolding(crate::specs::Parts::joined))]
fn joined(
    alloc: Global,
    set: SetOf<AttributeTypeAndValue>,
    octets: &[Octet],
) -> Result<Option<SetOf<AttributeTypeAndValue>>, AllocError>
    ensures { IfOk result (λ found. found ≡ joined set octets.now) }
{
    match attribute(alloc, octets)? {
        Some(attribute) => added(set, attribute),
        None => Ok(None),
    }
}

/// The attributes that the octets represent.
#[tactic(auto, unfolding(crate::specs::Parts::attributes))]
fn attributes(
    alloc: Global,
    octets: &[Octet],
) -> Result<Option<SetOf<AttributeTypeAndValue>>, AllocError>
    ensures { IfOk result (λ found. found ≡ attributes octets.now) }
{
    let mut set = SetOf::new(alloc);
    let mut front = Vec::new(alloc);
    let mut rest = octets;
    while let [octet, after @ ..] = rest {
        if is_plain(b'+', *octet) {
            set = match joined(alloc, set, &front)? {
                Some(more) => more,
                None => return Ok(None),
            };
            front = Vec::new(alloc);
        } else {
            front.push(*octet)?;
        }
        rest = after;
    }
    joined(alloc, set, &front)
}

/// The part of a name that a text in the form of RFC 4514 represents: attributes, each `TYPE=value`, with
/// a plus sign between two. Types are names of RFC 4519, 4524, 2985 and 5280, or arcs; the kind of
/// string of a value is that of its type, UTF8String where it isn't known. None where the text isn't in
/// that form, where a value has a character that its kind of string hasn't, or a type is there twice. A
/// value in hexadecimal (RFC 4514, 2.4: `#`) isn't read.
#[tactic(auto, unfolding(crate::specs::Parts::relative_name))]
pub fn relative_name(
    alloc: Global,
    text: &[u8],
) -> Result<Option<RelativeDistinguishedName>, AllocError>
    ensures { IfOk result (λ found. found ≡ relative_name text.now) }
{
    let Some(octets) = octets_of(alloc, text)? else {
        return Ok(None);
    };
    match attributes(alloc, &octets)? {
        Some(set) => Ok(Some(RelativeDistinguishedName(set))),
        None => Ok(None),
    }
}
