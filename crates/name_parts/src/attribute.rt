//! An attribute as text: a type, an equals sign and a value (RFC 4514, 2.3 and 2.4).
ghost use Rattle.std.specs.Prelude.{◌≡◌, ◌<◌, length, map, not, position, IfOk, IfSome};
ghost use Rattle.std.specs.List.{list_all};
ghost use Rattle.name_parts.specs.Attributes.{attribute, attribute_type, attribute_value, begins, ends, identifier, is_allowed, is_barred, is_equals, is_plain, is_string, type_of};

use crate::arcs::arcs_of;
use crate::octet::Octet;
use crate::types::{Kind, arcs_named, kind_of};
use crate::value::value_of;
use asn1_core::{ObjectIdentifier, OidFault};
use der_tree::Any;
use pkix_name::AttributeTypeAndValue;
use std::alloc::{AllocError, Global};

/// What a value contains after a backslash alone, beside the backslash and the plus sign.
const BARRED: &[u8] = b"\0\",;<>";

/// Whether the octet is this one, and no escape gives it.
pub(crate) fn is_plain(c: u8, octet: Octet) -> bool
    ensures { result ≡ is_plain c octet }
{
    octet.value == c && !octet.is_escaped
}

fn equals_at(octets: &[Octet]) -> Option<usize>
    ensures place { result ≡ position is_equals octets.now }
    ensures bound { IfSome result (λ at. at < length octets.now) }
{
    octets.iter().position(|octet| is_plain(b'=', *octet))
}

fn are_plain(octets: &[Octet]) -> bool
    ensures { result ≡ list_all (λ o. not o.is_escaped) octets.now }
{
    octets.iter().all(|octet| !octet.is_escaped)
}

fn values(alloc: Global, octets: &[Octet]) -> Result<Vec<u8>, AllocError>
    ensures { IfOk result (λ values. values.items ≡ map (λ o. o.value) octets.now) }
{
    let mut values = Vec::new(alloc);
    for octet in octets {
        values.push(octet.value)?;
    }
    Ok(values)
}

/// The identifier of the arcs, where they are one's.
#[tactic(auto, using(crate::proofs::Identifiers::not_identifier))]
fn identifier(alloc: Global, arcs: &[u32]) -> Result<Option<ObjectIdentifier>, AllocError>
    ensures { IfOk result (λ found. found ≡ identifier arcs.now) }
{
    match ObjectIdentifier::new(alloc, arcs) {
        Ok(id) => Ok(Some(id)),
        Err(OidFault::OutOfMemory) => Err(AllocError),
        Err(_) => Ok(None),
    }
}

/// The type that a name or arcs represent.
#[tactic(auto, unfolding(crate::specs::Attributes::type_of))]
fn type_of(alloc: Global, name: &[u8]) -> Result<Option<ObjectIdentifier>, AllocError>
    ensures { IfOk result (λ found. found ≡ type_of name.now) }
{
    if let Some(arcs) = arcs_named(name) {
        return identifier(alloc, arcs);
    }
    match arcs_of(alloc, name)? {
        Some(arcs) => identifier(alloc, &arcs),
        None => Ok(None),
    }
}

/// The type before the equals sign.
#[tactic(auto, unfolding(crate::specs::Attributes::attribute_type))]
fn attribute_type(alloc: Global, octets: &[Octet]) -> Result<Option<ObjectIdentifier>, AllocError>
    ensures { IfOk result (λ found. found ≡ attribute_type octets.now) }
{
    if !are_plain(octets) {
        return Ok(None);
    }
    let name = values(alloc, octets)?;
    type_of(alloc, &name)
}

fn is_allowed(octet: Octet) -> bool
    ensures { result ≡ is_allowed octet }
{
    octet.is_escaped || !BARRED.contains(&octet.value)
}

fn are_allowed(octets: &[Octet]) -> bool
    ensures { result ≡ list_all is_allowed octets.now }
{
    octets.iter().all(|octet| is_allowed(*octet))
}

/// Whether a value may begin so: neither with a space nor with a number sign.
fn begins(octets: &[Octet]) -> bool
    ensures { result ≡ begins octets.now }
{
    match octets {
        [first, ..] => !is_plain(b' ', *first) && !is_plain(b'#', *first),
        [] => true,
    }
}

/// Whether a value may end so: not with a space.
fn ends(octets: &[Octet]) -> bool
    ensures { result ≡ ends octets.now }
{
    match octets.last() {
        Some(last) => !is_plain(b' ', *last),
        None => true,
    }
}

/// Whether the octets are a value (RFC 4514, 3: string).
#[tactic(auto, unfolding(crate::specs::Attributes::is_string))]
fn is_string(octets: &[Octet]) -> bool
    ensures { result ≡ is_string octets.now }
{
    begins(octets) && ends(octets) && are_allowed(octets)
}

/// The value after the equals sign.
#[tactic(auto, unfolding(crate::specs::Attributes::attribute_value))]
fn attribute_value(alloc: Global, kind: Kind, octets: &[Octet]) -> Result<Option<Any>, AllocError>
    ensures { IfOk result (λ found. found ≡ attribute_value kind octets.now) }
{
    if !is_string(octets) {
        return Ok(None);
    }
    let contents = values(alloc, octets)?;
    value_of(alloc, kind, &contents)
}

/// The attribute that the octets represent.
#[tactic(auto, unfolding(crate::specs::Attributes::attribute))]
pub(crate) fn attribute(
    alloc: Global,
    octets: &[Octet],
) -> Result<Option<AttributeTypeAndValue>, AllocError>
    ensures { IfOk result (λ found. found ≡ attribute octets.now) }
{
    let Some(at) = equals_at(octets) else {
        return Ok(None);
    };
    let Some(attr_type) = attribute_type(alloc, &octets[..at])? else {
        return Ok(None);
    };
    let kind = kind_of(attr_type.arcs());
    let Some(value) = attribute_value(alloc, kind, &octets[at + 1..])? else {
        return Ok(None);
    };
    Ok(Some(AttributeTypeAndValue { attr_type, value }))
}
