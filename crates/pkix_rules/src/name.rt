//! The attributes of a name beside the types that their values are to have (RFC 5280, A.1).
ghost use Rattle.std.specs.Prelude.{◌≡◌, IfOk};
ghost use Rattle.std.specs.List.{list_any};
ghost use Rattle.pkix_rules.specs.Extensions.{ids_in};
ghost use Rattle.pkix_rules.specs.Names.{are_ia5_texts, are_printable_texts, are_short_texts, are_texts, attribute_fits, attributes_fit, countries_fit, has_empty_text, has_old_text, is_empty_name, is_empty_text, is_old_text, name_fits};

use crate::extension::is_among;
use crate::identifiers::{
    COUNTRY_NAMES, DIRECTORY_TEXTS, IA5_TEXTS, PRINTABLE_TEXTS, TEXTS_TO_64, TEXTS_TO_128,
};
use asn1_core::{Ia5String, OutOfMemory, PrintableString};
use der_tree::{DerType, der};
use pkix_name::{
    AttributeTypeAndValue, DirectoryString, Name, RelativeDistinguishedName, X520CommonName,
    X520CountryName, X520LocalityName,
};
use std::alloc::Global;

/// Whether the attribute's value is a `T`, if the attribute is of one of these types.
fn attribute_fits<T: DerType + Drop>(
    alloc: Global,
    attribute: &AttributeTypeAndValue,
    ids: &[&[u32]],
) -> Result<bool, OutOfMemory>
    ensures { IfOk result (λ fits. fits ≡ attribute_fits T.codec (ids_in ids.now) attribute.now) }
{
    if is_among(attribute.attr_type.arcs(), ids) {
        let value: Option<T> = der::value_of(alloc, attribute.value.as_bytes())?;
        Ok(value.is_some())
    } else {
        Ok(true)
    }
}

/// Whether each of them does.
fn attributes_fit<T: DerType + Drop>(
    alloc: Global,
    attributes: &[AttributeTypeAndValue],
    ids: &[&[u32]],
) -> Result<bool, OutOfMemory>
    ensures { IfOk result (λ fit. fit ≡ attributes_fit T.codec (ids_in ids.now) attributes.now) }
{
    for attribute in attributes {
        if !attribute_fits::<T>(alloc, attribute, ids)? {
            return Ok(false);
        }
    }
    Ok(true)
}

/// Whether each attribute of the name does.
fn name_fits<T: DerType + Drop>(
    alloc: Global,
    name: &Name,
    ids: &[&[u32]],
) -> Result<bool, OutOfMemory>
    ensures { IfOk result (λ fits. fits ≡ name_fits T.codec (ids_in ids.now) name.now) }
{
    let Name::RdnSequence(parts) = name;
    for part in parts.as_slice() {
        if !attributes_fit::<T>(alloc, part.0.as_slice(), ids)? {
            return Ok(false);
        }
    }
    Ok(true)
}

/// Whether each country name is two characters in a PrintableString.
pub(crate) fn countries_fit(alloc: Global, name: &Name) -> Result<bool, OutOfMemory>
    ensures { IfOk result (λ fit. fit ≡ countries_fit name.now) }
{
    name_fits::<X520CountryName>(alloc, name, COUNTRY_NAMES)
}

/// Whether each label of a domain name and each mailbox is an IA5String.
pub(crate) fn are_ia5_texts(alloc: Global, name: &Name) -> Result<bool, OutOfMemory>
    ensures { IfOk result (λ fit. fit ≡ are_ia5_texts name.now) }
{
    name_fits::<Ia5String>(alloc, name, IA5_TEXTS)
}

/// Whether each serial number and qualifier of a name is a PrintableString.
pub(crate) fn are_printable_texts(alloc: Global, name: &Name) -> Result<bool, OutOfMemory>
    ensures { IfOk result (λ fit. fit ≡ are_printable_texts name.now) }
{
    name_fits::<PrintableString>(alloc, name, PRINTABLE_TEXTS)
}

/// Whether each common name, place, organization and so on is a DirectoryString that isn't empty.
pub(crate) fn are_texts(alloc: Global, name: &Name) -> Result<bool, OutOfMemory>
    ensures { IfOk result (λ fit. fit ≡ are_texts name.now) }
{
    name_fits::<DirectoryString>(alloc, name, DIRECTORY_TEXTS)
}

/// Whether each of them that has an upper bound is a DirectoryString within it, too.
pub(crate) fn are_short_texts(alloc: Global, name: &Name) -> Result<bool, OutOfMemory>
    ensures { IfOk result (λ fit. fit ≡ are_short_texts name.now) }
{
    let to_64 = name_fits::<X520CommonName>(alloc, name, TEXTS_TO_64)?;
    let to_128 = name_fits::<X520LocalityName>(alloc, name, TEXTS_TO_128)?;
    Ok(to_64 && to_128)
}

/// Whether the value is a TeletexString, a UniversalString or a BMPString.
fn is_old_text(attribute: &AttributeTypeAndValue) -> bool
    ensures { result ≡ is_old_text attribute.now }
{
    match attribute.value.as_bytes() {
        [] => false,
        [tag, ..] => *tag == 20 || *tag == 28 || *tag == 30,
    }
}

/// Whether the value has no contents octets.
fn is_empty_text(attribute: &AttributeTypeAndValue) -> bool
    ensures { result ≡ is_empty_text attribute.now }
{
    attribute.value.as_bytes().len() == 2
}

fn has_empty_attribute(part: &RelativeDistinguishedName) -> bool
    ensures { result ≡ list_any is_empty_text part.now.0 }
{
    part.0
        .as_slice()
        .iter()
        .any(|attribute| is_empty_text(attribute))
}

/// Whether a text of the name has no character.
pub(crate) fn has_empty_text(name: &Name) -> bool
    ensures { result ≡ has_empty_text name.now }
{
    let Name::RdnSequence(parts) = name;
    parts
        .as_slice()
        .iter()
        .any(|part| has_empty_attribute(part))
}

fn has_old_attribute(part: &RelativeDistinguishedName) -> bool
    ensures { result ≡ list_any is_old_text part.now.0 }
{
    part.0
        .as_slice()
        .iter()
        .any(|attribute| is_old_text(attribute))
}

/// Whether a text of the name is.
pub(crate) fn has_old_text(name: &Name) -> bool
    ensures { result ≡ has_old_text name.now }
{
    let Name::RdnSequence(parts) = name;
    parts.as_slice().iter().any(|part| has_old_attribute(part))
}

/// Whether the name has no part.
pub(crate) fn is_empty_name(name: &Name) -> bool
    ensures { result ≡ is_empty_name name.now }
{
    let Name::RdnSequence(parts) = name;
    parts.as_slice().is_empty()
}
