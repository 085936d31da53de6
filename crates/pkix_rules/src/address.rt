//! E-mail addresses within a subject (RFC 5280, 4.1.2.6).
ghost use Rattle.std.specs.Prelude.{◌≡◌, ◌++◌, nat_lt, IfOk, OnOk};
ghost use Rattle.std.specs.List.{filter_map, list_all};
ghost use Rattle.std.specs.Option.{option_to_list};
ghost use Rattle.pkix_name.specs.declared.general_name.GeneralName.TheVariants.{Rfc822Name};
ghost use Rattle.pkix_rules.specs.Addresses.{address_in, addresses_in, ascii_or_none};

use crate::identifiers::EMAIL_ADDRESS;
use asn1_core::{Ia5String, OutOfMemory};
use der_tree::one_window;
use pkix_name::{AttributeTypeAndValue, GeneralName, Name, RelativeDistinguishedName};
use std::alloc::Global;

fn are_ascii(octets: &[u8]) -> bool
    ensures { result ≡ list_all (λ b. nat_lt b 128) octets.now }
{
    octets.iter().all(|octet| *octet < 128)
}

/// The octets, or none at all where they aren't all of ASCII.
fn ascii_or_none(octets: &[u8]) -> &[u8]
    ensures { result.now ≡ ascii_or_none octets.now }
{
    if are_ascii(octets) { octets } else { &[] }
}

/// The text, or none at all where it isn't one of ASCII.
fn address(alloc: Global, octets: &[u8]) -> Result<GeneralName, OutOfMemory>
    ensures { IfOk result (λ name. name ≡ Rfc822Name (ascii_or_none octets.now)) }
{
    match Ia5String::new(alloc, ascii_or_none(octets)) {
        Ok(text) => Ok(GeneralName::Rfc822Name(text)),
        Err(_) => Err(OutOfMemory),
    }
}

/// The e-mail address that an attribute holds, whatever type of text it has.
#[tactic(auto, unfolding(crate::specs::Addresses::address_in))]
fn address_in(
    alloc: Global,
    attribute: &AttributeTypeAndValue,
) -> Result<Option<GeneralName>, OutOfMemory>
    ensures { IfOk result (λ o. o ≡ address_in attribute.now) }
{
    if attribute.attr_type.arcs() != EMAIL_ADDRESS {
        return Ok(None);
    }
    match one_window(attribute.value.as_bytes()) {
        None => Ok(Some(address(alloc, &[])?)),
        Some(window) => Ok(Some(address(alloc, window.content())?)),
    }
}

/// Appends the name, where there is one.
fn push_optional(names: &mut Vec<GeneralName>, name: Option<GeneralName>) -> Result<(), OutOfMemory>
    ensures { OnOk result (names.new.items ≡ names.old.items ++ option_to_list name) }
{
    match name {
        None => Ok(()),
        Some(name) => {
            names.push(name)?;
            Ok(())
        }
    }
}

/// Appends the e-mail addresses of a part of a subject.
#[tactic(auto, using(crate::proofs::AddressLists::address_more))]
fn push_part(
    alloc: Global,
    names: &mut Vec<GeneralName>,
    part: &RelativeDistinguishedName,
) -> Result<(), OutOfMemory>
    ensures { OnOk result (names.new.items ≡ names.old.items ++ filter_map address_in part.now.0) }
{
    for attribute in part.0.as_slice() {
        let name = address_in(alloc, attribute)?;
        push_optional(names, name)?;
    }
    Ok(())
}

/// Appends the e-mail addresses of a subject.
pub(crate) fn push_addresses(
    alloc: Global,
    names: &mut Vec<GeneralName>,
    subject: &Name,
) -> Result<(), OutOfMemory>
    ensures { OnOk result (names.new.items ≡ names.old.items ++ addresses_in subject.now) }
{
    let Name::RdnSequence(parts) = subject;
    for part in parts.as_slice() {
        push_part(alloc, names, part)?;
    }
    Ok(())
}
