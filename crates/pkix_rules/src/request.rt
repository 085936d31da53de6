//! The rules that a request breaks (RFC 2986), by itself and in what it asks for.
ghost use Rattle.std.specs.Prelude.{◌≡◌, ◌++◌, IfOk, map, not};
ghost use Rattle.std.specs.List.{list_any};
ghost use Rattle.std.specs.Option.{option_map};
ghost use Rattle.rule_table.specs.Found.{when};
ghost use Rattle.pkix_rules.specs.Requests.{asked_attribute, asked_extensions, asked_in, attribute_ids, attribute_rules, first_value, has_no_values, request_rules, rules_of};

use crate::extension::extensions_in;
use crate::identifiers::EXTENSION_REQUEST;
use crate::said::said_of;
use crate::shared::shared_rules;
use asn1_core::OutOfMemory;
use der_tree::{Any, der};
use extension_lookup::are_distinct_arcs;
use pkix_cert::{CertificationRequestInfo, Extensions};
use pkix_name::Attribute;
use rule_table::{Rule, add, note};
use std::alloc::Global;
use strict_der::is_strict;

/// The types of the attributes, in order.
fn attribute_ids(alloc: Global, attributes: &[Attribute]) -> Result<Vec<&[u32]>, OutOfMemory>
    ensures { IfOk result (λ ids. map (λ id. id.now) ids.items ≡ attribute_ids attributes.now) }
{
    let mut ids = Vec::new(alloc);
    for attribute in attributes {
        ids.push(attribute.attr_type.arcs())?;
    }
    Ok(ids)
}

fn has_no_values(attribute: &Attribute) -> bool
    ensures { result ≡ has_no_values attribute.now }
{
    attribute.values.as_slice().is_empty()
}

fn has_empty_attribute(attributes: &[Attribute]) -> bool
    ensures { result ≡ list_any has_no_values attributes.now }
{
    attributes.iter().any(|attribute| has_no_values(attribute))
}

/// Of attributes, of requests and of attribute certificates.
#[tactic(auto, unfolding(crate::specs::Requests::attribute_rules))]
pub(crate) fn attribute_rules(
    alloc: Global,
    attributes: &[Attribute],
) -> Result<Vec<Rule>, OutOfMemory>
    ensures { IfOk result (λ v. v.items ≡ attribute_rules attributes.now) }
{
    let mut found = Vec::new(alloc);
    let ids = attribute_ids(alloc, attributes)?;
    let distinct = are_distinct_arcs(ids);
    note(&mut found, Rule::AttributeTwice, !distinct)?;
    note(
        &mut found,
        Rule::AttributeWithoutValues,
        has_empty_attribute(attributes),
    )?;
    Ok(found)
}

/// The first attribute that asks for extensions (RFC 2985, 5.4.2).
fn asked_attribute(attributes: &[Attribute]) -> Option<&Attribute>
    ensures { option_map (λ a. a.now) result ≡ asked_attribute attributes.now }
{
    for attribute in attributes {
        if attribute.attr_type.arcs() == EXTENSION_REQUEST {
            return Some(attribute);
        }
    }
    None
}

fn first_value(attribute: &Attribute) -> Option<&Any>
    ensures { option_map (λ v. v.now) result ≡ first_value attribute.now }
{
    attribute.values.as_slice().first()
}

/// The extensions that are asked for, where they can be read.
#[tactic(auto, unfolding(crate::specs::Requests::asked_in))]
fn asked_in(alloc: Global, value: Option<&Any>) -> Result<Option<Extensions>, OutOfMemory>
    ensures { IfOk result (λ o. o ≡ asked_in (option_map (λ v. v.now) value.entry)) }
{
    match value {
        None => Ok(None),
        Some(value) => der::value_of(alloc, value.as_bytes()),
    }
}

/// The extensions that a request asks for.
#[tactic(auto, unfolding(crate::specs::Requests::asked_extensions))]
fn asked_extensions(
    alloc: Global,
    attributes: &[Attribute],
) -> Result<Option<Extensions>, OutOfMemory>
    ensures { IfOk result (λ o. o ≡ asked_extensions attributes.now) }
{
    match asked_attribute(attributes) {
        None => Ok(None),
        Some(attribute) => asked_in(alloc, first_value(attribute)),
    }
}

/// The rules that a request breaks, in order.
#[tactic(auto, unfolding(crate::specs::Requests::rules_of))]
fn rules_of(alloc: Global, info: &CertificationRequestInfo) -> Result<Vec<Rule>, OutOfMemory>
    ensures { IfOk result (λ v. v.items ≡ rules_of info.now) }
{
    let attributes = info.attributes.as_slice();
    let asked = asked_extensions(alloc, attributes)?;
    let extensions = extensions_in(&asked);
    let said = said_of(alloc, extensions)?;
    let key = &info.subject_public_key_info;
    let mut found = shared_rules(alloc, &info.subject, extensions, &said, key)?;
    note(
        &mut found,
        Rule::RequestVersion,
        info.version.raw_value() != 0,
    )?;
    let others = attribute_rules(alloc, attributes)?;
    add(&mut found, others)?;
    Ok(found)
}

/// These, and whether its octets are strict DER.
fn all_rules_of(
    alloc: Global,
    info: &CertificationRequestInfo,
    strict: bool,
) -> Result<Vec<Rule>, OutOfMemory>
    ensures { IfOk result (λ v. v.items ≡ rules_of info.now ++ when (not strict) Rule.NotStrictDer) }
{
    let mut found = rules_of(alloc, info)?;
    note(&mut found, Rule::NotStrictDer, !strict)?;
    Ok(found)
}

/// The rules that the request breaks of which `message` is the DER of what is to be signed (RFC 2986, 4.1), in order. Octets that can't be
/// read break none.
#[tactic(auto, unfolding(crate::specs::Requests::request_rules))]
pub fn request_rules(alloc: Global, message: &[u8]) -> Result<Vec<Rule>, OutOfMemory>
    ensures { IfOk result (λ w. w.items ≡ request_rules message.now) }
{
    let info: Option<CertificationRequestInfo> = der::value_of(alloc, message)?;
    let Some(info) = info else {
        return Ok(Vec::new(alloc));
    };
    let found = all_rules_of(alloc, &info, is_strict(message))?;
    Ok(found)
}
