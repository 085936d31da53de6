//! Requests for certificates (RFC 2986, 4).
ghost use Rattle.std.specs.Prelude.{◌≡◌, ◌++◌, OnOk};
ghost use Rattle.shelf_explain.specs.Lines.{labelled};
ghost use Rattle.shelf_explain.specs.Requests.{attribute_lines, attributes_lines, info_lines, plain_attribute, request_lines, requested_extensions, requested_in, requested_parts};

use crate::block::{BELOW, LINE, ShowLines, push_signature, push_unreadable_line};
use crate::extension::push_all_extensions;
use crate::extension_part::ExtensionPart;
use crate::general_name::push_each;
use crate::key::push_key_lines;
use crate::known::push_identifier;
use crate::line::{push_key, push_line};
use crate::name::push_hex_value;
use crate::part::Part;
use crate::part_text::push_parts;
use crate::show::ShowText;
use der_tree::{Any, der};
use pkix_cert::{Attribute, CertificationRequest, CertificationRequestInfo, Extensions};
use std::alloc::{AllocError, Global};

/// Extensions that are asked for (RFC 2985, 5.4.2).
const EXTENSION_REQUEST: &[u32] = &[1, 2, 840, 113549, 1, 9, 14];

impl ShowText for Any {
    ghost use Rattle.shelf_explain.specs.Names.{hex_value};

    ghost text = { hex_value };

    fn push_onto(&self, alloc: Global, lines: &mut Vec<u8>) -> Result<(), AllocError> {
        push_hex_value(alloc, lines, self.as_bytes())
    }
}

/// Pushes the extensions within octets that can't be read as a whole.
#[tactic(auto, unfolding(crate::specs::Requests::requested_parts, crate::specs::Requests::parts_or_unreadable))]
fn push_requested_parts(alloc: Global, lines: &mut Vec<u8>, octets: &[u8]) -> Result<(), AllocError>
    ensures { OnOk result (lines.new.items ≡ lines.old.items ++ requested_parts octets.now) }
{
    let Some(parts) = Part::in_front(octets).parts() else {
        return push_unreadable_line(alloc, lines, BELOW, octets);
    };
    push_parts::<ExtensionPart>(alloc, lines, b"", parts)
}

/// Pushes the extensions that the octets are.
#[tactic(auto, unfolding(crate::specs::Requests::requested_in, crate::specs::Requests::some_requested))]
fn push_requested(alloc: Global, lines: &mut Vec<u8>, octets: &[u8]) -> Result<(), AllocError>
    ensures { OnOk result (lines.new.items ≡ lines.old.items ++ requested_in octets.now) }
{
    let Some(extensions) = der::value_of::<Extensions>(alloc, octets)? else {
        return push_requested_parts(alloc, lines, octets);
    };
    push_all_extensions(alloc, lines, BELOW, extensions.0.as_slice())?;
    Ok(())
}

/// Pushes the extensions of each value.
#[tactic(auto, using(crate::proofs::Joined::pushing), unfolding(crate::specs::Requests::requested_extensions))]
fn push_requested_extensions(
    alloc: Global,
    lines: &mut Vec<u8>,
    values: &[Any],
) -> Result<(), AllocError>
    ensures { OnOk result (lines.new.items ≡ lines.old.items ++ requested_extensions values.now) }
{
    for value in values {
        push_requested(alloc, lines, value.as_bytes())?;
    }
    Ok(())
}

/// Pushes the line of an attribute: its type, and its values.
#[tactic(auto, unfolding(crate::specs::Requests::plain_attribute, crate::specs::Lines::line))]
pub(crate) fn push_plain_attribute(
    alloc: Global,
    lines: &mut Vec<u8>,
    attribute: &Attribute,
) -> Result<(), AllocError>
    ensures { OnOk result (lines.new.items ≡ lines.old.items ++ plain_attribute attribute.now) }
{
    let mut key = Vec::new(alloc);
    push_identifier(alloc, &mut key, attribute.attr_type.arcs())?;
    push_key(lines, LINE, key.as_slice())?;
    push_each(alloc, lines, attribute.values.as_slice())?;
    lines.push(b'\n')?;
    Ok(())
}

/// Pushes what is asked for besides.
#[tactic(auto, unfolding(crate::specs::Requests::attribute_lines))]
fn push_attribute(
    alloc: Global,
    lines: &mut Vec<u8>,
    attribute: &Attribute,
) -> Result<(), AllocError>
    ensures { OnOk result (lines.new.items ≡ lines.old.items ++ attribute_lines attribute.now) }
{
    if attribute.attr_type.arcs() == EXTENSION_REQUEST {
        push_labelled_extensions(alloc, lines, b"  requested extensions:\n", attribute)
    } else {
        push_plain_attribute(alloc, lines, attribute)
    }
}

#[tactic(auto, unfolding(crate::specs::Lines::labelled))]
fn push_labelled_extensions(
    alloc: Global,
    lines: &mut Vec<u8>,
    label: &[u8],
    attribute: &Attribute,
) -> Result<(), AllocError>
    ensures { OnOk result (lines.new.items ≡ lines.old.items ++ labelled label.now (requested_extensions attribute.now.values)) }
{
    lines.extend_from_slice(label)?;
    push_requested_extensions(alloc, lines, attribute.values.as_slice())
}

#[tactic(auto, using(crate::proofs::Joined::pushing), unfolding(crate::specs::Requests::attributes_lines))]
fn push_attributes(
    alloc: Global,
    lines: &mut Vec<u8>,
    attributes: &[Attribute],
) -> Result<(), AllocError>
    ensures { OnOk result (lines.new.items ≡ lines.old.items ++ attributes_lines attributes.now) }
{
    for attribute in attributes {
        push_attribute(alloc, lines, attribute)?;
    }
    Ok(())
}

/// Pushes what the requester signs.
#[tactic(auto, unfolding(crate::specs::Requests::info_lines))]
fn push_info(
    alloc: Global,
    lines: &mut Vec<u8>,
    info: &CertificationRequestInfo,
) -> Result<(), AllocError>
    ensures { OnOk result (lines.new.items ≡ lines.old.items ++ info_lines info.now) }
{
    push_line(alloc, lines, LINE, b"subject", &info.subject)?;
    push_key_lines(alloc, lines, &info.subject_public_key_info)?;
    push_line(alloc, lines, LINE, b"version", &info.version)?;
    push_attributes(alloc, lines, info.attributes.as_slice())?;
    Ok(())
}

impl ShowLines for CertificationRequest {
    ghost written = { request_lines };

    #[tactic(auto, unfolding(crate::specs::Requests::request_lines))]
    fn push_lines(&self, alloc: Global, lines: &mut Vec<u8>) -> Result<(), AllocError> {
        push_info(alloc, lines, &self.info)?;
        push_signature(alloc, lines, &self.signature_algorithm, &self.signature)?;
        Ok(())
    }
}

impl ShowLines for CertificationRequestInfo {
    ghost written = { info_lines };

    fn push_lines(&self, alloc: Global, lines: &mut Vec<u8>) -> Result<(), AllocError> {
        push_info(alloc, lines, self)
    }
}

impl ShowLines for Attribute {
    ghost written = { attribute_lines };

    fn push_lines(&self, alloc: Global, lines: &mut Vec<u8>) -> Result<(), AllocError> {
        push_attribute(alloc, lines, self)
    }
}
