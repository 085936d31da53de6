//! Names of other kinds (RFC 5280, 4.2.1.6).
ghost use Rattle.std.specs.Prelude.{◌≡◌, ◌++◌, OnOk};
ghost use Rattle.shelf_explain.specs.Addresses.{address_text};
ghost use Rattle.shelf_explain.specs.Lines.{labelled};
ghost use Rattle.shelf_explain.specs.GeneralNames.{each_text, general_name_text, labelled_text, other_name_text};

use crate::address::push_address;
use crate::encoding::push_labelled_encoding;
use crate::known::push_identifier;
use crate::line::{next_line, push_labelled};
use crate::name::push_attribute_value;
use crate::show::{ShowText, push_joined};
use crate::value::push_plain_text;
use asn1_core::ObjectIdentifier;
use der_tree::SequenceOf;
use pkix_name::{Characters, GeneralName};
use std::alloc::{AllocError, Global};

/// Pushes what kind of name it is, and the name.
#[tactic(auto, unfolding(crate::specs::GeneralNames::labelled_text))]
fn push_labelled_text(
    alloc: Global,
    lines: &mut Vec<u8>,
    label: &[u8],
    text: &[u8],
) -> Result<(), AllocError>
    ensures { OnOk result (lines.new.items ≡ lines.old.items ++ labelled_text label.now text.now) }
{
    lines.extend_from_slice(label)?;
    push_plain_text(alloc, lines, Characters::Octets(text))
}

#[tactic(auto, unfolding(crate::specs::GeneralNames::other_name_text))]
fn push_other_name(
    alloc: Global,
    lines: &mut Vec<u8>,
    id: &ObjectIdentifier,
    value: &[u8],
) -> Result<(), AllocError>
    ensures { OnOk result (lines.new.items ≡ lines.old.items ++ other_name_text id.now value.now) }
{
    push_labelled(alloc, lines, b"other:", id)?;
    lines.push(b'=')?;
    push_attribute_value(alloc, lines, value)
}

#[tactic(auto, unfolding(crate::specs::Lines::labelled))]
fn push_labelled_address(
    alloc: Global,
    lines: &mut Vec<u8>,
    label: &[u8],
    octets: &[u8],
) -> Result<(), AllocError>
    ensures { OnOk result (lines.new.items ≡ lines.old.items ++ labelled label.now (address_text octets.now)) }
{
    lines.extend_from_slice(label)?;
    push_address(alloc, lines, octets)
}

impl ShowText for GeneralName {
    ghost text = { general_name_text };

    #[tactic(auto, unfolding(crate::specs::GeneralNames::general_name_text))]
    fn push_onto(&self, alloc: Global, lines: &mut Vec<u8>) -> Result<(), AllocError> {
        match self {
            GeneralName::OtherName(name) => {
                push_other_name(alloc, lines, &name.type_id, name.value.as_bytes())
            }
            GeneralName::Rfc822Name(name) => {
                push_labelled_text(alloc, lines, b"email:", name.as_bytes())
            }
            GeneralName::DnsName(name) => push_labelled_text(
                alloc,
                lines,
                b"DNS:",
                name.as_bytes(),
            ),
            GeneralName::X400Address(address) => {
                push_labelled_encoding(alloc, lines, b"X.400 address:", address)
            }
            GeneralName::DirectoryName(name) => push_labelled(alloc, lines, b"directory:", name),
            GeneralName::EdiPartyName(name) => {
                push_labelled_encoding(alloc, lines, b"EDI party name:", name)
            }
            GeneralName::Uri(name) => push_labelled_text(alloc, lines, b"URI:", name.as_bytes()),
            GeneralName::IpAddress(octets) => {
                push_labelled_address(alloc, lines, b"IP:", octets.as_slice())
            }
            GeneralName::RegisteredId(id) => push_labelled(alloc, lines, b"registered:", id),
        }
    }
}

impl ShowText for ObjectIdentifier {
    ghost use Rattle.shelf_explain.specs.Known.{identifier_text};

    ghost text = { identifier_text };

    fn push_onto(&self, alloc: Global, lines: &mut Vec<u8>) -> Result<(), AllocError> {
        push_identifier(alloc, lines, self.arcs())
    }
}

impl<T: ShowText> ShowText for SequenceOf<T> {
    ghost text = { each_text T.text };

    fn push_onto(&self, alloc: Global, lines: &mut Vec<u8>) -> Result<(), AllocError> {
        push_each(alloc, lines, self.as_slice())
    }
}

/// Pushes the texts, a line for each.
#[tactic(auto, unfolding(crate::specs::GeneralNames::each_text))]
pub(crate) fn push_each<T: ShowText>(
    alloc: Global,
    lines: &mut Vec<u8>,
    parts: &[T],
) -> Result<(), AllocError>
    ensures { OnOk result (lines.new.items ≡ lines.old.items ++ each_text T.text parts.now) }
{
    match parts {
        [] => lines.extend_from_slice(b"none"),
        parts => push_joined(alloc, lines, next_line(), parts),
    }
}
