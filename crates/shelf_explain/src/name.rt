//! Names, as RFC 4514 writes them.
//!
//! The last part comes first. A type that has a short name here is written by it, and its value as
//! text where it is a DirectoryString or an IA5String; another value, and each value of another type,
//! is a number sign and the hexadecimal digits of its DER encoding (RFC 4514, 2.4). A TeletexString is
//! text where its octets are ASCII.
ghost use Rattle.std.specs.Prelude.{◌≡◌, ◌++◌, OnOk};
ghost use Rattle.std.specs.Char.{is_ascii};
ghost use Rattle.std.specs.List.{list_all};
ghost use Rattle.shelf_explain.specs.Names.{attribute_text, attribute_value_text, directory_string_text, hex_value, ia5_or_hex, name_text, relative_name_text, teletex_text};

use crate::known::attribute_name;
use crate::show::{ShowText, push_dotted, push_hex, push_joined, push_joined_from_last};
use crate::value::push_value;
use asn1_core::Ia5String;
use der_tree::der;
use pkix_name::{
    AttributeTypeAndValue, Characters, DirectoryString, Name, RelativeDistinguishedName,
    utf8_characters,
};
use std::alloc::{AllocError, Global};

#[tactic(auto, unfolding(crate::specs::Names::hex_value))]
pub(crate) fn push_hex_value(
    alloc: Global,
    lines: &mut Vec<u8>,
    octets: &[u8],
) -> Result<(), AllocError>
    ensures { OnOk result (lines.new.items ≡ lines.old.items ++ hex_value octets.now) }
{
    lines.push(b'#')?;
    push_hex(alloc, lines, octets)
}

fn are_ascii(octets: &[u8]) -> bool
    ensures { result ≡ list_all is_ascii octets.now }
{
    octets.iter().all(|octet| octet.is_ascii())
}

#[tactic(auto, unfolding(crate::specs::Names::teletex_text))]
fn push_teletex(
    alloc: Global,
    lines: &mut Vec<u8>,
    contents: &[u8],
    octets: &[u8],
) -> Result<(), AllocError>
    ensures { OnOk result (lines.new.items ≡ lines.old.items ++ teletex_text contents.now octets.now) }
{
    if are_ascii(contents) {
        push_value(alloc, lines, Characters::Octets(contents))
    } else {
        push_hex_value(alloc, lines, octets)
    }
}

#[tactic(auto, unfolding(crate::specs::Names::directory_string_text))]
fn push_directory_string(
    alloc: Global,
    lines: &mut Vec<u8>,
    text: &DirectoryString,
    octets: &[u8],
) -> Result<(), AllocError>
    ensures { OnOk result (lines.new.items ≡ lines.old.items ++ directory_string_text text.now octets.now) }
{
    match text {
        DirectoryString::Teletex(text) => push_teletex(alloc, lines, text.as_bytes(), octets),
        DirectoryString::Printable(text) => {
            push_value(alloc, lines, Characters::Octets(text.as_bytes()))
        }
        DirectoryString::Universal(text) => {
            push_value(alloc, lines, Characters::Quads(text.as_bytes()))
        }
        DirectoryString::Utf8(text) => push_value(alloc, lines, utf8_characters(text.as_bytes())),
        DirectoryString::Bmp(text) => push_value(alloc, lines, Characters::Pairs(text.as_bytes())),
    }
}

#[tactic(auto, unfolding(crate::specs::Names::ia5_or_hex, crate::specs::Names::ia5_text))]
fn push_ia5_or_hex(alloc: Global, lines: &mut Vec<u8>, octets: &[u8]) -> Result<(), AllocError>
    ensures { OnOk result (lines.new.items ≡ lines.old.items ++ ia5_or_hex octets.now) }
{
    let Some(text) = der::value_of::<Ia5String>(alloc, octets)? else {
        return push_hex_value(alloc, lines, octets);
    };
    push_value(alloc, lines, Characters::Octets(text.as_bytes()))?;
    Ok(())
}

/// Pushes the value of an attribute whose type has a short name.
#[tactic(auto, unfolding(crate::specs::Names::attribute_value_text, crate::specs::Names::string_text))]
pub(crate) fn push_attribute_value(
    alloc: Global,
    lines: &mut Vec<u8>,
    octets: &[u8],
) -> Result<(), AllocError>
    ensures { OnOk result (lines.new.items ≡ lines.old.items ++ attribute_value_text octets.now) }
{
    let Some(text) = der::value_of::<DirectoryString>(alloc, octets)? else {
        return push_ia5_or_hex(alloc, lines, octets);
    };
    push_directory_string(alloc, lines, &text, octets)?;
    Ok(())
}

impl ShowText for AttributeTypeAndValue {
    ghost text = { attribute_text };

    #[tactic(auto, unfolding(crate::specs::Names::attribute_text, crate::specs::Names::attribute_named))]
    fn push_onto(&self, alloc: Global, lines: &mut Vec<u8>) -> Result<(), AllocError> {
        match attribute_name(self.attr_type.arcs()) {
            Some(name) => {
                lines.extend_from_slice(name)?;
                lines.push(b'=')?;
                push_attribute_value(alloc, lines, self.value.as_bytes())
            }
            None => {
                push_dotted(alloc, lines, self.attr_type.arcs())?;
                lines.push(b'=')?;
                push_hex_value(alloc, lines, self.value.as_bytes())
            }
        }
    }
}

impl ShowText for RelativeDistinguishedName {
    ghost text = { relative_name_text };

    #[tactic(auto, unfolding(crate::specs::Names::relative_name_text))]
    fn push_onto(&self, alloc: Global, lines: &mut Vec<u8>) -> Result<(), AllocError> {
        push_joined(alloc, lines, b"+", self.0.as_slice())
    }
}

impl ShowText for Name {
    ghost text = { name_text };

    #[tactic(auto, unfolding(crate::specs::Names::name_text))]
    fn push_onto(&self, alloc: Global, lines: &mut Vec<u8>) -> Result<(), AllocError> {
        let Name::RdnSequence(parts) = self;
        match parts.as_slice() {
            [] => lines.extend_from_slice(b"(empty)"),
            parts => push_joined_from_last(alloc, lines, b",", parts),
        }
    }
}
