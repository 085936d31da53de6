//! The value of an attribute: a text of the kind of string of its type, as one element.
ghost use Rattle.std.specs.Prelude.{◌≡◌, false, IfOk};
ghost use Rattle.asn1_core.specs.StringTypes.{ia5, numeric, printable, utf8};
ghost use Rattle.der_tree.specs.Element.{element_octets};
ghost use Rattle.name_parts.specs.Values.{string_element, value};

use crate::types::Kind;
use asn1_core::{Ia5String, NumericString, PrintableString, Tag, TextFault, Utf8String};
use der_tree::{Any, Bytes, Tree, tree_octets};
use std::alloc::{AllocError, Global};

/// The primitive element of the tag with these contents octets.
fn element(alloc: Global, tag: Tag, contents: &[u8]) -> Result<Any, AllocError>
    ensures { IfOk result (λ a. a ≡ element_octets (record { tag = tag; constructed = false; content = contents.now })) }
{
    let bytes = Bytes::from_vec(Vec::from_slice(alloc, contents)?);
    let leaf = Tree::Leaf { tag, bytes };
    Ok(Any::new(tree_octets(alloc, &leaf)?))
}

fn numeric_value(alloc: Global, contents: &[u8]) -> Result<Option<Any>, AllocError>
    ensures { IfOk result (λ found. found ≡ string_element numeric contents.now) }
{
    match NumericString::new(alloc, contents) {
        Ok(_) => Ok(Some(element(alloc, Tag::NUMERIC_STRING, contents)?)),
        Err(TextFault::OutOfMemory) => Err(AllocError),
        Err(_) => Ok(None),
    }
}

fn printable_value(alloc: Global, contents: &[u8]) -> Result<Option<Any>, AllocError>
    ensures { IfOk result (λ found. found ≡ string_element printable contents.now) }
{
    match PrintableString::new(alloc, contents) {
        Ok(_) => Ok(Some(element(alloc, Tag::PRINTABLE_STRING, contents)?)),
        Err(TextFault::OutOfMemory) => Err(AllocError),
        Err(_) => Ok(None),
    }
}

fn ia5_value(alloc: Global, contents: &[u8]) -> Result<Option<Any>, AllocError>
    ensures { IfOk result (λ found. found ≡ string_element ia5 contents.now) }
{
    match Ia5String::new(alloc, contents) {
        Ok(_) => Ok(Some(element(alloc, Tag::IA5_STRING, contents)?)),
        Err(TextFault::OutOfMemory) => Err(AllocError),
        Err(_) => Ok(None),
    }
}

fn utf8_value(alloc: Global, contents: &[u8]) -> Result<Option<Any>, AllocError>
    ensures { IfOk result (λ found. found ≡ string_element utf8 contents.now) }
{
    match Utf8String::new(alloc, contents) {
        Ok(_) => Ok(Some(element(alloc, Tag::UTF8_STRING, contents)?)),
        Err(TextFault::OutOfMemory) => Err(AllocError),
        Err(_) => Ok(None),
    }
}

/// The octets as a string of the kind; none where they aren't such a one.
pub(crate) fn value_of(
    alloc: Global,
    kind: Kind,
    contents: &[u8],
) -> Result<Option<Any>, AllocError>
    ensures { IfOk result (λ found. found ≡ value kind contents.now) }
{
    match kind {
        Kind::Numeric => numeric_value(alloc, contents),
        Kind::Printable => printable_value(alloc, contents),
        Kind::Ia5 => ia5_value(alloc, contents),
        Kind::Utf8 => utf8_value(alloc, contents),
    }
}
