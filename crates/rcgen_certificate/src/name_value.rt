//! Names as values of the certificate grammar.
ghost use Rattle.std.specs.Prelude.{◌≡◌, true, false, List, Some, is_some, IfOk, IfErr};
ghost use Rattle.std.specs.List.{list_all};
ghost use Rattle.std.specs.Option.{IfSome};
ghost use Rattle.asn1_core.specs.Arcs.{is_oid};
ghost use Rattle.der_tree.specs.AnyElement.{is_one};
ghost use Rattle.der_tree.specs.Element.{element_octets};
ghost use Rattle.der_tree.specs.HasTree.{HasTree};
ghost use Rattle.der_tree.specs.Tags.{universal};
ghost use Rattle.pkix_name.specs.Names.{relative_distinguished_name, name as name_codec};
ghost use Rattle.rcgen_text.specs.DnTypes.{kind_of, type_arcs};
ghost use Rattle.rcgen_text.specs.DnValues.{text_of, text_bytes};
ghost use Rattle.rcgen_text.specs.Names.{Entry, entry_of};
ghost use Rattle.rcgen_text.specs.declared.error.Error.TheVariants.{OutOfMemory};
ghost use Rattle.rcgen_certificate.specs.NameValues.{has_types, issuer_name, text_number, text_element, alone, relative_name, name_value};
ghost use Rattle.rcgen_certificate.specs.ShortParts.{HasShortAttributes};

use crate::value::identifier_from_u64;
use asn1_core::Tag;
use der_tree::{Any, Bytes, SequenceOf, SetOf, Tree, tree_octets};
use pkix_cert::{AttributeTypeAndValue, Name, RelativeDistinguishedName};
use rcgen_sign::memory_only;
use rcgen_text::{DistinguishedName, DnType, DnValue, Error};
use std::alloc::Global;

/// The tag of the text's type.
fn text_tag(value: &DnValue) -> Tag
    ensures { result ≡ universal (text_number (text_of value.now)) }
{
    match value {
        DnValue::BmpString(_) => Tag::BMP_STRING,
        DnValue::Ia5String(_) => Tag::IA5_STRING,
        DnValue::PrintableString(_) => Tag::PRINTABLE_STRING,
        DnValue::TeletexString(_) => Tag::TELETEX_STRING,
        DnValue::UniversalString(_) => Tag::UNIVERSAL_STRING,
        DnValue::Utf8String(_) => Tag::UTF8_STRING,
    }
}

/// The contents octets of the text.
fn text_bytes(value: &DnValue) -> &[u8]
    ensures { result.now ≡ text_bytes (text_of value.now) }
{
    match value {
        DnValue::BmpString(text) => text.as_bytes(),
        DnValue::Ia5String(text) => text.as_str().as_bytes(),
        DnValue::PrintableString(text) => text.as_str().as_bytes(),
        DnValue::TeletexString(text) => text.as_bytes(),
        DnValue::UniversalString(text) => text.as_bytes(),
        DnValue::Utf8String(text) => text.as_bytes(),
    }
}

/// The primitive element of the tag with these contents octets.
pub(crate) fn primitive_element(alloc: Global, tag: Tag, contents: &[u8]) -> Result<Any, Error>
    ensures octets { IfOk result (λ a. a ≡ element_octets (record { tag = tag; constructed = false; content = contents.now })) }
    ensures element { IfOk result (λ a. is_one a ≡ true) }
    ensures memory { IfErr result (λ e. e ≡ OutOfMemory) }
{
    let bytes = Bytes::from_vec(Vec::from_slice(alloc, contents)?);
    let leaf = Tree::Leaf { tag, bytes };
    Ok(Any::new(tree_octets(alloc, &leaf)?))
}

/// The text as one element of its own tag.
fn text_element(alloc: Global, value: &DnValue) -> Result<Any, Error>
    ensures octets { IfOk result (λ a. a ≡ element_octets (text_element (text_of value.now))) }
    ensures element { IfOk result (λ a. is_one a ≡ true) }
    ensures memory { IfErr result (λ e. e ≡ OutOfMemory) }
{
    primitive_element(alloc, text_tag(value), text_bytes(value))
}

/// The part of a name that an attribute is.
fn relative_name(
    alloc: Global,
    entry: &(DnType, DnValue),
) -> Result<RelativeDistinguishedName, Error>
    requires { is_oid (type_arcs (kind_of entry.now.0)) ≡ true }
    ensures value { IfOk result (λ n. n ≡ relative_name (entry_of entry.now)) }
    ensures formed { IfOk result (HasTree relative_distinguished_name) }
    ensures memory { IfErr result (λ e. e ≡ OutOfMemory) }
{
    let attribute = AttributeTypeAndValue {
        attr_type: identifier_from_u64(alloc, entry.0.oid())?,
        value: text_element(alloc, &entry.1)?,
    };
    one_of(alloc, attribute)
}

/// The part of a name that has this attribute alone.
#[tactic(auto, unfolding(pkix_name::specs::Names::attribute_type_and_value_fields, der_tree::specs::SetOf::inserted))]
fn one_of(
    alloc: Global,
    attribute: AttributeTypeAndValue,
) -> Result<RelativeDistinguishedName, Error>
    requires arcs { is_oid attribute.attr_type ≡ true }
    requires element { is_one attribute.value ≡ true }
    ensures value { IfOk result (λ n. n ≡ alone attribute) }
    ensures formed { IfOk result (HasTree relative_distinguished_name) }
    ensures memory { IfErr result (λ e. e ≡ OutOfMemory) }
{
    let mut attributes = SetOf::new(alloc);
    memory_only(attributes.insert(attribute))?;
    let _ordered = attributes.as_slice();
    Ok(RelativeDistinguishedName(attributes))
}

/// The value of a name.
pub(crate) fn name_value(alloc: Global, name: &DistinguishedName) -> Result<Name, Error>
    requires { has_types name.now ≡ true }
    ensures value { IfOk result (λ n. n ≡ name_value name.now) }
    ensures formed { IfOk result (HasTree name_codec) }
    ensures memory { IfErr result (λ e. e ≡ OutOfMemory) }
{
    let mut parts = SequenceOf::new(alloc);
    for entry in name.entries() {
        parts.push(relative_name(alloc, entry)?)?;
    }
    Ok(Name::RdnSequence(parts))
}

/// Whether the part of a name has an attribute.
fn has_attribute(part: &RelativeDistinguishedName) -> bool
    ensures { result ≡ relative_distinguished_name.has_tree part.now }
{
    !part.0.as_slice().is_empty()
}

fn have_attributes(parts: &[RelativeDistinguishedName]) -> bool
    ensures { result ≡ list_all relative_distinguished_name.has_tree parts.now }
{
    parts.iter().all(|part| has_attribute(part))
}

/// Whether the name has a DER encoding: each of its parts has an attribute (RFC 5280, 4.1.2.4).
#[tactic(auto, using(crate::proofs::IssuerNames::parts))]
pub(crate) fn has_encoding(name: &Name) -> bool
    ensures { result ≡ name_codec.has_tree name.now }
{
    match name {
        Name::RdnSequence(parts) => have_attributes(parts.as_slice()),
    }
}

/// The value of an issuer's distinguished name, which has one.
#[tactic(auto, using(crate::proofs::IssuerNames::named))]
pub fn issuer_value(alloc: Global, name: &DistinguishedName) -> Result<Name, Error>
    requires { is_some (issuer_name name.now) ≡ true }
    ensures value { IfOk result (λ n. issuer_name name.now ≡ Some n) }
    ensures formed { IfOk result (HasTree name_codec) }
    ensures memory { IfErr result (λ e. e ≡ OutOfMemory) }
{
    name_value(alloc, name)
}

/// A law: the value of an issuer's distinguished name has a tree, unless an attribute would be 2^64
/// octets or more.
#[tactic(auto, using(crate::proofs::IssuerNames::issuer_name_tree))]
pub fn issuer_name_exists()
    ensures { (entries : List Entry) → HasShortAttributes entries → IfSome (issuer_name entries) (HasTree name_codec) }
{}
