//! Names as parameters have them (RFC 5280, 4.1.2.4).
ghost use Rattle.std.specs.Prelude.{◌≡◌, not, IfOk, IfErr};
ghost use Rattle.der_tree.specs.Windows.{shown};
ghost use Rattle.rcgen_text.specs.Causes.{Makes, TakesMemory, when};
ghost use Rattle.rcgen_text.specs.Strings.{is_universal, is_bmp, no_utf32, no_utf16};
ghost use Rattle.rcgen_text.specs.DnValues.{text_of};
ghost use Rattle.rcgen_text.specs.Names.{entry_of, entries_of};
ghost use Rattle.rcgen_text.specs.declared.error.Error.TheVariants.{OutOfMemory};
ghost use Rattle.rcgen_read.specs.NameReading.{set_cause, read_contents, read_text, read_attribute, read_attributes, read_entries, read_name};
ghost use Rattle.rcgen_read.specs.Reading.{ReadsAs};

use crate::reading::utf8_text;
use asn1_core::{ObjectIdentifier, Tag};
use der_tree::{Window, one_window};
use pkix_name::{AttributeTypeAndValue, Name, RelativeDistinguishedName};
use rcgen_text::string::{AsciiSet, AsciiString, BmpString, UniversalString};
use rcgen_text::{DistinguishedName, DnType, DnValue, Error};
use std::alloc::Global;

/// The arcs, as rcgen's types have them.
pub(crate) fn wide_arcs(alloc: Global, id: &ObjectIdentifier) -> Result<Vec<u64>, Error>
    ensures arcs { IfOk result (λ arcs. arcs.items ≡ id.now) }
    ensures memory { IfErr result (λ e. e ≡ OutOfMemory) }
{
    let mut arcs = Vec::new(alloc);
    for arc in id.arcs() {
        arcs.push(u64::from(*arc))?;
    }
    Ok(arcs)
}

/// The text in UTF-8 whose characters are all in the set.
fn ascii_text<S: AsciiSet>(alloc: Global, octets: &[u8]) -> Result<AsciiString<S>, Error>
    ensures { Makes TakesMemory (set_cause S.is_character S.cause octets.now) (λ text. text ≡ octets.now) result }
{
    AsciiString::try_from_str(alloc, utf8_text(octets)?)
}

/// The text of octets in UTF-32BE.
fn universal_text(alloc: Global, octets: &[u8]) -> Result<UniversalString, Error>
    ensures { Makes TakesMemory (when (not (is_universal octets.now)) no_utf32) (λ text. text ≡ octets.now) result }
{
    UniversalString::from_utf32be(alloc, Vec::from_slice(alloc, octets)?)
}

/// The text of octets in UTF-16BE.
fn bmp_text(alloc: Global, octets: &[u8]) -> Result<BmpString, Error>
    ensures { Makes TakesMemory (when (not (is_bmp octets.now)) no_utf16) (λ text. text ≡ octets.now) result }
{
    BmpString::from_utf16be(alloc, Vec::from_slice(alloc, octets)?)
}

/// The text of contents octets under the tag of its type.
fn text_of_contents(alloc: Global, tag: Tag, octets: &[u8]) -> Result<DnValue, Error>
    ensures { ReadsAs text_of (read_contents tag octets.now) result }
{
    if tag == Tag::UTF8_STRING {
        let text = utf8_text(octets)?;
        Ok(DnValue::Utf8String(String::from_str(alloc, text)?))
    } else if tag == Tag::PRINTABLE_STRING {
        Ok(DnValue::PrintableString(ascii_text(alloc, octets)?))
    } else if tag == Tag::TELETEX_STRING {
        Ok(DnValue::TeletexString(ascii_text(alloc, octets)?))
    } else if tag == Tag::IA5_STRING {
        Ok(DnValue::Ia5String(ascii_text(alloc, octets)?))
    } else if tag == Tag::UNIVERSAL_STRING {
        Ok(DnValue::UniversalString(universal_text(alloc, octets)?))
    } else if tag == Tag::BMP_STRING {
        Ok(DnValue::BmpString(bmp_text(alloc, octets)?))
    } else {
        Err(Error::CouldNotParseCertificate)
    }
}

/// The text that a window shows.
fn text_of_window(alloc: Global, window: Window<'_>) -> Result<DnValue, Error>
    ensures { ReadsAs text_of (read_text (shown window.entry)) result }
{
    if window.is_constructed() {
        return Err(Error::CouldNotParseCertificate);
    }
    text_of_contents(alloc, window.tag(), window.content())
}

/// The attribute, its type by its arcs.
fn attribute(alloc: Global, attribute: &AttributeTypeAndValue) -> Result<(DnType, DnValue), Error>
    ensures { ReadsAs entry_of (read_attribute attribute.now) result }
{
    let Some(window) = one_window(attribute.value.as_bytes()) else {
        return Err(Error::CouldNotParseCertificate);
    };
    let value = text_of_window(alloc, window)?;
    let arcs = wide_arcs(alloc, &attribute.attr_type)?;
    let ty = DnType::from_oid(alloc, arcs.as_slice())?;
    Ok((ty, value))
}

/// The one attribute of a part.
fn only_attribute(
    alloc: Global,
    attributes: &[AttributeTypeAndValue],
) -> Result<(DnType, DnValue), Error>
    ensures { ReadsAs entry_of (read_attributes attributes.now) result }
{
    match attributes {
        [only] => attribute(alloc, only),
        _ => Err(Error::CouldNotParseCertificate),
    }
}

/// The attributes of the parts in order.
fn entries(
    alloc: Global,
    parts: &[RelativeDistinguishedName],
) -> Result<Vec<(DnType, DnValue)>, Error>
    ensures { ReadsAs (λ read. entries_of read.items) (read_entries parts.now) result }
{
    let mut read = Vec::new(alloc);
    for part in parts {
        read.push(only_attribute(alloc, part.0.as_slice())?)?;
    }
    Ok(read)
}

/// The name of this value. Each part has to have exactly one attribute, whose value is a text of one
/// of the six types; a type that occurs twice keeps its first place and gets its last value. The
/// first part that is otherwise is refused with `CouldNotParseCertificate`, or `InvalidAsn1String`
/// where a text has a character that its type lacks.
pub(crate) fn distinguished_name(alloc: Global, name: &Name) -> Result<DistinguishedName, Error>
    ensures read { ReadsAs (λ n. n) (read_name name.now) result }
{
    let Name::RdnSequence(parts) = name;
    let entries = entries(alloc, parts.as_slice())?;
    DistinguishedName::from_entries(alloc, entries)
}
