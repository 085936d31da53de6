//! Fields of what is signed, each read alone.
ghost use Rattle.std.specs.Prelude.{◌≡◌, ◌++◌, OnOk};
ghost use Rattle.shelf_explain.specs.FieldParts.{algorithm_at, attribute_at, entry_at, extensions_inside, field_lines, lines_at, listed, listed_parts, octets_at, other_at, part_line, serial_at, times_at, title, version_at, version_inside, written_version};
ghost use Rattle.shelf_explain.specs.NameParts.{name_at};

use crate::block::{LINE, ShowLines, push_unreadable_part};
use crate::extension_part::ExtensionPart;
use crate::key::push_full_algorithm;
use crate::line::push_key;
use crate::name::push_hex_value;
use crate::name_part::push_name_at;
use crate::number::push_serial;
use crate::part::{Part, Parts};
use crate::part_text::{ShowPart, push_parts, push_read_at, push_spread, push_unreadable_at};
use crate::show::ShowText;
use asn1_core::{BitString, Integer};
use der_tree::{DerType, SequenceOf, der};
use pkix_attr::{Holder, Issuer};
use pkix_cert::{
    AlgorithmIdentifier, Attribute, RevokedCertificate, SubjectPublicKeyInfo, Time, Version,
};
use std::alloc::{AllocError, Global};

/// What a field is.
#[derive(Clone, Copy)]
pub(crate) enum Field {
    /// A version, as a number.
    Number,
    TaggedVersion,
    Serial,
    Algorithm,
    Name,
    Time,
    Times,
    Key,
    Octets,
    Bits,
    Extensions,
    TaggedExtensions,
    Entries,
    Attributes,
    Holder,
    Issuer,
}

#[tactic(auto, unfolding(crate::specs::FieldParts::written_version))]
fn push_written_version(
    alloc: Global,
    lines: &mut Vec<u8>,
    version: &Version,
) -> Result<(), AllocError>
    ensures { OnOk result (lines.new.items ≡ lines.old.items ++ written_version version.now) }
{
    if version.raw_value() == 0 {
        lines.extend_from_slice(b"1 (the default, which is left out: X.690, 11.5)")
    } else {
        version.push_onto(alloc, lines)
    }
}

/// Pushes a version, 1 of which is never written (RFC 5280, 4.1.2.1; X.690, 11.5).
#[tactic(auto, unfolding(crate::specs::FieldParts::version_at, crate::specs::FieldParts::version_or_unreadable))]
fn push_version_at(alloc: Global, lines: &mut Vec<u8>, part: &Part<'_>) -> Result<(), AllocError>
    ensures { OnOk result (lines.new.items ≡ lines.old.items ++ version_at part.now) }
{
    let Some(version) = der::value_of::<Version>(alloc, part.octets())? else {
        return push_unreadable_at(alloc, lines, part);
    };
    push_written_version(alloc, lines, &version)?;
    Ok(())
}

#[tactic(auto, unfolding(crate::specs::FieldParts::version_inside, crate::specs::FieldParts::version_within))]
fn push_version_inside(
    alloc: Global,
    lines: &mut Vec<u8>,
    part: &Part<'_>,
) -> Result<(), AllocError>
    ensures { OnOk result (lines.new.items ≡ lines.old.items ++ version_inside part.now) }
{
    let Some(version) = part.inside() else {
        return push_unreadable_at(alloc, lines, part);
    };
    push_version_at(alloc, lines, &version)
}

#[tactic(auto, unfolding(crate::specs::FieldParts::serial_at, crate::specs::FieldParts::serial_or_unreadable))]
fn push_serial_at(alloc: Global, lines: &mut Vec<u8>, part: &Part<'_>) -> Result<(), AllocError>
    ensures { OnOk result (lines.new.items ≡ lines.old.items ++ serial_at part.now) }
{
    let Some(serial) = der::value_of::<Integer>(alloc, part.octets())? else {
        return push_unreadable_at(alloc, lines, part);
    };
    push_serial(alloc, lines, &serial)?;
    Ok(())
}

#[tactic(auto, unfolding(crate::specs::FieldParts::algorithm_at, crate::specs::FieldParts::algorithm_or_unreadable))]
fn push_algorithm_at(alloc: Global, lines: &mut Vec<u8>, part: &Part<'_>) -> Result<(), AllocError>
    ensures { OnOk result (lines.new.items ≡ lines.old.items ++ algorithm_at part.now) }
{
    let Some(algorithm) = der::value_of::<AlgorithmIdentifier>(alloc, part.octets())? else {
        return push_unreadable_at(alloc, lines, part);
    };
    push_full_algorithm(alloc, lines, &algorithm)?;
    Ok(())
}

/// Pushes the lines of the value whose DER encoding a part is.
#[tactic(auto, unfolding(crate::specs::FieldParts::lines_at, crate::specs::FieldParts::lines_or_unreadable))]
fn push_lines_at<T: DerType + ShowLines + Drop>(
    alloc: Global,
    lines: &mut Vec<u8>,
    name: &[u8],
    part: &Part<'_>,
) -> Result<(), AllocError>
    ensures { OnOk result (lines.new.items ≡ lines.old.items ++ lines_at T.codec T.written name.now part.now) }
{
    let Some(value) = der::value_of::<T>(alloc, part.octets())? else {
        return push_unreadable_part(alloc, lines, LINE, name, part);
    };
    value.push_lines(alloc, lines)?;
    Ok(())
}

/// An entry of a list of revoked certificates.
pub(crate) struct EntryPart;

impl ShowPart for EntryPart {
    ghost part_text = { entry_at };

    #[tactic(auto, unfolding(crate::specs::FieldParts::entry_at))]
    fn push_part(alloc: Global, lines: &mut Vec<u8>, part: &Part<'_>) -> Result<(), AllocError> {
        push_lines_at::<RevokedCertificate>(alloc, lines, b"  entry", part)
    }
}

/// An attribute of a request or of an attribute certificate.
pub(crate) struct AttributePart;

impl ShowPart for AttributePart {
    ghost part_text = { attribute_at };

    #[tactic(auto, unfolding(crate::specs::FieldParts::attribute_at))]
    fn push_part(alloc: Global, lines: &mut Vec<u8>, part: &Part<'_>) -> Result<(), AllocError> {
        push_lines_at::<Attribute>(alloc, lines, b"attribute", part)
    }
}

/// An element that is no field.
pub(crate) struct OtherPart;

impl ShowPart for OtherPart {
    ghost part_text = { other_at };

    #[tactic(auto, unfolding(crate::specs::FieldParts::other_at))]
    fn push_part(alloc: Global, lines: &mut Vec<u8>, part: &Part<'_>) -> Result<(), AllocError> {
        push_unreadable_part(alloc, lines, LINE, b"unexpected element", part)
    }
}

#[tactic(auto, unfolding(crate::specs::FieldParts::title))]
fn push_title(lines: &mut Vec<u8>, name: &[u8]) -> Result<(), AllocError>
    ensures { OnOk result (lines.new.items ≡ lines.old.items ++ title name.now) }
{
    lines.extend_from_slice(LINE)?;
    lines.extend_from_slice(name)?;
    lines.extend_from_slice(b":\n")?;
    Ok(())
}

#[tactic(auto, unfolding(crate::specs::FieldParts::listed_parts))]
fn push_listed_parts<P: ShowPart>(
    alloc: Global,
    lines: &mut Vec<u8>,
    name: &[u8],
    parts: Parts<'_>,
) -> Result<(), AllocError>
    ensures { OnOk result (lines.new.items ≡ lines.old.items ++ listed_parts name.now P.part_text parts.entry) }
{
    push_title(lines, name)?;
    push_parts::<P>(alloc, lines, b"", parts)?;
    Ok(())
}

/// Pushes what is within a part, under a title.
#[tactic(auto, unfolding(crate::specs::FieldParts::listed, crate::specs::FieldParts::listed_or_unreadable))]
fn push_listed<P: ShowPart>(
    alloc: Global,
    lines: &mut Vec<u8>,
    name: &[u8],
    part: &Part<'_>,
) -> Result<(), AllocError>
    ensures { OnOk result (lines.new.items ≡ lines.old.items ++ listed name.now P.part_text part.now) }
{
    let Some(parts) = part.parts() else {
        return push_unreadable_part(alloc, lines, LINE, name, part);
    };
    push_listed_parts::<P>(alloc, lines, name, parts)
}

#[tactic(auto, unfolding(crate::specs::FieldParts::extensions_inside, crate::specs::FieldParts::extensions_within))]
fn push_extensions_inside(
    alloc: Global,
    lines: &mut Vec<u8>,
    name: &[u8],
    part: &Part<'_>,
) -> Result<(), AllocError>
    ensures { OnOk result (lines.new.items ≡ lines.old.items ++ extensions_inside name.now part.now) }
{
    let Some(list) = part.inside() else {
        return push_unreadable_part(alloc, lines, LINE, name, part);
    };
    push_listed::<ExtensionPart>(alloc, lines, name, &list)
}

/// A version within an explicit tag.
struct TaggedVersionPart;

impl ShowPart for TaggedVersionPart {
    ghost part_text = { version_inside };

    fn push_part(alloc: Global, lines: &mut Vec<u8>, part: &Part<'_>) -> Result<(), AllocError> {
        push_version_inside(alloc, lines, part)
    }
}

/// A serial number.
struct SerialPart;

impl ShowPart for SerialPart {
    ghost part_text = { serial_at };

    fn push_part(alloc: Global, lines: &mut Vec<u8>, part: &Part<'_>) -> Result<(), AllocError> {
        push_serial_at(alloc, lines, part)
    }
}

/// An algorithm.
struct AlgorithmPart;

impl ShowPart for AlgorithmPart {
    ghost part_text = { algorithm_at };

    fn push_part(alloc: Global, lines: &mut Vec<u8>, part: &Part<'_>) -> Result<(), AllocError> {
        push_algorithm_at(alloc, lines, part)
    }
}

/// A name.
struct NamePart;

impl ShowPart for NamePart {
    ghost part_text = { name_at };

    fn push_part(alloc: Global, lines: &mut Vec<u8>, part: &Part<'_>) -> Result<(), AllocError> {
        push_name_at(alloc, lines, part)
    }
}

/// Times one after the other.
struct TimesPart;

impl ShowPart for TimesPart {
    ghost part_text = { times_at };

    #[tactic(auto, unfolding(crate::specs::FieldParts::times_at))]
    fn push_part(alloc: Global, lines: &mut Vec<u8>, part: &Part<'_>) -> Result<(), AllocError> {
        push_spread::<SequenceOf<Time>>(alloc, lines, part)
    }
}

/// Octets that are shown as they are.
pub(crate) struct OctetsPart;

impl ShowPart for OctetsPart {
    ghost part_text = { octets_at };

    #[tactic(auto, unfolding(crate::specs::FieldParts::octets_at))]
    fn push_part(alloc: Global, lines: &mut Vec<u8>, part: &Part<'_>) -> Result<(), AllocError> {
        push_hex_value(alloc, lines, part.octets())
    }
}

/// Pushes the line of a field.
#[tactic(auto, unfolding(crate::specs::FieldParts::part_line, crate::specs::Lines::line))]
pub(crate) fn push_part_line<P: ShowPart>(
    alloc: Global,
    lines: &mut Vec<u8>,
    name: &[u8],
    part: &Part<'_>,
) -> Result<(), AllocError>
    ensures { OnOk result (lines.new.items ≡ lines.old.items ++ part_line name.now P.part_text part.now) }
{
    push_key(lines, LINE, name)?;
    P::push_part(alloc, lines, part)?;
    lines.push(b'\n')?;
    Ok(())
}

/// Pushes the lines of a field.
#[tactic(auto, unfolding(crate::specs::FieldParts::field_lines))]
pub(crate) fn push_field(
    alloc: Global,
    lines: &mut Vec<u8>,
    field: Field,
    name: &[u8],
    part: &Part<'_>,
) -> Result<(), AllocError>
    ensures { OnOk result (lines.new.items ≡ lines.old.items ++ field_lines field name.now part.now) }
{
    match field {
        Field::Number => push_part_line::<SequenceOf<Version>>(alloc, lines, name, part),
        Field::TaggedVersion => push_part_line::<TaggedVersionPart>(alloc, lines, name, part),
        Field::Serial => push_part_line::<SerialPart>(alloc, lines, name, part),
        Field::Algorithm => push_part_line::<AlgorithmPart>(alloc, lines, name, part),
        Field::Name => push_part_line::<NamePart>(alloc, lines, name, part),
        Field::Time => push_part_line::<SequenceOf<Time>>(alloc, lines, name, part),
        Field::Times => push_part_line::<TimesPart>(alloc, lines, name, part),
        Field::Key => push_lines_at::<SubjectPublicKeyInfo>(alloc, lines, name, part),
        Field::Octets => push_part_line::<OctetsPart>(alloc, lines, name, part),
        Field::Bits => push_part_line::<SequenceOf<BitString>>(alloc, lines, name, part),
        Field::Extensions => push_listed::<ExtensionPart>(alloc, lines, name, part),
        Field::TaggedExtensions => push_extensions_inside(alloc, lines, name, part),
        Field::Entries => push_listed::<EntryPart>(alloc, lines, name, part),
        Field::Attributes => push_listed::<AttributePart>(alloc, lines, name, part),
        Field::Holder => push_lines_at::<Holder>(alloc, lines, name, part),
        Field::Issuer => push_lines_at::<Issuer>(alloc, lines, name, part),
    }
}
