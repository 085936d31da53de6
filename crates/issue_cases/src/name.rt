//! The name that a word says, and the lines of names.
use crate::lines::push_line;
use crate::words::arcs;
use rcgen_issue::string::{BmpString, Ia5String, PrintableString, TeletexString, UniversalString};
use rcgen_issue::{DistinguishedName, DnType, DnValue, IpAddr, OtherNameValue, SanType};
use std::alloc::{AllocError, Global};

fn utf8(alloc: Global, text: &str) -> Option<DnValue> {
    Some(DnValue::from(text.to_string(alloc).ok()?))
}

fn value(alloc: Global, kind: &str, text: &str) -> Option<DnValue> {
    match kind {
        "bmp" => Some(DnValue::BmpString(BmpString::try_from_str(alloc, text).ok()?)),
        "ia5" => Some(DnValue::Ia5String(Ia5String::try_from_str(alloc, text).ok()?)),
        "printable" => Some(DnValue::PrintableString(PrintableString::try_from_str(
            alloc, text,
        ).ok()?)),
        "teletex" => Some(DnValue::TeletexString(TeletexString::try_from_str(alloc, text).ok()?)),
        "universal" => Some(DnValue::UniversalString(UniversalString::try_from_str(
            alloc, text,
        ).ok()?)),
        "utf8" => utf8(alloc, text),
        _ => None,
    }
}

// The type by its own name, where it has one, or after `!` by its arcs.
fn kind(alloc: Global, text: &str) -> Option<DnType> {
    match text.strip_prefix("!") {
        Some(text) => Some(DnType::CustomDnType(arcs(alloc, text)?)),
        None => DnType::from_oid(alloc, arcs(alloc, text)?.as_slice()).ok(),
    }
}

fn copied(alloc: Global, form: &str, text: &str) -> Option<DnValue> {
    let value = value(alloc, form, text)?;
    value.try_clone(alloc).ok()
}

fn push_attribute(alloc: Global, name: &mut DistinguishedName, text: &str) -> Option<()> {
    let Some((ty, text)) = text.split_once(':') else {
        return name.push(DnType::CommonName, utf8(alloc, text)?).ok();
    };
    match text.split_once(':') {
        Some((form, text)) => name.push(kind(alloc, ty)?, copied(alloc, form, text)?).ok(),
        None => name
            .push(DnType::CustomDnType(arcs(alloc, ty)?), utf8(alloc, text)?)
            .ok(),
    }
}

/// Attributes between commas: a common name; a type in arcs and a text, with `:` between them; or a type in arcs, a
/// kind of text, as `utf8`, and the text, whose value is then a copy, and whose type is the one of arcs, whatever they
/// are, only after `!`.
pub fn name(alloc: Global, list: &str) -> Option<DistinguishedName> {
    let mut name = DistinguishedName::new(alloc);
    for text in list.split(',') {
        if !text.is_empty() {
            push_attribute(alloc, &mut name, text)?;
        }
    }
    Some(name)
}

// As which a value is written, and its text, or its octets.
fn value_text(alloc: Global, value: &DnValue) -> Result<String, AllocError> {
    match value {
        DnValue::BmpString(text) => format!(in alloc; "bmp {:?}", text.as_bytes()),
        DnValue::Ia5String(text) => format!(in alloc; "ia5 {:?}", text.as_str()),
        DnValue::PrintableString(text) => format!(in alloc; "printable {:?}", text.as_str()),
        DnValue::TeletexString(text) => format!(in alloc; "teletex {:?}", text.as_str()),
        DnValue::UniversalString(text) => format!(in alloc; "universal {:?}", text.as_bytes()),
        DnValue::Utf8String(text) => format!(in alloc; "utf8 {:?}", text.as_str()),
    }
}

/// A line for each attribute: its type's arcs, as which its value is written, and its text.
pub fn push_name(
    alloc: Global,
    text: &mut String,
    name: &DistinguishedName,
) -> Result<(), AllocError> {
    for (kind, value) in name.entries() {
        let value = value_text(alloc, value)?;
        let line = format!(in alloc; "attribute {:?} {value}", kind.oid())?;
        push_line(text, line.as_str())?;
    }
    Ok(())
}

// Which alternative name it is, and its text.
fn alternative_text(alloc: Global, name: &SanType) -> Result<String, AllocError> {
    match name {
        SanType::Rfc822Name(text) => format!(in alloc; "name email {:?}", text.as_str()),
        SanType::DnsName(text) => format!(in alloc; "name dns {:?}", text.as_str()),
        SanType::URI(text) => format!(in alloc; "name uri {:?}", text.as_str()),
        SanType::IpAddress(IpAddr::V4(octets)) => format!(in alloc; "name ip {octets:?}"),
        SanType::IpAddress(IpAddr::V6(octets)) => format!(in alloc; "name ip {octets:?}"),
        SanType::OtherName((arcs, OtherNameValue::Utf8String(text))) => format!(in alloc;
            "name other {arcs:?} {:?}",
            text.as_str()
        ),
    }
}

/// A line for each alternative name.
pub fn push_alternatives(
    alloc: Global,
    text: &mut String,
    names: &[SanType],
) -> Result<(), AllocError> {
    for name in names {
        let line = alternative_text(alloc, name)?;
        push_line(text, line.as_str())?;
    }
    Ok(())
}
