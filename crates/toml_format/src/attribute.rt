//! An attribute of a name as text: `TYPE=value` or `TYPE:KIND=value` (RFC 5280, 4.1.2.4).
ghost use Rattle.std.specs.Prelude.{◌≡◌, IfOk};
ghost use Rattle.std.specs.Option.{option_map};
ghost use Rattle.rcgen_text.specs.DnTypes.{kind_of};
ghost use Rattle.rcgen_text.specs.DnValues.{text_of};
ghost use Rattle.rcgen_text.specs.Names.{entry_of};
ghost use Rattle.toml_format.specs.Attribute.{attribute, attribute_type, text_of_kind, value_of};
ghost use Rattle.toml_format.specs.Values.{text_as};

use crate::arcs::arcs_of;
use crate::from_value::{FromText, FromValue, text_as};
use crate::reason::Reason;
use crate::restricted::{ascii_text, bmp_text, made};
use crate::separator::at_separator;
use rcgen_text::string::UniversalString;
use rcgen_text::{DnType, DnValue};
use std::alloc::{AllocError, Global};
use std::marker::Model;
use toml::Value;

/// An entry of a name (RFC 5280, 4.1.2.4), as `TYPE=value` or `TYPE:KIND=value`.
pub struct Attribute {
    dn_type: DnType,
    value: DnValue,
}

impl Model for Attribute {
    ghost use Rattle.rcgen_text.specs.Names.{Entry, entry_of};

    ghost Value = { Entry };

    ghost view = { λ a. entry_of (a.dn_type, a.value) };
}

impl Drop for Attribute {
    fn drop(self) {
        let Attribute {
            dn_type: _,
            value: _,
        } = self;
    }
}

impl Attribute {
    /// The type and the value, without a copy.
    pub fn into_entry(self) -> (DnType, DnValue)
        ensures { entry_of result ≡ self }
    {
        let Attribute { dn_type, value } = self;
        (dn_type, value)
    }
}

/// The type that a word or arcs represent.
#[tactic(auto, unfolding(crate::specs::Attribute::attribute_type))]
fn attribute_type(alloc: Global, text: &str) -> Result<Option<DnType>, AllocError>
    ensures { IfOk result (λ found. option_map kind_of found ≡ attribute_type text.now) }
{
    match text {
        "C" => Ok(Some(DnType::CountryName)),
        "L" => Ok(Some(DnType::LocalityName)),
        "ST" => Ok(Some(DnType::StateOrProvinceName)),
        "O" => Ok(Some(DnType::OrganizationName)),
        "OU" => Ok(Some(DnType::OrganizationalUnitName)),
        "CN" => Ok(Some(DnType::CommonName)),
        _ => match arcs_of(alloc, text.as_bytes())? {
            Some(arcs) => made(DnType::from_oid(alloc, arcs.into_vec().as_slice())),
            None => Ok(None),
        },
    }
}

/// A value of the kind that a word represents, where the text has only that kind's characters.
#[tactic(auto, unfolding(crate::specs::Attribute::text_of_kind))]
fn text_of_kind(alloc: Global, kind: &str, text: &str) -> Result<Option<DnValue>, AllocError>
    ensures { IfOk result (λ found. option_map text_of found ≡ text_of_kind kind.now text.now) }
{
    match kind {
        "bmp" => Ok(bmp_text(alloc, text)?.map(DnValue::BmpString)),
        "ia5" => Ok(ascii_text(alloc, text)?.map(DnValue::Ia5String)),
        "printable" => Ok(ascii_text(alloc, text)?.map(DnValue::PrintableString)),
        "teletex" => Ok(ascii_text(alloc, text)?.map(DnValue::TeletexString)),
        "universal" => {
            let value = made(UniversalString::try_from_str(alloc, text))?;
            Ok(value.map(DnValue::UniversalString))
        }
        "utf8" => Ok(Some(DnValue::Utf8String(String::from_str(alloc, text)?))),
        _ => Ok(None),
    }
}

/// The value after the type and a separator.
#[tactic(auto, unfolding(crate::specs::Attribute::value_of))]
fn value_of(alloc: Global, separator: u8, text: &str) -> Result<Option<DnValue>, AllocError>
    ensures { IfOk result (λ found. option_map text_of found ≡ value_of separator text.now) }
{
    if separator == b'=' {
        return Ok(Some(DnValue::Utf8String(String::from_str(alloc, text)?)));
    }
    let Some((kind, separator, text)) = at_separator(text) else {
        return Ok(None);
    };
    if separator == b'=' {
        text_of_kind(alloc, kind, text)
    } else {
        Ok(None)
    }
}

impl FromText for Attribute {
    ghost from_text = { attribute };

    #[tactic(auto, unfolding(crate::specs::Attribute::attribute))]
    fn from_text(alloc: Global, text: &str) -> Result<Option<Attribute>, AllocError> {
        let Some((name, separator, text)) = at_separator(text) else {
            return Ok(None);
        };
        let Some(dn_type) = attribute_type(alloc, name)? else {
            return Ok(None);
        };
        match value_of(alloc, separator, text)? {
            Some(value) => Ok(Some(Attribute { dn_type, value })),
            None => Ok(None),
        }
    }
}

impl FromValue for Attribute {
    ghost format = { text_as attribute };

    fn from_value(alloc: Global, value: &Value) -> Result<Result<Attribute, Reason>, AllocError> {
        text_as(alloc, value)
    }
}
