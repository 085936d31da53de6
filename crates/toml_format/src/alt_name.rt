//! An alternative name as text: its kind, a colon, and what the kind takes (RFC 5280, 4.2.1.6).
ghost use Rattle.std.specs.Prelude.{◌≡◌, IfOk};
ghost use Rattle.std.specs.Option.{option_map};
ghost use Rattle.toml_format.specs.Addresses.{address};
ghost use Rattle.toml_format.specs.AltName.{alt_name, alt_name_of, other_name};
ghost use Rattle.toml_format.specs.Values.{text_as};
ghost use Rattle.toml_format.specs.declared.alt_name.AltName.TheVariants.{Ip};

use crate::arcs::{Arcs, arcs_of};
use crate::from_value::{FromText, FromValue, text_as};
use crate::reason::Reason;
use crate::restricted::ascii_text;
use crate::separator::at_separator;
use crate::text::Text;
use rcgen_text::IpAddr;
use rcgen_text::string::Ia5String;
use std::alloc::{AllocError, Global};
use toml::Value;

/// An alternative name (RFC 5280, 4.2.1.6).
#[derive(Drop)]
pub enum AltName {
    /// A DNS name.
    Dns(Ia5String),
    /// A mailbox.
    Email(Ia5String),
    /// A URI.
    Uri(Ia5String),
    /// An address.
    Ip(IpAddr),
    /// A name of another type: its arcs and its text.
    Other(Arcs, Text),
}

/// The name given after `other:`.
#[tactic(auto, unfolding(crate::specs::AltName::other_name))]
fn other_name(alloc: Global, text: &str) -> Result<Option<AltName>, AllocError>
    ensures { IfOk result (λ found. found ≡ other_name text.now) }
{
    let Some((oid, separator, text)) = at_separator(text) else {
        return Ok(None);
    };
    let Some(oid) = arcs_of(alloc, oid.as_bytes())? else {
        return Ok(None);
    };
    if separator == b':' {
        Ok(Some(AltName::Other(oid, Text::copy(alloc, text)?)))
    } else {
        Ok(None)
    }
}

/// The address that the text is of.
#[tactic(auto, using(crate::proofs::Addresses::is_address))]
fn ip_name(text: &str) -> Option<AltName>
    ensures { result ≡ option_map Ip (address.value_of text.now) }
{
    IpAddr::parse(text).map(AltName::Ip)
}

/// The name of this kind.
#[tactic(auto, unfolding(crate::specs::AltName::alt_name_of))]
fn alt_name_of(alloc: Global, kind: &str, text: &str) -> Result<Option<AltName>, AllocError>
    ensures { IfOk result (λ found. found ≡ alt_name_of kind.now text.now) }
{
    match kind {
        "dns" => Ok(ascii_text(alloc, text)?.map(AltName::Dns)),
        "email" => Ok(ascii_text(alloc, text)?.map(AltName::Email)),
        "uri" => Ok(ascii_text(alloc, text)?.map(AltName::Uri)),
        "ip" => Ok(ip_name(text)),
        "other" => other_name(alloc, text),
        _ => Ok(None),
    }
}

impl FromText for AltName {
    ghost from_text = { alt_name };

    #[tactic(auto, unfolding(crate::specs::AltName::alt_name))]
    fn from_text(alloc: Global, text: &str) -> Result<Option<AltName>, AllocError> {
        let Some((kind, separator, text)) = at_separator(text) else {
            return Ok(None);
        };
        if separator == b':' {
            alt_name_of(alloc, kind, text)
        } else {
            Ok(None)
        }
    }
}

impl FromValue for AltName {
    ghost format = { text_as alt_name };

    fn from_value(alloc: Global, value: &Value) -> Result<Result<AltName, Reason>, AllocError> {
        text_as(alloc, value)
    }
}
