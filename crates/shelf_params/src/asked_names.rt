//! The subject and the alternative names that a request asks for.
ghost use Rattle.std.specs.Prelude.{◌≡◌, true, map};
ghost use Rattle.std.specs.Char.{is_ascii};
ghost use Rattle.std.specs.List.{list_all, list_any};
ghost use Rattle.pkix_name.specs.Characters.{codes_of};
ghost use Rattle.rcgen_text.specs.AlternativeNames.{alternative_name};
ghost use Rattle.shelf_fault.specs.Faults.{Passes};
ghost use Rattle.shelf_params.specs.AskedNames.{attributes_shown, directory_shown, ia5_shown, parts_shown, shown, subject_is_shown, teletex_shown, value_shown};
ghost use Rattle.shelf_params.specs.AskedNames.{is_of_its_kind, names_of_their_kinds};
ghost use Rattle.shelf_params.specs.AskedNames.{is_visible, is_visible_character, is_visible_name, visible_names};
ghost use Rattle.shown_text.specs.Hidden.{is_hidden};

use asn1_core::Ia5String;
use der_tree::der;
use host_name::{is_absolute, is_host, is_mailbox};
use pkix_name::{
    AttributeTypeAndValue, Characters, DirectoryString, Name, RelativeDistinguishedName,
    utf8_characters,
};
use rcgen_issue::SanType;
use rcgen_text::OtherNameValue;
use shelf_fault::Fault;
use shown_text::is_hidden_code;
use std::alloc::Global;

fn is_visible_character(c: u8) -> bool
    ensures { result ≡ is_visible_character c }
{
    b' ' < c && c < 127
}

fn are_visible_characters(text: &[u8]) -> bool
    ensures { result ≡ list_all is_visible_character text.now }
{
    text.iter().all(|c| is_visible_character(*c))
}

/// Whether the text has characters, all of them visible ones of ASCII.
pub(crate) fn is_visible(text: &[u8]) -> bool
    ensures { result ≡ is_visible text.now }
{
    !text.is_empty() && are_visible_characters(text)
}

/// Whether one of the characters that are left is hidden.
fn some_hidden(characters: Characters<'_>) -> bool
    ensures { result ≡ list_any is_hidden (codes_of characters.entry) }
{
    for character in characters {
        if is_hidden_code(character) {
            return true;
        }
    }
    false
}

/// Whether the name's text, if it is a mailbox, DNS name or URI, is visible, and that of another name has
/// no hidden character.
fn is_visible_name(name: &SanType) -> bool
    ensures { result ≡ is_visible_name (alternative_name name.now) }
{
    match name {
        SanType::Rfc822Name(text) => is_visible(text.as_str().as_bytes()),
        SanType::DnsName(text) => is_visible(text.as_str().as_bytes()),
        SanType::URI(text) => is_visible(text.as_str().as_bytes()),
        SanType::IpAddress(_) => true,
        SanType::OtherName((_, OtherNameValue::Utf8String(text))) => {
            !some_hidden(Characters::Utf8(text.as_str()))
        }
    }
}

fn are_visible_names(names: &[SanType]) -> bool
    ensures { result ≡ list_all (λ n. is_visible_name (alternative_name n)) names.now }
{
    names.iter().all(|name| is_visible_name(name))
}

/// Refuses names that are taken and whose texts aren't visible: no verifier takes them as they are meant.
#[tactic(auto, using(crate::proofs::VisibleNames::names_seen))]
pub(crate) fn visible_names(is_taken: bool, names: &[SanType]) -> Result<(), Fault>
    ensures { Passes (visible_names is_taken (map alternative_name names.now)) result }
{
    if is_taken && !are_visible_names(names) {
        return Err(Fault::RequestName);
    }
    Ok(())
}

/// Whether a DNS name is a host's, a mailbox has one and a URI isn't relative (RFC 5280, 4.2.1.6).
fn is_of_its_kind(name: &SanType) -> bool
    ensures { result ≡ is_of_its_kind (alternative_name name.now) }
{
    match name {
        SanType::DnsName(text) => is_host(text.as_str().as_bytes()),
        SanType::Rfc822Name(text) => is_mailbox(text.as_str().as_bytes()),
        SanType::URI(text) => is_absolute(text.as_str().as_bytes()),
        SanType::IpAddress(_) => true,
        SanType::OtherName((_, OtherNameValue::Utf8String(_))) => true,
    }
}

fn are_of_their_kinds(names: &[SanType]) -> bool
    ensures { result ≡ list_all (λ n. is_of_its_kind (alternative_name n)) names.now }
{
    names.iter().all(|name| is_of_its_kind(name))
}

/// Refuses names that are taken and don't have the form of their kind.
#[tactic(auto, using(crate::proofs::VisibleNames::names_kept))]
pub(crate) fn names_of_their_kinds(is_taken: bool, names: &[SanType]) -> Result<(), Fault>
    ensures { Passes (names_of_their_kinds is_taken (map alternative_name names.now)) result }
{
    if is_taken && !are_of_their_kinds(names) {
        return Err(Fault::RequestNameForm);
    }
    Ok(())
}

/// Refuses characters of which one is hidden, which no reader shows.
fn shown(characters: Characters<'_>) -> Result<(), Fault>
    ensures { Passes (shown (codes_of characters.entry)) result }
{
    if some_hidden(characters) {
        return Err(Fault::RequestSubject);
    }
    Ok(())
}

fn are_ascii(octets: &[u8]) -> bool
    ensures { result ≡ list_all is_ascii octets.now }
{
    octets.iter().all(|octet| octet.is_ascii())
}

/// Refuses a TeletexString with other octets than those of ASCII, whose characters aren't known, too.
#[tactic(auto, unfolding(crate::specs::AskedNames::teletex_shown))]
fn teletex_shown(octets: &[u8]) -> Result<(), Fault>
    ensures { Passes (teletex_shown octets.now) result }
{
    if are_ascii(octets) {
        shown(Characters::Octets(octets))
    } else {
        Err(Fault::NameNotKept)
    }
}

#[tactic(auto, unfolding(crate::specs::AskedNames::directory_shown))]
fn directory_shown(text: &DirectoryString) -> Result<(), Fault>
    ensures { Passes (directory_shown text.now) result }
{
    match text {
        DirectoryString::Teletex(text) => teletex_shown(text.as_bytes()),
        DirectoryString::Printable(text) => shown(Characters::Octets(text.as_bytes())),
        DirectoryString::Universal(text) => shown(Characters::Quads(text.as_bytes())),
        DirectoryString::Utf8(text) => shown(utf8_characters(text.as_bytes())),
        DirectoryString::Bmp(text) => shown(Characters::Pairs(text.as_bytes())),
    }
}

#[tactic(auto, unfolding(crate::specs::AskedNames::ia5_shown))]
fn ia5_shown(alloc: Global, octets: &[u8]) -> Result<(), Fault>
    ensures { Passes (ia5_shown octets.now) result }
{
    match der::value_of::<Ia5String>(alloc, octets)? {
        Some(text) => shown(Characters::Octets(text.as_bytes())),
        None => Err(Fault::NameNotKept),
    }
}

/// Refuses a value that isn't a text, or has a hidden character.
#[tactic(auto, unfolding(crate::specs::AskedNames::value_shown))]
fn value_shown(alloc: Global, octets: &[u8]) -> Result<(), Fault>
    ensures { Passes (value_shown octets.now) result }
{
    match der::value_of::<DirectoryString>(alloc, octets)? {
        Some(text) => directory_shown(&text),
        None => ia5_shown(alloc, octets),
    }
}

fn attributes_shown(alloc: Global, attributes: &[AttributeTypeAndValue]) -> Result<(), Fault>
    ensures { Passes (attributes_shown attributes.now) result }
{
    for attribute in attributes {
        value_shown(alloc, attribute.value.as_bytes())?;
    }
    Ok(())
}

fn parts_shown(alloc: Global, parts: &[RelativeDistinguishedName]) -> Result<(), Fault>
    ensures { Passes (parts_shown parts.now) result }
{
    for part in parts {
        attributes_shown(alloc, part.0.as_slice())?;
    }
    Ok(())
}

/// Refuses a subject that is taken and has a value that isn't a text, or a hidden character.
pub(crate) fn subject_is_shown(alloc: Global, is_taken: bool, name: &Name) -> Result<(), Fault>
    ensures { Passes (subject_is_shown is_taken name.now) result }
{
    if !is_taken {
        return Ok(());
    }
    let Name::RdnSequence(parts) = name;
    parts_shown(alloc, parts.as_slice())
}
