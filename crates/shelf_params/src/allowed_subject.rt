//! Which names of hosts and mailboxes a subject may have that is taken from a request.
ghost use Rattle.std.specs.Prelude.{◌≡◌, Err, [], nat_eq};
ghost use Rattle.std.specs.List.{list_any};
ghost use Rattle.rcgen_text.specs.AlternativeNames.{dns_name, rfc822_name};
ghost use Rattle.shelf_fault.specs.Faults.{Passes};
ghost use Rattle.shelf_fault.specs.declared.fault.Fault.TheVariants.{SubjectNotAllowed};
ghost use Rattle.shelf_params.specs.Allowed.{is_allowed};
ghost use Rattle.shelf_params.specs.AllowedSubjects.{address_allowed, attribute_allowed, attributes_allowed, common_name_allowed, is_email_address, parts_allowed, string_allowed, subject_allowed, text_allowed, written_name};

use crate::allowed::is_host_allowed;
use crate::asked_names::is_visible;
use crate::common_names::is_common_name;
use asn1_core::{Ia5String, OctetString};
use der_tree::der;
use path_names::mail_within;
use pkix_name::{AttributeTypeAndValue, DirectoryString, Name, RelativeDistinguishedName};
use shelf_fault::Fault;
use std::alloc::Global;
use toml_format::{List, Subtree};

/// emailAddress of PKCS #9 (RFC 5280, A.1).
const EMAIL_ADDRESS: &[u32] = &[1, 2, 840, 113549, 1, 9, 1];

fn is_email_address(attribute: &AttributeTypeAndValue) -> bool
    ensures { result ≡ is_email_address attribute.now }
{
    attribute.attr_type.arcs() == EMAIL_ADDRESS
}

fn is_host_in(text: &[u8], subtrees: &[Subtree]) -> bool
    ensures { result ≡ is_allowed subtrees.now (dns_name text.now) }
{
    subtrees.iter().any(|subtree| match subtree {
        Subtree::Dns(base) => is_host_allowed(text, base.as_bytes()),
        _ => false,
    })
}

fn is_mailbox_in(text: &[u8], subtrees: &[Subtree]) -> bool
    ensures { result ≡ is_allowed subtrees.now (rfc822_name text.now) }
{
    subtrees.iter().any(|subtree| match subtree {
        Subtree::Email(base) => mail_within(text, base.as_bytes()),
        _ => false,
    })
}

fn has_at(text: &[u8]) -> bool
    ensures { result ≡ list_any (nat_eq 64) text.now }
{
    text.contains(&b'@')
}

/// Whether a subtree has what a verifier may take the text for.
fn is_name_in(text: &[u8], subtrees: &[Subtree]) -> bool
    ensures { result ≡ is_allowed subtrees.now (written_name text.now) }
{
    if has_at(text) {
        is_mailbox_in(text, subtrees)
    } else {
        is_host_in(text, subtrees)
    }
}

fn refuse_text(alloc: Global, text: &[u8]) -> Result<(), Fault>
    ensures { Passes (Err (SubjectNotAllowed text.now)) result }
{
    let text = Vec::from_slice(alloc, text)?;
    Err(Fault::SubjectNotAllowed(OctetString::new(text)))
}

/// Refuses a value whose text isn't known.
fn refuse_unknown(alloc: Global) -> Result<(), Fault>
    ensures { Passes (Err (SubjectNotAllowed [])) result }
{
    Err(Fault::SubjectNotAllowed(OctetString::new(Vec::new(alloc))))
}

/// Refuses a text without a space, in ASCII, that is in no subtree.
#[tactic(auto, unfolding(crate::specs::AllowedSubjects::text_allowed))]
fn text_allowed(alloc: Global, text: &[u8], subtrees: &[Subtree]) -> Result<(), Fault>
    ensures { Passes (text_allowed subtrees.now text.now) result }
{
    if is_visible(text) && !is_name_in(text, subtrees) {
        return refuse_text(alloc, text);
    }
    Ok(())
}

fn string_allowed(alloc: Global, text: &DirectoryString, subtrees: &[Subtree]) -> Result<(), Fault>
    ensures { Passes (string_allowed subtrees.now text.now) result }
{
    match text {
        DirectoryString::Teletex(text) => text_allowed(alloc, text.as_bytes(), subtrees),
        DirectoryString::Printable(text) => text_allowed(alloc, text.as_bytes(), subtrees),
        DirectoryString::Universal(_) => refuse_unknown(alloc),
        DirectoryString::Utf8(text) => text_allowed(alloc, text.as_bytes(), subtrees),
        DirectoryString::Bmp(_) => refuse_unknown(alloc),
    }
}

#[tactic(auto, unfolding(crate::specs::AllowedSubjects::common_name_allowed))]
fn common_name_allowed(alloc: Global, octets: &[u8], subtrees: &[Subtree]) -> Result<(), Fault>
    ensures { Passes (common_name_allowed subtrees.now octets.now) result }
{
    match der::value_of::<DirectoryString>(alloc, octets)? {
        Some(text) => string_allowed(alloc, &text, subtrees),
        None => refuse_unknown(alloc),
    }
}

#[tactic(auto, unfolding(crate::specs::AllowedSubjects::address_allowed))]
fn address_allowed(alloc: Global, octets: &[u8], subtrees: &[Subtree]) -> Result<(), Fault>
    ensures { Passes (address_allowed subtrees.now octets.now) result }
{
    let Some(text) = der::value_of::<Ia5String>(alloc, octets)? else {
        return refuse_unknown(alloc);
    };
    if !is_mailbox_in(text.as_bytes(), subtrees) {
        return refuse_text(alloc, text.as_bytes());
    }
    Ok(())
}

#[tactic(auto, unfolding(crate::specs::AllowedSubjects::attribute_allowed))]
fn attribute_allowed(
    alloc: Global,
    attribute: &AttributeTypeAndValue,
    subtrees: &[Subtree],
) -> Result<(), Fault>
    ensures { Passes (attribute_allowed subtrees.now attribute.now) result }
{
    if is_common_name(attribute) {
        common_name_allowed(alloc, attribute.value.as_bytes(), subtrees)
    } else if is_email_address(attribute) {
        address_allowed(alloc, attribute.value.as_bytes(), subtrees)
    } else {
        Ok(())
    }
}

fn attributes_allowed(
    alloc: Global,
    attributes: &[AttributeTypeAndValue],
    subtrees: &[Subtree],
) -> Result<(), Fault>
    ensures { Passes (attributes_allowed subtrees.now attributes.now) result }
{
    for attribute in attributes {
        attribute_allowed(alloc, attribute, subtrees)?;
    }
    Ok(())
}

fn parts_allowed(
    alloc: Global,
    parts: &[RelativeDistinguishedName],
    subtrees: &[Subtree],
) -> Result<(), Fault>
    ensures { Passes (parts_allowed subtrees.now parts.now) result }
{
    for part in parts {
        attributes_allowed(alloc, part.0.as_slice(), subtrees)?;
    }
    Ok(())
}

/// Refuses a subject that is taken and has a common name that may be a host's or a mailbox, or an
/// emailAddress, in no subtree, where there are any. The time is that of the attributes times the
/// subtrees.
pub(crate) fn subject_allowed(
    alloc: Global,
    is_taken: bool,
    allowed: &Option<List<Subtree>>,
    name: &Name,
) -> Result<(), Fault>
    ensures { Passes (subject_allowed is_taken allowed.now name.now) result }
{
    if !is_taken {
        return Ok(());
    }
    let Some(subtrees) = allowed else {
        return Ok(());
    };
    let Name::RdnSequence(parts) = name;
    parts_allowed(alloc, parts.as_slice(), subtrees.as_slice())
}
