//! The names of a certificate against the subtrees above it (RFC 5280, 6.1.3 (b) and (c)).
ghost use Rattle.std.specs.Prelude.{◌≡◌, ◌^◌, ◌-◌, ◌++◌, min, nat_lt, IfOk, OnOk};
ghost use Rattle.std.specs.List.{filter_map, list_all};
ghost use Rattle.std.specs.Option.{option_to_list};
ghost use Rattle.pkix_name.specs.declared.general_name.GeneralName.TheVariants.{Rfc822Name};
ghost use Rattle.path_validation.specs.Names.{address_in, addresses_in, ascii_or_none, count_in, has_unprocessed, is_all_permitted, is_excluded};
ghost use Rattle.path_validation.specs.Names.{is_permitted, is_some_excluded, is_unprocessed, names_of, size_in, subject_names};
ghost use Rattle.path_validation.specs.Names.{subtrees_size, too_much};
ghost use Rattle.path_validation.specs.Checks.{name_reason};

use crate::certificate::PathCertificate;
use crate::error::PathReason;
use asn1_core::{Ia5String, OutOfMemory, copied};
use der_tree::{SequenceOf, one_window};
use path_names::{is_excluded_by, is_permitted_by, is_unprocessed_by, name_size, names_size};
use pkix_cert::{GeneralSubtree, GeneralSubtrees};
use pkix_name::{AttributeTypeAndValue, GeneralName, Name, RelativeDistinguishedName};
use std::alloc::Global;

/// How many octets are read at most for a certificate as its names are held against the subtrees.
const MOST_OCTETS: usize = 1_000_000;

fn are_ascii(octets: &[u8]) -> bool
    ensures { result ≡ list_all (λ b. nat_lt b 128) octets.now }
{
    octets.iter().all(|octet| *octet < 128)
}

/// The octets, or none at all where they aren't all of ASCII.
fn ascii_or_none(octets: &[u8]) -> &[u8]
    ensures { result.now ≡ ascii_or_none octets.now }
{
    if are_ascii(octets) { octets } else { &[] }
}

/// The text, or none at all where it isn't one of ASCII, which no constraint takes.
fn address(alloc: Global, octets: &[u8]) -> Result<GeneralName, OutOfMemory>
    ensures { IfOk result (λ name. name ≡ Rfc822Name (ascii_or_none octets.now)) }
{
    match Ia5String::new(alloc, ascii_or_none(octets)) {
        Ok(text) => Ok(GeneralName::Rfc822Name(text)),
        Err(_) => Err(OutOfMemory),
    }
}

/// The mail address that an attribute holds, whatever type of text it has (RFC 5280, 4.1.2.6).
#[tactic(auto, unfolding(crate::specs::Names::address_in))]
fn address_in(
    alloc: Global,
    attribute: &AttributeTypeAndValue,
) -> Result<Option<GeneralName>, OutOfMemory>
    ensures { IfOk result (λ o. o ≡ address_in attribute.now) }
{
    if attribute.attr_type.arcs() != [1, 2, 840, 113549, 1, 9, 1].as_slice() {
        return Ok(None);
    }
    match one_window(attribute.value.as_bytes()) {
        None => Ok(Some(address(alloc, &[])?)),
        Some(window) => Ok(Some(address(alloc, window.content())?)),
    }
}

/// Appends the name, where there is one.
fn push_optional(names: &mut Vec<GeneralName>, name: Option<GeneralName>) -> Result<(), OutOfMemory>
    ensures { OnOk result (names.new.items ≡ names.old.items ++ option_to_list name) }
{
    match name {
        None => Ok(()),
        Some(name) => {
            names.push(name)?;
            Ok(())
        }
    }
}

/// Appends the mail addresses of a part of a subject.
#[tactic(auto, using(crate::proofs::NameLists::address_more))]
fn push_part(
    alloc: Global,
    names: &mut Vec<GeneralName>,
    part: &RelativeDistinguishedName,
) -> Result<(), OutOfMemory>
    ensures { OnOk result (names.new.items ≡ names.old.items ++ filter_map address_in part.now.0) }
{
    for attribute in part.0.as_slice() {
        let name = address_in(alloc, attribute)?;
        push_optional(names, name)?;
    }
    Ok(())
}

/// Appends the mail addresses of a subject.
fn push_addresses(
    alloc: Global,
    names: &mut Vec<GeneralName>,
    subject: &Name,
) -> Result<(), OutOfMemory>
    ensures { OnOk result (names.new.items ≡ names.old.items ++ addresses_in subject.now) }
{
    let Name::RdnSequence(parts) = subject;
    for part in parts.as_slice() {
        push_part(alloc, names, part)?;
    }
    Ok(())
}

/// Appends copies of the names.
fn push_copies(names: &mut Vec<GeneralName>, more: &[GeneralName]) -> Result<(), OutOfMemory>
    ensures { OnOk result (names.new.items ≡ names.old.items ++ more.now) }
{
    for name in more {
        names.push(copied(name)?)?;
    }
    Ok(())
}

/// The subject, unless it is empty.
fn subject_names(alloc: Global, subject: &Name) -> Result<Vec<GeneralName>, OutOfMemory>
    ensures { IfOk result (λ names. names.items ≡ subject_names subject.now) }
{
    let Name::RdnSequence(parts) = subject;
    let mut names = Vec::new(alloc);
    if parts.as_slice().is_empty() {
        return Ok(names);
    }
    names.push(GeneralName::DirectoryName(copied(subject)?))?;
    Ok(names)
}

/// The subject, unless it is empty, and the other names; addresses of the subject count where there
/// is no extension with other names (RFC 5280, 4.2.1.10).
#[tactic(auto, unfolding(crate::specs::Names::names_of))]
fn names_of(alloc: Global, certificate: &PathCertificate) -> Result<Vec<GeneralName>, OutOfMemory>
    ensures { IfOk result (λ names. names.items ≡ names_of certificate.now) }
{
    let subject = &certificate.identity.subject;
    let mut names = subject_names(alloc, subject)?;
    let Some(others) = &certificate.statements.names.subject_alt_names else {
        push_addresses(alloc, &mut names, subject)?;
        return Ok(names);
    };
    push_copies(&mut names, others.as_slice())?;
    Ok(names)
}

/// How many subtrees the sets have, as far as a number tells.
#[tactic(auto, using(crate::proofs::Sizes::count_more))]
fn count_in(sets: &SequenceOf<GeneralSubtrees>) -> usize
    ensures { result ≡ min (count_in sets.now) (2 ^ 64 - 1) }
{
    let mut count: usize = 0;
    for set in sets.as_slice() {
        count = count.saturating_add(set.as_slice().len());
    }
    count
}

/// How many octets are compared of subtrees.
#[tactic(auto, using(path_names::proofs::Sizes::sum_more), unfolding(crate::specs::Names::subtrees_size, crate::specs::Names::base_size))]
fn subtrees_size(subtrees: &[GeneralSubtree]) -> usize
    ensures { result ≡ min (subtrees_size subtrees.now) (2 ^ 64 - 1) }
{
    let mut size: usize = 0;
    for subtree in subtrees {
        size = size.saturating_add(name_size(&subtree.base));
    }
    size
}

/// The same of sets of subtrees.
#[tactic(auto, using(path_names::proofs::Sizes::sum_more))]
fn size_in(sets: &SequenceOf<GeneralSubtrees>) -> usize
    ensures { result ≡ min (size_in sets.now) (2 ^ 64 - 1) }
{
    let mut size: usize = 0;
    for set in sets.as_slice() {
        size = size.saturating_add(subtrees_size(set.as_slice()));
    }
    size
}

/// Whether holding the names against the subtrees reads more octets than are read.
#[tactic(auto, using(crate::proofs::Sizes::too_much_is), unfolding(crate::specs::Names::too_much))]
fn too_much(
    names: &[GeneralName],
    permitted: &SequenceOf<GeneralSubtrees>,
    excluded: &SequenceOf<GeneralSubtrees>,
) -> bool
    ensures { result ≡ too_much names.now permitted.now excluded.now }
{
    let size = size_in(permitted).saturating_add(size_in(excluded));
    let count = count_in(permitted).saturating_add(count_in(excluded));
    let of_subtrees = names.len().saturating_mul(size);
    let of_names = count.saturating_mul(names_size(names));
    of_subtrees.saturating_add(of_names) > MOST_OCTETS
}

/// Whether a subtree of one of the sets can't be held against the name.
fn is_unprocessed(sets: &SequenceOf<GeneralSubtrees>, name: &GeneralName) -> bool
    ensures { result ≡ is_unprocessed sets.now name.now }
{
    sets.as_slice()
        .iter()
        .any(|set| is_unprocessed_by(name, set.as_slice()))
}

/// Whether each of the sets permits the name.
fn is_permitted(sets: &SequenceOf<GeneralSubtrees>, name: &GeneralName) -> bool
    ensures { result ≡ is_permitted sets.now name.now }
{
    sets.as_slice()
        .iter()
        .all(|set| is_permitted_by(name, set.as_slice()))
}

/// Whether one of the sets has the name.
fn is_excluded(sets: &SequenceOf<GeneralSubtrees>, name: &GeneralName) -> bool
    ensures { result ≡ is_excluded sets.now name.now }
{
    sets.as_slice()
        .iter()
        .any(|set| is_excluded_by(name, set.as_slice()))
}

#[tactic(auto, unfolding(crate::specs::Names::has_unprocessed))]
fn has_unprocessed(
    names: &[GeneralName],
    permitted: &SequenceOf<GeneralSubtrees>,
    excluded: &SequenceOf<GeneralSubtrees>,
) -> bool
    ensures { result ≡ has_unprocessed names.now permitted.now excluded.now }
{
    names.iter().any(|name| is_unprocessed(permitted, name) || is_unprocessed(excluded, name))
}

#[tactic(auto, unfolding(crate::specs::Names::is_all_permitted))]
fn is_all_permitted(names: &[GeneralName], permitted: &SequenceOf<GeneralSubtrees>) -> bool
    ensures { result ≡ is_all_permitted names.now permitted.now }
{
    names.iter().all(|name| is_permitted(permitted, name))
}

#[tactic(auto, unfolding(crate::specs::Names::is_some_excluded))]
fn is_some_excluded(names: &[GeneralName], excluded: &SequenceOf<GeneralSubtrees>) -> bool
    ensures { result ≡ is_some_excluded names.now excluded.now }
{
    names.iter().any(|name| is_excluded(excluded, name))
}

/// From `TooMuchWork` to `Excluded`.
#[tactic(auto, unfolding(crate::specs::Checks::name_reason, crate::specs::Checks::first_name_reason))]
pub(crate) fn name_reason(
    alloc: Global,
    certificate: &PathCertificate,
    permitted: &SequenceOf<GeneralSubtrees>,
    excluded: &SequenceOf<GeneralSubtrees>,
) -> Result<Option<PathReason>, OutOfMemory>
    ensures { IfOk result (λ o. o ≡ name_reason certificate.now permitted.now excluded.now) }
{
    let names = names_of(alloc, certificate)?;
    let names = names.as_slice();
    if too_much(names, permitted, excluded) {
        return Ok(Some(PathReason::TooMuchWork));
    }
    if has_unprocessed(names, permitted, excluded) {
        return Ok(Some(PathReason::UnprocessedNameForm));
    }
    if !is_all_permitted(names, permitted) {
        return Ok(Some(PathReason::NotPermitted));
    }
    if is_some_excluded(names, excluded) {
        return Ok(Some(PathReason::Excluded));
    }
    Ok(None)
}
