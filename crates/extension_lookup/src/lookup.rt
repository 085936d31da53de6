//! An extension by its identifier, and its value.
ghost use Rattle.std.specs.Prelude.{◌≡◌, map, IfOk};
ghost use Rattle.std.specs.Option.{option_map};
ghost use Rattle.extension_lookup.specs.Lookup.{are_distinct, contents_at, extension_ids, has_equal_neighbours, ids_of, read_optional};

use asn1_core::OutOfMemory;
use der_tree::{DerType, der};
use pkix_cert::{CertificateView, Extension};
use std::alloc::Global;

/// The contents of the first extension with the identifier, of which `id` is the DER encoding.
#[tactic(auto, unfolding(crate::specs::Lookup::contents_at))]
pub fn contents_at<'a>(view: &CertificateView<'a>, id: &[u8]) -> Option<&'a [u8]>
    ensures { option_map (λ contents. contents.now) result ≡ contents_at id.now view.now.extensions }
{
    for extension in view.extensions() {
        if extension.id == id {
            return Some(extension.contents);
        }
    }
    None
}

/// What the octets say, where there are any; None where they aren't exactly one value.
#[tactic(auto, unfolding(crate::specs::Lookup::is_one_value, crate::specs::Lookup::read_from))]
pub fn read_optional<T: DerType>(
    alloc: Global,
    contents: Option<&[u8]>,
) -> Result<Option<Option<T>>, OutOfMemory>
    ensures { IfOk result (λ o. o ≡ read_optional T.codec (option_map (λ octets. octets.now) contents.entry)) }
{
    match contents {
        None => Ok(Some(None)),
        Some(octets) => Ok(der::value_of(alloc, octets)?.map(Some)),
    }
}

/// The identifiers of the extensions, in order.
fn ids<'a>(alloc: Global, view: &CertificateView<'a>) -> Result<Vec<&'a [u8]>, OutOfMemory>
    ensures { IfOk result (λ ids. map (λ id. id.now) ids.items ≡ ids_of view.now.extensions) }
{
    let mut ids = Vec::new(alloc);
    for extension in view.extensions() {
        ids.push(extension.id)?;
    }
    Ok(ids)
}

/// Whether two that are next to each other are equal.
fn has_equal_neighbours<T: PartialEq>(values: &[T]) -> bool
    ensures { result ≡ has_equal_neighbours T.eq values.now }
{
    let mut rest = values;
    while let [value, after @ ..] = rest {
        if after.first().is_some_and(|next| next == value) {
            return true;
        }
        rest = after;
    }
    false
}

/// Whether no two extensions have one identifier (RFC 5280, 4.2). The time is that of sorting them.
pub fn are_distinct(alloc: Global, view: &CertificateView<'_>) -> Result<bool, OutOfMemory>
    ensures { IfOk result (λ b. b ≡ are_distinct (ids_of view.now.extensions)) }
{
    let mut ids = ids(alloc, view)?;
    ids.sort_unstable();
    Ok(!has_equal_neighbours(ids.as_slice()))
}

/// Whether no two of these arcs are the same. The time is that of sorting them.
pub fn are_distinct_arcs(arcs: Vec<&[u32]>) -> bool
    ensures { result ≡ are_distinct (map (λ id. id.now) arcs.entry.items) }
{
    let mut arcs = arcs;
    arcs.sort_unstable();
    !has_equal_neighbours(arcs.as_slice())
}

/// The identifiers of the extensions, in order.
fn extension_ids(alloc: Global, extensions: &[Extension]) -> Result<Vec<&[u32]>, OutOfMemory>
    ensures { IfOk result (λ ids. map (λ id. id.now) ids.items ≡ extension_ids extensions.now) }
{
    let mut ids = Vec::new(alloc);
    for extension in extensions {
        ids.push(extension.extn_id.arcs())?;
    }
    Ok(ids)
}

/// Whether no two extensions have one identifier (RFC 5280, 4.2). The time is that of sorting them.
pub fn are_distinct_extensions(alloc: Global, extensions: &[Extension]) -> Result<bool, OutOfMemory>
    ensures { IfOk result (λ b. b ≡ are_distinct (extension_ids extensions.now)) }
{
    let ids = extension_ids(alloc, extensions)?;
    Ok(are_distinct_arcs(ids))
}
