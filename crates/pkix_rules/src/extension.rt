//! Extensions by their identifiers (RFC 5280, 4.2).
ghost use Rattle.std.specs.Prelude.{◌≡◌, IfOk};
ghost use Rattle.std.specs.List.{list_any};
ghost use Rattle.std.specs.Option.{option_map};
ghost use Rattle.pkix_cert.specs.Held.{extensions_in};
ghost use Rattle.pkix_rules.specs.Extensions.{extension_at, has_critical, has_uncritical, ids_in, is_among, is_critical_stranger, is_unreadable, repeats_any, said};

use asn1_core::OutOfMemory;
use der_tree::{DerType, der};
use extension_lookup::are_distinct_extensions;
use pkix_cert::{Extension, Extensions};
use std::alloc::Global;

/// The extensions, in order.
pub(crate) fn extensions_in(extensions: &Option<Extensions>) -> &[Extension]
    ensures { result.now ≡ extensions_in extensions.now }
{
    match extensions {
        None => &[],
        Some(extensions) => extensions.0.as_slice(),
    }
}

/// The first one with the identifier.
pub(crate) fn extension_at<'a>(extensions: &'a [Extension], id: &[u32]) -> Option<&'a Extension>
    ensures { option_map (λ e. e.now) result ≡ extension_at id.now extensions.now }
{
    for extension in extensions {
        if extension.extn_id.arcs() == id {
            return Some(extension);
        }
    }
    None
}

/// What it says, where it is there and can be read.
#[tactic(auto, unfolding(crate::specs::Extensions::said))]
pub(crate) fn said<T: DerType>(
    alloc: Global,
    extension: Option<&Extension>,
) -> Result<Option<T>, OutOfMemory>
    ensures { IfOk result (λ o. o ≡ said T.codec (option_map (λ e. e.now) extension.entry)) }
{
    match extension {
        None => Ok(None),
        Some(extension) => der::value_of(alloc, extension.extn_value.as_slice()),
    }
}

/// What the first one with the identifier says, where it is there and can be read.
pub(crate) fn said_at<T: DerType>(
    alloc: Global,
    extensions: &[Extension],
    id: &[u32],
) -> Result<Option<T>, OutOfMemory>
    ensures { IfOk result (λ o. o ≡ said T.codec (extension_at id.now extensions.now)) }
{
    said(alloc, extension_at(extensions, id))
}

/// Whether it is there and can't be read.
pub(crate) fn is_unreadable<T: DerType + Drop>(
    alloc: Global,
    extensions: &[Extension],
    id: &[u32],
) -> Result<bool, OutOfMemory>
    ensures { IfOk result (λ b. b ≡ is_unreadable T.codec id.now extensions.now) }
{
    let found: Option<T> = said_at(alloc, extensions, id)?;
    let is_read = found.is_some();
    Ok(!is_read && extension_at(extensions, id).is_some())
}

/// Whether two have one identifier. The time is that of sorting them.
pub(crate) fn repeats_any(alloc: Global, extensions: &[Extension]) -> Result<bool, OutOfMemory>
    ensures { IfOk result (λ b. b ≡ repeats_any extensions.now) }
{
    let distinct = are_distinct_extensions(alloc, extensions)?;
    Ok(!distinct)
}

/// Whether one with the identifier is critical.
pub(crate) fn has_critical(extensions: &[Extension], id: &[u32]) -> bool
    ensures { result ≡ has_critical id.now extensions.now }
{
    extensions.iter().any(|extension| extension.extn_id.arcs() == id && extension.critical)
}

/// Whether one with the identifier isn't critical.
pub(crate) fn has_uncritical(extensions: &[Extension], id: &[u32]) -> bool
    ensures { result ≡ has_uncritical id.now extensions.now }
{
    extensions.iter().any(|extension| extension.extn_id.arcs() == id && !extension.critical)
}

/// Whether the identifier is one of these.
pub(crate) fn is_among(id: &[u32], ids: &[&[u32]]) -> bool
    ensures { result ≡ is_among id.now (ids_in ids.now) }
{
    for other in ids {
        if *other == id {
            return true;
        }
    }
    false
}

fn is_critical_stranger(extension: &Extension, known: &[&[u32]]) -> bool
    ensures { result ≡ is_critical_stranger (ids_in known.now) extension.now }
{
    extension.critical && !is_among(extension.extn_id.arcs(), known)
}

/// Whether one is critical that isn't among those that are known.
pub(crate) fn has_critical_stranger(extensions: &[Extension], known: &[&[u32]]) -> bool
    ensures { result ≡ list_any (is_critical_stranger (ids_in known.now)) extensions.now }
{
    extensions
        .iter()
        .any(|extension| is_critical_stranger(extension, known))
}
