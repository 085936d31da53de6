//! What extensions say (RFC 5280, 4.2, 5.2 and 5.3).
ghost use Rattle.std.specs.Prelude.{◌≡◌, IfOk, map};
ghost use Rattle.std.specs.Option.{option_map};
ghost use Rattle.extension_lookup.specs.Lookup.{have_equal_neighbours};
ghost use Rattle.pkix_cert.specs.Held.{extensions_in};
ghost use Rattle.path_revocation.specs.Deltas.{has_freshest};
ghost use Rattle.path_revocation.specs.Extensions.{are_once, can_be_read, contents_at, contents_in, said};

use asn1_core::OutOfMemory;
use der_tree::{DerType, der};
use pkix_cert::extension_id::ID_CE_FRESHEST_CRL;
use pkix_cert::{Extension, Extensions};
use std::alloc::Global;

/// The contents of the first one with the identifier.
#[tactic(auto, unfolding(crate::specs::Extensions::contents_in))]
fn contents_in<'a>(extensions: &'a [Extension], id: &[u32]) -> Option<&'a [u8]>
    ensures { option_map (λ contents. contents.now) result ≡ contents_in id.now extensions.now }
{
    for extension in extensions {
        if extension.extn_id.arcs() == id {
            return Some(extension.extn_value.as_slice());
        }
    }
    None
}

/// The extensions, in order.
pub(crate) fn extensions_in(extensions: &Option<Extensions>) -> &[Extension]
    ensures { result.now ≡ extensions_in extensions.now }
{
    match extensions {
        None => &[],
        Some(extensions) => extensions.0.as_slice(),
    }
}

/// The contents of the first extension with the identifier.
pub(crate) fn contents_at<'a>(extensions: &'a Option<Extensions>, id: &[u32]) -> Option<&'a [u8]>
    ensures { option_map (λ contents. contents.now) result ≡ contents_at id.now extensions.now }
{
    contents_in(extensions_in(extensions), id)
}

/// Whether they say where the newest list is (RFC 5280, 4.2.1.15 and 5.2.6).
#[tactic(auto, unfolding(crate::specs::Deltas::has_freshest))]
pub(crate) fn has_freshest(extensions: &Option<Extensions>) -> bool
    ensures { result ≡ has_freshest extensions.now }
{
    contents_at(extensions, ID_CE_FRESHEST_CRL).is_some()
}

/// What the contents say, where they are there and can be read.
#[tactic(auto, unfolding(crate::specs::Extensions::said))]
pub(crate) fn said<T: DerType>(
    alloc: Global,
    contents: Option<&[u8]>,
) -> Result<Option<T>, OutOfMemory>
    ensures { IfOk result (λ o. o ≡ said T.codec (option_map (λ octets. octets.now) contents.entry)) }
{
    match contents {
        None => Ok(None),
        Some(octets) => der::value_of(alloc, octets),
    }
}

/// Whether the contents can be read, where they are there.
#[tactic(auto, unfolding(crate::specs::Extensions::can_be_read))]
pub(crate) fn can_be_read<T: DerType>(
    alloc: Global,
    contents: Option<&[u8]>,
) -> Result<bool, OutOfMemory>
    ensures { IfOk result (λ b. b ≡ can_be_read T.codec (option_map (λ octets. octets.now) contents.entry)) }
{
    match contents {
        None => Ok(true),
        Some(octets) => {
            let value: Option<T> = der::value_of(alloc, octets)?;
            Ok(value.is_some())
        }
    }
}

/// The arcs of the identifiers, in order.
fn ids_of<'a>(alloc: Global, extensions: &'a [Extension]) -> Result<Vec<&'a [u32]>, OutOfMemory>
    ensures { IfOk result (λ ids. map (λ arcs. arcs.now) ids.items ≡ map (λ e. e.extn_id) extensions.now) }
{
    let mut ids = Vec::new(alloc);
    for extension in extensions {
        ids.push(extension.extn_id.arcs())?;
    }
    Ok(ids)
}

/// Whether two that are next to each other are equal.
fn have_equal_neighbours(all: &[&[u32]]) -> bool
    ensures { result ≡ have_equal_neighbours (map (λ arcs. arcs.now) all.now) }
{
    let mut rest = all;
    while let [arcs, after @ ..] = rest {
        if after.first().is_some_and(|next| next == arcs) {
            return true;
        }
        rest = after;
    }
    false
}

/// Whether no two of them have one identifier (RFC 5280, 4.2). The time is that of sorting them.
#[tactic(auto, unfolding(crate::specs::Extensions::are_once))]
pub(crate) fn are_once(alloc: Global, extensions: &[Extension]) -> Result<bool, OutOfMemory>
    ensures { IfOk result (λ b. b ≡ are_once extensions.now) }
{
    let mut ids = ids_of(alloc, extensions)?;
    ids.sort_unstable();
    Ok(!have_equal_neighbours(ids.as_slice()))
}
