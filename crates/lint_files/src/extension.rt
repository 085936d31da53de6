//! What extensions say of keys.
ghost use Rattle.std.specs.Prelude.{◌≡◌, IfOk};
ghost use Rattle.std.specs.Option.{option_map};
ghost use Rattle.pkix_cert.specs.Held.{extensions_in};
ghost use Rattle.lint_files.specs.Extensions.{contents_at, key_identifier_in, named_key, own_key, said_in};

use asn1_core::{OctetString, OutOfMemory, copied};
use der_tree::{DerType, der};
use pkix_cert::extension_id::{ID_CE_AUTHORITY_KEY_IDENTIFIER, ID_CE_SUBJECT_KEY_IDENTIFIER};
use pkix_cert::{AuthorityKeyIdentifier, Extension, Extensions};
use std::alloc::Global;

/// The contents of the first one with the identifier.
fn contents_at<'a>(extensions: &'a [Extension], id: &[u32]) -> Option<&'a [u8]>
    ensures { option_map (λ contents. contents.now) result ≡ contents_at id.now extensions.now }
{
    for extension in extensions {
        if extension.extn_id.arcs() == id {
            return Some(extension.extn_value.as_slice());
        }
    }
    None
}

/// What the first one with the identifier says, where it is there and can be read.
#[tactic(auto, unfolding(crate::specs::Extensions::said_in))]
fn said_in<T: DerType>(
    alloc: Global,
    extensions: &[Extension],
    id: &[u32],
) -> Result<Option<T>, OutOfMemory>
    ensures { IfOk result (λ o. o ≡ said_in T.codec id.now extensions.now) }
{
    match contents_at(extensions, id) {
        None => Ok(None),
        Some(contents) => der::value_of(alloc, contents),
    }
}

fn listed(extensions: &Option<Extensions>) -> &[Extension]
    ensures { result.now ≡ extensions_in extensions.now }
{
    match extensions {
        None => &[],
        Some(extensions) => extensions.0.as_slice(),
    }
}

fn key_identifier_in(id: &Option<AuthorityKeyIdentifier>) -> Option<&OctetString>
    ensures { option_map (λ k. k.now) result ≡ key_identifier_in id.now }
{
    match id {
        None => None,
        Some(id) => id.key_identifier.as_ref(),
    }
}

fn copy_of(key: Option<&OctetString>) -> Result<Option<OctetString>, OutOfMemory>
    ensures { IfOk result (λ copy. copy ≡ option_map (λ k. k.now) key.entry) }
{
    match key {
        None => Ok(None),
        Some(key) => Ok(Some(copied(key)?)),
    }
}

/// The identifier of the issuer's key (RFC 5280, 4.2.1.1), where it is there and can be read.
#[tactic(auto, unfolding(crate::specs::Extensions::named_key))]
pub(crate) fn named_key(
    alloc: Global,
    extensions: &Option<Extensions>,
) -> Result<Option<OctetString>, OutOfMemory>
    ensures { IfOk result (λ key. key ≡ named_key extensions.now) }
{
    let id: Option<AuthorityKeyIdentifier> = said_in(
        alloc,
        listed(extensions),
        ID_CE_AUTHORITY_KEY_IDENTIFIER,
    )?;
    copy_of(key_identifier_in(&id))
}

/// The identifier of the subject's key (RFC 5280, 4.2.1.2), where it is there and can be read.
#[tactic(auto, unfolding(crate::specs::Extensions::own_key))]
pub(crate) fn own_key(
    alloc: Global,
    extensions: &Option<Extensions>,
) -> Result<Option<OctetString>, OutOfMemory>
    ensures { IfOk result (λ key. key ≡ own_key extensions.now) }
{
    said_in(alloc, listed(extensions), ID_CE_SUBJECT_KEY_IDENTIFIER)
}
