//! The extensions that a request asks for, and those of them that are looked at.
ghost use Rattle.std.specs.Prelude.{◌≡◌, true, IfOk, find};
ghost use Rattle.std.specs.List.{list_any};
ghost use Rattle.std.specs.Option.{option_copied};
ghost use Rattle.rcgen_read.specs.ReceivedRequests.{is_extension_request};
ghost use Rattle.shelf_fault.specs.Faults.{Gets, Passes};
ghost use Rattle.shelf_params.specs.AskedExtensions.{asked_extensions, asked_key_id, asked_once, asks_twice, each_once};
ghost use Rattle.shelf_params.specs.AskedExtensions.{is_ignored, is_key_id, is_known, is_of_microsoft, is_passed_over, is_unknown, key_id_at, key_id_of};
ghost use Rattle.shelf_params.specs.AskedExtensions.{known_extensions, looked_at, read_extensions, without_ignored};

use asn1_core::{ObjectIdentifier, OctetString, OutOfMemory, TryClone};
use der_tree::{DecodeError, SequenceOf, der};
use extension_lookup::are_distinct_extensions;
use pkix_cert::Extension;
use pkix_cert::extension_id::{
    ID_CE_BASIC_CONSTRAINTS, ID_CE_EXT_KEY_USAGE, ID_CE_KEY_USAGE, ID_CE_SUBJECT_ALT_NAME,
    ID_CE_SUBJECT_KEY_IDENTIFIER,
};
use pkix_name::Attribute;
use rcgen_read::requested_extensions;
use shelf_fault::{Fault, Obstacle};
use shelf_profile::ExtensionId;
use std::alloc::Global;

/// extensionRequest (RFC 2985, 5.4.2).
const EXTENSION_REQUEST: &[u32] = &[1, 2, 840, 113549, 1, 9, 14];

/// Microsoft's attribute for the same.
const MICROSOFT_EXTENSIONS: &[u32] = &[1, 3, 6, 1, 4, 1, 311, 2, 1, 14];

fn is_of_microsoft(attribute: &Attribute) -> bool
    ensures { result ≡ is_of_microsoft attribute.now }
{
    attribute.attr_type.arcs() == MICROSOFT_EXTENSIONS
}

fn has_microsoft(attributes: &[Attribute]) -> bool
    ensures { result ≡ list_any is_of_microsoft attributes.now }
{
    attributes
        .iter()
        .any(|attribute| is_of_microsoft(attribute))
}

/// Whether the attribute asks for extensions (RFC 2985, 5.4.2).
fn is_request(attribute: &Attribute) -> bool
    ensures { result ≡ is_extension_request attribute.now }
{
    attribute.attr_type.arcs() == EXTENSION_REQUEST
}

fn has_request(attributes: &[Attribute]) -> bool
    ensures { result ≡ list_any is_extension_request attributes.now }
{
    attributes.iter().any(|attribute| is_request(attribute))
}

/// Whether two of them ask for extensions.
fn asks_twice(attributes: &[Attribute]) -> bool
    ensures { result ≡ asks_twice attributes.now }
{
    let mut rest = attributes;
    while let [attribute, after @ ..] = rest {
        if is_request(attribute) {
            return has_request(after);
        }
        rest = after;
    }
    false
}

/// Refuses attributes of which another than one of extensionRequest asks for extensions.
#[tactic(auto, unfolding(crate::specs::AskedExtensions::asked_once))]
fn asked_once(attributes: &[Attribute]) -> Result<(), Fault>
    ensures { Passes (asked_once attributes.now) result }
{
    if has_microsoft(attributes) || asks_twice(attributes) {
        return Err(Fault::RequestAttributes);
    }
    Ok(())
}

/// Whether the extension with this identifier may be asked for.
fn is_known(id: &ObjectIdentifier) -> bool
    ensures { result ≡ is_known id.now }
{
    let arcs = id.arcs();
    arcs == ID_CE_KEY_USAGE
        || arcs == ID_CE_SUBJECT_ALT_NAME
        || arcs == ID_CE_BASIC_CONSTRAINTS
        || arcs == ID_CE_EXT_KEY_USAGE
}

/// The first extension that may not be asked for.
fn first_unknown(extensions: &[Extension]) -> Option<&Extension>
    ensures { option_copied result ≡ find is_unknown extensions.now }
{
    for extension in extensions {
        if !is_known(&extension.extn_id) {
            return Some(extension);
        }
    }
    None
}

/// The extensions that are asked for.
#[tactic(auto, unfolding(crate::specs::AskedExtensions::read_extensions))]
fn read_extensions(alloc: Global, attributes: &[Attribute]) -> Result<SequenceOf<Extension>, Fault>
    ensures { Gets (λ es. es) (read_extensions attributes.now) result }
{
    match requested_extensions(alloc, attributes) {
        Ok(extensions) => Ok(extensions),
        Err(DecodeError::NotInGrammar) => Err(Fault::Obstacle(Obstacle::RequestNotRead)),
        Err(DecodeError::OutOfMemory) => Err(Fault::OutOfMemory),
    }
}

/// Refuses extensions of which one occurs twice.
#[tactic(auto, unfolding(crate::specs::AskedExtensions::each_once))]
fn each_once(alloc: Global, extensions: &[Extension]) -> Result<(), Fault>
    ensures { Passes (each_once extensions.now) result }
{
    if are_distinct_extensions(alloc, extensions)? {
        Ok(())
    } else {
        Err(Fault::RequestRepeats)
    }
}

/// Whether the extension is the identifier of the key (RFC 5280, 4.2.1.2).
fn is_key_id(extension: &Extension) -> bool
    ensures { result ≡ is_key_id extension.now }
{
    extension.extn_id.arcs() == ID_CE_SUBJECT_KEY_IDENTIFIER
}

/// The first extension that is the identifier of the key.
fn first_key_id(extensions: &[Extension]) -> Option<&Extension>
    ensures { option_copied result ≡ find is_key_id extensions.now }
{
    for extension in extensions {
        if is_key_id(extension) {
            return Some(extension);
        }
    }
    None
}

/// The octets of the identifier in these contents, where there are some.
#[tactic(auto, unfolding(crate::specs::AskedExtensions::key_id_at))]
fn key_id_at(alloc: Global, contents: &[u8]) -> Result<Option<OctetString>, OutOfMemory>
    ensures { IfOk result (λ found. found ≡ key_id_at contents.now) }
{
    match der::value_of::<OctetString>(alloc, contents)? {
        Some(id) => Ok(if id.as_slice().is_empty() {
            None
        } else {
            Some(id)
        }),
        None => Ok(None),
    }
}

/// The identifier of the key among the extensions.
fn key_id_in(alloc: Global, extensions: &[Extension]) -> Result<Option<OctetString>, OutOfMemory>
    ensures { IfOk result (λ found. found ≡ key_id_of (find is_key_id extensions.now)) }
{
    match first_key_id(extensions) {
        Some(extension) => key_id_at(alloc, extension.extn_value.as_slice()),
        None => Ok(None),
    }
}

/// The identifier of the key that the attributes ask for.
#[tactic(auto, unfolding(crate::specs::AskedExtensions::asked_key_id))]
pub(crate) fn asked_key_id(alloc: Global, attributes: &[Attribute]) -> Result<OctetString, Fault>
    ensures { Gets (λ id. id) (asked_key_id attributes.now) result }
{
    let extensions = match requested_extensions(alloc, attributes) {
        Ok(extensions) => extensions,
        Err(DecodeError::NotInGrammar) => return Err(Fault::RequestKeyId),
        Err(DecodeError::OutOfMemory) => return Err(Fault::OutOfMemory),
    };
    match key_id_in(alloc, extensions.as_slice())? {
        Some(id) => Ok(id),
        None => Err(Fault::RequestKeyId),
    }
}

/// Refuses extensions of which one isn't known, by its identifier.
#[tactic(auto, unfolding(crate::specs::AskedExtensions::known_extensions))]
fn known_extensions(alloc: Global, extensions: &[Extension]) -> Result<(), Fault>
    ensures { Passes (known_extensions extensions.now) result }
{
    let Some(extension) = first_unknown(extensions) else {
        return Ok(());
    };
    let id = extension.extn_id.try_clone(alloc)?;
    Err(Fault::RequestExtension(id))
}

/// Whether the identifier is one of these.
fn is_ignored(ignored: &[ExtensionId], id: &ObjectIdentifier) -> bool
    ensures { result ≡ is_ignored ignored.now id.now }
{
    ignored.iter().any(|other| other.arcs() == id.arcs())
}

/// Whether the extension is passed over: by its identifier, or as that of the key.
fn is_passed_over(skips_key_id: bool, ignored: &[ExtensionId], extension: &Extension) -> bool
    ensures { result ≡ is_passed_over skips_key_id ignored.now extension.now }
{
    (skips_key_id && is_key_id(extension)) || is_ignored(ignored, &extension.extn_id)
}

/// The extensions without those that are passed over.
fn without_ignored(
    alloc: Global,
    skips_key_id: bool,
    ignored: &[ExtensionId],
    extensions: &[Extension],
) -> Result<Vec<Extension>, OutOfMemory>
    ensures { IfOk result (λ kept. kept.items ≡ without_ignored skips_key_id ignored.now extensions.now) }
{
    let mut kept = Vec::new(alloc);
    for extension in extensions {
        if !is_passed_over(skips_key_id, ignored, extension) {
            kept.push(extension.try_clone(alloc)?)?;
        }
    }
    Ok(kept)
}

/// The extensions that are looked at, of which none occurs twice.
#[tactic(auto, unfolding(crate::specs::AskedExtensions::looked_at))]
fn looked_at(
    alloc: Global,
    skips_key_id: bool,
    ignored: &[ExtensionId],
    attributes: &[Attribute],
) -> Result<Vec<Extension>, Fault>
    ensures { Gets (λ es. es.items) (looked_at skips_key_id ignored.now attributes.now) result }
{
    let extensions = read_extensions(alloc, attributes)?;
    each_once(alloc, extensions.as_slice())?;
    let kept = without_ignored(alloc, skips_key_id, ignored, extensions.as_slice())?;
    Ok(kept)
}

/// The same, where each is known.
#[tactic(auto, unfolding(crate::specs::AskedExtensions::asked_extensions))]
pub(crate) fn asked_extensions(
    alloc: Global,
    skips_key_id: bool,
    ignored: &[ExtensionId],
    attributes: &[Attribute],
) -> Result<Vec<Extension>, Fault>
    ensures { Gets (λ es. es.items) (asked_extensions skips_key_id ignored.now attributes.now) result }
{
    asked_once(attributes)?;
    let extensions = looked_at(alloc, skips_key_id, ignored, attributes)?;
    known_extensions(alloc, extensions.as_slice())?;
    Ok(extensions)
}
