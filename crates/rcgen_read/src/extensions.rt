//! The extensions that a request asks for (RFC 5280, 4.2.1).
ghost use Rattle.std.specs.Prelude.{◌≡◌};
ghost use Rattle.rcgen_text.specs.Causes.{unsupported_extension};
ghost use Rattle.rcgen_read.specs.ExtensionReading.{ask, ask_for, asked_view, kind_of, nothing_asked, read_extensions};
ghost use Rattle.rcgen_read.specs.Reading.{ReadsAs, read_exactly};

use crate::alternative_name::alternative_names;
use crate::basic_constraints::is_ca;
use crate::extended_key_usage::purposes;
use crate::key_usage::key_usages;
use asn1_core::ObjectIdentifier;
use der_tree::{DerType, der};
use pkix_cert::Extension;
use pkix_cert::extension_id::{
    ID_CE_BASIC_CONSTRAINTS, ID_CE_EXT_KEY_USAGE, ID_CE_KEY_USAGE, ID_CE_SUBJECT_ALT_NAME,
};
use rcgen_issue::{Error, ExtendedKeyUsagePurpose, IsCa, KeyUsagePurpose, SanType};
use std::alloc::Global;

/// The extensions that a request may ask for, and all others.
#[derive(Clone, Copy)]
pub(crate) enum Kind {
    KeyUsage,
    SubjectAltName,
    ExtKeyUsage,
    BasicConstraints,
    Other,
}

/// What is asked for, as parameters have it.
#[derive(Drop)]
pub(crate) struct Asked {
    pub(crate) names: Vec<SanType>,
    pub(crate) usages: Vec<KeyUsagePurpose>,
    /// All that are listed, repeats too.
    pub(crate) purposes: Vec<ExtendedKeyUsagePurpose>,
    pub(crate) is_ca: IsCa,
}

/// The value of which the contents of an extension are the form. `UnsupportedExtension` exactly
/// where they aren't one value of the type.
pub(crate) fn contents_value<T: DerType>(alloc: Global, contents: &[u8]) -> Result<T, Error>
    ensures { ReadsAs (λ v. v) (read_exactly T.codec unsupported_extension contents.now) result }
{
    match der::value_of(alloc, contents)? {
        Some(value) => Ok(value),
        None => Err(Error::UnsupportedExtension),
    }
}

/// The kind of the extension with that identifier.
fn kind_of(id: &ObjectIdentifier) -> Kind
    ensures { result ≡ kind_of id.now }
{
    let arcs = id.arcs();
    if arcs == ID_CE_KEY_USAGE {
        Kind::KeyUsage
    } else if arcs == ID_CE_SUBJECT_ALT_NAME {
        Kind::SubjectAltName
    } else if arcs == ID_CE_EXT_KEY_USAGE {
        Kind::ExtKeyUsage
    } else if arcs == ID_CE_BASIC_CONSTRAINTS {
        Kind::BasicConstraints
    } else {
        Kind::Other
    }
}

/// Asks for what the contents of an extension of that kind say.
#[tactic(auto, using(crate::proofs::InsertedPurposes::inserted_append))]
fn ask(alloc: Global, asked: &mut Asked, kind: Kind, contents: &[u8]) -> Result<(), Error>
    ensures { ReadsAs (λ _. asked_view asked.new) (ask (asked_view asked.old) kind contents.now) result }
{
    match kind {
        Kind::KeyUsage => asked.usages = key_usages(alloc, contents)?,
        Kind::SubjectAltName => {
            let mut names = alternative_names(alloc, contents)?;
            asked.names.append(&mut names)?;
        }
        Kind::ExtKeyUsage => {
            let mut listed = purposes(alloc, contents)?;
            asked.purposes.append(&mut listed)?;
        }
        Kind::BasicConstraints => asked.is_ca = is_ca(alloc, contents)?,
        Kind::Other => return Err(Error::UnsupportedExtension),
    }
    Ok(())
}

/// Asks for what the extension says. Whether it is critical isn't looked at.
#[tactic(auto, unfolding(crate::specs::ExtensionReading::ask_for))]
fn ask_for(alloc: Global, asked: &mut Asked, extension: &Extension) -> Result<(), Error>
    ensures { ReadsAs (λ _. asked_view asked.new) (ask_for (asked_view asked.old) extension.now) result }
{
    let kind = kind_of(&extension.extn_id);
    ask(alloc, asked, kind, extension.extn_value.as_slice())
}

/// What all of the extensions ask for, in order.
#[tactic(auto, unfolding(crate::specs::ExtensionReading::read_extensions))]
pub(crate) fn asked_for(alloc: Global, extensions: &[Extension]) -> Result<Asked, Error>
    ensures { ReadsAs asked_view (read_extensions extensions.now) result }
{
    let mut asked = Asked {
        names: Vec::new(alloc),
        usages: Vec::new(alloc),
        purposes: Vec::new(alloc),
        is_ca: IsCa::NoCa,
    };
    for extension in extensions {
        ask_for(alloc, &mut asked, extension)?;
    }
    Ok(asked)
}
