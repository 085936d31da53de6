//! What the extensions say that most rules look at (RFC 5280, 4.2.1).
ghost use Rattle.std.specs.Prelude.{◌≡◌, IfOk};
ghost use Rattle.pkix_rules.specs.Extensions.{same_id};
ghost use Rattle.std.specs.List.{list_any};
ghost use Rattle.std.specs.Option.{option_map};
ghost use Rattle.pkix_rules.specs.Said.{has_path_length, has_purpose, has_usage, is_authority, key_identifier_in, path_length_in, said_of};

use crate::extension::said_at;
use asn1_core::{Integer, OutOfMemory};
use pkix_cert::extension_id::{
    ID_CE_AUTHORITY_KEY_IDENTIFIER, ID_CE_BASIC_CONSTRAINTS, ID_CE_EXT_KEY_USAGE, ID_CE_KEY_USAGE,
    ID_CE_SUBJECT_KEY_IDENTIFIER,
};
use pkix_cert::{
    AuthorityKeyIdentifier, BasicConstraints, ExtKeyUsageSyntax, Extension, KeyIdentifier,
    KeyPurposeId, KeyUsage, SubjectKeyIdentifier,
};
use std::alloc::Global;

/// What these extensions say, where each is there and can be read.
pub(crate) struct Said {
    pub(crate) constraints: Option<BasicConstraints>,
    pub(crate) key_usage: Option<KeyUsage>,
    pub(crate) purposes: Option<ExtKeyUsageSyntax>,
    pub(crate) authority_key_id: Option<AuthorityKeyIdentifier>,
    pub(crate) subject_key_id: Option<SubjectKeyIdentifier>,
}

impl Drop for Said {
    fn drop(self) {
        let Said {
            constraints: _,
            key_usage: _,
            purposes: _,
            authority_key_id: _,
            subject_key_id: _,
        } = self;
    }
}

/// What the extensions say that are read.
#[tactic(auto, unfolding(crate::specs::Said::said_of))]
pub(crate) fn said_of(alloc: Global, extensions: &[Extension]) -> Result<Said, OutOfMemory>
    ensures { IfOk result (λ s. s ≡ said_of extensions.now) }
{
    let constraints = said_at(alloc, extensions, ID_CE_BASIC_CONSTRAINTS)?;
    let key_usage = said_at(alloc, extensions, ID_CE_KEY_USAGE)?;
    let purposes = said_at(alloc, extensions, ID_CE_EXT_KEY_USAGE)?;
    let authority_key_id = said_at(alloc, extensions, ID_CE_AUTHORITY_KEY_IDENTIFIER)?;
    let subject_key_id = said_at(alloc, extensions, ID_CE_SUBJECT_KEY_IDENTIFIER)?;
    Ok(Said {
        constraints,
        key_usage,
        purposes,
        authority_key_id,
        subject_key_id,
    })
}

/// Whether the subject is an authority: cA (RFC 5280, 4.2.1.9).
pub(crate) fn is_authority(constraints: &Option<BasicConstraints>) -> bool
    ensures { result ≡ is_authority constraints.now }
{
    match constraints {
        None => false,
        Some(constraints) => constraints.ca,
    }
}

/// How long a path below it may be: pathLenConstraint (RFC 5280, 4.2.1.9).
pub(crate) fn path_length_in(constraints: &Option<BasicConstraints>) -> Option<&Integer>
    ensures { option_map (λ n. n.now) result ≡ path_length_in constraints.now }
{
    match constraints {
        None => None,
        Some(constraints) => constraints.path_len_constraint.as_ref(),
    }
}

/// Whether there is a pathLenConstraint.
pub(crate) fn has_path_length(constraints: &Option<BasicConstraints>) -> bool
    ensures { result ≡ has_path_length constraints.now }
{
    match constraints {
        None => false,
        Some(constraints) => constraints.path_len_constraint.is_some(),
    }
}

/// Whether key usage is there and has the bit.
pub(crate) fn has_usage(usage: &Option<KeyUsage>, bit: usize) -> bool
    ensures { result ≡ has_usage bit usage.now }
{
    match usage {
        None => false,
        Some(usage) => usage.bit(bit),
    }
}

fn is_listed(purposes: &[KeyPurposeId], id: &[u32]) -> bool
    ensures { result ≡ list_any (λ p. same_id p id.now) purposes.now }
{
    purposes.iter().any(|purpose| purpose.arcs() == id)
}

/// Whether the purpose is among those of the key (RFC 5280, 4.2.1.12).
pub(crate) fn has_purpose(purposes: &Option<ExtKeyUsageSyntax>, id: &[u32]) -> bool
    ensures { result ≡ has_purpose id.now purposes.now }
{
    match purposes {
        None => false,
        Some(purposes) => is_listed(purposes.as_slice(), id),
    }
}

/// The identifier of the issuer's key, where it is there (RFC 5280, 4.2.1.1).
pub(crate) fn key_identifier_in(id: &Option<AuthorityKeyIdentifier>) -> Option<&KeyIdentifier>
    ensures { option_map (λ k. k.now) result ≡ key_identifier_in id.now }
{
    match id {
        None => None,
        Some(id) => id.key_identifier.as_ref(),
    }
}
