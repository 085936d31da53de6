//! The fields of what an issuer signs that are no parts of a view.
ghost use Rattle.std.specs.Prelude.{◌≡◌, IfOk};
ghost use Rattle.der_tree.specs.Windows.{Decodes};
ghost use Rattle.certify_core.specs.ListedParts.{behind_key_info, fields_in, other_fields};

use asn1_core::{BitString, Tag};
use der_tree::{DecodeError, Fields, explicit, implicit, one_window, opened, or_default};
use pkix_cert::Version;
use std::alloc::{AllocError, Global};

/// The version (RFC 5280, 4.1.2.1), and the identifiers of issuer and subject (4.1.2.8).
#[derive(Drop)]
pub(crate) struct OtherFields {
    pub(crate) version: Version,
    pub(crate) issuer_unique_id: Option<BitString>,
    pub(crate) subject_unique_id: Option<BitString>,
}

/// The fields after the six that are required.
#[tactic(auto, unfolding(crate::specs::ListedParts::behind_key_info))]
fn behind_key_info<'a>(fields: &Fields<'a>) -> Option<Fields<'a>>
    ensures { result ≡ behind_key_info fields.now }
{
    let (_serial_number, rest) = fields.first()?;
    let (_signature, rest) = rest.first()?;
    let (_issuer, rest) = rest.first()?;
    let (_validity, rest) = rest.first()?;
    let (_subject, rest) = rest.first()?;
    let (_key_info, rest) = rest.first()?;
    Some(rest)
}

#[tactic(auto, unfolding(crate::specs::ListedParts::fields_in, crate::specs::ListedParts::others_within))]
fn fields_in(alloc: Global, tbs: &[u8]) -> Result<OtherFields, DecodeError>
    ensures { Decodes result (fields_in tbs.now) }
{
    let Some(window) = one_window(tbs) else {
        return Err(DecodeError::NotInGrammar);
    };
    let mut fields = opened(window, Tag::SEQUENCE)?;
    let version = or_default(explicit(alloc, &mut fields, Tag::CONTEXT_0)?, Version::V1)?;
    let Some(mut fields) = behind_key_info(&fields) else {
        return Err(DecodeError::NotInGrammar);
    };
    let issuer_unique_id = implicit(alloc, &mut fields, Tag::CONTEXT_1)?;
    let subject_unique_id = implicit(alloc, &mut fields, Tag::CONTEXT_2)?;
    Ok(OtherFields {
        version,
        issuer_unique_id,
        subject_unique_id,
    })
}

/// These fields of the element that the octets are; version 1 and no identifiers where they are none.
pub(crate) fn other_fields(alloc: Global, tbs: &[u8]) -> Result<OtherFields, AllocError>
    ensures { IfOk result (λ fields. fields ≡ other_fields tbs.now) }
{
    match fields_in(alloc, tbs) {
        Ok(fields) => Ok(fields),
        Err(DecodeError::NotInGrammar) => Ok(OtherFields {
            version: Version::V1,
            issuer_unique_id: None,
            subject_unique_id: None,
        }),
        Err(DecodeError::OutOfMemory) => Err(AllocError),
    }
}
