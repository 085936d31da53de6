//! Identifiers of keys, as extensions have them.
ghost use Rattle.std.specs.Prelude.{◌≡◌, IfOk, IfErr, ◌++◌, map, OnOk};
ghost use Rattle.rcgen_sign.specs.KeyIds.{key_id, method_of};
ghost use Rattle.rcgen_sign.specs.Keys.{key_info_octets};
ghost use Rattle.rcgen_text.specs.declared.error.Error.TheVariants.{OutOfMemory};
ghost use Rattle.rcgen_certificate.specs.KeyIdentifiers.{authority_key, authority_key_if, authority_key_row, subject_key, subject_key_if, subject_key_row};
ghost use Rattle.rcgen_certificate.specs.ExtensionRows.{row_of_extension};
ghost use Rattle.rcgen_certificate.specs.Issuers.{view_of};

use crate::extension::push_extension;
use crate::issuer::Issuer;
use asn1_core::OctetString;
use der_tree::SequenceOf;
use pkix_cert::extension_id::{ID_CE_AUTHORITY_KEY_IDENTIFIER, ID_CE_SUBJECT_KEY_IDENTIFIER};
use pkix_cert::{AuthorityKeyIdentifier, Extension, SubjectKeyIdentifier};
use rcgen_sign::{KeyIdMethod, PublicKeyData, SigningKey};
use rcgen_text::{Error, IsCa};
use std::alloc::Global;

/// Which key of the issuer signed: the one with this identifier (RFC 5280, 4.2.1.1).
pub fn authority_key(alloc: Global, id: &[u8]) -> Result<AuthorityKeyIdentifier, Error>
    ensures value { IfOk result (λ a. a ≡ authority_key id.now) }
    ensures memory { IfErr result (λ e. e ≡ OutOfMemory) }
{
    let id = OctetString::new(Vec::from_slice(alloc, id)?);
    Ok(AuthorityKeyIdentifier {
        key_identifier: Some(id),
        authority_cert_issuer: None,
        authority_cert_serial_number: None,
    })
}

/// The identifier of a key, by this method (RFC 5280, 4.2.1.2).
pub fn key_id<K: PublicKeyData>(
    alloc: Global,
    method: &KeyIdMethod,
    key: &K,
) -> Result<Vec<u8>, Error>
    ensures value { IfOk result (λ id. id.items ≡ key_id (method_of method.now) (key_info_octets (K.key key.now))) }
    ensures memory { IfErr result (λ e. e ≡ OutOfMemory) }
{
    let info = key.subject_public_key_info(alloc)?;
    method.derive(alloc, info.as_slice())
}

/// The identifier of the issuer's key; None where it isn't asked for.
fn authority_key_if<S: SigningKey>(
    alloc: Global,
    asked: bool,
    issuer: &Issuer<'_, S>,
) -> Result<Option<AuthorityKeyIdentifier>, Error>
    ensures value { IfOk result (λ id. id ≡ authority_key_if asked (view_of S.key issuer.now).key_identifier) }
    ensures memory { IfErr result (λ e. e ≡ OutOfMemory) }
{
    if !asked {
        return Ok(None);
    }
    let id = key_id(alloc, issuer.key_identifier_method(), issuer.key())?;
    Ok(Some(authority_key(alloc, id.as_slice())?))
}

/// Puts the extension on the identifier of the issuer's key at the end, where it is asked for.
#[tactic(auto, using(crate::proofs::KindTrees::authority_key_formed))]
pub fn push_authority_key<S: SigningKey>(
    alloc: Global,
    list: &mut SequenceOf<Extension>,
    asked: bool,
    issuer: &Issuer<'_, S>,
) -> Result<(), Error>
    ensures rows { OnOk result (map row_of_extension list.new ≡ map row_of_extension list.old ++ authority_key_row asked (view_of S.key issuer.now).key_identifier) }
    ensures memory { IfErr result (λ e. e ≡ OutOfMemory) }
{
    let id = authority_key_if(alloc, asked, issuer)?;
    push_extension(alloc, list, ID_CE_AUTHORITY_KEY_IDENTIFIER, false, id)
}

/// The identifier of the subject's key; None where nothing is said of an authority.
fn subject_key_if<K: PublicKeyData>(
    alloc: Global,
    is_ca: IsCa,
    method: &KeyIdMethod,
    key: &K,
) -> Result<Option<SubjectKeyIdentifier>, Error>
    ensures value { IfOk result (λ id. id ≡ subject_key_if is_ca (subject_key (method_of method.now) (key_info_octets (K.key key.now)))) }
    ensures memory { IfErr result (λ e. e ≡ OutOfMemory) }
{
    match is_ca {
        IsCa::NoCa => Ok(None),
        IsCa::ExplicitNoCa => Ok(Some(OctetString::new(key_id(alloc, method, key)?))),
        IsCa::Ca(_) => Ok(Some(OctetString::new(key_id(alloc, method, key)?))),
    }
}

/// Puts the extension on the identifier of the subject's key at the end.
#[tactic(auto, using(crate::proofs::KindTrees::subject_key_formed))]
pub(crate) fn push_subject_key<K: PublicKeyData>(
    alloc: Global,
    list: &mut SequenceOf<Extension>,
    is_ca: IsCa,
    method: &KeyIdMethod,
    key: &K,
) -> Result<(), Error>
    ensures rows { OnOk result (map row_of_extension list.new ≡ map row_of_extension list.old ++ subject_key_row is_ca (subject_key (method_of method.now) (key_info_octets (K.key key.now)))) }
    ensures memory { IfErr result (λ e. e ≡ OutOfMemory) }
{
    let id = subject_key_if(alloc, is_ca, method, key)?;
    push_extension(alloc, list, ID_CE_SUBJECT_KEY_IDENTIFIER, false, id)
}
