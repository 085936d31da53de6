//! Who signed a list (RFC 5280, 6.3.3 (f) and (g)).
ghost use Rattle.std.specs.Prelude.{◌≡◌, IfOk, map};
ghost use Rattle.std.specs.Option.{option_map};
ghost use Rattle.path_revocation.specs.Lists.{accepted, encoding_of, is_issuer_of, is_signed_by, is_sound, is_sound_under, may_sign_lists};
ghost use Rattle.path_revocation.specs.Lists.{same_bits, same_key, same_key_info, sound_lists};

use crate::given::{GivenList, ListIssuer, RevocationInputs};
use crate::list::{is_usable, same_algorithm};
use asn1_core::{BitString, OutOfMemory};
use der_tree::{DerType, EncodeError, der};
use jiff::civil::DateTime;
use path_names::names_match;
use pkix_cert::{CRL_SIGN, CertificateList, KeyUsage, SubjectPublicKeyInfo};
use rcgen_sign::Verifier;
use std::alloc::Global;

fn may_sign_lists(usage: &Option<KeyUsage>) -> bool
    ensures { result ≡ may_sign_lists usage.now }
{
    match usage {
        None => true,
        Some(usage) => usage.bit(CRL_SIGN),
    }
}

/// Whether the list names this issuer, whose key may sign lists (RFC 5280, 6.3.3 (f)).
#[tactic(auto, unfolding(crate::specs::Lists::is_issuer_of))]
pub fn is_issuer_of(list: &CertificateList, issuer: &ListIssuer) -> bool
    ensures { result ≡ is_issuer_of list.now issuer.now }
{
    names_match(&issuer.name, &list.tbs_cert_list.issuer) && may_sign_lists(&issuer.key_usage)
}

/// The DER encoding; each value that was read has one.
#[tactic(auto, unfolding(crate::specs::Lists::encoding_of))]
fn encoded<T: DerType>(alloc: Global, value: &T) -> Result<Option<Vec<u8>>, OutOfMemory>
    ensures { IfOk result (λ o. option_map (λ v. v.items) o ≡ encoding_of T.codec value.now) }
{
    match der::encode(alloc, value) {
        Ok(octets) => Ok(Some(octets)),
        Err(EncodeError::OutOfMemory) => Err(OutOfMemory),
        Err(_) => Ok(None),
    }
}

/// Whether the signature has no unused bits, and is accepted.
fn is_accepted<V: Verifier>(
    info: &Option<Vec<u8>>,
    key_info: &Option<Vec<u8>>,
    algorithm: &Option<Vec<u8>>,
    signature: &BitString,
    verifier: &V,
) -> bool
    ensures { result ≡ accepted (V.accepts verifier.now) (option_map (λ v. v.items) info.now) (option_map (λ v. v.items) key_info.now)
        (option_map (λ v. v.items) algorithm.now) signature.now }
{
    let Some(info) = info else {
        return false;
    };
    let Some(key_info) = key_info else {
        return false;
    };
    let Some(algorithm) = algorithm else {
        return false;
    };
    signature.unused() == 0
        && verifier.verify(
            info.as_slice(),
            key_info.as_slice(),
            algorithm.as_slice(),
            signature.bytes(),
        )
}

/// Whether the signature over the list is accepted under the issuer's key (RFC 5280, 6.3.3 (g)).
#[tactic(auto, unfolding(crate::specs::Lists::is_signed_by))]
fn is_signed_by<V: Verifier>(
    alloc: Global,
    list: &CertificateList,
    issuer: &ListIssuer,
    verifier: &V,
) -> Result<bool, OutOfMemory>
    ensures { IfOk result (λ b. b ≡ is_signed_by (V.accepts verifier.now) list.now issuer.now) }
{
    let info = encoded(alloc, &list.tbs_cert_list)?;
    let key_info = encoded(alloc, &issuer.key_info)?;
    let algorithm = encoded(alloc, &list.signature_algorithm)?;
    Ok(is_accepted(&info, &key_info, &algorithm, &list.signature, verifier))
}

fn is_sound_under<V: Verifier>(
    alloc: Global,
    at: DateTime,
    list: &CertificateList,
    issuer: &Option<ListIssuer>,
    verifier: &V,
) -> Result<bool, OutOfMemory>
    ensures { IfOk result (λ b. b ≡ is_sound_under (V.accepts verifier.now) at list.now issuer.now) }
{
    let Some(issuer) = issuer else {
        return Ok(false);
    };
    if !is_issuer_of(list, issuer) {
        return Ok(false);
    }
    if !is_usable(alloc, at, list)? {
        return Ok(false);
    }
    is_signed_by(alloc, list, issuer, verifier)
}

/// Whether the list can be used, and its issuer signed it (RFC 5280, 6.3.3 (a), (f) and (g)).
#[tactic(auto, unfolding(crate::specs::Lists::is_sound))]
fn is_sound<V: Verifier>(
    alloc: Global,
    at: DateTime,
    given: &GivenList,
    verifier: &V,
) -> Result<bool, OutOfMemory>
    ensures { IfOk result (λ b. b ≡ is_sound (V.accepts verifier.now) at given.now) }
{
    is_sound_under(alloc, at, &given.list, &given.issuer, verifier)
}

/// The lists that are so. Each signature is checked here, and once.
#[tactic(auto, unfolding(crate::specs::Lists::sound_lists))]
pub(crate) fn sound_lists<'a, V: Verifier>(
    alloc: Global,
    inputs: &'a RevocationInputs,
    verifier: &V,
) -> Result<Vec<&'a GivenList>, OutOfMemory>
    ensures { IfOk result (λ sound. map (λ g. g.now) sound.items ≡ sound_lists (V.accepts verifier.now) inputs.now) }
{
    let mut sound = Vec::new(alloc);
    for given in inputs.lists.as_slice() {
        if is_sound(alloc, inputs.at, given, verifier)? {
            sound.push(given)?;
        }
    }
    Ok(sound)
}

fn same_bits(a: &BitString, b: &BitString) -> bool
    ensures { result ≡ same_bits a.now b.now }
{
    a.unused() == b.unused() && a.bytes() == b.bytes()
}

fn same_key_info(a: &SubjectPublicKeyInfo, b: &SubjectPublicKeyInfo) -> bool
    ensures { result ≡ same_key_info a.now b.now }
{
    same_algorithm(&a.algorithm, &b.algorithm)
        && same_bits(&a.subject_public_key, &b.subject_public_key)
}

/// Whether both are there, and have one key.
pub(crate) fn same_key(a: &Option<ListIssuer>, b: &Option<ListIssuer>) -> bool
    ensures { result ≡ same_key a.now b.now }
{
    match (a, b) {
        (Some(a), Some(b)) => same_key_info(&a.key_info, &b.key_info),
        _ => false,
    }
}
