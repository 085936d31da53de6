//! What a request decides of what the order takes of it.
ghost use Rattle.std.specs.Prelude.{◌≡◌, [], if◌then◌else◌, map};
ghost use Rattle.rcgen_certificate.specs.ExtendedKeyUsages.{purpose_of};
ghost use Rattle.rcgen_certificate.specs.ParamsView.{params_view};
ghost use Rattle.rcgen_text.specs.AlternativeNames.{alternative_name};
ghost use Rattle.rcgen_read.specs.ReceivedRequests.{has_unused_bits};
ghost use Rattle.shelf_fault.specs.Faults.{Gets, Passes};
ghost use Rattle.shelf_fault.specs.declared.fault.Fault.TheVariants.{Obstacle as OfObstacle, RequestNotRead as Unread};
ghost use Rattle.shelf_fault.specs.declared.fault.Obstacle.TheVariants.{RequestNotRead as NotRead};
ghost use Rattle.shelf_keys.specs.Refusing.{refuse};
ghost use Rattle.shelf_params.specs.Requests.{asked_for, is_decided, is_other_version, is_signed, is_taken_by_name, key_id_taken, named_by, named_taken};
ghost use Rattle.shelf_params.specs.Requests.{names_authority, names_taken, own_signature, request_of, skips_key_id, some_purposes, takes_no_name, takes_some};
ghost use Rattle.shelf_params.specs.Requests.{unsigned_fault, with_asked, with_key_id, with_taken};

use crate::allowed::names_allowed;
use crate::allowed_subject::subject_allowed;
use crate::asked_extensions::{asked_extensions, asked_key_id};
use crate::asked_names::{names_of_their_kinds, subject_is_shown, visible_names};
use asn1_core::{BitString, OctetString};
use der_tree::{SequenceOf, der};
use pkix_cert::CertificationRequest;
use pkix_name::Name;
use rcgen_issue::{
    CertificateParams, DistinguishedName, ExtendedKeyUsagePurpose, IsCa, KeyIdMethod, SanType,
    Verifier,
};
use rcgen_read::{has_unused_bits, params_asked_for};
use shelf_fault::{Fault, Obstacle};
use shelf_keys::encoded;
use shelf_profile::{ExtensionId, RequestUse};
use signature_verifier::{KeyKind, SignatureScheme, SignatureVerifier};
use std::alloc::Global;

/// Refuses a signature that isn't verified, unless that isn't decided here and it was looked at.
fn refuse_unsigned(is_signed: bool, is_decided: bool, is_unchecked: bool) -> Result<(), Fault>
    ensures { Passes (unsigned_fault is_signed is_decided is_unchecked) result }
{
    if is_signed {
        return Ok(());
    }
    if is_decided {
        return Err(Fault::RequestNotSigned);
    }
    if is_unchecked {
        Ok(())
    } else {
        Err(Fault::RequestUnchecked)
    }
}

/// Whether the signature, without unused bits, is that of the key with this info over the message.
fn is_signed(message: &[u8], info: &[u8], algorithm: &[u8], signature: &BitString) -> bool
    ensures { result ≡ is_signed message.now info.now algorithm.now signature.now }
{
    signature.unused() == 0
        && SignatureVerifier::new().verify(message, info, algorithm, signature.bytes())
}

/// Whether signatures by the algorithm of this identifier are taken.
fn is_taken_by_name(algorithm: &[u8]) -> bool
    ensures { result ≡ is_taken_by_name algorithm.now }
{
    match SignatureScheme::named(algorithm) {
        Some(scheme) => SignatureVerifier::new().takes(scheme),
        None => false,
    }
}

/// Whether it is decided here if a signature by this algorithm is that of a key of the other one.
fn is_decided(algorithm: &[u8], key_algorithm: &[u8]) -> bool
    ensures { result ≡ is_decided algorithm.now key_algorithm.now }
{
    is_taken_by_name(algorithm) && KeyKind::named(key_algorithm).is_some()
}

/// Refuses a request that isn't signed by its own key.
#[tactic(auto, unfolding(crate::specs::Requests::own_signature))]
fn own_signature(
    alloc: Global,
    request: &CertificationRequest,
    is_unchecked: bool,
) -> Result<(), Fault>
    ensures { Passes (own_signature request.now is_unchecked) result }
{
    let message = encoded(alloc, &request.info, Fault::RequestNotRead)?;
    let info = encoded(
        alloc,
        &request.info.subject_public_key_info,
        Fault::RequestNotRead,
    )?;
    let key_algorithm = encoded(
        alloc,
        &request.info.subject_public_key_info.algorithm,
        Fault::RequestNotRead,
    )?;
    let algorithm = encoded(alloc, &request.signature_algorithm, Fault::RequestNotRead)?;
    let is_signed = is_signed(&message, &info, &algorithm, &request.signature);
    let is_decided = is_decided(&algorithm, &key_algorithm);
    refuse_unsigned(is_signed, is_decided, is_unchecked)
}

/// Refuses a request of another version than 1, the only one that there is (RFC 2986, 4.1).
fn refuse_other_version(request: &CertificationRequest) -> Result<(), Fault>
    ensures { Passes (refuse (is_other_version request.now) Unread) result }
{
    if request.info.version.raw_value() == 0 {
        return Ok(());
    }
    Err(Fault::RequestNotRead)
}

/// The request that the octets are, of version 1 and signed by its own key.
#[tactic(auto, unfolding(crate::specs::Requests::request_of))]
pub fn request_of(
    alloc: Global,
    octets: &[u8],
    is_unchecked: bool,
) -> Result<CertificationRequest, Fault>
    ensures { Gets (λ r. r) (request_of octets.now is_unchecked) result }
{
    let Some(request) = der::value_of::<CertificationRequest>(alloc, octets)? else {
        return Err(Fault::RequestNotRead);
    };
    refuse_other_version(&request)?;
    own_signature(alloc, &request, is_unchecked)?;
    Ok(request)
}

/// Refuses a request of which bits at the end of the key or of the signature are unused.
fn refuse_unused_bits(request: &CertificationRequest) -> Result<(), Fault>
    ensures { Passes (refuse (has_unused_bits request.now) (OfObstacle NotRead)) result }
{
    if has_unused_bits(request) {
        return Err(Fault::Obstacle(Obstacle::RequestNotRead));
    }
    Ok(())
}

/// What the request asks for by extensions that are known, but for those that are passed over. Its
/// subject isn't looked at.
#[tactic(auto, unfolding(crate::specs::Requests::asked_for))]
fn asked_for(
    alloc: Global,
    skips_key_id: bool,
    ignored: &[ExtensionId],
    request: &CertificationRequest,
) -> Result<CertificateParams, Fault>
    ensures { Gets (λ params. named_by (params_view params)) (asked_for skips_key_id ignored.now request.now) result }
{
    let attributes = request.info.attributes.as_slice();
    let extensions = asked_extensions(alloc, skips_key_id, ignored, attributes)?;
    refuse_unused_bits(request)?;
    let no_name = Name::RdnSequence(SequenceOf::new(alloc));
    let params = params_asked_for(alloc, &no_name, extensions.as_slice())?;
    Ok(params)
}

/// Refuses a subject with a value that isn't a text or has a hidden character, and alternative names
/// without a visible text or that no host has, where they are taken.
#[tactic(auto, unfolding(crate::specs::Requests::names_taken))]
fn names_taken(
    alloc: Global,
    taken: &RequestUse,
    request: &CertificationRequest,
    asked: &CertificateParams,
) -> Result<(), Fault>
    ensures { Passes (names_taken taken.now request.now (named_by (params_view asked.now))) result }
{
    subject_is_shown(alloc, taken.takes_subject, &request.info.subject)?;
    let is_taken = taken.takes_alt_names;
    visible_names(is_taken, &asked.subject_alt_names)?;
    names_of_their_kinds(is_taken, &asked.subject_alt_names)
}

/// Refuses to take purposes where none is asked for: the key would be for any (RFC 5280, 4.2.1.12).
fn some_purposes(is_taken: bool, purposes: &[ExtendedKeyUsagePurpose]) -> Result<(), Fault>
    ensures { Passes (some_purposes is_taken (map purpose_of purposes.now)) result }
{
    if is_taken && purposes.is_empty() {
        return Err(Fault::RequestPurposes);
    }
    Ok(())
}

/// Whether the subject is taken and has no part.
fn takes_no_name(taken: &RequestUse, subject: &Name) -> bool
    ensures { result ≡ takes_no_name taken.now subject.now }
{
    let Name::RdnSequence(parts) = subject;
    taken.takes_subject && parts.as_slice().is_empty()
}

/// The name without attributes where that is the one that is taken, and else the own one.
fn name_by(alloc: Global, is_none: bool, own: DistinguishedName) -> DistinguishedName
    ensures { result ≡ (if is_none then [] else own) }
{
    if is_none {
        DistinguishedName::new(alloc)
    } else {
        own
    }
}

/// The alternative names that are asked for, where they are taken.
fn names_by(is_taken: bool, asked: Vec<SanType>, own: Vec<SanType>) -> Vec<SanType>
    ensures { map alternative_name result.items ≡ (if is_taken then map alternative_name asked.items else map alternative_name own.items) }
{
    if is_taken { asked } else { own }
}

/// The purposes that are asked for, where they are taken.
fn purposes_by(
    is_taken: bool,
    asked: Vec<ExtendedKeyUsagePurpose>,
    own: Vec<ExtendedKeyUsagePurpose>,
) -> Vec<ExtendedKeyUsagePurpose>
    ensures { map purpose_of result.items ≡ (if is_taken then map purpose_of asked.items else map purpose_of own.items) }
{
    if is_taken { asked } else { own }
}

/// The parameters with what is taken of what the request asks for, but for its subject, of which they say
/// only whether it has parts.
fn with_asked(
    alloc: Global,
    params: CertificateParams,
    request: &CertificationRequest,
    taken: &RequestUse,
    asked: CertificateParams,
) -> CertificateParams
    ensures { params_view result ≡ with_asked (params_view params) request.now taken.now (named_by (params_view asked)) }
{
    let is_none = takes_no_name(taken, &request.info.subject);
    let name = name_by(alloc, is_none, params.distinguished_name);
    let names = names_by(
        taken.takes_alt_names,
        asked.subject_alt_names,
        params.subject_alt_names,
    );
    let purposes = purposes_by(
        taken.takes_purposes,
        asked.extended_key_usages,
        params.extended_key_usages,
    );
    CertificateParams {
        distinguished_name: name,
        subject_alt_names: names,
        extended_key_usages: purposes,
        ..params
    }
}

/// Whether the subject is to be an authority.
fn names_authority(is_ca: &IsCa) -> bool
    ensures { result ≡ names_authority is_ca.now }
{
    match is_ca {
        IsCa::NoCa | IsCa::ExplicitNoCa => false,
        IsCa::Ca(_) => true,
    }
}

/// Whether the identifier of the key that a request asks for is passed over.
fn skips_key_id(taken: &RequestUse, params: &CertificateParams) -> bool
    ensures { result ≡ skips_key_id taken.now (params_view params.now) }
{
    taken.takes_key_id || !names_authority(&params.is_ca)
}

/// The identifier of the key that the request asks for, where it is taken.
fn key_id_taken(
    alloc: Global,
    is_taken: bool,
    request: &CertificationRequest,
) -> Result<Option<OctetString>, Fault>
    ensures { Gets (λ id. id) (key_id_taken is_taken request.now) result }
{
    if !is_taken {
        return Ok(None);
    }
    let id = asked_key_id(alloc, request.info.attributes.as_slice())?;
    Ok(Some(id))
}

/// The parameters with this identifier of the subject's key, where there is one.
fn with_key_id(params: CertificateParams, id: Option<OctetString>) -> CertificateParams
    ensures { params_view result ≡ with_key_id (params_view params) id }
{
    match id {
        Some(id) => CertificateParams {
            key_identifier_method: KeyIdMethod::PreSpecified(id.into_vec()),
            ..params
        },
        None => params,
    }
}

/// The parameters with the names and purposes that are taken of a request.
#[tactic(auto, unfolding(crate::specs::Requests::named_taken))]
fn named_taken(
    alloc: Global,
    params: CertificateParams,
    request: &CertificationRequest,
    taken: &RequestUse,
) -> Result<CertificateParams, Fault>
    ensures { Gets params_view (named_taken (params_view params) request.now taken.now) result }
{
    let skips = skips_key_id(taken, &params);
    let asked = asked_for(alloc, skips, taken.ignored_extensions.as_slice(), request)?;
    names_taken(alloc, taken, request, &asked)?;
    names_allowed(
        alloc,
        taken.takes_alt_names,
        &taken.allowed,
        &asked.subject_alt_names,
    )?;
    subject_allowed(
        alloc,
        taken.takes_subject,
        &taken.allowed,
        &request.info.subject,
    )?;
    some_purposes(taken.takes_purposes, &asked.extended_key_usages)?;
    Ok(with_asked(alloc, params, request, taken, asked))
}

/// Whether something of a request is taken.
pub fn takes_some(taken: &RequestUse) -> bool
    ensures { result ≡ takes_some taken.now }
{
    taken.takes_subject || taken.takes_alt_names || taken.takes_purposes || taken.takes_key_id
}

/// The parameters with what is taken of a request.
#[tactic(auto, unfolding(crate::specs::Requests::with_taken))]
pub fn with_taken(
    alloc: Global,
    params: CertificateParams,
    request: &CertificationRequest,
    taken: &RequestUse,
) -> Result<CertificateParams, Fault>
    ensures { Gets params_view (with_taken (params_view params) request.now taken.now) result }
{
    if !takes_some(taken) {
        return Ok(params);
    }
    let named = named_taken(alloc, params, request, taken)?;
    let id = key_id_taken(alloc, taken.takes_key_id, request)?;
    Ok(with_key_id(named, id))
}
