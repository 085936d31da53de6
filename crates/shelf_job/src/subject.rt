//! The subject of a certificate, and the key that signs it.
ghost use Rattle.std.specs.Prelude.{◌≡◌, Some, None, IfOk};
ghost use Rattle.asn1_core.specs.Moment.{instant};
ghost use Rattle.rcgen_certificate.specs.ParamsView.{params_view};
ghost use Rattle.shelf_fault.specs.Faults.{Gets, Passes};
ghost use Rattle.shelf_job.specs.Jobs.{ends_last, fits_preset, name_by, own_key, own_signing, requested_subject, signing_key, subject_by, subject_in, subject_of, subject_place, subject_with};

use crate::issuer::authority_key;
use asn1_core::{OctetString, OffsetDateTime, OutOfMemory, TryClone};
use der_tree::der;
use pkix_cert::{CertificationRequest, Name, SubjectPublicKeyInfo};
use rcgen_issue::{CertificateParams, PublicKey};
use rcgen_tbs::Subject;
use shelf_fault::{Fault, KeyFault, Label, Place};
use shelf_keys::{ANY, key_of_info};
use shelf_params::{request_of, takes_some, with_taken};
use shelf_profile::{Preset, RequestUse, Signing};
use std::alloc::Global;

/// What may come after the order of a certificate with this preset: a root is its own issuer, and the
/// others aren't.
pub(crate) fn fits_preset(preset: Option<Preset>, has_issuer: bool) -> Result<(), Fault>
    ensures { Passes (fits_preset preset has_issuer) result }
{
    match preset {
        Some(Preset::Root) => if has_issuer {
            Err(Fault::Unused(Label::Certificate))
        } else {
            Ok(())
        },
        Some(_) => if has_issuer {
            Ok(())
        } else {
            Err(Fault::Missing(Label::Certificate))
        },
        None => Ok(()),
    }
}

/// A subject by its key, or where that is of no known algorithm by its info.
fn subject_by(found: Result<PublicKey, Fault>, info: SubjectPublicKeyInfo) -> Result<Subject, Fault>
    ensures { result ≡ subject_by found info }
{
    match found {
        Ok(key) => Ok(Subject::Known(key)),
        Err(Fault::Key(_, KeyFault::Unknown(_))) => Ok(Subject::Other(info)),
        Err(other) => Err(other),
    }
}

/// The subject whose key has this info.
#[tactic(auto, using(crate::proofs::Subjects::by_key), unfolding(crate::specs::Jobs::subject_with))]
fn subject_with(
    alloc: Global,
    place: Place,
    signing: Signing,
    info: SubjectPublicKeyInfo,
) -> Result<Subject, Fault>
    ensures { Gets (λ s. s) (subject_with place signing info) result }
{
    let key = key_of_info(alloc, place, signing, &info);
    subject_by(key, info)
}

/// The subject whose key's SubjectPublicKeyInfo the octets are.
#[tactic(auto, unfolding(crate::specs::Jobs::subject_in))]
fn subject_in(alloc: Global, octets: &[u8], signing: Signing) -> Result<Subject, Fault>
    ensures { Gets (λ s. s) (subject_in octets.now signing) result }
{
    let Some(info) = der::value_of::<SubjectPublicKeyInfo>(alloc, octets)? else {
        return Err(Fault::Key(Place::PublicKey, KeyFault::NotRead));
    };
    subject_with(alloc, Place::PublicKey, signing, info)
}

/// The subject of a block, its name and the parameters, where nothing of a request is asked for.
fn subject_of_key(
    alloc: Global,
    info: &[u8],
    signing: Signing,
    taken: &RequestUse,
    own: Option<Name>,
    params: CertificateParams,
) -> Result<(Subject, Option<Name>, CertificateParams), Fault>
    ensures { Gets (λ s. (s.0, s.1, params_view s.2)) (subject_of (Some info.now) None signing taken.now own (params_view params)) result }
{
    if takes_some(taken) {
        return Err(Fault::Missing(Label::Request));
    }
    let subject = subject_in(alloc, info, signing)?;
    Ok((subject, own, params))
}

/// The name that is asked for where it is taken, and else the own one.
fn name_by(
    alloc: Global,
    is_taken: bool,
    asked: &Name,
    own: Option<Name>,
) -> Result<Option<Name>, OutOfMemory>
    ensures { IfOk result (λ name. name ≡ name_by is_taken asked.now own) }
{
    if is_taken {
        Ok(Some(asked.try_clone(alloc)?))
    } else {
        Ok(own)
    }
}

/// The subject whose request this is, its name, and the parameters with what the request decides.
#[tactic(auto, unfolding(crate::specs::Jobs::requested_subject))]
fn requested_subject(
    alloc: Global,
    request: &CertificationRequest,
    signing: Signing,
    taken: &RequestUse,
    own: Option<Name>,
    params: CertificateParams,
) -> Result<(Subject, Option<Name>, CertificateParams), Fault>
    ensures { Gets (λ s. (s.0, s.1, params_view s.2)) (requested_subject request.now signing taken.now own (params_view params)) result }
{
    let info = request.info.subject_public_key_info.try_clone(alloc)?;
    let subject = subject_with(alloc, Place::Request, signing, info)?;
    let params = with_taken(alloc, params, request, taken)?;
    let name = name_by(alloc, taken.takes_subject, &request.info.subject, own)?;
    Ok((subject, name, params))
}

/// The same of the request that the octets are.
fn subject_of_request(
    alloc: Global,
    octets: &[u8],
    signing: Signing,
    taken: &RequestUse,
    own: Option<Name>,
    params: CertificateParams,
) -> Result<(Subject, Option<Name>, CertificateParams), Fault>
    ensures { Gets (λ s. (s.0, s.1, params_view s.2)) (subject_of None (Some octets.now) signing taken.now own (params_view params)) result }
{
    let request = request_of(alloc, octets, taken.is_unchecked)?;
    let subject = requested_subject(alloc, &request, signing, taken, own, params)?;
    Ok(subject)
}

/// The subject, its name where that isn't the parameters', and the parameters with what its request
/// decides.
pub(crate) fn subject_of(
    alloc: Global,
    info: &Option<OctetString>,
    request: &Option<OctetString>,
    signing: Signing,
    taken: &RequestUse,
    own: Option<Name>,
    params: CertificateParams,
) -> Result<(Subject, Option<Name>, CertificateParams), Fault>
    ensures { Gets (λ s. (s.0, s.1, params_view s.2)) (subject_of info.now request.now signing taken.now own (params_view params)) result }
{
    match info {
        Some(info) => match request {
            Some(_) => Err(Fault::Unused(Label::PublicKey)),
            None => subject_of_key(alloc, info.as_slice(), signing, taken, own, params),
        },
        None => match request {
            Some(octets) => {
                subject_of_request(alloc, octets.as_slice(), signing, taken, own, params)
            }
            None => Err(Fault::Missing(Label::PublicKey)),
        },
    }
}

/// The subject's own key, where it is one that signs.
fn own_key(alloc: Global, place: Place, subject: &Subject) -> Result<PublicKey, Fault>
    ensures { Gets (λ k. k) (own_key place subject.now) result }
{
    match subject {
        Subject::Known(key) => Ok(key.try_clone(alloc)?),
        Subject::Other(info) => {
            let id = info.algorithm.algorithm.try_clone(alloc)?;
            Err(Fault::Key(place, KeyFault::Unknown(id)))
        }
    }
}

/// The block that the subject's key is in.
pub(crate) fn subject_place(request: &Option<OctetString>) -> Place
    ensures { result ≡ subject_place request.now }
{
    match request {
        Some(_) => Place::Request,
        None => Place::PublicKey,
    }
}

/// The key that signs, where the subject's own is in this block.
pub(crate) fn signing_key(
    alloc: Global,
    issuer: &Option<OctetString>,
    signing: Signing,
    place: Place,
    subject: &Subject,
) -> Result<PublicKey, Fault>
    ensures { Gets (λ k. k) (signing_key issuer.now signing place subject.now) result }
{
    match issuer {
        Some(certificate) => authority_key(alloc, certificate.as_slice(), signing),
        None => own_key(alloc, place, subject),
    }
}

/// How the subject's own key signs, where it does.
pub(crate) fn own_signing(has_issuer: bool, signing: Signing) -> Signing
    ensures { result ≡ own_signing has_issuer signing }
{
    if has_issuer { ANY } else { signing }
}

/// Refuses an end before the start.
pub(crate) fn refuse_end(start: OffsetDateTime, end: OffsetDateTime) -> Result<(), Fault>
    ensures { Passes (ends_last (instant start) (instant end)) result }
{
    if start <= end {
        Ok(())
    } else {
        Err(Fault::EndsFirst)
    }
}
