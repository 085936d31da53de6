//! Calls of what issues, with the faults of orders.
ghost use Rattle.std.specs.Prelude.{◌≡◌, [], IfOk, OnOk};
ghost use Rattle.std.specs.Option.{IfSome};
ghost use Rattle.der_tree.specs.HasTree.{HasTree};
ghost use Rattle.pkix_name.specs.Names.{name as name_codec};
ghost use Rattle.attr_issue.specs.AttributeCauses.{first_attribute_cause};
ghost use Rattle.attr_issue.specs.AttributeCertificateView.{attribute_certificate_view};
ghost use Rattle.rcgen_certificate.specs.Issue.{first_cause};
ghost use Rattle.rcgen_certificate.specs.Issuers.{view_of};
ghost use Rattle.rcgen_certificate.specs.ParamsView.{params_view};
ghost use Rattle.rcgen_certificate.specs.Requests.{first_request_cause};
ghost use Rattle.rcgen_issue.specs.CrlView.{crl_view};
ghost use Rattle.rcgen_issue.specs.Lists.{first_crl_cause};
ghost use Rattle.rcgen_tbs.specs.Deltas.{IsListMessage};
ghost use Rattle.rcgen_tbs.specs.Messages.{IsAttributeMessage};
ghost use Rattle.rcgen_tbs.specs.Named.{IsCertificateMessageAs};
ghost use Rattle.rcgen_tbs.specs.Subjects.{HasInfoTree};
ghost use Rattle.rcgen_tbs.specs.declared.subject.Subject.TheVariants.{Other};
ghost use Rattle.shelf_fault.specs.Faults.{Passes, and_then, no_cause};
ghost use Rattle.shelf_job.specs.Jobs.{fault_by_attribute_error, has_info, has_name_octets, no_attribute_cause};
ghost use Rattle.shelf_job.specs.NamedRequests.{IsRequestMessageAs};

use crate::named_request::request_to_be_signed_as;
use attr_issue::{AttrError, AttributeCertificateParams};
use pkix_cert::{Name, SubjectPublicKeyInfo};
use rcgen_issue::{
    CertificateParams, CertificateRevocationListParams, Issuer, RefusingKey, SerialNumber,
};
use rcgen_tbs::{
    Subject, attribute_to_be_signed, certificate_to_be_signed_as, list_to_be_signed_on,
};
use shelf_fault::{Fault, KeyFault, Obstacle, Place};
use shelf_keys::encoded;
use std::alloc::Global;

/// That the info of the subject's key has a DER encoding, as each that was read has.
#[tactic(auto, using(crate::proofs::Subjects::info_has_tree))]
fn refuse_info(alloc: Global, info: &SubjectPublicKeyInfo) -> Result<(), Fault>
    ensures has_tree { OnOk result (HasInfoTree (Other info.now)) }
    ensures ready { Passes (has_info (Other info.now)) result }
{
    let fault = Fault::Key(Place::PublicKey, KeyFault::NotRead);
    let _octets = encoded(alloc, info, fault)?;
    Ok(())
}

/// Refuses a subject whose key can't be in a certificate.
fn refuse_subject(alloc: Global, subject: &Subject) -> Result<(), Fault>
    ensures has_tree { OnOk result (HasInfoTree subject.now) }
    ensures ready { Passes (has_info subject.now) result }
{
    match subject {
        Subject::Known(_) => Ok(()),
        Subject::Other(info) => refuse_info(alloc, info),
    }
}

/// Refuses a name that has no DER encoding, as each that was read has.
#[tactic(auto, using(crate::proofs::Subjects::name_has_tree))]
fn refuse_name(alloc: Global, name: &Option<Name>) -> Result<(), Fault>
    ensures has_tree { OnOk result (IfSome name.now (HasTree name_codec)) }
    ensures ready { Passes (has_name_octets name.now) result }
{
    match name {
        Some(name) => {
            let _octets = encoded(alloc, name, Fault::NameNotKept)?;
            Ok(())
        }
        None => Ok(()),
    }
}

/// The octets that are to be signed for a certificate whose subject has a DER encoding.
#[tactic(auto, using(crate::proofs::Refusals::told))]
fn message_under(
    alloc: Global,
    params: &CertificateParams,
    subject: &Subject,
    name: &Option<Name>,
    issuer: &Issuer<'_, RefusingKey>,
) -> Result<Vec<u8>, Fault>
    requires { HasInfoTree subject.now }
    ensures message { IfOk result (λ m. IsCertificateMessageAs (params_view params.now) subject.now name.now (view_of (λ k. k) issuer.now) m.items) }
    ensures ready { Passes (and_then (has_name_octets name.now) (λ u. no_cause (first_cause (params_view params.now) (view_of (λ k. k) issuer.now).name))) result }
{
    refuse_name(alloc, name)?;
    let message = certificate_to_be_signed_as(alloc, params, subject, name, issuer)?;
    Ok(message)
}

/// The octets that are to be signed for a certificate.
pub(crate) fn certificate_message(
    alloc: Global,
    params: &CertificateParams,
    subject: &Subject,
    name: &Option<Name>,
    issuer: &Issuer<'_, RefusingKey>,
) -> Result<Vec<u8>, Fault>
    ensures message { IfOk result (λ m. IsCertificateMessageAs (params_view params.now) subject.now name.now (view_of (λ k. k) issuer.now) m.items) }
    ensures ready { Passes (and_then (has_info subject.now) (λ u. and_then (has_name_octets name.now) (λ u. no_cause (first_cause (params_view params.now) (view_of (λ k. k) issuer.now).name)))) result }
{
    refuse_subject(alloc, subject)?;
    message_under(alloc, params, subject, name, issuer)
}

/// The same of a request.
#[tactic(auto, using(crate::proofs::Refusals::told))]
pub(crate) fn request_message(
    alloc: Global,
    params: &CertificateParams,
    name: &Option<Name>,
    key: &RefusingKey,
) -> Result<Vec<u8>, Fault>
    ensures message { IfOk result (λ m. IsRequestMessageAs (params_view params.now) key.now name.now m.items) }
    ensures ready { Passes (and_then (has_name_octets name.now) (λ u. no_cause (first_request_cause (params_view params.now) []))) result }
{
    refuse_name(alloc, name)?;
    let message = request_to_be_signed_as(alloc, params, name, key)?;
    Ok(message)
}

/// The same of a revocation list.
#[tactic(auto, using(crate::proofs::Refusals::told))]
pub(crate) fn list_message(
    alloc: Global,
    params: &CertificateRevocationListParams,
    base: &Option<SerialNumber>,
    issuer: &Issuer<'_, RefusingKey>,
) -> Result<Vec<u8>, Fault>
    ensures message { IfOk result (λ m. IsListMessage base.now (crl_view params.now) (view_of (λ k. k) issuer.now) m.items) }
    ensures ready { Passes (no_cause (first_crl_cause (crl_view params.now) (view_of (λ k. k) issuer.now))) result }
{
    let message = list_to_be_signed_on(alloc, params, base, issuer)?;
    Ok(message)
}

/// The error as a fault.
fn attribute_fault(error: AttrError) -> Fault
    ensures { result ≡ fault_by_attribute_error error }
{
    match error {
        AttrError::NoAttributes => Fault::Obstacle(Obstacle::NoAttributes),
        AttrError::RepeatedAttribute => Fault::Obstacle(Obstacle::RepeatedAttribute),
        AttrError::Refused(error) => Fault::from(error),
        AttrError::OutOfMemory => Fault::OutOfMemory,
    }
}

/// The octets that are to be signed for an attribute certificate.
#[tactic(auto, using(crate::proofs::Refusals::attribute_told))]
pub(crate) fn attribute_message(
    alloc: Global,
    params: &AttributeCertificateParams,
    issuer: &Issuer<'_, RefusingKey>,
) -> Result<Vec<u8>, Fault>
    ensures message { IfOk result (λ m. IsAttributeMessage (attribute_certificate_view params.now) (view_of (λ k. k) issuer.now) m.items) }
    ensures ready { Passes (no_attribute_cause (first_attribute_cause (attribute_certificate_view params.now) (view_of (λ k. k) issuer.now).name)) result }
{
    match attribute_to_be_signed(alloc, params, issuer) {
        Ok(message) => Ok(message),
        Err(error) => Err(attribute_fault(error)),
    }
}
