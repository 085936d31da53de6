//! What an order comes to with the blocks after it.
ghost use Rattle.std.specs.Prelude.{◌≡◌};
ghost use Rattle.rcgen_certificate.specs.ParamsView.{params_view};
ghost use Rattle.shelf_fault.specs.Faults.{Gets};
ghost use Rattle.shelf_job.specs.Jobs.{attribute_asked, certificate_asked, issuer_alone, job_of, list_asked, name_of, params_asked, request_asked, request_info};

use crate::issuer::{attribute_authority_key, authority_key};
use crate::subject::{
    fits_preset, own_signing, refuse_end, signing_key, subject_of, subject_place,
};
use asn1_core::OctetString;
use attr_issue::AttributeCertificateParams;
use pkix_cert::Name;
use profile_params::list_of_profile;
use rcgen_issue::{CertificateParams, CertificateRevocationListParams, PublicKey, SerialNumber};
use rcgen_tbs::Subject;
use shelf_fault::{Fault, Label, Place};
use shelf_input::Blocks;
use shelf_keys::public_key;
use shelf_params::{attribute_params, certificate_params, content_params, with_common_names};
use shelf_profile::{
    Access, AttributeOrder, CertificateOrder, Days, ListOrder, NameParts, Order, Preset,
    RequestOrder,
};
use std::alloc::Global;
use std::marker::Model;
use toml_format::{CertificateContent, HexBytes};

/// What a certificate says, the subject's name where that isn't the parameters', the subject's key, the
/// issuer's certificate where the subject isn't its own issuer, the key that signs, and whether a weak key
/// is accepted.
#[derive(Drop)]
pub struct CertificateJob {
    pub(crate) params: CertificateParams,
    pub(crate) name: Option<Name>,
    pub(crate) subject: Subject,
    pub(crate) issuer: Option<OctetString>,
    pub(crate) key: PublicKey,
    pub(crate) weak_key: bool,
}

impl Model for CertificateJob {
    ghost use Rattle.rcgen_certificate.specs.ParamsView.{params_view};
    ghost use Rattle.shelf_job.specs.Asked.{CertificateAsked};

    ghost Value = { CertificateAsked };

    ghost view = { λ j. record { params = params_view j.params; name = j.name; subject = j.subject; issuer = j.issuer; key = j.key; weak_key = j.weak_key } };
}

/// What a request asks for, the subject's name where that isn't the parameters', the key that it is for,
/// and whether a weak one is accepted.
#[derive(Drop)]
pub struct RequestJob {
    pub(crate) params: CertificateParams,
    pub(crate) name: Option<Name>,
    pub(crate) key: PublicKey,
    pub(crate) weak_key: bool,
}

impl Model for RequestJob {
    ghost use Rattle.rcgen_certificate.specs.ParamsView.{params_view};
    ghost use Rattle.shelf_job.specs.Asked.{RequestAsked};

    ghost Value = { RequestAsked };

    ghost view = { λ j. record { params = params_view j.params; name = j.name; key = j.key; weak_key = j.weak_key } };
}

/// What a revocation list says, of a delta list the number of the complete list on which it is based,
/// the issuer's certificate, and its key.
#[derive(Drop)]
pub struct ListJob {
    pub(crate) params: CertificateRevocationListParams,
    pub(crate) base: Option<SerialNumber>,
    pub(crate) issuer: OctetString,
    pub(crate) key: PublicKey,
}

impl Model for ListJob {
    ghost use Rattle.rcgen_issue.specs.CrlView.{crl_view};
    ghost use Rattle.shelf_job.specs.Asked.{ListAsked};

    ghost Value = { ListAsked };

    ghost view = { λ j. record { params = crl_view j.params; base = j.base; issuer = j.issuer; key = j.key } };
}

impl ListJob {
    /// The issuer's certificate. All else is freed.
    pub(crate) fn into_issuer(self) -> OctetString
        ensures { result ≡ self.issuer }
    {
        let ListJob {
            params: _,
            base: _,
            issuer,
            key: _,
        } = self;
        issuer
    }
}

/// What an attribute certificate says, the issuer's certificate, and its key.
#[derive(Drop)]
pub struct AttributeJob {
    pub(crate) params: AttributeCertificateParams,
    pub(crate) issuer: OctetString,
    pub(crate) key: PublicKey,
}

impl Model for AttributeJob {
    ghost use Rattle.attr_issue.specs.AttributeCertificateView.{attribute_certificate_view};
    ghost use Rattle.shelf_job.specs.Asked.{AttributeAsked};

    ghost Value = { AttributeAsked };

    ghost view = { λ j. record { params = attribute_certificate_view j.params; issuer = j.issuer; key = j.key } };
}

/// What an order comes to with the blocks after it.
#[derive(Drop)]
pub enum Job {
    /// A certificate (RFC 5280, 4.1).
    Certificate(CertificateJob),
    /// A request (RFC 2986, 4).
    Request(RequestJob),
    /// A revocation list (RFC 5280, 5.1).
    List(ListJob),
    /// An attribute certificate (RFC 5755, 4.1).
    Attribute(AttributeJob),
}

/// What the certificate is to say, but for what its request decides.
#[tactic(auto, unfolding(crate::specs::Jobs::params_asked))]
fn params_asked(
    alloc: Global,
    content: CertificateContent,
    days: Option<Days>,
    access: Access,
    preset: Option<Preset>,
    has_issuer: bool,
) -> Result<CertificateParams, Fault>
    ensures { Gets params_view (params_asked content days access preset has_issuer) result }
{
    fits_preset(preset, has_issuer)?;
    let params = certificate_params(alloc, content, days, access)?;
    refuse_end(params.not_before, params.not_after)?;
    Ok(params)
}

/// The name of these parts.
fn name_of(parts: Option<NameParts>) -> Option<Name>
    ensures { result ≡ name_of parts }
{
    match parts {
        Some(parts) => Some(parts.into_name()),
        None => None,
    }
}

#[tactic(auto, unfolding(crate::specs::Jobs::certificate_asked))]
fn certificate_job(
    alloc: Global,
    order: CertificateOrder,
    preset: Option<Preset>,
    blocks: Blocks,
) -> Result<CertificateJob, Fault>
    ensures { Gets (λ j. j) (certificate_asked order preset blocks) result }
{
    let Blocks {
        public_key,
        request,
        certificate,
    } = blocks;
    let signing = order.signing;
    let has_issuer = certificate.is_some();
    let params = params_asked(
        alloc,
        order.content,
        order.days,
        order.access,
        preset,
        has_issuer,
    )?;
    let own = own_signing(has_issuer, signing);
    let given = name_of(order.parts);
    let (subject, name, params) = subject_of(
        alloc,
        &public_key,
        &request,
        own,
        &order.request,
        given,
        params,
    )?;
    let params = with_common_names(alloc, order.copy_cn, &order.request, &name, params)?;
    let place = subject_place(&request);
    let key = signing_key(alloc, &certificate, signing, place, &subject)?;
    Ok(CertificateJob {
        params,
        name,
        subject,
        issuer: certificate,
        key,
        weak_key: order.weak_key,
    })
}

/// The info of the key that a request is for, which alone comes after its order.
#[tactic(auto, unfolding(crate::specs::Jobs::request_info))]
fn request_info(blocks: Blocks) -> Result<OctetString, Fault>
    ensures { Gets (λ o. o) (request_info blocks) result }
{
    let Blocks {
        public_key,
        request,
        certificate,
    } = blocks;
    if request.is_some() {
        return Err(Fault::Unused(Label::Request));
    }
    if certificate.is_some() {
        return Err(Fault::Unused(Label::Certificate));
    }
    match public_key {
        Some(info) => Ok(info),
        None => Err(Fault::Missing(Label::PublicKey)),
    }
}

#[tactic(auto, unfolding(crate::specs::Jobs::request_asked))]
fn request_job(alloc: Global, order: RequestOrder, blocks: Blocks) -> Result<RequestJob, Fault>
    ensures { Gets (λ j. j) (request_asked order blocks) result }
{
    let info = request_info(blocks)?;
    let key = public_key(alloc, Place::PublicKey, info.as_slice(), order.signing)?;
    let params = content_params(alloc, order.content)?;
    let name = name_of(order.parts);
    Ok(RequestJob {
        params,
        name,
        key,
        weak_key: order.weak_key,
    })
}

/// The issuer's certificate, which alone comes after its order.
#[tactic(auto, unfolding(crate::specs::Jobs::issuer_alone))]
fn issuer_alone(blocks: Blocks) -> Result<OctetString, Fault>
    ensures { Gets (λ o. o) (issuer_alone blocks) result }
{
    let Blocks {
        public_key,
        request,
        certificate,
    } = blocks;
    if public_key.is_some() {
        return Err(Fault::Unused(Label::PublicKey));
    }
    if request.is_some() {
        return Err(Fault::Unused(Label::Request));
    }
    match certificate {
        Some(issuer) => Ok(issuer),
        None => Err(Fault::Missing(Label::Certificate)),
    }
}

/// The number of the complete list on which a delta list is based.
fn base_of(base: Option<HexBytes>) -> Option<SerialNumber>
    ensures { result ≡ base }
{
    match base {
        Some(octets) => Some(SerialNumber::from_vec(octets.into_vec())),
        None => None,
    }
}

#[tactic(auto, unfolding(crate::specs::Jobs::list_asked))]
fn list_job(alloc: Global, order: ListOrder, blocks: Blocks) -> Result<ListJob, Fault>
    ensures { Gets (λ j. j) (list_asked order blocks) result }
{
    let issuer = issuer_alone(blocks)?;
    let key = authority_key(alloc, issuer.as_slice(), order.signing)?;
    let params = list_of_profile(alloc, order.content)?;
    Ok(ListJob {
        params,
        base: base_of(order.base),
        issuer,
        key,
    })
}

#[tactic(auto, unfolding(crate::specs::Jobs::attribute_asked))]
fn attribute_job(
    alloc: Global,
    order: AttributeOrder,
    blocks: Blocks,
) -> Result<AttributeJob, Fault>
    ensures { Gets (λ j. j) (attribute_asked order blocks) result }
{
    let issuer = issuer_alone(blocks)?;
    let key = attribute_authority_key(alloc, issuer.as_slice(), order.signing)?;
    let params = attribute_params(alloc, order)?;
    refuse_end(params.not_before, params.not_after)?;
    Ok(AttributeJob {
        params,
        issuer,
        key,
    })
}

/// What an order comes to with the blocks after it.
#[tactic(auto, unfolding(crate::specs::Jobs::job_of))]
pub fn job_of(alloc: Global, order: Order, blocks: Blocks) -> Result<Job, Fault>
    ensures { Gets (λ j. j) (job_of order blocks) result }
{
    match order {
        Order::Certificate(order, preset) => {
            let job = certificate_job(alloc, order, preset, blocks)?;
            Ok(Job::Certificate(job))
        }
        Order::Request(order) => {
            let job = request_job(alloc, order, blocks)?;
            Ok(Job::Request(job))
        }
        Order::List(order) => {
            let job = list_job(alloc, order, blocks)?;
            Ok(Job::List(job))
        }
        Order::Attribute(order) => {
            let job = attribute_job(alloc, order, blocks)?;
            Ok(Job::Attribute(job))
        }
    }
}
