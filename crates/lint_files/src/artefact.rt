//! What is looked at of a certificate, a request, a CRL, an attribute certificate or a public key.
ghost use Rattle.std.specs.Prelude.{◌≡◌, IfOk};
ghost use Rattle.std.specs.Option.{option_map};
ghost use Rattle.lint_files.specs.Artefacts.{artefact_of, attribute_certificate_artefact, certificate_artefact, differ, issues_itself, key_artefact, list_artefact, named, of_parts, of_view, request_artefact};

use crate::extension::{named_key, own_key};
use crate::kind::Kind;
use crate::parts::{Parts, attribute_parts, list_parts, signed_part};
use asn1_core::{OctetString, OutOfMemory};
use der_tree::der;
use pkix_attr::AttributeCertificate;
use pkix_cert::{
    Certificate, CertificateList, CertificateView, CertificationRequest, SubjectPublicKeyInfo,
};
use std::alloc::Global;
use std::marker::Model;

/// Who issued it: the octets of the name, the identifier of the key, where that is there, and whether a certificate of the name with another key
/// is taken too, where no other is there.
pub(crate) struct Naming<'a> {
    pub(crate) name: &'a [u8],
    pub(crate) key: Option<OctetString>,
    pub(crate) by_name: bool,
}

impl<'a> Model for Naming<'a> {
    ghost use Rattle.lint_files.specs.Namings.{NamingView};

    ghost Value = { NamingView };

    ghost view = { λ n. record { name = n.name.now; key = n.key; by_name = n.by_name } };
}

impl<'a> Drop for Naming<'a> {
    fn drop(self) {
        let Naming {
            name: _,
            key: _,
            by_name: _,
        } = self;
    }
}

/// The octets that are signed, whether the algorithm beside them isn't the one within them, and who issued it; none where it issues
/// itself, or nobody is named.
pub(crate) struct Artefact<'a> {
    pub(crate) signed: &'a [u8],
    pub(crate) differs: bool,
    pub(crate) issuer: Option<Naming<'a>>,
}

impl<'a> Model for Artefact<'a> {
    ghost use Rattle.lint_files.specs.Namings.{ArtefactView};

    ghost Value = { ArtefactView };

    ghost view = { λ a. record { signed = a.signed.now; differs = a.differs; issuer = a.issuer } };
}

impl<'a> Drop for Artefact<'a> {
    fn drop(self) {
        let Artefact {
            signed: _,
            differs: _,
            issuer: _,
        } = self;
    }
}

/// Whether both are there, and not the same.
fn differ(a: &Option<OctetString>, b: &Option<OctetString>) -> bool
    ensures { result ≡ differ a.now b.now }
{
    match (a, b) {
        (Some(a), Some(b)) => a != b,
        _ => false,
    }
}

/// Whether the certificate names itself as its issuer's: by its name, and by no other key.
fn issues_itself(
    view: &CertificateView<'_>,
    own: &Option<OctetString>,
    named: &Option<OctetString>,
) -> bool
    ensures { result ≡ issues_itself view.now own.now named.now }
{
    view.subject() == view.issuer() && !differ(named, own)
}

/// Of a certificate with these identifiers of its own key and its issuer's.
#[tactic(auto, unfolding(crate::specs::Artefacts::of_view))]
fn of_view<'a>(
    view: &CertificateView<'a>,
    own: &Option<OctetString>,
    key: Option<OctetString>,
) -> Artefact<'a>
    ensures { result ≡ of_view view.now own.now key }
{
    let differs = view.tbs_signature() != view.signature_algorithm();
    if issues_itself(view, own, &key) {
        return Artefact {
            signed: view.tbs(),
            differs,
            issuer: None,
        };
    }
    Artefact {
        signed: view.tbs(),
        differs,
        issuer: Some(Naming {
            name: view.issuer(),
            key,
            by_name: view.subject() != view.issuer(),
        }),
    }
}

/// Who has this name, if any, and this key, or another.
fn named<'a>(name: Option<&'a [u8]>, key: Option<OctetString>) -> Option<Naming<'a>>
    ensures { result ≡ named (option_map (λ octets. octets.now) name.entry) key }
{
    match name {
        None => None,
        Some(name) => Some(Naming {
            name,
            key,
            by_name: true,
        }),
    }
}

/// Of a CRL or an attribute certificate of these parts, with this identifier of its issuer's key.
#[tactic(auto, unfolding(crate::specs::Artefacts::of_parts))]
fn of_parts<'a>(parts: Parts<'a>, key: Option<OctetString>) -> Artefact<'a>
    ensures { result ≡ of_parts parts.entry key }
{
    Artefact {
        signed: parts.signed,
        differs: parts.inner != parts.algorithm,
        issuer: named(parts.issuer, key),
    }
}

/// Of a certificate (RFC 5280, 4.1).
#[tactic(auto, unfolding(crate::specs::Artefacts::certificate_artefact))]
fn certificate_artefact<'a>(
    alloc: Global,
    octets: &'a [u8],
) -> Result<Option<Artefact<'a>>, OutOfMemory>
    ensures { IfOk result (λ a. a ≡ certificate_artefact octets.now) }
{
    let certificate: Option<Certificate> = der::value_of(alloc, octets)?;
    let Some(certificate) = certificate else {
        return Ok(None);
    };
    let Some(view) = CertificateView::new(octets) else {
        return Ok(None);
    };
    let own = own_key(alloc, &certificate.tbs_certificate.extensions)?;
    let key = named_key(alloc, &certificate.tbs_certificate.extensions)?;
    Ok(Some(of_view(&view, &own, key)))
}

/// Of a public key (RFC 5280, 4.1.2.7).
#[tactic(auto, unfolding(crate::specs::Artefacts::key_artefact))]
fn key_artefact<'a>(alloc: Global, octets: &'a [u8]) -> Result<Option<Artefact<'a>>, OutOfMemory>
    ensures { IfOk result (λ a. a ≡ key_artefact octets.now) }
{
    let key: Option<SubjectPublicKeyInfo> = der::value_of(alloc, octets)?;
    if key.is_none() {
        return Ok(None);
    }
    Ok(Some(Artefact {
        signed: octets,
        differs: false,
        issuer: None,
    }))
}

/// Of a request (RFC 2986, 4).
#[tactic(auto, unfolding(crate::specs::Artefacts::request_artefact))]
fn request_artefact<'a>(
    alloc: Global,
    octets: &'a [u8],
) -> Result<Option<Artefact<'a>>, OutOfMemory>
    ensures { IfOk result (λ a. a ≡ request_artefact octets.now) }
{
    let request: Option<CertificationRequest> = der::value_of(alloc, octets)?;
    if request.is_none() {
        return Ok(None);
    }
    let Some(signed) = signed_part(octets) else {
        return Ok(None);
    };
    Ok(Some(Artefact {
        signed,
        differs: false,
        issuer: None,
    }))
}

/// Of a CRL (RFC 5280, 5.1).
#[tactic(auto, unfolding(crate::specs::Artefacts::list_artefact))]
fn list_artefact<'a>(alloc: Global, octets: &'a [u8]) -> Result<Option<Artefact<'a>>, OutOfMemory>
    ensures { IfOk result (λ a. a ≡ list_artefact octets.now) }
{
    let list: Option<CertificateList> = der::value_of(alloc, octets)?;
    let Some(list) = list else {
        return Ok(None);
    };
    let Some(parts) = list_parts(octets) else {
        return Ok(None);
    };
    let key = named_key(alloc, &list.tbs_cert_list.crl_extensions)?;
    Ok(Some(of_parts(parts, key)))
}

/// Of an attribute certificate (RFC 5755, 4.1).
#[tactic(auto, unfolding(crate::specs::Artefacts::attribute_certificate_artefact))]
fn attribute_certificate_artefact<'a>(
    alloc: Global,
    octets: &'a [u8],
) -> Result<Option<Artefact<'a>>, OutOfMemory>
    ensures { IfOk result (λ a. a ≡ attribute_certificate_artefact octets.now) }
{
    let certificate: Option<AttributeCertificate> = der::value_of(alloc, octets)?;
    let Some(certificate) = certificate else {
        return Ok(None);
    };
    let Some(parts) = attribute_parts(octets) else {
        return Ok(None);
    };
    let key = named_key(alloc, &certificate.info.extensions)?;
    Ok(Some(of_parts(parts, key)))
}

/// What the octets are, as their label says; none where they aren't that.
#[tactic(auto, unfolding(crate::specs::Artefacts::artefact_of))]
pub(crate) fn artefact_of<'a>(
    alloc: Global,
    kind: Kind,
    octets: &'a [u8],
) -> Result<Option<Artefact<'a>>, OutOfMemory>
    ensures { IfOk result (λ a. a ≡ artefact_of kind octets.now) }
{
    match kind {
        Kind::Certificate => certificate_artefact(alloc, octets),
        Kind::Request => request_artefact(alloc, octets),
        Kind::List => list_artefact(alloc, octets),
        Kind::AttributeCertificate => attribute_certificate_artefact(alloc, octets),
        Kind::PublicKey => key_artefact(alloc, octets),
        Kind::Other => Ok(None),
    }
}
