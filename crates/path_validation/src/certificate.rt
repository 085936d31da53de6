//! A certificate, as the steps read it (RFC 5280, 4.1).
ghost use Rattle.std.specs.Prelude.{◌≡◌, IfOk};
ghost use Rattle.path_validation.specs.Certificates.{begins_with, fits_version, has_extensions, has_whole_seconds, is_self_issued, is_version_3, is_whole, read_certificate, read_identity};
ghost use Rattle.path_validation.specs.Certificates.{read_parts};
ghost use Rattle.path_validation.specs.Steps.{has_wide_name};

use crate::limits::has_few_attributes;
use crate::statements::{Statements, read_statements};
use asn1_core::{BitString, OutOfMemory};
use der_tree::{der, one_window};
use path_names::names_match;
use pkix_cert::{CertificateView, SubjectPublicKeyInfo, Time, Validity};
use pkix_name::Name;
use std::alloc::Global;

/// Version 2, as it is written at the start of what is signed (RFC 5280, 4.1.2.1).
const VERSION_2: &[u8] = &[0xA0, 0x03, 0x02, 0x01, 0x01];

/// Version 3.
const VERSION_3: &[u8] = &[0xA0, 0x03, 0x02, 0x01, 0x02];

/// The tag of the serial number, which comes first in version 1.
const VERSION_1: &[u8] = &[0x02];

/// What a certificate says without its extensions.
#[derive(Debug, Drop)]
pub(crate) struct Identity {
    pub(crate) issuer: Name,
    pub(crate) subject: Name,
    pub(crate) key_info: SubjectPublicKeyInfo,
    pub(crate) validity: Validity,
    pub(crate) signature: BitString,
}

impl Identity {
    /// Whether its issuer and its subject are one (RFC 5280, 6.1).
    pub(crate) fn is_self_issued(&self) -> bool
        ensures { result ≡ is_self_issued self.now }
    {
        names_match(&self.issuer, &self.subject)
    }

    /// Whether a part of its issuer or of its subject has more attributes than are compared.
    pub(crate) fn has_wide_name(&self) -> bool
        ensures { result ≡ has_wide_name self.now }
    {
        !(has_few_attributes(&self.issuer) && has_few_attributes(&self.subject))
    }
}

/// What the steps read of a certificate.
#[derive(Debug, Drop)]
pub(crate) struct PathCertificate {
    pub(crate) identity: Identity,
    pub(crate) statements: Statements,
}

/// Each view has these values.
#[tactic(auto, unfolding(crate::specs::Certificates::read_identity))]
fn read_identity(alloc: Global, view: &CertificateView<'_>) -> Result<Option<Identity>, OutOfMemory>
    ensures { IfOk result (λ o. o ≡ read_identity view.now) }
{
    let Some(issuer) = der::value_of(alloc, view.issuer())? else {
        return Ok(None);
    };
    let Some(subject) = der::value_of(alloc, view.subject())? else {
        return Ok(None);
    };
    let Some(key_info) = der::value_of(alloc, view.key_info())? else {
        return Ok(None);
    };
    let Some(validity) = der::value_of(alloc, view.validity())? else {
        return Ok(None);
    };
    let Some(signature) = der::value_of(alloc, view.signature())? else {
        return Ok(None);
    };
    Ok(Some(Identity {
        issuer,
        subject,
        key_info,
        validity,
        signature,
    }))
}

fn begins_with(view: &CertificateView<'_>, octets: &[u8]) -> bool
    ensures { result ≡ begins_with octets.now view.now }
{
    match one_window(view.tbs()) {
        None => false,
        Some(window) => window.content().starts_with(octets),
    }
}

/// Whether the certificate is one of version 3.
pub(crate) fn is_version_3(view: &CertificateView<'_>) -> bool
    ensures { result ≡ is_version_3 view.now }
{
    begins_with(view, VERSION_3)
}

fn has_extensions(view: &CertificateView<'_>) -> bool
    ensures { result ≡ has_extensions view.now.extensions }
{
    let mut extensions = view.extensions();
    match extensions.next() {
        None => false,
        Some(_) => true,
    }
}

/// Whether it is one of version 3, or one of version 1 or 2 without extensions (RFC 5280, 4.1.2.1 and
/// 4.1.2.9).
#[tactic(auto, unfolding(crate::specs::Certificates::fits_version))]
fn fits_version(view: &CertificateView<'_>) -> bool
    ensures { result ≡ fits_version view.now }
{
    if is_version_3(view) {
        return true;
    }
    if has_extensions(view) {
        return false;
    }
    begins_with(view, VERSION_1) || begins_with(view, VERSION_2)
}

fn has_whole_seconds(time: &Time) -> bool
    ensures { result ≡ has_whole_seconds time.now }
{
    time.moment().subsec_nanosecond() == 0
}

/// Whether no time has a fraction of a second (RFC 5280, 4.1.2.5.2).
#[tactic(auto, unfolding(crate::specs::Certificates::is_whole))]
fn is_whole(validity: &Validity) -> bool
    ensures { result ≡ is_whole validity.now }
{
    has_whole_seconds(&validity.not_before) && has_whole_seconds(&validity.not_after)
}

#[tactic(auto, unfolding(crate::specs::Certificates::read_parts))]
fn read_parts(
    alloc: Global,
    view: &CertificateView<'_>,
) -> Result<Option<PathCertificate>, OutOfMemory>
    ensures { IfOk result (λ o. o ≡ read_parts view.now) }
{
    let Some(identity) = read_identity(alloc, view)? else {
        return Ok(None);
    };
    let Some(statements) = read_statements(alloc, view)? else {
        return Ok(None);
    };
    if !is_whole(&identity.validity) {
        return Ok(None);
    }
    Ok(Some(PathCertificate {
        identity,
        statements,
    }))
}

/// None where its version doesn't fit, or an extension or a time can't be read.
#[tactic(auto, unfolding(crate::specs::Certificates::read_certificate))]
pub(crate) fn read_certificate(
    alloc: Global,
    view: &CertificateView<'_>,
) -> Result<Option<PathCertificate>, OutOfMemory>
    ensures { IfOk result (λ o. o ≡ read_certificate view.now) }
{
    if !fits_version(view) {
        return Ok(None);
    }
    let found = read_parts(alloc, view)?;
    Ok(found)
}
