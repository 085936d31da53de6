//! Who issues: the subject of a certificate.
ghost use Rattle.std.specs.Prelude.{◌≡◌, find, IfOk};
ghost use Rattle.std.specs.List.{list_any};
ghost use Rattle.std.specs.Option.{option_copied};
ghost use Rattle.rcgen_certificate.specs.Issuers.{key_of};
ghost use Rattle.pkix_cert.specs.Held.{extensions_in};
ghost use Rattle.rcgen_read.specs.IssuerReading.{certified_view};
ghost use Rattle.shelf_fault.specs.Faults.{Gets};
ghost use Rattle.shelf_job.specs.Issuers.{attribute_authority_key, authority_key, certificate_of, certified, is_authority, is_basic_constraints, is_cert_sign, is_digital_signature, signs_certificates, signs_digitally};

use der_tree::der;
use issuer_check::{authority_checked, issuer_checked};
use pkix_cert::extension_id::ID_CE_BASIC_CONSTRAINTS;
use pkix_cert::{BasicConstraints, Certificate, Extension, Extensions};
use rcgen_issue::{Issuer, KeyUsagePurpose, PublicKey, SigningKey};
use rcgen_read::issuer_as_certified;
use shelf_fault::{Fault, IssuerFault, Place};
use shelf_keys::key_of_info;
use shelf_profile::Signing;
use std::alloc::{AllocError, Global};

/// The certificate that the octets are.
#[tactic(auto, unfolding(crate::specs::Issuers::certificate_of))]
fn certificate_of(alloc: Global, octets: &[u8]) -> Result<Certificate, Fault>
    ensures { Gets (λ c. c) (certificate_of octets.now) result }
{
    match der::value_of::<Certificate>(alloc, octets)? {
        Some(certificate) => Ok(certificate),
        None => Err(Fault::Issuer(IssuerFault::NotRead)),
    }
}

/// The extensions of a certificate.
fn extensions_of(extensions: &Option<Extensions>) -> &[Extension]
    ensures { result.now ≡ extensions_in extensions.now }
{
    match extensions {
        Some(extensions) => extensions.0.as_slice(),
        None => &[],
    }
}

/// The first extension that is basicConstraints.
fn basic_constraints_in(extensions: &[Extension]) -> Option<&Extension>
    ensures { option_copied result ≡ find is_basic_constraints extensions.now }
{
    for extension in extensions {
        if extension.extn_id.arcs() == ID_CE_BASIC_CONSTRAINTS {
            return Some(extension);
        }
    }
    None
}

/// Whether the subject is an authority (RFC 5280, 4.2.1.9).
#[tactic(auto, unfolding(crate::specs::Issuers::is_authority))]
fn is_authority(alloc: Global, certificate: &Certificate) -> Result<bool, AllocError>
    ensures { IfOk result (λ b. b ≡ is_authority certificate.now) }
{
    let extensions = extensions_of(&certificate.tbs_certificate.extensions);
    let Some(extension) = basic_constraints_in(extensions) else {
        return Ok(false);
    };
    match der::value_of::<BasicConstraints>(alloc, extension.extn_value.as_slice())? {
        Some(constraints) => Ok(constraints.ca),
        None => Ok(false),
    }
}

/// Whether one of the usages is keyCertSign.
fn has_cert_sign(usages: &[KeyUsagePurpose]) -> bool
    ensures { result ≡ list_any is_cert_sign usages.now }
{
    usages
        .iter()
        .any(|usage| matches!(usage, KeyUsagePurpose::KeyCertSign))
}

/// Whether a key with these usages may sign certificates (RFC 5280, 4.2.1.3).
pub(crate) fn signs_certificates(usages: &[KeyUsagePurpose]) -> bool
    ensures { result ≡ signs_certificates usages.now }
{
    usages.is_empty() || has_cert_sign(usages)
}

/// The key of an authority, whose certificate this is, and under which what is issued may be valid.
#[tactic(auto, unfolding(crate::specs::Issuers::authority_key))]
pub(crate) fn authority_key(
    alloc: Global,
    octets: &[u8],
    signing: Signing,
) -> Result<PublicKey, Fault>
    ensures { Gets (λ k. k) (authority_key octets.now signing) result }
{
    let certificate = certificate_of(alloc, octets)?;
    if !is_authority(alloc, &certificate)? {
        return Err(Fault::Issuer(IssuerFault::NoAuthority));
    }
    authority_checked(alloc, octets)?;
    let info = &certificate.tbs_certificate.subject_public_key_info;
    key_of_info(alloc, Place::Issuer, signing, info)
}

/// The key of an issuer of attribute certificates, which is no authority (RFC 5755, 4.5).
#[tactic(auto, unfolding(crate::specs::Issuers::attribute_authority_key))]
pub(crate) fn attribute_authority_key(
    alloc: Global,
    octets: &[u8],
    signing: Signing,
) -> Result<PublicKey, Fault>
    ensures { Gets (λ k. k) (attribute_authority_key octets.now signing) result }
{
    let certificate = certificate_of(alloc, octets)?;
    if is_authority(alloc, &certificate)? {
        return Err(Fault::Issuer(IssuerFault::IsAuthority));
    }
    issuer_checked(alloc, octets)?;
    let info = &certificate.tbs_certificate.subject_public_key_info;
    key_of_info(alloc, Place::Issuer, signing, info)
}

/// Whether one of the usages is digitalSignature.
fn has_digital_signature(usages: &[KeyUsagePurpose]) -> bool
    ensures { result ≡ list_any is_digital_signature usages.now }
{
    usages
        .iter()
        .any(|usage| matches!(usage, KeyUsagePurpose::DigitalSignature))
}

/// Whether a key with these usages may sign what is neither a certificate nor a list (RFC 5280,
/// 4.2.1.3).
pub(crate) fn signs_digitally(usages: &[KeyUsagePurpose]) -> bool
    ensures { result ≡ signs_digitally usages.now }
{
    usages.is_empty() || has_digital_signature(usages)
}

/// The subject of this certificate, as an issuer with this key. Its name is that of the certificate
/// octet by octet.
#[tactic(auto, using(crate::proofs::Refusals::read), unfolding(crate::specs::Issuers::certified))]
pub(crate) fn issuer_of<S: SigningKey + Drop>(
    alloc: Global,
    octets: &[u8],
    key: S,
) -> Result<Issuer<'static, S>, Fault>
    ensures certified { Gets certified_view (certified octets.now) result }
    ensures key { IfOk result (λ issuer. key_of issuer ≡ key) }
{
    let issuer = issuer_as_certified(alloc, octets, key)?;
    Ok(issuer)
}
