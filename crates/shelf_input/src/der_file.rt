//! Files that are DER.
ghost use Rattle.std.specs.Prelude.{◌≡◌, IfOk, is_some};
ghost use Rattle.der_tree.specs.Form.{value_of};
ghost use Rattle.shelf_input.specs.DerFiles.{der_label, is_der};

use asn1_core::OutOfMemory;
use der_tree::{DerType, der, one_window};
use pkix_attr::AttributeCertificate;
use pkix_cert::{Certificate, CertificateList, CertificationRequest, SubjectPublicKeyInfo};
use std::alloc::Global;

/// Whether a file is DER: one SEQUENCE, and nothing after it.
#[tactic(auto, unfolding(crate::specs::DerFiles::is_der))]
pub(crate) fn is_der(file: &[u8]) -> bool
    ensures { result ≡ is_der file.now }
{
    match file {
        [0x30, ..] => one_window(file).is_some(),
        _ => false,
    }
}

/// Whether the octets are the DER of a value of this type.
fn is_of<T: DerType>(alloc: Global, octets: &[u8]) -> Result<bool, OutOfMemory>
    ensures { IfOk result (λ b. b ≡ is_some (value_of T.codec octets.now)) }
{
    let value = der::value_of::<T>(alloc, octets)?;
    Ok(value.is_some())
}

/// The label under which a file of these octets is read (RFC 7468): by what they are the DER of, or `DER`.
#[tactic(auto, unfolding(crate::specs::DerFiles::der_label))]
pub(crate) fn der_label(alloc: Global, octets: &[u8]) -> Result<&'static [u8], OutOfMemory>
    ensures { IfOk result (λ label. label.now ≡ der_label octets.now) }
{
    if is_of::<Certificate>(alloc, octets)? {
        return Ok(b"CERTIFICATE");
    }
    if is_of::<CertificationRequest>(alloc, octets)? {
        return Ok(b"CERTIFICATE REQUEST");
    }
    if is_of::<SubjectPublicKeyInfo>(alloc, octets)? {
        return Ok(b"PUBLIC KEY");
    }
    if is_of::<CertificateList>(alloc, octets)? {
        return Ok(b"X509 CRL");
    }
    if is_of::<AttributeCertificate>(alloc, octets)? {
        return Ok(b"ATTRIBUTE CERTIFICATE");
    }
    Ok(b"DER")
}
