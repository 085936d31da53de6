//! Octets without a label, which are what their grammar says.
ghost use Rattle.std.specs.Prelude.{◌≡◌, ◌++◌, IfOk, OnOk, None};
ghost use Rattle.std.specs.Option.{option_map};
ghost use Rattle.shelf_explain.specs.Explanation.{explained_as, explained_text, explanation_of_der, known_text, long_explanation_of_der, or_as, signed_of_authority, signed_of_others, signed_text, unsigned_of_authority, unsigned_of_others, unsigned_text};

use crate::block::ShowLines;
use crate::digest::push_fingerprint;
use crate::fold::folded;
use asn1_core::OutOfMemory;
use der_tree::{DerType, der};
use pkix_attr::{AttributeCertificate, AttributeCertificateInfo};
use pkix_cert::{
    Certificate, CertificateList, CertificationRequest, CertificationRequestInfo,
    SubjectPublicKeyInfo, TbsCertList, TbsCertificate,
};
use std::alloc::{AllocError, Global};

/// The title, the lines of a value, and the digest of its octets.
#[tactic(auto, unfolding(crate::specs::Explanation::explained_text))]
fn text_of<T: ShowLines>(
    alloc: Global,
    title: &[u8],
    value: &T,
    octets: &[u8],
) -> Result<Vec<u8>, AllocError>
    ensures { IfOk result (λ text. text.items ≡ explained_text title.now (T.written value.now) octets.now) }
{
    let mut lines = Vec::new(alloc);
    lines.extend_from_slice(title)?;
    lines.push(b'\n')?;
    value.push_lines(alloc, &mut lines)?;
    push_fingerprint(alloc, &mut lines, octets)?;
    Ok(lines)
}

/// The text of the value whose DER encoding the octets are, if they are one.
#[tactic(auto, unfolding(crate::specs::Explanation::explained_as))]
fn text_as<T: DerType + ShowLines + Drop>(
    alloc: Global,
    title: &[u8],
    octets: &[u8],
) -> Result<Option<Vec<u8>>, AllocError>
    ensures { IfOk result (λ o. option_map (λ v. v.items) o ≡ explained_as title.now T.codec T.written octets.now) }
{
    let Some(value) = der::value_of::<T>(alloc, octets)? else {
        return Ok(None);
    };
    let text = text_of(alloc, title, &value, octets)?;
    Ok(Some(text))
}

/// The text that is there, or else that of such a value.
#[tactic(auto, unfolding(crate::specs::Explanation::or_as))]
fn or_text_as<T: DerType + ShowLines + Drop>(
    alloc: Global,
    found: Option<Vec<u8>>,
    title: &[u8],
    octets: &[u8],
) -> Result<Option<Vec<u8>>, AllocError>
    ensures { IfOk result (λ o. option_map (λ v. v.items) o ≡ or_as title.now T.codec T.written octets.now (option_map (λ v. v.items) found)) }
{
    match found {
        Some(text) => Ok(Some(text)),
        None => text_as::<T>(alloc, title, octets),
    }
}

/// The text that is there, or else that of a certificate or revocation list.
#[tactic(auto, unfolding(crate::specs::Explanation::signed_of_authority))]
fn signed_of_authority(
    alloc: Global,
    found: Option<Vec<u8>>,
    octets: &[u8],
) -> Result<Option<Vec<u8>>, AllocError>
    ensures { IfOk result (λ o. option_map (λ v. v.items) o ≡ signed_of_authority octets.now (option_map (λ v. v.items) found)) }
{
    let found = or_text_as::<Certificate>(alloc, found, b"CERTIFICATE", octets)?;
    or_text_as::<CertificateList>(alloc, found, b"X509 CRL", octets)
}

/// The text that is there, or else that of a request or an attribute certificate.
#[tactic(auto, unfolding(crate::specs::Explanation::signed_of_others))]
fn signed_of_others(
    alloc: Global,
    found: Option<Vec<u8>>,
    octets: &[u8],
) -> Result<Option<Vec<u8>>, AllocError>
    ensures { IfOk result (λ o. option_map (λ v. v.items) o ≡ signed_of_others octets.now (option_map (λ v. v.items) found)) }
{
    let found = or_text_as::<CertificationRequest>(alloc, found, b"CERTIFICATE REQUEST", octets)?;
    or_text_as::<AttributeCertificate>(alloc, found, b"ATTRIBUTE CERTIFICATE", octets)
}

/// The text that is there, or else that of what is signed.
#[tactic(auto, unfolding(crate::specs::Explanation::signed_text))]
fn signed_text(
    alloc: Global,
    found: Option<Vec<u8>>,
    octets: &[u8],
) -> Result<Option<Vec<u8>>, AllocError>
    ensures { IfOk result (λ o. option_map (λ v. v.items) o ≡ signed_text octets.now (option_map (λ v. v.items) found)) }
{
    let found = signed_of_authority(alloc, found, octets)?;
    signed_of_others(alloc, found, octets)
}

/// The text of what is signed or a key.
#[tactic(auto, unfolding(crate::specs::Explanation::known_text))]
fn known_text(alloc: Global, octets: &[u8]) -> Result<Option<Vec<u8>>, AllocError>
    ensures { IfOk result (λ o. option_map (λ v. v.items) o ≡ known_text octets.now) }
{
    let found = signed_text(alloc, None, octets)?;
    or_text_as::<SubjectPublicKeyInfo>(alloc, found, b"PUBLIC KEY", octets)
}

/// The text that is there, or else that of a certificate or revocation list to be signed.
#[tactic(auto, unfolding(crate::specs::Explanation::unsigned_of_authority))]
fn unsigned_of_authority(
    alloc: Global,
    found: Option<Vec<u8>>,
    octets: &[u8],
) -> Result<Option<Vec<u8>>, AllocError>
    ensures { IfOk result (λ o. option_map (λ v. v.items) o ≡ unsigned_of_authority octets.now (option_map (λ v. v.items) found)) }
{
    let found = or_text_as::<TbsCertificate>(alloc, found, b"TBSCertificate", octets)?;
    or_text_as::<TbsCertList>(alloc, found, b"TBSCertList", octets)
}

/// The text that is there, or else that of a request or an attribute certificate to be signed.
#[tactic(auto, unfolding(crate::specs::Explanation::unsigned_of_others))]
fn unsigned_of_others(
    alloc: Global,
    found: Option<Vec<u8>>,
    octets: &[u8],
) -> Result<Option<Vec<u8>>, AllocError>
    ensures { IfOk result (λ o. option_map (λ v. v.items) o ≡ unsigned_of_others octets.now (option_map (λ v. v.items) found)) }
{
    let title = b"CertificationRequestInfo".as_slice();
    let found = or_text_as::<CertificationRequestInfo>(alloc, found, title, octets)?;
    or_text_as::<AttributeCertificateInfo>(alloc, found, b"AttributeCertificateInfo", octets)
}

/// The text that is there, or else that of what is to be signed.
#[tactic(auto, unfolding(crate::specs::Explanation::unsigned_text))]
fn unsigned_text(
    alloc: Global,
    found: Option<Vec<u8>>,
    octets: &[u8],
) -> Result<Option<Vec<u8>>, AllocError>
    ensures { IfOk result (λ o. option_map (λ v. v.items) o ≡ unsigned_text octets.now (option_map (λ v. v.items) found)) }
{
    let found = unsigned_of_authority(alloc, found, octets)?;
    unsigned_of_others(alloc, found, octets)
}

#[tactic(auto, unfolding(crate::specs::Explanation::long_explanation_of_der))]
fn long_text_of_der(alloc: Global, octets: &[u8]) -> Result<Option<Vec<u8>>, AllocError>
    ensures { IfOk result (λ o. option_map (λ v. v.items) o ≡ long_explanation_of_der octets.now) }
{
    let found = known_text(alloc, octets)?;
    unsigned_text(alloc, found, octets)
}

#[tactic(auto, unfolding(crate::specs::Explanation::explanation_of_der))]
fn text_of_der(alloc: Global, octets: &[u8]) -> Result<Option<Vec<u8>>, AllocError>
    ensures { IfOk result (λ o. option_map (λ v. v.items) o ≡ explanation_of_der octets.now) }
{
    let Some(lines) = long_text_of_der(alloc, octets)? else {
        return Ok(None);
    };
    let text = folded(alloc, lines.as_slice())?;
    Ok(Some(text))
}

/// What DER octets without a label contain, a line for each field, in UTF-8, if they are the encoding of a certificate, a revocation list, a
/// request, an attribute certificate or a public key, or of what is to be signed of one of the first four, as `shelf tbs` writes it: its
/// fields, the algorithm that the signature has to be of, and the SHA-256 digest of the octets. The only error is lack of memory.
pub fn explanation_of_der(alloc: Global, octets: &[u8]) -> Result<Option<Vec<u8>>, OutOfMemory>
    ensures { IfOk result (λ o. option_map (λ v. v.items) o ≡ explanation_of_der octets.now) }
{
    Ok(text_of_der(alloc, octets)?)
}

/// The same in lines of any length, for programs.
pub fn long_explanation_of_der(alloc: Global, octets: &[u8]) -> Result<Option<Vec<u8>>, OutOfMemory>
    ensures { IfOk result (λ o. option_map (λ v. v.items) o ≡ long_explanation_of_der octets.now) }
{
    Ok(long_text_of_der(alloc, octets)?)
}
