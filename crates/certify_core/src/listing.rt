//! What a certificate contains, for a person to read: a line for each part.
ghost use Rattle.std.specs.Prelude.{◌≡◌, ◌++◌, flat_map, codes, IfOk, OnOk};
ghost use Rattle.std.specs.Option.{MatchOption, option_copied};
ghost use Rattle.der_tree.specs.Form.{IsDerOf, value_of};
ghost use Rattle.pkix_cert.specs.Certificates.{certificate as certificate_codec};
ghost use Rattle.pkix_cert.specs.Times.{validity};
ghost use Rattle.pkix_cert.specs.Algorithms.{subject_public_key_info};
ghost use Rattle.pkix_cert.specs.declared.certificate.Certificate.{Certificate};
ghost use Rattle.certify_core.specs.Bulk.{bulk_lines};
ghost use Rattle.certify_core.specs.ListedParts.{extension_part_text, key_lines, listing_in, signed_lines, validity_lines, value_line};
ghost use Rattle.certify_core.specs.Listing.{line, line_of, listing, issuer_lines};

mod other_fields;
mod part;
mod reply;

use crate::listing::other_fields::other_fields;
use crate::listing::part::ShowText;
pub(crate) use crate::listing::part::{push_decimal, push_hex};
use asn1_core::{BitString, Integer, OctetString};
use der_tree::{DerType, der};
use pkix_cert::{
    AlgorithmIdentifier, Certificate, CertificateView, ExtensionViews, Name, SubjectPublicKeyInfo,
    Validity, parts_of_each_view,
};
pub(crate) use reply::reply_lines;
use sha2::{Digest, Sha256};
use std::alloc::{AllocError, Global};

/// Pushes a line: what it is about, and the text.
#[tactic(auto, unfolding(crate::specs::Listing::line))]
fn push_line<T: ShowText>(
    alloc: Global,
    lines: &mut Vec<u8>,
    label: &[u8],
    value: &T,
) -> Result<(), AllocError>
    ensures { OnOk result (lines.new.items ≡ lines.old.items ++ line label.now T.text value.now) }
{
    lines.extend_from_slice(label)?;
    lines.push(b' ')?;
    value.push_onto(alloc, lines)?;
    lines.push(b'\n')?;
    Ok(())
}

/// Pushes the line where there is a value.
#[tactic(auto, unfolding(crate::specs::Listing::line_of))]
fn push_line_of<T: ShowText>(
    alloc: Global,
    lines: &mut Vec<u8>,
    label: &[u8],
    value: Option<&T>,
) -> Result<(), AllocError>
    ensures { OnOk result (lines.new.items ≡ lines.old.items ++ line_of label.now T.text (option_copied value.entry)) }
{
    match value {
        None => Ok(()),
        Some(value) => push_line(alloc, lines, label, value),
    }
}

/// Pushes the line of the value whose form the octets are, where they are one.
fn push_value<T: DerType + ShowText>(
    alloc: Global,
    lines: &mut Vec<u8>,
    label: &[u8],
    octets: &[u8],
) -> Result<(), AllocError>
    ensures { OnOk result (lines.new.items ≡ lines.old.items ++ value_line label.now T.codec T.text octets.now) }
{
    let value: Option<T> = der::value_of(alloc, octets)?;
    push_line_of(alloc, lines, label, value.as_ref())
}

/// Pushes the two lines of a validity.
#[tactic(auto, unfolding(crate::specs::ListedParts::validity_lines))]
fn push_validity(alloc: Global, lines: &mut Vec<u8>, octets: &[u8]) -> Result<(), AllocError>
    ensures { OnOk result (lines.new.items ≡ lines.old.items ++ validity_lines (value_of validity octets.now)) }
{
    let Some(validity) = der::value_of::<Validity>(alloc, octets)? else {
        return Ok(());
    };
    push_line(alloc, lines, b"not-before", &validity.not_before)?;
    push_line(alloc, lines, b"not-after", &validity.not_after)?;
    Ok(())
}

/// Pushes the two lines of a key.
#[tactic(auto, unfolding(crate::specs::ListedParts::key_lines))]
fn push_key(alloc: Global, lines: &mut Vec<u8>, octets: &[u8]) -> Result<(), AllocError>
    ensures { OnOk result (lines.new.items ≡ lines.old.items ++ key_lines (value_of subject_public_key_info octets.now)) }
{
    let Some(key) = der::value_of::<SubjectPublicKeyInfo>(alloc, octets)? else {
        return Ok(());
    };
    push_line(alloc, lines, b"key", &key.algorithm)?;
    push_line(alloc, lines, b"key-bits", &key.subject_public_key)?;
    Ok(())
}

/// Pushes a line for each extension.
#[tactic(auto, using(crate::proofs::Joined::pushing))]
fn push_extensions(
    alloc: Global,
    lines: &mut Vec<u8>,
    extensions: ExtensionViews<'_>,
) -> Result<(), AllocError>
    ensures { OnOk result (lines.new.items ≡ lines.old.items ++ flat_map (line (codes "extension") extension_part_text) extensions.entry) }
{
    for extension in extensions {
        push_line(alloc, lines, b"extension", &extension)?;
    }
    Ok(())
}

/// The lines of what the issuer signs.
#[tactic(auto, unfolding(crate::specs::ListedParts::signed_lines))]
fn signed_lines(alloc: Global, certificate: &CertificateView<'_>) -> Result<Vec<u8>, AllocError>
    ensures { IfOk result (λ text. text.items ≡ signed_lines certificate.now) }
{
    let others = other_fields(alloc, certificate.tbs())?;
    let issuer_id = others.issuer_unique_id.as_ref();
    let subject_id = others.subject_unique_id.as_ref();
    let mut lines = Vec::new(alloc);
    push_line(alloc, &mut lines, b"version", &others.version)?;
    push_value::<Integer>(alloc, &mut lines, b"serial", certificate.serial_number())?;
    push_value::<AlgorithmIdentifier>(
        alloc,
        &mut lines,
        b"signature",
        certificate.tbs_signature(),
    )?;
    push_value::<Name>(alloc, &mut lines, b"issuer", certificate.issuer())?;
    push_validity(alloc, &mut lines, certificate.validity())?;
    push_value::<Name>(alloc, &mut lines, b"subject", certificate.subject())?;
    push_key(alloc, &mut lines, certificate.key_info())?;
    push_line_of(alloc, &mut lines, b"issuer-id", issuer_id)?;
    push_line_of(alloc, &mut lines, b"subject-id", subject_id)?;
    push_extensions(alloc, &mut lines, certificate.extensions())?;
    Ok(lines)
}

/// The lines of a certificate's parts.
#[tactic(auto, unfolding(crate::specs::ListedParts::listing_in))]
fn all_lines(alloc: Global, certificate: &CertificateView<'_>) -> Result<Vec<u8>, AllocError>
    ensures { IfOk result (λ text. text.items ≡ listing_in certificate.now) }
{
    let mut lines = signed_lines(alloc, certificate)?;
    push_value::<AlgorithmIdentifier>(
        alloc,
        &mut lines,
        b"signature-algorithm",
        certificate.signature_algorithm(),
    )?;
    push_value::<BitString>(
        alloc,
        &mut lines,
        b"signature-bits",
        certificate.signature(),
    )?;
    Ok(lines)
}

/// The certificate whose DER is exactly these bytes as lines of text in ASCII, each ended by a line feed; `None` where
/// they are no certificate's. Numbers and identifiers are decimal, bytes hexadecimal in lower case; a dash means no
/// bytes, no parts of a name, or an extension that isn't critical. The version is the number as it is
/// written.
pub(crate) fn listing(alloc: Global, der: &[u8]) -> Result<Option<Vec<u8>>, AllocError>
    ensures { IfOk result (λ found. MatchOption found
        ((c : Certificate) → ¬ (IsDerOf certificate_codec c der.now))
        (λ text. (c : Certificate) × IsDerOf certificate_codec c der.now × (text.items ≡ listing c))) }
{
    parts_of_each_view();
    der::no_front::<Certificate, Certificate>();
    let Some(certificate) = CertificateView::new(der) else {
        return Ok(None);
    };
    if certificate.rest().is_empty() {
        Ok(Some(all_lines(alloc, &certificate)?))
    } else {
        Ok(None)
    }
}

/// A list's form as such lines: how long it is, how many entries it has, and its digest.
#[tactic(auto, unfolding(crate::specs::Bulk::bulk_lines))]
pub(crate) fn bulk_lines(alloc: Global, count: u64, der: &[u8]) -> Result<Vec<u8>, AllocError>
    ensures { IfOk result (λ text. text.items ≡ bulk_lines count der.now) }
{
    let digest = OctetString::new(Vec::from_slice(alloc, &Sha256::digest(der)[..])?);
    let mut lines = Vec::new(alloc);
    push_line(alloc, &mut lines, b"length", &(der.len() as u64))?;
    push_line(alloc, &mut lines, b"entries", &count)?;
    push_line(alloc, &mut lines, b"sha256", &digest)?;
    Ok(lines)
}

/// An issuer as such lines: its name, the identifier of its key, and whether it may sign
/// revocation lists.
pub(crate) fn issuer_lines(
    alloc: Global,
    name: &Name,
    key_identifier: &OctetString,
    signs_lists: bool,
) -> Result<Vec<u8>, AllocError>
    ensures { IfOk result (λ text. text.items ≡ issuer_lines name.now key_identifier.now signs_lists) }
{
    let mut lines = Vec::new(alloc);
    push_line(alloc, &mut lines, b"issuer", name)?;
    push_line(alloc, &mut lines, b"authority-key", key_identifier)?;
    push_line(alloc, &mut lines, b"signs-lists", &signs_lists)?;
    Ok(lines)
}
