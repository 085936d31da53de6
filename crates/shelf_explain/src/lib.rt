//! What a PEM block or DER octets contain, for people: lines of a key and a value, aligned, with what belongs to a
//! line indented below it. One input has one text. No character of a text acts on a terminal or changes the direction of the text
//! beside it: a hidden character, or one of a script that runs from right to left, is a backslash and hexadecimal digits.
#![tactic(auto)]

ghost use Rattle.std.specs.Prelude.{◌≡◌, ◌++◌, IfOk, List, OnOk, true, ℕ};
ghost use Rattle.shelf_explain.specs.Bundles.{bundle_of, bundle_or_guessed, bundle_or_not};
ghost use Rattle.shelf_explain.specs.Explanation.{block_lines, block_of, block_of_others, explanation, fingerprint_of, known_lines, long_explanation, title_line};
ghost use Rattle.shelf_explain.specs.Folding.{fits_from};

mod address;
mod attribute_certificate;
mod bits;
mod block;
mod bundle;
mod certificate;
mod character;
mod constraints;
mod decimal;
mod digest;
mod element;
mod encoding;
mod extension;
mod extension_part;
mod fault;
mod field_part;
mod fold;
mod general_name;
mod key;
mod known;
mod line;
mod list;
mod name;
mod name_part;
mod notice;
mod number;
mod part;
mod part_text;
mod partly;
mod points;
mod policies;
mod request;
mod row;
mod rsa;
mod show;
mod shown_fields;
mod table;
mod texts;
mod time;
mod timestamp;
mod unlabelled;
mod unlabelled_part;
mod value;

use crate::block::{push_not_explained, push_read_lines};
use crate::bundle::{bundle_of, push_bundle, push_trusted};
use crate::digest::push_fingerprint;
use crate::fold::folded;
use crate::partly::push_read_or_rows;
pub use crate::shown_fields::{certificate_is_shown, list_is_shown};
use crate::table::{attribute_certificate_fields, certificate_fields, list_fields, request_fields};
pub use crate::texts::{algorithm_text, general_names_text, name_text};
pub use crate::unlabelled::{explanation_of_der, long_explanation_of_der};
use crate::unlabelled_part::push_unlabelled;
use crate::value::push_plain_text;
use asn1_core::OutOfMemory;
use pkix_attr::AttributeCertificate;
use pkix_cert::{Certificate, CertificateList, CertificationRequest, SubjectPublicKeyInfo};
use pkix_name::Characters;
use std::alloc::{AllocError, Global};

/// What the octets of a block are, by its label.
#[derive(Clone, Copy, Debug)]
pub(crate) enum BlockKind {
    Certificate,
    Request,
    RevocationList,
    AttributeCertificate,
    PublicKey,
    TrustedCertificate,
    Bundle,
    Unlabelled,
    Other,
}

/// What other labels mean: that of the issuers of CRLs, those of OpenSSL, of bundles (RFC 7468, 8, 9), and DER, which octets without a label have.
#[tactic(auto, unfolding(crate::specs::Explanation::block_of_others))]
fn block_of_others(label: &[u8]) -> BlockKind
    ensures { result ≡ block_of_others label.now }
{
    if label == b"CRL ISSUER CERTIFICATE".as_slice() {
        return BlockKind::Certificate;
    }
    if label == b"TRUSTED CERTIFICATE".as_slice() {
        return BlockKind::TrustedCertificate;
    }
    if label == b"PKCS7".as_slice() {
        return BlockKind::Bundle;
    }
    if label == b"CMS".as_slice() {
        return BlockKind::Bundle;
    }
    if label == b"DER".as_slice() {
        return BlockKind::Unlabelled;
    }
    BlockKind::Other
}

/// What a label means (RFC 7468, 5 to 13).
#[tactic(auto, unfolding(crate::specs::Explanation::block_of))]
fn block_of(label: &[u8]) -> BlockKind
    ensures { result ≡ block_of label.now }
{
    if label == b"CERTIFICATE".as_slice() {
        return BlockKind::Certificate;
    }
    if label == b"X509 CERTIFICATE".as_slice() {
        return BlockKind::Certificate;
    }
    if label == b"CERTIFICATE REQUEST".as_slice() {
        return BlockKind::Request;
    }
    if label == b"NEW CERTIFICATE REQUEST".as_slice() {
        return BlockKind::Request;
    }
    if label == b"X509 CRL".as_slice() {
        return BlockKind::RevocationList;
    }
    if label == b"ATTRIBUTE CERTIFICATE".as_slice() {
        return BlockKind::AttributeCertificate;
    }
    if label == b"PUBLIC KEY".as_slice() {
        return BlockKind::PublicKey;
    }
    block_of_others(label)
}

/// Pushes the certificates and lists of a bundle.
#[tactic(auto, unfolding(crate::specs::Bundles::bundle_or_not))]
fn push_bundle_or_not(alloc: Global, lines: &mut Vec<u8>, octets: &[u8]) -> Result<(), AllocError>
    ensures { OnOk result (lines.new.items ≡ lines.old.items ++ bundle_or_not (bundle_of octets.now) octets.now) }
{
    match bundle_of(octets) {
        None => push_not_explained(alloc, lines, octets),
        Some(bundle) => push_bundle(alloc, lines, octets, &bundle),
    }
}

/// Pushes what can be read of octets without a label.
#[tactic(auto, unfolding(crate::specs::Bundles::bundle_or_guessed))]
fn push_bundle_or_guessed(
    alloc: Global,
    lines: &mut Vec<u8>,
    octets: &[u8],
) -> Result<(), AllocError>
    ensures { OnOk result (lines.new.items ≡ lines.old.items ++ bundle_or_guessed (bundle_of octets.now) octets.now) }
{
    match bundle_of(octets) {
        None => push_unlabelled(alloc, lines, octets),
        Some(bundle) => push_bundle(alloc, lines, octets, &bundle),
    }
}

#[tactic(auto, unfolding(crate::specs::Explanation::known_lines))]
fn push_known(
    alloc: Global,
    lines: &mut Vec<u8>,
    block: BlockKind,
    octets: &[u8],
) -> Result<(), AllocError>
    ensures { OnOk result (lines.new.items ≡ lines.old.items ++ known_lines block octets.now) }
{
    match block {
        BlockKind::Certificate => {
            push_read_or_rows::<Certificate>(alloc, lines, certificate_fields(), octets)
        }
        BlockKind::Request => {
            push_read_or_rows::<CertificationRequest>(alloc, lines, request_fields(), octets)
        }
        BlockKind::RevocationList => {
            push_read_or_rows::<CertificateList>(alloc, lines, list_fields(), octets)
        }
        BlockKind::AttributeCertificate => push_read_or_rows::<AttributeCertificate>(
            alloc,
            lines,
            attribute_certificate_fields(),
            octets,
        ),
        BlockKind::PublicKey => push_read_lines::<SubjectPublicKeyInfo>(alloc, lines, octets),
        BlockKind::TrustedCertificate => push_trusted(alloc, lines, octets),
        BlockKind::Bundle => push_bundle_or_not(alloc, lines, octets),
        BlockKind::Unlabelled => push_bundle_or_guessed(alloc, lines, octets),
        BlockKind::Other => push_not_explained(alloc, lines, octets),
    }
}

/// Pushes the digest, where the lines of a block don't have it.
#[tactic(auto, unfolding(crate::specs::Explanation::fingerprint_of))]
fn push_fingerprint_of(
    alloc: Global,
    lines: &mut Vec<u8>,
    block: BlockKind,
    octets: &[u8],
) -> Result<(), AllocError>
    ensures { OnOk result (lines.new.items ≡ lines.old.items ++ fingerprint_of block octets.now) }
{
    match block {
        BlockKind::Other | BlockKind::Bundle | BlockKind::Unlabelled => Ok(()),
        BlockKind::Certificate
        | BlockKind::Request
        | BlockKind::RevocationList
        | BlockKind::AttributeCertificate
        | BlockKind::PublicKey
        | BlockKind::TrustedCertificate => push_fingerprint(alloc, lines, octets),
    }
}

#[tactic(auto, unfolding(crate::specs::Explanation::block_lines))]
fn push_block(
    alloc: Global,
    lines: &mut Vec<u8>,
    block: BlockKind,
    octets: &[u8],
) -> Result<(), AllocError>
    ensures { OnOk result (lines.new.items ≡ lines.old.items ++ block_lines block octets.now) }
{
    push_known(alloc, lines, block, octets)?;
    push_fingerprint_of(alloc, lines, block, octets)?;
    Ok(())
}

/// Pushes the label.
#[tactic(auto, unfolding(crate::specs::Explanation::title_line))]
fn push_title(alloc: Global, lines: &mut Vec<u8>, label: &[u8]) -> Result<(), AllocError>
    ensures { OnOk result (lines.new.items ≡ lines.old.items ++ title_line label.now) }
{
    push_plain_text(alloc, lines, Characters::Octets(label))?;
    lines.push(b'\n')?;
    Ok(())
}

#[tactic(auto, unfolding(crate::specs::Explanation::long_explanation))]
fn long_text_of(alloc: Global, label: &[u8], octets: &[u8]) -> Result<Vec<u8>, AllocError>
    ensures { IfOk result (λ text. text.items ≡ long_explanation label.now octets.now) }
{
    let mut lines = Vec::new(alloc);
    push_title(alloc, &mut lines, label)?;
    push_block(alloc, &mut lines, block_of(label), octets)?;
    Ok(lines)
}

#[tactic(auto, unfolding(crate::specs::Explanation::explanation))]
fn text_of(alloc: Global, label: &[u8], octets: &[u8]) -> Result<Vec<u8>, AllocError>
    ensures { IfOk result (λ text. text.items ≡ explanation label.now octets.now) }
{
    let lines = long_text_of(alloc, label, octets)?;
    let text = folded(alloc, lines.as_slice())?;
    Ok(text)
}

/// What the block with the label contains, a line for each field, in UTF-8. The labels are `CERTIFICATE`, `X509 CERTIFICATE`,
/// `CERTIFICATE REQUEST`, `NEW CERTIFICATE REQUEST`, `X509 CRL`, `ATTRIBUTE CERTIFICATE`, `PUBLIC KEY`, `TRUSTED CERTIFICATE` (a
/// certificate and OpenSSL's settings), `PKCS7` and `CMS` (the certificates and lists of a SignedData), and `DER` for octets that had no
/// label. The last line is the SHA-256 digest of the octets. A block that can't be read as a whole is shown part by part: of a part that
/// can't be read, its place, the place and rule of its first offence against DER, and its octets. Of a block with another label, and of
/// octets that don't have the form of a signed value, only the number of octets is shown, since they may be a secret. A line has at most
/// 98 characters; its rest continues in the next line after a bar. The only error is lack of memory.
pub fn explanation(alloc: Global, label: &[u8], octets: &[u8]) -> Result<Vec<u8>, OutOfMemory>
    ensures { IfOk result (λ text. text.items ≡ explanation label.now octets.now) }
{
    Ok(text_of(alloc, label, octets)?)
}

/// The same in lines of any length, for programs.
pub fn long_explanation(alloc: Global, label: &[u8], octets: &[u8]) -> Result<Vec<u8>, OutOfMemory>
    ensures { IfOk result (λ text. text.items ≡ long_explanation label.now octets.now) }
{
    Ok(long_text_of(alloc, label, octets)?)
}

/// No line of an explanation has more than 98 characters.
#[tactic(auto, using(crate::proofs::Fitting::folded_fits), unfolding(crate::specs::Explanation::explanation, crate::specs::Folding::folded))]
pub fn lines_are_short()
    ensures { (label octets : List ℕ) → fits_from 0 (explanation label octets) ≡ true }
{}
