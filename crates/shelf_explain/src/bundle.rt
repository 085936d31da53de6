//! Certificates that come with other things: a bundle of certificates and lists, and OpenSSL's settings.
ghost use Rattle.std.specs.Prelude.{◌≡◌, ◌++◌, codes, OnOk};
ghost use Rattle.shelf_explain.specs.Bundles.{bundle_lines, bundle_of, certificate_block, each_within, hex_or_none, if_signed, if_signed_data, is_members, list_block, members, other_field, trusted_lines, with_settings};
ghost use Rattle.shelf_explain.specs.Lines.{line};

use crate::block::{LINE, push_unread_octets, push_unreadable_part};
use crate::digest::push_fingerprint;
use crate::field_part::{OctetsPart, push_part_line};
use crate::line::push_key;
use crate::part::{Part, Parts, begins_with};
use crate::part_text::{ShowPart, push_parts};
use crate::partly::{has_signed_form, push_read_or_rows};
use crate::show::push_hex;
use crate::table::{certificate_fields, list_fields};
use der_tree::read_window;
use pkix_cert::{Certificate, CertificateList};
use std::alloc::{AllocError, Global};

/// The identifier octet of the certificates of a bundle.
const CERTIFICATES: u8 = 0xa0;

/// The identifier octet of the lists of a bundle.
const LISTS: u8 = 0xa1;

/// The DER encoding of id-signedData (RFC 5652, 5.1).
const SIGNED_DATA: &[u8] = b"\x06\x09\x2a\x86\x48\x86\xf7\x0d\x01\x07\x02";

#[tactic(auto, unfolding(crate::specs::Bundles::hex_or_none))]
fn push_hex_or_none(alloc: Global, lines: &mut Vec<u8>, octets: &[u8]) -> Result<(), AllocError>
    ensures { OnOk result (lines.new.items ≡ lines.old.items ++ hex_or_none octets.now) }
{
    if octets.is_empty() {
        lines.extend_from_slice(b"none")
    } else {
        push_hex(alloc, lines, octets)
    }
}

/// Pushes the line of OpenSSL's settings.
#[tactic(auto, unfolding(crate::specs::Lines::line))]
fn push_settings(
    alloc: Global,
    lines: &mut Vec<u8>,
    key: &[u8],
    settings: &[u8],
) -> Result<(), AllocError>
    ensures { OnOk result (lines.new.items ≡ lines.old.items ++ line (codes "  ") key.now (hex_or_none settings.now)) }
{
    push_key(lines, LINE, key)?;
    push_hex_or_none(alloc, lines, settings)?;
    lines.push(b'\n')?;
    Ok(())
}

#[tactic(auto, unfolding(crate::specs::Bundles::with_settings))]
fn push_with_settings(
    alloc: Global,
    lines: &mut Vec<u8>,
    octets: &[u8],
    settings: &[u8],
) -> Result<(), AllocError>
    ensures { OnOk result (lines.new.items ≡ lines.old.items ++ with_settings octets.now settings.now) }
{
    push_read_or_rows::<Certificate>(alloc, lines, certificate_fields(), octets)?;
    push_settings(alloc, lines, b"trust settings", settings)?;
    Ok(())
}

#[tactic(auto, unfolding(crate::specs::Bundles::if_signed))]
fn push_if_signed(
    alloc: Global,
    lines: &mut Vec<u8>,
    octets: &[u8],
    settings: &[u8],
    whole: &[u8],
) -> Result<(), AllocError>
    ensures { OnOk result (lines.new.items ≡ lines.old.items ++ if_signed octets.now settings.now whole.now) }
{
    if has_signed_form(octets) {
        push_with_settings(alloc, lines, octets, settings)
    } else {
        push_unread_octets(alloc, lines, whole)
    }
}

/// Pushes a certificate, and the settings of OpenSSL after it.
#[tactic(auto, unfolding(crate::specs::Bundles::trusted_lines, crate::specs::Bundles::settings_after))]
pub(crate) fn push_trusted(
    alloc: Global,
    lines: &mut Vec<u8>,
    octets: &[u8],
) -> Result<(), AllocError>
    ensures { OnOk result (lines.new.items ≡ lines.old.items ++ trusted_lines octets.now) }
{
    let Ok((certificate, settings)) = read_window(octets) else {
        return push_unread_octets(alloc, lines, octets);
    };
    push_if_signed(alloc, lines, certificate.whole(), settings, octets)
}

/// The SignedData of a ContentInfo with these fields.
#[tactic(auto, unfolding(crate::specs::Bundles::if_signed_data))]
fn if_signed_data<'a>(parts: &Parts<'a>) -> Option<Part<'a>>
    ensures { result ≡ if_signed_data parts.now }
{
    let (kind, left) = parts.first()?;
    let (content, left) = left.first()?;
    if left.first().is_some() {
        return None;
    }
    if kind.octets() == SIGNED_DATA {
        content.inside()
    } else {
        None
    }
}

/// The SignedData in a ContentInfo.
#[tactic(auto, unfolding(crate::specs::Bundles::bundle_of))]
pub(crate) fn bundle_of(octets: &[u8]) -> Option<Part<'_>>
    ensures { result ≡ bundle_of octets.now }
{
    if_signed_data(&Part::in_front(octets).parts()?)
}

/// Whether a field is the certificates or the lists.
#[tactic(auto, unfolding(crate::specs::Bundles::is_members))]
fn is_members(octets: &[u8]) -> bool
    ensures { result ≡ is_members octets.now }
{
    begins_with(octets, CERTIFICATES) || begins_with(octets, LISTS)
}

/// A field that isn't the certificates or the lists.
struct OtherField;

impl ShowPart for OtherField {
    ghost part_text = { other_field };

    #[tactic(auto, unfolding(crate::specs::Bundles::other_field))]
    fn push_part(alloc: Global, lines: &mut Vec<u8>, part: &Part<'_>) -> Result<(), AllocError> {
        if is_members(part.octets()) {
            Ok(())
        } else {
            push_part_line::<OctetsPart>(alloc, lines, b"field", part)
        }
    }
}

/// A certificate of a bundle.
struct CertificateBlock;

impl ShowPart for CertificateBlock {
    ghost part_text = { certificate_block };

    #[tactic(auto, unfolding(crate::specs::Bundles::certificate_block))]
    fn push_part(alloc: Global, lines: &mut Vec<u8>, part: &Part<'_>) -> Result<(), AllocError> {
        lines.extend_from_slice(b"\nCERTIFICATE\n")?;
        push_read_or_rows::<Certificate>(alloc, lines, certificate_fields(), part.octets())?;
        push_fingerprint(alloc, lines, part.octets())?;
        Ok(())
    }
}

/// A list of a bundle.
struct ListBlock;

impl ShowPart for ListBlock {
    ghost part_text = { list_block };

    #[tactic(auto, unfolding(crate::specs::Bundles::list_block))]
    fn push_part(alloc: Global, lines: &mut Vec<u8>, part: &Part<'_>) -> Result<(), AllocError> {
        lines.extend_from_slice(b"\nX509 CRL\n")?;
        push_read_or_rows::<CertificateList>(alloc, lines, list_fields(), part.octets())?;
        push_fingerprint(alloc, lines, part.octets())?;
        Ok(())
    }
}

/// Pushes the elements within a part.
#[tactic(auto, unfolding(crate::specs::Bundles::each_or_unreadable))]
fn push_each_within<P: ShowPart>(
    alloc: Global,
    lines: &mut Vec<u8>,
    part: &Part<'_>,
) -> Result<(), AllocError>
    ensures { OnOk result (lines.new.items ≡ lines.old.items ++ each_within P.part_text part.now) }
{
    let Some(parts) = part.parts() else {
        return push_unreadable_part(alloc, lines, LINE, b"field", part);
    };
    push_parts::<P>(alloc, lines, b"", parts)
}

/// The certificates or the lists.
struct Members;

impl ShowPart for Members {
    ghost part_text = { members };

    #[tactic(auto, unfolding(crate::specs::Bundles::members))]
    fn push_part(alloc: Global, lines: &mut Vec<u8>, part: &Part<'_>) -> Result<(), AllocError> {
        if begins_with(part.octets(), CERTIFICATES) {
            return push_each_within::<CertificateBlock>(alloc, lines, part);
        }
        if begins_with(part.octets(), LISTS) {
            return push_each_within::<ListBlock>(alloc, lines, part);
        }
        Ok(())
    }
}

/// Pushes the other fields, the digest of the whole, and then the certificates and lists.
#[tactic(auto, unfolding(crate::specs::Bundles::bundle_lines))]
pub(crate) fn push_bundle(
    alloc: Global,
    lines: &mut Vec<u8>,
    octets: &[u8],
    bundle: &Part<'_>,
) -> Result<(), AllocError>
    ensures { OnOk result (lines.new.items ≡ lines.old.items ++ bundle_lines octets.now bundle.now) }
{
    push_each_within::<OtherField>(alloc, lines, bundle)?;
    push_fingerprint(alloc, lines, octets)?;
    push_each_within::<Members>(alloc, lines, bundle)?;
    Ok(())
}
