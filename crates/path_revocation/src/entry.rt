//! The entries of a list (RFC 5280, 5.3), and the search for a certificate among them.
ghost use Rattle.std.specs.Prelude.{◌≡◌, IfOk};
ghost use Rattle.std.specs.List.{list_any};
ghost use Rattle.std.specs.Option.{option_map};
ghost use Rattle.path_revocation.specs.Entries.{are_readable_entries, found, is_of_issuer, is_readable_entry, issuer_contents};
ghost use Rattle.path_revocation.specs.Entries.{is_removal, processed_of_entries, reason_contents, revocation_by, unless_removed};
ghost use Rattle.path_revocation.specs.Extensions.{is_unprocessed};

use crate::extension::{are_once, can_be_read, contents_at, extensions_in, said};
use crate::point::is_among;
use asn1_core::{Integer, OutOfMemory};
use jiff::civil::DateTime;
use pkix_cert::extension_id::{ID_CE_CERTIFICATE_ISSUER, ID_CE_CRL_REASONS, ID_CE_INVALIDITY_DATE};
use pkix_cert::{CrlReason, Extension, RevokedCertificate};
use pkix_name::{GeneralNames, Name};
use std::alloc::Global;

/// Since when a certificate is revoked, in UTC, and why.
#[derive(Clone, Copy)]
pub(crate) struct Revocation {
    pub(crate) at: DateTime,
    pub(crate) reason: CrlReason,
}

#[tactic(auto, unfolding(crate::specs::Entries::reason_contents))]
fn reason_contents(entry: &RevokedCertificate) -> Option<&[u8]>
    ensures { option_map (λ contents. contents.now) result ≡ reason_contents entry.now }
{
    contents_at(&entry.crl_entry_extensions, ID_CE_CRL_REASONS)
}

#[tactic(auto, unfolding(crate::specs::Entries::issuer_contents))]
fn issuer_contents(entry: &RevokedCertificate) -> Option<&[u8]>
    ensures { option_map (λ contents. contents.now) result ≡ issuer_contents entry.now }
{
    contents_at(&entry.crl_entry_extensions, ID_CE_CERTIFICATE_ISSUER)
}

fn is_unprocessed(extension: &Extension) -> bool
    ensures { result ≡ is_unprocessed processed_of_entries extension.now }
{
    let id = extension.extn_id.arcs();
    let is_processed = id == ID_CE_CRL_REASONS
        || id == ID_CE_INVALIDITY_DATE
        || id == ID_CE_CERTIFICATE_ISSUER;
    extension.critical && !is_processed
}

fn has_unprocessed(extensions: &[Extension]) -> bool
    ensures { result ≡ list_any (is_unprocessed processed_of_entries) extensions.now }
{
    extensions.iter().any(|extension| is_unprocessed(extension))
}

/// Whether all that is critical in the entry is processed, no extension occurs there twice, and what
/// is read of it can be read.
#[tactic(auto, unfolding(crate::specs::Entries::is_readable_entry))]
fn is_readable_entry(alloc: Global, entry: &RevokedCertificate) -> Result<bool, OutOfMemory>
    ensures { IfOk result (λ b. b ≡ is_readable_entry entry.now) }
{
    let extensions = extensions_in(&entry.crl_entry_extensions);
    if has_unprocessed(extensions) {
        return Ok(false);
    }
    if !are_once(alloc, extensions)? {
        return Ok(false);
    }
    let has_reason = can_be_read::<CrlReason>(alloc, reason_contents(entry))?;
    let has_issuer = can_be_read::<GeneralNames>(alloc, issuer_contents(entry))?;
    Ok(has_reason && has_issuer)
}

/// Whether each entry is so.
#[tactic(auto, unfolding(crate::specs::Entries::are_readable_entries))]
pub(crate) fn are_readable_entries(
    alloc: Global,
    entries: &[RevokedCertificate],
) -> Result<bool, OutOfMemory>
    ensures { IfOk result (λ b. b ≡ are_readable_entries entries.now) }
{
    for entry in entries {
        if !is_readable_entry(alloc, entry)? {
            return Ok(false);
        }
    }
    Ok(true)
}

/// Whether the entry is of a certificate of the issuer (RFC 5280, 5.3.3), where the one before it is
/// or isn't.
#[tactic(auto, unfolding(crate::specs::Entries::is_of_issuer))]
fn is_of_issuer(
    alloc: Global,
    issuer: &Name,
    before: bool,
    entry: &RevokedCertificate,
) -> Result<bool, OutOfMemory>
    ensures { IfOk result (λ b. b ≡ is_of_issuer issuer.now before entry.now) }
{
    let names: Option<GeneralNames> = said(alloc, issuer_contents(entry))?;
    match names {
        None => Ok(before),
        Some(names) => Ok(is_among(issuer, names.as_slice())),
    }
}

/// What the entry says.
#[tactic(auto, unfolding(crate::specs::Entries::revocation_by))]
fn revocation_by(alloc: Global, entry: &RevokedCertificate) -> Result<Revocation, OutOfMemory>
    ensures { IfOk result (λ r. r ≡ revocation_by entry.now) }
{
    let reason: Option<CrlReason> = said(alloc, reason_contents(entry))?;
    Ok(Revocation {
        at: entry.revocation_date.moment(),
        reason: reason.unwrap_or(CrlReason::Unspecified),
    })
}

/// What the first entry of the certificate says. At first entries are or aren't of its issuer.
#[tactic(auto, unfolding(crate::specs::Entries::found))]
pub(crate) fn found(
    alloc: Global,
    issuer: &Name,
    serial_number: &Integer,
    first: bool,
    entries: &[RevokedCertificate],
) -> Result<Option<Revocation>, OutOfMemory>
    ensures { IfOk result (λ o. o ≡ found issuer.now serial_number.now first entries.now) }
{
    let mut of_issuer = first;
    for entry in entries {
        of_issuer = is_of_issuer(alloc, issuer, of_issuer, entry)?;
        if of_issuer && entry.user_certificate == *serial_number {
            return Ok(Some(revocation_by(alloc, entry)?));
        }
    }
    Ok(None)
}

fn is_removal(reason: CrlReason) -> bool
    ensures { result ≡ is_removal reason }
{
    matches!(reason, CrlReason::RemoveFromCRL)
}

/// Nothing, where the reason is removeFromCRL (RFC 5280, 6.3.3 (k)).
pub(crate) fn unless_removed(revocation: Option<Revocation>) -> Option<Revocation>
    ensures { result ≡ unless_removed revocation }
{
    match revocation {
        None => None,
        Some(revocation) => {
            if is_removal(revocation.reason) {
                None
            } else {
                Some(revocation)
            }
        }
    }
}
