//! Rules of the entries of a list (RFC 5280, 5.3).
ghost use Rattle.std.specs.Prelude.{◌≡◌, IfOk, map};
ghost use Rattle.std.specs.List.{list_any};
ghost use Rattle.extension_lookup.specs.Lookup.{are_distinct, has_equal_neighbours};
ghost use Rattle.pkix_rules.specs.Entries.{entry_fails, entry_rules, has_extensions, has_stranger, is_invalid_after, is_removal, is_revoked_after, is_unspecified, serials_of};

use crate::extension::{extensions_in, has_critical_stranger, said_at};
use crate::frame::is_earlier;
use crate::identifiers::KNOWN_ENTRY_EXTENSIONS;
use asn1_core::{GeneralizedTime, OutOfMemory};
use pkix_cert::extension_id::{ID_CE_CRL_REASONS, ID_CE_INVALIDITY_DATE};
use pkix_cert::{CrlReason, RevokedCertificate, Time};
use rule_table::{Rule, note};
use std::alloc::Global;

/// The serial numbers, in order.
fn serials_of(alloc: Global, entries: &[RevokedCertificate]) -> Result<Vec<&[u8]>, OutOfMemory>
    ensures { IfOk result (λ ids. map (λ id. id.now) ids.items ≡ serials_of entries.now) }
{
    let mut ids = Vec::new(alloc);
    for entry in entries {
        ids.push(entry.user_certificate.as_bytes())?;
    }
    Ok(ids)
}

/// Whether two adjacent values are equal.
fn has_equal_neighbours<T: PartialEq>(values: &[T]) -> bool
    ensures { result ≡ has_equal_neighbours T.eq values.now }
{
    let mut rest = values;
    while let [value, after @ ..] = rest {
        if after.first().is_some_and(|next| next == value) {
            return true;
        }
        rest = after;
    }
    false
}

/// Whether no two are the same. The time is that of sorting them.
pub(crate) fn are_distinct_octets(octets: Vec<&[u8]>) -> bool
    ensures { result ≡ are_distinct (map (λ id. id.now) octets.entry.items) }
{
    let mut octets = octets;
    octets.sort_unstable();
    !has_equal_neighbours(octets.as_slice())
}

fn is_revoked_after(entry: &RevokedCertificate, this_update: &Time) -> bool
    ensures { result ≡ is_revoked_after this_update.now entry.now }
{
    is_earlier(this_update, &entry.revocation_date)
}

fn has_late_entry(entries: &[RevokedCertificate], this_update: &Time) -> bool
    ensures { result ≡ list_any (is_revoked_after this_update.now) entries.now }
{
    entries
        .iter()
        .any(|entry| is_revoked_after(entry, this_update))
}

fn has_stranger(entry: &RevokedCertificate) -> bool
    ensures { result ≡ has_stranger entry.now }
{
    has_critical_stranger(
        extensions_in(&entry.crl_entry_extensions),
        KNOWN_ENTRY_EXTENSIONS,
    )
}

fn has_any_stranger(entries: &[RevokedCertificate]) -> bool
    ensures { result ≡ list_any has_stranger entries.now }
{
    entries.iter().any(|entry| has_stranger(entry))
}

fn has_extensions(entry: &RevokedCertificate) -> bool
    ensures { result ≡ has_extensions entry.now }
{
    entry.crl_entry_extensions.is_some()
}

/// Whether one of the entries has extensions.
pub(crate) fn have_extensions(entries: &[RevokedCertificate]) -> bool
    ensures { result ≡ list_any has_extensions entries.now }
{
    entries.iter().any(|entry| has_extensions(entry))
}

/// What may be wrong with the extensions of an entry.
#[derive(Clone, Copy, Debug, PartialEq, Eq)]
pub(crate) enum EntryFault {
    Unspecified,
    Removal,
    InvalidAfter,
}

fn is_unspecified(reason: &Option<CrlReason>) -> bool
    ensures { result ≡ is_unspecified reason.now }
{
    match reason {
        Some(CrlReason::Unspecified) => true,
        _ => false,
    }
}

fn is_removal(reason: &Option<CrlReason>) -> bool
    ensures { result ≡ is_removal reason.now }
{
    match reason {
        Some(CrlReason::RemoveFromCRL) => true,
        _ => false,
    }
}

fn is_invalid_after(date: &Option<GeneralizedTime>, revoked: &Time) -> bool
    ensures { result ≡ is_invalid_after date.now revoked.now }
{
    match date {
        None => false,
        Some(date) => revoked.moment() < date.at,
    }
}

fn entry_fails(
    alloc: Global,
    entry: &RevokedCertificate,
    fault: EntryFault,
) -> Result<bool, OutOfMemory>
    ensures { IfOk result (λ b. b ≡ entry_fails fault entry.now) }
{
    let extensions = extensions_in(&entry.crl_entry_extensions);
    match fault {
        EntryFault::Unspecified => {
            let reason: Option<CrlReason> = said_at(alloc, extensions, ID_CE_CRL_REASONS)?;
            Ok(is_unspecified(&reason))
        }
        EntryFault::Removal => {
            let reason: Option<CrlReason> = said_at(alloc, extensions, ID_CE_CRL_REASONS)?;
            Ok(is_removal(&reason))
        }
        EntryFault::InvalidAfter => {
            let date: Option<GeneralizedTime> = said_at(alloc, extensions, ID_CE_INVALIDITY_DATE)?;
            Ok(is_invalid_after(&date, &entry.revocation_date))
        }
    }
}

fn any_fails(
    alloc: Global,
    entries: &[RevokedCertificate],
    fault: EntryFault,
) -> Result<bool, OutOfMemory>
    ensures { IfOk result (λ b. b ≡ list_any (entry_fails fault) entries.now) }
{
    for entry in entries {
        if entry_fails(alloc, entry, fault)? {
            return Ok(true);
        }
    }
    Ok(false)
}

/// The rules of the entries that are broken, in order: of a list with entries of its own issuer alone or not, and of one that adds to another or not.
#[tactic(auto, unfolding(crate::specs::Entries::entry_rules))]
pub(crate) fn entry_rules(
    alloc: Global,
    entries: &[RevokedCertificate],
    this_update: &Time,
    is_indirect: bool,
    is_delta: bool,
) -> Result<Vec<Rule>, OutOfMemory>
    ensures { IfOk result (λ v. v.items ≡ entry_rules entries.now this_update.now is_indirect is_delta) }
{
    let mut found = Vec::new(alloc);
    let serials = serials_of(alloc, entries)?;
    let distinct = are_distinct_octets(serials);
    note(&mut found, Rule::EntryTwice, !is_indirect && !distinct)?;
    note(
        &mut found,
        Rule::RevokedAfterUpdate,
        has_late_entry(entries, this_update),
    )?;
    let unspecified = any_fails(alloc, entries, EntryFault::Unspecified)?;
    note(&mut found, Rule::ReasonUnspecified, unspecified)?;
    let removes = any_fails(alloc, entries, EntryFault::Removal)?;
    note(&mut found, Rule::RemoveFromComplete, !is_delta && removes)?;
    let after = any_fails(alloc, entries, EntryFault::InvalidAfter)?;
    note(&mut found, Rule::InvalidAfterRevoked, after)?;
    note(
        &mut found,
        Rule::UnknownCriticalEntry,
        has_any_stranger(entries),
    )?;
    Ok(found)
}
