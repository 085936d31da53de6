//! Lists that were issued before (RFC 5280, 5).
ghost use Rattle.std.specs.Prelude.{◌≡◌, ◌++◌, ◌∷◌, [], false, is_none, true, IfOk, IfSome, OnOk};
ghost use Rattle.std.specs.List.{list_any};
ghost use Rattle.std.specs.Option.{option_map};
ghost use Rattle.der_tree.specs.Form.{value_of};
ghost use Rattle.pkix_cert.specs.ExtensionIds.{ce_delta_crl_indicator, id_ce};
ghost use Rattle.pkix_cert.specs.Held.{extensions_in};
ghost use Rattle.pkix_cert.specs.Revocations.{tbs_cert_list};
ghost use Rattle.pkix_cert.specs.Views.{certificate_parts};
ghost use Rattle.register_steps.specs.Listed.{AreListed, IsIssuedList, SaysOfList, date_in, entry_in, extension_at, is_critical_stranger, known_of_entries, known_of_lists, number_in, reason_in, reason_of, seconds_of};
ghost use Rattle.register_steps.specs.Names.{matches_subject, subject_in};
ghost use Rattle.register_steps.specs.Sealing.{IsOpened};

use crate::named::is_subject;
use crate::sealing::{SealError, opened};
use asn1_core::{Integer, OctetString, OutOfMemory, TryClone};
use der_tree::der;
use pkix_cert::extension_id::{
    ID_CE_CRL_NUMBER, ID_CE_CRL_REASONS, ID_CE_DELTA_CRL_INDICATOR, ID_CE_INVALIDITY_DATE,
    ID_CE_ISSUING_DISTRIBUTION_POINT,
};
use pkix_cert::{
    CrlReason, Extension, Extensions, InvalidityDate, RevokedCertificate, TbsCertList, Time,
};
use register_lines::second_of;
use register_record::{Reason, Revocation};
use std::alloc::Global;

/// An entry of a list that was issued before.
#[derive(Drop)]
pub struct ListedEntry {
    pub serial: Integer,
    pub revocation: Revocation,
}

/// A complete list that was issued before. Times are seconds since 1970.
#[derive(Drop)]
pub struct IssuedList {
    /// What was signed.
    pub message: OctetString,
    pub number: u64,
    pub this_update: i64,
    pub next_update: i64,
    pub entries: Vec<ListedEntry>,
}

/// Why octets are no list that can be taken.
#[derive(Clone, Copy, Debug)]
pub enum ListedError {
    /// They aren't a list that the issuer's key signed.
    Unsigned(SealError),
    /// It names another issuer.
    OtherIssuer,
    /// It is a delta list.
    Delta,
    /// A critical extension of it isn't known.
    Unknown,
    /// It has no number below 2^64.
    NoNumber,
    /// It has no next update.
    NoNextUpdate,
    /// An entry can't be read, has a critical extension that isn't known, or the reason removeFromCRL.
    BadEntry,
    OutOfMemory,
}

impl From<OutOfMemory> for ListedError {
    ghost use Rattle.std.specs.Prelude.{◌≡◌};
    ghost use Rattle.register_steps.specs.declared.listed.ListedError.TheVariants.{OutOfMemory as NoMemory};

    ghost from_gives = { λ _ r. r ≡ NoMemory };

    fn from(_: OutOfMemory) -> ListedError {
        ListedError::OutOfMemory
    }
}

fn extensions_in(extensions: &Option<Extensions>) -> &[Extension]
    ensures { result.now ≡ extensions_in extensions.now }
{
    match extensions {
        None => &[],
        Some(extensions) => extensions.0.as_slice(),
    }
}

/// The first one with the identifier.
fn extension_at<'a>(extensions: &'a [Extension], id: &[u32]) -> Option<&'a Extension>
    ensures { option_map (λ e. e.now) result ≡ extension_at id.now extensions.now }
{
    for extension in extensions {
        if extension.extn_id.arcs() == id {
            return Some(extension);
        }
    }
    None
}

fn is_stranger_in_entry(extension: &Extension) -> bool
    ensures { result ≡ is_critical_stranger known_of_entries extension.now }
{
    let id = extension.extn_id.arcs();
    let is_known = id == ID_CE_CRL_REASONS || id == ID_CE_INVALIDITY_DATE;
    extension.critical && !is_known
}

fn is_stranger_in_list(extension: &Extension) -> bool
    ensures { result ≡ is_critical_stranger known_of_lists extension.now }
{
    let id = extension.extn_id.arcs();
    let is_known = id == ID_CE_CRL_NUMBER || id == ID_CE_ISSUING_DISTRIBUTION_POINT;
    extension.critical && !is_known
}

fn has_stranger_in_entry(extensions: &[Extension]) -> bool
    ensures { result ≡ list_any (is_critical_stranger known_of_entries) extensions.now }
{
    extensions
        .iter()
        .any(|extension| is_stranger_in_entry(extension))
}

fn has_stranger_in_list(extensions: &[Extension]) -> bool
    ensures { result ≡ list_any (is_critical_stranger known_of_lists) extensions.now }
{
    extensions
        .iter()
        .any(|extension| is_stranger_in_list(extension))
}

fn reason_of(reason: CrlReason) -> Option<Reason>
    ensures { result ≡ reason_of reason }
{
    match reason {
        CrlReason::Unspecified => Some(Reason::Unspecified),
        CrlReason::KeyCompromise => Some(Reason::KeyCompromise),
        CrlReason::CaCompromise => Some(Reason::CaCompromise),
        CrlReason::AffiliationChanged => Some(Reason::AffiliationChanged),
        CrlReason::Superseded => Some(Reason::Superseded),
        CrlReason::CessationOfOperation => Some(Reason::CessationOfOperation),
        CrlReason::CertificateHold => Some(Reason::CertificateHold),
        CrlReason::RemoveFromCRL => None,
        CrlReason::PrivilegeWithdrawn => Some(Reason::PrivilegeWithdrawn),
        CrlReason::AaCompromise => Some(Reason::AaCompromise),
    }
}

/// The reason of an entry; None where it is none for which a complete list has an entry.
fn reason_in(alloc: Global, extension: Option<&Extension>) -> Result<Option<Reason>, OutOfMemory>
    ensures { IfOk result (λ o. o ≡ reason_in (option_map (λ e. e.now) extension.entry)) }
{
    let Some(extension) = extension else {
        return Ok(Some(Reason::Unspecified));
    };
    match der::value_of::<CrlReason>(alloc, extension.extn_value.as_slice())? {
        Some(reason) => Ok(reason_of(reason)),
        None => Ok(None),
    }
}

/// The invalidity date of an entry, where it has one; None where it can't be read.
fn date_in(alloc: Global, extension: Option<&Extension>) -> Result<Option<Option<i64>>, OutOfMemory>
    ensures { IfOk result (λ o. o ≡ date_in (option_map (λ e. e.now) extension.entry)) }
{
    let Some(extension) = extension else {
        return Ok(Some(None));
    };
    match der::value_of::<InvalidityDate>(alloc, extension.extn_value.as_slice())? {
        Some(date) => Ok(Some(Some(second_of(date.at)))),
        None => Ok(None),
    }
}

fn seconds_of(time: &Time) -> i64
    ensures { result ≡ seconds_of time.now }
{
    second_of(time.moment())
}

fn entry_in(alloc: Global, entry: &RevokedCertificate) -> Result<Option<ListedEntry>, OutOfMemory>
    ensures { IfOk result (λ o. o ≡ entry_in entry.now) }
{
    let extensions = extensions_in(&entry.crl_entry_extensions);
    if has_stranger_in_entry(extensions) {
        return Ok(None);
    }
    let Some(reason) = reason_in(alloc, extension_at(extensions, ID_CE_CRL_REASONS))? else {
        return Ok(None);
    };
    let Some(date) = date_in(alloc, extension_at(extensions, ID_CE_INVALIDITY_DATE))? else {
        return Ok(None);
    };
    let serial = entry.user_certificate.try_clone(alloc)?;
    Ok(Some(ListedEntry {
        serial,
        revocation: Revocation {
            time: seconds_of(&entry.revocation_date),
            reason,
            invalidity_date: date,
        },
    }))
}

/// The entry; refused where it can't be taken.
fn taken_entry(alloc: Global, entry: &RevokedCertificate) -> Result<ListedEntry, ListedError>
    ensures { IfOk result (λ x. entry_in entry.now ≡ Some x) }
{
    match entry_in(alloc, entry)? {
        Some(entry) => Ok(entry),
        None => Err(ListedError::BadEntry),
    }
}

fn push_entry(taken: &mut Vec<ListedEntry>, entry: ListedEntry) -> Result<(), ListedError>
    ensures { OnOk result (taken.new.items ≡ taken.old.items ++ entry ∷ []) }
{
    match taken.push(entry) {
        Ok(()) => Ok(()),
        Err(_) => Err(ListedError::OutOfMemory),
    }
}

fn entries_in(
    alloc: Global,
    entries: &[RevokedCertificate],
) -> Result<Vec<ListedEntry>, ListedError>
    ensures { IfOk result (λ v. AreListed entries.now v.items) }
{
    let mut taken = Vec::new(alloc);
    for entry in entries {
        let one = taken_entry(alloc, entry)?;
        push_entry(&mut taken, one)?;
    }
    Ok(taken)
}

fn number_in(alloc: Global, extension: Option<&Extension>) -> Result<Option<u64>, OutOfMemory>
    ensures { IfOk result (λ o. o ≡ number_in (option_map (λ e. e.now) extension.entry)) }
{
    let Some(extension) = extension else {
        return Ok(None);
    };
    match der::value_of::<Integer>(alloc, extension.extn_value.as_slice())? {
        Some(number) => Ok(number.to_u64()),
        None => Ok(None),
    }
}

fn next_update_of(list: &TbsCertList) -> Option<i64>
    ensures { result ≡ option_map seconds_of list.now.next_update }
{
    match &list.next_update {
        Some(time) => Some(seconds_of(time)),
        None => None,
    }
}

/// Nothing, where the list is a complete one whose critical extensions are known.
fn checked(extensions: &[Extension]) -> Result<(), ListedError>
    ensures complete { OnOk result (is_none (extension_at (id_ce ce_delta_crl_indicator) extensions.now) ≡ true) }
    ensures known { OnOk result (list_any (is_critical_stranger known_of_lists) extensions.now ≡ false) }
{
    if extension_at(extensions, ID_CE_DELTA_CRL_INDICATOR).is_some() {
        return Err(ListedError::Delta);
    }
    if has_stranger_in_list(extensions) {
        return Err(ListedError::Unknown);
    }
    Ok(())
}

/// What a list says.
fn said_of(
    alloc: Global,
    list: &TbsCertList,
    message: OctetString,
) -> Result<IssuedList, ListedError>
    ensures says { IfOk result (SaysOfList list.now) }
    ensures message { IfOk result (λ i. i.message ≡ message) }
{
    let extensions = extensions_in(&list.crl_extensions);
    checked(extensions)?;
    let Some(number) = number_in(alloc, extension_at(extensions, ID_CE_CRL_NUMBER))? else {
        return Err(ListedError::NoNumber);
    };
    let Some(next_update) = next_update_of(list) else {
        return Err(ListedError::NoNextUpdate);
    };
    let entries = entries_in(alloc, list.revoked_certificates.as_slice())?;
    Ok(IssuedList {
        message,
        number,
        this_update: seconds_of(&list.this_update),
        next_update,
        entries,
    })
}

fn opened_list(alloc: Global, issuer: &[u8], octets: &[u8]) -> Result<OctetString, ListedError>
    ensures { IfOk result (IsOpened issuer.now octets.now) }
{
    match opened(alloc, issuer, octets) {
        Ok(message) => Ok(message),
        Err(SealError::OutOfMemory) => Err(ListedError::OutOfMemory),
        Err(why) => Err(ListedError::Unsigned(why)),
    }
}

/// The list that is signed by these octets, of the issuer whose certificate is given.
fn list_in(alloc: Global, issuer: &[u8], message: &[u8]) -> Result<TbsCertList, ListedError>
    ensures list { IfOk result (λ t. value_of tbs_cert_list message.now ≡ Some t) }
    ensures named { IfOk result (λ t. matches_subject (subject_in (certificate_parts issuer.now)) t.issuer ≡ true) }
{
    let Some(list) = der::value_of::<TbsCertList>(alloc, message)? else {
        return Err(ListedError::Unsigned(SealError::NotMessage));
    };
    let is_named = is_subject(alloc, issuer, &list.issuer)?;
    if !is_named {
        return Err(ListedError::OtherIssuer);
    }
    Ok(list)
}

/// The complete list that the issuer's key signed.
pub fn issued_list(alloc: Global, issuer: &[u8], octets: &[u8]) -> Result<IssuedList, ListedError>
    ensures { IfOk result (IsIssuedList issuer.now octets.now) }
{
    let message = opened_list(alloc, issuer, octets)?;
    let list = list_in(alloc, issuer, message.as_slice())?;
    let issued = said_of(alloc, &list, message)?;
    Ok(issued)
}
