//! Lists to come.
ghost use Rattle.std.specs.Prelude.{◌≡◌, ◌++◌, ℕ, Option, Some, None, IfOk, OnOk};
ghost use Rattle.std.specs.List.{filter_map};
ghost use Rattle.std.specs.Option.{option_map, option_to_list};
ghost use Rattle.register_record.specs.Lists.{entry, in_complete, in_delta, in_list, is_new, is_off};

use crate::event::ListKind;
use crate::state::{Base, Certificate, Change};
use asn1_core::{Integer, OutOfMemory, TryClone};
use std::alloc::Global;

/// An entry of a list (RFC 5280, 5.1.2.6). In a delta list a certificate that is released has the
/// reason removeFromCRL (5.3.1).
#[derive(Drop)]
pub struct Entry {
    pub serial: Integer,
    pub change: Change,
}

/// What the next list has to say, in a record of so many events.
#[derive(Drop)]
pub struct NextList {
    pub count: u64,
    pub kind: ListKind,
    pub this_update: i64,
    pub next_update: i64,
    pub number: u64,
    /// The number of the complete list that a delta list is based on.
    pub base: Option<u64>,
    pub entries: Vec<Entry>,
}

fn is_off(base: Option<Base>, since: u64, not_after: i64) -> bool
    ensures { result ≡ is_off base since not_after }
{
    match base {
        Some(base) => since < base.number && not_after < base.this_update,
        None => false,
    }
}

fn is_new(base: Option<Base>, since: u64) -> bool
    ensures { result ≡ is_new base since }
{
    match base {
        Some(base) => base.number <= since,
        None => false,
    }
}

/// What a complete list says of the certificate, if it lists it.
fn in_complete(base: Option<Base>, certificate: &Certificate) -> Option<Change>
    ensures { option_map (entry certificate.now.serial) result ≡ in_complete base certificate.now.serial certificate.now.not_after certificate.now.since
        certificate.now.change }
{
    match certificate.change {
        Some(Change::Revoked(revocation)) => {
            if is_off(base, certificate.since, certificate.not_after) {
                None
            } else {
                Some(Change::Revoked(revocation))
            }
        }
        _ => None,
    }
}

fn in_delta(base: Option<Base>, certificate: &Certificate) -> Option<Change>
    ensures { option_map (entry certificate.now.serial) result ≡ in_delta base certificate.now.serial certificate.now.since certificate.now.change }
{
    if is_new(base, certificate.since) {
        certificate.change
    } else {
        None
    }
}

fn in_list(kind: ListKind, base: Option<Base>, certificate: &Certificate) -> Option<Change>
    ensures { option_map (entry certificate.now.serial) result ≡ in_list kind base certificate.now }
{
    match kind {
        ListKind::Complete => in_complete(base, certificate),
        ListKind::Delta => in_delta(base, certificate),
    }
}

/// The entry of the certificate, if it has one.
fn entry_for(
    alloc: Global,
    kind: ListKind,
    base: Option<Base>,
    certificate: &Certificate,
) -> Result<Option<Entry>, OutOfMemory>
    ensures { IfOk result (λ o. o ≡ in_list kind base certificate.now) }
{
    match in_list(kind, base, certificate) {
        Some(change) => {
            let serial = certificate.serial.try_clone(alloc)?;
            Ok(Some(Entry { serial, change }))
        }
        None => Ok(None),
    }
}

fn push_optional(entries: &mut Vec<Entry>, entry: Option<Entry>) -> Result<(), OutOfMemory>
    ensures { OnOk result (entries.new.items ≡ entries.old.items ++ option_to_list entry) }
{
    match entry {
        Some(entry) => {
            entries.push(entry)?;
            Ok(())
        }
        None => Ok(()),
    }
}

/// The entries of a list.
pub(crate) fn entries(
    alloc: Global,
    kind: ListKind,
    base: Option<Base>,
    certificates: &[Certificate],
) -> Result<Vec<Entry>, OutOfMemory>
    ensures { IfOk result (λ v. v.items ≡ filter_map (in_list kind base) certificates.now) }
{
    let mut entries = Vec::new(alloc);
    for certificate in certificates {
        push_optional(&mut entries, entry_for(alloc, kind, base, certificate)?)?;
    }
    Ok(entries)
}
