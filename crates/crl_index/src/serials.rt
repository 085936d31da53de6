//! The serials of a list, ascending by number.
ghost use Rattle.std.specs.Prelude.{◌≡◌, ◌<◌, ◌≤◌, ◌+◌, ℕ, List, [], length, IfOk, OnOk};
ghost use Rattle.std.specs.List.{slice_index_or};
ghost use Rattle.std.specs.List.Sorted.{IsStrictlySortedBy};
ghost use Rattle.std.specs.Map.{keys_of, values_of};
ghost use Rattle.std.specs.Ordering.{int_cmp};
ghost use Rattle.asn1_core.specs.IntegerOrder.{integer_cmp};
ghost use Rattle.asn1_core.specs.Twos.{signed};
ghost use Rattle.crl_index.specs.Search.{found_in, number_cmp, numbered};
ghost use Rattle.crl_index.specs.Index.{IsIndex, HasFirstPlaces};

use asn1_core::{Integer, OutOfMemory, Steps};
use pkix_cert::{CertificateList, RevokedCertificate};
use std::alloc::Global;
use std::cmp::Ordering;
use std::marker::Model;
use std::sync::ledger::Ledger;

/// The different serials of a list, ascending by number. They are given by `probe` alone.
#[derive(Drop)]
pub struct Serials {
    serials: Vec<Integer>,
}

impl Model for Serials {
    ghost use Rattle.std.specs.Prelude.{ℕ, List};

    ghost Value = { List (List ℕ) };

    ghost view = { λ s. s.serials.items };
}

/// The serial of each entry, beside its place.
fn numbered(
    alloc: Global,
    entries: &[RevokedCertificate],
) -> Result<Vec<(Integer, u64)>, OutOfMemory>
    ensures { IfOk result (λ pairs. pairs.items ≡ numbered 1 entries.now) }
{
    let mut pairs = Vec::with_capacity(alloc, entries.len())?;
    let mut place: u64 = 0;
    for entry in entries {
        place += 1;
        pairs.push((entry.user_certificate.clone()?, place))?;
    }
    Ok(pairs)
}

/// Leaves the first pair of each serial, ascending by number.
fn keep_firsts(pairs: &mut Vec<(Integer, u64)>) -> Result<(), OutOfMemory>
    ensures ascending { OnOk result (IsStrictlySortedBy number_cmp (keys_of pairs.new.items)) }
    ensures first { OnOk result ((serial : List ℕ) → found_in serial pairs.new.items ≡ found_in serial pairs.old.items) }
    ensures fewer { OnOk result (length pairs.new.items ≤ length pairs.old.items) }
{
    pairs.sort_by(|a, b| a.0.cmp(&b.0))?;
    pairs.dedup_by(|a, b| a.0 == b.0);
    Ok(())
}

/// The serials and the places apart, both in the order of the pairs.
fn split(alloc: Global, pairs: Vec<(Integer, u64)>) -> Result<(Vec<Integer>, Vec<u64>), OutOfMemory>
    ensures serials { IfOk result (λ r. r.0.items ≡ keys_of pairs.items) }
    ensures places { IfOk result (λ r. r.1.items ≡ values_of pairs.items) }
{
    let mut serials = Vec::with_capacity(alloc, pairs.len())?;
    let mut places = Vec::with_capacity(alloc, pairs.len())?;
    for (serial, place) in pairs {
        serials.push(serial)?;
        places.push(place)?;
    }
    Ok((serials, places))
}

impl Serials {
    /// The different serials of the list, and for each in the same order the place of its first
    /// entry, from 1.
    pub fn sorted(alloc: Global, list: &CertificateList) -> Result<(Serials, Vec<u64>), OutOfMemory>
        ensures index { IfOk result (λ r. IsIndex r.0 r.1.items (length list.now.tbs_cert_list.revoked_certificates)) }
        ensures first { IfOk result (λ r. HasFirstPlaces r.0 r.1.items list.now.tbs_cert_list.revoked_certificates) }
    {
        let mut pairs = numbered(alloc, list.tbs_cert_list.revoked_certificates.as_slice())?;
        keep_firsts(&mut pairs)?;
        let (serials, places) = split(alloc, pairs)?;
        Ok((Serials { serials }, places))
    }

    /// How many there are.
    pub fn len(&self) -> usize
        ensures { result ≡ length self.now }
    {
        self.serials.len()
    }

    /// How the serial at `i` compares with this one, by number: one step.
    pub fn probe<L: Ledger>(&self, i: usize, serial: &Integer, steps: &mut Steps<L>) -> Ordering
        requires { i < length self.now }
        ensures order { result ≡ integer_cmp (slice_index_or self.now i []) serial.now }
        ensures number { result ≡ int_cmp (signed (slice_index_or self.now i [])) (signed serial.now) }
        ensures step { steps.new ≡ steps.old + 1 }
    {
        steps.rise(1);
        self.serials[i].cmp(serial)
    }
}
