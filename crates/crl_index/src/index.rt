//! Where the serials of a list are.
ghost use Rattle.std.specs.Prelude.{◌≡◌, ◌≤◌, ◌+◌, ◌-◌, ◌*◌, ◌^◌, ℕ, List, length, IfOk};
ghost use Rattle.crl_index.specs.Search.{first_place};
ghost use Rattle.crl_index.specs.Index.{place_of};

use crate::serials::Serials;
use asn1_core::{Integer, OutOfMemory, Steps};
use pkix_cert::CertificateList;
use std::alloc::Global;
use std::cmp::Ordering;
use std::marker::Model;
use std::sync::ledger::Ledger;

/// Where a list of revoked certificates has each serial first.
#[derive(Drop)]
pub struct CrlIndex {
    serials: Serials,
    places: Vec<u64>,
    count: u64,
}

impl Model for CrlIndex {
    ghost use Rattle.crl_index.specs.Index.{Index, IsIndex};

    ghost Value = { Index };

    ghost view = { λ s. record { serials = s.serials; places = s.places.items; count = s.count } };

    ghost invariant = { λ s. IsIndex s.serials s.places.items s.count };
}

impl CrlIndex {
    /// The index of the list. Of entries with the same serial the first counts.
    pub fn new(alloc: Global, list: &CertificateList) -> Result<CrlIndex, OutOfMemory>
        ensures places { IfOk result (λ index.
            (serial : List ℕ) → place_of index serial ≡ first_place serial list.now.tbs_cert_list.revoked_certificates) }
        ensures count { IfOk result (λ index. index.count ≡ length list.now.tbs_cert_list.revoked_certificates) }
    {
        let (serials, places) = Serials::sorted(alloc, list)?;
        let count = list.tbs_cert_list.revoked_certificates.as_slice().len() as u64;
        Ok(CrlIndex {
            serials,
            places,
            count,
        })
    }

    /// How many entries the list has.
    pub fn len(&self) -> u64
        ensures { result ≡ self.now.count }
    {
        self.count
    }

    /// The place, from 1, of the list's first entry with this serial, if any has it. It takes no
    /// memory.
    pub fn find<L: Ledger>(&self, serial: &Integer, steps: &mut Steps<L>) -> Option<u64>
        ensures place { result ≡ place_of self.now serial.now }
        ensures counted { steps.old ≤ steps.new }
        ensures cost { 2 ^ (steps.new - steps.old) ≤ 2 * self.now.count + 1 }
    {
        let mut low = 0;
        let mut high = self.serials.len();
        while low < high {
            let middle = low + (high - low) / 2;
            match self.serials.probe(middle, serial, steps) {
                Ordering::Less => low = middle + 1,
                Ordering::Greater => high = middle,
                Ordering::Equal => return Some(self.places[middle]),
            }
        }
        None
    }
}
