//! Places of serials by an index, as plain search finds them.
ghost use Rattle.std.specs.Prelude.{◌≡◌, ◌≤◌, ◌<◌, ◌+◌, map, IfOk};
ghost use Rattle.crl_index.specs.Search.{first_place};
ghost use Rattle.crl_index.specs.Index.{place_of};

use asn1_core::{Integer, OutOfMemory, Steps};
use crl_index::CrlIndex;
use pkix_cert::CertificateList;
use std::alloc::Global;
use std::marker::Brand;
use std::sync::ledger::{Blank, Ledger};

/// In an index of up to a thousand entries ten steps are enough.
fn place_of<L: Ledger>(index: &CrlIndex, serial: &Integer, steps: &mut Steps<L>) -> Option<u64>
    ensures place { result ≡ place_of index.now serial.now }
    ensures steps { index.now.count ≤ 1000 → steps.new ≤ steps.old + 10 }
{
    index.find(serial, steps)
}

fn places_counted<L: Ledger>(
    alloc: Global,
    list: &CertificateList,
    serials: &[Integer],
    steps: &mut Steps<L>,
) -> Result<Vec<Option<u64>>, OutOfMemory>
    ensures { IfOk result (λ places. places.items ≡ map (λ serial. first_place serial list.now.tbs_cert_list.revoked_certificates) serials.now) }
{
    let index = CrlIndex::new(alloc, list)?;
    let mut places = Vec::new(alloc);
    for serial in serials {
        places.push(place_of(&index, serial, steps))?;
    }
    Ok(places)
}

fn places_from<L: Ledger>(
    alloc: Global,
    list: &CertificateList,
    serials: &[Integer],
    blank: Blank,
) -> Result<Vec<Option<u64>>, OutOfMemory>
    requires name { blank.name ≡ L.name }
    requires parts { blank.parts ≡ L.parts }
    requires share { 0 < L.parts }
    ensures { IfOk result (λ places. places.items ≡ map (λ serial. first_place serial list.now.tbs_cert_list.revoked_certificates) serials.now) }
{
    let mut steps = Steps::<L>::new(blank);
    let places = places_counted(alloc, list, serials, &mut steps)?;
    Ok(places)
}

/// What plain search finds of each serial.
pub fn places(
    alloc: Global,
    list: &CertificateList,
    serials: &[Integer],
) -> Result<Vec<Option<u64>>, OutOfMemory>
    ensures { IfOk result (λ places. places.items ≡ map (λ serial. first_place serial list.now.tbs_cert_list.revoked_certificates) serials.now) }
{
    let places = places_from::<Brand>(alloc, list, serials, Blank::new(1))?;
    Ok(places)
}
