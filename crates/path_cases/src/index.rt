//! A revocation list in hex, and after it the serials that are looked up, each in hex.
use crate::octets::{of_hex, value_of};
use crate::places::places;
use asn1_core::Integer;
use crl_index::{CrlIndex, Serials};
use pkix_cert::CertificateList;
use std::alloc::Global;

fn serials_of(alloc: Global, words: &str) -> Option<Vec<Integer>> {
    let mut serials = Vec::new(alloc);
    for digits in words.split(' ') {
        let octets = of_hex(alloc, digits)?;
        let serial = Integer::from_twos(alloc, octets.as_slice()).ok()?;
        serials.push(serial).ok()?;
    }
    Some(serials)
}

// How many entries the list has.
fn count_of(alloc: Global, list: &CertificateList) -> Option<u64> {
    let index = CrlIndex::new(alloc, list).ok()?;
    Some(index.len())
}

// How many different serials the list has, and their places in their order.
fn sorted_text(alloc: Global, list: &CertificateList) -> Option<String> {
    let (serials, first) = Serials::sorted(alloc, list).ok()?;
    let different = serials.len();
    format!(in alloc; "{different} {first:?}").ok()
}

// What is found of each serial that is looked up.
fn found_text(alloc: Global, list: &CertificateList, words: &str) -> Option<String> {
    let serials = serials_of(alloc, words)?;
    let found = places(alloc, list, serials.as_slice()).ok()?;
    format!(in alloc; "{found:?}").ok()
}

fn list_text(alloc: Global, list: &CertificateList, words: &str) -> Option<String> {
    let count = count_of(alloc, list)?;
    let sorted = sorted_text(alloc, list)?;
    let found = found_text(alloc, list, words)?;
    format!(in alloc; "{count} {sorted} {found}").ok()
}

/// What is found in the list of these words; none where they are otherwise, or memory runs out.
pub fn answer(alloc: Global, words: &str) -> Option<String> {
    let (digits, words) = words.split_once(' ')?;
    let list: Option<CertificateList> = value_of(alloc, digits);
    match &list {
        Some(list) => list_text(alloc, list, words),
        None => String::from_str(alloc, "no list").ok(),
    }
}
