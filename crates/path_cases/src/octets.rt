//! Octets in hex, and values in the hex of their DER.
use der_tree::{DerType, der};
use std::alloc::Global;

/// The octets; `-` is none.
pub fn of_hex(alloc: Global, digits: &str) -> Option<Vec<u8>> {
    let digits = if digits == "-" { "" } else { digits };
    hex::decode(alloc, digits.as_bytes()).ok()
}

/// The value of which the DER is in hex there.
pub fn value_of<T: DerType>(alloc: Global, digits: &str) -> Option<T> {
    let octets = of_hex(alloc, digits)?;
    value_in(alloc, octets.as_slice())
}

/// The value whose DER the octets are.
pub fn value_in<T: DerType>(alloc: Global, octets: &[u8]) -> Option<T> {
    der::value_of(alloc, octets).ok()?
}
