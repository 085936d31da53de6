//! The types of `asn1_core`, and sets of them.
use crate::reading::{Reading, read_as};
use asn1_core::{
    BitString, BmpString, GeneralizedTime, Ia5String, Integer, ObjectIdentifier, OctetString,
    UtcTime, Utf8String,
};
use der_tree::SetOf;
use std::alloc::Global;

/// What of the type of this name has the bytes as its form.
pub fn read(alloc: Global, name: &str, form: &[u8]) -> Reading {
    if name == "bool" {
        return read_as::<bool>(alloc, form);
    }
    if name == "Integer" {
        return read_as::<Integer>(alloc, form);
    }
    if name == "BitString" {
        return read_as::<BitString>(alloc, form);
    }
    if name == "OctetString" {
        return read_as::<OctetString>(alloc, form);
    }
    if name == "ObjectIdentifier" {
        return read_as::<ObjectIdentifier>(alloc, form);
    }
    if name == "UtcTime" {
        return read_as::<UtcTime>(alloc, form);
    }
    if name == "GeneralizedTime" {
        return read_as::<GeneralizedTime>(alloc, form);
    }
    if name == "SetOfInteger" {
        return read_as::<SetOf<Integer>>(alloc, form);
    }
    read_further(alloc, name, form)
}

// The further types.
fn read_further(alloc: Global, name: &str, form: &[u8]) -> Reading {
    if name == "u16" {
        return read_as::<u16>(alloc, form);
    }
    if name == "Utf8String" {
        return read_as::<Utf8String>(alloc, form);
    }
    if name == "Ia5String" {
        return read_as::<Ia5String>(alloc, form);
    }
    if name == "BmpString" {
        return read_as::<BmpString>(alloc, form);
    }
    Reading::NoType
}
