//! The types of `pkix_alg`.
use crate::reading::{Reading, read_as};
use pkix_alg::{
    AttrOrOid, CharacteristicTwo, CsrAttrs, Curve, DomainParameters, DssParams, DssSigValue,
    EcParameters, EcdsaSigValue, EcpkParameters, FieldId, Pentanomial, RsaPublicKey,
    ValidationParams,
};
use std::alloc::Global;

/// What of the type of this name has the bytes as its form.
pub fn read(alloc: Global, name: &str, form: &[u8]) -> Reading {
    if name == "AttrOrOid" {
        return read_as::<AttrOrOid>(alloc, form);
    }
    if name == "CharacteristicTwo" {
        return read_as::<CharacteristicTwo>(alloc, form);
    }
    if name == "CsrAttrs" {
        return read_as::<CsrAttrs>(alloc, form);
    }
    if name == "Curve" {
        return read_as::<Curve>(alloc, form);
    }
    if name == "DomainParameters" {
        return read_as::<DomainParameters>(alloc, form);
    }
    if name == "DssParams" {
        return read_as::<DssParams>(alloc, form);
    }
    if name == "DssSigValue" {
        return read_as::<DssSigValue>(alloc, form);
    }
    read_further(alloc, name, form)
}

// The further types.
fn read_further(alloc: Global, name: &str, form: &[u8]) -> Reading {
    if name == "EcParameters" {
        return read_as::<EcParameters>(alloc, form);
    }
    if name == "EcdsaSigValue" {
        return read_as::<EcdsaSigValue>(alloc, form);
    }
    if name == "EcpkParameters" {
        return read_as::<EcpkParameters>(alloc, form);
    }
    if name == "FieldId" {
        return read_as::<FieldId>(alloc, form);
    }
    if name == "Pentanomial" {
        return read_as::<Pentanomial>(alloc, form);
    }
    if name == "RsaPublicKey" {
        return read_as::<RsaPublicKey>(alloc, form);
    }
    if name == "ValidationParams" {
        return read_as::<ValidationParams>(alloc, form);
    }
    Reading::NoType
}
