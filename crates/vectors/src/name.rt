//! The types of `pkix_name`, and that of its other names.
use crate::reading::{Reading, read_as};
use der_tree::{Any, InstanceOf};
use pkix_name::{
    Attribute, AttributeTypeAndValue, DirectoryString, EdiPartyName, GeneralName, GeneralNames,
    Name, RelativeDistinguishedName, X520CommonName, X520CountryName, X520LocalityName, X520Name,
    X520OrganisationName, X520OrganisationalUnitName, X520Pseudonym, X520SerialNumber,
    X520StateOrProvinceName, X520Title,
};
use std::alloc::Global;

/// What of the type of this name has the bytes as its form.
pub fn read(alloc: Global, name: &str, form: &[u8]) -> Reading {
    if name == "Attribute" {
        return read_as::<Attribute>(alloc, form);
    }
    if name == "AttributeTypeAndValue" {
        return read_as::<AttributeTypeAndValue>(alloc, form);
    }
    if name == "DirectoryString" {
        return read_as::<DirectoryString>(alloc, form);
    }
    if name == "EdiPartyName" {
        return read_as::<EdiPartyName>(alloc, form);
    }
    if name == "GeneralName" {
        return read_as::<GeneralName>(alloc, form);
    }
    if name == "GeneralNames" {
        return read_as::<GeneralNames>(alloc, form);
    }
    if name == "Name" {
        return read_as::<Name>(alloc, form);
    }
    if name == "RelativeDistinguishedName" {
        return read_as::<RelativeDistinguishedName>(alloc, form);
    }
    if name == "InstanceOf" {
        return read_as::<InstanceOf<Any>>(alloc, form);
    }
    if name == "X520CommonName" {
        return read_as::<X520CommonName>(alloc, form);
    }
    read_further(alloc, name, form)
}

// The further types.
fn read_further(alloc: Global, name: &str, form: &[u8]) -> Reading {
    if name == "X520CountryName" {
        return read_as::<X520CountryName>(alloc, form);
    }
    if name == "X520LocalityName" {
        return read_as::<X520LocalityName>(alloc, form);
    }
    if name == "X520Name" {
        return read_as::<X520Name>(alloc, form);
    }
    if name == "X520OrganisationName" {
        return read_as::<X520OrganisationName>(alloc, form);
    }
    if name == "X520OrganisationalUnitName" {
        return read_as::<X520OrganisationalUnitName>(alloc, form);
    }
    if name == "X520Pseudonym" {
        return read_as::<X520Pseudonym>(alloc, form);
    }
    if name == "X520SerialNumber" {
        return read_as::<X520SerialNumber>(alloc, form);
    }
    if name == "X520StateOrProvinceName" {
        return read_as::<X520StateOrProvinceName>(alloc, form);
    }
    if name == "X520Title" {
        return read_as::<X520Title>(alloc, form);
    }
    Reading::NoType
}
