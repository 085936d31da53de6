//! Types of texts and lists with bounds, each made of what has none.
use crate::reading::{Reading, written_as};
use asn1_core::{PrintableString, TeletexString};
use der_tree::{SequenceOf, SetOf};
use pkix_cert::{Extension, Extensions};
use pkix_name::{
    AttributeTypeAndValue, RelativeDistinguishedName, X520CountryName, X520SerialNumber,
};
use pkix_x400::{
    BuiltInDomainDefinedAttribute, BuiltInDomainDefinedAttributes, ExtensionAttribute,
    ExtensionAttributes, OrganisationalUnitName, OrganisationalUnitNames,
};
use pkix_x400_ext::{
    CommonName, PdsName, PrintableAddress, TeletexAddress, TeletexCommonName,
    TeletexDomainDefinedAttribute, TeletexDomainDefinedAttributes, TeletexOrganisationalUnitName,
    TeletexOrganisationalUnitNames, TeletexOrganizationName,
};
use std::alloc::Global;

/// What the type of this name makes of what the bytes are the form of.
pub fn write(alloc: Global, name: &str, form: &[u8]) -> Reading {
    if name == "OrganisationalUnitName" {
        return written_as::<OrganisationalUnitName, PrintableString>(alloc, form);
    }
    if name == "OrganisationalUnitNames" {
        return written_as::<OrganisationalUnitNames, SequenceOf<OrganisationalUnitName>>(
            alloc, form,
        );
    }
    if name == "BuiltInDomainDefinedAttributes" {
        return written_as::<
            BuiltInDomainDefinedAttributes,
            SequenceOf<BuiltInDomainDefinedAttribute>,
        >(alloc, form);
    }
    if name == "ExtensionAttributes" {
        return written_as::<ExtensionAttributes, SetOf<ExtensionAttribute>>(alloc, form);
    }
    if name == "CommonName" {
        return written_as::<CommonName, PrintableString>(alloc, form);
    }
    if name == "TeletexCommonName" {
        return written_as::<TeletexCommonName, TeletexString>(alloc, form);
    }
    if name == "TeletexOrganizationName" {
        return written_as::<TeletexOrganizationName, TeletexString>(alloc, form);
    }
    if name == "TeletexOrganisationalUnitName" {
        return written_as::<TeletexOrganisationalUnitName, TeletexString>(alloc, form);
    }
    if name == "PdsName" {
        return written_as::<PdsName, PrintableString>(alloc, form);
    }
    write_further(alloc, name, form)
}

// The further types.
fn write_further(alloc: Global, name: &str, form: &[u8]) -> Reading {
    if name == "PrintableAddress" {
        return written_as::<PrintableAddress, PrintableString>(alloc, form);
    }
    if name == "TeletexAddress" {
        return written_as::<TeletexAddress, TeletexString>(alloc, form);
    }
    if name == "TeletexOrganisationalUnitNames" {
        return written_as::<
            TeletexOrganisationalUnitNames,
            SequenceOf<TeletexOrganisationalUnitName>,
        >(alloc, form);
    }
    if name == "TeletexDomainDefinedAttributes" {
        return written_as::<
            TeletexDomainDefinedAttributes,
            SequenceOf<TeletexDomainDefinedAttribute>,
        >(alloc, form);
    }
    if name == "X520CountryName" {
        return written_as::<X520CountryName, PrintableString>(alloc, form);
    }
    if name == "X520SerialNumber" {
        return written_as::<X520SerialNumber, PrintableString>(alloc, form);
    }
    if name == "RelativeDistinguishedName" {
        return written_as::<RelativeDistinguishedName, SetOf<AttributeTypeAndValue>>(alloc, form);
    }
    if name == "Extensions" {
        return written_as::<Extensions, SequenceOf<Extension>>(alloc, form);
    }
    Reading::NoType
}
