//! The types of `pkix_x400`.
use crate::reading::{Reading, read_as};
use pkix_x400::{
    AdministrationDomainName, BuiltInDomainDefinedAttribute, BuiltInDomainDefinedAttributes,
    BuiltInStandardAttributes, CountryName, ExtensionAttribute, ExtensionAttributes, OrAddress,
    OrganisationalUnitName, OrganisationalUnitNames, PersonalName, PrivateDomainName, TerminalType,
};
use std::alloc::Global;

/// What of the type of this name has the bytes as its form.
pub fn read(alloc: Global, name: &str, form: &[u8]) -> Reading {
    if name == "AdministrationDomainName" {
        return read_as::<AdministrationDomainName>(alloc, form);
    }
    if name == "BuiltInDomainDefinedAttribute" {
        return read_as::<BuiltInDomainDefinedAttribute>(alloc, form);
    }
    if name == "BuiltInDomainDefinedAttributes" {
        return read_as::<BuiltInDomainDefinedAttributes>(alloc, form);
    }
    if name == "BuiltInStandardAttributes" {
        return read_as::<BuiltInStandardAttributes>(alloc, form);
    }
    if name == "CountryName" {
        return read_as::<CountryName>(alloc, form);
    }
    if name == "ExtensionAttribute" {
        return read_as::<ExtensionAttribute>(alloc, form);
    }
    if name == "ExtensionAttributes" {
        return read_as::<ExtensionAttributes>(alloc, form);
    }
    read_further(alloc, name, form)
}

// The further types.
fn read_further(alloc: Global, name: &str, form: &[u8]) -> Reading {
    if name == "OrAddress" {
        return read_as::<OrAddress>(alloc, form);
    }
    if name == "OrganisationalUnitName" {
        return read_as::<OrganisationalUnitName>(alloc, form);
    }
    if name == "OrganisationalUnitNames" {
        return read_as::<OrganisationalUnitNames>(alloc, form);
    }
    if name == "PersonalName" {
        return read_as::<PersonalName>(alloc, form);
    }
    if name == "PrivateDomainName" {
        return read_as::<PrivateDomainName>(alloc, form);
    }
    if name == "TerminalType" {
        return read_as::<TerminalType>(alloc, form);
    }
    Reading::NoType
}
