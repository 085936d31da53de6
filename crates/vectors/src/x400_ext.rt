//! The types of `pkix_x400_ext`.
use crate::reading::{Reading, read_as};
use pkix_x400_ext::{
    CommonName, E1634Address, ExtendedNetworkAddress, PdsName, PdsParameter,
    PhysicalDeliveryCountryName, PostalCode, PresentationAddress, PrintableAddress, TeletexAddress,
    TeletexCommonName, TeletexDomainDefinedAttribute, TeletexDomainDefinedAttributes,
    TeletexOrganisationalUnitName, TeletexOrganisationalUnitNames, TeletexOrganizationName,
    TeletexPersonalName, UnformattedPostalAddress,
};
use std::alloc::Global;

/// What of the type of this name has the bytes as its form.
pub fn read(alloc: Global, name: &str, form: &[u8]) -> Reading {
    if name == "CommonName" {
        return read_as::<CommonName>(alloc, form);
    }
    if name == "E1634Address" {
        return read_as::<E1634Address>(alloc, form);
    }
    if name == "ExtendedNetworkAddress" {
        return read_as::<ExtendedNetworkAddress>(alloc, form);
    }
    if name == "PdsName" {
        return read_as::<PdsName>(alloc, form);
    }
    if name == "PdsParameter" {
        return read_as::<PdsParameter>(alloc, form);
    }
    if name == "PhysicalDeliveryCountryName" {
        return read_as::<PhysicalDeliveryCountryName>(alloc, form);
    }
    if name == "PostalCode" {
        return read_as::<PostalCode>(alloc, form);
    }
    if name == "PresentationAddress" {
        return read_as::<PresentationAddress>(alloc, form);
    }
    if name == "PrintableAddress" {
        return read_as::<PrintableAddress>(alloc, form);
    }
    read_further(alloc, name, form)
}

// The further types.
fn read_further(alloc: Global, name: &str, form: &[u8]) -> Reading {
    if name == "TeletexAddress" {
        return read_as::<TeletexAddress>(alloc, form);
    }
    if name == "TeletexCommonName" {
        return read_as::<TeletexCommonName>(alloc, form);
    }
    if name == "TeletexDomainDefinedAttribute" {
        return read_as::<TeletexDomainDefinedAttribute>(alloc, form);
    }
    if name == "TeletexDomainDefinedAttributes" {
        return read_as::<TeletexDomainDefinedAttributes>(alloc, form);
    }
    if name == "TeletexOrganisationalUnitName" {
        return read_as::<TeletexOrganisationalUnitName>(alloc, form);
    }
    if name == "TeletexOrganisationalUnitNames" {
        return read_as::<TeletexOrganisationalUnitNames>(alloc, form);
    }
    if name == "TeletexOrganizationName" {
        return read_as::<TeletexOrganizationName>(alloc, form);
    }
    if name == "TeletexPersonalName" {
        return read_as::<TeletexPersonalName>(alloc, form);
    }
    if name == "UnformattedPostalAddress" {
        return read_as::<UnformattedPostalAddress>(alloc, form);
    }
    Reading::NoType
}
