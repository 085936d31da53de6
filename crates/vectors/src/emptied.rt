//! Values to which a list is given that needs one value or more and has none (RFC 5280, 4.1.2.9, 5.1.2.7, 5.3 and A.1;
//! RFC 5914, 3).
use crate::reading::{Reading, written};
use der_tree::der::decode;
use der_tree::{SequenceOf, SetOf};
use pkix_attr::AttributeCertificateInfo;
use pkix_cert::{
    Certificate, DistributionPointName, Extensions, RevokedCertificate, TbsCertList, TbsCertificate,
};
use pkix_name::{DirectoryString, EdiPartyName, GeneralName, Name, RelativeDistinguishedName};
use pkix_trust::{TrustAnchorChoice, TrustAnchorInfo};
use pkix_x400::{
    BuiltInDomainDefinedAttributes, BuiltInStandardAttributes, ExtensionAttributes, OrAddress,
    OrganisationalUnitNames,
};
use std::alloc::Global;

// Extensions, of which there are none in the list.
fn no_extension(alloc: Global) -> Option<Extensions> {
    Some(Extensions::from(SequenceOf::new(alloc)))
}

fn to_be_signed(alloc: Global, form: &[u8]) -> Option<TbsCertificate> {
    let mut fields = decode::<TbsCertificate>(alloc, form).ok()?;
    fields.extensions = no_extension(alloc);
    Some(fields)
}

fn certificate(alloc: Global, form: &[u8]) -> Option<Certificate> {
    let mut certificate = decode::<Certificate>(alloc, form).ok()?;
    certificate.tbs_certificate.extensions = no_extension(alloc);
    Some(certificate)
}

fn anchor(alloc: Global, form: &[u8]) -> Option<TrustAnchorInfo> {
    let mut anchor = decode::<TrustAnchorInfo>(alloc, form).ok()?;
    anchor.exts = no_extension(alloc);
    Some(anchor)
}

fn list(alloc: Global, form: &[u8]) -> Option<TbsCertList> {
    let mut list = decode::<TbsCertList>(alloc, form).ok()?;
    list.crl_extensions = no_extension(alloc);
    Some(list)
}

fn entry(alloc: Global, form: &[u8]) -> Option<RevokedCertificate> {
    let mut entry = decode::<RevokedCertificate>(alloc, form).ok()?;
    entry.crl_entry_extensions = no_extension(alloc);
    Some(entry)
}

fn attributes(alloc: Global, form: &[u8]) -> Option<AttributeCertificateInfo> {
    let mut info = decode::<AttributeCertificateInfo>(alloc, form).ok()?;
    info.extensions = no_extension(alloc);
    Some(info)
}

fn chosen_certificate(alloc: Global, form: &[u8]) -> Option<TrustAnchorChoice> {
    Some(TrustAnchorChoice::Certificate(certificate(alloc, form)?))
}

fn chosen_fields(alloc: Global, form: &[u8]) -> Option<TrustAnchorChoice> {
    Some(TrustAnchorChoice::TbsCertificate(to_be_signed(alloc, form)?))
}

fn chosen_anchor(alloc: Global, form: &[u8]) -> Option<TrustAnchorChoice> {
    Some(TrustAnchorChoice::TrustAnchorInfo(anchor(alloc, form)?))
}

/// What the value of the type of this name, with its list empty, has to do with the form that it has without one.
pub fn write(alloc: Global, name: &str, form: &[u8]) -> Reading {
    if name == "TbsCertificate" {
        return written(alloc, to_be_signed(alloc, form), form);
    }
    if name == "TrustAnchorInfo" {
        return written(alloc, anchor(alloc, form), form);
    }
    if name == "TbsCertList" {
        return written(alloc, list(alloc, form), form);
    }
    if name == "RevokedCertificate" {
        return written(alloc, entry(alloc, form), form);
    }
    if name == "AttributeCertificateInfo" {
        return written(alloc, attributes(alloc, form), form);
    }
    if name == "TrustAnchorChoice.certificate" {
        return written(alloc, chosen_certificate(alloc, form), form);
    }
    if name == "TrustAnchorChoice.tbs_certificate" {
        return written(alloc, chosen_fields(alloc, form), form);
    }
    if name == "TrustAnchorChoice.trust_anchor_info" {
        return written(alloc, chosen_anchor(alloc, form), form);
    }
    write_address(alloc, name, form)
}

// An address with no further attribute in the set of these.
fn address(alloc: Global, form: &[u8]) -> Option<OrAddress> {
    let mut address = decode::<OrAddress>(alloc, form).ok()?;
    address.extension_attributes = Some(ExtensionAttributes::from(SetOf::new(alloc)));
    Some(address)
}

// One with none in the list of those of its domain.
fn domain(alloc: Global, form: &[u8]) -> Option<OrAddress> {
    let mut address = decode::<OrAddress>(alloc, form).ok()?;
    let none = BuiltInDomainDefinedAttributes::from(SequenceOf::new(alloc));
    address.built_in_domain_defined_attributes = Some(none);
    Some(address)
}

fn units(alloc: Global, form: &[u8]) -> Option<BuiltInStandardAttributes> {
    let mut attributes = decode::<BuiltInStandardAttributes>(alloc, form).ok()?;
    let none = OrganisationalUnitNames::from(SequenceOf::new(alloc));
    attributes.organisational_unit_name = Some(none);
    Some(attributes)
}

// A name with a part of no attribute.
fn nameless(alloc: Global) -> Option<Name> {
    let mut parts = SequenceOf::new(alloc);
    parts
        .push(RelativeDistinguishedName::from(SetOf::new(alloc)))
        .ok()?;
    Some(Name::RdnSequence(parts))
}

fn addressed(alloc: Global, form: &[u8]) -> Option<GeneralName> {
    Some(GeneralName::X400Address(address(alloc, form)?))
}

fn directed(alloc: Global) -> Option<GeneralName> {
    Some(GeneralName::DirectoryName(nameless(alloc)?))
}

// A party of the text.
fn party(alloc: Global, form: &[u8]) -> Option<GeneralName> {
    Some(GeneralName::EdiPartyName(EdiPartyName {
        name_assigner: None,
        party_name: DirectoryString::Teletex(decode(alloc, form).ok()?),
    }))
}

// The addresses and names.
fn write_address(alloc: Global, name: &str, form: &[u8]) -> Reading {
    if name == "OrAddress" {
        return written(alloc, address(alloc, form), form);
    }
    if name == "OrAddress.domain" {
        return written(alloc, domain(alloc, form), form);
    }
    if name == "BuiltInStandardAttributes" {
        return written(alloc, units(alloc, form), form);
    }
    if name == "Name" {
        return written(alloc, nameless(alloc), form);
    }
    if name == "GeneralName.x400" {
        return written(alloc, addressed(alloc, form), form);
    }
    if name == "GeneralName.directory" {
        return written(alloc, directed(alloc), form);
    }
    if name == "GeneralName.party" {
        return written(alloc, party(alloc, form), form);
    }
    if name == "DistributionPointName" {
        return {
            let part = RelativeDistinguishedName::from(SetOf::new(alloc));
            let name = DistributionPointName::NameRelativeToCrlIssuer(part);
            written(alloc, Some(name), form)
        };
    }
    Reading::NoType
}
