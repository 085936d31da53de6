//! Values with texts, lists and numbers of any size, made of the parts of what would be their forms.
use crate::parts::{any, next_text, parts_of, text, window_of};
use crate::reading::{Reading, written};
use asn1_core::{
    BmpString, PrintableString, Tag, TeletexString, TextFault, UniversalString, Utf8String,
    u64_from_contents,
};
use der_tree::der::decode;
use der_tree::{DerType, SetOf, Window};
use pkix_name::{
    DirectoryString, X520CommonName, X520LocalityName, X520Name, X520OrganisationName,
    X520OrganisationalUnitName, X520Pseudonym, X520StateOrProvinceName, X520Text, X520Title,
};
use pkix_x400::{
    AdministrationDomainName, BuiltInDomainDefinedAttribute, CountryName, ExtensionAttribute,
    PrivateDomainName,
};
use pkix_x400_ext::{
    E1634Address, ExtendedNetworkAddress, PdsParameter, PhysicalDeliveryCountryName, PostalCode,
    PresentationAddress, TeletexDomainDefinedAttribute, TeletexPersonalName,
    UnformattedPostalAddress,
};
use std::alloc::Global;

/// A text of one of the five kinds of a DirectoryString.
trait OfKind: DerType {
    fn of_kind(alloc: Global, tag: u32, contents: &[u8]) -> Result<Self, TextFault>;
}

impl<const ARC: u32> OfKind for X520Text<ARC> {
    fn of_kind(alloc: Global, tag: u32, contents: &[u8]) -> Result<Self, TextFault> {
        match tag {
            20 => Ok(X520Text::Teletex(TeletexString::new(alloc, contents)?)),
            19 => Ok(X520Text::Printable(PrintableString::new(alloc, contents)?)),
            28 => Ok(X520Text::Universal(UniversalString::new(alloc, contents)?)),
            12 => Ok(X520Text::Utf8(Utf8String::new(alloc, contents)?)),
            _ => Ok(X520Text::Bmp(BmpString::new(alloc, contents)?)),
        }
    }
}

impl OfKind for DirectoryString {
    fn of_kind(alloc: Global, tag: u32, contents: &[u8]) -> Result<Self, TextFault> {
        Ok(DirectoryString::from(X520Name::of_kind(alloc, tag, contents)?))
    }
}

// What such a text has to do with the form.
fn of_kind<T: OfKind>(alloc: Global, form: &[u8]) -> Reading {
    let Some(window) = window_of(form) else {
        return Reading::Refused;
    };
    let made = T::of_kind(alloc, window.tag().number, window.content());
    written(alloc, made.ok(), form)
}

fn place(alloc: Global, window: Window<'_>) -> Option<PhysicalDeliveryCountryName> {
    if window.tag() == Tag::NUMERIC_STRING {
        Some(PhysicalDeliveryCountryName::X121DccCode(text(alloc, window)?))
    } else {
        Some(PhysicalDeliveryCountryName::Iso3166Alpha2Code(text(alloc, window)?))
    }
}

fn country(alloc: Global, window: Window<'_>) -> Option<CountryName> {
    if window.tag() == Tag::NUMERIC_STRING {
        Some(CountryName::X121DccCode(text(alloc, window)?))
    } else {
        Some(CountryName::Iso3166Alpha2Code(text(alloc, window)?))
    }
}

fn administration(alloc: Global, window: Window<'_>) -> Option<AdministrationDomainName> {
    if window.tag() == Tag::NUMERIC_STRING {
        Some(AdministrationDomainName::Numeric(text(alloc, window)?))
    } else {
        Some(AdministrationDomainName::Printable(text(alloc, window)?))
    }
}

fn private_domain(alloc: Global, window: Window<'_>) -> Option<PrivateDomainName> {
    if window.tag() == Tag::NUMERIC_STRING {
        Some(PrivateDomainName::Numeric(text(alloc, window)?))
    } else {
        Some(PrivateDomainName::Printable(text(alloc, window)?))
    }
}

fn postal_code(alloc: Global, window: Window<'_>) -> Option<PostalCode> {
    if window.tag() == Tag::NUMERIC_STRING {
        Some(PostalCode::Numeric(text(alloc, window)?))
    } else {
        Some(PostalCode::Printable(text(alloc, window)?))
    }
}

fn attribute(alloc: Global, form: &[u8]) -> Option<BuiltInDomainDefinedAttribute> {
    let mut parts = parts_of(form)?;
    let kind = next_text(alloc, &mut parts)?;
    let value = next_text(alloc, &mut parts)?;
    Some(BuiltInDomainDefinedAttribute { kind, value })
}

fn teletex_attribute(alloc: Global, form: &[u8]) -> Option<TeletexDomainDefinedAttribute> {
    let mut parts = parts_of(form)?;
    let kind = next_text(alloc, &mut parts)?;
    let value = next_text(alloc, &mut parts)?;
    Some(TeletexDomainDefinedAttribute { kind, value })
}

fn telephone(alloc: Global, form: &[u8]) -> Option<E1634Address> {
    let mut parts = parts_of(form)?;
    let number = next_text(alloc, &mut parts)?;
    let sub_address = next_text(alloc, &mut parts);
    Some(E1634Address {
        number,
        sub_address,
    })
}

fn parameter(alloc: Global, form: &[u8]) -> Option<PdsParameter> {
    let mut parts = parts_of(form)?;
    let printable_string = next_text(alloc, &mut parts);
    let teletex_string = next_text(alloc, &mut parts);
    Some(PdsParameter {
        printable_string,
        teletex_string,
    })
}

fn person(alloc: Global, form: &[u8]) -> Option<TeletexPersonalName> {
    let mut parts = parts_of(form)?;
    let surname = next_text(alloc, &mut parts)?;
    let given_name = next_text(alloc, &mut parts);
    let initials = next_text(alloc, &mut parts);
    let generation_qualifier = next_text(alloc, &mut parts);
    Some(TeletexPersonalName {
        surname,
        given_name,
        initials,
        generation_qualifier,
    })
}

// An address of the lines in the list.
fn postal_address(alloc: Global, form: &[u8]) -> Option<UnformattedPostalAddress> {
    let lines = parts_of(form)?.next()?;
    Some(UnformattedPostalAddress {
        printable_address: decode(alloc, lines.whole()).ok(),
        teletex_string: None,
    })
}

// An address of the presentation layer without a place.
fn nowhere(alloc: Global) -> PresentationAddress {
    PresentationAddress {
        p_selector: None,
        s_selector: None,
        t_selector: None,
        n_addresses: SetOf::new(alloc),
    }
}

// A further attribute, of any number and with any contents under the second tag.
fn extension_attribute(alloc: Global, form: &[u8]) -> Option<ExtensionAttribute> {
    let mut parts = parts_of(form)?;
    let number = u64_from_contents(parts.next()?.content())?;
    let extension_attribute_type = u16::try_from(number).ok()?;
    let extension_attribute_value = any(alloc, parts.next()?.content())?;
    Some(ExtensionAttribute {
        extension_attribute_type,
        extension_attribute_value,
    })
}

/// What the value of the type of this name has to do with the form.
pub fn write(alloc: Global, name: &str, form: &[u8]) -> Reading {
    if name == "X520Name" {
        return of_kind::<X520Name>(alloc, form);
    }
    if name == "X520CommonName" {
        return of_kind::<X520CommonName>(alloc, form);
    }
    if name == "X520LocalityName" {
        return of_kind::<X520LocalityName>(alloc, form);
    }
    if name == "X520StateOrProvinceName" {
        return of_kind::<X520StateOrProvinceName>(alloc, form);
    }
    if name == "X520OrganisationName" {
        return of_kind::<X520OrganisationName>(alloc, form);
    }
    if name == "X520OrganisationalUnitName" {
        return of_kind::<X520OrganisationalUnitName>(alloc, form);
    }
    if name == "X520Title" {
        return of_kind::<X520Title>(alloc, form);
    }
    if name == "X520Pseudonym" {
        return of_kind::<X520Pseudonym>(alloc, form);
    }
    if name == "DirectoryString" {
        return of_kind::<DirectoryString>(alloc, form);
    }
    match window_of(form) {
        Some(window) => write_choice(alloc, name, window),
        None => Reading::Refused,
    }
}

// The element within the other.
fn inner<'a>(window: Window<'a>) -> Window<'a> {
    match window.children() {
        Some(mut parts) => parts.next().unwrap_or(window),
        None => window,
    }
}

// The alternatives of two texts.
fn write_choice(alloc: Global, name: &str, window: Window<'_>) -> Reading {
    let form = window.whole();
    if name == "PhysicalDeliveryCountryName" {
        return written(alloc, place(alloc, window), form);
    }
    if name == "CountryName" {
        return written(alloc, country(alloc, inner(window)), form);
    }
    if name == "AdministrationDomainName" {
        return written(alloc, administration(alloc, inner(window)), form);
    }
    if name == "PrivateDomainName" {
        return written(alloc, private_domain(alloc, window), form);
    }
    if name == "PostalCode" {
        return written(alloc, postal_code(alloc, window), form);
    }
    write_structure(alloc, name, form)
}

// The structures.
fn write_structure(alloc: Global, name: &str, form: &[u8]) -> Reading {
    if name == "BuiltInDomainDefinedAttribute" {
        return written(alloc, attribute(alloc, form), form);
    }
    if name == "TeletexDomainDefinedAttribute" {
        return written(alloc, teletex_attribute(alloc, form), form);
    }
    if name == "E1634Address" {
        return written(alloc, telephone(alloc, form), form);
    }
    if name == "PdsParameter" {
        return written(alloc, parameter(alloc, form), form);
    }
    if name == "TeletexPersonalName" {
        return written(alloc, person(alloc, form), form);
    }
    if name == "UnformattedPostalAddress" {
        return written(alloc, postal_address(alloc, form), form);
    }
    if name == "PresentationAddress" {
        return written(alloc, Some(nowhere(alloc)), form);
    }
    if name == "ExtensionAttribute" {
        return written(alloc, extension_attribute(alloc, form), form);
    }
    write_network(alloc, name, form)
}

// The two addresses of a network.
fn write_network(alloc: Global, name: &str, form: &[u8]) -> Reading {
    if name != "ExtendedNetworkAddress" {
        return Reading::NoType;
    }
    match telephone(alloc, form) {
        Some(address) => {
            let choice = ExtendedNetworkAddress::E1634Address(address);
            written(alloc, Some(choice), form)
        }
        None => {
            let choice = ExtendedNetworkAddress::PsapAddress(nowhere(alloc));
            written(alloc, Some(choice), form)
        }
    }
}
