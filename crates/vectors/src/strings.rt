//! Texts, addresses and subnets as rcgen's callers hand them in, and what is reported of texts that aren't taken.
use crate::octets::octets_or_none;
use asn1_core::TryClone;
use case_octets::octets_of;
use rcgen_text::string::{
    AsciiSet, AsciiString, BmpString, Ia5, Printable, Teletex, UniversalString,
};
use rcgen_text::{CidrSubnet, Error, IpAddr};
use std::alloc::{AllocError, Global};

// The octets of a copy of the text, where it is taken.
fn ascii<S: AsciiSet>(alloc: Global, text: &str) -> Option<Vec<u8>> {
    match AsciiString::<S>::try_from_str(alloc, text) {
        Ok(taken) => copied(alloc, &taken),
        Err(_) => None,
    }
}

fn copied<S: AsciiSet>(alloc: Global, taken: &AsciiString<S>) -> Option<Vec<u8>> {
    match taken.try_clone(alloc) {
        Ok(copy) => copy.as_str().as_bytes().to_vec(alloc).ok(),
        Err(_) => None,
    }
}

fn bmp(alloc: Global, made: Result<BmpString, Error>) -> Option<Vec<u8>> {
    match made {
        Ok(taken) => taken.as_bytes().to_vec(alloc).ok(),
        Err(_) => None,
    }
}

fn universal(alloc: Global, made: Result<UniversalString, Error>) -> Option<Vec<u8>> {
    match made {
        Ok(taken) => taken.as_bytes().to_vec(alloc).ok(),
        Err(_) => None,
    }
}

// The octets of the text as one of this kind.
fn octets_of_text(alloc: Global, name: &str, text: &str) -> Option<Vec<u8>> {
    if name == "printable" {
        return ascii::<Printable>(alloc, text);
    }
    if name == "ia5" {
        return ascii::<Ia5>(alloc, text);
    }
    if name == "teletex" {
        return ascii::<Teletex>(alloc, text);
    }
    if name == "bmp" {
        return bmp(alloc, BmpString::try_from_str(alloc, text));
    }
    universal(alloc, UniversalString::try_from_str(alloc, text))
}

// The error of a text that is refused.
fn message<T: Drop>(alloc: Global, made: Result<T, Error>) -> Result<String, AllocError> {
    match made {
        Ok(_) => " taken".to_string(alloc),
        Err(error) => format!(in alloc; " {error}"),
    }
}

// The text as it is printed, or what is reported of it.
fn printed<S: AsciiSet>(alloc: Global, text: &str) -> Result<String, AllocError> {
    match AsciiString::<S>::try_from_str(alloc, text) {
        Ok(taken) => format!(in alloc; " {taken}"),
        Err(error) => format!(in alloc; " {error}"),
    }
}

fn printed_text(alloc: Global, name: &str, text: &str) -> Result<String, AllocError> {
    if name == "printable" {
        return printed::<Printable>(alloc, text);
    }
    if name == "ia5" {
        return printed::<Ia5>(alloc, text);
    }
    if name == "teletex" {
        return printed::<Teletex>(alloc, text);
    }
    message(alloc, BmpString::try_from_str(alloc, text))
}

/// What there is to say of a line `string.KIND OCTETS` or `printed.KIND OCTETS`, of octets in UTF-8.
pub fn answer_to_text(
    alloc: Global,
    place: &str,
    name: &str,
    words: &str,
) -> Result<String, AllocError> {
    let octets = octets_of(alloc, words).unwrap_or(Vec::new(alloc));
    match str::from_utf8(octets.as_slice()) {
        Ok(text) if place == "string" => {
            octets_or_none(alloc, octets_of_text(alloc, name, text))
        }
        Ok(text) => printed_text(alloc, name, text),
        Err(_) => " no text".to_string(alloc),
    }
}

/// The same of a line `units.KIND OCTETS`, of two or four octets for each character.
pub fn answer_to_units(alloc: Global, name: &str, words: &str) -> Result<String, AllocError> {
    let octets = octets_of(alloc, words).unwrap_or(Vec::new(alloc));
    if name == "bmp" {
        return octets_or_none(alloc, bmp(alloc, BmpString::from_utf16be(alloc, octets)));
    }
    if name == "universal" {
        let made = UniversalString::from_utf32be(alloc, octets);
        return octets_or_none(alloc, universal(alloc, made));
    }
    message(alloc, UniversalString::from_utf32be(alloc, octets))
}

fn address_octets(alloc: Global, address: IpAddr) -> Option<Vec<u8>> {
    match address {
        IpAddr::V4(octets) => octets.to_vec(alloc).ok(),
        IpAddr::V6(octets) => octets.to_vec(alloc).ok(),
    }
}

fn subnet_octets(alloc: Global, subnet: CidrSubnet) -> Option<Vec<u8>> {
    subnet.to_bytes(alloc).ok()
}

// The subnet of the address by the call for addresses of its kind.
fn subnet_of(address: IpAddr, prefix: u8) -> CidrSubnet {
    match address {
        IpAddr::V4(octets) => CidrSubnet::from_v4_prefix(octets, prefix),
        IpAddr::V6(octets) => CidrSubnet::from_v6_prefix(octets, prefix),
    }
}

// The same, where it is that of the call for each kind.
fn masked(words: &str) -> Option<CidrSubnet> {
    let (address, prefix) = words.split_once(' ')?;
    let address = IpAddr::parse(address)?;
    let prefix = prefix.parse::<u8>().ok()?;
    let subnet = subnet_of(address, prefix);
    if subnet == CidrSubnet::from_addr_prefix(address, prefix) {
        Some(subnet)
    } else {
        None
    }
}

/// What there is to say of a line `address.NAME WORDS`.
pub fn answer_to_address(alloc: Global, name: &str, words: &str) -> Result<String, AllocError> {
    if name == "ip" {
        return match IpAddr::parse(words) {
            Some(address) => octets_or_none(alloc, address_octets(alloc, address)),
            None => " none".to_string(alloc),
        };
    }
    let subnet = if name == "subnet" {
        CidrSubnet::from_str(words)
    } else {
        masked(words)
    };
    match subnet {
        Some(subnet) => octets_or_none(alloc, subnet_octets(alloc, subnet)),
        None => " none".to_string(alloc),
    }
}
