//! Alternative names as parameters have them (RFC 5280, 4.2.1.6).
ghost use Rattle.std.specs.Prelude.{◌≡◌, [], IfOk, IfErr, map};
ghost use Rattle.rcgen_text.specs.AlternativeNames.{alternative_name};
ghost use Rattle.rcgen_text.specs.declared.error.Error.TheVariants.{OutOfMemory};
ghost use Rattle.rcgen_read.specs.AlternativeNameReading.{read_address, read_utf8, read_other_name, read_general_name, read_names};
ghost use Rattle.rcgen_read.specs.Reading.{ReadsAs, read_each};

use crate::extensions::contents_value;
use crate::name::wide_arcs;
use crate::reading::utf8_text;
use asn1_core::{Ia5String, Tag};
use der_tree::{Any, InstanceOf, one_window};
use pkix_name::{GeneralName, GeneralNames};
use rcgen_text::{Error, IpAddr, OtherNameValue, SanType, string};
use std::alloc::Global;

/// The address of 4 octets or 16. `InvalidIpAddressOctetLength` exactly where there are neither.
fn address(octets: &[u8]) -> Result<IpAddr, Error>
    ensures { ReadsAs (λ a. a) (read_address octets.now) result }
{
    match octets.len() {
        4 => Ok(IpAddr::V4([octets[0], octets[1], octets[2], octets[3]])),
        16 => {
            let mut address = [0; 16];
            address.copy_from_slice(octets);
            Ok(IpAddr::V6(address))
        }
        length => Err(Error::InvalidIpAddressOctetLength(length)),
    }
}

/// The text of a value that is exactly one UTF8String.
fn utf8_value(value: &Any) -> Result<&str, Error>
    ensures { ReadsAs (λ text. text.now) (read_utf8 value.now) result }
{
    let Some(window) = one_window(value.as_bytes()) else {
        return Err(Error::CouldNotParseCertificate);
    };
    if window.tag() != Tag::UTF8_STRING || window.is_constructed() {
        return Err(Error::CouldNotParseCertificate);
    }
    utf8_text(window.content())
}

/// The name of another kind, whose value has to be a UTF8String.
fn other_name(alloc: Global, name: &InstanceOf<Any>) -> Result<SanType, Error>
    ensures { ReadsAs alternative_name (read_other_name name.now) result }
{
    let text = String::from_str(alloc, utf8_value(&name.value)?)?;
    let arcs = wide_arcs(alloc, &name.type_id)?;
    Ok(SanType::OtherName((arcs, OtherNameValue::Utf8String(text))))
}

/// The text of an IA5String, which is one of ASCII.
#[tactic(auto, using(crate::proofs::Ia5Texts::are_ascii, crate::proofs::Ia5Texts::are_utf8))]
fn ascii_name(alloc: Global, text: &Ia5String) -> Result<string::Ia5String, Error>
    ensures text { IfOk result (λ copy. copy ≡ text.now) }
    ensures memory { IfErr result (λ e. e ≡ OutOfMemory) }
{
    let text = utf8_text(text.as_bytes())?;
    string::Ia5String::try_from_str(alloc, text)
}

/// The alternative name, if its kind is one that is issued.
fn general_name(alloc: Global, name: &GeneralName) -> Result<SanType, Error>
    ensures { ReadsAs alternative_name (read_general_name name.now) result }
{
    match name {
        GeneralName::Rfc822Name(text) => Ok(SanType::Rfc822Name(ascii_name(alloc, text)?)),
        GeneralName::DnsName(text) => Ok(SanType::DnsName(ascii_name(alloc, text)?)),
        GeneralName::Uri(text) => Ok(SanType::URI(ascii_name(alloc, text)?)),
        GeneralName::IpAddress(octets) => Ok(SanType::IpAddress(address(octets.as_slice())?)),
        GeneralName::OtherName(name) => other_name(alloc, name),
        GeneralName::X400Address(_) => Err(Error::InvalidNameType),
        GeneralName::DirectoryName(_) => Err(Error::InvalidNameType),
        GeneralName::EdiPartyName(_) => Err(Error::InvalidNameType),
        GeneralName::RegisteredId(_) => Err(Error::InvalidNameType),
    }
}

/// The names in order.
fn each_name(alloc: Global, names: &[GeneralName]) -> Result<Vec<SanType>, Error>
    ensures { ReadsAs (λ read. map alternative_name read.items) (read_each read_general_name [] names.now) result }
{
    let mut read = Vec::new(alloc);
    for name in names {
        read.push(general_name(alloc, name)?)?;
    }
    Ok(read)
}

/// The alternative names that are exactly these contents. `UnsupportedExtension` where they are no
/// `GeneralNames`. The first name that can't be read is refused: with `InvalidIpAddressOctetLength`
/// for an address of neither 4 octets nor 16, `CouldNotParseCertificate` for another name whose
/// value is no UTF8String, `InvalidNameType` for any other kind.
pub(crate) fn alternative_names(alloc: Global, contents: &[u8]) -> Result<Vec<SanType>, Error>
    ensures read { ReadsAs (λ read. map alternative_name read.items) (read_names contents.now) result }
{
    let names: GeneralNames = contents_value(alloc, contents)?;
    each_name(alloc, names.as_slice())
}
