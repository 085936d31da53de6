//! Names and alternative names.
ghost use Rattle.std.specs.Prelude.{◌≡◌, map, IfOk, IfErr};
ghost use Rattle.rcgen_text.specs.AlternativeNames.{alternative_name};
ghost use Rattle.rcgen_text.specs.Names.{all_pushed};
ghost use Rattle.rcgen_text.specs.declared.error.Error.TheVariants.{OutOfMemory};
ghost use Rattle.profile_params.specs.Names.{name_of_profile, alternative_name_of_profile};

use rcgen_issue::{CertificateParams, DistinguishedName, Error, OtherNameValue, SanType};
use std::alloc::Global;
use toml_format::{AltName, Attribute, Name};

/// The name that has these attributes.
fn subject(alloc: Global, attributes: Vec<Attribute>) -> Result<DistinguishedName, Error>
    ensures value { IfOk result (λ n. n ≡ all_pushed attributes.items) }
    ensures memory { IfErr result (λ e. e ≡ OutOfMemory) }
{
    let mut entries = Vec::with_capacity(alloc, attributes.len())?;
    for attribute in attributes {
        entries.push(attribute.into_entry())?;
    }
    DistinguishedName::from_entries(alloc, entries)
}

/// The name, which is by default the one of `CertificateParams::default`. `OutOfMemory` is the only
/// error.
pub fn name_of_profile(alloc: Global, name: Name) -> Result<DistinguishedName, Error>
    ensures value { IfOk result (λ n. n ≡ name_of_profile name) }
    ensures memory { IfErr result (λ e. e ≡ OutOfMemory) }
{
    match name {
        Name::Default => {
            let default = CertificateParams::default(alloc)?;
            Ok(default.distinguished_name)
        }
        Name::CommonName(text) => DistinguishedName::from_common_name(alloc, text.into_string()),
        Name::Subject(attributes) => subject(alloc, attributes.into_vec()),
    }
}

fn alternative_name(name: AltName) -> SanType
    ensures { alternative_name result ≡ alternative_name_of_profile name }
{
    match name {
        AltName::Dns(text) => SanType::DnsName(text),
        AltName::Email(text) => SanType::Rfc822Name(text),
        AltName::Uri(text) => SanType::URI(text),
        AltName::Ip(address) => SanType::IpAddress(address),
        AltName::Other(arcs, text) => SanType::OtherName((
            arcs.into_vec(),
            OtherNameValue::Utf8String(text.into_string()),
        )),
    }
}

/// The alternative names.
pub(crate) fn alternative_names(alloc: Global, names: Vec<AltName>) -> Result<Vec<SanType>, Error>
    ensures names { IfOk result (λ list. map alternative_name list.items ≡ map alternative_name_of_profile names.items) }
    ensures memory { IfErr result (λ e. e ≡ OutOfMemory) }
{
    let mut list = Vec::with_capacity(alloc, names.len())?;
    for name in names {
        list.push(alternative_name(name))?;
    }
    Ok(list)
}
