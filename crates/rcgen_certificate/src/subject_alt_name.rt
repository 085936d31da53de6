//! The subject's alternative names (RFC 5280, 4.2.1.6).
ghost use Rattle.std.specs.Prelude.{◌≡◌, ◌==◌, length, true, None, ◌++◌, map, IfOk, OnOk, IfErr, refl};
ghost use Rattle.std.specs.Option.{IfSome};
ghost use Rattle.std.specs.List.{list_all};
ghost use Rattle.asn1_core.specs.Arcs.{is_oid};
ghost use Rattle.der_tree.specs.Grammar.{sequence_of};
ghost use Rattle.der_tree.specs.HasTree.{HasTree};
ghost use Rattle.pkix_name.specs.GeneralNames.{general_name as general_name_codec};
ghost use Rattle.rcgen_text.specs.AlternativeNames.{alternative_name, other_name, other_text};
ghost use Rattle.rcgen_text.specs.declared.error.Error.TheVariants.{OutOfMemory};
ghost use Rattle.rcgen_certificate.specs.ExtensionRows.{row_of_extension};
ghost use Rattle.rcgen_certificate.specs.SubjectAltNames.{address_octets, general_name_value, has_type_id, is_ascii_name, subject_alt_name, subject_alt_name_row};

use crate::extension::push_extension;
use crate::name_value::primitive_element;
use crate::value::{ia5_text, identifier_from_u64};
use asn1_core::{OctetString, Tag};
use der_tree::{InstanceOf, SequenceOf};
use pkix_cert::extension_id::ID_CE_SUBJECT_ALT_NAME;
use pkix_cert::{Extension, GeneralName, GeneralNames};
use rcgen_text::{DistinguishedName, Error, IpAddr, OtherNameValue, SanType};
use std::alloc::Global;

fn address_octets(address: &IpAddr) -> &[u8]
    ensures { result.now ≡ address_octets address.now }
{
    match address {
        IpAddr::V4(octets) => octets.as_slice(),
        IpAddr::V6(octets) => octets.as_slice(),
    }
}

#[tactic(auto, unfolding(der_tree::specs::InstanceOf::instance_of_fields))]
fn other_name(alloc: Global, arcs: &[u64], value: &OtherNameValue) -> Result<GeneralName, Error>
    requires { is_oid arcs.now ≡ true }
    ensures value { IfOk result (λ n. n ≡ general_name_value (other_name arcs.now (other_text value.now))) }
    ensures formed { IfOk result (HasTree general_name_codec) }
    ensures memory { IfErr result (λ e. e ≡ OutOfMemory) }
{
    let OtherNameValue::Utf8String(text) = value;
    let type_id = identifier_from_u64(alloc, arcs)?;
    let value = primitive_element(alloc, Tag::UTF8_STRING, text.as_bytes())?;
    Ok(GeneralName::OtherName(InstanceOf { type_id, value }))
}

/// The general name that an alternative name is.
fn general_name(alloc: Global, name: &SanType) -> Result<GeneralName, Error>
    requires { has_type_id (alternative_name name.now) ≡ true }
    ensures value { IfOk result (λ n. n ≡ general_name_value (alternative_name name.now)) }
    ensures formed { IfOk result (HasTree general_name_codec) }
    ensures memory { IfErr result (λ e. e ≡ OutOfMemory) }
{
    match name {
        SanType::Rfc822Name(text) => Ok(GeneralName::Rfc822Name(ia5_text(alloc, text.as_str())?)),
        SanType::DnsName(text) => Ok(GeneralName::DnsName(ia5_text(alloc, text.as_str())?)),
        SanType::URI(text) => Ok(GeneralName::Uri(ia5_text(alloc, text.as_str())?)),
        SanType::IpAddress(address) => {
            let octets = Vec::from_slice(alloc, address_octets(address))?;
            Ok(GeneralName::IpAddress(OctetString::new(octets)))
        }
        SanType::OtherName((arcs, value)) => other_name(alloc, arcs.as_slice(), value),
    }
}

/// The names of the subject beside its distinguished name; None where there are none.
fn subject_alt_name(alloc: Global, names: &[SanType]) -> Result<Option<GeneralNames>, Error>
    requires { list_all has_type_id (map alternative_name names.now) ≡ true }
    ensures value { IfOk result (λ n. n ≡ subject_alt_name (map alternative_name names.now)) }
    ensures formed { IfOk result (λ n. IfSome n (HasTree (sequence_of general_name_codec 0 None refl))) }
    ensures memory { IfErr result (λ e. e ≡ OutOfMemory) }
{
    if names.is_empty() {
        return Ok(None);
    }
    let mut list = SequenceOf::new(alloc);
    for name in names {
        list.push(general_name(alloc, name)?)?;
    }
    Ok(Some(list))
}

fn is_empty(name: &DistinguishedName) -> bool
    ensures { result ≡ (length name.now == 0) }
{
    name.entries().is_empty()
}

/// A law: a mailbox, domain name or URI is ASCII.
fn name_is_ascii(name: &SanType)
    ensures { is_ascii_name (alternative_name name.now) ≡ true }
{
    if let SanType::Rfc822Name(text) | SanType::DnsName(text) | SanType::URI(text) = name {
        let _ascii = text.as_str();
    }
}

/// A law: so are all of them.
#[tactic(auto, using(crate::proofs::Rows::taken))]
pub(crate) fn names_are_ascii(names: &[SanType])
    ensures { list_all (λ n. is_ascii_name (alternative_name n)) names.now ≡ true }
{
    for name in names {
        name_is_ascii(name);
    }
}

/// Puts the extension on the names at the end, critical where the subject's name is empty.
pub(crate) fn push_subject_alt_name(
    alloc: Global,
    list: &mut SequenceOf<Extension>,
    subject: &DistinguishedName,
    names: &[SanType],
) -> Result<(), Error>
    requires { list_all has_type_id (map alternative_name names.now) ≡ true }
    ensures rows { OnOk result (map row_of_extension list.new ≡ map row_of_extension list.old ++ subject_alt_name_row (length subject.now == 0) (map alternative_name names.now)) }
    ensures memory { IfErr result (λ e. e ≡ OutOfMemory) }
{
    let names = subject_alt_name(alloc, names)?;
    push_extension(
        alloc,
        list,
        ID_CE_SUBJECT_ALT_NAME,
        is_empty(subject),
        names,
    )
}
