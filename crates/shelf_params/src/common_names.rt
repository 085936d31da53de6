//! Common names of a subject that are hosts' names, as alternative names.
ghost use Rattle.std.specs.Prelude.{◌≡◌, Ok as Done, true, map, length, nat_lt, IfErr, IfOk};
ghost use Rattle.std.specs.Char.{is_ascii};
ghost use Rattle.std.specs.List.{list_all, list_any};
ghost use Rattle.path_names.specs.NameMatching.{same_text};
ghost use Rattle.rcgen_certificate.specs.ParamsView.{params_view};
ghost use Rattle.rcgen_text.specs.AlternativeNames.{alternative_name, dns_name};
ghost use Rattle.rcgen_text.specs.declared.error.Error.TheVariants.{OutOfMemory};
ghost use Rattle.shelf_fault.specs.Faults.{Gets, Passes};
ghost use Rattle.shelf_fault.specs.declared.fault.Fault.TheVariants.{CommonName};
ghost use Rattle.shelf_keys.specs.Refusing.{refuse};
ghost use Rattle.shelf_params.specs.CommonNames.{common_hosts, host_in, host_of, host_of_text, is_common_name, is_same_host, part_hosts, parts_hosts, subject_name, with_common_name, with_common_names, with_host_names, with_hosts};

use crate::allowed::names_allowed;
use asn1_core::TryClone;
use der_tree::der;
use host_name::is_host;
use pkix_name::{AttributeTypeAndValue, DirectoryString, Name, RelativeDistinguishedName};
use rcgen_certificate::{has_issuer_value, issuer_value};
use rcgen_issue::{CertificateParams, DistinguishedName, SanType};
use rcgen_text::Error;
use rcgen_text::string::Ia5String;
use shelf_fault::{Fault, Obstacle};
use shelf_profile::RequestUse;
use std::alloc::{AllocError, Global};

/// id-at-commonName (RFC 5280, A.1).
const COMMON_NAME: &[u32] = &[2, 5, 4, 3];

/// How many common names of one subject are copied.
const MOST: usize = 16;

pub(crate) fn is_common_name(attribute: &AttributeTypeAndValue) -> bool
    ensures { result ≡ is_common_name attribute.now }
{
    attribute.attr_type.arcs() == COMMON_NAME
}

fn are_ascii(octets: &[u8]) -> bool
    ensures { result ≡ list_all is_ascii octets.now }
{
    octets.iter().all(|octet| octet.is_ascii())
}

/// A copy of a text in ASCII.
fn ascii_text(alloc: Global, text: &str) -> Result<Ia5String, Error>
    requires { list_all is_ascii text.now ≡ true }
    ensures text { IfOk result (λ copy. copy ≡ text.now) }
    ensures memory { IfErr result (λ e. e ≡ OutOfMemory) }
{
    Ia5String::try_from_str(alloc, text)
}

/// The DNS name of octets in ASCII.
fn dns_name(alloc: Global, octets: &[u8]) -> Result<SanType, Fault>
    requires { list_all is_ascii octets.now ≡ true }
    ensures { Gets alternative_name (Done (dns_name octets.now)) result }
{
    match str::from_utf8(octets) {
        Ok(text) => Ok(SanType::DnsName(ascii_text(alloc, text)?)),
        Err(_) => Err(Fault::CommonName),
    }
}

/// The host whose name the octets are, in ASCII.
#[tactic(auto, unfolding(crate::specs::CommonNames::host_of))]
fn host_of(alloc: Global, octets: &[u8]) -> Result<SanType, Fault>
    ensures { Gets alternative_name (host_of octets.now) result }
{
    if are_ascii(octets) && is_host(octets) {
        dns_name(alloc, octets)
    } else {
        Err(Fault::CommonName)
    }
}

fn host_of_text(alloc: Global, text: &DirectoryString) -> Result<SanType, Fault>
    ensures { Gets alternative_name (host_of_text text.now) result }
{
    match text {
        DirectoryString::Teletex(text) => host_of(alloc, text.as_bytes()),
        DirectoryString::Printable(text) => host_of(alloc, text.as_bytes()),
        DirectoryString::Universal(_) => Err(Fault::CommonName),
        DirectoryString::Utf8(text) => host_of(alloc, text.as_bytes()),
        DirectoryString::Bmp(_) => Err(Fault::CommonName),
    }
}

/// The host that a common name is.
#[tactic(auto, unfolding(crate::specs::CommonNames::host_in))]
fn host_in(alloc: Global, octets: &[u8]) -> Result<SanType, Fault>
    ensures { Gets alternative_name (host_in octets.now) result }
{
    match der::value_of::<DirectoryString>(alloc, octets)? {
        Some(text) => host_of_text(alloc, &text),
        None => Err(Fault::CommonName),
    }
}

/// The hosts, and after them that of an attribute that is a common name.
#[tactic(auto, unfolding(crate::specs::CommonNames::with_common_name))]
fn with_common_name(
    alloc: Global,
    attribute: &AttributeTypeAndValue,
    hosts: Vec<SanType>,
) -> Result<Vec<SanType>, Fault>
    ensures { Gets (λ v. map alternative_name v.items) (with_common_name attribute.now (map alternative_name hosts.items)) result }
{
    if !is_common_name(attribute) {
        return Ok(hosts);
    }
    let host = host_in(alloc, attribute.value.as_bytes())?;
    let mut all = hosts;
    all.push(host)?;
    Ok(all)
}

/// The hosts, and after them those of the attributes.
fn part_hosts(
    alloc: Global,
    attributes: &[AttributeTypeAndValue],
    hosts: Vec<SanType>,
) -> Result<Vec<SanType>, Fault>
    ensures { Gets (λ v. map alternative_name v.items) (part_hosts attributes.now (map alternative_name hosts.items)) result }
{
    let mut all = hosts;
    for attribute in attributes {
        all = with_common_name(alloc, attribute, all)?;
    }
    Ok(all)
}

/// The hosts, and after them those of the parts.
fn parts_hosts(
    alloc: Global,
    parts: &[RelativeDistinguishedName],
    hosts: Vec<SanType>,
) -> Result<Vec<SanType>, Fault>
    ensures { Gets (λ v. map alternative_name v.items) (parts_hosts parts.now (map alternative_name hosts.items)) result }
{
    let mut all = hosts;
    for part in parts {
        all = part_hosts(alloc, part.0.as_slice(), all)?;
    }
    Ok(all)
}

/// The subject's name: that of the parameters where there is no other.
fn subject_name(
    alloc: Global,
    name: &Option<Name>,
    entries: &DistinguishedName,
) -> Result<Name, Fault>
    ensures { Gets (λ n. n) (subject_name name.now entries.now) result }
{
    match name {
        Some(name) => Ok(name.try_clone(alloc)?),
        None => {
            if !has_issuer_value(entries) {
                return Err(Fault::Obstacle(Obstacle::Identifier));
            }
            Ok(issuer_value(alloc, entries)?)
        }
    }
}

/// Refuses more hosts than are copied.
#[tactic(auto, using(crate::proofs::CommonNames::length_seen))]
fn few(hosts: &[SanType]) -> Result<(), Fault>
    ensures { Passes (refuse (nat_lt 16 (length (map alternative_name hosts.now))) CommonName) result }
{
    if MOST < hosts.len() {
        return Err(Fault::CommonName);
    }
    Ok(())
}

/// The hosts that the common names of the subject are.
#[tactic(auto, unfolding(crate::specs::CommonNames::common_hosts))]
fn common_hosts(
    alloc: Global,
    name: &Option<Name>,
    entries: &DistinguishedName,
) -> Result<Vec<SanType>, Fault>
    ensures { Gets (λ v. map alternative_name v.items) (common_hosts name.now entries.now) result }
{
    let Name::RdnSequence(parts) = subject_name(alloc, name, entries)?;
    let hosts = parts_hosts(alloc, parts.as_slice(), Vec::new(alloc))?;
    few(&hosts)?;
    Ok(hosts)
}

/// Whether the texts are the same, without the case of ASCII.
#[tactic(auto, using(path_names::proofs::Texts::decided))]
fn same_text(a: &[u8], b: &[u8]) -> bool
    ensures { result ≡ same_text a.now b.now }
{
    a.eq_ignore_ascii_case(b)
}

fn is_same_host(host: &SanType, name: &SanType) -> bool
    ensures { result ≡ is_same_host (alternative_name host.now) (alternative_name name.now) }
{
    match (host, name) {
        (SanType::DnsName(a), SanType::DnsName(b)) => {
            same_text(a.as_str().as_bytes(), b.as_str().as_bytes())
        }
        _ => false,
    }
}

fn some_same(names: &[SanType], host: &SanType) -> bool
    ensures { result ≡ list_any (λ n. is_same_host (alternative_name host.now) (alternative_name n)) names.now }
{
    names.iter().any(|name| is_same_host(host, name))
}

/// Whether the host is among the names.
#[tactic(auto, using(crate::proofs::CommonNames::host_seen))]
fn has_host(names: &[SanType], host: &SanType) -> bool
    ensures { result ≡ list_any (is_same_host (alternative_name host.now)) (map alternative_name names.now) }
{
    some_same(names, host)
}

/// The names, and after them the hosts that aren't among them.
#[tactic(auto, unfolding(crate::specs::CommonNames::with_host))]
fn with_hosts(names: Vec<SanType>, hosts: Vec<SanType>) -> Result<Vec<SanType>, AllocError>
    ensures { IfOk result (λ all. map alternative_name all.items ≡ with_hosts (map alternative_name names.items) (map alternative_name hosts.items)) }
{
    let mut all = names;
    for host in hosts {
        if !has_host(&all, &host) {
            all.push(host)?;
        }
    }
    Ok(all)
}

fn with_host_names(
    params: CertificateParams,
    hosts: Vec<SanType>,
) -> Result<CertificateParams, AllocError>
    ensures { IfOk result (λ p. params_view p ≡ with_host_names (params_view params) (map alternative_name hosts.items)) }
{
    let names = with_hosts(params.subject_alt_names, hosts)?;
    Ok(CertificateParams {
        subject_alt_names: names,
        ..params
    })
}

/// The parameters with the common names of the subject among the alternative names, where they are copied.
/// Those of a request have to be allowed.
#[tactic(auto, unfolding(crate::specs::CommonNames::with_common_names))]
pub fn with_common_names(
    alloc: Global,
    is_copied: bool,
    taken: &RequestUse,
    name: &Option<Name>,
    params: CertificateParams,
) -> Result<CertificateParams, Fault>
    ensures { Gets params_view (with_common_names is_copied taken.now name.now (params_view params)) result }
{
    if !is_copied {
        return Ok(params);
    }
    let hosts = common_hosts(alloc, name, &params.distinguished_name)?;
    names_allowed(alloc, taken.takes_subject, &taken.allowed, &hosts)?;
    Ok(with_host_names(params, hosts)?)
}
