//! Which alternative names a request may ask for.
ghost use Rattle.std.specs.Prelude.{◌≡◌, Err, find, map};
ghost use Rattle.std.specs.Option.{option_map};
ghost use Rattle.rcgen_certificate.specs.SubjectAltNames.{address_octets};
ghost use Rattle.rcgen_text.specs.AlternativeNames.{alternative_name};
ghost use Rattle.shelf_fault.specs.Faults.{Passes};
ghost use Rattle.shelf_fault.specs.declared.fault.Fault.TheVariants.{RequestNotAllowed};
ghost use Rattle.shelf_params.specs.Allowed.{is_address_allowed, is_allowed, is_allowed_by, is_host_allowed, is_outside, is_wildcard, names_allowed, not_allowed};

use asn1_core::OctetString;
use path_names::{dns_within, mail_within, same_under};
use rcgen_issue::SanType;
use rcgen_text::{CidrSubnet, IpAddr, OtherNameValue};
use shelf_fault::{Fault, NameForm};
use std::alloc::Global;
use toml_format::{List, Subtree};

/// Before a name: the hosts one label below it (RFC 9525, 6.3).
const WILDCARD: &[u8] = b"*.";

fn is_wildcard(text: &[u8]) -> bool
    ensures { result ≡ is_wildcard text.now }
{
    text.starts_with(WILDCARD)
}

/// Whether the base has the host: a wildcard only where the base is one.
pub(crate) fn is_host_allowed(name: &[u8], base: &[u8]) -> bool
    ensures { result ≡ is_host_allowed name.now base.now }
{
    if is_wildcard(base) {
        is_wildcard(name) && dns_within(&name[2..], &base[2..])
    } else {
        !is_wildcard(name) && dns_within(name, base)
    }
}

fn is_address_allowed(address: &IpAddr, subnet: &CidrSubnet) -> bool
    ensures { result ≡ is_address_allowed address.now subnet.now }
{
    match (address, subnet) {
        (IpAddr::V4(address), CidrSubnet::V4(base, mask)) => same_under(address, base, mask),
        (IpAddr::V6(address), CidrSubnet::V6(base, mask)) => same_under(address, base, mask),
        _ => false,
    }
}

fn is_allowed_by(name: &SanType, subtree: &Subtree) -> bool
    ensures { result ≡ is_allowed_by (alternative_name name.now) subtree.now }
{
    match (name, subtree) {
        (SanType::DnsName(text), Subtree::Dns(base)) => {
            is_host_allowed(text.as_str().as_bytes(), base.as_bytes())
        }
        (SanType::Rfc822Name(text), Subtree::Email(base)) => {
            mail_within(text.as_str().as_bytes(), base.as_bytes())
        }
        (SanType::IpAddress(address), Subtree::Net(subnet)) => is_address_allowed(address, subnet),
        _ => false,
    }
}

/// Whether one of the subtrees has the name.
fn is_allowed(name: &SanType, subtrees: &[Subtree]) -> bool
    ensures { result ≡ is_allowed subtrees.now (alternative_name name.now) }
{
    subtrees.iter().any(|subtree| is_allowed_by(name, subtree))
}

/// The first of the names that is in none of the subtrees.
fn first_outside<'a>(names: &'a [SanType], subtrees: &[Subtree]) -> Option<&'a SanType>
    ensures { option_map (λ n. alternative_name n.now) result ≡ find (is_outside subtrees.now) (map alternative_name names.now) }
{
    for name in names {
        if !is_allowed(name, subtrees) {
            return Some(name);
        }
    }
    None
}

fn address_octets(address: &IpAddr) -> &[u8]
    ensures { result.now ≡ address_octets address.now }
{
    match address {
        IpAddr::V4(octets) => octets.as_slice(),
        IpAddr::V6(octets) => octets.as_slice(),
    }
}

/// Refuses a name of this form.
fn refuse(alloc: Global, form: NameForm, octets: &[u8]) -> Result<(), Fault>
    ensures { Passes (Err (RequestNotAllowed form octets.now)) result }
{
    let octets = Vec::from_slice(alloc, octets)?;
    Err(Fault::RequestNotAllowed(form, OctetString::new(octets)))
}

fn refuse_name(alloc: Global, name: &SanType) -> Result<(), Fault>
    ensures { Passes (Err (not_allowed (alternative_name name.now))) result }
{
    match name {
        SanType::DnsName(text) => refuse(alloc, NameForm::Dns, text.as_str().as_bytes()),
        SanType::Rfc822Name(text) => refuse(alloc, NameForm::Email, text.as_str().as_bytes()),
        SanType::URI(text) => refuse(alloc, NameForm::Uri, text.as_str().as_bytes()),
        SanType::IpAddress(address) => refuse(alloc, NameForm::Ip, address_octets(address)),
        SanType::OtherName((_, OtherNameValue::Utf8String(text))) => {
            refuse(alloc, NameForm::Other, text.as_str().as_bytes())
        }
    }
}

/// Refuses names that are taken, of which one isn't allowed. The time is that of the names times the
/// subtrees.
pub(crate) fn names_allowed(
    alloc: Global,
    is_taken: bool,
    allowed: &Option<List<Subtree>>,
    names: &[SanType],
) -> Result<(), Fault>
    ensures { Passes (names_allowed is_taken allowed.now (map alternative_name names.now)) result }
{
    if !is_taken {
        return Ok(());
    }
    let Some(subtrees) = allowed else {
        return Ok(());
    };
    match first_outside(names, subtrees.as_slice()) {
        Some(name) => refuse_name(alloc, name),
        None => Ok(()),
    }
}
