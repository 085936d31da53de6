//! What may be wrong with general names (RFC 5280, 4.2.1.6).
ghost use Rattle.std.specs.Prelude.{◌≡◌};
ghost use Rattle.std.specs.List.{list_any};
ghost use Rattle.std.specs.Option.{option_map};
ghost use Rattle.name_rules.specs.Controls.{has_control};
ghost use Rattle.pkix_rules.specs.Generals.{has_principal, is_empty_other, is_empty_text, is_principal, other_type, other_value};
ghost use Rattle.pkix_rules.specs.Generals.{address_in, begins_with_period, has_bad_address, has_bad_host, has_bad_mailbox, has_bad_uri, host_in, is_bad_address, is_bad_host, is_bad_location, is_bad_mailbox, is_bad_uri, is_controlled, is_odd_host_base, is_odd_mail_base, is_odd_network, is_so, mailbox_in, uri_in};

use crate::extension::is_among;
use crate::identifiers::PRINCIPAL_NAMES;
use host_name::is_mailbox;
use name_rules::{HostFault, UriFault, has_control, has_host_fault, has_uri_fault, is_mail_base};
use pkix_name::GeneralName;

pub(crate) fn host_in(name: &GeneralName) -> Option<&[u8]>
    ensures { option_map (λ t. t.now) result ≡ host_in name.now }
{
    match name {
        GeneralName::DnsName(text) => Some(text.as_bytes()),
        GeneralName::OtherName(_) => None,
        GeneralName::Rfc822Name(_) => None,
        GeneralName::X400Address(_) => None,
        GeneralName::DirectoryName(_) => None,
        GeneralName::EdiPartyName(_) => None,
        GeneralName::Uri(_) => None,
        GeneralName::IpAddress(_) => None,
        GeneralName::RegisteredId(_) => None,
    }
}

pub(crate) fn mailbox_in(name: &GeneralName) -> Option<&[u8]>
    ensures { option_map (λ t. t.now) result ≡ mailbox_in name.now }
{
    match name {
        GeneralName::Rfc822Name(text) => Some(text.as_bytes()),
        GeneralName::OtherName(_) => None,
        GeneralName::DnsName(_) => None,
        GeneralName::X400Address(_) => None,
        GeneralName::DirectoryName(_) => None,
        GeneralName::EdiPartyName(_) => None,
        GeneralName::Uri(_) => None,
        GeneralName::IpAddress(_) => None,
        GeneralName::RegisteredId(_) => None,
    }
}

pub(crate) fn uri_in(name: &GeneralName) -> Option<&[u8]>
    ensures { option_map (λ t. t.now) result ≡ uri_in name.now }
{
    match name {
        GeneralName::Uri(text) => Some(text.as_bytes()),
        GeneralName::OtherName(_) => None,
        GeneralName::Rfc822Name(_) => None,
        GeneralName::DnsName(_) => None,
        GeneralName::X400Address(_) => None,
        GeneralName::DirectoryName(_) => None,
        GeneralName::EdiPartyName(_) => None,
        GeneralName::IpAddress(_) => None,
        GeneralName::RegisteredId(_) => None,
    }
}

pub(crate) fn address_in(name: &GeneralName) -> Option<&[u8]>
    ensures { option_map (λ t. t.now) result ≡ address_in name.now }
{
    match name {
        GeneralName::IpAddress(octets) => Some(octets.as_slice()),
        GeneralName::OtherName(_) => None,
        GeneralName::Rfc822Name(_) => None,
        GeneralName::DnsName(_) => None,
        GeneralName::X400Address(_) => None,
        GeneralName::DirectoryName(_) => None,
        GeneralName::EdiPartyName(_) => None,
        GeneralName::Uri(_) => None,
        GeneralName::RegisteredId(_) => None,
    }
}

fn is_bad_host(name: &GeneralName, fault: HostFault) -> bool
    ensures { result ≡ is_bad_host fault name.now }
{
    match host_in(name) {
        None => false,
        Some(text) => has_host_fault(text, fault),
    }
}

/// Whether that is wrong with one of the domain names.
pub(crate) fn has_bad_host(names: &[GeneralName], fault: HostFault) -> bool
    ensures { result ≡ has_bad_host fault names.now }
{
    names.iter().any(|name| is_bad_host(name, fault))
}

fn is_bad_mailbox(name: &GeneralName) -> bool
    ensures { result ≡ is_bad_mailbox name.now }
{
    match mailbox_in(name) {
        None => false,
        Some(text) => !is_mailbox(text),
    }
}

/// Whether one of the e-mail addresses is no mailbox.
pub(crate) fn has_bad_mailbox(names: &[GeneralName]) -> bool
    ensures { result ≡ has_bad_mailbox names.now }
{
    names.iter().any(|name| is_bad_mailbox(name))
}

fn is_bad_uri(name: &GeneralName, fault: UriFault) -> bool
    ensures { result ≡ is_bad_uri fault name.now }
{
    match uri_in(name) {
        None => false,
        Some(text) => has_uri_fault(text, fault),
    }
}

/// Whether that is wrong with one of the URIs.
pub(crate) fn has_bad_uri(names: &[GeneralName], fault: UriFault) -> bool
    ensures { result ≡ has_bad_uri fault names.now }
{
    names.iter().any(|name| is_bad_uri(name, fault))
}

fn is_bad_address(name: &GeneralName) -> bool
    ensures { result ≡ is_bad_address name.now }
{
    match address_in(name) {
        None => false,
        Some(octets) => octets.len() != 4 && octets.len() != 16,
    }
}

/// Whether one of the addresses has neither 4 octets nor 16.
pub(crate) fn has_bad_address(names: &[GeneralName]) -> bool
    ensures { result ≡ has_bad_address names.now }
{
    names.iter().any(|name| is_bad_address(name))
}

/// The type of another name, where it is of that form.
fn other_type(name: &GeneralName) -> Option<&[u32]>
    ensures { option_map (λ t. t.now) result ≡ other_type name.now }
{
    match name {
        GeneralName::OtherName(other) => Some(other.type_id.arcs()),
        GeneralName::Rfc822Name(_) => None,
        GeneralName::DnsName(_) => None,
        GeneralName::X400Address(_) => None,
        GeneralName::DirectoryName(_) => None,
        GeneralName::EdiPartyName(_) => None,
        GeneralName::Uri(_) => None,
        GeneralName::IpAddress(_) => None,
        GeneralName::RegisteredId(_) => None,
    }
}

fn is_principal(name: &GeneralName) -> bool
    ensures { result ≡ is_principal name.now }
{
    match other_type(name) {
        None => false,
        Some(id) => is_among(id, PRINCIPAL_NAMES),
    }
}

/// Whether one of them is a name by which Windows or Kerberos logs its holder on.
pub(crate) fn has_principal(names: &[GeneralName]) -> bool
    ensures { result ≡ has_principal names.now }
{
    names.iter().any(|name| is_principal(name))
}

/// The octets of the value of another name, where it is of that form.
fn other_value(name: &GeneralName) -> Option<&[u8]>
    ensures { option_map (λ v. v.now) result ≡ other_value name.now }
{
    match name {
        GeneralName::OtherName(other) => Some(other.value.as_bytes()),
        GeneralName::Rfc822Name(_) => None,
        GeneralName::DnsName(_) => None,
        GeneralName::X400Address(_) => None,
        GeneralName::DirectoryName(_) => None,
        GeneralName::EdiPartyName(_) => None,
        GeneralName::Uri(_) => None,
        GeneralName::IpAddress(_) => None,
        GeneralName::RegisteredId(_) => None,
    }
}

/// Whether the octets are a UTF8String or IA5String without characters.
fn is_empty_text(octets: &[u8]) -> bool
    ensures { result ≡ is_empty_text octets.now }
{
    octets == [12, 0].as_slice() || octets == [22, 0].as_slice()
}

fn is_empty_other(name: &GeneralName) -> bool
    ensures { result ≡ is_empty_other name.now }
{
    match other_value(name) {
        None => false,
        Some(octets) => is_empty_text(octets),
    }
}

/// Whether the text of one of the other names is empty.
pub(crate) fn has_empty_other(names: &[GeneralName]) -> bool
    ensures { result ≡ list_any is_empty_other names.now }
{
    names.iter().any(|name| is_empty_other(name))
}

fn has_control_in(text: Option<&[u8]>) -> bool
    ensures { result ≡ is_so has_control (option_map (λ t. t.now) text.entry) }
{
    match text {
        None => false,
        Some(text) => has_control(text),
    }
}

fn is_controlled(name: &GeneralName) -> bool
    ensures { result ≡ is_controlled name.now }
{
    has_control_in(host_in(name))
        || has_control_in(mailbox_in(name))
        || has_control_in(uri_in(name))
}

/// Whether one of the texts has a control character.
pub(crate) fn have_control(names: &[GeneralName]) -> bool
    ensures { result ≡ list_any is_controlled names.now }
{
    names.iter().any(|name| is_controlled(name))
}

/// Whether the name is a URI from which nothing can be fetched: without a scheme, without a host, or with a character that no URI has.
pub(crate) fn is_bad_location(name: &GeneralName) -> bool
    ensures { result ≡ is_bad_location name.now }
{
    is_bad_uri(name, UriFault::Relative)
        || is_bad_uri(name, UriFault::NoServer)
        || is_bad_uri(name, UriFault::Character)
}

/// Whether one of them is.
pub(crate) fn has_bad_location(names: &[GeneralName]) -> bool
    ensures { result ≡ list_any is_bad_location names.now }
{
    names.iter().any(|name| is_bad_location(name))
}

/// Whether the subtree is one that no mailbox can be held against.
pub(crate) fn is_odd_mail_base(base: &GeneralName) -> bool
    ensures { result ≡ is_odd_mail_base base.now }
{
    match mailbox_in(base) {
        None => false,
        Some(text) => !is_mail_base(text),
    }
}

fn begins_with_period(text: &[u8]) -> bool
    ensures { result ≡ begins_with_period text.now }
{
    match text {
        [] => false,
        [first, ..] => *first == b'.',
    }
}

/// Whether the subtree is one of hosts and begins with a period.
pub(crate) fn is_odd_host_base(base: &GeneralName) -> bool
    ensures { result ≡ is_odd_host_base base.now }
{
    match host_in(base) {
        None => false,
        Some(text) => begins_with_period(text),
    }
}

/// Whether the subtree is a network of neither 8 octets nor 32.
pub(crate) fn is_odd_network(base: &GeneralName) -> bool
    ensures { result ≡ is_odd_network base.now }
{
    match address_in(base) {
        None => false,
        Some(octets) => octets.len() != 8 && octets.len() != 32,
    }
}
