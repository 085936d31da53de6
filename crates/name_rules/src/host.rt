//! Domain names, as a dNSName holds them.
ghost use Rattle.std.specs.Prelude.{◌≡◌, true};
ghost use Rattle.std.specs.List.{list_any, slice_split};
ghost use Rattle.host_name.specs.Hosts.{ends_in_number, is_dot, without_wildcard};
ghost use Rattle.name_rules.specs.Hosts.{has_host_fault, has_label_fault, is_asterisk, is_host_character, is_mail_base, is_numbered, is_odd_character, is_top_wildcard, is_underscore, without_dot};

use host_name::{is_host, is_mailbox};

/// Before a name: the hosts one label below it (RFC 9525, 6.3).
const WILDCARD: &[u8] = b"*.";

/// What may be wrong with a domain name.
#[derive(Clone, Copy, Debug, PartialEq, Eq)]
pub enum HostFault {
    /// A label without octets: the name is empty, begins or ends with a dot, or has two dots in a row (RFC 1034, 3.5).
    EmptyLabel,
    /// A character other than letters, digits, hyphens, underscores, dots and asterisks (RFC 1034, 3.5).
    Character,
    /// An underscore (RFC 1034, 3.5).
    Underscore,
    /// A label with a hyphen at an end (RFC 1034, 3.5).
    Hyphen,
    /// A label of more than 63 octets (RFC 1034, 3.1).
    LongLabel,
    /// More than 253 octets (RFC 1034, 3.1).
    LongName,
    /// An asterisk that isn't the whole first label (RFC 9525, 6.3).
    Wildcard,
    /// A wildcard for the names below one label: a top-level domain (RFC 6125, 7.2).
    TopWildcard,
    /// The last label is a number, as in an address (RFC 1123, 2.1).
    Address,
}

fn is_host_character(c: u8) -> bool
    ensures { result ≡ is_host_character c }
{
    c.is_ascii_alphanumeric() || c == b'-' || c == b'_' || c == b'.' || c == b'*'
}

fn is_odd_character(c: u8) -> bool
    ensures { result ≡ is_odd_character c }
{
    !is_host_character(c)
}

fn has_odd_character(text: &[u8]) -> bool
    ensures { result ≡ list_any is_odd_character text.now }
{
    text.iter().any(|c| is_odd_character(*c))
}

fn has_underscore(text: &[u8]) -> bool
    ensures { result ≡ list_any is_underscore text.now }
{
    text.iter().any(|c| *c == b'_')
}

fn has_asterisk(text: &[u8]) -> bool
    ensures { result ≡ list_any is_asterisk text.now }
{
    text.iter().any(|c| *c == b'*')
}

fn without_wildcard(text: &[u8]) -> &[u8]
    ensures { result.now ≡ without_wildcard text.now }
{
    if text.starts_with(WILDCARD) {
        &text[2..]
    } else {
        text
    }
}

/// Whether the last label has only digits, or is empty.
fn ends_in_number(text: &[u8]) -> bool
    ensures { result ≡ ends_in_number true text.now }
{
    let mut digits = true;
    for octet in text {
        digits = *octet == b'.' || (digits && octet.is_ascii_digit());
    }
    digits
}

fn is_dot(c: u8) -> bool
    ensures { result ≡ is_dot c }
{
    c == b'.'
}

fn has_dot(text: &[u8]) -> bool
    ensures { result ≡ list_any is_dot text.now }
{
    text.iter().any(|c| is_dot(*c))
}

fn is_top_wildcard(text: &[u8]) -> bool
    ensures { result ≡ is_top_wildcard text.now }
{
    text.starts_with(WILDCARD) && !has_dot(without_wildcard(text))
}

fn is_numbered(text: &[u8]) -> bool
    ensures { result ≡ is_numbered text.now }
{
    !text.is_empty() && !text.ends_with(b".") && ends_in_number(text)
}

fn has_label_fault(label: &[u8], fault: HostFault) -> bool
    ensures { result ≡ has_label_fault fault label.now }
{
    match fault {
        HostFault::EmptyLabel => label.is_empty(),
        HostFault::Hyphen => label.starts_with(b"-") || label.ends_with(b"-"),
        HostFault::LongLabel => label.len() > 63,
        HostFault::Character => false,
        HostFault::Underscore => false,
        HostFault::LongName => false,
        HostFault::Wildcard => false,
        HostFault::TopWildcard => false,
        HostFault::Address => false,
    }
}

fn has_bad_label(text: &[u8], fault: HostFault) -> bool
    ensures { result ≡ list_any (has_label_fault fault) (slice_split is_dot text.now) }
{
    text.split(|c| *c == b'.')
        .any(|label| has_label_fault(label, fault))
}

/// Whether the domain name has that fault. The time is linear in its length.
#[tactic(auto, unfolding(crate::specs::Hosts::has_host_fault))]
pub fn has_host_fault(text: &[u8], fault: HostFault) -> bool
    ensures { result ≡ has_host_fault fault text.now }
{
    match fault {
        HostFault::EmptyLabel => has_bad_label(text, HostFault::EmptyLabel),
        HostFault::Hyphen => has_bad_label(text, HostFault::Hyphen),
        HostFault::LongLabel => has_bad_label(text, HostFault::LongLabel),
        HostFault::Character => has_odd_character(text),
        HostFault::Underscore => has_underscore(text),
        HostFault::LongName => text.len() > 253,
        HostFault::Wildcard => has_asterisk(without_wildcard(text)),
        HostFault::TopWildcard => is_top_wildcard(text),
        HostFault::Address => is_numbered(text),
    }
}

fn without_dot(text: &[u8]) -> &[u8]
    ensures { result.now ≡ without_dot text.now }
{
    match text {
        [b'.', rest @ ..] => rest,
        _ => text,
    }
}

/// Whether the text is a subtree of mailboxes: a mailbox, a host, or a dot and a host (RFC 5280, 4.2.1.10).
#[tactic(auto, unfolding(crate::specs::Hosts::is_mail_base))]
pub fn is_mail_base(text: &[u8]) -> bool
    ensures { result ≡ is_mail_base text.now }
{
    is_mailbox(text) || is_host(without_dot(text))
}
