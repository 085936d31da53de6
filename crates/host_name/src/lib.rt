//! Names of hosts, mailboxes and URIs, as a certificate holds them (RFC 5280, 4.2.1.6).
#![tactic(auto)]

ghost use Rattle.std.specs.Prelude.{◌≡◌, ◌≤◌, length, true};
ghost use Rattle.std.specs.List.{list_all, position_or_len, slice_split};
ghost use Rattle.host_name.specs.Hosts.{ends_in_number, is_absolute, is_at, is_colon, is_dot, is_host, is_label, is_label_character, is_local_character};
ghost use Rattle.host_name.specs.Hosts.{is_local_part, is_mailbox, is_name, is_scheme, is_scheme_character, without_wildcard};

/// Before a name: the hosts one label below it (RFC 9525, 6.3).
const WILDCARD: &[u8] = b"*.";

/// Octets of a local part beside letters and digits (RFC 5322, 3.2.3), and the dot between two atoms.
const ATOM_SIGNS: &[u8] = b"!#$%&'*+-./=?^_`{|}~";

fn is_label_character(c: u8) -> bool
    ensures { result ≡ is_label_character c }
{
    c.is_ascii_alphanumeric() || c == b'-' || c == b'_'
}

fn are_label_characters(label: &[u8]) -> bool
    ensures { result ≡ list_all is_label_character label.now }
{
    label.iter().all(|c| is_label_character(*c))
}

/// Whether the text is one label (RFC 1034, 3.1 and 3.5).
fn is_label(label: &[u8]) -> bool
    ensures { result ≡ is_label label.now }
{
    !label.is_empty()
        && label.len() <= 63
        && are_label_characters(label)
        && !label.starts_with(b"-")
        && !label.ends_with(b"-")
}

fn are_labels(text: &[u8]) -> bool
    ensures { result ≡ list_all is_label (slice_split is_dot text.now) }
{
    text.split(|c| *c == b'.').all(|label| is_label(label))
}

/// Whether the last label has digits alone.
fn ends_in_number(text: &[u8]) -> bool
    ensures { result ≡ ends_in_number true text.now }
{
    let mut digits = true;
    for octet in text {
        digits = *octet == b'.' || (digits && octet.is_ascii_digit());
    }
    digits
}

fn is_name(text: &[u8]) -> bool
    ensures { result ≡ is_name text.now }
{
    are_labels(text) && !ends_in_number(text)
}

fn without_wildcard(text: &[u8]) -> &[u8]
    ensures { result.now ≡ without_wildcard text.now }
{
    if text.starts_with(WILDCARD) {
        &text[2..]
    } else {
        text
    }
}

/// Whether a host may have the name, or the hosts below one where it begins with `*.`: at most 253 octets, labels of
/// 1 to 63 letters, digits, hyphens and underscores with no hyphen at either end (RFC 1034, 3.1 and 3.5), the last
/// one no number, as in an address (RFC 1123, 2.1).
#[tactic(auto, unfolding(crate::specs::Hosts::is_host))]
pub fn is_host(text: &[u8]) -> bool
    ensures { result ≡ is_host text.now }
{
    text.len() <= 253 && is_name(without_wildcard(text))
}

fn is_local_character(c: u8) -> bool
    ensures { result ≡ is_local_character c }
{
    c.is_ascii_alphanumeric() || ATOM_SIGNS.contains(&c)
}

fn are_local_characters(text: &[u8]) -> bool
    ensures { result ≡ list_all is_local_character text.now }
{
    text.iter().all(|c| is_local_character(*c))
}

fn is_local_part(text: &[u8]) -> bool
    ensures { result ≡ is_local_part text.now }
{
    !text.is_empty() && text.len() <= 64 && are_local_characters(text)
}

/// Where the first @ is, or the end where there is none.
#[tactic(auto, using(crate::proofs::Places::place_fits))]
fn at_place(text: &[u8]) -> usize
    ensures place { result ≡ position_or_len is_at text.now }
    ensures bound { result ≤ length text.now }
{
    text.iter().take_while(|c| **c != b'@').count()
}

/// Whether the text is a mailbox without quotes: a local part of 1 to 64 octets, an @ and the name of a host
/// (RFC 5321, 4.1.2).
#[tactic(auto, unfolding(crate::specs::Hosts::is_mailbox))]
pub fn is_mailbox(text: &[u8]) -> bool
    ensures { result ≡ is_mailbox text.now }
{
    let at = at_place(text);
    at < text.len() && is_local_part(&text[..at]) && is_name(&text[at + 1..])
}

fn is_scheme_character(c: u8) -> bool
    ensures { result ≡ is_scheme_character c }
{
    c.is_ascii_alphanumeric() || c == b'+' || c == b'-' || c == b'.'
}

fn are_scheme_characters(text: &[u8]) -> bool
    ensures { result ≡ list_all is_scheme_character text.now }
{
    text.iter().all(|c| is_scheme_character(*c))
}

fn is_scheme(text: &[u8]) -> bool
    ensures { result ≡ is_scheme text.now }
{
    let [first, rest @ ..] = text else {
        return false;
    };
    first.is_ascii_alphabetic() && are_scheme_characters(rest)
}

/// Where the first colon is, or the end where there is none.
#[tactic(auto, using(crate::proofs::Places::place_fits))]
fn colon_place(text: &[u8]) -> usize
    ensures place { result ≡ position_or_len is_colon text.now }
    ensures bound { result ≤ length text.now }
{
    text.iter().take_while(|c| **c != b':').count()
}

/// Whether the text begins as a URI that isn't relative: a scheme, a colon and something after it (RFC 3986, 3).
#[tactic(auto, unfolding(crate::specs::Hosts::is_absolute))]
pub fn is_absolute(text: &[u8]) -> bool
    ensures { result ≡ is_absolute text.now }
{
    let colon = colon_place(text);
    colon < text.len() && colon + 1 < text.len() && is_scheme(&text[..colon])
}
