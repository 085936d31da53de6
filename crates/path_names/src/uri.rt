//! The hosts of URIs (RFC 3986, 3; RFC 5280, 4.2.1.10 and 7.4).
ghost use Rattle.std.specs.Prelude.{◌≡◌, ◌≤◌, length};
ghost use Rattle.std.specs.List.{before_first, list_all, list_any, position_or_len, slice_split};
ghost use Rattle.std.specs.Option.{option_map};
ghost use Rattle.std.specs.Char.{is_ascii_digit};
ghost use Rattle.path_names.specs.Hosts.{are_triplets, authority_of, begins_with_two_digits, ends_authority, from_colon, full_host, host_of, is_colon};
ghost use Rattle.path_names.specs.Hosts.{is_digit_or_period, is_full_name, is_percent, is_period, is_port, is_regular, is_scheme, is_scheme_character};
ghost use Rattle.path_names.specs.Hosts.{is_user_character, is_user_info, uri_host, uri_within};

use crate::character::{Range, is_in};
use crate::host::{host_within, is_host};
use crate::mail::{behind_at, local_part};

/// The marks that may come before the last @ of an authority (RFC 3986, 3.2.1): ! $ % & ' ( ) * + ,
/// - . : ; = _ ~
const USER_MARKS: &[Range] = &[(33, 33), (36, 46), (58, 59), (61, 61), (95, 95), (126, 126)];

fn is_scheme_character(c: u8) -> bool
    ensures { result ≡ is_scheme_character c }
{
    c.is_ascii_alphanumeric() || c == b'+' || c == b'-' || c == b'.'
}

fn are_scheme_characters(text: &[u8]) -> bool
    ensures { result ≡ list_all is_scheme_character text.now }
{
    text.iter().all(|c| is_scheme_character(*c))
}

fn is_scheme(text: &[u8]) -> bool
    ensures { result ≡ is_scheme text.now }
{
    let [first, rest @ ..] = text else {
        return false;
    };
    first.is_ascii_alphabetic() && are_scheme_characters(rest)
}

#[tactic(auto, using(crate::proofs::Texts::place_fits))]
fn colon_at(text: &[u8]) -> usize
    ensures place { result ≡ position_or_len is_colon text.now }
    ensures bound { result ≤ length text.now }
{
    text.iter().take_while(|c| **c != b':').count()
}

fn before_colon(text: &[u8]) -> &[u8]
    ensures { result.now ≡ before_first is_colon text.now }
{
    &text[..colon_at(text)]
}

fn from_colon(text: &[u8]) -> &[u8]
    ensures { result.now ≡ from_colon text.now }
{
    &text[before_colon(text).len()..]
}

fn ends_authority(c: u8) -> bool
    ensures { result ≡ ends_authority c }
{
    c == b'/' || c == b'?' || c == b'#'
}

#[tactic(auto, using(crate::proofs::Texts::place_fits))]
fn authority_len(text: &[u8]) -> usize
    ensures place { result ≡ position_or_len ends_authority text.now }
    ensures bound { result ≤ length text.now }
{
    text.iter().take_while(|c| !ends_authority(**c)).count()
}

fn front_authority(text: &[u8]) -> &[u8]
    ensures { result.now ≡ before_first ends_authority text.now }
{
    &text[..authority_len(text)]
}

fn authority_of(uri: &[u8]) -> Option<&[u8]>
    ensures { option_map (λ x. x.now) result ≡ authority_of uri.now }
{
    let rest = from_colon(uri);
    if !is_scheme(before_colon(uri)) || !rest.starts_with(b"://") {
        return None;
    }
    Some(front_authority(&rest[3..]))
}

fn host_of(authority: &[u8]) -> &[u8]
    ensures { result.now ≡ host_of authority.now }
{
    before_colon(behind_at(authority))
}

fn is_user_character(c: u8) -> bool
    ensures { result ≡ is_user_character c }
{
    c.is_ascii_alphanumeric() || is_in(USER_MARKS, u32::from(c))
}

fn are_user_characters(text: &[u8]) -> bool
    ensures { result ≡ list_all is_user_character text.now }
{
    text.iter().all(|c| is_user_character(*c))
}

fn begins_with_two_digits(text: &[u8]) -> bool
    ensures { result ≡ begins_with_two_digits text.now }
{
    match text {
        [first, second, ..] => first.is_ascii_hexdigit() && second.is_ascii_hexdigit(),
        _ => false,
    }
}

/// Whether two hexadecimal digits are at the beginning, and after each percent sign.
fn each_has_two_digits(text: &[u8]) -> bool
    ensures { result ≡ list_all begins_with_two_digits (slice_split is_percent text.now) }
{
    text.split(|c| *c == b'%')
        .all(|part| begins_with_two_digits(part))
}

/// The same of a text that begins with a percent sign, where there is one (RFC 3986, 2.1).
fn are_triplets(text: &[u8]) -> bool
    ensures { result ≡ are_triplets text.now }
{
    let [_, rest @ ..] = text else {
        return true;
    };
    each_has_two_digits(rest)
}

#[tactic(auto, using(crate::proofs::Texts::place_fits))]
fn percent_at(text: &[u8]) -> usize
    ensures place { result ≡ position_or_len is_percent text.now }
    ensures bound { result ≤ length text.now }
{
    text.iter().take_while(|c| **c != b'%').count()
}

fn before_percent(text: &[u8]) -> &[u8]
    ensures { result.now ≡ before_first is_percent text.now }
{
    &text[..percent_at(text)]
}

/// Whether it may come before the last @ of an authority (RFC 3986, 3.2.1).
fn is_user_info(text: &[u8]) -> bool
    ensures { result ≡ is_user_info text.now }
{
    are_user_characters(text) && are_triplets(&text[before_percent(text).len()..])
}

fn are_digits(text: &[u8]) -> bool
    ensures { result ≡ list_all is_ascii_digit text.now }
{
    text.iter().all(|c| c.is_ascii_digit())
}

/// Whether it is nothing, or a colon and digits (RFC 3986, 3.2.3).
fn is_port(text: &[u8]) -> bool
    ensures { result ≡ is_port text.now }
{
    let [_, digits @ ..] = text else {
        return true;
    };
    are_digits(digits)
}

/// Whether there is nothing around the host that RFC 3986, 3.2 doesn't allow there.
fn is_regular(authority: &[u8]) -> bool
    ensures { result ≡ is_regular authority.now }
{
    is_user_info(local_part(authority)) && is_port(from_colon(behind_at(authority)))
}

fn has_period(text: &[u8]) -> bool
    ensures { result ≡ list_any is_period text.now }
{
    text.iter().any(|c| *c == b'.')
}

fn is_numeric(text: &[u8]) -> bool
    ensures { result ≡ list_all is_digit_or_period text.now }
{
    text.iter().all(|c| c.is_ascii_digit() || *c == b'.')
}

fn is_full_name(host: &[u8]) -> bool
    ensures { result ≡ is_full_name host.now }
{
    is_host(host) && has_period(host) && !is_numeric(host)
}

fn full_host(authority: &[u8]) -> Option<&[u8]>
    ensures { option_map (λ x. x.now) result ≡ full_host authority.now }
{
    let host = host_of(authority);
    if is_regular(authority) && is_full_name(host) {
        Some(host)
    } else {
        None
    }
}

/// The fully qualified name of the URI's host. None where it has no authority, or one that RFC 3986
/// doesn't allow, or this names its host by a single label or by an address.
pub(crate) fn uri_host(uri: &[u8]) -> Option<&[u8]>
    ensures { option_map (λ x. x.now) result ≡ uri_host uri.now }
{
    full_host(authority_of(uri)?)
}

/// Whether the base has the URI's host.
pub(crate) fn uri_within(uri: &[u8], base: &[u8]) -> bool
    ensures { result ≡ uri_within uri.now base.now }
{
    match uri_host(uri) {
        Some(host) => host_within(host, base),
        None => false,
    }
}
