//! URIs (RFC 3986), as a certificate holds them.
ghost use Rattle.std.specs.Prelude.{◌≡◌, ◌≤◌, length};
ghost use Rattle.std.specs.List.{list_any, position_or_len};
ghost use Rattle.host_name.specs.Hosts.{is_colon};
ghost use Rattle.name_rules.specs.Uris.{after_scheme, ends_host, has_uri_fault, is_no_uri_character, lacks_host, lacks_server, may_lack_host, same_scheme, scheme, starts_empty};

use host_name::is_absolute;

/// What may be wrong with a URI.
#[derive(Clone, Copy, Debug, PartialEq, Eq)]
pub enum UriFault {
    /// A blank, a control character or one outside of ASCII (RFC 3986, 2).
    Character,
    /// It has no scheme, or nothing after it (RFC 5280, 4.2.1.6).
    Relative,
    /// It has an authority without a host (RFC 5280, 4.2.1.6).
    NoHost,
    /// The same, but of LDAP, where clients may know the host (RFC 5280, 4.2.1.13), and of files, which may have none (RFC 8089, 2).
    NoServer,
}

fn is_no_uri_character(c: u8) -> bool
    ensures { result ≡ is_no_uri_character c }
{
    c <= 32 || 127 <= c
}

fn has_odd_character(text: &[u8]) -> bool
    ensures { result ≡ list_any is_no_uri_character text.now }
{
    text.iter().any(|c| is_no_uri_character(*c))
}

/// Where the first colon is, or the end where there is none.
#[tactic(auto, using(crate::proofs::Places::place_fits))]
fn colon_place(text: &[u8]) -> usize
    ensures place { result ≡ position_or_len is_colon text.now }
    ensures bound { result ≤ length text.now }
{
    text.iter().take_while(|c| **c != b':').count()
}

/// From the first colon on.
fn after_scheme(text: &[u8]) -> &[u8]
    ensures { result.now ≡ after_scheme text.now }
{
    &text[colon_place(text)..]
}

fn ends_host(c: u8) -> bool
    ensures { result ≡ ends_host c }
{
    c == b'/' || c == b'?' || c == b'#' || c == b':'
}

fn starts_empty(authority: &[u8]) -> bool
    ensures { result ≡ starts_empty authority.now }
{
    match authority {
        [] => true,
        [c, ..] => ends_host(*c),
    }
}

fn lacks_host(text: &[u8]) -> bool
    ensures { result ≡ lacks_host text.now }
{
    let rest = after_scheme(text);
    rest.starts_with(b"://") && starts_empty(&rest[3..])
}

/// The scheme.
fn scheme(text: &[u8]) -> &[u8]
    ensures { result.now ≡ scheme text.now }
{
    &text[..colon_place(text)]
}

/// Whether the schemes are the same, without the case of ASCII.
#[tactic(auto, using(crate::proofs::Places::decided))]
fn same_scheme(a: &[u8], b: &[u8]) -> bool
    ensures { result ≡ same_scheme a.now b.now }
{
    a.eq_ignore_ascii_case(b)
}

fn may_lack_host(scheme: &[u8]) -> bool
    ensures { result ≡ may_lack_host scheme.now }
{
    same_scheme(scheme, b"ldap") || same_scheme(scheme, b"ldaps") || same_scheme(scheme, b"file")
}

fn lacks_server(text: &[u8]) -> bool
    ensures { result ≡ lacks_server text.now }
{
    lacks_host(text) && !may_lack_host(scheme(text))
}

/// Whether the URI has that fault. The time is linear in its length.
#[tactic(auto, unfolding(crate::specs::Uris::has_uri_fault))]
pub fn has_uri_fault(text: &[u8], fault: UriFault) -> bool
    ensures { result ≡ has_uri_fault fault text.now }
{
    match fault {
        UriFault::Character => has_odd_character(text),
        UriFault::Relative => !is_absolute(text),
        UriFault::NoHost => lacks_host(text),
        UriFault::NoServer => lacks_server(text),
    }
}
