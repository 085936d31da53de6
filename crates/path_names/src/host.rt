//! Hosts and the domains that they are in (RFC 5280, 4.2.1.10 and 7.2).
ghost use Rattle.std.specs.Prelude.{◌≡◌};
ghost use Rattle.std.specs.List.{list_all};
ghost use Rattle.path_names.specs.Hosts.{begins_with_period, dns_within, host_within, is_below, is_dns_base, is_host, is_host_base, is_label, is_label_character, without_period};

use crate::text::same_text;

fn is_label_character(c: u8) -> bool
    ensures { result ≡ is_label_character c }
{
    c.is_ascii_alphanumeric() || c == b'-' || c == b'_' || c == b'*'
}

fn are_label_characters(text: &[u8]) -> bool
    ensures { result ≡ list_all is_label_character text.now }
{
    text.iter().all(|c| is_label_character(*c))
}

fn is_label(label: &[u8]) -> bool
    ensures { result ≡ is_label label.now }
{
    !label.is_empty() && are_label_characters(label)
}

/// Whether the text is a host: labels of letters, digits and hyphens, with a period between two.
pub(crate) fn is_host(text: &[u8]) -> bool
    ensures { result ≡ is_host text.now }
{
    text.split(|c| *c == b'.').all(|label| is_label(label))
}

fn begins_with_period(text: &[u8]) -> bool
    ensures { result ≡ begins_with_period text.now }
{
    match text {
        [] => false,
        [first, ..] => *first == b'.',
    }
}

fn without_period(text: &[u8]) -> &[u8]
    ensures { result.now ≡ without_period text.now }
{
    let [first, rest @ ..] = text else {
        return text;
    };
    if *first == b'.' { rest } else { text }
}

/// Whether the text is a host, or a period and a host.
pub(crate) fn is_host_base(text: &[u8]) -> bool
    ensures { result ≡ is_host_base text.now }
{
    is_host(without_period(text))
}

/// Whether the host has something, a period and then the domain.
fn is_below(host: &[u8], domain: &[u8]) -> bool
    ensures { result ≡ is_below host.now domain.now }
{
    if host.len() <= domain.len() + 1 {
        return false;
    }
    let at = host.len() - domain.len();
    begins_with_period(&host[at - 1..]) && same_text(&host[at..], domain)
}

/// Whether the base has the host: as one of a domain's where it begins with a period, and else as
/// the same one.
pub(crate) fn host_within(host: &[u8], base: &[u8]) -> bool
    ensures { result ≡ host_within host.now base.now }
{
    if begins_with_period(base) {
        is_below(host, without_period(base))
    } else {
        same_text(host, base)
    }
}

/// Whether the text is one that DNS names are held against.
pub(crate) fn is_dns_base(base: &[u8]) -> bool
    ensures { result ≡ is_dns_base base.now }
{
    base.is_empty() || is_host_base(base)
}

/// Whether the base has the DNS name: the base with or without labels before it.
pub fn dns_within(name: &[u8], base: &[u8]) -> bool
    ensures { result ≡ dns_within name.now base.now }
{
    base.is_empty() || host_within(name, base) || is_below(name, without_period(base))
}
