//! Electronic mail addresses (RFC 5280, 4.2.1.10 and 7.5).
ghost use Rattle.std.specs.Prelude.{◌≡◌, ◌≤◌, length, not};
ghost use Rattle.std.specs.List.{after_last, list_any, suffix_len};
ghost use Rattle.path_names.specs.Hosts.{host_part, is_at, is_mail_base, is_mailbox, local_part, mail_within, same_mailbox};

use crate::host::{host_within, is_host, is_host_base};
use crate::text::same_text;

fn has_at(text: &[u8]) -> bool
    ensures { result ≡ list_any is_at text.now }
{
    text.iter().any(|c| *c == b'@')
}

/// How many octets come after the last @, all where there is none.
#[tactic(auto, using(crate::proofs::Texts::host_fits))]
fn host_len(text: &[u8]) -> usize
    ensures len { result ≡ suffix_len (λ c. not (is_at c)) text.now }
    ensures bound { result ≤ length text.now }
{
    text.iter().rev().take_while(|c| **c != b'@').count()
}

/// What comes before the last @, nothing where there is none.
pub(crate) fn local_part(address: &[u8]) -> &[u8]
    ensures { result.now ≡ local_part address.now }
{
    let behind = host_len(address);
    &address[..(address.len() - behind).saturating_sub(1)]
}

/// What comes after the last @, all where there is none.
pub(crate) fn behind_at(text: &[u8]) -> &[u8]
    ensures { result.now ≡ after_last is_at text.now }
{
    &text[text.len() - host_len(text)..]
}

/// Whether the text is a local part, an @ and a host.
pub(crate) fn is_mailbox(address: &[u8]) -> bool
    ensures { result ≡ is_mailbox address.now }
{
    has_at(address) && !local_part(address).is_empty() && is_host(behind_at(address))
}

/// Whether the text is one that mailboxes are held against.
pub(crate) fn is_mail_base(base: &[u8]) -> bool
    ensures { result ≡ is_mail_base base.now }
{
    is_mailbox(base) || is_host_base(base)
}

fn same_mailbox(a: &[u8], b: &[u8]) -> bool
    ensures { result ≡ same_mailbox a.now b.now }
{
    local_part(a) == local_part(b) && same_text(behind_at(a), behind_at(b))
}

/// Whether the base has the mailbox: as the same one, as one of a host, or as one of a domain's
/// hosts.
pub fn mail_within(address: &[u8], base: &[u8]) -> bool
    ensures { result ≡ mail_within address.now base.now }
{
    if has_at(base) {
        same_mailbox(address, base)
    } else {
        host_within(behind_at(address), base)
    }
}
