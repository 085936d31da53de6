//! Mailboxes whose local part isn't of ASCII (RFC 9598).
ghost use Rattle.std.specs.Prelude.{◌≡◌};
ghost use Rattle.std.specs.Option.{option_map};
ghost use Rattle.der_tree.specs.Windows.{shown};
ghost use Rattle.path_names.specs.NameForms.{has_utf8_mailbox, host_of_mailbox_within, is_mailbox_in, mailbox_in, utf8_text};

use crate::host::host_within;
use crate::mail::{behind_at, is_mailbox};
use crate::text::is_utf8;
use asn1_core::Tag;
use der_tree::{Any, InstanceOf, Window, one_window};

/// Whether the name is of the kind id-on-SmtpUTF8Mailbox (RFC 9598, 3).
pub(crate) fn has_utf8_mailbox(other: &InstanceOf<Any>) -> bool
    ensures { result ≡ has_utf8_mailbox other.now }
{
    other.type_id.arcs() == [1, 3, 6, 1, 5, 5, 7, 8, 9].as_slice()
}

/// The octets of the UTF8String that the window shows.
fn utf8_text(window: Window<'_>) -> Option<&[u8]>
    ensures { option_map (λ octets. octets.now) result ≡ utf8_text (shown window.entry) }
{
    let octets = window.content();
    if !window.is_constructed() && window.tag() == Tag::UTF8_STRING && is_utf8(octets) {
        Some(octets)
    } else {
        None
    }
}

fn mailbox_in(other: &InstanceOf<Any>) -> Option<&[u8]>
    ensures { option_map (λ octets. octets.now) result ≡ mailbox_in other.now }
{
    if !has_utf8_mailbox(other) {
        return None;
    }
    utf8_text(one_window(other.value.as_bytes())?)
}

/// Whether the name is a mailbox whose host can be compared.
pub(crate) fn is_mailbox_in(other: &InstanceOf<Any>) -> bool
    ensures { result ≡ is_mailbox_in (mailbox_in other.now) }
{
    match mailbox_in(other) {
        Some(address) => is_mailbox(address),
        None => false,
    }
}

/// Whether the base has the host of the mailbox (RFC 9598, 6).
pub(crate) fn host_of_mailbox_within(other: &InstanceOf<Any>, base: &[u8]) -> bool
    ensures { result ≡ host_of_mailbox_within (mailbox_in other.now) base.now }
{
    match mailbox_in(other) {
        Some(address) => host_within(behind_at(address), base),
        None => false,
    }
}
