//! The subtrees that name constraints state (RFC 5280, 4.2.1.10).
ghost use Rattle.std.specs.Prelude.{◌≡◌, List};
ghost use Rattle.std.specs.List.{list_any};
ghost use Rattle.pkix_cert.specs.declared.constraint.GeneralSubtree.{GeneralSubtree};
ghost use Rattle.path_names.specs.NameForms.{RespectsMatching, can_be_compared, form_number, is_excluded_by};
ghost use Rattle.path_names.specs.NameForms.{is_of_form, is_permitted_by, is_processed, is_unprocessed_by};
ghost use Rattle.path_names.specs.NameForms.{is_utf8_mailbox, is_within, name_within};

use crate::address::{ip_within, is_address, is_range};
use crate::host::{dns_within, is_dns_base, is_host, is_host_base};
use crate::mail::{is_mail_base, is_mailbox, mail_within};
use crate::name::{is_below_name, is_decided_below};
use crate::other::{has_utf8_mailbox, host_of_mailbox_within, is_mailbox_in};
use crate::uri::{uri_host, uri_within};
use pkix_cert::GeneralSubtree;
use pkix_name::GeneralName;

fn form_number(name: &GeneralName) -> u8
    ensures { result ≡ form_number name.now }
{
    match name {
        GeneralName::OtherName(_) => 0,
        GeneralName::Rfc822Name(_) => 1,
        GeneralName::DnsName(_) => 2,
        GeneralName::X400Address(_) => 3,
        GeneralName::DirectoryName(_) => 4,
        GeneralName::EdiPartyName(_) => 5,
        GeneralName::Uri(_) => 6,
        GeneralName::IpAddress(_) => 7,
        GeneralName::RegisteredId(_) => 8,
    }
}

fn is_utf8_mailbox(name: &GeneralName) -> bool
    ensures { result ≡ is_utf8_mailbox name.now }
{
    match name {
        GeneralName::OtherName(other) => has_utf8_mailbox(other),
        _ => false,
    }
}

/// Whether the subtree constrains names of this form: those of its own, and mailboxes in UTF-8 where
/// it constrains electronic mail addresses (RFC 9598, 6).
fn is_of_form(name: &GeneralName, subtree: &GeneralSubtree) -> bool
    ensures { result ≡ is_of_form name.now subtree.now }
{
    let form = form_number(&subtree.base);
    form_number(name) == form || (is_utf8_mailbox(name) && form == 1)
}

fn name_within(name: &GeneralName, base: &GeneralName) -> bool
    ensures { result ≡ name_within name.now base.now }
{
    match (name, base) {
        (GeneralName::DirectoryName(name), GeneralName::DirectoryName(base)) => {
            is_below_name(name, base)
        }
        (GeneralName::DnsName(name), GeneralName::DnsName(base)) => {
            dns_within(name.as_bytes(), base.as_bytes())
        }
        (GeneralName::Rfc822Name(address), GeneralName::Rfc822Name(base)) => {
            mail_within(address.as_bytes(), base.as_bytes())
        }
        (GeneralName::OtherName(other), GeneralName::Rfc822Name(base)) => {
            host_of_mailbox_within(other, base.as_bytes())
        }
        (GeneralName::Uri(uri), GeneralName::Uri(base)) => {
            uri_within(uri.as_bytes(), base.as_bytes())
        }
        (GeneralName::IpAddress(address), GeneralName::IpAddress(range)) => {
            ip_within(address.as_slice(), range.as_slice())
        }
        _ => false,
    }
}

/// Whether the subtree has the name (RFC 5280, 4.2.1.10). Never where they are of two forms, nor
/// for X.400 addresses, names of EDI parties, registered identifiers and names of other kinds, but for
/// mailboxes in UTF-8.
///
/// - Directory names: the base's parts match the name's first ones, as `names_match` has it.
/// - DNS names: the base with or without labels before it; each name is in the empty base.
/// - Electronic mail addresses: the same mailbox, all of the host that the base is, or all of the
///   hosts below it where it begins with a period.
/// - Mailboxes in UTF-8 (RFC 9598): the same, but none is in a base that is one mailbox.
/// - URIs: the host of the authority, which the base is, or which is below it where it begins with a
///   period.
/// - Addresses of IP: 4 or 16 octets, which are the base's first half where its second half, the mask,
///   has ones.
///
/// Hosts are compared without case, as they are written: the asterisk of a wildcard is a letter.
/// The subtree's distances aren't looked at: see `is_unprocessed_by`.
/// The time is linear in the octets of both, or for directory names that of `names_match`.
pub fn is_within(name: &GeneralName, subtree: &GeneralSubtree) -> bool
    ensures { result ≡ is_within name.now subtree.now }
{
    name_within(name, &subtree.base)
}

fn can_be_compared(name: &GeneralName, base: &GeneralName) -> bool
    ensures { result ≡ can_be_compared name.now base.now }
{
    match (name, base) {
        (GeneralName::DirectoryName(name), GeneralName::DirectoryName(base)) => {
            is_decided_below(name, base)
        }
        (GeneralName::DnsName(name), GeneralName::DnsName(base)) => {
            is_host(name.as_bytes()) && is_dns_base(base.as_bytes())
        }
        (GeneralName::Rfc822Name(address), GeneralName::Rfc822Name(base)) => {
            is_mailbox(address.as_bytes()) && is_mail_base(base.as_bytes())
        }
        (GeneralName::OtherName(other), GeneralName::Rfc822Name(base)) => {
            is_mailbox_in(other) && is_host_base(base.as_bytes())
        }
        (GeneralName::Uri(uri), GeneralName::Uri(base)) => {
            uri_host(uri.as_bytes()).is_some() && is_host_base(base.as_bytes())
        }
        (GeneralName::IpAddress(address), GeneralName::IpAddress(range)) => {
            is_address(address.as_slice()) && is_range(range.as_slice())
        }
        _ => false,
    }
}

fn is_processed(name: &GeneralName, subtree: &GeneralSubtree) -> bool
    ensures { result ≡ is_processed name.now subtree.now }
{
    can_be_compared(name, &subtree.base)
        && subtree.minimum.as_bytes() == [0].as_slice()
        && subtree.maximum.is_none()
}

/// Whether one of the subtrees is of the name's form and can't be held against it, so that the
/// certificate with the name has to be refused (RFC 5280, 4.2.1.10): the form isn't one of the five of
/// `is_within`, the subtree has a minimum that isn't 0 or a maximum, or the name or the base isn't
/// what its form asks for. A URI needs an authority with a fully qualified host. Of a directory name
/// the first part that doesn't match the base's has no text that can't be compared, nor has the
/// base's: one that is invalid, of characters that aren't known (a TeletexString beyond ASCII), or
/// not known to be in NFKC when it is mapped.
///
/// The time is that of `is_permitted_by`.
pub fn is_unprocessed_by(name: &GeneralName, subtrees: &[GeneralSubtree]) -> bool
    ensures { result ≡ is_unprocessed_by name.now subtrees.now }
{
    subtrees.iter().any(|subtree| is_of_form(name, subtree) && !is_processed(name, subtree))
}

fn has_form(name: &GeneralName, subtrees: &[GeneralSubtree]) -> bool
    ensures { result ≡ list_any (is_of_form name.now) subtrees.now }
{
    subtrees.iter().any(|subtree| is_of_form(name, subtree))
}

fn is_within_one(name: &GeneralName, subtrees: &[GeneralSubtree]) -> bool
    ensures { result ≡ list_any (is_within name.now) subtrees.now }
{
    subtrees.iter().any(|subtree| is_within(name, subtree))
}

/// Whether one of the subtrees has the name, or none is of its form (RFC 5280, 6.1.3 (b)).
///
/// The name is held against each of the subtrees at most once, as `is_within` does.
pub fn is_permitted_by(name: &GeneralName, subtrees: &[GeneralSubtree]) -> bool
    ensures { result ≡ is_permitted_by name.now subtrees.now }
{
    !has_form(name, subtrees) || is_within_one(name, subtrees)
}

/// Whether one of the subtrees has the name (RFC 5280, 6.1.3 (c)).
///
/// The time is that of `is_permitted_by`.
pub fn is_excluded_by(name: &GeneralName, subtrees: &[GeneralSubtree]) -> bool
    ensures { result ≡ is_excluded_by name.now subtrees.now }
{
    is_within_one(name, subtrees)
}

/// Of two directory names that are one neither is in a subtree, permitted, excluded or refused where
/// the other isn't.
pub fn matching_names_are_constrained_alike()
    ensures within { (t : GeneralSubtree) → RespectsMatching (λ name. is_within name t) }
    ensures permitted { (ts : List GeneralSubtree) → RespectsMatching (λ name. is_permitted_by name ts) }
    ensures excluded { (ts : List GeneralSubtree) → RespectsMatching (λ name. is_excluded_by name ts) }
    ensures unprocessed { (ts : List GeneralSubtree) → RespectsMatching (λ name. is_unprocessed_by name ts) }
{}
