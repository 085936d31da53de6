//! Rules of alternative names (RFC 5280, 4.2.1.6).
ghost use Rattle.std.specs.Prelude.{◌≡◌, IfOk};
ghost use Rattle.pkix_rules.specs.AltNames.{alt_name_rules, host_form_rules, host_length_rules, is_empty_list, names_in, other_name_rules};

use crate::general::{
    has_bad_address, has_bad_host, has_bad_mailbox, has_bad_uri, has_empty_other, has_principal,
    have_control,
};
use crate::repeated::repeats_name;
use asn1_core::OutOfMemory;
use name_rules::{HostFault, UriFault};
use pkix_name::{GeneralName, GeneralNames};
use rule_table::{Rule, add, note};
use std::alloc::Global;

/// The names, none where there are no alternative names.
pub(crate) fn names_in(names: &Option<GeneralNames>) -> &[GeneralName]
    ensures { result.now ≡ names_in names.now }
{
    match names {
        None => &[],
        Some(names) => names.as_slice(),
    }
}

/// Whether they are there, and there is none.
fn is_empty_list(names: &Option<GeneralNames>) -> bool
    ensures { result ≡ is_empty_list names.now }
{
    match names {
        None => false,
        Some(names) => names.as_slice().is_empty(),
    }
}

/// Of what domain names are made of.
#[tactic(auto, unfolding(crate::specs::AltNames::host_form_rules))]
fn host_form_rules(alloc: Global, names: &[GeneralName]) -> Result<Vec<Rule>, OutOfMemory>
    ensures { IfOk result (λ v. v.items ≡ host_form_rules names.now) }
{
    let mut found = Vec::new(alloc);
    let empty = has_bad_host(names, HostFault::EmptyLabel);
    note(&mut found, Rule::DnsEmptyLabel, empty)?;
    let character = has_bad_host(names, HostFault::Character);
    note(&mut found, Rule::DnsCharacter, character)?;
    let underscore = has_bad_host(names, HostFault::Underscore);
    note(&mut found, Rule::DnsUnderscore, underscore)?;
    let hyphen = has_bad_host(names, HostFault::Hyphen);
    note(&mut found, Rule::DnsHyphen, hyphen)?;
    Ok(found)
}

/// Of the lengths of domain names, and of their ends.
#[tactic(auto, unfolding(crate::specs::AltNames::host_length_rules))]
fn host_length_rules(alloc: Global, names: &[GeneralName]) -> Result<Vec<Rule>, OutOfMemory>
    ensures { IfOk result (λ v. v.items ≡ host_length_rules names.now) }
{
    let mut found = Vec::new(alloc);
    let label = has_bad_host(names, HostFault::LongLabel);
    note(&mut found, Rule::DnsLongLabel, label)?;
    let whole = has_bad_host(names, HostFault::LongName);
    note(&mut found, Rule::DnsLongName, whole)?;
    let wildcard = has_bad_host(names, HostFault::Wildcard);
    note(&mut found, Rule::DnsWildcard, wildcard)?;
    let top = has_bad_host(names, HostFault::TopWildcard);
    note(&mut found, Rule::DnsTopWildcard, top)?;
    let address = has_bad_host(names, HostFault::Address);
    note(&mut found, Rule::DnsAddress, address)?;
    Ok(found)
}

/// Of other names.
#[tactic(auto, unfolding(crate::specs::AltNames::other_name_rules))]
fn other_name_rules(alloc: Global, names: &[GeneralName]) -> Result<Vec<Rule>, OutOfMemory>
    ensures { IfOk result (λ v. v.items ≡ other_name_rules names.now) }
{
    let mut found = Vec::new(alloc);
    note(&mut found, Rule::MailboxForm, has_bad_mailbox(names))?;
    let character = has_bad_uri(names, UriFault::Character);
    note(&mut found, Rule::UriCharacter, character)?;
    let relative = has_bad_uri(names, UriFault::Relative);
    note(&mut found, Rule::UriRelative, relative)?;
    let host = has_bad_uri(names, UriFault::NoHost);
    note(&mut found, Rule::UriWithoutHost, host)?;
    note(&mut found, Rule::AddressLength, has_bad_address(names))?;
    note(&mut found, Rule::PrincipalName, has_principal(names))?;
    note(&mut found, Rule::EmptyOtherName, has_empty_other(names))?;
    Ok(found)
}

/// The rules of alternative names that are broken, in order.
#[tactic(auto, unfolding(crate::specs::AltNames::alt_name_rules))]
pub(crate) fn alt_name_rules(
    alloc: Global,
    names: &Option<GeneralNames>,
) -> Result<Vec<Rule>, OutOfMemory>
    ensures { IfOk result (λ v. v.items ≡ alt_name_rules names.now) }
{
    let mut found = Vec::new(alloc);
    note(&mut found, Rule::EmptyAltNames, is_empty_list(names))?;
    note(
        &mut found,
        Rule::ControlCharacter,
        have_control(names_in(names)),
    )?;
    let others = host_form_rules(alloc, names_in(names))?;
    add(&mut found, others)?;
    let others = host_length_rules(alloc, names_in(names))?;
    add(&mut found, others)?;
    let others = other_name_rules(alloc, names_in(names))?;
    add(&mut found, others)?;
    let twice = repeats_name(alloc, names_in(names))?;
    note(&mut found, Rule::AltNameTwice, twice)?;
    Ok(found)
}
