//! Alternative names that are there twice.
ghost use Rattle.std.specs.Prelude.{◌≡◌, IfOk, map};
ghost use Rattle.std.specs.Option.{option_map};
ghost use Rattle.pkix_rules.specs.Repeated.{repeats_form, repeats_name, text_at, texts_of};

use crate::entry::are_distinct_octets;
use crate::general::{address_in, host_in, mailbox_in, uri_in};
use asn1_core::OutOfMemory;
use pkix_name::GeneralName;
use std::alloc::Global;

/// The forms of names that are texts or octets.
#[derive(Clone, Copy, Debug, PartialEq, Eq)]
pub(crate) enum TextForm {
    Host,
    Mailbox,
    Location,
    Address,
}

/// What the name has, where it is of the form.
fn text_at(name: &GeneralName, form: TextForm) -> Option<&[u8]>
    ensures { option_map (λ t. t.now) result ≡ text_at form name.now }
{
    match form {
        TextForm::Host => host_in(name),
        TextForm::Mailbox => mailbox_in(name),
        TextForm::Location => uri_in(name),
        TextForm::Address => address_in(name),
    }
}

/// What the names of the form have, in order.
fn texts_of(alloc: Global, names: &[GeneralName], form: TextForm) -> Result<Vec<&[u8]>, OutOfMemory>
    ensures { IfOk result (λ texts. map (λ t. t.now) texts.items ≡ texts_of form names.now) }
{
    let mut texts = Vec::new(alloc);
    for name in names {
        if let Some(text) = text_at(name, form) {
            texts.push(text)?;
        }
    }
    Ok(texts)
}

/// Whether two of the form are the same. The time is that of sorting them.
fn repeats_form(alloc: Global, names: &[GeneralName], form: TextForm) -> Result<bool, OutOfMemory>
    ensures { IfOk result (λ b. b ≡ repeats_form form names.now) }
{
    let texts = texts_of(alloc, names, form)?;
    let distinct = are_distinct_octets(texts);
    Ok(!distinct)
}

/// Whether two names are the same, octet by octet.
#[tactic(auto, unfolding(crate::specs::Repeated::repeats_name))]
pub(crate) fn repeats_name(alloc: Global, names: &[GeneralName]) -> Result<bool, OutOfMemory>
    ensures { IfOk result (λ b. b ≡ repeats_name names.now) }
{
    let host = repeats_form(alloc, names, TextForm::Host)?;
    let mailbox = repeats_form(alloc, names, TextForm::Mailbox)?;
    let location = repeats_form(alloc, names, TextForm::Location)?;
    let address = repeats_form(alloc, names, TextForm::Address)?;
    Ok(host || mailbox || location || address)
}
