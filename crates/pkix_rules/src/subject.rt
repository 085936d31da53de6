//! Rules of the subject and its extensions, of certificates and of what requests ask for (RFC 5280, 4.1.2.6, 4.2 and 4.2.1).
ghost use Rattle.std.specs.Prelude.{◌≡◌, IfOk};
ghost use Rattle.pkix_rules.specs.Subjects.{extension_rules, has_alt_names, has_critical_alt_names, has_name_constraints, lacks_name, lacks_server_name, subject_rules, text_rules, usage_beside_ca_rules};

use crate::extension::{extension_at, repeats_any};
use crate::identifiers::SERVER_AUTH;
use crate::name::{
    are_ia5_texts, are_printable_texts, are_short_texts, are_texts, countries_fit, has_empty_text,
    has_old_text, is_empty_name,
};
use crate::said::{Said, has_path_length, has_purpose, has_usage, is_authority};
use asn1_core::OutOfMemory;
use pkix_cert::Extension;
use pkix_cert::extension_id::{ID_CE_NAME_CONSTRAINTS, ID_CE_SUBJECT_ALT_NAME};
use pkix_name::Name;
use rule_table::{Rule, add, note};
use std::alloc::Global;

/// Whether alternative names of the subject are in a critical extension (RFC 5280, 4.2.1.6).
fn has_critical_alt_names(extensions: &[Extension]) -> bool
    ensures { result ≡ has_critical_alt_names extensions.now }
{
    match extension_at(extensions, ID_CE_SUBJECT_ALT_NAME) {
        None => false,
        Some(extension) => extension.critical,
    }
}

/// Whether the subject has alternative names (RFC 5280, 4.2.1.6).
fn has_alt_names(extensions: &[Extension]) -> bool
    ensures { result ≡ has_alt_names extensions.now }
{
    extension_at(extensions, ID_CE_SUBJECT_ALT_NAME).is_some()
}

/// Whether names are constrained (RFC 5280, 4.2.1.10).
fn has_name_constraints(extensions: &[Extension]) -> bool
    ensures { result ≡ has_name_constraints extensions.now }
{
    extension_at(extensions, ID_CE_NAME_CONSTRAINTS).is_some()
}

fn lacks_name(subject: &Name, extensions: &[Extension], said: &Said) -> bool
    ensures { result ≡ lacks_name subject.now extensions.now said.now }
{
    is_empty_name(subject)
        && (is_authority(&said.constraints)
            || has_usage(&said.key_usage, 6)
            || !has_critical_alt_names(extensions))
}

fn lacks_server_name(extensions: &[Extension], said: &Said) -> bool
    ensures { result ≡ lacks_server_name extensions.now said.now }
{
    has_purpose(&said.purposes, SERVER_AUTH)
        && !is_authority(&said.constraints)
        && !has_alt_names(extensions)
}

/// Of what a subject may be beside what its key may do.
#[tactic(auto, unfolding(crate::specs::Subjects::usage_beside_ca_rules))]
fn usage_beside_ca_rules(
    alloc: Global,
    subject: &Name,
    extensions: &[Extension],
    said: &Said,
) -> Result<Vec<Rule>, OutOfMemory>
    ensures { IfOk result (λ v. v.items ≡ usage_beside_ca_rules subject.now extensions.now said.now) }
{
    let is_ca = is_authority(&said.constraints);
    let signs = has_usage(&said.key_usage, 5);
    let mut found = Vec::new(alloc);
    note(
        &mut found,
        Rule::EmptySubject,
        lacks_name(subject, extensions, said),
    )?;
    note(&mut found, Rule::CertSignWithoutCa, signs && !is_ca)?;
    note(&mut found, Rule::CaWithoutCertSign, is_ca && !signs)?;
    let has_length = has_path_length(&said.constraints);
    note(&mut found, Rule::PathLengthWithoutCa, has_length && !is_ca)?;
    let constrains = has_name_constraints(extensions);
    note(
        &mut found,
        Rule::NameConstraintsWithoutCa,
        constrains && !is_ca,
    )?;
    Ok(found)
}

/// Of its extensions beside each other.
#[tactic(auto, unfolding(crate::specs::Subjects::extension_rules))]
fn extension_rules(
    alloc: Global,
    extensions: &[Extension],
    said: &Said,
) -> Result<Vec<Rule>, OutOfMemory>
    ensures { IfOk result (λ v. v.items ≡ extension_rules extensions.now said.now) }
{
    let mut found = Vec::new(alloc);
    let repeats = repeats_any(alloc, extensions)?;
    note(&mut found, Rule::ExtensionTwice, repeats)?;
    note(
        &mut found,
        Rule::NoAltNames,
        lacks_server_name(extensions, said),
    )?;
    Ok(found)
}

/// Of the types of its attributes.
#[tactic(auto, unfolding(crate::specs::Subjects::text_rules))]
fn text_rules(alloc: Global, subject: &Name) -> Result<Vec<Rule>, OutOfMemory>
    ensures { IfOk result (λ v. v.items ≡ text_rules subject.now) }
{
    let mut found = Vec::new(alloc);
    let countries = countries_fit(alloc, subject)?;
    note(&mut found, Rule::OddCountry, !countries)?;
    let ia5 = are_ia5_texts(alloc, subject)?;
    note(&mut found, Rule::OddIa5Text, !ia5)?;
    let printable = are_printable_texts(alloc, subject)?;
    note(&mut found, Rule::OddPrintableText, !printable)?;
    let texts = are_texts(alloc, subject)?;
    let empty = has_empty_text(subject);
    note(&mut found, Rule::OddText, !texts && !empty)?;
    note(&mut found, Rule::EmptyText, empty)?;
    let short = are_short_texts(alloc, subject)?;
    note(&mut found, Rule::TextTooLong, texts && !short)?;
    note(&mut found, Rule::OldTextKind, has_old_text(subject))?;
    Ok(found)
}

/// The rules of a subject and its extensions that are broken, in order: certificates and requests have them.
#[tactic(auto, unfolding(crate::specs::Subjects::subject_rules))]
pub(crate) fn subject_rules(
    alloc: Global,
    subject: &Name,
    extensions: &[Extension],
    said: &Said,
) -> Result<Vec<Rule>, OutOfMemory>
    ensures { IfOk result (λ v. v.items ≡ subject_rules subject.now extensions.now said.now) }
{
    let mut found = usage_beside_ca_rules(alloc, subject, extensions, said)?;
    let others = extension_rules(alloc, extensions, said)?;
    add(&mut found, others)?;
    let others = text_rules(alloc, subject)?;
    add(&mut found, others)?;
    Ok(found)
}
