//! The names of a certificate beside the name constraints of its issuer's (RFC 5280, 4.2.1.10).
ghost use Rattle.std.specs.Prelude.{◌≡◌, IfOk};
ghost use Rattle.std.specs.List.{list_any};
ghost use Rattle.path_names.specs.NameForms.{is_unprocessed_by};
ghost use Rattle.pkix_rules.specs.Constrained.{are_permitted, constrained_rules, constraint_rules, has_excluded, has_incomparable, names_of_subject, rules_under, subject_names};

use crate::address::push_addresses;
use crate::alt_names::names_in;
use crate::extension::said_at;
use crate::name::is_empty_name;
use crate::name_constraints::subtrees_in;
use asn1_core::{OutOfMemory, copied};
use path_names::{is_excluded_by, is_permitted_by, is_unprocessed_by};
use pkix_cert::extension_id::{ID_CE_NAME_CONSTRAINTS, ID_CE_SUBJECT_ALT_NAME};
use pkix_cert::{Extension, GeneralSubtree, NameConstraints};
use pkix_name::{GeneralName, GeneralNames, Name};
use rule_table::{Rule, note};
use std::alloc::Global;

/// The subject as a name, unless it is empty.
fn subject_names(alloc: Global, subject: &Name) -> Result<Vec<GeneralName>, OutOfMemory>
    ensures { IfOk result (λ names. names.items ≡ subject_names subject.now) }
{
    let mut names = Vec::new(alloc);
    if is_empty_name(subject) {
        return Ok(names);
    }
    names.push(GeneralName::DirectoryName(copied(subject)?))?;
    Ok(names)
}

/// The subject as a name, unless it is empty, and its e-mail addresses, where no alternative names are read.
#[tactic(auto, unfolding(crate::specs::Constrained::names_of_subject))]
fn names_of_subject(
    alloc: Global,
    subject: &Name,
    alt_names: &Option<GeneralNames>,
) -> Result<Vec<GeneralName>, OutOfMemory>
    ensures { IfOk result (λ names. names.items ≡ names_of_subject subject.now alt_names.now) }
{
    let mut names = subject_names(alloc, subject)?;
    let Some(_) = alt_names else {
        push_addresses(alloc, &mut names, subject)?;
        return Ok(names);
    };
    Ok(names)
}

/// Whether each name is within a permitted subtree, where one is of its form.
fn are_permitted(names: &[GeneralName], constraints: &NameConstraints) -> bool
    ensures { result ≡ are_permitted names.now constraints.now }
{
    let subtrees = subtrees_in(&constraints.permitted_subtrees);
    names.iter().all(|name| is_permitted_by(name, subtrees))
}

/// Whether a name is within an excluded subtree.
fn has_excluded(names: &[GeneralName], constraints: &NameConstraints) -> bool
    ensures { result ≡ has_excluded names.now constraints.now }
{
    let subtrees = subtrees_in(&constraints.excluded_subtrees);
    names.iter().any(|name| is_excluded_by(name, subtrees))
}

fn has_unprocessed(names: &[GeneralName], subtrees: &[GeneralSubtree]) -> bool
    ensures { result ≡ list_any (λ name. is_unprocessed_by name subtrees.now) names.now }
{
    names.iter().any(|name| is_unprocessed_by(name, subtrees))
}

/// Whether a name can't be compared with a subtree of its form.
fn has_incomparable(names: &[GeneralName], constraints: &NameConstraints) -> bool
    ensures { result ≡ has_incomparable names.now constraints.now }
{
    has_unprocessed(names, subtrees_in(&constraints.permitted_subtrees))
        || has_unprocessed(names, subtrees_in(&constraints.excluded_subtrees))
}

/// Of the subject and the alternative names. Each name is compared with each subtree at most twice.
#[tactic(auto, unfolding(crate::specs::Constrained::constraint_rules))]
fn constraint_rules(
    alloc: Global,
    subject: &[GeneralName],
    names: &[GeneralName],
    constraints: &NameConstraints,
) -> Result<Vec<Rule>, OutOfMemory>
    ensures { IfOk result (λ v. v.items ≡ constraint_rules subject.now names.now constraints.now) }
{
    let permitted = are_permitted(subject, constraints) && are_permitted(names, constraints);
    let excluded = has_excluded(subject, constraints) || has_excluded(names, constraints);
    let incomparable = has_incomparable(subject, constraints)
        || has_incomparable(names, constraints);
    let mut found = Vec::new(alloc);
    note(&mut found, Rule::NameNotPermitted, !permitted)?;
    note(&mut found, Rule::NameExcluded, excluded)?;
    note(&mut found, Rule::NameNotCompared, incomparable)?;
    Ok(found)
}

/// Of a subject and its extensions beside constraints, where there are some.
#[tactic(auto, unfolding(crate::specs::Constrained::rules_under))]
fn rules_under(
    alloc: Global,
    subject: &Name,
    extensions: &[Extension],
    constraints: &Option<NameConstraints>,
) -> Result<Vec<Rule>, OutOfMemory>
    ensures { IfOk result (λ v. v.items ≡ rules_under subject.now extensions.now constraints.now) }
{
    let Some(constraints) = constraints else {
        return Ok(Vec::new(alloc));
    };
    let names: Option<GeneralNames> = said_at(alloc, extensions, ID_CE_SUBJECT_ALT_NAME)?;
    let subject = names_of_subject(alloc, subject, &names)?;
    let found = constraint_rules(alloc, subject.as_slice(), names_in(&names), constraints)?;
    Ok(found)
}

/// The rules of names beside the name constraints among the issuer's extensions, in order.
#[tactic(auto, unfolding(crate::specs::Constrained::constrained_rules))]
pub(crate) fn constrained_rules(
    alloc: Global,
    subject: &Name,
    extensions: &[Extension],
    issuer_extensions: &[Extension],
) -> Result<Vec<Rule>, OutOfMemory>
    ensures { IfOk result (λ v. v.items ≡ constrained_rules subject.now extensions.now issuer_extensions.now) }
{
    let constraints: Option<NameConstraints> = said_at(
        alloc,
        issuer_extensions,
        ID_CE_NAME_CONSTRAINTS,
    )?;
    let found = rules_under(alloc, subject, extensions, &constraints)?;
    Ok(found)
}
