//! The sizes of what extensions hold (RFC 5280, 4.2.1), and how much of it is compared.
ghost use Rattle.std.specs.Prelude.{◌≡◌, ◌&&◌, length, nat_le};
ghost use Rattle.std.specs.List.{list_all};
ghost use Rattle.asn1_core.specs.Twos.{is_negative};
ghost use Rattle.path_validation.specs.Limits.{are_narrow, are_narrow_subtrees, ca_fits, count_of, has_few_attributes, has_many_pairs, has_many_policies};
ghost use Rattle.path_validation.specs.Limits.{is_filled, is_narrow, is_natural, most_attributes, names_fit, policies_fit, statements_fit, subtrees_fit};
ghost use Rattle.path_validation.specs.Statements.{excluded_of, inhibit_policy_mapping, path_len_constraint, permitted_of, require_explicit_policy};

use crate::statements::{CaStatements, NameStatements, PolicyStatements, Statements};
use asn1_core::{Integer, ObjectIdentifier};
use der_tree::SequenceOf;
use path_policies::PolicyLevels;
use pkix_cert::{BasicConstraints, GeneralSubtree, GeneralSubtrees, NameConstraints};
use pkix_name::{GeneralName, GeneralNames, Name, RelativeDistinguishedName};
use pkix_trust::{CertificatePolicies, PolicyConstraints, PolicyMappings};

/// How many extensions a certificate has at most.
pub(crate) const MOST_EXTENSIONS: usize = 256;

/// How many policies and mappings a certificate has at most together.
const MOST_POLICIES: usize = 512;

/// How many pairs of policies are compared at most for a certificate.
const MOST_PAIRS: usize = 16_777_216;

/// How many attributes a part of a name has at most.
const MOST_ATTRIBUTES: usize = 16;

/// Whether the list has an element, where it is there.
fn is_filled<T>(list: &Option<SequenceOf<T>>) -> bool
    ensures { result ≡ is_filled list.now }
{
    match list {
        None => true,
        Some(list) => !list.as_slice().is_empty(),
    }
}

/// Whether the two's complement is one of a number below zero (X.690, 8.3).
fn is_negative(octets: &[u8]) -> bool
    ensures { result ≡ is_negative octets.now }
{
    match octets {
        [] => false,
        [first, ..] => 127 < *first,
    }
}

/// Whether the number isn't below zero, where it is there.
fn is_natural(number: &Option<Integer>) -> bool
    ensures { result ≡ is_natural number.now }
{
    match number {
        None => true,
        Some(number) => !is_negative(number.as_bytes()),
    }
}

/// Whether each part of the name has few attributes.
#[tactic(auto, unfolding(crate::specs::Limits::has_few_attributes))]
pub(crate) fn has_few_attributes(name: &Name) -> bool
    ensures { result ≡ has_few_attributes name.now }
{
    let Name::RdnSequence(parts) = name;
    are_small(parts.as_slice())
}

fn are_small(parts: &[RelativeDistinguishedName]) -> bool
    ensures { result ≡ list_all (λ rdn. nat_le (length rdn.0) most_attributes) parts.now }
{
    parts
        .iter()
        .all(|part| part.0.as_slice().len() <= MOST_ATTRIBUTES)
}

/// The same of a name in the directory.
fn is_narrow(name: &GeneralName) -> bool
    ensures { result ≡ is_narrow name.now }
{
    match name {
        GeneralName::DirectoryName(name) => has_few_attributes(name),
        _ => true,
    }
}

fn are_narrow(names: &Option<GeneralNames>) -> bool
    ensures { result ≡ are_narrow names.now }
{
    match names {
        None => true,
        Some(names) => each_is_narrow(names.as_slice()),
    }
}

fn each_is_narrow(names: &[GeneralName]) -> bool
    ensures { result ≡ list_all is_narrow names.now }
{
    names.iter().all(|name| is_narrow(name))
}

fn are_narrow_subtrees(subtrees: &Option<GeneralSubtrees>) -> bool
    ensures { result ≡ are_narrow_subtrees subtrees.now }
{
    match subtrees {
        None => true,
        Some(subtrees) => each_base_is_narrow(subtrees.as_slice()),
    }
}

fn each_base_is_narrow(subtrees: &[GeneralSubtree]) -> bool
    ensures { result ≡ list_all (λ t. is_narrow t.base) subtrees.now }
{
    subtrees.iter().all(|subtree| is_narrow(&subtree.base))
}

/// Whether there is a subtree, where there are some, and their bases are narrow.
#[tactic(auto, unfolding(crate::specs::Limits::subtrees_fit))]
fn subtrees_fit(subtrees: &Option<GeneralSubtrees>) -> bool
    ensures { result ≡ subtrees_fit subtrees.now }
{
    is_filled(subtrees) && are_narrow_subtrees(subtrees)
}

#[tactic(auto, unfolding(crate::specs::Limits::subtrees_fit))]
fn constraints_fit(constraints: &Option<NameConstraints>) -> bool
    ensures { result ≡ (subtrees_fit (permitted_of constraints.now) && subtrees_fit (excluded_of constraints.now)) }
{
    match constraints {
        None => true,
        Some(constraints) => {
            subtrees_fit(&constraints.permitted_subtrees)
                && subtrees_fit(&constraints.excluded_subtrees)
        }
    }
}

/// RFC 5280, 4.2.1.6 and 4.2.1.10.
#[tactic(auto, unfolding(crate::specs::Limits::names_fit))]
fn names_fit(said: &NameStatements) -> bool
    ensures { result ≡ names_fit said.now }
{
    is_filled(&said.subject_alt_names)
        && are_narrow(&said.subject_alt_names)
        && constraints_fit(&said.name_constraints)
}

/// RFC 5280, 4.2.1.9.
#[tactic(auto, unfolding(crate::specs::Limits::ca_fits))]
fn ca_fits(said: &CaStatements) -> bool
    ensures { result ≡ ca_fits said.now }
{
    match &said.basic_constraints {
        None => true,
        Some(constraints) => is_natural(&constraints.path_len_constraint),
    }
}

fn policy_count(policies: &Option<CertificatePolicies>) -> usize
    ensures { result ≡ count_of policies.now }
{
    match policies {
        None => 0,
        Some(policies) => policies.as_slice().len(),
    }
}

fn mapping_count(mappings: &Option<PolicyMappings>) -> usize
    ensures { result ≡ count_of mappings.now }
{
    match mappings {
        None => 0,
        Some(mappings) => mappings.as_slice().len(),
    }
}

/// Whether there are more policies and mappings than are compared.
#[tactic(auto, using(crate::proofs::Sizes::many_is), unfolding(crate::specs::Limits::has_many_policies))]
fn has_many_policies(said: &PolicyStatements) -> bool
    ensures { result ≡ has_many_policies said.now }
{
    let policies = policy_count(&said.policies);
    let mappings = mapping_count(&said.mappings);
    policies.saturating_add(mappings) > MOST_POLICIES
}

fn user_count(users: &Option<SequenceOf<ObjectIdentifier>>) -> usize
    ensures { result ≡ count_of users.now }
{
    match users {
        None => 0,
        Some(users) => users.as_slice().len(),
    }
}

/// Whether there are more pairs of policies than are compared: of the user's and those that are valid
/// so far, with the latter and the certificate's (RFC 5280, 6.1.3 (d), 6.1.4 (b) and 6.1.5 (g)).
#[tactic(auto, using(crate::proofs::Sizes::pairs_are), unfolding(crate::specs::Limits::has_many_pairs))]
pub(crate) fn has_many_pairs(
    users: &Option<SequenceOf<ObjectIdentifier>>,
    levels: &PolicyLevels,
    said: &PolicyStatements,
) -> bool
    ensures { result ≡ has_many_pairs users.now levels.now said.now }
{
    let size = levels.size();
    let named = policy_count(&said.policies).saturating_add(mapping_count(&said.mappings));
    let above = user_count(users).saturating_add(size);
    above.saturating_mul(size.saturating_add(named)) > MOST_PAIRS
}

fn policy_constraints_fit(constraints: &Option<PolicyConstraints>) -> bool
    ensures { result ≡ (is_natural (require_explicit_policy constraints.now) && is_natural (inhibit_policy_mapping constraints.now)) }
{
    match constraints {
        None => true,
        Some(constraints) => {
            is_natural(&constraints.require_explicit_policy)
                && is_natural(&constraints.inhibit_policy_mapping)
        }
    }
}

/// RFC 5280, 4.2.1.4, 4.2.1.5, 4.2.1.11 and 4.2.1.14.
#[tactic(auto, unfolding(crate::specs::Limits::policies_fit))]
fn policies_fit(said: &PolicyStatements) -> bool
    ensures { result ≡ policies_fit said.now }
{
    is_filled(&said.policies)
        && is_filled(&said.mappings)
        && !has_many_policies(said)
        && policy_constraints_fit(&said.constraints)
        && is_natural(&said.inhibit_any_policy)
}

/// Whether what a certificate states has the sizes of its types, and is no more than is compared.
#[tactic(auto, unfolding(crate::specs::Limits::statements_fit))]
pub(crate) fn statements_fit(said: &Statements) -> bool
    ensures { result ≡ statements_fit said.now }
{
    ca_fits(&said.ca) && names_fit(&said.names) && policies_fit(&said.policies)
}
