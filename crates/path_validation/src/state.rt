//! The state variables of a validation (RFC 5280, 6.1.2), and what a certificate makes of them.
ghost use Rattle.std.specs.Prelude.{◌≡◌, ◌∷◌, ◌+◌, ◌<◌, ◌^◌, [], IfOk, OnOk};
ghost use Rattle.path_policies.specs.Levels.{with_mappings, with_policies};
ghost use Rattle.path_validation.specs.States.{counted, first_state, last_explicit_policy, lowered, next_state, policies_named, unless_asked, with_set};
ghost use Rattle.path_validation.specs.Statements.{excluded_of, inhibit_policy_mapping, path_len_constraint, permitted_of, require_explicit_policy};

use crate::certificate::{Identity, PathCertificate};
use crate::inputs::PathInputs;
use crate::key::key_after;
use crate::statements::{PolicyStatements, Statements, identifiers};
use asn1_core::{Integer, OutOfMemory};
use der_tree::SequenceOf;
use path_policies::PolicyLevels;
use pkix_cert::{BasicConstraints, GeneralSubtrees, NameConstraints, SubjectPublicKeyInfo};
use pkix_name::Name;
use pkix_trust::{PolicyConstraints, PolicyMappings};
use std::alloc::Global;

/// The variables, each with its letter.
#[derive(Debug, Drop)]
pub(crate) struct State {
    /// (a).
    pub(crate) valid_policy_levels: PolicyLevels,
    /// (b): a name is permitted that each of these sets permits.
    pub(crate) permitted_subtrees: SequenceOf<GeneralSubtrees>,
    /// (c): all of these.
    pub(crate) excluded_subtrees: SequenceOf<GeneralSubtrees>,
    /// (d).
    pub(crate) explicit_policy: u64,
    /// (e).
    pub(crate) inhibit_any_policy: u64,
    /// (f).
    pub(crate) policy_mapping: u64,
    /// (g) to (i).
    pub(crate) working_public_key: SubjectPublicKeyInfo,
    /// (j).
    pub(crate) working_issuer_name: Name,
    /// (k).
    pub(crate) max_path_length: u64,
}

/// None where it is asked for from the beginning, and more than the path has else.
fn unless_asked(asked: bool, count: u64) -> u64
    requires { count + 1 < 2 ^ 64 }
    ensures { result ≡ unless_asked asked count }
{
    if asked { 0 } else { count + 1 }
}

/// A list of the set alone.
fn set_of(
    alloc: Global,
    subtrees: &GeneralSubtrees,
) -> Result<SequenceOf<GeneralSubtrees>, OutOfMemory>
    ensures { IfOk result (λ sets. sets ≡ subtrees.now ∷ []) }
{
    let mut sets = SequenceOf::new(alloc);
    sets.push(subtrees.clone()?)?;
    Ok(sets)
}

/// Before the first of so many certificates (RFC 5280, 6.1.2).
#[tactic(auto, unfolding(crate::specs::States::first_state))]
pub(crate) fn first_state(
    alloc: Global,
    inputs: &PathInputs,
    count: u64,
) -> Result<State, OutOfMemory>
    requires { count + 1 < 2 ^ 64 }
    ensures { IfOk result (λ s. s ≡ first_state inputs.now count) }
{
    Ok(State {
        valid_policy_levels: PolicyLevels::new(alloc)?,
        permitted_subtrees: set_of(alloc, &inputs.initial_permitted_subtrees)?,
        excluded_subtrees: set_of(alloc, &inputs.initial_excluded_subtrees)?,
        explicit_policy: unless_asked(inputs.initial_explicit_policy, count),
        inhibit_any_policy: unless_asked(inputs.initial_any_policy_inhibit, count),
        policy_mapping: unless_asked(inputs.initial_policy_mapping_inhibit, count),
        working_public_key: inputs.anchor.key_info.clone()?,
        working_issuer_name: inputs.anchor.name.clone()?,
        max_path_length: count,
    })
}

/// With the policies of a certificate (RFC 5280, 6.1.3 (d) and (e)).
pub(crate) fn levels_after(
    alloc: Global,
    levels: PolicyLevels,
    policies: &PolicyStatements,
    any_counts: bool,
) -> Result<PolicyLevels, OutOfMemory>
    ensures { IfOk result (λ l. l ≡ with_policies levels (policies_named policies.now) any_counts) }
{
    match &policies.policies {
        None => levels.with_policies(alloc, None, any_counts),
        Some(policies) => {
            let named = identifiers(alloc, policies)?;
            levels.with_policies(alloc, Some(named.as_slice()), any_counts)
        }
    }
}

/// The number that is stated, where it is less; one below 0, as no extension that is read states it, is 0.
pub(crate) fn lowered(stated: &Option<Integer>, count: u64) -> u64
    ensures { result ≡ lowered stated.now count }
{
    let Some(stated) = stated else {
        return count;
    };
    match stated.to_u64() {
        Some(number) => number.min(count),
        None if stated.as_bytes().first().is_some_and(|first| *first > 127) => 0,
        None => count,
    }
}

/// One less, unless it is 0 or the certificate is self-issued.
fn counted(self_issued: bool, count: u64) -> u64
    ensures { result ≡ counted self_issued count }
{
    if self_issued {
        count
    } else {
        count.saturating_sub(1)
    }
}

/// The subtrees with those that a certificate states.
fn with_constraints(
    constraints: Option<NameConstraints>,
    permitted: &mut SequenceOf<GeneralSubtrees>,
    excluded: &mut SequenceOf<GeneralSubtrees>,
) -> Result<(), OutOfMemory>
    ensures permitted { OnOk result (permitted.new ≡ with_set permitted.old (permitted_of constraints)) }
    ensures excluded { OnOk result (excluded.new ≡ with_set excluded.old (excluded_of constraints)) }
{
    let Some(constraints) = constraints else {
        return Ok(());
    };
    let NameConstraints {
        permitted_subtrees,
        excluded_subtrees,
    } = constraints;
    if let Some(subtrees) = permitted_subtrees {
        permitted.push(subtrees)?;
    }
    if let Some(subtrees) = excluded_subtrees {
        excluded.push(subtrees)?;
    }
    Ok(())
}

/// After the last certificate (RFC 5280, 6.1.5 (a) and (b)).
#[tactic(auto, unfolding(crate::specs::States::last_explicit_policy))]
pub(crate) fn last_explicit_policy(certificate: &PathCertificate, explicit_policy: u64) -> u64
    ensures { result ≡ last_explicit_policy certificate.now explicit_policy }
{
    if explicit_policy_behind(&certificate.statements.policies.constraints, 1) == 0 {
        return 0;
    }
    explicit_policy.saturating_sub(1)
}

/// With what a certificate maps (RFC 5280, 6.1.4 (b)).
fn levels_behind(
    alloc: Global,
    levels: PolicyLevels,
    mappings: &Option<PolicyMappings>,
    may_map: bool,
) -> Result<PolicyLevels, OutOfMemory>
    ensures { IfOk result (λ l. l ≡ with_mappings levels mappings.now may_map) }
{
    match mappings {
        None => levels.with_mappings(alloc, None, may_map),
        Some(mappings) => levels.with_mappings(alloc, Some(mappings.as_slice()), may_map),
    }
}

/// RFC 5280, 6.1.4 (i) (1).
fn explicit_policy_behind(constraints: &Option<PolicyConstraints>, count: u64) -> u64
    ensures { result ≡ lowered (require_explicit_policy constraints.now) count }
{
    match constraints {
        None => count,
        Some(constraints) => lowered(&constraints.require_explicit_policy, count),
    }
}

/// RFC 5280, 6.1.4 (i) (2).
fn policy_mapping_behind(constraints: &Option<PolicyConstraints>, count: u64) -> u64
    ensures { result ≡ lowered (inhibit_policy_mapping constraints.now) count }
{
    match constraints {
        None => count,
        Some(constraints) => lowered(&constraints.inhibit_policy_mapping, count),
    }
}

/// RFC 5280, 6.1.4 (m).
fn path_length_behind(constraints: &Option<BasicConstraints>, count: u64) -> u64
    ensures { result ≡ lowered (path_len_constraint constraints.now) count }
{
    match constraints {
        None => count,
        Some(constraints) => lowered(&constraints.path_len_constraint, count),
    }
}

/// Before the next certificate, of the state after RFC 5280, 6.1.3 (6.1.4 (b) to (m)).
#[tactic(auto, unfolding(crate::specs::States::next_state))]
pub(crate) fn next_state(
    alloc: Global,
    state: State,
    certificate: PathCertificate,
) -> Result<State, OutOfMemory>
    ensures { IfOk result (λ s. s ≡ next_state state certificate) }
{
    let self_issued = certificate.identity.is_self_issued();
    let PathCertificate {
        identity,
        statements,
    } = certificate;
    let Identity {
        issuer: _,
        subject,
        key_info,
        validity: _,
        signature: _,
    } = identity;
    let Statements {
        ca,
        names,
        policies,
    } = statements;
    let State {
        valid_policy_levels,
        permitted_subtrees,
        excluded_subtrees,
        explicit_policy,
        inhibit_any_policy,
        policy_mapping,
        working_public_key,
        working_issuer_name: _,
        max_path_length,
    } = state;
    let valid_policy_levels = levels_behind(
        alloc,
        valid_policy_levels,
        &policies.mappings,
        policy_mapping > 0,
    )?;
    let mut permitted_subtrees = permitted_subtrees;
    let mut excluded_subtrees = excluded_subtrees;
    with_constraints(
        names.name_constraints,
        &mut permitted_subtrees,
        &mut excluded_subtrees,
    )?;
    let working_public_key = key_after(&working_public_key, key_info)?;
    Ok(State {
        valid_policy_levels,
        permitted_subtrees,
        excluded_subtrees,
        explicit_policy: explicit_policy_behind(
            &policies.constraints,
            counted(self_issued, explicit_policy),
        ),
        inhibit_any_policy: lowered(
            &policies.inhibit_any_policy,
            counted(self_issued, inhibit_any_policy),
        ),
        policy_mapping: policy_mapping_behind(
            &policies.constraints,
            counted(self_issued, policy_mapping),
        ),
        working_public_key,
        working_issuer_name: subject,
        max_path_length: path_length_behind(
            &ca.basic_constraints,
            counted(self_issued, max_path_length),
        ),
    })
}
