//! A certificate at its place (RFC 5280, 6.1.3 to 6.1.5).
ghost use Rattle.std.specs.Prelude.{◌≡◌, IfOk};
ghost use Rattle.std.specs.List.{list_any};
ghost use Rattle.std.specs.Option.{option_map};
ghost use Rattle.path_policies.specs.Policies.{is_any};
ghost use Rattle.path_validation.specs.Checks.{basic_reason, behind_policies, constraint_reason, given_with, issuing_reason, prepared, status_reason, tested, validity_reason, wrapped_up};
ghost use Rattle.path_validation.specs.States.{any_counts, with_policies_of};
ghost use Rattle.path_validation.specs.Steps.{is_ca, is_issued_by_another, is_signed, is_too_wide, lacks_cert_sign, maps_any_in};
ghost use Rattle.path_validation.specs.Steps.{status_at, step_at, users_of, users_policies};

use crate::certificate::{Identity, PathCertificate, is_version_3, read_certificate};
use crate::error::PathReason;
use crate::inputs::{PathInputs, ValidPath};
use crate::key::{encoded, key_after};
use crate::limits::has_many_pairs;
use crate::names::name_reason;
use crate::state::{State, last_explicit_policy, levels_after, next_state};
use crate::statements::has_unprocessed_critical;
use asn1_core::{ObjectIdentifier, OutOfMemory};
use der_tree::SequenceOf;
use jiff::civil::DateTime;
use path_names::names_match;
use path_policies::{is_any_policy, maps_any_policy};
use path_revocation::RevocationStatus;
use pkix_cert::{CertificateView, KEY_CERT_SIGN, KeyUsage, Validity};
use rcgen_sign::Verifier;
use std::alloc::Global;

/// What comes of a certificate.
pub(crate) enum Step {
    /// The first step that fails.
    Fails(PathReason),
    /// The state that the next certificate meets.
    Passes(State),
    /// It is the last one.
    Ends(ValidPath),
}

/// `NotYetValid` or `Expired`, both ends included.
#[tactic(auto, unfolding(crate::specs::Checks::validity_reason))]
fn validity_reason(at: DateTime, validity: &Validity) -> Option<PathReason>
    ensures { result ≡ validity_reason at validity.now }
{
    if at < validity.not_before.moment() {
        return Some(PathReason::NotYetValid);
    }
    if validity.not_after.moment() < at {
        return Some(PathReason::Expired);
    }
    None
}

/// What is known of the certificate after so many.
fn status_at(statuses: &Option<SequenceOf<RevocationStatus>>, passed: usize) -> RevocationStatus
    ensures { result ≡ status_at statuses.now passed }
{
    let Some(statuses) = statuses else {
        return RevocationStatus::Good;
    };
    match statuses.as_slice().get(passed) {
        None => RevocationStatus::Undetermined,
        Some(status) => *status,
    }
}

/// `Revoked` or `Undetermined`, of the certificate after so many.
#[tactic(auto, unfolding(crate::specs::Checks::status_reason))]
fn status_reason(inputs: &PathInputs, passed: usize) -> Option<PathReason>
    ensures { result ≡ status_reason inputs.now passed }
{
    match status_at(&inputs.statuses, passed) {
        RevocationStatus::Good => None,
        RevocationStatus::Revoked { .. } => Some(PathReason::Revoked),
        RevocationStatus::Undetermined => Some(PathReason::Undetermined),
    }
}

/// Whether the signature has whole octets, and is accepted of what is signed under the working key.
#[tactic(auto, unfolding(crate::specs::Steps::is_signed))]
fn is_signed<V: Verifier>(
    alloc: Global,
    view: &CertificateView<'_>,
    certificate: &PathCertificate,
    state: &State,
    verifier: &V,
) -> Result<bool, OutOfMemory>
    ensures { IfOk result (λ b. b ≡ is_signed (V.accepts verifier.now) view.now certificate.now.identity.signature state.now) }
{
    let signature = &certificate.identity.signature;
    if signature.unused() != 0 {
        return Ok(false);
    }
    match encoded(alloc, &state.working_public_key)? {
        None => Ok(false),
        Some(key) => Ok(verifier.verify(
            view.tbs(),
            key.as_slice(),
            view.signature_algorithm(),
            signature.bytes(),
        )),
    }
}

/// Whether its issuer isn't the working issuer name, where they can be compared.
fn is_issued_by_another(identity: &Identity, state: &State) -> bool
    ensures { result ≡ is_issued_by_another identity.now state.now }
{
    if identity.has_wide_name() {
        return false;
    }
    !names_match(&identity.issuer, &state.working_issuer_name)
}

/// From `AlgorithmsDiffer` to `NameMismatch` (RFC 5280, 6.1.3 (a)).
#[tactic(auto, unfolding(crate::specs::Checks::basic_reason))]
fn basic_reason<V: Verifier>(
    alloc: Global,
    view: &CertificateView<'_>,
    certificate: &PathCertificate,
    inputs: &PathInputs,
    passed: usize,
    state: &State,
    verifier: &V,
) -> Result<Option<PathReason>, OutOfMemory>
    ensures { IfOk result (λ o. o ≡ basic_reason (V.accepts verifier.now) inputs.now passed state.now view.now certificate.now) }
{
    if view.tbs_signature() != view.signature_algorithm() {
        return Ok(Some(PathReason::AlgorithmsDiffer));
    }
    if !is_signed(alloc, view, certificate, state, verifier)? {
        return Ok(Some(PathReason::BadSignature));
    }
    if let Some(reason) = validity_reason(inputs.at, &certificate.identity.validity) {
        return Ok(Some(reason));
    }
    if let Some(reason) = status_reason(inputs, passed) {
        return Ok(Some(reason));
    }
    if is_issued_by_another(&certificate.identity, state) {
        return Ok(Some(PathReason::NameMismatch));
    }
    Ok(None)
}

fn maps_any(certificate: &PathCertificate) -> bool
    ensures { result ≡ maps_any_in certificate.now.statements.policies.mappings }
{
    match &certificate.statements.policies.mappings {
        None => false,
        Some(mappings) => maps_any_policy(mappings.as_slice()),
    }
}

fn is_ca(certificate: &PathCertificate) -> bool
    ensures { result ≡ is_ca certificate.now.statements.ca.basic_constraints }
{
    match &certificate.statements.ca.basic_constraints {
        None => false,
        Some(constraints) => constraints.ca,
    }
}

fn lacks_cert_sign(usage: &Option<KeyUsage>) -> bool
    ensures { result ≡ lacks_cert_sign usage.now }
{
    match usage {
        None => false,
        Some(usage) => !usage.bit(KEY_CERT_SIGN),
    }
}

/// From `MappedAnyPolicy` to `NoCertSign`, of one that issued the next (RFC 5280, 6.1.4).
#[tactic(auto, unfolding(crate::specs::Checks::issuing_reason))]
fn issuing_reason(
    view: &CertificateView<'_>,
    certificate: &PathCertificate,
    state: &State,
) -> Option<PathReason>
    ensures { result ≡ issuing_reason state.now view.now certificate.now }
{
    if maps_any(certificate) {
        return Some(PathReason::MappedAnyPolicy);
    }
    if !(is_version_3(view) && is_ca(certificate)) {
        return Some(PathReason::NotCa);
    }
    if state.max_path_length == 0 && !certificate.identity.is_self_issued() {
        return Some(PathReason::PathTooLong);
    }
    if lacks_cert_sign(&certificate.statements.ca.key_usage) {
        return Some(PathReason::NoCertSign);
    }
    None
}

/// Whether anyPolicy counts (RFC 5280, 6.1.3 (d) (2)).
fn any_counts(state: &State, is_last: bool, certificate: &PathCertificate) -> bool
    ensures { result ≡ any_counts state.now is_last certificate.now }
{
    state.inhibit_any_policy > 0 || (!is_last && certificate.identity.is_self_issued())
}

/// The state with the certificate's policies (RFC 5280, 6.1.3 (d) and (e)).
#[tactic(auto, unfolding(crate::specs::States::with_policies_of))]
fn with_policies(
    alloc: Global,
    state: State,
    certificate: &PathCertificate,
    is_last: bool,
) -> Result<State, OutOfMemory>
    ensures { IfOk result (λ s. s ≡ with_policies_of state is_last certificate.now) }
{
    let counts = any_counts(&state, is_last, certificate);
    let levels = levels_after(
        alloc,
        state.valid_policy_levels,
        &certificate.statements.policies,
        counts,
    )?;
    Ok(State {
        valid_policy_levels: levels,
        ..state
    })
}

fn has_any(policies: &[ObjectIdentifier]) -> bool
    ensures { result ≡ list_any is_any policies.now }
{
    policies.iter().any(|policy| is_any_policy(policy))
}

/// The policies that the user accepts, or None for any.
fn users_policies(users: &Option<SequenceOf<ObjectIdentifier>>) -> Option<&[ObjectIdentifier]>
    ensures { option_map (λ ps. ps.now) result ≡ users_policies users.now }
{
    let Some(users) = users else {
        return None;
    };
    if has_any(users.as_slice()) {
        return None;
    }
    Some(users.as_slice())
}

/// The policies that the user accepts of the path (RFC 5280, 6.1.5 (g)).
#[tactic(auto, unfolding(crate::specs::Steps::users_of))]
fn users_of(
    alloc: Global,
    inputs: &PathInputs,
    state: &State,
) -> Result<Vec<ObjectIdentifier>, OutOfMemory>
    ensures { IfOk result (λ ps. ps.items ≡ users_of inputs.now state.now) }
{
    let users = users_policies(&inputs.user_initial_policy_set);
    let policies = state.valid_policy_levels.user_constrained(alloc, users)?;
    Ok(policies)
}

/// What the path gives, of which the user accepts these policies (RFC 5280, 6.1.6).
fn given_with(
    alloc: Global,
    of_users: Vec<ObjectIdentifier>,
    state: &State,
    certificate: PathCertificate,
) -> Result<ValidPath, OutOfMemory>
    ensures { IfOk result (λ v. v ≡ given_with of_users.items state.now certificate) }
{
    let PathCertificate {
        identity,
        statements: _,
    } = certificate;
    let Identity {
        issuer: _,
        subject: _,
        key_info,
        validity: _,
        signature: _,
    } = identity;
    let authority = state.valid_policy_levels.authority_constrained(alloc)?;
    let key_info = key_after(&state.working_public_key, key_info)?;
    Ok(ValidPath {
        authority_constrained_policies: SequenceOf::from_vec(authority),
        user_constrained_policies: SequenceOf::from_vec(of_users),
        key_info,
    })
}

/// After the last certificate (RFC 5280, 6.1.5).
#[tactic(auto, unfolding(crate::specs::Checks::wrapped_up, crate::specs::Steps::given_by))]
fn wrap_up(
    alloc: Global,
    view: &CertificateView<'_>,
    certificate: PathCertificate,
    inputs: &PathInputs,
    state: State,
) -> Result<Step, OutOfMemory>
    ensures { IfOk result (λ s. s ≡ wrapped_up inputs.now state view.now certificate) }
{
    if has_unprocessed_critical(view) {
        return Ok(Step::Fails(PathReason::UnprocessedCritical));
    }
    let of_users = users_of(alloc, inputs, &state)?;
    if last_explicit_policy(&certificate, state.explicit_policy) == 0 && of_users.is_empty() {
        return Ok(Step::Fails(PathReason::NoUserPolicy));
    }
    let valid = given_with(alloc, of_users, &state, certificate)?;
    Ok(Step::Ends(valid))
}

/// Before the next certificate (RFC 5280, 6.1.4).
#[tactic(auto, unfolding(crate::specs::Checks::prepared))]
fn prepare(
    alloc: Global,
    view: &CertificateView<'_>,
    certificate: PathCertificate,
    state: State,
) -> Result<Step, OutOfMemory>
    ensures { IfOk result (λ s. s ≡ prepared state view.now certificate) }
{
    if let Some(reason) = issuing_reason(view, &certificate, &state) {
        return Ok(Step::Fails(reason));
    }
    if has_unprocessed_critical(view) {
        return Ok(Step::Fails(PathReason::UnprocessedCritical));
    }
    Ok(Step::Passes(next_state(alloc, state, certificate)?))
}

/// Whether one of its names is too wide, or too many policies would be compared.
fn is_too_wide(inputs: &PathInputs, state: &State, certificate: &PathCertificate) -> bool
    ensures { result ≡ is_too_wide inputs.now state.now certificate.now }
{
    certificate.identity.has_wide_name()
        || has_many_pairs(
            &inputs.user_initial_policy_set,
            &state.valid_policy_levels,
            &certificate.statements.policies,
        )
}

/// From `TooMuchWork` to `Excluded`; of a self-issued certificate, unless it is the last, no more than
/// whether it is too wide.
#[tactic(auto, unfolding(crate::specs::Checks::constraint_reason))]
fn constraint_reason(
    alloc: Global,
    inputs: &PathInputs,
    state: &State,
    is_last: bool,
    certificate: &PathCertificate,
) -> Result<Option<PathReason>, OutOfMemory>
    ensures { IfOk result (λ o. o ≡ constraint_reason inputs.now state.now is_last certificate.now) }
{
    if is_too_wide(inputs, state, certificate) {
        return Ok(Some(PathReason::TooMuchWork));
    }
    if certificate.identity.is_self_issued() && !is_last {
        return Ok(None);
    }
    name_reason(
        alloc,
        certificate,
        &state.permitted_subtrees,
        &state.excluded_subtrees,
    )
}

/// What comes of a certificate of which the steps up to 6.1.3 (e) are done.
#[tactic(auto, unfolding(crate::specs::Checks::behind_policies))]
fn behind_policies(
    alloc: Global,
    view: &CertificateView<'_>,
    certificate: PathCertificate,
    inputs: &PathInputs,
    is_last: bool,
    state: State,
) -> Result<Step, OutOfMemory>
    ensures { IfOk result (λ s. s ≡ behind_policies inputs.now state is_last view.now certificate) }
{
    if state.explicit_policy == 0 && state.valid_policy_levels.is_null() {
        return Ok(Step::Fails(PathReason::NoPolicy));
    }
    if is_last {
        let step = wrap_up(alloc, view, certificate, inputs, state)?;
        return Ok(step);
    }
    let step = prepare(alloc, view, certificate, state)?;
    Ok(step)
}

/// What comes of a certificate that was read.
#[tactic(auto, unfolding(crate::specs::Checks::tested))]
fn judge<V: Verifier>(
    alloc: Global,
    view: &CertificateView<'_>,
    certificate: PathCertificate,
    inputs: &PathInputs,
    passed: usize,
    is_last: bool,
    state: State,
    verifier: &V,
) -> Result<Step, OutOfMemory>
    ensures { IfOk result (λ s. s ≡ tested (V.accepts verifier.now) inputs.now passed is_last state view.now certificate) }
{
    let basic = basic_reason(alloc, view, &certificate, inputs, passed, &state, verifier)?;
    if let Some(reason) = basic {
        return Ok(Step::Fails(reason));
    }
    if let Some(reason) = constraint_reason(alloc, inputs, &state, is_last, &certificate)? {
        return Ok(Step::Fails(reason));
    }
    let state = with_policies(alloc, state, &certificate, is_last)?;
    behind_policies(alloc, view, certificate, inputs, is_last, state)
}

/// What comes of the certificate after so many.
#[tactic(auto, using(crate::proofs::Judging::tested_is), unfolding(crate::specs::Steps::step_at))]
pub(crate) fn step_at<V: Verifier>(
    alloc: Global,
    view: &CertificateView<'_>,
    inputs: &PathInputs,
    passed: usize,
    is_last: bool,
    state: State,
    verifier: &V,
) -> Result<Step, OutOfMemory>
    ensures { IfOk result (λ s. s ≡ step_at (V.accepts verifier.now) inputs.now passed is_last state view.now) }
{
    let Some(certificate) = read_certificate(alloc, view)? else {
        return Ok(Step::Fails(PathReason::BadExtension));
    };
    judge(
        alloc,
        view,
        certificate,
        inputs,
        passed,
        is_last,
        state,
        verifier,
    )
}
