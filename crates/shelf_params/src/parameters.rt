//! What an order asks for, as parameters of what is issued.
ghost use Rattle.std.specs.Prelude.{◌≡◌, ◌++◌, pos, ◌+ℤ◌, ◌*ℤ◌, true, map, IfOk, MatchOption, option_map};
ghost use Rattle.asn1_core.specs.Arcs.{is_oid};
ghost use Rattle.asn1_core.specs.Moment.{instant};
ghost use Rattle.jiff.specs.Words.{IsCivilNanos, civil_nanos};
ghost use Rattle.rcgen_certificate.specs.CustomExtensions.{custom_of};
ghost use Rattle.rcgen_certificate.specs.ParamsView.{params_view};
ghost use Rattle.shelf_fault.specs.Faults.{Gets, Passes, identifier};
ghost use Rattle.shelf_params.specs.Parameters.{access, access_extension, accesses, certificate_params, completed, end_after, end_of, extension_of_list, later, has_no_subtree, policies_of, policy, policy_extension, repeats_policy, subtrees_said, uri, with_access};

use crate::subject_types::content_params;
use asn1_core::{CharacterString, Ia5String, ObjectIdentifier, OffsetDateTime, TextFault};
use der_tree::{DerType, SequenceOf};
use extension_lookup::are_distinct_arcs;
use jiff::civil::DateTime;
use pkix_cert::GeneralName;
use pkix_trust::{AccessDescription, PolicyInformation};
use rcgen_issue::{CertificateParams, CustomExtension};
use rcgen_sign::identifier as identifier_of;
use shelf_fault::{Fault, Obstacle};
use shelf_keys::encoded;
use shelf_profile::{Access, Days};
use std::alloc::{AllocError, Global};
use toml_format::{Arcs, CertificateContent, Constraints, List, Subtree, Text};

/// id-pe-authorityInfoAccess (RFC 5280, 4.2.2.1).
const AUTHORITY_INFO_ACCESS: &[u64] = &[1, 3, 6, 1, 5, 5, 7, 1, 1];

/// id-ad-ocsp and id-ad-caIssuers (RFC 5280, 4.2.2.1).
const OCSP: &[u32] = &[1, 3, 6, 1, 5, 5, 7, 48, 1];

const CA_ISSUERS: &[u32] = &[1, 3, 6, 1, 5, 5, 7, 48, 2];

/// id-ce-certificatePolicies (RFC 5280, 4.2.1.4).
const CERTIFICATE_POLICIES: &[u64] = &[2, 5, 29, 32];

/// The civil time so many nanoseconds later, within the years that there are.
fn moved(at: DateTime, nanoseconds: i128) -> Option<DateTime>
    ensures { MatchOption result
        (¬ (IsCivilNanos (civil_nanos at +ℤ nanoseconds)))
        (λ t. (civil_nanos t ≡ (civil_nanos at +ℤ nanoseconds)) × IsCivilNanos (civil_nanos at +ℤ nanoseconds)) }
{
    match at.to_plain().checked_add_nanos(nanoseconds) {
        Ok(moved) => Some(DateTime::from_plain(moved)),
        Err(_) => None,
    }
}

/// The nanoseconds of so many days, each of 86,400 seconds.
fn nanoseconds_of(days: u64) -> i128
    ensures { result ≡ pos days *ℤ pos 86_400_000_000_000 }
{
    i128::from(days) * 86_400_000_000_000
}

/// The civil time so many days later, within the years that there are.
fn days_later(at: DateTime, days: u64) -> Option<DateTime>
    ensures { MatchOption result
        (¬ (IsCivilNanos (civil_nanos at +ℤ pos days *ℤ pos 86_400_000_000_000)))
        (λ t. (civil_nanos t ≡ (civil_nanos at +ℤ pos days *ℤ pos 86_400_000_000_000)) × IsCivilNanos (civil_nanos at +ℤ pos days *ℤ pos 86_400_000_000_000)) }
{
    let nanoseconds = nanoseconds_of(days);
    moved(at, nanoseconds)
}

/// The moment so many days later, where both have a form in UTC.
fn days_after(start: OffsetDateTime, days: u64) -> Option<OffsetDateTime>
    ensures { option_map instant result ≡ later (instant start) days }
{
    let utc = start.utc()?;
    let end = days_later(utc, days)?;
    OffsetDateTime::new(end, 0)
}

/// The moment so many days after the start.
#[tactic(auto, unfolding(crate::specs::Parameters::end_after))]
pub(crate) fn end_after(start: OffsetDateTime, days: Days) -> Result<OffsetDateTime, Fault>
    ensures { Gets instant (end_after (instant start) days) result }
{
    match days_after(start, days.get()) {
        Some(end) => Ok(end),
        None => Err(Fault::Obstacle(Obstacle::Time)),
    }
}

/// So many days after the start where days are given, and else this moment.
fn end_of(
    start: OffsetDateTime,
    days: Option<Days>,
    at: OffsetDateTime,
) -> Result<OffsetDateTime, Fault>
    ensures { Gets instant (end_of (instant start) days (instant at)) result }
{
    match days {
        Some(days) => end_after(start, days),
        None => Ok(at),
    }
}

/// The text as a URI.
fn uri(alloc: Global, text: &[u8]) -> Result<Ia5String, Fault>
    ensures { Gets (λ t. t) (uri text.now) result }
{
    match CharacterString::new(alloc, text) {
        Ok(uri) => Ok(uri),
        Err(TextFault::OutOfMemory) => Err(Fault::OutOfMemory),
        Err(TextFault::BadLength) => Err(Fault::Obstacle(Obstacle::Text)),
        Err(TextFault::BadCharacter { at: _ }) => Err(Fault::Obstacle(Obstacle::Text)),
    }
}

/// The identifier of these arcs.
#[tactic(auto, using(shelf_fault::proofs::Identifiers::not_identifier))]
fn identifier(alloc: Global, arcs: &[u64]) -> Result<ObjectIdentifier, Fault>
    ensures { Gets (λ id. id) (identifier arcs.now) result }
{
    Ok(ObjectIdentifier::from_u64(alloc, arcs)?)
}

/// What is found at a URI, by a method.
#[tactic(auto, unfolding(crate::specs::Parameters::access))]
fn access(alloc: Global, method: &[u32], text: &[u8]) -> Result<AccessDescription, Fault>
    requires { is_oid method.now ≡ true }
    ensures { Gets (λ a. a) (access method.now text.now) result }
{
    let access_location = GeneralName::Uri(uri(alloc, text)?);
    let access_method = identifier_of(alloc, method)?;
    Ok(AccessDescription {
        access_method,
        access_location,
    })
}

/// What is found at these URIs, by a method.
fn accesses(alloc: Global, method: &[u32], uris: &[Text]) -> Result<Vec<AccessDescription>, Fault>
    requires { is_oid method.now ≡ true }
    ensures { Gets (λ v. v.items) (accesses method.now uris.now) result }
{
    let mut list = Vec::new(alloc);
    for text in uris {
        list.push(access(alloc, method, text.as_bytes())?)?;
    }
    Ok(list)
}

/// The first, and then the others.
fn joined<T: Drop>(first: Vec<T>, others: Vec<T>) -> Result<Vec<T>, AllocError>
    ensures { IfOk result (λ all. all.items ≡ first.items ++ others.items) }
{
    let mut all = first;
    for item in others {
        all.push(item)?;
    }
    Ok(all)
}

/// The extension with these values, not critical, unless there are none.
fn extension_of_list<T: DerType>(
    alloc: Global,
    id: &[u64],
    list: Vec<T>,
) -> Result<Vec<CustomExtension>, Fault>
    ensures { Gets (λ v. map custom_of v.items) (extension_of_list T.codec id.now list.items) result }
{
    if list.is_empty() {
        return Ok(Vec::new(alloc));
    }
    let list = SequenceOf::from_vec(list);
    let contents = encoded(alloc, &list, Fault::Obstacle(Obstacle::Identifier))?;
    let extension = CustomExtension::from_oid_content(alloc, id, contents)?;
    Ok(vec![in alloc; extension]?)
}

/// Where more on the issuer is found, if the order says so.
#[tactic(auto, unfolding(crate::specs::Parameters::access_extension))]
fn access_extension(
    alloc: Global,
    ocsp: &[Text],
    ca_issuers: &[Text],
) -> Result<Vec<CustomExtension>, Fault>
    ensures { Gets (λ v. map custom_of v.items) (access_extension ocsp.now ca_issuers.now) result }
{
    let responders = accesses(alloc, OCSP, ocsp)?;
    let certificates = accesses(alloc, CA_ISSUERS, ca_issuers)?;
    let list = joined(responders, certificates)?;
    extension_of_list(alloc, AUTHORITY_INFO_ACCESS, list)
}

/// A policy without qualifiers.
#[tactic(auto, unfolding(crate::specs::Parameters::policy))]
fn policy(alloc: Global, arcs: Arcs) -> Result<PolicyInformation, Fault>
    ensures { Gets (λ p. p) (policy arcs) result }
{
    let arcs = arcs.into_vec();
    let policy_identifier = identifier(alloc, &arcs)?;
    Ok(PolicyInformation {
        policy_identifier,
        policy_qualifiers: None,
    })
}

/// The arcs of the policies' identifiers, in order.
fn policy_ids(alloc: Global, policies: &[PolicyInformation]) -> Result<Vec<&[u32]>, AllocError>
    ensures { IfOk result (λ ids. map (λ id. id.now) ids.items ≡ map (λ p. p.policy_identifier) policies.now) }
{
    let mut ids = Vec::new(alloc);
    for policy in policies {
        ids.push(policy.policy_identifier.arcs())?;
    }
    Ok(ids)
}

/// Whether a policy occurs twice. The time is that of sorting them.
fn repeats_policy(alloc: Global, policies: &[PolicyInformation]) -> Result<bool, AllocError>
    ensures { IfOk result (λ b. b ≡ repeats_policy policies.now) }
{
    let ids = policy_ids(alloc, policies)?;
    Ok(!are_distinct_arcs(ids))
}

/// The policies.
fn policies_of(alloc: Global, policies: Vec<Arcs>) -> Result<Vec<PolicyInformation>, Fault>
    ensures { Gets (λ v. v.items) (policies_of policies.items) result }
{
    let mut list = Vec::new(alloc);
    for arcs in policies {
        list.push(policy(alloc, arcs)?)?;
    }
    Ok(list)
}

/// The extension on policies, each of which occurs once (RFC 5280, 4.2.1.4), unless there are none.
#[tactic(auto, unfolding(crate::specs::Parameters::policy_extension))]
fn policy_extension(alloc: Global, policies: Vec<Arcs>) -> Result<Vec<CustomExtension>, Fault>
    ensures { Gets (λ v. map custom_of v.items) (policy_extension policies.items) result }
{
    let list = policies_of(alloc, policies)?;
    if repeats_policy(alloc, &list)? {
        return Err(Fault::Obstacle(Obstacle::RepeatedPolicy));
    }
    extension_of_list(alloc, CERTIFICATE_POLICIES, list)
}

/// Puts the extensions on access and policies before those that are given.
#[tactic(auto, unfolding(crate::specs::Parameters::with_access))]
fn with_access(
    alloc: Global,
    access: Access,
    given: Vec<CustomExtension>,
) -> Result<Vec<CustomExtension>, Fault>
    ensures { Gets (λ v. map custom_of v.items) (with_access access (map custom_of given.items)) result }
{
    let Access {
        ocsp,
        ca_issuers,
        policies,
    } = access;
    let policies = policy_extension(alloc, policies.into_vec())?;
    let places = access_extension(alloc, ocsp.as_slice(), ca_issuers.as_slice())?;
    let front = joined(policies, places)?;
    Ok(joined(front, given)?)
}

/// With the end, and the extensions that the order asks for beside the parameters.
fn completed(
    alloc: Global,
    params: CertificateParams,
    days: Option<Days>,
    access: Access,
) -> Result<CertificateParams, Fault>
    ensures { Gets params_view (completed (params_view params) days access) result }
{
    let not_after = end_of(params.not_before, days, params.not_after)?;
    let custom_extensions = with_access(alloc, access, params.custom_extensions)?;
    Ok(CertificateParams {
        not_after,
        custom_extensions,
        ..params
    })
}

/// Whether the list is there, and no subtree in it.
fn has_no_subtree(subtrees: &Option<List<Subtree>>) -> bool
    ensures { result ≡ has_no_subtree subtrees.now }
{
    match subtrees {
        Some(subtrees) => subtrees.as_slice().is_empty(),
        None => false,
    }
}

/// Refuses a list of subtrees that has none (RFC 5280, 4.2.1.10).
#[tactic(auto, unfolding(crate::specs::Parameters::subtrees_said))]
fn subtrees_said(constraints: &Constraints) -> Result<(), Fault>
    ensures { Passes (subtrees_said constraints.now) result }
{
    if has_no_subtree(&constraints.permitted) || has_no_subtree(&constraints.excluded) {
        return Err(Fault::Obstacle(Obstacle::NoSubtree));
    }
    Ok(())
}

/// The parameters of the certificate that is ordered, but for what its request may decide.
#[tactic(auto, unfolding(crate::specs::Parameters::certificate_params))]
pub fn certificate_params(
    alloc: Global,
    content: CertificateContent,
    days: Option<Days>,
    access: Access,
) -> Result<CertificateParams, Fault>
    ensures { Gets params_view (certificate_params content days access) result }
{
    subtrees_said(&content.constraints)?;
    let params = content_params(alloc, content)?;
    completed(alloc, params, days, access)
}
