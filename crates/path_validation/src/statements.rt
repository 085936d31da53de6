//! What the extensions of a certificate say of paths (RFC 5280, 4.2).
ghost use Rattle.std.specs.Prelude.{◌≡◌, ◌||◌, IfOk, length, map, nat_lt, not};
ghost use Rattle.std.specs.List.{list_all, list_any};
ghost use Rattle.extension_lookup.specs.Lookup.{have_equal_neighbours};
ghost use Rattle.path_validation.specs.Limits.{most_extensions};
ghost use Rattle.path_validation.specs.Extensions.{are_named_once, are_readable, can_be_processed, is_list_of, is_of, is_of_its_type, is_one_of};
ghost use Rattle.path_validation.specs.Extensions.{is_unprocessed_critical, left_to_others, processed, read_alternative_names, read_ca, read_certificate_policies};
ghost use Rattle.path_validation.specs.Extensions.{read_constraints, read_each, read_mappings, read_named, read_names, read_policies, read_statements, read_within};
ghost use Rattle.path_validation.specs.Extensions.{unless_named_twice};

use crate::limits::{MOST_EXTENSIONS, statements_fit};
use asn1_core::{Integer, ObjectIdentifier, OutOfMemory};
use der_tree::{DerType, SequenceOf, der};
use extension_lookup::{are_distinct, contents_at, read_optional};
use pkix_cert::extension_id::{
    BASIC_CONSTRAINTS_DER, CERTIFICATE_POLICIES_DER, CRL_DISTRIBUTION_POINTS_DER,
    EXT_KEY_USAGE_DER, FRESHEST_CRL_DER, INHIBIT_ANY_POLICY_DER, ISSUER_ALT_NAME_DER,
    KEY_USAGE_DER, NAME_CONSTRAINTS_DER, POLICY_CONSTRAINTS_DER, POLICY_MAPPINGS_DER,
    SUBJECT_ALT_NAME_DER, SUBJECT_KEY_IDENTIFIER_DER,
};
use pkix_cert::{
    AuthorityKeyIdentifier, BasicConstraints, CertificateView, DistributionPoint, KeyPurposeId,
    KeyUsage, NameConstraints, SubjectKeyIdentifier,
};
use pkix_name::{GeneralName, GeneralNames};
use pkix_trust::{CertificatePolicies, PolicyConstraints, PolicyMappings};
use std::alloc::Global;

/// The DER encoding of the identifier of the issuer's key.
const AUTHORITY_KEY_IDENTIFIER_DER: &[u8] = &[0x06, 0x03, 0x55, 0x1D, 0x23];

/// Of the key (RFC 5280, 4.2.1.3 and 4.2.1.9).
#[derive(Debug, Drop)]
pub(crate) struct CaStatements {
    pub(crate) key_usage: Option<KeyUsage>,
    pub(crate) basic_constraints: Option<BasicConstraints>,
}

/// Of names (RFC 5280, 4.2.1.6 and 4.2.1.10).
#[derive(Debug, Drop)]
pub(crate) struct NameStatements {
    pub(crate) subject_alt_names: Option<GeneralNames>,
    pub(crate) name_constraints: Option<NameConstraints>,
}

/// Of policies (RFC 5280, 4.2.1.4, 4.2.1.5, 4.2.1.11 and 4.2.1.14).
#[derive(Debug, Drop)]
pub(crate) struct PolicyStatements {
    pub(crate) policies: Option<CertificatePolicies>,
    pub(crate) mappings: Option<PolicyMappings>,
    pub(crate) constraints: Option<PolicyConstraints>,
    pub(crate) inhibit_any_policy: Option<Integer>,
}

/// What the steps read.
#[derive(Debug, Drop)]
pub(crate) struct Statements {
    pub(crate) ca: CaStatements,
    pub(crate) names: NameStatements,
    pub(crate) policies: PolicyStatements,
}

/// The identifiers of the policies, in order.
pub(crate) fn identifiers(
    alloc: Global,
    policies: &CertificatePolicies,
) -> Result<Vec<ObjectIdentifier>, OutOfMemory>
    ensures { IfOk result (λ ps. ps.items ≡ map (λ p. p.policy_identifier) policies.now) }
{
    let mut identifiers = Vec::new(alloc);
    for policy in policies.as_slice() {
        identifiers.push(policy.policy_identifier.clone()?)?;
    }
    Ok(identifiers)
}

/// The arcs of the policies' identifiers, in order.
fn arcs_of<'a>(
    alloc: Global,
    policies: &'a CertificatePolicies,
) -> Result<Vec<&'a [u32]>, OutOfMemory>
    ensures { IfOk result (λ all. map (λ arcs. arcs.now) all.items ≡ map (λ p. p.policy_identifier) policies.now) }
{
    let mut all = Vec::new(alloc);
    for policy in policies.as_slice() {
        all.push(policy.policy_identifier.arcs())?;
    }
    Ok(all)
}

/// Whether two that are next to each other are equal.
fn have_equal_neighbours(all: &[&[u32]]) -> bool
    ensures { result ≡ have_equal_neighbours (map (λ arcs. arcs.now) all.now) }
{
    let mut rest = all;
    while let [arcs, after @ ..] = rest {
        if after.first().is_some_and(|next| next == arcs) {
            return true;
        }
        rest = after;
    }
    false
}

/// Whether no policy is named twice (RFC 5280, 4.2.1.4).
fn are_named_once(alloc: Global, policies: &CertificatePolicies) -> Result<bool, OutOfMemory>
    ensures { IfOk result (λ b. b ≡ are_named_once policies.now) }
{
    let mut all = arcs_of(alloc, policies)?;
    all.sort_unstable();
    Ok(!have_equal_neighbours(all.as_slice()))
}

/// The policies, None where one is named twice.
fn unless_named_twice(
    alloc: Global,
    policies: Option<CertificatePolicies>,
) -> Result<Option<Option<CertificatePolicies>>, OutOfMemory>
    ensures { IfOk result (λ o. o ≡ unless_named_twice policies) }
{
    let Some(policies) = policies else {
        return Ok(Some(None));
    };
    if !are_named_once(alloc, &policies)? {
        return Ok(None);
    }
    Ok(Some(Some(policies)))
}

#[tactic(auto, unfolding(crate::specs::Extensions::read_certificate_policies))]
fn read_certificate_policies(
    alloc: Global,
    view: &CertificateView<'_>,
) -> Result<Option<Option<CertificatePolicies>>, OutOfMemory>
    ensures { IfOk result (λ o. o ≡ read_certificate_policies view.now.extensions) }
{
    let found = read_optional(alloc, contents_at(view, CERTIFICATE_POLICIES_DER))?;
    Ok(found)
}

/// The policies; None where the octets aren't exactly one value, or name a policy twice.
#[tactic(auto, unfolding(crate::specs::Extensions::read_named))]
fn read_named(
    alloc: Global,
    view: &CertificateView<'_>,
) -> Result<Option<Option<CertificatePolicies>>, OutOfMemory>
    ensures { IfOk result (λ o. o ≡ read_named view.now.extensions) }
{
    let Some(policies) = read_certificate_policies(alloc, view)? else {
        return Ok(None);
    };
    let named = unless_named_twice(alloc, policies)?;
    Ok(named)
}

#[tactic(auto, unfolding(crate::specs::Extensions::read_ca))]
fn read_ca(alloc: Global, view: &CertificateView<'_>) -> Result<Option<CaStatements>, OutOfMemory>
    ensures { IfOk result (λ o. o ≡ read_ca view.now.extensions) }
{
    let Some(key_usage) = read_optional(alloc, contents_at(view, KEY_USAGE_DER))? else {
        return Ok(None);
    };
    let Some(basic_constraints) = read_optional(alloc, contents_at(view, BASIC_CONSTRAINTS_DER))?
    else {
        return Ok(None);
    };
    Ok(Some(CaStatements {
        key_usage,
        basic_constraints,
    }))
}

#[tactic(auto, unfolding(crate::specs::Extensions::read_alternative_names))]
fn read_alternative_names(
    alloc: Global,
    view: &CertificateView<'_>,
) -> Result<Option<Option<GeneralNames>>, OutOfMemory>
    ensures { IfOk result (λ o. o ≡ read_alternative_names view.now.extensions) }
{
    let found = read_optional(alloc, contents_at(view, SUBJECT_ALT_NAME_DER))?;
    Ok(found)
}

#[tactic(auto, unfolding(crate::specs::Extensions::read_constraints))]
fn read_constraints(
    alloc: Global,
    view: &CertificateView<'_>,
) -> Result<Option<Option<NameConstraints>>, OutOfMemory>
    ensures { IfOk result (λ o. o ≡ read_constraints view.now.extensions) }
{
    let found = read_optional(alloc, contents_at(view, NAME_CONSTRAINTS_DER))?;
    Ok(found)
}

#[tactic(auto, unfolding(crate::specs::Extensions::read_names))]
fn read_names(
    alloc: Global,
    view: &CertificateView<'_>,
) -> Result<Option<NameStatements>, OutOfMemory>
    ensures { IfOk result (λ o. o ≡ read_names view.now.extensions) }
{
    let Some(subject_alt_names) = read_alternative_names(alloc, view)? else {
        return Ok(None);
    };
    let Some(name_constraints) = read_constraints(alloc, view)? else {
        return Ok(None);
    };
    Ok(Some(NameStatements {
        subject_alt_names,
        name_constraints,
    }))
}

#[tactic(auto, unfolding(crate::specs::Extensions::read_mappings))]
fn read_mappings(
    alloc: Global,
    view: &CertificateView<'_>,
) -> Result<Option<Option<PolicyMappings>>, OutOfMemory>
    ensures { IfOk result (λ o. o ≡ read_mappings view.now.extensions) }
{
    let found = read_optional(alloc, contents_at(view, POLICY_MAPPINGS_DER))?;
    Ok(found)
}

#[tactic(auto, unfolding(crate::specs::Extensions::read_policies))]
fn read_policies(
    alloc: Global,
    view: &CertificateView<'_>,
) -> Result<Option<PolicyStatements>, OutOfMemory>
    ensures { IfOk result (λ o. o ≡ read_policies view.now.extensions) }
{
    let Some(policies) = read_named(alloc, view)? else {
        return Ok(None);
    };
    let Some(mappings) = read_mappings(alloc, view)? else {
        return Ok(None);
    };
    let Some(constraints) = read_optional(alloc, contents_at(view, POLICY_CONSTRAINTS_DER))? else {
        return Ok(None);
    };
    let Some(inhibit_any_policy) = read_optional(alloc, contents_at(view, INHIBIT_ANY_POLICY_DER))?
    else {
        return Ok(None);
    };
    Ok(Some(PolicyStatements {
        policies,
        mappings,
        constraints,
        inhibit_any_policy,
    }))
}

/// What the steps read; None where an extension isn't exactly one value, or a policy is named twice.
#[tactic(auto, unfolding(crate::specs::Extensions::read_each))]
fn read_each(alloc: Global, view: &CertificateView<'_>) -> Result<Option<Statements>, OutOfMemory>
    ensures { IfOk result (λ o. o ≡ read_each view.now.extensions) }
{
    let Some(ca) = read_ca(alloc, view)? else {
        return Ok(None);
    };
    let Some(names) = read_names(alloc, view)? else {
        return Ok(None);
    };
    let Some(policies) = read_policies(alloc, view)? else {
        return Ok(None);
    };
    Ok(Some(Statements {
        ca,
        names,
        policies,
    }))
}

/// The same; None too where something hasn't its size, or more is stated than is compared.
#[tactic(auto, unfolding(crate::specs::Extensions::read_within))]
fn read_within(alloc: Global, view: &CertificateView<'_>) -> Result<Option<Statements>, OutOfMemory>
    ensures { IfOk result (λ o. o ≡ read_within view.now.extensions) }
{
    let Some(said) = read_each(alloc, view)? else {
        return Ok(None);
    };
    if !statements_fit(&said) {
        return Ok(None);
    }
    Ok(Some(said))
}

/// Whether the contents are of the type.
fn is_of<T: DerType>(alloc: Global, contents: &[u8]) -> Result<bool, OutOfMemory>
    ensures { IfOk result (λ b. b ≡ is_of T.codec contents.now) }
{
    let found: Option<T> = der::value_of(alloc, contents)?;
    Ok(found.is_some())
}

/// Whether the contents are a list of elements of the type, with at least one.
#[tactic(auto, unfolding(crate::specs::Extensions::is_list_of))]
fn is_list_of<T: DerType>(alloc: Global, contents: &[u8]) -> Result<bool, OutOfMemory>
    ensures { IfOk result (λ b. b ≡ is_list_of T.codec contents.now) }
{
    let found: Option<SequenceOf<T>> = der::value_of(alloc, contents)?;
    match found {
        None => Ok(false),
        Some(list) => Ok(!list.as_slice().is_empty()),
    }
}

/// Whether the contents are of the type that the extension has, where that is one that no step reads.
#[tactic(auto, unfolding(crate::specs::Extensions::is_of_its_type))]
fn is_of_its_type(alloc: Global, id: &[u8], contents: &[u8]) -> Result<bool, OutOfMemory>
    ensures { IfOk result (λ b. b ≡ is_of_its_type id.now contents.now) }
{
    if id == EXT_KEY_USAGE_DER {
        return is_list_of::<KeyPurposeId>(alloc, contents);
    }
    if id == CRL_DISTRIBUTION_POINTS_DER || id == FRESHEST_CRL_DER {
        return is_list_of::<DistributionPoint>(alloc, contents);
    }
    if id == ISSUER_ALT_NAME_DER {
        return is_list_of::<GeneralName>(alloc, contents);
    }
    if id == AUTHORITY_KEY_IDENTIFIER_DER {
        return is_of::<AuthorityKeyIdentifier>(alloc, contents);
    }
    if id == SUBJECT_KEY_IDENTIFIER_DER {
        return is_of::<SubjectKeyIdentifier>(alloc, contents);
    }
    Ok(true)
}

/// Whether the extension isn't critical, or is of its type.
fn can_be_processed(
    alloc: Global,
    critical: bool,
    id: &[u8],
    contents: &[u8],
) -> Result<bool, OutOfMemory>
    ensures { IfOk result (λ b. b ≡ (not critical || is_of_its_type id.now contents.now)) }
{
    if !critical {
        return Ok(true);
    }
    is_of_its_type(alloc, id, contents)
}

/// Whether each critical extension can be processed.
fn are_processable(alloc: Global, view: &CertificateView<'_>) -> Result<bool, OutOfMemory>
    ensures { IfOk result (λ b. b ≡ list_all can_be_processed view.now.extensions) }
{
    for extension in view.extensions() {
        if !can_be_processed(alloc, extension.critical, extension.id, extension.contents)? {
            return Ok(false);
        }
    }
    Ok(true)
}

/// Whether there are more extensions than are looked through.
fn has_many_extensions(view: &CertificateView<'_>) -> bool
    ensures { result ≡ nat_lt most_extensions (length view.now.extensions) }
{
    let mut left = MOST_EXTENSIONS;
    for _extension in view.extensions() {
        if left == 0 {
            return true;
        }
        left -= 1;
    }
    false
}

/// Whether there are few extensions, no two have one identifier, and the critical ones can be processed.
#[tactic(auto, unfolding(crate::specs::Extensions::are_readable))]
fn are_readable(alloc: Global, view: &CertificateView<'_>) -> Result<bool, OutOfMemory>
    ensures { IfOk result (λ b. b ≡ are_readable view.now.extensions) }
{
    if has_many_extensions(view) {
        return Ok(false);
    }
    if !are_distinct(alloc, view)? {
        return Ok(false);
    }
    are_processable(alloc, view)
}

/// What the steps read; None where an extension that has to be read can't be.
#[tactic(auto, unfolding(crate::specs::Extensions::read_statements))]
pub(crate) fn read_statements(
    alloc: Global,
    view: &CertificateView<'_>,
) -> Result<Option<Statements>, OutOfMemory>
    ensures { IfOk result (λ o. o ≡ read_statements view.now.extensions) }
{
    if !are_readable(alloc, view)? {
        return Ok(None);
    }
    let said = read_within(alloc, view)?;
    Ok(said)
}

/// Whether the extension binds only who uses the key, who looks for revocation lists or who looks
/// for certificates.
#[tactic(auto, unfolding(crate::specs::Extensions::is_one_of))]
fn is_left_to_others(id: &[u8]) -> bool
    ensures { result ≡ is_one_of left_to_others id.now }
{
    id == EXT_KEY_USAGE_DER
        || id == CRL_DISTRIBUTION_POINTS_DER
        || id == FRESHEST_CRL_DER
        || id == AUTHORITY_KEY_IDENTIFIER_DER
        || id == SUBJECT_KEY_IDENTIFIER_DER
        || id == ISSUER_ALT_NAME_DER
}

/// Whether a step processes the extension.
#[tactic(auto, unfolding(crate::specs::Extensions::is_one_of))]
fn is_processed(id: &[u8]) -> bool
    ensures { result ≡ is_one_of processed id.now }
{
    id == KEY_USAGE_DER
        || id == SUBJECT_ALT_NAME_DER
        || id == BASIC_CONSTRAINTS_DER
        || id == NAME_CONSTRAINTS_DER
        || id == CERTIFICATE_POLICIES_DER
        || id == POLICY_MAPPINGS_DER
        || id == POLICY_CONSTRAINTS_DER
        || id == INHIBIT_ANY_POLICY_DER
}

/// Whether a critical extension isn't processed.
pub(crate) fn has_unprocessed_critical(view: &CertificateView<'_>) -> bool
    ensures { result ≡ list_any is_unprocessed_critical view.now.extensions }
{
    for extension in view.extensions() {
        if extension.critical && !is_processed(extension.id) && !is_left_to_others(extension.id) {
            return true;
        }
    }
    false
}
