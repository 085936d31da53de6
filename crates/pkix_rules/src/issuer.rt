//! Rules of what the issuer's certificate has (RFC 5280, 4.2.1.4, 4.2.1.5 and 4.2.1.12).
ghost use Rattle.std.specs.Prelude.{◌≡◌, IfOk};
ghost use Rattle.pkix_rules.specs.Issuers.{has_bad_policies, has_policy_twice, issuer_extension_rules};

use crate::extension::{is_unreadable, said_at};
use crate::policies::{has_any_mapped, policy_ids};
use asn1_core::OutOfMemory;
use extension_lookup::are_distinct_arcs;
use pkix_cert::extension_id::{
    ID_CE_CERTIFICATE_POLICIES, ID_CE_EXT_KEY_USAGE, ID_CE_POLICY_MAPPINGS,
};
use pkix_cert::{ExtKeyUsageSyntax, Extension};
use pkix_trust::{CertificatePolicies, PolicyMappings};
use rule_table::{Rule, note};
use std::alloc::Global;

/// Whether a policy is there twice. The time is that of sorting them.
fn has_policy_twice(
    alloc: Global,
    policies: &Option<CertificatePolicies>,
) -> Result<bool, OutOfMemory>
    ensures { IfOk result (λ b. b ≡ has_policy_twice policies.now) }
{
    let Some(policies) = policies else {
        return Ok(false);
    };
    let ids = policy_ids(alloc, policies.as_slice())?;
    let distinct = are_distinct_arcs(ids);
    Ok(!distinct)
}

/// Whether anyPolicy is mapped or a policy is there twice, so that no path through the certificate is valid.
fn has_bad_policies(alloc: Global, extensions: &[Extension]) -> Result<bool, OutOfMemory>
    ensures { IfOk result (λ b. b ≡ has_bad_policies extensions.now) }
{
    let mappings: Option<PolicyMappings> = said_at(alloc, extensions, ID_CE_POLICY_MAPPINGS)?;
    let policies: Option<CertificatePolicies> = said_at(
        alloc,
        extensions,
        ID_CE_CERTIFICATE_POLICIES,
    )?;
    let twice = has_policy_twice(alloc, &policies)?;
    Ok(has_any_mapped(&mappings) || twice)
}

/// The rules that a certificate breaks by what its issuer's has.
#[tactic(auto, unfolding(crate::specs::Issuers::issuer_extension_rules))]
pub(crate) fn issuer_extension_rules(
    alloc: Global,
    extensions: &[Extension],
) -> Result<Vec<Rule>, OutOfMemory>
    ensures { IfOk result (λ v. v.items ≡ issuer_extension_rules extensions.now) }
{
    let mut found = Vec::new(alloc);
    let policies = has_bad_policies(alloc, extensions)?;
    note(&mut found, Rule::IssuerPolicies, policies)?;
    let purposes = is_unreadable::<ExtKeyUsageSyntax>(alloc, extensions, ID_CE_EXT_KEY_USAGE)?;
    note(&mut found, Rule::IssuerPurposes, purposes)?;
    Ok(found)
}
