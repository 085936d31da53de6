ghost use Rattle.std.specs.Prelude.{refl};
ghost use Rattle.std.proofs.Common.{rules};
ghost use Rattle.pkix_trust.specs.Policies.{policy_information, policy_information_fields, policy_qualifier_info, policy_qualifier_info_fields, policy_mapping, policy_mapping_fields, policy_constraints, policy_constraints_fields, private_key_usage_period, private_key_usage_period_fields};

use asn1_core::{GeneralizedTime, Tag, TryClone};
use der_tree::{
    Any, DecodeError, EncodeError, Fields, Form, Sequence, SequenceOf, Trees, implicit, optional,
    put, put_implicit, put_optional, required,
};
use pkix_cert::{CertPolicyId, PolicyQualifierId, SkipCerts};
use std::alloc::Global;

/// The policies under which a certificate was issued (RFC 5280, 4.2.1.4).
pub type CertificatePolicies = SequenceOf<PolicyInformation>;

/// Policies of the issuer that are as good as policies of the subject (RFC 5280, 4.2.1.5).
pub type PolicyMappings = SequenceOf<PolicyMapping>;

/// A policy, and what qualifies it (RFC 5280, 4.2.1.4).
#[derive(Clone, Debug, PartialEq, Eq, PartialOrd, Ord, Hash)]
pub struct PolicyInformation {
    /// The policy.
    pub policy_identifier: CertPolicyId,
    /// What qualifies it.
    pub policy_qualifiers: Option<SequenceOf<PolicyQualifierInfo>>,
}

impl Drop for PolicyInformation {
    fn drop(self) {
        let PolicyInformation {
            policy_identifier: _,
            policy_qualifiers: _,
        } = self;
    }
}

impl TryClone for PolicyInformation {
    ghost copies_are_equal = { Prim.search rules };
}

impl Form for PolicyInformation {
    ghost codec = { policy_information };
}

#[tactic(auto, unfolding(crate::specs::Policies::policy_information_fields))]
impl Sequence for PolicyInformation {
    ghost layout = { policy_information_fields };

    ghost is_sequence = { refl };

    fn put_fields(&self, alloc: Global, fields: &mut Trees) -> Result<(), EncodeError> {
        put(alloc, fields, &self.policy_identifier)?;
        put_optional(alloc, fields, self.policy_qualifiers.as_ref())?;
        Ok(())
    }

    fn read_fields(alloc: Global, fields: &mut Fields<'_>) -> Result<Self, DecodeError> {
        Ok(PolicyInformation {
            policy_identifier: required(alloc, fields)?,
            policy_qualifiers: optional(alloc, fields)?,
        })
    }
}

/// What qualifies a policy, in the form that its identifier has (RFC 5280, 4.2.1.4).
#[derive(Clone, Debug, PartialEq, Eq, PartialOrd, Ord, Hash)]
pub struct PolicyQualifierInfo {
    /// Which qualifier it is.
    pub id: PolicyQualifierId,
    /// One element of the type that the identifier has.
    pub qualifier: Any,
}

impl Drop for PolicyQualifierInfo {
    fn drop(self) {
        let PolicyQualifierInfo {
            id: _,
            qualifier: _,
        } = self;
    }
}

impl TryClone for PolicyQualifierInfo {
    ghost copies_are_equal = { Prim.search rules };
}

impl Form for PolicyQualifierInfo {
    ghost codec = { policy_qualifier_info };
}

#[tactic(auto, unfolding(crate::specs::Policies::policy_qualifier_info_fields))]
impl Sequence for PolicyQualifierInfo {
    ghost layout = { policy_qualifier_info_fields };

    ghost is_sequence = { refl };

    fn put_fields(&self, alloc: Global, fields: &mut Trees) -> Result<(), EncodeError> {
        put(alloc, fields, &self.id)?;
        put(alloc, fields, &self.qualifier)?;
        Ok(())
    }

    fn read_fields(alloc: Global, fields: &mut Fields<'_>) -> Result<Self, DecodeError> {
        Ok(PolicyQualifierInfo {
            id: required(alloc, fields)?,
            qualifier: required(alloc, fields)?,
        })
    }
}

/// A policy of the issuer that is as good as one of the subject (RFC 5280, 4.2.1.5).
#[derive(Clone, Debug, Drop, PartialEq, Eq, PartialOrd, Ord, Hash)]
pub struct PolicyMapping {
    /// The policy of the issuer's domain.
    pub issuer_domain_policy: CertPolicyId,
    /// The policy of the subject's domain.
    pub subject_domain_policy: CertPolicyId,
}

impl TryClone for PolicyMapping {
    ghost copies_are_equal = { Prim.search rules };
}

impl Form for PolicyMapping {
    ghost codec = { policy_mapping };
}

#[tactic(auto, unfolding(crate::specs::Policies::policy_mapping_fields))]
impl Sequence for PolicyMapping {
    ghost layout = { policy_mapping_fields };

    ghost is_sequence = { refl };

    fn put_fields(&self, alloc: Global, fields: &mut Trees) -> Result<(), EncodeError> {
        put(alloc, fields, &self.issuer_domain_policy)?;
        put(alloc, fields, &self.subject_domain_policy)?;
        Ok(())
    }

    fn read_fields(alloc: Global, fields: &mut Fields<'_>) -> Result<Self, DecodeError> {
        Ok(PolicyMapping {
            issuer_domain_policy: required(alloc, fields)?,
            subject_domain_policy: required(alloc, fields)?,
        })
    }
}

/// From which certificate on policies are wanted, and may no longer be mapped (RFC 5280, 4.2.1.11).
#[derive(Clone, Debug, Drop, PartialEq, Eq, PartialOrd, Ord, Hash)]
pub struct PolicyConstraints {
    /// How many certificates may follow before each of the rest needs an accepted policy.
    pub require_explicit_policy: Option<SkipCerts>,
    /// How many certificates may follow before policies are no longer mapped.
    pub inhibit_policy_mapping: Option<SkipCerts>,
}

impl TryClone for PolicyConstraints {
    ghost copies_are_equal = { Prim.search rules };
}

impl Form for PolicyConstraints {
    ghost codec = { policy_constraints };
}

#[tactic(auto, unfolding(crate::specs::Policies::policy_constraints_fields))]
impl Sequence for PolicyConstraints {
    ghost layout = { policy_constraints_fields };

    ghost is_sequence = { refl };

    fn put_fields(&self, alloc: Global, fields: &mut Trees) -> Result<(), EncodeError> {
        put_implicit(
            alloc,
            fields,
            self.require_explicit_policy.as_ref(),
            Tag::CONTEXT_0,
        )?;
        put_implicit(
            alloc,
            fields,
            self.inhibit_policy_mapping.as_ref(),
            Tag::CONTEXT_1,
        )?;
        Ok(())
    }

    fn read_fields(alloc: Global, fields: &mut Fields<'_>) -> Result<Self, DecodeError> {
        Ok(PolicyConstraints {
            require_explicit_policy: implicit(alloc, fields, Tag::CONTEXT_0)?,
            inhibit_policy_mapping: implicit(alloc, fields, Tag::CONTEXT_1)?,
        })
    }
}

/// When the private key may be used, if not as long as its certificate holds (RFC 3280, 4.2.1.4).
#[derive(Clone, Debug, Drop, PartialEq, Eq, PartialOrd, Ord, Hash)]
pub struct PrivateKeyUsagePeriod {
    /// From then on, where it is there.
    pub not_before: Option<GeneralizedTime>,
    /// Until then, where it is there.
    pub not_after: Option<GeneralizedTime>,
}

impl TryClone for PrivateKeyUsagePeriod {
    ghost copies_are_equal = { Prim.search rules };
}

impl Form for PrivateKeyUsagePeriod {
    ghost codec = { private_key_usage_period };
}

#[tactic(auto, unfolding(crate::specs::Policies::private_key_usage_period_fields))]
impl Sequence for PrivateKeyUsagePeriod {
    ghost layout = { private_key_usage_period_fields };

    ghost is_sequence = { refl };

    fn put_fields(&self, alloc: Global, fields: &mut Trees) -> Result<(), EncodeError> {
        put_implicit(alloc, fields, self.not_before.as_ref(), Tag::CONTEXT_0)?;
        put_implicit(alloc, fields, self.not_after.as_ref(), Tag::CONTEXT_1)?;
        Ok(())
    }

    fn read_fields(alloc: Global, fields: &mut Fields<'_>) -> Result<Self, DecodeError> {
        Ok(PrivateKeyUsagePeriod {
            not_before: implicit(alloc, fields, Tag::CONTEXT_0)?,
            not_after: implicit(alloc, fields, Tag::CONTEXT_1)?,
        })
    }
}
