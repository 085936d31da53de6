ghost use Rattle.std.specs.Prelude.{◌≡◌, None, refl};
ghost use Rattle.std.proofs.Common.{rules};
ghost use Rattle.pkix_cert.specs.Distributions.{no_point, distribution_point, distribution_point_fields, distribution_point_name, issuing_distribution_point, issuing_distribution_point_fields};

use asn1_core::{BitString, GeneralizedTime, Integer, Tag, TryClone};
use der_tree::{
    DecodeError, DerType, EncodeError, Fields, Form, Sequence, SequenceOf, Tree, Trees, Window,
    explicit, from_implicit, implicit, or_default, put_explicit, put_implicit, to_implicit,
    unless_default,
};
use pkix_name::{GeneralNames, RelativeDistinguishedName};
use std::alloc::Global;

/// Why certificates are listed, a bit each (RFC 5280, 4.2.1.13).
pub type ReasonFlags = BitString;

/// Where lists are found (RFC 5280, 4.2.1.13).
pub type CrlDistributionPoints = SequenceOf<DistributionPoint>;

/// Where the newest list is found (RFC 5280, 4.2.1.15).
pub type FreshestCrl = CrlDistributionPoints;

/// The number of a list (RFC 5280, 5.2.3).
pub type CrlNumber = Integer;

/// The number of the list that a list only adds to (RFC 5280, 5.2.4).
pub type BaseCrlNumber = CrlNumber;

/// Since when a key was no longer to be trusted (RFC 5280, 5.3.2).
pub type InvalidityDate = GeneralizedTime;

/// Where a list is found (RFC 5280, 4.2.1.13).
#[derive(Clone, Debug, Drop, PartialEq, Eq, Hash)]
pub struct DistributionPoint {
    pub distribution_point: Option<DistributionPointName>,
    pub reasons: Option<ReasonFlags>,
    pub crl_issuer: Option<GeneralNames>,
}

/// Nothing of it is known.
impl Default for DistributionPoint {
    ghost is_default = { λ v. v ≡ no_point };

    fn default() -> DistributionPoint {
        DistributionPoint {
            distribution_point: None,
            reasons: None,
            crl_issuer: None,
        }
    }
}

impl TryClone for DistributionPoint {
    ghost copies_are_equal = { Prim.search rules };
}

impl Form for DistributionPoint {
    ghost codec = { distribution_point };
}

#[tactic(auto, unfolding(crate::specs::Distributions::distribution_point_fields))]
impl Sequence for DistributionPoint {
    ghost layout = { distribution_point_fields };

    ghost is_sequence = { refl };

    fn put_fields(&self, alloc: Global, fields: &mut Trees) -> Result<(), EncodeError> {
        put_explicit(
            alloc,
            fields,
            self.distribution_point.as_ref(),
            Tag::CONTEXT_0,
        )?;
        put_implicit(alloc, fields, self.reasons.as_ref(), Tag::CONTEXT_1)?;
        put_implicit(alloc, fields, self.crl_issuer.as_ref(), Tag::CONTEXT_2)?;
        Ok(())
    }

    fn read_fields(alloc: Global, fields: &mut Fields<'_>) -> Result<Self, DecodeError> {
        Ok(DistributionPoint {
            distribution_point: explicit(alloc, fields, Tag::CONTEXT_0)?,
            reasons: implicit(alloc, fields, Tag::CONTEXT_1)?,
            crl_issuer: implicit(alloc, fields, Tag::CONTEXT_2)?,
        })
    }
}

/// The name of a distribution point (RFC 5280, 4.2.1.13).
#[derive(Clone, Debug, Drop, PartialEq, Eq, Hash)]
pub enum DistributionPointName {
    FullName(GeneralNames),
    NameRelativeToCrlIssuer(RelativeDistinguishedName),
}

impl TryClone for DistributionPointName {
    ghost copies_are_equal = { Prim.search rules };
}

impl Form for DistributionPointName {
    ghost codec = { distribution_point_name };
}

impl DerType for DistributionPointName {
    ghost TAG = { None };

    ghost tag_is = { refl };

    const TAG: Option<Tag> = None;

    fn starts(tag: Tag) -> bool {
        tag == Tag::CONTEXT_0 || tag == Tag::CONTEXT_1
    }

    fn to_tree(&self, alloc: Global) -> Result<Tree, EncodeError> {
        match self {
            DistributionPointName::FullName(value) => to_implicit(alloc, value, Tag::CONTEXT_0),
            DistributionPointName::NameRelativeToCrlIssuer(value) => to_implicit(
                alloc,
                value,
                Tag::CONTEXT_1,
            ),
        }
    }

    fn from_tree(alloc: Global, window: Window<'_>) -> Result<Self, DecodeError> {
        let tag = window.tag();
        if tag == Tag::CONTEXT_0 {
            Ok(DistributionPointName::FullName(from_implicit(alloc, window, Tag::CONTEXT_0)?))
        } else {
            Ok(DistributionPointName::NameRelativeToCrlIssuer(from_implicit(
                alloc,
                window,
                Tag::CONTEXT_1,
            )?))
        }
    }
}

/// What a list covers (RFC 5280, 5.2.5).
#[derive(Clone, Debug, Drop, PartialEq, Eq, Hash)]
pub struct IssuingDistributionPoint {
    pub distribution_point: Option<DistributionPointName>,
    pub only_contains_user_certs: bool,
    pub only_contains_ca_certs: bool,
    pub only_some_reasons: Option<ReasonFlags>,
    pub indirect_crl: bool,
    pub only_contains_attribute_certs: bool,
}

impl TryClone for IssuingDistributionPoint {
    ghost copies_are_equal = { Prim.search rules };
}

impl Form for IssuingDistributionPoint {
    ghost codec = { issuing_distribution_point };
}

#[tactic(auto, unfolding(crate::specs::Distributions::issuing_distribution_point_fields))]
impl Sequence for IssuingDistributionPoint {
    ghost layout = { issuing_distribution_point_fields };

    ghost is_sequence = { refl };

    fn put_fields(&self, alloc: Global, fields: &mut Trees) -> Result<(), EncodeError> {
        put_explicit(
            alloc,
            fields,
            self.distribution_point.as_ref(),
            Tag::CONTEXT_0,
        )?;
        put_implicit(
            alloc,
            fields,
            unless_default(&self.only_contains_user_certs, &false),
            Tag::CONTEXT_1,
        )?;
        put_implicit(
            alloc,
            fields,
            unless_default(&self.only_contains_ca_certs, &false),
            Tag::CONTEXT_2,
        )?;
        put_implicit(
            alloc,
            fields,
            self.only_some_reasons.as_ref(),
            Tag::CONTEXT_3,
        )?;
        put_implicit(
            alloc,
            fields,
            unless_default(&self.indirect_crl, &false),
            Tag::CONTEXT_4,
        )?;
        put_implicit(
            alloc,
            fields,
            unless_default(&self.only_contains_attribute_certs, &false),
            Tag::CONTEXT_5,
        )?;
        Ok(())
    }

    fn read_fields(alloc: Global, fields: &mut Fields<'_>) -> Result<Self, DecodeError> {
        Ok(IssuingDistributionPoint {
            distribution_point: explicit(alloc, fields, Tag::CONTEXT_0)?,
            only_contains_user_certs: or_default(implicit(alloc, fields, Tag::CONTEXT_1)?, false)?,
            only_contains_ca_certs: or_default(implicit(alloc, fields, Tag::CONTEXT_2)?, false)?,
            only_some_reasons: implicit(alloc, fields, Tag::CONTEXT_3)?,
            indirect_crl: or_default(implicit(alloc, fields, Tag::CONTEXT_4)?, false)?,
            only_contains_attribute_certs: or_default(
                implicit(alloc, fields, Tag::CONTEXT_5)?,
                false,
            )?,
        })
    }
}
