ghost use Rattle.std.specs.Prelude.{refl};
ghost use Rattle.std.proofs.Common.{rules};
ghost use Rattle.pkix_cert.specs.Constraints.{basic_constraints, basic_constraints_fields, name_constraints, name_constraints_fields, general_subtree, general_subtree_fields};

use asn1_core::{Integer, Tag, TryClone};
use der_tree::{
    DecodeError, EncodeError, Fields, Form, Sequence, SequenceOf, Trees, defaulted, implicit,
    optional, or_default, put, put_implicit, put_optional, required, unless_default,
};
use pkix_name::GeneralName;
use std::alloc::Global;

/// A number of levels below the base of a subtree (RFC 5280, 4.2.1.10).
pub type BaseDistance = Integer;

/// Names that are meant with all below them (RFC 5280, 4.2.1.10).
pub type GeneralSubtrees = SequenceOf<GeneralSubtree>;

/// Whether the subject may issue certificates, and how long a path after it may be (RFC 5280, 4.2.1.9).
#[derive(Clone, Debug, Drop, PartialEq, Eq, PartialOrd, Ord, Hash)]
pub struct BasicConstraints {
    /// FALSE where it isn't written.
    pub ca: bool,
    /// How many certificates may come between this one and the last of a path.
    pub path_len_constraint: Option<Integer>,
}

impl TryClone for BasicConstraints {
    ghost copies_are_equal = { Prim.search rules };
}

impl Form for BasicConstraints {
    ghost codec = { basic_constraints };
}

#[tactic(auto, unfolding(crate::specs::Constraints::basic_constraints_fields))]
impl Sequence for BasicConstraints {
    ghost layout = { basic_constraints_fields };

    ghost is_sequence = { refl };

    fn put_fields(&self, alloc: Global, fields: &mut Trees) -> Result<(), EncodeError> {
        put_optional(alloc, fields, unless_default(&self.ca, &false))?;
        put_optional(alloc, fields, self.path_len_constraint.as_ref())?;
        Ok(())
    }

    fn read_fields(alloc: Global, fields: &mut Fields<'_>) -> Result<Self, DecodeError> {
        Ok(BasicConstraints {
            ca: defaulted(alloc, fields, false)?,
            path_len_constraint: optional(alloc, fields)?,
        })
    }
}

/// The names that certificates further on in a path may have (RFC 5280, 4.2.1.10).
#[derive(Clone, Debug, Drop, PartialEq, Eq, Hash)]
pub struct NameConstraints {
    pub permitted_subtrees: Option<GeneralSubtrees>,
    pub excluded_subtrees: Option<GeneralSubtrees>,
}

impl TryClone for NameConstraints {
    ghost copies_are_equal = { Prim.search rules };
}

impl Form for NameConstraints {
    ghost codec = { name_constraints };
}

#[tactic(auto, unfolding(crate::specs::Constraints::name_constraints_fields))]
impl Sequence for NameConstraints {
    ghost layout = { name_constraints_fields };

    ghost is_sequence = { refl };

    fn put_fields(&self, alloc: Global, fields: &mut Trees) -> Result<(), EncodeError> {
        put_implicit(
            alloc,
            fields,
            self.permitted_subtrees.as_ref(),
            Tag::CONTEXT_0,
        )?;
        put_implicit(
            alloc,
            fields,
            self.excluded_subtrees.as_ref(),
            Tag::CONTEXT_1,
        )?;
        Ok(())
    }

    fn read_fields(alloc: Global, fields: &mut Fields<'_>) -> Result<Self, DecodeError> {
        Ok(NameConstraints {
            permitted_subtrees: implicit(alloc, fields, Tag::CONTEXT_0)?,
            excluded_subtrees: implicit(alloc, fields, Tag::CONTEXT_1)?,
        })
    }
}

/// A name with all below it (RFC 5280, 4.2.1.10).
#[derive(Clone, Debug, Drop, PartialEq, Eq, Hash)]
pub struct GeneralSubtree {
    pub base: GeneralName,
    /// 0 where it isn't written, and always so by RFC 5280; that isn't checked here.
    pub minimum: BaseDistance,
    /// None by RFC 5280; that isn't checked here.
    pub maximum: Option<BaseDistance>,
}

impl TryClone for GeneralSubtree {
    ghost copies_are_equal = { Prim.search rules };
}

impl Form for GeneralSubtree {
    ghost codec = { general_subtree };
}

#[tactic(auto, unfolding(crate::specs::Constraints::general_subtree_fields))]
impl Sequence for GeneralSubtree {
    ghost layout = { general_subtree_fields };

    ghost is_sequence = { refl };

    fn put_fields(&self, alloc: Global, fields: &mut Trees) -> Result<(), EncodeError> {
        put(alloc, fields, &self.base)?;
        put_implicit(
            alloc,
            fields,
            unless_default(&self.minimum, &Integer::from_unsigned(alloc, &[])?),
            Tag::CONTEXT_0,
        )?;
        put_implicit(alloc, fields, self.maximum.as_ref(), Tag::CONTEXT_1)?;
        Ok(())
    }

    fn read_fields(alloc: Global, fields: &mut Fields<'_>) -> Result<Self, DecodeError> {
        Ok(GeneralSubtree {
            base: required(alloc, fields)?,
            minimum: or_default(
                implicit(alloc, fields, Tag::CONTEXT_0)?,
                Integer::from_unsigned(alloc, &[])?,
            )?,
            maximum: implicit(alloc, fields, Tag::CONTEXT_1)?,
        })
    }
}
