ghost use Rattle.std.specs.Prelude.{◌≡◌, refl};
ghost use Rattle.std.proofs.Common.{rules};
ghost use Rattle.pkix_attr.specs.Controls.{aa_controls, aa_controls_fields};

use asn1_core::{Integer, ObjectIdentifier, Tag, TryClone};
use der_tree::{
    DecodeError, EncodeError, Fields, Form, Sequence, SequenceOf, Trees, defaulted, implicit,
    optional, put_implicit, put_optional, unless_default,
};
use std::alloc::Global;

/// Identifiers of attributes (RFC 5755, 7.4).
pub type AttrSpec = SequenceOf<ObjectIdentifier>;

/// Which attributes an issuer may certify (RFC 5755, 7.4).
#[derive(Clone, Debug, Drop, PartialEq, Eq, PartialOrd, Ord, Hash)]
pub struct AaControls {
    /// How many certificates may come between the issuer's and the last of a path.
    path_len_constraint: Option<Integer>,
    /// The attributes that may be certified, where not all.
    permitted_attrs: Option<AttrSpec>,
    /// Those that may not.
    excluded_attrs: Option<AttrSpec>,
    /// Whether others may be; TRUE where it isn't written.
    permit_unspecified: bool,
}

impl AaControls {
    /// The value of these fields.
    pub fn new(
        path_len_constraint: Option<Integer>,
        permitted_attrs: Option<AttrSpec>,
        excluded_attrs: Option<AttrSpec>,
        permit_unspecified: bool,
    ) -> AaControls
        ensures path_len_constraint { result.path_len_constraint ≡ path_len_constraint }
        ensures permitted_attrs { result.permitted_attrs ≡ permitted_attrs }
        ensures excluded_attrs { result.excluded_attrs ≡ excluded_attrs }
        ensures permit_unspecified { result.permit_unspecified ≡ permit_unspecified }
    {
        AaControls {
            path_len_constraint,
            permitted_attrs,
            excluded_attrs,
            permit_unspecified,
        }
    }

    /// How many certificates may come between the issuer's and the last of a path.
    pub fn path_len_constraint(&self) -> &Option<Integer>
        ensures { result.now ≡ self.now.path_len_constraint }
    {
        &self.path_len_constraint
    }

    /// The attributes that may be certified, where not all.
    pub fn permitted_attrs(&self) -> &Option<AttrSpec>
        ensures { result.now ≡ self.now.permitted_attrs }
    {
        &self.permitted_attrs
    }

    /// Those that may not.
    pub fn excluded_attrs(&self) -> &Option<AttrSpec>
        ensures { result.now ≡ self.now.excluded_attrs }
    {
        &self.excluded_attrs
    }

    /// Whether others may be; TRUE where it isn't written.
    pub fn permit_unspecified(&self) -> &bool
        ensures { result.now ≡ self.now.permit_unspecified }
    {
        &self.permit_unspecified
    }
}

impl TryClone for AaControls {
    ghost copies_are_equal = { Prim.search rules };
}

impl Form for AaControls {
    ghost codec = { aa_controls };
}

#[tactic(auto, unfolding(crate::specs::Controls::aa_controls_fields))]
impl Sequence for AaControls {
    ghost layout = { aa_controls_fields };

    ghost is_sequence = { refl };

    fn put_fields(&self, alloc: Global, fields: &mut Trees) -> Result<(), EncodeError> {
        put_optional(alloc, fields, self.path_len_constraint.as_ref())?;
        put_implicit(alloc, fields, self.permitted_attrs.as_ref(), Tag::CONTEXT_0)?;
        put_implicit(alloc, fields, self.excluded_attrs.as_ref(), Tag::CONTEXT_1)?;
        put_optional(
            alloc,
            fields,
            unless_default(&self.permit_unspecified, &true),
        )?;
        Ok(())
    }

    fn read_fields(alloc: Global, fields: &mut Fields<'_>) -> Result<Self, DecodeError> {
        Ok(AaControls {
            path_len_constraint: optional(alloc, fields)?,
            permitted_attrs: implicit(alloc, fields, Tag::CONTEXT_0)?,
            excluded_attrs: implicit(alloc, fields, Tag::CONTEXT_1)?,
            permit_unspecified: defaulted(alloc, fields, true)?,
        })
    }
}
