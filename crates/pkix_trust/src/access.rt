ghost use Rattle.std.specs.Prelude.{refl};
ghost use Rattle.std.proofs.Common.{rules};
ghost use Rattle.pkix_trust.specs.Accesses.{access_description, access_description_fields};

use asn1_core::{ObjectIdentifier, TryClone};
use der_tree::{
    DecodeError, EncodeError, Fields, Form, Sequence, SequenceOf, Trees, put, required,
};
use pkix_name::GeneralName;
use std::alloc::Global;

/// Where more on the subject is found (RFC 5280, 4.2.2.2).
pub type SubjectInfoAccessSyntax = SequenceOf<AccessDescription>;

/// Where more on the issuer is found (RFC 5280, 4.2.2.1).
pub type AuthorityInfoAccessSyntax = SequenceOf<AccessDescription>;

/// How and where more is found (RFC 5280, 4.2.2.1).
#[derive(Clone, Debug, Drop, PartialEq, Eq, Hash)]
pub struct AccessDescription {
    /// What is found, and how.
    pub access_method: ObjectIdentifier,
    /// Where it is found.
    pub access_location: GeneralName,
}

impl TryClone for AccessDescription {
    ghost copies_are_equal = { Prim.search rules };
}

impl Form for AccessDescription {
    ghost codec = { access_description };
}

#[tactic(auto, unfolding(crate::specs::Accesses::access_description_fields))]
impl Sequence for AccessDescription {
    ghost layout = { access_description_fields };

    ghost is_sequence = { refl };

    fn put_fields(&self, alloc: Global, fields: &mut Trees) -> Result<(), EncodeError> {
        put(alloc, fields, &self.access_method)?;
        put(alloc, fields, &self.access_location)?;
        Ok(())
    }

    fn read_fields(alloc: Global, fields: &mut Fields<'_>) -> Result<Self, DecodeError> {
        Ok(AccessDescription {
            access_method: required(alloc, fields)?,
            access_location: required(alloc, fields)?,
        })
    }
}
