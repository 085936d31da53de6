ghost use Rattle.std.specs.Prelude.{Some, refl};
ghost use Rattle.std.proofs.Common.{rules};
ghost use Rattle.der_tree.specs.Tags.{universal};
ghost use Rattle.pkix_attr.specs.Digests.{object_digest_info, object_digest_info_fields, disgested_object_type};

use asn1_core::{BitString, ObjectIdentifier, Tag, TryClone};
use der_tree::{
    DecodeError, DerType, EncodeError, Fields, Form, Sequence, Tree, Trees, Window,
    enumerated_number, enumerated_tree, optional, put, put_optional, required,
};
use pkix_cert::AlgorithmIdentifier;
use std::alloc::Global;

/// The digest of an object that an attribute certificate is for (RFC 5755, 4.2.2).
#[derive(Clone, Debug, PartialEq, Eq, PartialOrd, Ord, Hash)]
pub struct ObjectDigestInfo {
    /// What was digested.
    pub digested_object_type: DisgestedObjectType,
    /// Of what type the object is, where it is of another.
    pub other_object_type_id: Option<ObjectIdentifier>,
    /// The algorithm of the digest.
    pub digest_algorithm: AlgorithmIdentifier,
    /// The digest.
    pub object_digest: BitString,
}

impl Drop for ObjectDigestInfo {
    fn drop(self) {
        let ObjectDigestInfo {
            digested_object_type: _,
            other_object_type_id: _,
            digest_algorithm: _,
            object_digest: _,
        } = self;
    }
}

impl TryClone for ObjectDigestInfo {
    ghost copies_are_equal = { Prim.search rules };
}

impl Form for ObjectDigestInfo {
    ghost codec = { object_digest_info };
}

#[tactic(auto, unfolding(crate::specs::Digests::object_digest_info_fields))]
impl Sequence for ObjectDigestInfo {
    ghost layout = { object_digest_info_fields };

    ghost is_sequence = { refl };

    fn put_fields(&self, alloc: Global, fields: &mut Trees) -> Result<(), EncodeError> {
        put(alloc, fields, &self.digested_object_type)?;
        put_optional(alloc, fields, self.other_object_type_id.as_ref())?;
        put(alloc, fields, &self.digest_algorithm)?;
        put(alloc, fields, &self.object_digest)?;
        Ok(())
    }

    fn read_fields(alloc: Global, fields: &mut Fields<'_>) -> Result<Self, DecodeError> {
        Ok(ObjectDigestInfo {
            digested_object_type: required(alloc, fields)?,
            other_object_type_id: optional(alloc, fields)?,
            digest_algorithm: required(alloc, fields)?,
            object_digest: required(alloc, fields)?,
        })
    }
}

/// What was digested (RFC 5755, 4.2.2).
#[derive(Clone, Copy, Debug, PartialEq, Eq, PartialOrd, Ord, Hash)]
pub enum DisgestedObjectType {
    /// A public key, 0.
    PublicKey,
    /// A certificate of a public key, 1.
    PublicKeyCert,
    /// An object of another type, 2.
    OtherObjectTypes,
}

impl TryClone for DisgestedObjectType {
    ghost copies_are_equal = { Prim.search rules };
}

impl Form for DisgestedObjectType {
    ghost codec = { disgested_object_type };
}

impl DerType for DisgestedObjectType {
    ghost TAG = { Some (universal 10) };

    ghost tag_is = { refl };

    const TAG: Option<Tag> = Some(Tag::ENUMERATED);

    fn starts(tag: Tag) -> bool {
        tag == Tag::ENUMERATED
    }

    fn to_tree(&self, alloc: Global) -> Result<Tree, EncodeError> {
        let number = match self {
            DisgestedObjectType::PublicKey => 0,
            DisgestedObjectType::PublicKeyCert => 1,
            DisgestedObjectType::OtherObjectTypes => 2,
        };
        enumerated_tree(alloc, number)
    }

    fn from_tree(_alloc: Global, window: Window<'_>) -> Result<Self, DecodeError> {
        match enumerated_number(window)? {
            0 => Ok(DisgestedObjectType::PublicKey),
            1 => Ok(DisgestedObjectType::PublicKeyCert),
            2 => Ok(DisgestedObjectType::OtherObjectTypes),
            _ => Err(DecodeError::NotInGrammar),
        }
    }
}
