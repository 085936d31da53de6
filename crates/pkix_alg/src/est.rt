ghost use Rattle.std.specs.Prelude.{None, refl};
ghost use Rattle.std.proofs.Common.{rules};
ghost use Rattle.pkix_alg.specs.Enrolment.{attr_or_oid, attribute, attribute_fields};

use asn1_core::{ObjectIdentifier, OctetString, Tag, TryClone};
use der_tree::{
    Any, DecodeError, DerType, EncodeError, Fields, Form, Sequence, SequenceOf, SetOf, Tree, Trees,
    Window, put, required,
};
use std::alloc::Global;

/// The attribute that names the key to encrypt a private key with (RFC 7030,
/// 4.4.1.2), 1.2.840.113549.1.9.16.2.54.
pub const ASYMMETRIC_DECRYPT_KEY_OID: &[u32] = &[1, 2, 840, 113549, 1, 9, 16, 2, 54];

/// The identifier of the key that a server is to encrypt a private key with (RFC 7030, 4.4.1.2).
pub type AsymmetricDecryptKeyIdentifier = OctetString;

/// What a server asks a request to have (RFC 7030, 4.5.2).
pub type CsrAttrs = SequenceOf<AttrOrOid>;

/// One attribute that a request is to have (RFC 7030, 4.5.2).
#[derive(Clone, Debug, Drop, PartialEq)]
pub enum AttrOrOid {
    /// The attribute of this type, or the algorithm.
    Oid(ObjectIdentifier),
    /// This attribute.
    Attribute(Attribute),
}

impl TryClone for AttrOrOid {
    ghost copies_are_equal = { Prim.search rules };
}

impl Form for AttrOrOid {
    ghost codec = { attr_or_oid };
}

impl DerType for AttrOrOid {
    ghost TAG = { None };

    ghost tag_is = { refl };

    const TAG: Option<Tag> = None;

    fn starts(tag: Tag) -> bool {
        ObjectIdentifier::starts(tag) || Attribute::starts(tag)
    }

    fn to_tree(&self, alloc: Global) -> Result<Tree, EncodeError> {
        match self {
            AttrOrOid::Oid(value) => value.to_tree(alloc),
            AttrOrOid::Attribute(value) => value.to_tree(alloc),
        }
    }

    fn from_tree(alloc: Global, window: Window<'_>) -> Result<Self, DecodeError> {
        let tag = window.tag();
        if ObjectIdentifier::starts(tag) {
            Ok(AttrOrOid::Oid(ObjectIdentifier::from_tree(alloc, window)?))
        } else {
            Ok(AttrOrOid::Attribute(Attribute::from_tree(alloc, window)?))
        }
    }
}

/// An attribute and what its values are to be (RFC 7030, 4.5.2).
#[derive(Clone, Debug, Drop, PartialEq)]
pub struct Attribute {
    /// Which attribute it is.
    pub attr_type: ObjectIdentifier,
    /// The values that are asked for, none where any will do.
    pub values: SetOf<Any>,
}

impl TryClone for Attribute {
    ghost copies_are_equal = { Prim.search rules };
}

impl Form for Attribute {
    ghost codec = { attribute };
}

#[tactic(auto, unfolding(crate::specs::Enrolment::attribute_fields))]
impl Sequence for Attribute {
    ghost layout = { attribute_fields };

    ghost is_sequence = { refl };

    fn put_fields(&self, alloc: Global, fields: &mut Trees) -> Result<(), EncodeError> {
        put(alloc, fields, &self.attr_type)?;
        put(alloc, fields, &self.values)?;
        Ok(())
    }

    fn read_fields(alloc: Global, fields: &mut Fields<'_>) -> Result<Self, DecodeError> {
        Ok(Attribute {
            attr_type: required(alloc, fields)?,
            values: required(alloc, fields)?,
        })
    }
}
