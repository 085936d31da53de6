ghost use Rattle.std.specs.Prelude.{◌≡◌, Some, None, refl};
ghost use Rattle.std.proofs.Common.{rules};
ghost use Rattle.der_tree.specs.Tags.{universal};
ghost use Rattle.pkix_name.specs.Names.{attribute, attribute_fields, attribute_type_and_value, attribute_type_and_value_fields, relative_distinguished_name, name};

use asn1_core::{ObjectIdentifier, Tag, TryClone};
use der_tree::{
    Any, DecodeError, DerType, EncodeError, Fields, Form, Sequence, SequenceOf, SetOf, Tree, Trees,
    Window, put, required, set_of, set_tree,
};
use std::alloc::Global;
use std::ops::{Deref, DerefMut};

/// The type of an attribute of a name.
pub type AttributeType = ObjectIdentifier;

/// The value of an attribute, one element.
pub type AttributeValue = Any;

/// The parts of a name in order.
pub type RdnSequence = SequenceOf<RelativeDistinguishedName>;

/// A name (RFC 5280, 4.1.2.4).
#[derive(Clone, Debug, Drop, PartialEq, Eq, Hash)]
pub enum Name {
    RdnSequence(RdnSequence),
}

impl TryClone for Name {
    ghost copies_are_equal = { Prim.search rules };
}

impl Form for Name {
    ghost codec = { name };
}

impl DerType for Name {
    ghost TAG = { None };

    ghost tag_is = { refl };

    const TAG: Option<Tag> = None;

    fn starts(tag: Tag) -> bool {
        RdnSequence::starts(tag)
    }

    fn to_tree(&self, alloc: Global) -> Result<Tree, EncodeError> {
        match self {
            Name::RdnSequence(parts) => parts.to_tree(alloc),
        }
    }

    fn from_tree(alloc: Global, window: Window<'_>) -> Result<Self, DecodeError> {
        Ok(Name::RdnSequence(RdnSequence::from_tree(alloc, window)?))
    }
}

/// One part of a name: one attribute or more (RFC 5280, 4.1.2.4).
#[derive(Clone, Debug, Drop, PartialEq, Eq, Hash)]
pub struct RelativeDistinguishedName(pub SetOf<AttributeTypeAndValue>);

impl From<SetOf<AttributeTypeAndValue>> for RelativeDistinguishedName {
    ghost from_gives = { λ inner v. v.0 ≡ inner };

    fn from(inner: SetOf<AttributeTypeAndValue>) -> RelativeDistinguishedName {
        RelativeDistinguishedName(inner)
    }
}

impl Deref for RelativeDistinguishedName {
    type Target = SetOf<AttributeTypeAndValue>;

    ghost deref_gives = { λ v inner. inner ≡ v.0 };

    fn deref(&self) -> &SetOf<AttributeTypeAndValue> {
        &self.0
    }
}

impl DerefMut for RelativeDistinguishedName {
    ghost use Rattle.std.specs.Borrow.{sem};
    ghost use Rattle.pkix_name.specs.Lending.{LendsAttributes};

    ghost deref_mut_gives = { λ v inner. inner ≡ v.0 };

    fn deref_mut(&mut self) -> &mut SetOf<AttributeTypeAndValue>
        ensures* writes_back { sem 𝓛 (LendsAttributes self.entry result) }
        ensures value { result.now ≡ self.old.0 }
    {
        &mut self.0
    }
}

impl TryClone for RelativeDistinguishedName {
    ghost copies_are_equal = { Prim.search rules };
}

impl Form for RelativeDistinguishedName {
    ghost codec = { relative_distinguished_name };
}

impl DerType for RelativeDistinguishedName {
    ghost TAG = { Some (universal 17) };

    ghost tag_is = { refl };

    const TAG: Option<Tag> = Some(Tag::SET);

    fn starts(tag: Tag) -> bool {
        tag == Tag::SET
    }

    fn to_tree(&self, alloc: Global) -> Result<Tree, EncodeError> {
        set_tree(alloc, &self.0, 1, None)
    }

    fn from_tree(alloc: Global, window: Window<'_>) -> Result<Self, DecodeError> {
        Ok(RelativeDistinguishedName(set_of(alloc, window, 1, None)?))
    }
}

/// An attribute of a name (RFC 5280, 4.1.2.4).
#[derive(Clone, Debug, Drop, PartialEq, Eq, PartialOrd, Ord, Hash)]
pub struct AttributeTypeAndValue {
    pub attr_type: AttributeType,
    pub value: AttributeValue,
}

impl TryClone for AttributeTypeAndValue {
    ghost copies_are_equal = { Prim.search rules };
}

impl Form for AttributeTypeAndValue {
    ghost codec = { attribute_type_and_value };
}

#[tactic(auto, unfolding(crate::specs::Names::attribute_type_and_value_fields))]
impl Sequence for AttributeTypeAndValue {
    ghost layout = { attribute_type_and_value_fields };

    ghost is_sequence = { refl };

    fn put_fields(&self, alloc: Global, fields: &mut Trees) -> Result<(), EncodeError> {
        put(alloc, fields, &self.attr_type)?;
        put(alloc, fields, &self.value)?;
        Ok(())
    }

    fn read_fields(alloc: Global, fields: &mut Fields<'_>) -> Result<Self, DecodeError> {
        Ok(AttributeTypeAndValue {
            attr_type: required(alloc, fields)?,
            value: required(alloc, fields)?,
        })
    }
}

/// An attribute, with its values (RFC 5280, A.1). There is to be one value or more; that isn't checked here.
#[derive(Clone, Debug, Drop, PartialEq, Eq, Hash)]
pub struct Attribute {
    pub attr_type: AttributeType,
    pub values: SetOf<AttributeValue>,
}

impl TryClone for Attribute {
    ghost copies_are_equal = { Prim.search rules };
}

impl Form for Attribute {
    ghost codec = { attribute };
}

#[tactic(auto, unfolding(crate::specs::Names::attribute_fields))]
impl Sequence for Attribute {
    ghost layout = { attribute_fields };

    ghost is_sequence = { refl };

    fn put_fields(&self, alloc: Global, fields: &mut Trees) -> Result<(), EncodeError> {
        put(alloc, fields, &self.attr_type)?;
        put(alloc, fields, &self.values)?;
        Ok(())
    }

    fn read_fields(alloc: Global, fields: &mut Fields<'_>) -> Result<Self, DecodeError> {
        Ok(Attribute {
            attr_type: required(alloc, fields)?,
            values: required(alloc, fields)?,
        })
    }
}
