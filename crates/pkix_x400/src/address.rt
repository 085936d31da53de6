ghost use Rattle.std.specs.Prelude.{◌≡◌, Some, refl};
ghost use Rattle.std.proofs.Common.{rules};
ghost use Rattle.der_tree.specs.Tags.{universal};
ghost use Rattle.pkix_x400.specs.Addresses.{or_address, or_address_fields, built_in_domain_defined_attributes, built_in_domain_defined_attribute, built_in_domain_defined_attribute_fields, extension_attributes, extension_attribute, extension_attribute_fields};

use crate::standard::BuiltInStandardAttributes;
use asn1_core::{PrintableString, Tag, TryClone};
use der_tree::{
    Any, DecodeError, DerType, EncodeError, Fields, Form, Sequence, SequenceOf, SetOf, Tree, Trees,
    Window, optional, put, put_explicit, put_implicit_number, put_optional, put_text, required,
    required_explicit, required_implicit_number, required_text, sequence_of, sequence_tree, set_of,
    set_tree,
};
use std::alloc::Global;
use std::ops::{Deref, DerefMut};

/// An address of a user or of a list of users, as a general name carries it (RFC 5280, A.1).
#[derive(Clone, Debug, Drop, PartialEq, Eq, Hash)]
pub struct OrAddress {
    /// What each domain understands.
    pub built_in_standard_attributes: BuiltInStandardAttributes,
    /// What the user's own domain understands.
    pub built_in_domain_defined_attributes: Option<BuiltInDomainDefinedAttributes>,
    /// What came with later editions.
    pub extension_attributes: Option<ExtensionAttributes>,
}

impl TryClone for OrAddress {
    ghost use Rattle.pkix_x400.specs.contracts.standard.BuiltInStandardAttributesTryClone.TheImpl.Laws.{copies_are_equal-law as built_in_standard_attributes_copies};

    ghost copies_are_equal = { λ x y same. Prim.search (built_in_standard_attributes_copies _ _ same.0, rules) };
}

impl Form for OrAddress {
    ghost codec = { or_address };
}

#[tactic(auto, unfolding(crate::specs::Addresses::or_address_fields))]
impl Sequence for OrAddress {
    ghost layout = { or_address_fields };

    ghost is_sequence = { refl };

    fn put_fields(&self, alloc: Global, fields: &mut Trees) -> Result<(), EncodeError> {
        put(alloc, fields, &self.built_in_standard_attributes)?;
        put_optional(
            alloc,
            fields,
            self.built_in_domain_defined_attributes.as_ref(),
        )?;
        put_optional(alloc, fields, self.extension_attributes.as_ref())?;
        Ok(())
    }

    fn read_fields(alloc: Global, fields: &mut Fields<'_>) -> Result<Self, DecodeError> {
        Ok(OrAddress {
            built_in_standard_attributes: required(alloc, fields)?,
            built_in_domain_defined_attributes: optional(alloc, fields)?,
            extension_attributes: optional(alloc, fields)?,
        })
    }
}

/// One to four attributes that the domain defines (RFC 5280, A.1).
#[derive(Clone, Debug, PartialEq, Eq, PartialOrd, Ord, Hash)]
pub struct BuiltInDomainDefinedAttributes(pub SequenceOf<BuiltInDomainDefinedAttribute>);

impl Drop for BuiltInDomainDefinedAttributes {
    fn drop(self) {
        let BuiltInDomainDefinedAttributes(_) = self;
    }
}

impl From<SequenceOf<BuiltInDomainDefinedAttribute>> for BuiltInDomainDefinedAttributes {
    ghost from_gives = { λ inner v. v.0 ≡ inner };

    fn from(inner: SequenceOf<BuiltInDomainDefinedAttribute>) -> BuiltInDomainDefinedAttributes {
        BuiltInDomainDefinedAttributes(inner)
    }
}

impl Deref for BuiltInDomainDefinedAttributes {
    type Target = SequenceOf<BuiltInDomainDefinedAttribute>;

    ghost deref_gives = { λ v inner. inner ≡ v.0 };

    fn deref(&self) -> &SequenceOf<BuiltInDomainDefinedAttribute> {
        &self.0
    }
}

impl DerefMut for BuiltInDomainDefinedAttributes {
    ghost use Rattle.std.specs.Borrow.{sem};
    ghost use Rattle.pkix_x400.specs.Lending.{LendsBuiltInDomainDefinedAttributes};

    ghost deref_mut_gives = { λ v inner. inner ≡ v.0 };

    fn deref_mut(&mut self) -> &mut SequenceOf<BuiltInDomainDefinedAttribute>
        ensures* writes_back { sem 𝓛 (LendsBuiltInDomainDefinedAttributes self.entry result) }
        ensures value { result.now ≡ self.old.0 }
    {
        &mut self.0
    }
}

impl TryClone for BuiltInDomainDefinedAttributes {
    ghost copies_are_equal = { Prim.search rules };
}

impl Form for BuiltInDomainDefinedAttributes {
    ghost codec = { built_in_domain_defined_attributes };
}

impl DerType for BuiltInDomainDefinedAttributes {
    ghost TAG = { Some (universal 16) };

    ghost tag_is = { refl };

    const TAG: Option<Tag> = Some(Tag::SEQUENCE);

    fn starts(tag: Tag) -> bool {
        tag == Tag::SEQUENCE
    }

    fn to_tree(&self, alloc: Global) -> Result<Tree, EncodeError> {
        sequence_tree(alloc, &self.0, 1, Some(4))
    }

    fn from_tree(alloc: Global, window: Window<'_>) -> Result<Self, DecodeError> {
        Ok(BuiltInDomainDefinedAttributes(sequence_of(alloc, window, 1, Some(4))?))
    }
}

/// An attribute that the domain defines (RFC 5280, A.1).
#[derive(Clone, Debug, Drop, PartialEq, Eq, PartialOrd, Ord, Hash)]
pub struct BuiltInDomainDefinedAttribute {
    /// Which attribute it is, in 1 to 8 characters.
    pub kind: PrintableString,
    /// Its value, of 1 to 128 characters.
    pub value: PrintableString,
}

impl TryClone for BuiltInDomainDefinedAttribute {
    ghost copies_are_equal = { Prim.search rules };
}

impl Form for BuiltInDomainDefinedAttribute {
    ghost codec = { built_in_domain_defined_attribute };
}

#[tactic(auto, unfolding(crate::specs::Addresses::built_in_domain_defined_attribute_fields))]
impl Sequence for BuiltInDomainDefinedAttribute {
    ghost layout = { built_in_domain_defined_attribute_fields };

    ghost is_sequence = { refl };

    fn put_fields(&self, alloc: Global, fields: &mut Trees) -> Result<(), EncodeError> {
        put_text(alloc, fields, Some(&self.kind), 1, Some(8))?;
        put_text(alloc, fields, Some(&self.value), 1, Some(128))?;
        Ok(())
    }

    fn read_fields(alloc: Global, fields: &mut Fields<'_>) -> Result<Self, DecodeError> {
        Ok(BuiltInDomainDefinedAttribute {
            kind: required_text(alloc, fields, 1, Some(8))?,
            value: required_text(alloc, fields, 1, Some(128))?,
        })
    }
}

/// One to 256 further attributes (RFC 5280, A.1).
#[derive(Clone, Debug, PartialEq, Eq, Hash)]
pub struct ExtensionAttributes(pub SetOf<ExtensionAttribute>);

impl Drop for ExtensionAttributes {
    fn drop(self) {
        let ExtensionAttributes(_) = self;
    }
}

impl From<SetOf<ExtensionAttribute>> for ExtensionAttributes {
    ghost from_gives = { λ inner v. v.0 ≡ inner };

    fn from(inner: SetOf<ExtensionAttribute>) -> ExtensionAttributes {
        ExtensionAttributes(inner)
    }
}

impl Deref for ExtensionAttributes {
    type Target = SetOf<ExtensionAttribute>;

    ghost deref_gives = { λ v inner. inner ≡ v.0 };

    fn deref(&self) -> &SetOf<ExtensionAttribute> {
        &self.0
    }
}

impl DerefMut for ExtensionAttributes {
    ghost use Rattle.std.specs.Borrow.{sem};
    ghost use Rattle.pkix_x400.specs.Lending.{LendsExtensionAttributes};

    ghost deref_mut_gives = { λ v inner. inner ≡ v.0 };

    fn deref_mut(&mut self) -> &mut SetOf<ExtensionAttribute>
        ensures* writes_back { sem 𝓛 (LendsExtensionAttributes self.entry result) }
        ensures value { result.now ≡ self.old.0 }
    {
        &mut self.0
    }
}

impl TryClone for ExtensionAttributes {
    ghost copies_are_equal = { Prim.search rules };
}

impl Form for ExtensionAttributes {
    ghost codec = { extension_attributes };
}

impl DerType for ExtensionAttributes {
    ghost TAG = { Some (universal 17) };

    ghost tag_is = { refl };

    const TAG: Option<Tag> = Some(Tag::SET);

    fn starts(tag: Tag) -> bool {
        tag == Tag::SET
    }

    fn to_tree(&self, alloc: Global) -> Result<Tree, EncodeError> {
        set_tree(alloc, &self.0, 1, Some(256))
    }

    fn from_tree(alloc: Global, window: Window<'_>) -> Result<Self, DecodeError> {
        Ok(ExtensionAttributes(set_of(alloc, window, 1, Some(256))?))
    }
}

/// A further attribute, in the form that its number has (RFC 5280, A.1).
#[derive(Clone, Debug, Drop, PartialEq, Eq, PartialOrd, Ord, Hash)]
pub struct ExtensionAttribute {
    /// Which attribute it is, 0 to 256.
    pub extension_attribute_type: u16,
    /// One element of the type that the number has.
    pub extension_attribute_value: Any,
}

impl TryClone for ExtensionAttribute {
    ghost copies_are_equal = { Prim.search rules };
}

impl Form for ExtensionAttribute {
    ghost codec = { extension_attribute };
}

#[tactic(auto, unfolding(crate::specs::Addresses::extension_attribute_fields))]
impl Sequence for ExtensionAttribute {
    ghost layout = { extension_attribute_fields };

    ghost is_sequence = { refl };

    fn put_fields(&self, alloc: Global, fields: &mut Trees) -> Result<(), EncodeError> {
        put_implicit_number(
            alloc,
            fields,
            u64::from(self.extension_attribute_type),
            Tag::CONTEXT_0,
            256,
        )?;
        put_explicit(
            alloc,
            fields,
            Some(&self.extension_attribute_value),
            Tag::CONTEXT_1,
        )?;
        Ok(())
    }

    fn read_fields(alloc: Global, fields: &mut Fields<'_>) -> Result<Self, DecodeError> {
        let number = required_implicit_number(fields, Tag::CONTEXT_0, 256)?;
        let extension_attribute_value = required_explicit(alloc, fields, Tag::CONTEXT_1)?;
        Ok(ExtensionAttribute {
            extension_attribute_type: number as u16,
            extension_attribute_value,
        })
    }
}
