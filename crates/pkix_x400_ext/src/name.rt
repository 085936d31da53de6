ghost use Rattle.std.specs.Prelude.{◌≡◌, Some, refl};
ghost use Rattle.std.proofs.Common.{rules};
ghost use Rattle.der_tree.specs.Tags.{universal};
ghost use Rattle.pkix_x400_ext.specs.Names.{common_name, teletex_common_name, teletex_organization_name, teletex_organisational_unit_names, teletex_organisational_unit_name, teletex_personal_name, teletex_domain_defined_attributes, teletex_domain_defined_attribute, teletex_domain_defined_attribute_fields};

use asn1_core::{PrintableString, Tag, TeletexString, TryClone};
use der_tree::{
    DecodeError, DerType, EncodeError, Fields, Form, Sequence, SequenceOf, Tree, Trees, Window,
    finish, implicit_text, opened, put_implicit_text, put_text, required_implicit_text,
    required_text, sequence_of, sequence_tree, text_of, text_tree,
};
use std::alloc::Global;
use std::ops::{Deref, DerefMut};

/// A name by which a user is commonly known, of 1 to 64 characters (RFC 5280, A.1).
#[derive(Clone, Debug, Drop, PartialEq, Eq, PartialOrd, Ord, Hash)]
pub struct CommonName(pub PrintableString);

impl From<PrintableString> for CommonName {
    ghost from_gives = { λ inner v. v.0 ≡ inner };

    fn from(inner: PrintableString) -> CommonName {
        CommonName(inner)
    }
}

impl Deref for CommonName {
    type Target = PrintableString;

    ghost deref_gives = { λ v inner. inner ≡ v.0 };

    fn deref(&self) -> &PrintableString {
        &self.0
    }
}

impl DerefMut for CommonName {
    ghost use Rattle.std.specs.Borrow.{sem};
    ghost use Rattle.pkix_x400_ext.specs.Lending.{LendsCommonName};

    ghost deref_mut_gives = { λ v inner. inner ≡ v.0 };

    fn deref_mut(&mut self) -> &mut PrintableString
        ensures* writes_back { sem 𝓛 (LendsCommonName self.entry result) }
        ensures value { result.now ≡ self.old.0 }
    {
        &mut self.0
    }
}

impl TryClone for CommonName {
    ghost copies_are_equal = { Prim.search rules };
}

impl Form for CommonName {
    ghost codec = { common_name };
}

impl DerType for CommonName {
    ghost TAG = { Some (universal 19) };

    ghost tag_is = { refl };

    const TAG: Option<Tag> = Some(Tag::PRINTABLE_STRING);

    fn starts(tag: Tag) -> bool {
        tag == Tag::PRINTABLE_STRING
    }

    fn to_tree(&self, alloc: Global) -> Result<Tree, EncodeError> {
        text_tree(alloc, &self.0, 1, Some(64))
    }

    fn from_tree(alloc: Global, window: Window<'_>) -> Result<Self, DecodeError> {
        Ok(CommonName(text_of(alloc, window, 1, Some(64))?))
    }
}

/// The same in teletex (RFC 5280, A.1).
#[derive(Clone, Debug, Drop, PartialEq, Eq, PartialOrd, Ord, Hash)]
pub struct TeletexCommonName(pub TeletexString);

impl From<TeletexString> for TeletexCommonName {
    ghost from_gives = { λ inner v. v.0 ≡ inner };

    fn from(inner: TeletexString) -> TeletexCommonName {
        TeletexCommonName(inner)
    }
}

impl Deref for TeletexCommonName {
    type Target = TeletexString;

    ghost deref_gives = { λ v inner. inner ≡ v.0 };

    fn deref(&self) -> &TeletexString {
        &self.0
    }
}

impl DerefMut for TeletexCommonName {
    ghost use Rattle.std.specs.Borrow.{sem};
    ghost use Rattle.pkix_x400_ext.specs.Lending.{LendsTeletexCommonName};

    ghost deref_mut_gives = { λ v inner. inner ≡ v.0 };

    fn deref_mut(&mut self) -> &mut TeletexString
        ensures* writes_back { sem 𝓛 (LendsTeletexCommonName self.entry result) }
        ensures value { result.now ≡ self.old.0 }
    {
        &mut self.0
    }
}

impl TryClone for TeletexCommonName {
    ghost copies_are_equal = { Prim.search rules };
}

impl Form for TeletexCommonName {
    ghost codec = { teletex_common_name };
}

impl DerType for TeletexCommonName {
    ghost TAG = { Some (universal 20) };

    ghost tag_is = { refl };

    const TAG: Option<Tag> = Some(Tag::TELETEX_STRING);

    fn starts(tag: Tag) -> bool {
        tag == Tag::TELETEX_STRING
    }

    fn to_tree(&self, alloc: Global) -> Result<Tree, EncodeError> {
        text_tree(alloc, &self.0, 1, Some(64))
    }

    fn from_tree(alloc: Global, window: Window<'_>) -> Result<Self, DecodeError> {
        Ok(TeletexCommonName(text_of(alloc, window, 1, Some(64))?))
    }
}

/// The name of an organization in teletex, of 1 to 64 octets (RFC 5280, A.1).
#[derive(Clone, Debug, Drop, PartialEq, Eq, PartialOrd, Ord, Hash)]
pub struct TeletexOrganizationName(pub TeletexString);

impl From<TeletexString> for TeletexOrganizationName {
    ghost from_gives = { λ inner v. v.0 ≡ inner };

    fn from(inner: TeletexString) -> TeletexOrganizationName {
        TeletexOrganizationName(inner)
    }
}

impl Deref for TeletexOrganizationName {
    type Target = TeletexString;

    ghost deref_gives = { λ v inner. inner ≡ v.0 };

    fn deref(&self) -> &TeletexString {
        &self.0
    }
}

impl DerefMut for TeletexOrganizationName {
    ghost use Rattle.std.specs.Borrow.{sem};
    ghost use Rattle.pkix_x400_ext.specs.Lending.{LendsTeletexOrganizationName};

    ghost deref_mut_gives = { λ v inner. inner ≡ v.0 };

    fn deref_mut(&mut self) -> &mut TeletexString
        ensures* writes_back { sem 𝓛 (LendsTeletexOrganizationName self.entry result) }
        ensures value { result.now ≡ self.old.0 }
    {
        &mut self.0
    }
}

impl TryClone for TeletexOrganizationName {
    ghost copies_are_equal = { Prim.search rules };
}

impl Form for TeletexOrganizationName {
    ghost codec = { teletex_organization_name };
}

impl DerType for TeletexOrganizationName {
    ghost TAG = { Some (universal 20) };

    ghost tag_is = { refl };

    const TAG: Option<Tag> = Some(Tag::TELETEX_STRING);

    fn starts(tag: Tag) -> bool {
        tag == Tag::TELETEX_STRING
    }

    fn to_tree(&self, alloc: Global) -> Result<Tree, EncodeError> {
        text_tree(alloc, &self.0, 1, Some(64))
    }

    fn from_tree(alloc: Global, window: Window<'_>) -> Result<Self, DecodeError> {
        Ok(TeletexOrganizationName(text_of(alloc, window, 1, Some(64))?))
    }
}

/// One to four units of an organization in teletex, from the highest down (RFC 5280, A.1).
#[derive(Clone, Debug, Drop, PartialEq, Eq, PartialOrd, Ord, Hash)]
pub struct TeletexOrganisationalUnitNames(pub SequenceOf<TeletexOrganisationalUnitName>);

impl From<SequenceOf<TeletexOrganisationalUnitName>> for TeletexOrganisationalUnitNames {
    ghost from_gives = { λ inner v. v.0 ≡ inner };

    fn from(inner: SequenceOf<TeletexOrganisationalUnitName>) -> TeletexOrganisationalUnitNames {
        TeletexOrganisationalUnitNames(inner)
    }
}

impl Deref for TeletexOrganisationalUnitNames {
    type Target = SequenceOf<TeletexOrganisationalUnitName>;

    ghost deref_gives = { λ v inner. inner ≡ v.0 };

    fn deref(&self) -> &SequenceOf<TeletexOrganisationalUnitName> {
        &self.0
    }
}

impl DerefMut for TeletexOrganisationalUnitNames {
    ghost use Rattle.std.specs.Borrow.{sem};
    ghost use Rattle.pkix_x400_ext.specs.Lending.{LendsTeletexOrganisationalUnitNames};

    ghost deref_mut_gives = { λ v inner. inner ≡ v.0 };

    fn deref_mut(&mut self) -> &mut SequenceOf<TeletexOrganisationalUnitName>
        ensures* writes_back { sem 𝓛 (LendsTeletexOrganisationalUnitNames self.entry result) }
        ensures value { result.now ≡ self.old.0 }
    {
        &mut self.0
    }
}

impl TryClone for TeletexOrganisationalUnitNames {
    ghost copies_are_equal = { Prim.search rules };
}

impl Form for TeletexOrganisationalUnitNames {
    ghost codec = { teletex_organisational_unit_names };
}

impl DerType for TeletexOrganisationalUnitNames {
    ghost TAG = { Some (universal 16) };

    ghost tag_is = { refl };

    const TAG: Option<Tag> = Some(Tag::SEQUENCE);

    fn starts(tag: Tag) -> bool {
        tag == Tag::SEQUENCE
    }

    fn to_tree(&self, alloc: Global) -> Result<Tree, EncodeError> {
        sequence_tree(alloc, &self.0, 1, Some(4))
    }

    fn from_tree(alloc: Global, window: Window<'_>) -> Result<Self, DecodeError> {
        Ok(TeletexOrganisationalUnitNames(sequence_of(alloc, window, 1, Some(4))?))
    }
}

/// A unit of an organization in teletex, of 1 to 32 octets (RFC 5280, A.1).
#[derive(Clone, Debug, Drop, PartialEq, Eq, PartialOrd, Ord, Hash)]
pub struct TeletexOrganisationalUnitName(pub TeletexString);

impl From<TeletexString> for TeletexOrganisationalUnitName {
    ghost from_gives = { λ inner v. v.0 ≡ inner };

    fn from(inner: TeletexString) -> TeletexOrganisationalUnitName {
        TeletexOrganisationalUnitName(inner)
    }
}

impl Deref for TeletexOrganisationalUnitName {
    type Target = TeletexString;

    ghost deref_gives = { λ v inner. inner ≡ v.0 };

    fn deref(&self) -> &TeletexString {
        &self.0
    }
}

impl DerefMut for TeletexOrganisationalUnitName {
    ghost use Rattle.std.specs.Borrow.{sem};
    ghost use Rattle.pkix_x400_ext.specs.Lending.{LendsTeletexOrganisationalUnitName};

    ghost deref_mut_gives = { λ v inner. inner ≡ v.0 };

    fn deref_mut(&mut self) -> &mut TeletexString
        ensures* writes_back { sem 𝓛 (LendsTeletexOrganisationalUnitName self.entry result) }
        ensures value { result.now ≡ self.old.0 }
    {
        &mut self.0
    }
}

impl TryClone for TeletexOrganisationalUnitName {
    ghost copies_are_equal = { Prim.search rules };
}

impl Form for TeletexOrganisationalUnitName {
    ghost codec = { teletex_organisational_unit_name };
}

impl DerType for TeletexOrganisationalUnitName {
    ghost TAG = { Some (universal 20) };

    ghost tag_is = { refl };

    const TAG: Option<Tag> = Some(Tag::TELETEX_STRING);

    fn starts(tag: Tag) -> bool {
        tag == Tag::TELETEX_STRING
    }

    fn to_tree(&self, alloc: Global) -> Result<Tree, EncodeError> {
        text_tree(alloc, &self.0, 1, Some(32))
    }

    fn from_tree(alloc: Global, window: Window<'_>) -> Result<Self, DecodeError> {
        Ok(TeletexOrganisationalUnitName(text_of(alloc, window, 1, Some(32))?))
    }
}

/// The name of a person in teletex, a SET (RFC 5280, A.1).
#[derive(Clone, Debug, Drop, PartialEq, Eq, PartialOrd, Ord, Hash)]
pub struct TeletexPersonalName {
    /// The family name, of 1 to 40 octets.
    pub surname: TeletexString,
    /// The first name, of 1 to 16 octets.
    pub given_name: Option<TeletexString>,
    /// The initials of all names but the family name, 1 to 5 octets.
    pub initials: Option<TeletexString>,
    /// What tells generations apart, of 1 to 3 octets.
    pub generation_qualifier: Option<TeletexString>,
}

impl TryClone for TeletexPersonalName {
    ghost copies_are_equal = { Prim.search rules };
}

impl Form for TeletexPersonalName {
    ghost codec = { teletex_personal_name };
}

impl DerType for TeletexPersonalName {
    ghost TAG = { Some (universal 17) };

    ghost tag_is = { refl };

    const TAG: Option<Tag> = Some(Tag::SET);

    fn starts(tag: Tag) -> bool {
        tag == Tag::SET
    }

    #[tactic(auto, unfolding(crate::specs::Names::teletex_personal_name_fields))]
    fn to_tree(&self, alloc: Global) -> Result<Tree, EncodeError> {
        let mut fields = Trees::new(alloc);
        put_implicit_text(
            alloc,
            &mut fields,
            Some(&self.surname),
            Tag::CONTEXT_0,
            1,
            Some(40),
        )?;
        put_implicit_text(
            alloc,
            &mut fields,
            self.given_name.as_ref(),
            Tag::CONTEXT_1,
            1,
            Some(16),
        )?;
        put_implicit_text(
            alloc,
            &mut fields,
            self.initials.as_ref(),
            Tag::CONTEXT_2,
            1,
            Some(5),
        )?;
        put_implicit_text(
            alloc,
            &mut fields,
            self.generation_qualifier.as_ref(),
            Tag::CONTEXT_3,
            1,
            Some(3),
        )?;
        Ok(Tree::Node {
            tag: Tag::SET,
            children: fields,
        })
    }

    #[tactic(auto, unfolding(crate::specs::Names::teletex_personal_name_fields))]
    fn from_tree(alloc: Global, window: Window<'_>) -> Result<Self, DecodeError> {
        let mut fields = opened(window, Tag::SET)?;
        let surname = required_implicit_text(alloc, &mut fields, Tag::CONTEXT_0, 1, Some(40))?;
        let given_name = implicit_text(alloc, &mut fields, Tag::CONTEXT_1, 1, Some(16))?;
        let initials = implicit_text(alloc, &mut fields, Tag::CONTEXT_2, 1, Some(5))?;
        let generation_qualifier = implicit_text(alloc, &mut fields, Tag::CONTEXT_3, 1, Some(3))?;
        finish(
            &fields,
            TeletexPersonalName {
                surname,
                given_name,
                initials,
                generation_qualifier,
            },
        )
    }
}

/// One to four attributes that the domain defines, in teletex (RFC 5280, A.1).
#[derive(Clone, Debug, Drop, PartialEq, Eq, PartialOrd, Ord, Hash)]
pub struct TeletexDomainDefinedAttributes(pub SequenceOf<TeletexDomainDefinedAttribute>);

impl From<SequenceOf<TeletexDomainDefinedAttribute>> for TeletexDomainDefinedAttributes {
    ghost from_gives = { λ inner v. v.0 ≡ inner };

    fn from(inner: SequenceOf<TeletexDomainDefinedAttribute>) -> TeletexDomainDefinedAttributes {
        TeletexDomainDefinedAttributes(inner)
    }
}

impl Deref for TeletexDomainDefinedAttributes {
    type Target = SequenceOf<TeletexDomainDefinedAttribute>;

    ghost deref_gives = { λ v inner. inner ≡ v.0 };

    fn deref(&self) -> &SequenceOf<TeletexDomainDefinedAttribute> {
        &self.0
    }
}

impl DerefMut for TeletexDomainDefinedAttributes {
    ghost use Rattle.std.specs.Borrow.{sem};
    ghost use Rattle.pkix_x400_ext.specs.Lending.{LendsTeletexDomainDefinedAttributes};

    ghost deref_mut_gives = { λ v inner. inner ≡ v.0 };

    fn deref_mut(&mut self) -> &mut SequenceOf<TeletexDomainDefinedAttribute>
        ensures* writes_back { sem 𝓛 (LendsTeletexDomainDefinedAttributes self.entry result) }
        ensures value { result.now ≡ self.old.0 }
    {
        &mut self.0
    }
}

impl TryClone for TeletexDomainDefinedAttributes {
    ghost copies_are_equal = { Prim.search rules };
}

impl Form for TeletexDomainDefinedAttributes {
    ghost codec = { teletex_domain_defined_attributes };
}

impl DerType for TeletexDomainDefinedAttributes {
    ghost TAG = { Some (universal 16) };

    ghost tag_is = { refl };

    const TAG: Option<Tag> = Some(Tag::SEQUENCE);

    fn starts(tag: Tag) -> bool {
        tag == Tag::SEQUENCE
    }

    fn to_tree(&self, alloc: Global) -> Result<Tree, EncodeError> {
        sequence_tree(alloc, &self.0, 1, Some(4))
    }

    fn from_tree(alloc: Global, window: Window<'_>) -> Result<Self, DecodeError> {
        Ok(TeletexDomainDefinedAttributes(sequence_of(alloc, window, 1, Some(4))?))
    }
}

/// An attribute that the domain defines, in teletex (RFC 5280, A.1).
#[derive(Clone, Debug, Drop, PartialEq, Eq, PartialOrd, Ord, Hash)]
pub struct TeletexDomainDefinedAttribute {
    /// Which attribute it is, in 1 to 8 octets.
    pub kind: TeletexString,
    /// Its value, of 1 to 128 octets.
    pub value: TeletexString,
}

impl TryClone for TeletexDomainDefinedAttribute {
    ghost copies_are_equal = { Prim.search rules };
}

impl Form for TeletexDomainDefinedAttribute {
    ghost codec = { teletex_domain_defined_attribute };
}

#[tactic(auto, unfolding(crate::specs::Names::teletex_domain_defined_attribute_fields))]
impl Sequence for TeletexDomainDefinedAttribute {
    ghost layout = { teletex_domain_defined_attribute_fields };

    ghost is_sequence = { refl };

    fn put_fields(&self, alloc: Global, fields: &mut Trees) -> Result<(), EncodeError> {
        put_text(alloc, fields, Some(&self.kind), 1, Some(8))?;
        put_text(alloc, fields, Some(&self.value), 1, Some(128))?;
        Ok(())
    }

    fn read_fields(alloc: Global, fields: &mut Fields<'_>) -> Result<Self, DecodeError> {
        Ok(TeletexDomainDefinedAttribute {
            kind: required_text(alloc, fields, 1, Some(8))?,
            value: required_text(alloc, fields, 1, Some(128))?,
        })
    }
}
