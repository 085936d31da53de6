ghost use Rattle.std.specs.Prelude.{◌≡◌, Some, None, refl};
ghost use Rattle.der_tree.specs.Answers.{Encodes};
ghost use Rattle.der_tree.specs.Windows.{shown, Decodes};
ghost use Rattle.std.proofs.Common.{rules};
ghost use Rattle.der_tree.specs.Tags.{universal};
ghost use Rattle.asn1_core.specs.Tags.{application};
ghost use Rattle.pkix_x400.specs.Standards.{built_in_standard_attributes, built_in_standard_attributes_fields, country_name, country_name_choice, administration_domain_name, administration_domain_name_choice, private_domain_name, personal_name, organisational_unit_names, organisational_unit_name};

use asn1_core::{NumericString, PrintableString, Tag, TryClone, copied};
use der_tree::{
    DecodeError, DerType, EncodeError, Fields, Form, Sequence, SequenceOf, Tree, Trees, Window,
    explicit, finish, implicit, opened, optional, put_explicit, put_implicit, put_optional,
    required_implicit, sequence_of, sequence_tree, text_of, text_tree,
};
use std::alloc::{AllocError, Global};
use std::ops::{Deref, DerefMut};

/// The address of a terminal in a public data network, by X.121 (RFC 5280, A.1).
pub type X121Address = NumericString;

/// The network address of a user's terminal (RFC 5280, A.1).
pub type NetworkAddress = X121Address;

/// What tells apart the terminals at a network address (RFC 5280, A.1).
pub type TerminalIdentifier = PrintableString;

/// The name of an organization (RFC 5280, A.1).
pub type OrganisationName = PrintableString;

/// A number that represents a user (RFC 5280, A.1).
pub type NumericUserIdentifier = NumericString;

/// The kind of a terminal: 3 telex, 4 teletex, 5 and 6 facsimile of groups 3 and 4, 7 IA5, 8
/// videotex (RFC 5280, A.1).
pub type TerminalType = u8;

/// The attributes that each address may have (RFC 5280, A.1).
#[derive(Debug, PartialEq, Eq, PartialOrd, Ord, Hash)]
pub struct BuiltInStandardAttributes {
    /// The country of the domain.
    pub country_name: Option<CountryName>,
    /// The domain of an administration, such as a public carrier.
    pub administraion_domain_name: Option<AdministrationDomainName>,
    /// The network address of the user's terminal.
    pub network_address: Option<NetworkAddress>,
    /// The terminal at that network address.
    pub terminal_identifier: Option<TerminalIdentifier>,
    /// The private domain below the administration's.
    pub private_domain_name: Option<PrivateDomainName>,
    /// The user's organization.
    pub organisation_name: Option<OrganisationName>,
    /// The number of the user.
    pub numeric_user_identifier: Option<NumericUserIdentifier>,
    /// The user's own name.
    pub personal_name: Option<PersonalName>,
    /// The units of the organization, from the highest down.
    pub organisational_unit_name: Option<OrganisationalUnitNames>,
}

impl Drop for BuiltInStandardAttributes {
    fn drop(self) {
        let BuiltInStandardAttributes {
            country_name: _,
            administraion_domain_name: _,
            network_address: _,
            terminal_identifier: _,
            private_domain_name: _,
            organisation_name: _,
            numeric_user_identifier: _,
            personal_name: _,
            organisational_unit_name: _,
        } = self;
    }
}

impl Clone for BuiltInStandardAttributes {
    ghost is_clone = { λ x y. y ≡ x };

    fn clone(&self) -> Result<BuiltInStandardAttributes, AllocError> {
        Ok(BuiltInStandardAttributes {
            country_name: copied(&self.country_name)?,
            administraion_domain_name: copied(&self.administraion_domain_name)?,
            network_address: copied(&self.network_address)?,
            terminal_identifier: copied(&self.terminal_identifier)?,
            private_domain_name: copied(&self.private_domain_name)?,
            organisation_name: copied(&self.organisation_name)?,
            numeric_user_identifier: copied(&self.numeric_user_identifier)?,
            personal_name: copied(&self.personal_name)?,
            organisational_unit_name: copied(&self.organisational_unit_name)?,
        })
    }
}

impl TryClone for BuiltInStandardAttributes {
    ghost copies_are_equal = { λ _ _ same. same };
}

impl Form for BuiltInStandardAttributes {
    ghost codec = { built_in_standard_attributes };
}

#[tactic(auto, unfolding(crate::specs::Standards::built_in_standard_attributes_fields))]
impl Sequence for BuiltInStandardAttributes {
    ghost layout = { built_in_standard_attributes_fields };

    ghost is_sequence = { refl };

    fn put_fields(&self, alloc: Global, fields: &mut Trees) -> Result<(), EncodeError> {
        put_optional(alloc, fields, self.country_name.as_ref())?;
        put_optional(alloc, fields, self.administraion_domain_name.as_ref())?;
        put_implicit(alloc, fields, self.network_address.as_ref(), Tag::CONTEXT_0)?;
        put_implicit(
            alloc,
            fields,
            self.terminal_identifier.as_ref(),
            Tag::CONTEXT_1,
        )?;
        put_explicit(
            alloc,
            fields,
            self.private_domain_name.as_ref(),
            Tag::CONTEXT_2,
        )?;
        put_implicit(
            alloc,
            fields,
            self.organisation_name.as_ref(),
            Tag::CONTEXT_3,
        )?;
        put_implicit(
            alloc,
            fields,
            self.numeric_user_identifier.as_ref(),
            Tag::CONTEXT_4,
        )?;
        put_implicit(alloc, fields, self.personal_name.as_ref(), Tag::CONTEXT_5)?;
        put_implicit(
            alloc,
            fields,
            self.organisational_unit_name.as_ref(),
            Tag::CONTEXT_6,
        )?;
        Ok(())
    }

    fn read_fields(alloc: Global, fields: &mut Fields<'_>) -> Result<Self, DecodeError> {
        Ok(BuiltInStandardAttributes {
            country_name: optional(alloc, fields)?,
            administraion_domain_name: optional(alloc, fields)?,
            network_address: implicit(alloc, fields, Tag::CONTEXT_0)?,
            terminal_identifier: implicit(alloc, fields, Tag::CONTEXT_1)?,
            private_domain_name: explicit(alloc, fields, Tag::CONTEXT_2)?,
            organisation_name: implicit(alloc, fields, Tag::CONTEXT_3)?,
            numeric_user_identifier: implicit(alloc, fields, Tag::CONTEXT_4)?,
            personal_name: implicit(alloc, fields, Tag::CONTEXT_5)?,
            organisational_unit_name: implicit(alloc, fields, Tag::CONTEXT_6)?,
        })
    }
}

/// The country of a domain, under the tag APPLICATION 1 (RFC 5280, A.1).
#[derive(Clone, Debug, PartialEq, Eq, PartialOrd, Ord, Hash)]
pub enum CountryName {
    /// By its data country code of X.121, three digits.
    X121DccCode(NumericString),
    /// By its two letters of ISO 3166.
    Iso3166Alpha2Code(PrintableString),
}

impl Drop for CountryName {
    fn drop(self) {
        match self {
            CountryName::X121DccCode(_) => (),
            CountryName::Iso3166Alpha2Code(_) => (),
        }
    }
}

impl TryClone for CountryName {
    ghost copies_are_equal = { Prim.search rules };
}

impl CountryName {
    fn choice_tree(&self, alloc: Global) -> Result<Tree, EncodeError>
        ensures { Encodes result (country_name_choice.tree_of self.now) }
    {
        match self {
            CountryName::X121DccCode(value) => text_tree(alloc, value, 3, Some(3)),
            CountryName::Iso3166Alpha2Code(value) => text_tree(alloc, value, 2, Some(2)),
        }
    }

    fn choice_of(alloc: Global, window: Window<'_>) -> Result<CountryName, DecodeError>
        ensures { Decodes result (country_name_choice.read_of (shown window.entry)) }
    {
        let tag = window.tag();
        if NumericString::starts(tag) {
            Ok(CountryName::X121DccCode(text_of(alloc, window, 3, Some(3))?))
        } else {
            Ok(CountryName::Iso3166Alpha2Code(text_of(alloc, window, 2, Some(2))?))
        }
    }
}

impl Form for CountryName {
    ghost codec = { country_name };
}

impl DerType for CountryName {
    ghost TAG = { Some (application 1) };

    ghost tag_is = { refl };

    const TAG: Option<Tag> = Some(Tag::APPLICATION_1);

    fn starts(tag: Tag) -> bool {
        tag == Tag::APPLICATION_1
    }

    #[tactic(auto, unfolding(der_tree::specs::Fields::next_required))]
    fn to_tree(&self, alloc: Global) -> Result<Tree, EncodeError> {
        let mut fields = Trees::new(alloc);
        fields.push(self.choice_tree(alloc)?)?;
        Ok(Tree::Node {
            tag: Tag::APPLICATION_1,
            children: fields,
        })
    }

    #[tactic(auto, unfolding(der_tree::specs::Fields::next_required))]
    fn from_tree(alloc: Global, window: Window<'_>) -> Result<Self, DecodeError> {
        let fields = opened(window, Tag::APPLICATION_1)?;
        let Some((inner, rest)) = fields.first() else {
            return Err(DecodeError::NotInGrammar);
        };
        let value = CountryName::choice_of(alloc, inner)?;
        finish(&rest, value)
    }
}

/// The domain of an administration, under the tag APPLICATION 2, of up to 16 characters (RFC 5280, A.1).
#[derive(Clone, Debug, PartialEq, Eq, PartialOrd, Ord, Hash)]
pub enum AdministrationDomainName {
    /// Of digits and spaces.
    Numeric(NumericString),
    /// Of printable characters.
    Printable(PrintableString),
}

impl Drop for AdministrationDomainName {
    fn drop(self) {
        match self {
            AdministrationDomainName::Numeric(_) => (),
            AdministrationDomainName::Printable(_) => (),
        }
    }
}

impl TryClone for AdministrationDomainName {
    ghost copies_are_equal = { Prim.search rules };
}

impl AdministrationDomainName {
    fn choice_tree(&self, alloc: Global) -> Result<Tree, EncodeError>
        ensures { Encodes result (administration_domain_name_choice.tree_of self.now) }
    {
        match self {
            AdministrationDomainName::Numeric(value) => text_tree(alloc, value, 0, Some(16)),
            AdministrationDomainName::Printable(value) => text_tree(alloc, value, 0, Some(16)),
        }
    }

    fn choice_of(alloc: Global, window: Window<'_>) -> Result<AdministrationDomainName, DecodeError>
        ensures { Decodes result (administration_domain_name_choice.read_of (shown window.entry)) }
    {
        let tag = window.tag();
        if NumericString::starts(tag) {
            Ok(AdministrationDomainName::Numeric(text_of(alloc, window, 0, Some(16))?))
        } else {
            Ok(AdministrationDomainName::Printable(text_of(alloc, window, 0, Some(16))?))
        }
    }
}

impl Form for AdministrationDomainName {
    ghost codec = { administration_domain_name };
}

impl DerType for AdministrationDomainName {
    ghost TAG = { Some (application 2) };

    ghost tag_is = { refl };

    const TAG: Option<Tag> = Some(Tag::APPLICATION_2);

    fn starts(tag: Tag) -> bool {
        tag == Tag::APPLICATION_2
    }

    #[tactic(auto, unfolding(der_tree::specs::Fields::next_required))]
    fn to_tree(&self, alloc: Global) -> Result<Tree, EncodeError> {
        let mut fields = Trees::new(alloc);
        fields.push(self.choice_tree(alloc)?)?;
        Ok(Tree::Node {
            tag: Tag::APPLICATION_2,
            children: fields,
        })
    }

    #[tactic(auto, unfolding(der_tree::specs::Fields::next_required))]
    fn from_tree(alloc: Global, window: Window<'_>) -> Result<Self, DecodeError> {
        let fields = opened(window, Tag::APPLICATION_2)?;
        let Some((inner, rest)) = fields.first() else {
            return Err(DecodeError::NotInGrammar);
        };
        let value = AdministrationDomainName::choice_of(alloc, inner)?;
        finish(&rest, value)
    }
}

/// A private domain, of 1 to 16 characters (RFC 5280, A.1).
#[derive(Clone, Debug, PartialEq, Eq, PartialOrd, Ord, Hash)]
pub enum PrivateDomainName {
    /// Of digits and spaces.
    Numeric(NumericString),
    /// Of printable characters.
    Printable(PrintableString),
}

impl Drop for PrivateDomainName {
    fn drop(self) {
        match self {
            PrivateDomainName::Numeric(_) => (),
            PrivateDomainName::Printable(_) => (),
        }
    }
}

impl TryClone for PrivateDomainName {
    ghost copies_are_equal = { Prim.search rules };
}

impl Form for PrivateDomainName {
    ghost codec = { private_domain_name };
}

impl DerType for PrivateDomainName {
    ghost TAG = { None };

    ghost tag_is = { refl };

    const TAG: Option<Tag> = None;

    fn starts(tag: Tag) -> bool {
        NumericString::starts(tag) || PrintableString::starts(tag)
    }

    fn to_tree(&self, alloc: Global) -> Result<Tree, EncodeError> {
        match self {
            PrivateDomainName::Numeric(value) => text_tree(alloc, value, 1, Some(16)),
            PrivateDomainName::Printable(value) => text_tree(alloc, value, 1, Some(16)),
        }
    }

    fn from_tree(alloc: Global, window: Window<'_>) -> Result<Self, DecodeError> {
        let tag = window.tag();
        if NumericString::starts(tag) {
            Ok(PrivateDomainName::Numeric(text_of(alloc, window, 1, Some(16))?))
        } else {
            Ok(PrivateDomainName::Printable(text_of(alloc, window, 1, Some(16))?))
        }
    }
}

/// The name of a person, a SET (RFC 5280, A.1).
#[derive(Clone, Debug, PartialEq, Eq, PartialOrd, Ord, Hash)]
pub struct PersonalName {
    /// The family name.
    pub surname: PrintableString,
    /// The first name.
    pub given_name: Option<PrintableString>,
    /// The initials of all names but the family name.
    pub initials: Option<PrintableString>,
    /// What tells generations apart, as Jr.
    pub generation_qualifier: Option<PrintableString>,
}

impl Drop for PersonalName {
    fn drop(self) {
        let PersonalName {
            surname: _,
            given_name: _,
            initials: _,
            generation_qualifier: _,
        } = self;
    }
}

impl TryClone for PersonalName {
    ghost copies_are_equal = { Prim.search rules };
}

impl Form for PersonalName {
    ghost codec = { personal_name };
}

impl DerType for PersonalName {
    ghost TAG = { Some (universal 17) };

    ghost tag_is = { refl };

    const TAG: Option<Tag> = Some(Tag::SET);

    fn starts(tag: Tag) -> bool {
        tag == Tag::SET
    }

    #[tactic(auto, unfolding(crate::specs::Standards::personal_name_fields))]
    fn to_tree(&self, alloc: Global) -> Result<Tree, EncodeError> {
        let mut fields = Trees::new(alloc);
        put_implicit(alloc, &mut fields, Some(&self.surname), Tag::CONTEXT_0)?;
        put_implicit(alloc, &mut fields, self.given_name.as_ref(), Tag::CONTEXT_1)?;
        put_implicit(alloc, &mut fields, self.initials.as_ref(), Tag::CONTEXT_2)?;
        put_implicit(
            alloc,
            &mut fields,
            self.generation_qualifier.as_ref(),
            Tag::CONTEXT_3,
        )?;
        Ok(Tree::Node {
            tag: Tag::SET,
            children: fields,
        })
    }

    #[tactic(auto, unfolding(crate::specs::Standards::personal_name_fields))]
    fn from_tree(alloc: Global, window: Window<'_>) -> Result<Self, DecodeError> {
        let mut fields = opened(window, Tag::SET)?;
        let surname = required_implicit(alloc, &mut fields, Tag::CONTEXT_0)?;
        let given_name = implicit(alloc, &mut fields, Tag::CONTEXT_1)?;
        let initials = implicit(alloc, &mut fields, Tag::CONTEXT_2)?;
        let generation_qualifier = implicit(alloc, &mut fields, Tag::CONTEXT_3)?;
        finish(
            &fields,
            PersonalName {
                surname,
                given_name,
                initials,
                generation_qualifier,
            },
        )
    }
}

/// One to four units of an organization, from the highest down (RFC 5280, A.1).
#[derive(Clone, Debug, PartialEq, Eq, PartialOrd, Ord, Hash)]
pub struct OrganisationalUnitNames(pub SequenceOf<OrganisationalUnitName>);

impl Drop for OrganisationalUnitNames {
    fn drop(self) {
        let OrganisationalUnitNames(_) = self;
    }
}

impl From<SequenceOf<OrganisationalUnitName>> for OrganisationalUnitNames {
    ghost from_gives = { λ inner v. v.0 ≡ inner };

    fn from(inner: SequenceOf<OrganisationalUnitName>) -> OrganisationalUnitNames {
        OrganisationalUnitNames(inner)
    }
}

impl Deref for OrganisationalUnitNames {
    type Target = SequenceOf<OrganisationalUnitName>;

    ghost deref_gives = { λ v inner. inner ≡ v.0 };

    fn deref(&self) -> &SequenceOf<OrganisationalUnitName> {
        &self.0
    }
}

impl DerefMut for OrganisationalUnitNames {
    ghost use Rattle.std.specs.Borrow.{sem};
    ghost use Rattle.pkix_x400.specs.Lending.{LendsOrganisationalUnitNames};

    ghost deref_mut_gives = { λ v inner. inner ≡ v.0 };

    fn deref_mut(&mut self) -> &mut SequenceOf<OrganisationalUnitName>
        ensures* writes_back { sem 𝓛 (LendsOrganisationalUnitNames self.entry result) }
        ensures value { result.now ≡ self.old.0 }
    {
        &mut self.0
    }
}

impl TryClone for OrganisationalUnitNames {
    ghost copies_are_equal = { Prim.search rules };
}

impl Form for OrganisationalUnitNames {
    ghost codec = { organisational_unit_names };
}

impl DerType for OrganisationalUnitNames {
    ghost TAG = { Some (universal 16) };

    ghost tag_is = { refl };

    const TAG: Option<Tag> = Some(Tag::SEQUENCE);

    fn starts(tag: Tag) -> bool {
        tag == Tag::SEQUENCE
    }

    fn to_tree(&self, alloc: Global) -> Result<Tree, EncodeError> {
        sequence_tree(alloc, &self.0, 1, Some(4))
    }

    fn from_tree(alloc: Global, window: Window<'_>) -> Result<Self, DecodeError> {
        Ok(OrganisationalUnitNames(sequence_of(alloc, window, 1, Some(4))?))
    }
}

/// A unit of an organization, of 1 to 32 characters (RFC 5280, A.1).
#[derive(Clone, Debug, Drop, PartialEq, Eq, PartialOrd, Ord, Hash)]
pub struct OrganisationalUnitName(pub PrintableString);

impl From<PrintableString> for OrganisationalUnitName {
    ghost from_gives = { λ inner v. v.0 ≡ inner };

    fn from(inner: PrintableString) -> OrganisationalUnitName {
        OrganisationalUnitName(inner)
    }
}

impl Deref for OrganisationalUnitName {
    type Target = PrintableString;

    ghost deref_gives = { λ v inner. inner ≡ v.0 };

    fn deref(&self) -> &PrintableString {
        &self.0
    }
}

impl DerefMut for OrganisationalUnitName {
    ghost use Rattle.std.specs.Borrow.{sem};
    ghost use Rattle.pkix_x400.specs.Lending.{LendsOrganisationalUnitName};

    ghost deref_mut_gives = { λ v inner. inner ≡ v.0 };

    fn deref_mut(&mut self) -> &mut PrintableString
        ensures* writes_back { sem 𝓛 (LendsOrganisationalUnitName self.entry result) }
        ensures value { result.now ≡ self.old.0 }
    {
        &mut self.0
    }
}

impl TryClone for OrganisationalUnitName {
    ghost copies_are_equal = { Prim.search rules };
}

impl Form for OrganisationalUnitName {
    ghost codec = { organisational_unit_name };
}

impl DerType for OrganisationalUnitName {
    ghost TAG = { Some (universal 19) };

    ghost tag_is = { refl };

    const TAG: Option<Tag> = Some(Tag::PRINTABLE_STRING);

    fn starts(tag: Tag) -> bool {
        tag == Tag::PRINTABLE_STRING
    }

    fn to_tree(&self, alloc: Global) -> Result<Tree, EncodeError> {
        text_tree(alloc, &self.0, 1, Some(32))
    }

    fn from_tree(alloc: Global, window: Window<'_>) -> Result<Self, DecodeError> {
        Ok(OrganisationalUnitName(text_of(alloc, window, 1, Some(32))?))
    }
}
