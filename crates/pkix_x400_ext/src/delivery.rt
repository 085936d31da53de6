ghost use Rattle.std.specs.Prelude.{◌≡◌, Some, None, refl};
ghost use Rattle.std.proofs.Common.{rules};
ghost use Rattle.der_tree.specs.Tags.{universal};
ghost use Rattle.pkix_x400_ext.specs.Deliveries.{pds_name, physical_delivery_country_name, postal_code, printable_address, teletex_address, unformatted_postal_address, pds_parameter};

use asn1_core::{NumericString, PrintableString, Tag, TeletexString, TryClone};
use der_tree::{
    DecodeError, DerType, EncodeError, Form, SequenceOf, Tree, Trees, Window, finish, opened,
    optional, optional_sequence, optional_text, put_optional, put_sequence, put_text, text_of,
    text_tree,
};
use std::alloc::Global;
use std::ops::{Deref, DerefMut};

/// The name of a physical delivery service, of 1 to 16 characters (RFC 5280, A.1).
#[derive(Clone, Debug, Drop, PartialEq, Eq, PartialOrd, Ord, Hash)]
pub struct PdsName(pub PrintableString);

impl From<PrintableString> for PdsName {
    ghost from_gives = { λ inner v. v.0 ≡ inner };

    fn from(inner: PrintableString) -> PdsName {
        PdsName(inner)
    }
}

impl Deref for PdsName {
    type Target = PrintableString;

    ghost deref_gives = { λ v inner. inner ≡ v.0 };

    fn deref(&self) -> &PrintableString {
        &self.0
    }
}

impl DerefMut for PdsName {
    ghost use Rattle.std.specs.Borrow.{sem};
    ghost use Rattle.pkix_x400_ext.specs.Lending.{LendsPdsName};

    ghost deref_mut_gives = { λ v inner. inner ≡ v.0 };

    fn deref_mut(&mut self) -> &mut PrintableString
        ensures* writes_back { sem 𝓛 (LendsPdsName self.entry result) }
        ensures value { result.now ≡ self.old.0 }
    {
        &mut self.0
    }
}

impl TryClone for PdsName {
    ghost copies_are_equal = { Prim.search rules };
}

impl Form for PdsName {
    ghost codec = { pds_name };
}

impl DerType for PdsName {
    ghost TAG = { Some (universal 19) };

    ghost tag_is = { refl };

    const TAG: Option<Tag> = Some(Tag::PRINTABLE_STRING);

    fn starts(tag: Tag) -> bool {
        tag == Tag::PRINTABLE_STRING
    }

    fn to_tree(&self, alloc: Global) -> Result<Tree, EncodeError> {
        text_tree(alloc, &self.0, 1, Some(16))
    }

    fn from_tree(alloc: Global, window: Window<'_>) -> Result<Self, DecodeError> {
        Ok(PdsName(text_of(alloc, window, 1, Some(16))?))
    }
}

/// The country to deliver to (RFC 5280, A.1).
#[derive(Clone, Debug, Drop, PartialEq, Eq, PartialOrd, Ord, Hash)]
pub enum PhysicalDeliveryCountryName {
    /// By its data country code of X.121, three digits.
    X121DccCode(NumericString),
    /// By its two letters of ISO 3166.
    Iso3166Alpha2Code(PrintableString),
}

impl TryClone for PhysicalDeliveryCountryName {
    ghost copies_are_equal = { Prim.search rules };
}

impl Form for PhysicalDeliveryCountryName {
    ghost codec = { physical_delivery_country_name };
}

impl DerType for PhysicalDeliveryCountryName {
    ghost TAG = { None };

    ghost tag_is = { refl };

    const TAG: Option<Tag> = None;

    fn starts(tag: Tag) -> bool {
        NumericString::starts(tag) || PrintableString::starts(tag)
    }

    fn to_tree(&self, alloc: Global) -> Result<Tree, EncodeError> {
        match self {
            PhysicalDeliveryCountryName::X121DccCode(value) => text_tree(alloc, value, 3, Some(3)),
            PhysicalDeliveryCountryName::Iso3166Alpha2Code(value) => text_tree(
                alloc,
                value,
                2,
                Some(2),
            ),
        }
    }

    fn from_tree(alloc: Global, window: Window<'_>) -> Result<Self, DecodeError> {
        let tag = window.tag();
        if NumericString::starts(tag) {
            Ok(PhysicalDeliveryCountryName::X121DccCode(text_of(alloc, window, 3, Some(3))?))
        } else {
            Ok(PhysicalDeliveryCountryName::Iso3166Alpha2Code(text_of(alloc, window, 2, Some(2))?))
        }
    }
}

/// A postal code, of 1 to 16 characters (RFC 5280, A.1).
#[derive(Clone, Debug, Drop, PartialEq, Eq, PartialOrd, Ord, Hash)]
pub enum PostalCode {
    /// Of digits and spaces.
    Numeric(NumericString),
    /// Of printable characters.
    Printable(PrintableString),
}

impl TryClone for PostalCode {
    ghost copies_are_equal = { Prim.search rules };
}

impl Form for PostalCode {
    ghost codec = { postal_code };
}

impl DerType for PostalCode {
    ghost TAG = { None };

    ghost tag_is = { refl };

    const TAG: Option<Tag> = None;

    fn starts(tag: Tag) -> bool {
        NumericString::starts(tag) || PrintableString::starts(tag)
    }

    fn to_tree(&self, alloc: Global) -> Result<Tree, EncodeError> {
        match self {
            PostalCode::Numeric(value) => text_tree(alloc, value, 1, Some(16)),
            PostalCode::Printable(value) => text_tree(alloc, value, 1, Some(16)),
        }
    }

    fn from_tree(alloc: Global, window: Window<'_>) -> Result<Self, DecodeError> {
        let tag = window.tag();
        if NumericString::starts(tag) {
            Ok(PostalCode::Numeric(text_of(alloc, window, 1, Some(16))?))
        } else {
            Ok(PostalCode::Printable(text_of(alloc, window, 1, Some(16))?))
        }
    }
}

/// A line of a postal address, of 1 to 30 characters (RFC 5280, A.1).
#[derive(Clone, Debug, Drop, PartialEq, Eq, PartialOrd, Ord, Hash)]
pub struct PrintableAddress(pub PrintableString);

impl From<PrintableString> for PrintableAddress {
    ghost from_gives = { λ inner v. v.0 ≡ inner };

    fn from(inner: PrintableString) -> PrintableAddress {
        PrintableAddress(inner)
    }
}

impl Deref for PrintableAddress {
    type Target = PrintableString;

    ghost deref_gives = { λ v inner. inner ≡ v.0 };

    fn deref(&self) -> &PrintableString {
        &self.0
    }
}

impl DerefMut for PrintableAddress {
    ghost use Rattle.std.specs.Borrow.{sem};
    ghost use Rattle.pkix_x400_ext.specs.Lending.{LendsPrintableAddress};

    ghost deref_mut_gives = { λ v inner. inner ≡ v.0 };

    fn deref_mut(&mut self) -> &mut PrintableString
        ensures* writes_back { sem 𝓛 (LendsPrintableAddress self.entry result) }
        ensures value { result.now ≡ self.old.0 }
    {
        &mut self.0
    }
}

impl TryClone for PrintableAddress {
    ghost copies_are_equal = { Prim.search rules };
}

impl Form for PrintableAddress {
    ghost codec = { printable_address };
}

impl DerType for PrintableAddress {
    ghost TAG = { Some (universal 19) };

    ghost tag_is = { refl };

    const TAG: Option<Tag> = Some(Tag::PRINTABLE_STRING);

    fn starts(tag: Tag) -> bool {
        tag == Tag::PRINTABLE_STRING
    }

    fn to_tree(&self, alloc: Global) -> Result<Tree, EncodeError> {
        text_tree(alloc, &self.0, 1, Some(30))
    }

    fn from_tree(alloc: Global, window: Window<'_>) -> Result<Self, DecodeError> {
        Ok(PrintableAddress(text_of(alloc, window, 1, Some(30))?))
    }
}

/// The lines of a postal address as one text, of 1 to 180 characters (RFC 5280, A.1).
#[derive(Clone, Debug, Drop, PartialEq, Eq, PartialOrd, Ord, Hash)]
pub struct TeletexAddress(pub TeletexString);

impl From<TeletexString> for TeletexAddress {
    ghost from_gives = { λ inner v. v.0 ≡ inner };

    fn from(inner: TeletexString) -> TeletexAddress {
        TeletexAddress(inner)
    }
}

impl Deref for TeletexAddress {
    type Target = TeletexString;

    ghost deref_gives = { λ v inner. inner ≡ v.0 };

    fn deref(&self) -> &TeletexString {
        &self.0
    }
}

impl DerefMut for TeletexAddress {
    ghost use Rattle.std.specs.Borrow.{sem};
    ghost use Rattle.pkix_x400_ext.specs.Lending.{LendsTeletexAddress};

    ghost deref_mut_gives = { λ v inner. inner ≡ v.0 };

    fn deref_mut(&mut self) -> &mut TeletexString
        ensures* writes_back { sem 𝓛 (LendsTeletexAddress self.entry result) }
        ensures value { result.now ≡ self.old.0 }
    {
        &mut self.0
    }
}

impl TryClone for TeletexAddress {
    ghost copies_are_equal = { Prim.search rules };
}

impl Form for TeletexAddress {
    ghost codec = { teletex_address };
}

impl DerType for TeletexAddress {
    ghost TAG = { Some (universal 20) };

    ghost tag_is = { refl };

    const TAG: Option<Tag> = Some(Tag::TELETEX_STRING);

    fn starts(tag: Tag) -> bool {
        tag == Tag::TELETEX_STRING
    }

    fn to_tree(&self, alloc: Global) -> Result<Tree, EncodeError> {
        text_tree(alloc, &self.0, 1, Some(180))
    }

    fn from_tree(alloc: Global, window: Window<'_>) -> Result<Self, DecodeError> {
        Ok(TeletexAddress(text_of(alloc, window, 1, Some(180))?))
    }
}

/// A postal address as it is written, a SET (RFC 5280, A.1).
#[derive(Clone, Debug, Drop, PartialEq, Eq, PartialOrd, Ord, Hash)]
pub struct UnformattedPostalAddress {
    /// 1 to 6 lines.
    pub printable_address: Option<SequenceOf<PrintableAddress>>,
    /// All lines in one text.
    pub teletex_string: Option<TeletexAddress>,
}

impl TryClone for UnformattedPostalAddress {
    ghost copies_are_equal = { Prim.search rules };
}

impl Form for UnformattedPostalAddress {
    ghost codec = { unformatted_postal_address };
}

impl DerType for UnformattedPostalAddress {
    ghost TAG = { Some (universal 17) };

    ghost tag_is = { refl };

    const TAG: Option<Tag> = Some(Tag::SET);

    fn starts(tag: Tag) -> bool {
        tag == Tag::SET
    }

    #[tactic(auto, unfolding(crate::specs::Deliveries::unformatted_postal_address_fields))]
    fn to_tree(&self, alloc: Global) -> Result<Tree, EncodeError> {
        let mut fields = Trees::new(alloc);
        put_sequence(
            alloc,
            &mut fields,
            self.printable_address.as_ref(),
            1,
            Some(6),
        )?;
        put_optional(alloc, &mut fields, self.teletex_string.as_ref())?;
        Ok(Tree::Node {
            tag: Tag::SET,
            children: fields,
        })
    }

    #[tactic(auto, unfolding(crate::specs::Deliveries::unformatted_postal_address_fields))]
    fn from_tree(alloc: Global, window: Window<'_>) -> Result<Self, DecodeError> {
        let mut fields = opened(window, Tag::SET)?;
        let printable_address = optional_sequence(alloc, &mut fields, 1, Some(6))?;
        let teletex_string = optional(alloc, &mut fields)?;
        finish(
            &fields,
            UnformattedPostalAddress {
                printable_address,
                teletex_string,
            },
        )
    }
}

/// A part of a postal address, a SET (RFC 5280, A.1).
#[derive(Clone, Debug, Drop, PartialEq, Eq, PartialOrd, Ord, Hash)]
pub struct PdsParameter {
    /// In 1 to 30 printable characters.
    pub printable_string: Option<PrintableString>,
    /// In 1 to 30 octets of teletex.
    pub teletex_string: Option<TeletexString>,
}

impl TryClone for PdsParameter {
    ghost copies_are_equal = { Prim.search rules };
}

impl Form for PdsParameter {
    ghost codec = { pds_parameter };
}

impl DerType for PdsParameter {
    ghost TAG = { Some (universal 17) };

    ghost tag_is = { refl };

    const TAG: Option<Tag> = Some(Tag::SET);

    fn starts(tag: Tag) -> bool {
        tag == Tag::SET
    }

    #[tactic(auto, unfolding(crate::specs::Deliveries::pds_parameter_fields))]
    fn to_tree(&self, alloc: Global) -> Result<Tree, EncodeError> {
        let mut fields = Trees::new(alloc);
        put_text(
            alloc,
            &mut fields,
            self.printable_string.as_ref(),
            1,
            Some(30),
        )?;
        put_text(
            alloc,
            &mut fields,
            self.teletex_string.as_ref(),
            1,
            Some(30),
        )?;
        Ok(Tree::Node {
            tag: Tag::SET,
            children: fields,
        })
    }

    #[tactic(auto, unfolding(crate::specs::Deliveries::pds_parameter_fields))]
    fn from_tree(alloc: Global, window: Window<'_>) -> Result<Self, DecodeError> {
        let mut fields = opened(window, Tag::SET)?;
        let printable_string = optional_text(alloc, &mut fields, 1, Some(30))?;
        let teletex_string = optional_text(alloc, &mut fields, 1, Some(30))?;
        finish(
            &fields,
            PdsParameter {
                printable_string,
                teletex_string,
            },
        )
    }
}
