ghost use Rattle.std.specs.Prelude.{Some, None, refl};
ghost use Rattle.std.proofs.Common.{rules};
ghost use Rattle.pkix_x400_ext.specs.Networks.{extended_network_address, e1634_address, e1634_address_fields, presentation_address, presentation_address_fields};

use asn1_core::{NumericString, OctetString, Tag, TryClone};
use der_tree::{
    DecodeError, DerType, EncodeError, Fields, Form, Sequence, SetOf, Tree, Trees, Window,
    explicit, from_implicit, implicit_text, put_explicit, put_explicit_set, put_implicit_text,
    required_explicit_set, required_implicit_text, to_implicit,
};
use std::alloc::Global;

/// An address in a network: of a telephone network, or of the presentation layer (RFC 5280, A.1).
#[derive(Clone, Debug, Drop, PartialEq, Eq, Hash)]
pub enum ExtendedNetworkAddress {
    /// A number by E.163 or E.164.
    E1634Address(E1634Address),
    /// An access point of the presentation service.
    PsapAddress(PresentationAddress),
}

impl TryClone for ExtendedNetworkAddress {
    ghost copies_are_equal = { Prim.search rules };
}

impl Form for ExtendedNetworkAddress {
    ghost codec = { extended_network_address };
}

impl DerType for ExtendedNetworkAddress {
    ghost TAG = { None };

    ghost tag_is = { refl };

    const TAG: Option<Tag> = None;

    fn starts(tag: Tag) -> bool {
        E1634Address::starts(tag) || tag == Tag::CONTEXT_0
    }

    fn to_tree(&self, alloc: Global) -> Result<Tree, EncodeError> {
        match self {
            ExtendedNetworkAddress::E1634Address(value) => value.to_tree(alloc),
            ExtendedNetworkAddress::PsapAddress(value) => to_implicit(alloc, value, Tag::CONTEXT_0),
        }
    }

    fn from_tree(alloc: Global, window: Window<'_>) -> Result<Self, DecodeError> {
        let tag = window.tag();
        if E1634Address::starts(tag) {
            Ok(ExtendedNetworkAddress::E1634Address(E1634Address::from_tree(alloc, window)?))
        } else {
            Ok(ExtendedNetworkAddress::PsapAddress(from_implicit(alloc, window, Tag::CONTEXT_0)?))
        }
    }
}

/// A number by E.163 or E.164 (RFC 5280, A.1).
#[derive(Clone, Debug, Drop, PartialEq, Eq, PartialOrd, Ord, Hash)]
pub struct E1634Address {
    /// The number, of 1 to 15 digits.
    pub number: NumericString,
    /// What comes after that number, in 1 to 40 digits.
    pub sub_address: Option<NumericString>,
}

impl TryClone for E1634Address {
    ghost copies_are_equal = { Prim.search rules };
}

impl Form for E1634Address {
    ghost codec = { e1634_address };
}

#[tactic(auto, unfolding(crate::specs::Networks::e1634_address_fields))]
impl Sequence for E1634Address {
    ghost layout = { e1634_address_fields };

    ghost is_sequence = { refl };

    fn put_fields(&self, alloc: Global, fields: &mut Trees) -> Result<(), EncodeError> {
        put_implicit_text(
            alloc,
            fields,
            Some(&self.number),
            Tag::CONTEXT_0,
            1,
            Some(15),
        )?;
        put_implicit_text(
            alloc,
            fields,
            self.sub_address.as_ref(),
            Tag::CONTEXT_1,
            1,
            Some(40),
        )?;
        Ok(())
    }

    fn read_fields(alloc: Global, fields: &mut Fields<'_>) -> Result<Self, DecodeError> {
        Ok(E1634Address {
            number: required_implicit_text(alloc, fields, Tag::CONTEXT_0, 1, Some(15))?,
            sub_address: implicit_text(alloc, fields, Tag::CONTEXT_1, 1, Some(40))?,
        })
    }
}

/// An address of the presentation layer: selectors, and the addresses in networks (RFC 5280, A.1).
#[derive(Clone, Debug, Drop, PartialEq, Eq, Hash)]
pub struct PresentationAddress {
    /// Within the presentation layer.
    pub p_selector: Option<OctetString>,
    /// Within the session layer.
    pub s_selector: Option<OctetString>,
    /// Within the transport layer.
    pub t_selector: Option<OctetString>,
    /// One or more.
    pub n_addresses: SetOf<OctetString>,
}

impl TryClone for PresentationAddress {
    ghost copies_are_equal = { Prim.search rules };
}

impl Form for PresentationAddress {
    ghost codec = { presentation_address };
}

#[tactic(auto, unfolding(crate::specs::Networks::presentation_address_fields))]
impl Sequence for PresentationAddress {
    ghost layout = { presentation_address_fields };

    ghost is_sequence = { refl };

    fn put_fields(&self, alloc: Global, fields: &mut Trees) -> Result<(), EncodeError> {
        put_explicit(alloc, fields, self.p_selector.as_ref(), Tag::CONTEXT_0)?;
        put_explicit(alloc, fields, self.s_selector.as_ref(), Tag::CONTEXT_1)?;
        put_explicit(alloc, fields, self.t_selector.as_ref(), Tag::CONTEXT_2)?;
        put_explicit_set(alloc, fields, &self.n_addresses, Tag::CONTEXT_3, 1, None)?;
        Ok(())
    }

    fn read_fields(alloc: Global, fields: &mut Fields<'_>) -> Result<Self, DecodeError> {
        Ok(PresentationAddress {
            p_selector: explicit(alloc, fields, Tag::CONTEXT_0)?,
            s_selector: explicit(alloc, fields, Tag::CONTEXT_1)?,
            t_selector: explicit(alloc, fields, Tag::CONTEXT_2)?,
            n_addresses: required_explicit_set(alloc, fields, Tag::CONTEXT_3, 1, None)?,
        })
    }
}
