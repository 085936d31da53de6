ghost use Rattle.std.specs.Prelude.{Some, None, refl};
ghost use Rattle.std.proofs.Common.{rules};
ghost use Rattle.pkix_name.specs.GeneralNames.{edi_party_name, edi_party_name_fields, general_name};

use crate::directory_string::DirectoryString;
use crate::name::Name;
use asn1_core::{Class, Ia5String, ObjectIdentifier, OctetString, Tag, TryClone};
use der_tree::{
    Any, DecodeError, DerType, EncodeError, Fields, Form, InstanceOf, Sequence, SequenceOf, Tree,
    Trees, Window, explicit, from_explicit, from_implicit, put_explicit, required_explicit,
    to_explicit, to_implicit,
};
use pkix_x400::OrAddress;
use std::alloc::Global;

/// Names of any kind, in order (RFC 5280, 4.2.1.6).
pub type GeneralNames = SequenceOf<GeneralName>;

/// Further names of a subject (RFC 5280, 4.2.1.6).
pub type SubjectAltName = GeneralNames;

/// The issuer of a certificate on a list that isn't its issuer's (RFC 5280, 5.3.3).
pub type CertificateIssuer = GeneralNames;

/// A name of some kind (RFC 5280, 4.2.1.6).
#[derive(Clone, Debug, PartialEq, Eq, Hash)]
pub enum GeneralName {
    /// A kind and a name of it.
    OtherName(InstanceOf<Any>),
    /// A mailbox.
    Rfc822Name(Ia5String),
    /// A domain name.
    DnsName(Ia5String),
    /// An address of X.400.
    X400Address(OrAddress),
    /// A name in the directory.
    DirectoryName(Name),
    /// A party and who named it.
    EdiPartyName(EdiPartyName),
    /// An identifier of a resource.
    Uri(Ia5String),
    /// 4 octets or 16, with as many of a mask after them in a constraint. Their number isn't looked at.
    IpAddress(OctetString),
    /// An identifier that someone registered.
    RegisteredId(ObjectIdentifier),
}

impl Drop for GeneralName {
    fn drop(self) {
        match self {
            GeneralName::OtherName(_) => (),
            GeneralName::Rfc822Name(_) => (),
            GeneralName::DnsName(_) => (),
            GeneralName::X400Address(_) => (),
            GeneralName::DirectoryName(_) => (),
            GeneralName::EdiPartyName(_) => (),
            GeneralName::Uri(_) => (),
            GeneralName::IpAddress(_) => (),
            GeneralName::RegisteredId(_) => (),
        }
    }
}

impl TryClone for GeneralName {
    ghost copies_are_equal = { Prim.search rules };
}

impl Form for GeneralName {
    ghost codec = { general_name };
}

impl DerType for GeneralName {
    ghost TAG = { None };

    ghost tag_is = { refl };

    const TAG: Option<Tag> = None;

    fn starts(tag: Tag) -> bool {
        let Tag {
            class: Class::Context,
            number,
        } = tag
        else {
            return false;
        };
        number <= 8
    }

    fn to_tree(&self, alloc: Global) -> Result<Tree, EncodeError> {
        match self {
            GeneralName::OtherName(name) => to_implicit(alloc, name, Tag::CONTEXT_0),
            GeneralName::Rfc822Name(name) => to_implicit(alloc, name, Tag::CONTEXT_1),
            GeneralName::DnsName(name) => to_implicit(alloc, name, Tag::CONTEXT_2),
            GeneralName::X400Address(address) => to_implicit(alloc, address, Tag::CONTEXT_3),
            GeneralName::DirectoryName(name) => to_explicit(alloc, name, Tag::CONTEXT_4),
            GeneralName::EdiPartyName(name) => to_implicit(alloc, name, Tag::CONTEXT_5),
            GeneralName::Uri(name) => to_implicit(alloc, name, Tag::CONTEXT_6),
            GeneralName::IpAddress(name) => to_implicit(alloc, name, Tag::CONTEXT_7),
            GeneralName::RegisteredId(name) => to_implicit(alloc, name, Tag::CONTEXT_8),
        }
    }

    fn from_tree(alloc: Global, window: Window<'_>) -> Result<Self, DecodeError> {
        let tag = window.tag();
        if tag == Tag::CONTEXT_0 {
            Ok(GeneralName::OtherName(from_implicit(alloc, window, Tag::CONTEXT_0)?))
        } else if tag == Tag::CONTEXT_1 {
            Ok(GeneralName::Rfc822Name(from_implicit(alloc, window, Tag::CONTEXT_1)?))
        } else if tag == Tag::CONTEXT_2 {
            Ok(GeneralName::DnsName(from_implicit(alloc, window, Tag::CONTEXT_2)?))
        } else if tag == Tag::CONTEXT_3 {
            Ok(GeneralName::X400Address(from_implicit(alloc, window, Tag::CONTEXT_3)?))
        } else if tag == Tag::CONTEXT_4 {
            Ok(GeneralName::DirectoryName(from_explicit(alloc, window, Tag::CONTEXT_4)?))
        } else if tag == Tag::CONTEXT_5 {
            Ok(GeneralName::EdiPartyName(from_implicit(alloc, window, Tag::CONTEXT_5)?))
        } else if tag == Tag::CONTEXT_6 {
            Ok(GeneralName::Uri(from_implicit(alloc, window, Tag::CONTEXT_6)?))
        } else if tag == Tag::CONTEXT_7 {
            Ok(GeneralName::IpAddress(from_implicit(alloc, window, Tag::CONTEXT_7)?))
        } else {
            Ok(GeneralName::RegisteredId(from_implicit(alloc, window, Tag::CONTEXT_8)?))
        }
    }
}

/// A party of electronic data interchange (RFC 5280, 4.2.1.6).
#[derive(Clone, Debug, Drop, PartialEq, Eq, PartialOrd, Ord, Hash)]
pub struct EdiPartyName {
    pub name_assigner: Option<DirectoryString>,
    pub party_name: DirectoryString,
}

impl TryClone for EdiPartyName {
    ghost copies_are_equal = { Prim.search rules };
}

impl Form for EdiPartyName {
    ghost codec = { edi_party_name };
}

#[tactic(auto, unfolding(crate::specs::GeneralNames::edi_party_name_fields))]
impl Sequence for EdiPartyName {
    ghost layout = { edi_party_name_fields };

    ghost is_sequence = { refl };

    fn put_fields(&self, alloc: Global, fields: &mut Trees) -> Result<(), EncodeError> {
        put_explicit(alloc, fields, self.name_assigner.as_ref(), Tag::CONTEXT_0)?;
        put_explicit(alloc, fields, Some(&self.party_name), Tag::CONTEXT_1)?;
        Ok(())
    }

    fn read_fields(alloc: Global, fields: &mut Fields<'_>) -> Result<Self, DecodeError> {
        Ok(EdiPartyName {
            name_assigner: explicit(alloc, fields, Tag::CONTEXT_0)?,
            party_name: required_explicit(alloc, fields, Tag::CONTEXT_1)?,
        })
    }
}
