ghost use Rattle.std.specs.Prelude.{None, refl};
ghost use Rattle.std.proofs.Common.{rules};
ghost use Rattle.pkix_attr.specs.Holders.{holder, holder_fields, issuer_serial, issuer_serial_fields, issuer, v2_form, v2_form_fields};

use crate::digest::ObjectDigestInfo;
use asn1_core::{Tag, TryClone};
use der_tree::{
    DecodeError, DerType, EncodeError, Fields, Form, Sequence, Tree, Trees, Window, from_implicit,
    implicit, optional, put, put_implicit, put_optional, required, to_implicit,
};
use pkix_cert::{CertificateSerialNumber, UniqueIdentifier};
use pkix_name::GeneralNames;
use std::alloc::Global;

/// Who holds the attributes (RFC 5755, 4.2.2).
#[derive(Clone, Debug, PartialEq, Eq, Hash)]
pub struct Holder {
    /// By a certificate of a key.
    pub base_certificate_id: Option<IssuerSerial>,
    /// By names.
    pub entity_name: Option<GeneralNames>,
    /// By a digest.
    pub object_digest_info: Option<ObjectDigestInfo>,
}

impl Drop for Holder {
    fn drop(self) {
        let Holder {
            base_certificate_id: _,
            entity_name: _,
            object_digest_info: _,
        } = self;
    }
}

impl TryClone for Holder {
    ghost copies_are_equal = { Prim.search rules };
}

impl Form for Holder {
    ghost codec = { holder };
}

#[tactic(auto, unfolding(crate::specs::Holders::holder_fields))]
impl Sequence for Holder {
    ghost layout = { holder_fields };

    ghost is_sequence = { refl };

    fn put_fields(&self, alloc: Global, fields: &mut Trees) -> Result<(), EncodeError> {
        put_implicit(
            alloc,
            fields,
            self.base_certificate_id.as_ref(),
            Tag::CONTEXT_0,
        )?;
        put_implicit(alloc, fields, self.entity_name.as_ref(), Tag::CONTEXT_1)?;
        put_implicit(
            alloc,
            fields,
            self.object_digest_info.as_ref(),
            Tag::CONTEXT_2,
        )?;
        Ok(())
    }

    fn read_fields(alloc: Global, fields: &mut Fields<'_>) -> Result<Self, DecodeError> {
        Ok(Holder {
            base_certificate_id: implicit(alloc, fields, Tag::CONTEXT_0)?,
            entity_name: implicit(alloc, fields, Tag::CONTEXT_1)?,
            object_digest_info: implicit(alloc, fields, Tag::CONTEXT_2)?,
        })
    }
}

/// A certificate by its issuer and number (RFC 5755, 4.1).
#[derive(Clone, Debug, PartialEq, Eq, Hash)]
pub struct IssuerSerial {
    /// The issuer.
    pub issuer: GeneralNames,
    /// The number that it gave.
    pub serial: CertificateSerialNumber,
    /// What tells issuers of one name apart.
    pub issuer_uid: Option<UniqueIdentifier>,
}

impl Drop for IssuerSerial {
    fn drop(self) {
        let IssuerSerial {
            issuer: _,
            serial: _,
            issuer_uid: _,
        } = self;
    }
}

impl TryClone for IssuerSerial {
    ghost copies_are_equal = { Prim.search rules };
}

impl Form for IssuerSerial {
    ghost codec = { issuer_serial };
}

#[tactic(auto, unfolding(crate::specs::Holders::issuer_serial_fields))]
impl Sequence for IssuerSerial {
    ghost layout = { issuer_serial_fields };

    ghost is_sequence = { refl };

    fn put_fields(&self, alloc: Global, fields: &mut Trees) -> Result<(), EncodeError> {
        put(alloc, fields, &self.issuer)?;
        put(alloc, fields, &self.serial)?;
        put_optional(alloc, fields, self.issuer_uid.as_ref())?;
        Ok(())
    }

    fn read_fields(alloc: Global, fields: &mut Fields<'_>) -> Result<Self, DecodeError> {
        Ok(IssuerSerial {
            issuer: required(alloc, fields)?,
            serial: required(alloc, fields)?,
            issuer_uid: optional(alloc, fields)?,
        })
    }
}

/// Who issues the attributes (RFC 5755, 4.2.3).
#[derive(Clone, Debug, PartialEq, Eq, Hash)]
pub enum Issuer {
    /// In the form of version 1, which isn't to be used.
    V1(GeneralNames),
    /// In the form of version 2.
    V2(V2Form),
}

impl Drop for Issuer {
    fn drop(self) {
        match self {
            Issuer::V1(_) => (),
            Issuer::V2(_) => (),
        }
    }
}

impl TryClone for Issuer {
    ghost copies_are_equal = { Prim.search rules };
}

impl Form for Issuer {
    ghost codec = { issuer };
}

impl DerType for Issuer {
    ghost TAG = { None };

    ghost tag_is = { refl };

    const TAG: Option<Tag> = None;

    fn starts(tag: Tag) -> bool {
        GeneralNames::starts(tag) || tag == Tag::CONTEXT_0
    }

    fn to_tree(&self, alloc: Global) -> Result<Tree, EncodeError> {
        match self {
            Issuer::V1(value) => value.to_tree(alloc),
            Issuer::V2(value) => to_implicit(alloc, value, Tag::CONTEXT_0),
        }
    }

    fn from_tree(alloc: Global, window: Window<'_>) -> Result<Self, DecodeError> {
        let tag = window.tag();
        if GeneralNames::starts(tag) {
            Ok(Issuer::V1(GeneralNames::from_tree(alloc, window)?))
        } else {
            Ok(Issuer::V2(from_implicit(alloc, window, Tag::CONTEXT_0)?))
        }
    }
}

/// An issuer in the form of version 2: by one name alone, in certificates that follow the profile
/// (RFC 5755, 4.2.3).
#[derive(Clone, Debug, PartialEq, Eq, Hash)]
pub struct V2Form {
    /// By names.
    pub issuer_name: Option<GeneralNames>,
    /// By a certificate of a key.
    pub base_certificate_id: Option<IssuerSerial>,
    /// By a digest.
    pub object_digest_info: Option<ObjectDigestInfo>,
}

impl Drop for V2Form {
    fn drop(self) {
        let V2Form {
            issuer_name: _,
            base_certificate_id: _,
            object_digest_info: _,
        } = self;
    }
}

impl TryClone for V2Form {
    ghost copies_are_equal = { Prim.search rules };
}

impl Form for V2Form {
    ghost codec = { v2_form };
}

#[tactic(auto, unfolding(crate::specs::Holders::v2_form_fields))]
impl Sequence for V2Form {
    ghost layout = { v2_form_fields };

    ghost is_sequence = { refl };

    fn put_fields(&self, alloc: Global, fields: &mut Trees) -> Result<(), EncodeError> {
        put_optional(alloc, fields, self.issuer_name.as_ref())?;
        put_implicit(
            alloc,
            fields,
            self.base_certificate_id.as_ref(),
            Tag::CONTEXT_0,
        )?;
        put_implicit(
            alloc,
            fields,
            self.object_digest_info.as_ref(),
            Tag::CONTEXT_1,
        )?;
        Ok(())
    }

    fn read_fields(alloc: Global, fields: &mut Fields<'_>) -> Result<Self, DecodeError> {
        Ok(V2Form {
            issuer_name: optional(alloc, fields)?,
            base_certificate_id: implicit(alloc, fields, Tag::CONTEXT_0)?,
            object_digest_info: implicit(alloc, fields, Tag::CONTEXT_1)?,
        })
    }
}
