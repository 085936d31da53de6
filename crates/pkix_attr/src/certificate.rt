ghost use Rattle.std.specs.Prelude.{◌≡◌, ℕ, List, Some, refl};
ghost use Rattle.std.proofs.Common.{rules};
ghost use Rattle.der_tree.specs.Form.{IsDerOf};
ghost use Rattle.der_tree.specs.Tags.{universal};
ghost use Rattle.pkix_cert.specs.Signed.{HasParts};
ghost use Rattle.pkix_attr.specs.Certificates.{attribute_certificate, attribute_certificate_fields, attribute_certificate_info, attribute_certificate_info_fields, attribute_certificate_version, attribute_certificate_validity_period, attribute_certificate_validity_period_fields, attribute_certificate_clear_attributes, attribute_certificate_clear_attributes_fields};

use crate::holder::{Holder, Issuer};
use crate::target::Target;
use asn1_core::{BitString, GeneralizedTime, Integer, Tag, TryClone, copied};
use der_tree::{
    DecodeError, DerType, EncodeError, Fields, Form, Sequence, SequenceOf, Tree, Trees, Window,
    optional, put, put_optional, required,
};
use pkix_cert::{AlgorithmIdentifier, CertificateSerialNumber, Extensions, UniqueIdentifier};
use pkix_name::{Attribute, GeneralName};
use std::alloc::{AllocError, Global};
use std::ops::{Deref, DerefMut};

/// An attribute certificate: what is signed, and the signature over its DER (RFC 5755, 4.1).
#[derive(Clone, Debug, Drop, PartialEq, Eq, Hash)]
pub struct AttributeCertificate {
    /// What is signed.
    pub info: AttributeCertificateInfo,
    /// The algorithm of the signature, the same as within `info`.
    pub signature_algorithm: AlgorithmIdentifier,
    /// The signature over the DER of `info`.
    pub signature_value: BitString,
}

impl TryClone for AttributeCertificate {
    ghost use Rattle.pkix_attr.specs.contracts.certificate.AttributeCertificateInfoTryClone.TheImpl.Laws.{copies_are_equal-law as attribute_certificate_info_copies};

    ghost copies_are_equal = { λ x y same. Prim.search (attribute_certificate_info_copies _ _ same.0, rules) };
}

impl Form for AttributeCertificate {
    ghost codec = { attribute_certificate };
}

#[tactic(auto, unfolding(crate::specs::Certificates::attribute_certificate_fields))]
impl Sequence for AttributeCertificate {
    ghost layout = { attribute_certificate_fields };

    ghost is_sequence = { refl };

    fn put_fields(&self, alloc: Global, fields: &mut Trees) -> Result<(), EncodeError> {
        put(alloc, fields, &self.info)?;
        put(alloc, fields, &self.signature_algorithm)?;
        put(alloc, fields, &self.signature_value)?;
        Ok(())
    }

    fn read_fields(alloc: Global, fields: &mut Fields<'_>) -> Result<Self, DecodeError> {
        Ok(AttributeCertificate {
            info: required(alloc, fields)?,
            signature_algorithm: required(alloc, fields)?,
            signature_value: required(alloc, fields)?,
        })
    }
}

/// Each form of an attribute certificate has the forms of its three parts one after the other,
/// headers included: these very octets are what is signed (RFC 5755, 4.1).
pub fn parts_of_each_attribute_certificate()
    ensures { (c : AttributeCertificate) (b : List ℕ) → IsDerOf attribute_certificate c b
        → HasParts attribute_certificate_info c.info c.signature_algorithm c.signature_value b }
{}

/// What the issuer of attributes signs (RFC 5755, 4.1).
#[derive(Debug, PartialEq, Eq, Hash)]
pub struct AttributeCertificateInfo {
    /// The version (4.2.1).
    pub version: AttributeCertificateVersion,
    /// Who holds the attributes (4.2.2).
    pub holder: Holder,
    /// Who issues them (4.2.3).
    pub issuer: Issuer,
    /// The algorithm of the signature (4.2.4).
    pub signature: AlgorithmIdentifier,
    /// The number that the issuer gave (4.2.5).
    pub serial_number: CertificateSerialNumber,
    /// When the attributes hold (4.2.6).
    pub attr_cert_validity_period: AttributeCertificateValidityPeriod,
    /// The attributes (4.2.7).
    pub attributes: SequenceOf<Attribute>,
    /// What tells issuers of one name apart (4.2.8).
    pub issuer_unique_id: Option<UniqueIdentifier>,
    /// The extensions (4.2.9).
    pub extensions: Option<Extensions>,
}

impl Drop for AttributeCertificateInfo {
    fn drop(self) {
        let AttributeCertificateInfo {
            version: _,
            holder: _,
            issuer: _,
            signature: _,
            serial_number: _,
            attr_cert_validity_period: _,
            attributes: _,
            issuer_unique_id: _,
            extensions: _,
        } = self;
    }
}

impl Clone for AttributeCertificateInfo {
    ghost is_clone = { λ x y. y ≡ x };

    fn clone(&self) -> Result<AttributeCertificateInfo, AllocError> {
        Ok(AttributeCertificateInfo {
            version: copied(&self.version)?,
            holder: copied(&self.holder)?,
            issuer: copied(&self.issuer)?,
            signature: copied(&self.signature)?,
            serial_number: copied(&self.serial_number)?,
            attr_cert_validity_period: copied(&self.attr_cert_validity_period)?,
            attributes: copied(&self.attributes)?,
            issuer_unique_id: copied(&self.issuer_unique_id)?,
            extensions: copied(&self.extensions)?,
        })
    }
}

impl TryClone for AttributeCertificateInfo {
    ghost copies_are_equal = { λ _ _ same. same };
}

impl Form for AttributeCertificateInfo {
    ghost codec = { attribute_certificate_info };
}

#[tactic(auto, unfolding(crate::specs::Certificates::attribute_certificate_info_fields))]
impl Sequence for AttributeCertificateInfo {
    ghost layout = { attribute_certificate_info_fields };

    ghost is_sequence = { refl };

    fn put_fields(&self, alloc: Global, fields: &mut Trees) -> Result<(), EncodeError> {
        put(alloc, fields, &self.version)?;
        put(alloc, fields, &self.holder)?;
        put(alloc, fields, &self.issuer)?;
        put(alloc, fields, &self.signature)?;
        put(alloc, fields, &self.serial_number)?;
        put(alloc, fields, &self.attr_cert_validity_period)?;
        put(alloc, fields, &self.attributes)?;
        put_optional(alloc, fields, self.issuer_unique_id.as_ref())?;
        put_optional(alloc, fields, self.extensions.as_ref())?;
        Ok(())
    }

    fn read_fields(alloc: Global, fields: &mut Fields<'_>) -> Result<Self, DecodeError> {
        Ok(AttributeCertificateInfo {
            version: required(alloc, fields)?,
            holder: required(alloc, fields)?,
            issuer: required(alloc, fields)?,
            signature: required(alloc, fields)?,
            serial_number: required(alloc, fields)?,
            attr_cert_validity_period: required(alloc, fields)?,
            attributes: required(alloc, fields)?,
            issuer_unique_id: optional(alloc, fields)?,
            extensions: optional(alloc, fields)?,
        })
    }
}

/// The version of an attribute certificate, one less than its name (RFC 5755, 4.2.1).
#[derive(Clone, Debug, PartialEq, Eq, PartialOrd, Ord, Hash)]
pub struct AttributeCertificateVersion(pub Integer);

impl Drop for AttributeCertificateVersion {
    fn drop(self) {
        let AttributeCertificateVersion(_) = self;
    }
}

impl From<Integer> for AttributeCertificateVersion {
    ghost from_gives = { λ inner v. v.0 ≡ inner };

    fn from(inner: Integer) -> AttributeCertificateVersion {
        AttributeCertificateVersion(inner)
    }
}

impl Deref for AttributeCertificateVersion {
    type Target = Integer;

    ghost deref_gives = { λ v inner. inner ≡ v.0 };

    fn deref(&self) -> &Integer {
        &self.0
    }
}

impl DerefMut for AttributeCertificateVersion {
    ghost use Rattle.std.specs.Borrow.{sem};
    ghost use Rattle.pkix_attr.specs.Lending.{LendsAttributeCertificateVersion};

    ghost deref_mut_gives = { λ v inner. inner ≡ v.0 };

    fn deref_mut(&mut self) -> &mut Integer
        ensures* writes_back { sem 𝓛 (LendsAttributeCertificateVersion self.entry result) }
        ensures value { result.now ≡ self.old.0 }
    {
        &mut self.0
    }
}

impl AttributeCertificateVersion {
    /// The number that version 2 has, the only one.
    pub const V2: u8 = 1;
}

impl TryClone for AttributeCertificateVersion {
    ghost copies_are_equal = { Prim.search rules };
}

impl Form for AttributeCertificateVersion {
    ghost codec = { attribute_certificate_version };
}

impl DerType for AttributeCertificateVersion {
    ghost TAG = { Some (universal 2) };

    ghost tag_is = { refl };

    const TAG: Option<Tag> = Some(Tag::INTEGER);

    fn starts(tag: Tag) -> bool {
        tag == Tag::INTEGER
    }

    fn to_tree(&self, alloc: Global) -> Result<Tree, EncodeError> {
        self.0.to_tree(alloc)
    }

    fn from_tree(alloc: Global, window: Window<'_>) -> Result<Self, DecodeError> {
        Ok(AttributeCertificateVersion(Integer::from_tree(alloc, window)?))
    }
}

/// When the attributes hold, both ends included (RFC 5755, 4.2.6).
#[derive(Clone, Debug, Drop, PartialEq, Eq, Hash)]
pub struct AttributeCertificateValidityPeriod {
    /// The first moment.
    pub not_before: GeneralizedTime,
    /// The last moment.
    pub not_after: GeneralizedTime,
}

impl TryClone for AttributeCertificateValidityPeriod {
    ghost copies_are_equal = { Prim.search rules };
}

impl Form for AttributeCertificateValidityPeriod {
    ghost codec = { attribute_certificate_validity_period };
}

#[tactic(auto, unfolding(crate::specs::Certificates::attribute_certificate_validity_period_fields))]
impl Sequence for AttributeCertificateValidityPeriod {
    ghost layout = { attribute_certificate_validity_period_fields };

    ghost is_sequence = { refl };

    fn put_fields(&self, alloc: Global, fields: &mut Trees) -> Result<(), EncodeError> {
        put(alloc, fields, &self.not_before)?;
        put(alloc, fields, &self.not_after)?;
        Ok(())
    }

    fn read_fields(alloc: Global, fields: &mut Fields<'_>) -> Result<Self, DecodeError> {
        Ok(AttributeCertificateValidityPeriod {
            not_before: required(alloc, fields)?,
            not_after: required(alloc, fields)?,
        })
    }
}

/// Attributes apart from the certificate that has them enciphered (RFC 5755, 7.1).
#[derive(Clone, Debug, Drop, PartialEq, Eq, Hash)]
pub struct AttributeCertificateClearAttributes {
    /// The issuer of the certificate.
    pub issuer: GeneralName,
    /// The certificate's number.
    pub serial: Integer,
    /// The attributes.
    pub attrs: SequenceOf<Attribute>,
}

impl TryClone for AttributeCertificateClearAttributes {
    ghost copies_are_equal = { Prim.search rules };
}

impl Form for AttributeCertificateClearAttributes {
    ghost codec = { attribute_certificate_clear_attributes };
}

#[tactic(auto, unfolding(crate::specs::Certificates::attribute_certificate_clear_attributes_fields))]
impl Sequence for AttributeCertificateClearAttributes {
    ghost layout = { attribute_certificate_clear_attributes_fields };

    ghost is_sequence = { refl };

    fn put_fields(&self, alloc: Global, fields: &mut Trees) -> Result<(), EncodeError> {
        put(alloc, fields, &self.issuer)?;
        put(alloc, fields, &self.serial)?;
        put(alloc, fields, &self.attrs)?;
        Ok(())
    }

    fn read_fields(alloc: Global, fields: &mut Fields<'_>) -> Result<Self, DecodeError> {
        Ok(AttributeCertificateClearAttributes {
            issuer: required(alloc, fields)?,
            serial: required(alloc, fields)?,
            attrs: required(alloc, fields)?,
        })
    }
}
