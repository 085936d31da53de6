ghost use Rattle.std.specs.Prelude.{◌≡◌, ℕ, List, Some, refl};
ghost use Rattle.std.proofs.Common.{rules};
ghost use Rattle.der_tree.specs.Form.{IsDerOf};
ghost use Rattle.der_tree.specs.Tags.{universal};
ghost use Rattle.pkix_cert.specs.Certificates.{certificate, certificate_fields, tbs_certificate, tbs_certificate_fields};
ghost use Rattle.pkix_cert.specs.Signed.{HasParts};
ghost use Rattle.pkix_cert.specs.Versions.{raw_value, printed_version, v1, version};

use crate::algorithm::{AlgorithmIdentifier, SubjectPublicKeyInfo};
use crate::extension::Extensions;
use crate::seen::Plain;
use crate::time::Validity;
use asn1_core::{BitString, Integer, Tag, TryClone};
use der_tree::{
    DecodeError, DerType, EncodeError, Fields, Form, Sequence, Tree, Trees, Window, explicit,
    implicit, or_default, put, put_explicit, put_implicit, required, unless_default,
};
use pkix_name::Name;
use std::alloc::Global;
use std::fmt;

/// The number that an issuer gave a certificate.
pub type CertificateSerialNumber = Integer;

/// Bits that tell apart those who had one name at different times.
pub type UniqueIdentifier = BitString;

/// A certificate: what is signed, and the signature over its DER (RFC 5280, 4.1).
#[derive(Clone, Debug, Drop, PartialEq, Eq, Hash)]
pub struct Certificate {
    pub tbs_certificate: TbsCertificate,
    pub signature_algorithm: AlgorithmIdentifier,
    pub signature_value: BitString,
}

impl TryClone for Certificate {
    ghost use Rattle.pkix_cert.specs.contracts.certificate.TbsCertificateTryClone.TheImpl.Laws.{copies_are_equal-law as tbs_copies};

    ghost copies_are_equal = { λ x y same. Prim.search (tbs_copies _ _ same.0, rules) };
}

impl Form for Certificate {
    ghost codec = { certificate };
}

#[tactic(auto, unfolding(crate::specs::Certificates::certificate_fields))]
impl Sequence for Certificate {
    ghost layout = { certificate_fields };

    ghost is_sequence = { refl };

    fn put_fields(&self, alloc: Global, fields: &mut Trees) -> Result<(), EncodeError> {
        put(alloc, fields, &self.tbs_certificate)?;
        put(alloc, fields, &self.signature_algorithm)?;
        put(alloc, fields, &self.signature_value)?;
        Ok(())
    }

    fn read_fields(alloc: Global, fields: &mut Fields<'_>) -> Result<Self, DecodeError> {
        Ok(Certificate {
            tbs_certificate: required(alloc, fields)?,
            signature_algorithm: required(alloc, fields)?,
            signature_value: required(alloc, fields)?,
        })
    }
}

/// In each form of a certificate the forms of its three parts come one after the other, headers
/// included: what is signed are these very octets (RFC 5280, 4.1.1.3).
pub fn parts_of_each_form()
    ensures { (c : Certificate) (b : List ℕ) → IsDerOf certificate c b → HasParts tbs_certificate c.tbs_certificate c.signature_algorithm c.signature_value b }
{}

/// What the issuer of a certificate signs (RFC 5280, 4.1.2).
#[derive(Clone, Debug, PartialEq, Eq, Hash)]
pub struct TbsCertificate {
    /// Version 1 where it isn't written.
    pub version: Version,
    pub serial_number: CertificateSerialNumber,
    /// The algorithm of the signature. The certificate's `signature_algorithm` is to say the same (RFC 5280, 4.1.2.3);
    /// that isn't checked here.
    pub signature: AlgorithmIdentifier,
    pub issuer: Name,
    pub validity: Validity,
    pub subject: Name,
    pub subject_public_key_info: SubjectPublicKeyInfo,
    pub issuer_unique_id: Option<UniqueIdentifier>,
    pub subject_unique_id: Option<UniqueIdentifier>,
    pub extensions: Option<Extensions>,
}

impl Drop for TbsCertificate {
    fn drop(self) {
        let TbsCertificate {
            version: _,
            serial_number: _,
            signature: _,
            issuer: _,
            validity: _,
            subject: _,
            subject_public_key_info: _,
            issuer_unique_id: _,
            subject_unique_id: _,
            extensions: _,
        } = self;
    }
}

impl TryClone for TbsCertificate {
    ghost copies_are_equal = { Prim.search rules };
}

impl Form for TbsCertificate {
    ghost codec = { tbs_certificate };
}

#[tactic(auto, unfolding(crate::specs::Certificates::tbs_certificate_fields))]
impl Sequence for TbsCertificate {
    ghost layout = { tbs_certificate_fields };

    ghost is_sequence = { refl };

    fn put_fields(&self, alloc: Global, fields: &mut Trees) -> Result<(), EncodeError> {
        put_explicit(
            alloc,
            fields,
            unless_default(&self.version, &Version::V1),
            Tag::CONTEXT_0,
        )?;
        put(alloc, fields, &self.serial_number)?;
        put(alloc, fields, &self.signature)?;
        put(alloc, fields, &self.issuer)?;
        put(alloc, fields, &self.validity)?;
        put(alloc, fields, &self.subject)?;
        put(alloc, fields, &self.subject_public_key_info)?;
        put_implicit(
            alloc,
            fields,
            self.issuer_unique_id.as_ref(),
            Tag::CONTEXT_1,
        )?;
        put_implicit(
            alloc,
            fields,
            self.subject_unique_id.as_ref(),
            Tag::CONTEXT_2,
        )?;
        put_explicit(alloc, fields, self.extensions.as_ref(), Tag::CONTEXT_3)?;
        Ok(())
    }

    fn read_fields(alloc: Global, fields: &mut Fields<'_>) -> Result<Self, DecodeError> {
        Ok(TbsCertificate {
            version: or_default(explicit(alloc, fields, Tag::CONTEXT_0)?, Version::V1)?,
            serial_number: required(alloc, fields)?,
            signature: required(alloc, fields)?,
            issuer: required(alloc, fields)?,
            validity: required(alloc, fields)?,
            subject: required(alloc, fields)?,
            subject_public_key_info: required(alloc, fields)?,
            issuer_unique_id: implicit(alloc, fields, Tag::CONTEXT_1)?,
            subject_unique_id: implicit(alloc, fields, Tag::CONTEXT_2)?,
            extensions: explicit(alloc, fields, Tag::CONTEXT_3)?,
        })
    }
}

/// The version of a certificate, one less than its name (RFC 5280, 4.1.2.1).
#[derive(Clone, Copy, Debug, PartialEq, Eq, PartialOrd, Ord, Hash)]
pub struct Version(u64);

impl Version {
    /// Version 1, the default.
    pub const V1: Version = Version(0);

    /// Version 2.
    pub const V2: Version = Version(1);

    /// Version 3.
    pub const V3: Version = Version(2);

    /// The number as it is written: 0 for version 1.
    pub fn raw_value(self) -> u64
        ensures { result ≡ raw_value self }
    {
        self.0
    }
}

/// The numbers of the versions (RFC 5280, 4.1).
pub fn version_numbers()
    ensures first { raw_value Version.V1 ≡ 0 }
    ensures second { raw_value Version.V2 ≡ 1 }
    ensures third { raw_value Version.V3 ≡ 2 }
{}

impl Default for Version {
    ghost is_default = { λ v. v ≡ v1 };

    fn default() -> Version {
        Version::V1
    }
}

/// The version's name: 1 for `V1`.
impl fmt::Display for Version {
    ghost output = { λ v. Some (printed_version v) };

    fn fmt<W: fmt::Write>(&self, f: &mut fmt::Formatter<W>) -> fmt::Result {
        write!(f, "{}", self.0.saturating_add(1))
    }
}

impl TryClone for Version {
    ghost copies_are_equal = { Prim.search rules };
}

impl Form for Version {
    ghost codec = { version };
}

impl DerType for Version {
    ghost TAG = { Some (universal 2) };

    ghost tag_is = { refl };

    const TAG: Option<Tag> = Some(Tag::INTEGER);

    fn starts(tag: Tag) -> bool {
        u64::starts(tag)
    }

    fn to_tree(&self, alloc: Global) -> Result<Tree, EncodeError> {
        self.0.to_tree(alloc)
    }

    fn from_tree(alloc: Global, window: Window<'_>) -> Result<Self, DecodeError> {
        Ok(Version(u64::from_tree(alloc, window)?))
    }
}

impl Plain for Version {
    fn plain(window: Window<'_>) -> Option<Self> {
        Some(Version(u64::plain(window)?))
    }
}
