ghost use Rattle.std.specs.Prelude.{ℕ, List, Some, refl};
ghost use Rattle.std.proofs.Common.{rules};
ghost use Rattle.der_tree.specs.Form.{IsDerOf};
ghost use Rattle.pkix_cert.specs.Signed.{HasParts};
ghost use Rattle.der_tree.specs.Tags.{universal};
ghost use Rattle.pkix_cert.specs.Revocations.{certificate_list, certificate_list_fields, tbs_cert_list, tbs_cert_list_fields, revoked_certificate, revoked_certificate_fields, crl_reason};

use crate::algorithm::AlgorithmIdentifier;
use crate::certificate::{CertificateSerialNumber, Version};
use crate::extension::Extensions;
use crate::time::Time;
use asn1_core::{BitString, Tag, TryClone};
use der_tree::{
    DecodeError, DerType, EncodeError, Fields, Form, Sequence, SequenceOf, Tree, Trees, Window,
    enumerated_number, enumerated_tree, explicit, optional, or_empty, put, put_explicit,
    put_optional, put_unless_empty, required,
};
use pkix_name::Name;
use std::alloc::Global;

/// A list of revoked certificates: what is signed, and the signature over its DER (RFC 5280, 5.1).
#[derive(Clone, Debug, Drop, PartialEq, Eq, Hash)]
pub struct CertificateList {
    pub tbs_cert_list: TbsCertList,
    pub signature_algorithm: AlgorithmIdentifier,
    pub signature: BitString,
}

impl TryClone for CertificateList {
    ghost copies_are_equal = { Prim.search rules };
}

impl Form for CertificateList {
    ghost codec = { certificate_list };
}

#[tactic(auto, unfolding(crate::specs::Revocations::certificate_list_fields))]
impl Sequence for CertificateList {
    ghost layout = { certificate_list_fields };

    ghost is_sequence = { refl };

    fn put_fields(&self, alloc: Global, fields: &mut Trees) -> Result<(), EncodeError> {
        put(alloc, fields, &self.tbs_cert_list)?;
        put(alloc, fields, &self.signature_algorithm)?;
        put(alloc, fields, &self.signature)?;
        Ok(())
    }

    fn read_fields(alloc: Global, fields: &mut Fields<'_>) -> Result<Self, DecodeError> {
        Ok(CertificateList {
            tbs_cert_list: required(alloc, fields)?,
            signature_algorithm: required(alloc, fields)?,
            signature: required(alloc, fields)?,
        })
    }
}

/// In each form of a list of revoked certificates the forms of its three parts come one after the other, headers
/// included: what is signed are these very octets (RFC 5280, 5.1.1.3).
pub fn parts_of_each_list()
    ensures { (c : CertificateList) (b : List ℕ) → IsDerOf certificate_list c b → HasParts tbs_cert_list c.tbs_cert_list c.signature_algorithm c.signature b }
{}

/// What the issuer of a list of revoked certificates signs (RFC 5280, 5.1.2).
#[derive(Clone, Debug, Drop, PartialEq, Eq, Hash)]
pub struct TbsCertList {
    /// Absent in version 1; a list with extensions is to say `V2` (RFC 5280, 5.1.2.1), which isn't looked at here.
    pub version: Option<Version>,
    pub signature: AlgorithmIdentifier,
    pub issuer: Name,
    /// When the list was issued.
    pub this_update: Time,
    /// When the next list will be issued at the latest.
    pub next_update: Option<Time>,
    /// In the order of the list, which isn't written where it is empty.
    pub revoked_certificates: SequenceOf<RevokedCertificate>,
    pub crl_extensions: Option<Extensions>,
}

impl TryClone for TbsCertList {
    ghost copies_are_equal = { Prim.search rules };
}

impl Form for TbsCertList {
    ghost codec = { tbs_cert_list };
}

#[tactic(auto, unfolding(crate::specs::Revocations::tbs_cert_list_fields))]
impl Sequence for TbsCertList {
    ghost layout = { tbs_cert_list_fields };

    ghost is_sequence = { refl };

    fn put_fields(&self, alloc: Global, fields: &mut Trees) -> Result<(), EncodeError> {
        put_optional(alloc, fields, self.version.as_ref())?;
        put(alloc, fields, &self.signature)?;
        put(alloc, fields, &self.issuer)?;
        put(alloc, fields, &self.this_update)?;
        put_optional(alloc, fields, self.next_update.as_ref())?;
        put_unless_empty(alloc, fields, &self.revoked_certificates)?;
        put_explicit(alloc, fields, self.crl_extensions.as_ref(), Tag::CONTEXT_0)?;
        Ok(())
    }

    fn read_fields(alloc: Global, fields: &mut Fields<'_>) -> Result<Self, DecodeError> {
        Ok(TbsCertList {
            version: optional(alloc, fields)?,
            signature: required(alloc, fields)?,
            issuer: required(alloc, fields)?,
            this_update: required(alloc, fields)?,
            next_update: optional(alloc, fields)?,
            revoked_certificates: or_empty(alloc, optional(alloc, fields)?)?,
            crl_extensions: explicit(alloc, fields, Tag::CONTEXT_0)?,
        })
    }
}

/// A certificate that was revoked, and when (RFC 5280, 5.1.2.6).
#[derive(Clone, Debug, Drop, PartialEq, Eq, PartialOrd, Ord, Hash)]
pub struct RevokedCertificate {
    pub user_certificate: CertificateSerialNumber,
    pub revocation_date: Time,
    pub crl_entry_extensions: Option<Extensions>,
}

impl TryClone for RevokedCertificate {
    ghost copies_are_equal = { Prim.search rules };
}

impl Form for RevokedCertificate {
    ghost codec = { revoked_certificate };
}

#[tactic(auto, unfolding(crate::specs::Revocations::revoked_certificate_fields))]
impl Sequence for RevokedCertificate {
    ghost layout = { revoked_certificate_fields };

    ghost is_sequence = { refl };

    fn put_fields(&self, alloc: Global, fields: &mut Trees) -> Result<(), EncodeError> {
        put(alloc, fields, &self.user_certificate)?;
        put(alloc, fields, &self.revocation_date)?;
        put_optional(alloc, fields, self.crl_entry_extensions.as_ref())?;
        Ok(())
    }

    fn read_fields(alloc: Global, fields: &mut Fields<'_>) -> Result<Self, DecodeError> {
        Ok(RevokedCertificate {
            user_certificate: required(alloc, fields)?,
            revocation_date: required(alloc, fields)?,
            crl_entry_extensions: optional(alloc, fields)?,
        })
    }
}

/// Why a certificate was revoked, each reason with its number (RFC 5280, 5.3.1). There is no 7.
#[derive(Clone, Copy, Debug, PartialEq, Eq, PartialOrd, Ord, Hash)]
pub enum CrlReason {
    Unspecified = 0,
    KeyCompromise = 1,
    CaCompromise = 2,
    AffiliationChanged = 3,
    Superseded = 4,
    CessationOfOperation = 5,
    CertificateHold = 6,
    RemoveFromCRL = 8,
    PrivilegeWithdrawn = 9,
    AaCompromise = 10,
}

impl TryClone for CrlReason {
    ghost copies_are_equal = { Prim.search rules };
}

impl Form for CrlReason {
    ghost codec = { crl_reason };
}

impl DerType for CrlReason {
    ghost TAG = { Some (universal 10) };

    ghost tag_is = { refl };

    const TAG: Option<Tag> = Some(Tag::ENUMERATED);

    fn starts(tag: Tag) -> bool {
        tag == Tag::ENUMERATED
    }

    fn to_tree(&self, alloc: Global) -> Result<Tree, EncodeError> {
        let number = match self {
            CrlReason::Unspecified => 0,
            CrlReason::KeyCompromise => 1,
            CrlReason::CaCompromise => 2,
            CrlReason::AffiliationChanged => 3,
            CrlReason::Superseded => 4,
            CrlReason::CessationOfOperation => 5,
            CrlReason::CertificateHold => 6,
            CrlReason::RemoveFromCRL => 8,
            CrlReason::PrivilegeWithdrawn => 9,
            CrlReason::AaCompromise => 10,
        };
        enumerated_tree(alloc, number)
    }

    fn from_tree(_alloc: Global, window: Window<'_>) -> Result<Self, DecodeError> {
        match enumerated_number(window)? {
            0 => Ok(CrlReason::Unspecified),
            1 => Ok(CrlReason::KeyCompromise),
            2 => Ok(CrlReason::CaCompromise),
            3 => Ok(CrlReason::AffiliationChanged),
            4 => Ok(CrlReason::Superseded),
            5 => Ok(CrlReason::CessationOfOperation),
            6 => Ok(CrlReason::CertificateHold),
            8 => Ok(CrlReason::RemoveFromCRL),
            9 => Ok(CrlReason::PrivilegeWithdrawn),
            10 => Ok(CrlReason::AaCompromise),
            _ => Err(DecodeError::NotInGrammar),
        }
    }
}
