ghost use Rattle.std.specs.Prelude.{ℕ, List, Some, refl};
ghost use Rattle.std.proofs.Common.{rules};
ghost use Rattle.der_tree.specs.Form.{IsDerOf};
ghost use Rattle.pkix_cert.specs.Signed.{HasParts};
ghost use Rattle.pkix_cert.specs.Requests.{certification_request, certification_request_fields, certification_request_info, certification_request_info_fields};

use crate::algorithm::{AlgorithmIdentifier, SubjectPublicKeyInfo};
use crate::certificate::Version;
use asn1_core::{BitString, Tag, TryClone};
use der_tree::{
    DecodeError, EncodeError, Fields, Form, Sequence, SetOf, Trees, put, put_implicit, required,
    required_implicit,
};
use pkix_name::{Attribute, Name};
use std::alloc::Global;

/// A request for a certificate: what is signed, and the signature over its DER (RFC 2986, 4.2).
#[derive(Clone, Debug, Drop, PartialEq, Eq, Hash)]
pub struct CertificationRequest {
    pub info: CertificationRequestInfo,
    pub signature_algorithm: AlgorithmIdentifier,
    pub signature: BitString,
}

impl TryClone for CertificationRequest {
    ghost copies_are_equal = { Prim.search rules };
}

impl Form for CertificationRequest {
    ghost codec = { certification_request };
}

#[tactic(auto, unfolding(crate::specs::Requests::certification_request_fields))]
impl Sequence for CertificationRequest {
    ghost layout = { certification_request_fields };

    ghost is_sequence = { refl };

    fn put_fields(&self, alloc: Global, fields: &mut Trees) -> Result<(), EncodeError> {
        put(alloc, fields, &self.info)?;
        put(alloc, fields, &self.signature_algorithm)?;
        put(alloc, fields, &self.signature)?;
        Ok(())
    }

    fn read_fields(alloc: Global, fields: &mut Fields<'_>) -> Result<Self, DecodeError> {
        Ok(CertificationRequest {
            info: required(alloc, fields)?,
            signature_algorithm: required(alloc, fields)?,
            signature: required(alloc, fields)?,
        })
    }
}

/// In each form of a request the forms of its three parts come one after the other, headers
/// included: what is signed are these very octets (RFC 2986, 4.2).
pub fn parts_of_each_request()
    ensures { (c : CertificationRequest) (b : List ℕ) → IsDerOf certification_request c b → HasParts certification_request_info c.info c.signature_algorithm c.signature b }
{}

/// What the requester signs (RFC 2986, 4.1).
#[derive(Clone, Debug, Drop, PartialEq, Eq, Hash)]
pub struct CertificationRequestInfo {
    /// Version 1 is written too.
    pub version: Version,
    pub subject: Name,
    pub subject_public_key_info: SubjectPublicKeyInfo,
    /// What is asked for besides, which may be nothing.
    pub attributes: SetOf<Attribute>,
}

impl TryClone for CertificationRequestInfo {
    ghost copies_are_equal = { Prim.search rules };
}

impl Form for CertificationRequestInfo {
    ghost codec = { certification_request_info };
}

#[tactic(auto, unfolding(crate::specs::Requests::certification_request_info_fields))]
impl Sequence for CertificationRequestInfo {
    ghost layout = { certification_request_info_fields };

    ghost is_sequence = { refl };

    fn put_fields(&self, alloc: Global, fields: &mut Trees) -> Result<(), EncodeError> {
        put(alloc, fields, &self.version)?;
        put(alloc, fields, &self.subject)?;
        put(alloc, fields, &self.subject_public_key_info)?;
        put_implicit(alloc, fields, Some(&self.attributes), Tag::CONTEXT_0)?;
        Ok(())
    }

    fn read_fields(alloc: Global, fields: &mut Fields<'_>) -> Result<Self, DecodeError> {
        Ok(CertificationRequestInfo {
            version: required(alloc, fields)?,
            subject: required(alloc, fields)?,
            subject_public_key_info: required(alloc, fields)?,
            attributes: required_implicit(alloc, fields, Tag::CONTEXT_0)?,
        })
    }
}
