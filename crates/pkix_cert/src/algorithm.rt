ghost use Rattle.std.specs.Prelude.{refl};
ghost use Rattle.std.proofs.Common.{rules};
ghost use Rattle.pkix_cert.specs.Algorithms.{algorithm_identifier, algorithm_identifier_fields, subject_public_key_info, subject_public_key_info_fields};

use asn1_core::{BitString, ObjectIdentifier, TryClone};
use der_tree::{
    Any, DecodeError, EncodeError, Fields, Form, Sequence, Trees, optional, put, put_optional,
    required,
};
use std::alloc::Global;

/// An algorithm and its parameters (RFC 5280, 4.1.1.2).
#[derive(Clone, Debug, PartialEq, Eq, PartialOrd, Ord, Hash)]
pub struct AlgorithmIdentifier {
    pub algorithm: ObjectIdentifier,
    pub parameters: Option<Any>,
}

impl Drop for AlgorithmIdentifier {
    fn drop(self) {
        let AlgorithmIdentifier {
            algorithm: _,
            parameters: _,
        } = self;
    }
}

impl TryClone for AlgorithmIdentifier {
    ghost copies_are_equal = { Prim.search rules };
}

impl Form for AlgorithmIdentifier {
    ghost codec = { algorithm_identifier };
}

#[tactic(auto, unfolding(crate::specs::Algorithms::algorithm_identifier_fields))]
impl Sequence for AlgorithmIdentifier {
    ghost layout = { algorithm_identifier_fields };

    ghost is_sequence = { refl };

    fn put_fields(&self, alloc: Global, fields: &mut Trees) -> Result<(), EncodeError> {
        put(alloc, fields, &self.algorithm)?;
        put_optional(alloc, fields, self.parameters.as_ref())?;
        Ok(())
    }

    fn read_fields(alloc: Global, fields: &mut Fields<'_>) -> Result<Self, DecodeError> {
        Ok(AlgorithmIdentifier {
            algorithm: required(alloc, fields)?,
            parameters: optional(alloc, fields)?,
        })
    }
}

/// A public key and its algorithm (RFC 5280, 4.1.2.7).
#[derive(Clone, Debug, PartialEq, Eq, PartialOrd, Ord, Hash)]
pub struct SubjectPublicKeyInfo {
    pub algorithm: AlgorithmIdentifier,
    pub subject_public_key: BitString,
}

impl Drop for SubjectPublicKeyInfo {
    fn drop(self) {
        let SubjectPublicKeyInfo {
            algorithm: _,
            subject_public_key: _,
        } = self;
    }
}

impl TryClone for SubjectPublicKeyInfo {
    ghost copies_are_equal = { Prim.search rules };
}

impl Form for SubjectPublicKeyInfo {
    ghost codec = { subject_public_key_info };
}

#[tactic(auto, unfolding(crate::specs::Algorithms::subject_public_key_info_fields))]
impl Sequence for SubjectPublicKeyInfo {
    ghost layout = { subject_public_key_info_fields };

    ghost is_sequence = { refl };

    fn put_fields(&self, alloc: Global, fields: &mut Trees) -> Result<(), EncodeError> {
        put(alloc, fields, &self.algorithm)?;
        put(alloc, fields, &self.subject_public_key)?;
        Ok(())
    }

    fn read_fields(alloc: Global, fields: &mut Fields<'_>) -> Result<Self, DecodeError> {
        Ok(SubjectPublicKeyInfo {
            algorithm: required(alloc, fields)?,
            subject_public_key: required(alloc, fields)?,
        })
    }
}
