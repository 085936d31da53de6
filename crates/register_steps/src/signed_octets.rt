//! What is signed, as its octets, with the algorithm and the signature (RFC 5280, 4.1.1).
ghost use Rattle.std.specs.Prelude.{refl};
ghost use Rattle.register_steps.specs.SignedOctets.{signed_octets, signed_octets_fields};

use asn1_core::BitString;
use der_tree::{Any, DecodeError, EncodeError, Fields, Form, Sequence, Trees, put, required};
use pkix_cert::AlgorithmIdentifier;
use std::alloc::Global;

/// A certificate, an attribute certificate or a list, of which what is signed stays as it is.
#[derive(Drop)]
pub(crate) struct SignedOctets {
    pub(crate) to_be_signed: Any,
    pub(crate) algorithm: AlgorithmIdentifier,
    pub(crate) signature: BitString,
}

impl Form for SignedOctets {
    ghost codec = { signed_octets };
}

#[tactic(auto, unfolding(crate::specs::SignedOctets::signed_octets_fields))]
impl Sequence for SignedOctets {
    ghost layout = { signed_octets_fields };

    ghost is_sequence = { refl };

    fn put_fields(&self, alloc: Global, fields: &mut Trees) -> Result<(), EncodeError> {
        put(alloc, fields, &self.to_be_signed)?;
        put(alloc, fields, &self.algorithm)?;
        put(alloc, fields, &self.signature)?;
        Ok(())
    }

    fn read_fields(alloc: Global, fields: &mut Fields<'_>) -> Result<Self, DecodeError> {
        Ok(SignedOctets {
            to_be_signed: required(alloc, fields)?,
            algorithm: required(alloc, fields)?,
            signature: required(alloc, fields)?,
        })
    }
}
