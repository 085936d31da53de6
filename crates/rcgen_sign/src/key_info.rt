//! Public keys as DER has them.
ghost use Rattle.std.specs.Prelude.{◌≡◌, ◌↔◌, ℕ, ◌^◌, ◌<◌, List, length, Some, true, Ok, IfOk, IfErr, IsErr, refl};
ghost use Rattle.std.proofs.Common.{rules};
ghost use Rattle.asn1_core.specs.Arcs.{is_oid};
ghost use Rattle.der_tree.specs.Form.{IsDerOf};
ghost use Rattle.der_tree.specs.HasTree.{HasTree};
ghost use Rattle.der_tree.specs.declared.error.EncodeError.TheVariants.{OutOfMemory as EncodeOutOfMemory};
ghost use Rattle.rcgen_text.specs.declared.error.Error.TheVariants.{OutOfMemory};
ghost use Rattle.rcgen_sign.specs.KeyInfos.{key_algorithm, key_algorithm_fields, key_info, key_info_fields};
ghost use Rattle.rcgen_sign.specs.Algorithms.{key_algorithm_value};
ghost use Rattle.rcgen_sign.specs.Keys.{Key, key_of_parts, key_info_octets, key_info_value};
ghost use Rattle.rcgen_sign.specs.KeyReading.{BeginsWithInfo, info_at};
ghost use Rattle.rcgen_sign.specs.declared.key_info.KeyInfo.{KeyInfo};

use crate::sign_algo::SignatureAlgorithm;
use asn1_core::{BitString, ObjectIdentifier, OidFault, TryClone};
use der_tree::{
    Any, DecodeError, EncodeError, Fields, Form, Sequence, Trees, optional, put, put_optional,
    required,
};
use rcgen_text::Error;
use std::alloc::Global;

/// The algorithm of a key and its parameters (RFC 5280, 4.1.1.2).
#[derive(Clone, Debug, PartialEq, Eq, PartialOrd, Ord, Hash)]
pub struct KeyAlgorithm {
    pub algorithm: ObjectIdentifier,
    pub parameters: Option<Any>,
}

impl Drop for KeyAlgorithm {
    fn drop(self) {
        let KeyAlgorithm {
            algorithm: _,
            parameters: _,
        } = self;
    }
}

impl TryClone for KeyAlgorithm {
    ghost copies_are_equal = { Prim.search rules };
}

impl Form for KeyAlgorithm {
    ghost codec = { key_algorithm };
}

#[tactic(auto, unfolding(crate::specs::KeyInfos::key_algorithm_fields))]
impl Sequence for KeyAlgorithm {
    ghost layout = { key_algorithm_fields };

    ghost is_sequence = { refl };

    fn put_fields(&self, alloc: Global, fields: &mut Trees) -> Result<(), EncodeError> {
        put(alloc, fields, &self.algorithm)?;
        put_optional(alloc, fields, self.parameters.as_ref())?;
        Ok(())
    }

    fn read_fields(alloc: Global, fields: &mut Fields<'_>) -> Result<Self, DecodeError> {
        Ok(KeyAlgorithm {
            algorithm: required(alloc, fields)?,
            parameters: optional(alloc, fields)?,
        })
    }
}

impl KeyAlgorithm {
    /// How the keys of a signature algorithm are named.
    #[tactic(auto, using(crate::proofs::AlgorithmLemmas::formed), unfolding(crate::specs::KeyInfos::key_algorithm_fields))]
    fn new(alloc: Global, algorithm: SignatureAlgorithm) -> Result<KeyAlgorithm, Error>
        ensures value { IfOk result (λ k. k ≡ key_algorithm_value algorithm) }
        ensures formed { IfOk result (HasTree key_algorithm) }
        ensures memory { IfErr result (λ e. e ≡ OutOfMemory) }
    {
        let parameters = match algorithm.key_parameters() {
            Some(element) => Some(Any::new(Vec::from_slice(alloc, element)?)),
            None => None,
        };
        let algorithm = identifier(alloc, algorithm.key_arcs())?;
        Ok(KeyAlgorithm {
            algorithm,
            parameters,
        })
    }

    /// Its identifier and the parameters.
    pub fn into_parts(self) -> (ObjectIdentifier, Option<Any>)
        ensures algorithm { result.0 ≡ self.algorithm }
        ensures parameters { result.1 ≡ self.parameters }
    {
        let KeyAlgorithm {
            algorithm,
            parameters,
        } = self;
        (algorithm, parameters)
    }
}

/// A public key and its algorithm (RFC 5280, 4.1.2.7).
#[derive(Clone, Debug, PartialEq, Eq, PartialOrd, Ord, Hash)]
pub struct KeyInfo {
    pub algorithm: KeyAlgorithm,
    pub subject_public_key: BitString,
}

impl Drop for KeyInfo {
    fn drop(self) {
        let KeyInfo {
            algorithm: _,
            subject_public_key: _,
        } = self;
    }
}

impl TryClone for KeyInfo {
    ghost copies_are_equal = { Prim.search rules };
}

impl Form for KeyInfo {
    ghost codec = { key_info };
}

#[tactic(auto, unfolding(crate::specs::KeyInfos::key_info_fields))]
impl Sequence for KeyInfo {
    ghost layout = { key_info_fields };

    ghost is_sequence = { refl };

    fn put_fields(&self, alloc: Global, fields: &mut Trees) -> Result<(), EncodeError> {
        put(alloc, fields, &self.algorithm)?;
        put(alloc, fields, &self.subject_public_key)?;
        Ok(())
    }

    fn read_fields(alloc: Global, fields: &mut Fields<'_>) -> Result<Self, DecodeError> {
        Ok(KeyInfo {
            algorithm: required(alloc, fields)?,
            subject_public_key: required(alloc, fields)?,
        })
    }
}

impl KeyInfo {
    /// A key of these bytes, under its algorithm's identifier, no bits unused.
    #[tactic(auto, using(crate::proofs::AlgorithmLemmas::no_unused), unfolding(crate::specs::KeyInfos::key_info_fields))]
    pub fn new(alloc: Global, algorithm: SignatureAlgorithm, key: &[u8]) -> Result<KeyInfo, Error>
        ensures value { IfOk result (λ i. i ≡ key_info_value (key_of_parts algorithm key.now)) }
        ensures formed { IfOk result (HasTree key_info) }
        ensures memory { IfErr result (λ e. e ≡ OutOfMemory) }
    {
        let algorithm = KeyAlgorithm::new(alloc, algorithm)?;
        let subject_public_key = BitString::new(Vec::from_slice(alloc, key)?, 0).unwrap();
        Ok(KeyInfo {
            algorithm,
            subject_public_key,
        })
    }

    /// Its algorithm and the key's bits.
    pub fn into_parts(self) -> (KeyAlgorithm, BitString)
        ensures algorithm { result.0 ≡ self.algorithm }
        ensures key { result.1 ≡ self.subject_public_key }
    {
        let KeyInfo {
            algorithm,
            subject_public_key,
        } = self;
        (algorithm, subject_public_key)
    }
}

/// The identifier of these arcs.
pub fn identifier(alloc: Global, arcs: &[u32]) -> Result<ObjectIdentifier, Error>
    requires { is_oid arcs.now ≡ true }
    ensures arcs { IfOk result (λ id. id ≡ arcs.now) }
    ensures memory { IfErr result (λ e. e ≡ OutOfMemory) }
{
    match ObjectIdentifier::new(alloc, arcs) {
        Ok(id) => Ok(id),
        Err(OidFault::OutOfMemory) => Err(Error::OutOfMemory),
        Err(_) => unreachable!(),
    }
}

/// What can only have run out of memory.
pub fn memory_only<T: Drop>(answer: Result<T, EncodeError>) -> Result<T, Error>
    requires { IfErr answer (λ e. e ≡ EncodeOutOfMemory) }
    ensures value { IfOk result (λ v. answer ≡ Ok v) }
    ensures handed { IsErr result ↔ IsErr answer }
    ensures memory { IfErr result (λ e. e ≡ OutOfMemory) }
{
    match answer {
        Ok(value) => Ok(value),
        Err(EncodeError::OutOfMemory) => Err(Error::OutOfMemory),
        Err(_) => unreachable!(),
    }
}

/// A law: the form of a key's info is these octets. Memory holds fewer of the key's than 2^63.
pub fn spki_octets()
    ensures form { (k : Key) (b : List ℕ) → IsDerOf key_info (key_info_value k) b → b ≡ key_info_octets k }
    ensures there { (k : Key) → length k.octets < 2 ^ 63 → IsDerOf key_info (key_info_value k) (key_info_octets k) }
{}

/// A law: what is read at the front of bytes is the info whose form is there.
pub fn spki_in_front()
    ensures { (input : List ℕ) (info : KeyInfo) (rest : List ℕ) → (info_at input ≡ Some (info, rest)) ↔ BeginsWithInfo input info rest }
{}
