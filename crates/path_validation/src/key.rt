//! The working public key (RFC 5280, 6.1.2 (g) to (i), 6.1.4 (d) to (f), 6.1.5 (c) to (e)).
ghost use Rattle.std.specs.Prelude.{◌≡◌, IfOk};
ghost use Rattle.std.specs.Option.{option_map};
ghost use Rattle.pkix_cert.specs.Algorithms.{subject_public_key_info};
ghost use Rattle.path_revocation.specs.Lists.{encoding_of};
ghost use Rattle.path_validation.specs.Keys.{are_null, inherits, key_after};

use asn1_core::OutOfMemory;
use der_tree::{Any, EncodeError, der};
use pkix_cert::{AlgorithmIdentifier, SubjectPublicKeyInfo};
use std::alloc::Global;

/// Whether the parameters are NULL or left out.
fn are_null(parameters: &Option<Any>) -> bool
    ensures { result ≡ are_null parameters.now }
{
    match parameters {
        None => true,
        Some(parameters) => parameters.as_bytes() == [0x05, 0x00].as_slice(),
    }
}

/// Whether the key takes the parameters of the one before it.
fn inherits(working: &SubjectPublicKeyInfo, own: &SubjectPublicKeyInfo) -> bool
    ensures { result ≡ inherits working.now own.now }
{
    are_null(&own.algorithm.parameters)
        && own.algorithm.algorithm == working.algorithm.algorithm
        && !are_null(&working.algorithm.parameters)
}

/// The key of a certificate, with the parameters that it takes of the one before it.
#[tactic(auto, unfolding(crate::specs::Keys::key_after))]
pub(crate) fn key_after(
    working: &SubjectPublicKeyInfo,
    own: SubjectPublicKeyInfo,
) -> Result<SubjectPublicKeyInfo, OutOfMemory>
    ensures { IfOk result (λ k. k ≡ key_after working.now own) }
{
    if !inherits(working, &own) {
        return Ok(own);
    }
    Ok(SubjectPublicKeyInfo {
        algorithm: AlgorithmIdentifier {
            algorithm: own.algorithm.algorithm.clone()?,
            parameters: working.algorithm.parameters.clone()?,
        },
        subject_public_key: own.subject_public_key.clone()?,
    })
}

/// The DER encoding of the key's info; each that was read has one.
#[tactic(auto, unfolding(path_revocation::specs::Lists::encoding_of))]
pub(crate) fn encoded(
    alloc: Global,
    key: &SubjectPublicKeyInfo,
) -> Result<Option<Vec<u8>>, OutOfMemory>
    ensures { IfOk result (λ o. option_map (λ v. v.items) o ≡ encoding_of subject_public_key_info key.now) }
{
    match der::encode(alloc, key) {
        Ok(octets) => Ok(Some(octets)),
        Err(EncodeError::OutOfMemory) => Err(OutOfMemory),
        Err(_) => Ok(None),
    }
}
