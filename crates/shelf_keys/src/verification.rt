//! Signatures, before they are put in their place.
ghost use Rattle.std.specs.Prelude.{◌≡◌, IfOk};
ghost use Rattle.der_tree.specs.Form.{value_of};
ghost use Rattle.pkix_alg.specs.Algorithms.{rsa_public_key};
ghost use Rattle.shelf_fault.specs.Faults.{Passes};
ghost use Rattle.shelf_keys.specs.Signatures.{checked, fixed_size, has_shape, has_size_of, is_pkcs1, is_pss, is_pss_only, is_rsa, is_rsa_pss, is_verified, size_of_number, verified};

use crate::encoding::encoded;
use der_tree::der;
use pkix_alg::{EcdsaSigValue, RsaPublicKey};
use rcgen_certificate::signature_identifier;
use rcgen_issue::{
    PKCS_ED25519, PKCS_ML_DSA_44, PKCS_ML_DSA_65, PKCS_ML_DSA_87, PKCS_RSA_SHA256, PKCS_RSA_SHA384,
    PKCS_RSA_SHA512, PublicKey, PublicKeyData, SignatureAlgorithm, Verifier,
};
use rcgen_sign::{
    PKCS_PSS_ONLY_SHA256, PKCS_PSS_ONLY_SHA384, PKCS_PSS_ONLY_SHA512, PKCS_PSS_SHA256,
    PKCS_PSS_SHA384, PKCS_PSS_SHA512, PKCS_RSA_PSS_SHA256, PKCS_RSA_PSS_SHA384,
    PKCS_RSA_PSS_SHA512,
};
use shelf_fault::{Fault, Obstacle, SignatureFault};
use signature_verifier::SignatureVerifier;
use std::alloc::{AllocError, Global};

/// How many octets a signature has, of algorithms where that is fixed.
#[tactic(auto, unfolding(crate::specs::Signatures::fixed_size))]
fn fixed_size(algorithm: SignatureAlgorithm) -> Option<usize>
    ensures { result ≡ fixed_size algorithm }
{
    if algorithm == PKCS_ED25519 {
        return Some(64);
    }
    if algorithm == PKCS_ML_DSA_44 {
        return Some(2420);
    }
    if algorithm == PKCS_ML_DSA_65 {
        return Some(3309);
    }
    if algorithm == PKCS_ML_DSA_87 {
        return Some(4627);
    }
    None
}

fn is_pkcs1(algorithm: SignatureAlgorithm) -> bool
    ensures { result ≡ is_pkcs1 algorithm }
{
    algorithm == PKCS_RSA_SHA256 || algorithm == PKCS_RSA_SHA384 || algorithm == PKCS_RSA_SHA512
}

fn is_rsa_pss(algorithm: SignatureAlgorithm) -> bool
    ensures { result ≡ is_rsa_pss algorithm }
{
    algorithm == PKCS_RSA_PSS_SHA256
        || algorithm == PKCS_RSA_PSS_SHA384
        || algorithm == PKCS_RSA_PSS_SHA512
}

fn is_pss(algorithm: SignatureAlgorithm) -> bool
    ensures { result ≡ is_pss algorithm }
{
    algorithm == PKCS_PSS_SHA256 || algorithm == PKCS_PSS_SHA384 || algorithm == PKCS_PSS_SHA512
}

fn is_pss_only(algorithm: SignatureAlgorithm) -> bool
    ensures { result ≡ is_pss_only algorithm }
{
    algorithm == PKCS_PSS_ONLY_SHA256
        || algorithm == PKCS_PSS_ONLY_SHA384
        || algorithm == PKCS_PSS_ONLY_SHA512
}

fn is_rsa(algorithm: SignatureAlgorithm) -> bool
    ensures { result ≡ is_rsa algorithm }
{
    is_pkcs1(algorithm) || is_rsa_pss(algorithm) || is_pss(algorithm) || is_pss_only(algorithm)
}

/// How many octets a positive number has, of the contents of its INTEGER.
fn size_of_number(contents: &[u8]) -> usize
    ensures { result ≡ size_of_number contents.now }
{
    match contents {
        [0, rest @ ..] => rest.len(),
        all => all.len(),
    }
}

/// Whether the signature has as many octets as the modulus of the key.
fn has_size_of(alloc: Global, key: &[u8], signature: &[u8]) -> Result<bool, AllocError>
    ensures { IfOk result (λ b. b ≡ has_size_of signature.now (value_of rsa_public_key key.now)) }
{
    match der::value_of::<RsaPublicKey>(alloc, key)? {
        Some(key) => Ok(signature.len() == size_of_number(key.modulus.as_bytes())),
        None => Ok(false),
    }
}

/// Whether the octets have the form of a signature by the key.
#[tactic(auto, unfolding(crate::specs::Signatures::has_shape))]
fn has_shape(alloc: Global, key: &PublicKey, signature: &[u8]) -> Result<bool, AllocError>
    ensures { IfOk result (λ b. b ≡ has_shape key.now signature.now) }
{
    if let Some(size) = fixed_size(key.algorithm()) {
        return Ok(signature.len() == size);
    }
    if is_rsa(key.algorithm()) {
        return has_size_of(alloc, key.der_bytes(), signature);
    }
    Ok(der::value_of::<EcdsaSigValue>(alloc, signature)?.is_some())
}

/// Whether signatures of the algorithm are verified here.
fn is_verified(algorithm: SignatureAlgorithm) -> bool
    ensures { result ≡ is_verified algorithm }
{
    algorithm != PKCS_ML_DSA_44 && algorithm != PKCS_ML_DSA_65 && algorithm != PKCS_ML_DSA_87
}

/// Refuses what isn't the key's signature over the message.
#[tactic(auto, unfolding(crate::specs::Signatures::verified))]
fn verified(alloc: Global, key: &PublicKey, message: &[u8], signature: &[u8]) -> Result<(), Fault>
    ensures { Passes (verified key.now message.now signature.now) result }
{
    let info = key.subject_public_key_info(alloc)?;
    let identifier = signature_identifier(alloc, key.algorithm())?;
    let algorithm = encoded(alloc, &identifier, Fault::Obstacle(Obstacle::Algorithm))?;
    if SignatureVerifier::new().verify(message, &info, &algorithm, signature) {
        Ok(())
    } else {
        Err(Fault::Signature(SignatureFault::Wrong))
    }
}

/// Refuses a signature that isn't the key's over the message.
#[tactic(auto, unfolding(crate::specs::Signatures::checked))]
pub fn checked(
    alloc: Global,
    key: &PublicKey,
    message: &[u8],
    signature: &[u8],
) -> Result<(), Fault>
    ensures { Passes (checked key.now message.now signature.now) result }
{
    if !has_shape(alloc, key, signature)? {
        return Err(Fault::Signature(SignatureFault::OtherForm));
    }
    if !is_verified(key.algorithm()) {
        return Ok(());
    }
    verified(alloc, key, message, signature)
}
