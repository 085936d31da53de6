//! The parameters in a key's algorithm (RFC 5280, 4.1.1.2 and 4.1.2.7).
ghost use Rattle.std.specs.Prelude.{◌≡◌, IfOk};
ghost use Rattle.shelf_keys.specs.Parameters.{are_null, are_strict, is_ml_dsa, is_of_curves, is_of_edwards, is_rsa_encryption, name_curve, parameters_fit};

use asn1_core::{ObjectIdentifier, OutOfMemory};
use der_tree::{Any, der};
use pkix_cert::AlgorithmIdentifier;
use std::alloc::Global;
use strict_der::is_strict;

/// rsaEncryption (RFC 3279, 2.3.1).
const RSA_ENCRYPTION: &[u32] = &[1, 2, 840, 113549, 1, 1, 1];

/// id-ecPublicKey, id-ecDH and id-ecMQV (RFC 5480, 2.1.1 and 2.1.2).
const EC_PUBLIC_KEY: &[u32] = &[1, 2, 840, 10045, 2, 1];

const EC_DH: &[u32] = &[1, 3, 132, 1, 12];

const EC_MQV: &[u32] = &[1, 3, 132, 1, 13];

/// id-X25519, id-X448, id-Ed25519 and id-Ed448 (RFC 8410, 3).
const X25519: &[u32] = &[1, 3, 101, 110];

const X448: &[u32] = &[1, 3, 101, 111];

const ED25519: &[u32] = &[1, 3, 101, 112];

const ED448: &[u32] = &[1, 3, 101, 113];

/// id-ml-dsa-44, id-ml-dsa-65 and id-ml-dsa-87 (RFC 9881, 2).
const ML_DSA_44: &[u32] = &[2, 16, 840, 1, 101, 3, 4, 3, 17];

const ML_DSA_65: &[u32] = &[2, 16, 840, 1, 101, 3, 4, 3, 18];

const ML_DSA_87: &[u32] = &[2, 16, 840, 1, 101, 3, 4, 3, 19];

/// NULL in DER.
const NULL: &[u8] = &[5, 0];

fn is_rsa_encryption(id: &ObjectIdentifier) -> bool
    ensures { result ≡ is_rsa_encryption id.now }
{
    id.arcs() == RSA_ENCRYPTION
}

fn is_of_curves(id: &ObjectIdentifier) -> bool
    ensures { result ≡ is_of_curves id.now }
{
    let arcs = id.arcs();
    arcs == EC_PUBLIC_KEY || arcs == EC_DH || arcs == EC_MQV
}

fn is_of_edwards(id: &ObjectIdentifier) -> bool
    ensures { result ≡ is_of_edwards id.now }
{
    let arcs = id.arcs();
    arcs == X25519 || arcs == X448 || arcs == ED25519 || arcs == ED448
}

fn is_ml_dsa(id: &ObjectIdentifier) -> bool
    ensures { result ≡ is_ml_dsa id.now }
{
    let arcs = id.arcs();
    arcs == ML_DSA_44 || arcs == ML_DSA_65 || arcs == ML_DSA_87
}

fn are_null(parameters: &Option<Any>) -> bool
    ensures { result ≡ are_null parameters.now }
{
    match parameters {
        Some(octets) => octets.as_bytes() == NULL,
        None => false,
    }
}

/// Whether they name a curve (RFC 5480, 2.1.1).
fn name_curve(alloc: Global, parameters: &Option<Any>) -> Result<bool, OutOfMemory>
    ensures { IfOk result (λ b. b ≡ name_curve parameters.now) }
{
    match parameters {
        Some(octets) => Ok(der::value_of::<ObjectIdentifier>(alloc, octets.as_bytes())?.is_some()),
        None => Ok(false),
    }
}

/// Whether there are none, or they are strict DER.
fn are_strict(parameters: &Option<Any>) -> bool
    ensures { result ≡ are_strict parameters.now }
{
    match parameters {
        Some(octets) => is_strict(octets.as_bytes()),
        None => true,
    }
}

/// Whether the parameters are those that the algorithm's own standard asks for; of others strict DER.
#[tactic(auto, unfolding(crate::specs::Parameters::parameters_fit))]
pub(crate) fn parameters_fit(
    alloc: Global,
    algorithm: &AlgorithmIdentifier,
) -> Result<bool, OutOfMemory>
    ensures { IfOk result (λ b. b ≡ parameters_fit algorithm.now) }
{
    let id = &algorithm.algorithm;
    if is_rsa_encryption(id) {
        return Ok(are_null(&algorithm.parameters));
    }
    if is_of_curves(id) {
        return name_curve(alloc, &algorithm.parameters);
    }
    if is_of_edwards(id) || is_ml_dsa(id) {
        return Ok(algorithm.parameters.is_none());
    }
    Ok(are_strict(&algorithm.parameters))
}
