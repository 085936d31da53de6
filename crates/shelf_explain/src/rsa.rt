//! How many bits an RSA key has, and its exponent (RFC 3279, 2.3.1; RFC 4055, 1.2).
ghost use Rattle.std.specs.Prelude.{◌≡◌, ◌<◌, ◌≤◌, ◌^◌, ◌-◌, ◌∷◌, ◌++◌, IfOk, OnOk};
ghost use Rattle.asn1_core.specs.Twos.{number};
ghost use Rattle.shelf_explain.specs.RsaKeys.{bit_length, exponent_in, exponent_text, is_rsa, is_rsa_identifier, modulus_length, positive_length, rsa_length};

use crate::line::push_labelled;
use crate::number::is_negative;
use der_tree::der;
use pkix_alg::RsaPublicKey;
use pkix_alg::algorithms::RSA_ENCRYPTION;
use pkix_cert::SubjectPublicKeyInfo;
use std::alloc::{AllocError, Global};

/// How many bits a number has whose first octet, the highest, isn't 0.
fn bit_length_from(first: u8, rest: &[u8]) -> u128
    requires { 0 < first }
    ensures digits { result ≡ bit_length (number (first ∷ rest.now)) }
    ensures most { number (first ∷ rest.now) < 2 ^ result }
    ensures least { 2 ^ (result - 1) ≤ number (first ∷ rest.now) }
{
    rest.len() as u128 * 8 + u128::from(first.ilog2()) + 1
}

/// How many bits the number of the octets has, the highest first.
#[tactic(auto, using(crate::proofs::BitLengths::none_left))]
fn bit_length(octets: &[u8]) -> u128
    ensures digits { result ≡ bit_length (number octets.now) }
    ensures most { number octets.now < 2 ^ result }
    ensures least { 0 < number octets.now → 2 ^ (result - 1) ≤ number octets.now }
{
    let mut rest = octets;
    while let [first, after @ ..] = rest {
        if *first > 0 {
            return bit_length_from(*first, after);
        }
        rest = after;
    }
    0
}

/// How many bits the number of the octets in two's complement has, where it is positive.
#[tactic(auto, using(crate::proofs::BitLengths::has_bits), unfolding(crate::specs::RsaKeys::positive_length))]
fn positive_length(octets: &[u8]) -> Option<u128>
    ensures { result ≡ positive_length octets.now }
{
    let length = bit_length(octets);
    if !is_negative(octets) && length > 0 {
        Some(length)
    } else {
        None
    }
}

/// How many bits the modulus has, where the octets are an RSAPublicKey's (RFC 8017, A.1.1).
#[tactic(auto, unfolding(crate::specs::RsaKeys::modulus_length))]
fn modulus_length(alloc: Global, octets: &[u8]) -> Result<Option<u128>, AllocError>
    ensures { IfOk result (λ length. length ≡ modulus_length octets.now) }
{
    match der::value_of::<RsaPublicKey>(alloc, octets)? {
        Some(key) => Ok(positive_length(key.modulus.as_bytes())),
        None => Ok(None),
    }
}

/// id-RSASSA-PSS (RFC 4055, 1.2).
const RSASSA_PSS: &[u32] = &[1, 2, 840, 113549, 1, 1, 10];

#[tactic(auto, unfolding(crate::specs::RsaKeys::is_rsa_identifier))]
fn is_rsa_identifier(arcs: &[u32]) -> bool
    ensures { result ≡ is_rsa_identifier arcs.now }
{
    arcs == RSA_ENCRYPTION || arcs == RSASSA_PSS
}

/// Whether the key is an RSA key.
#[tactic(auto, unfolding(crate::specs::RsaKeys::is_rsa))]
fn is_rsa(key: &SubjectPublicKeyInfo) -> bool
    ensures { result ≡ is_rsa key.now }
{
    is_rsa_identifier(key.algorithm.algorithm.arcs()) && key.subject_public_key.unused() == 0
}

/// How many bits the modulus has, where the key is an RSA key.
#[tactic(auto, unfolding(crate::specs::RsaKeys::rsa_length))]
pub(crate) fn rsa_length(
    alloc: Global,
    key: &SubjectPublicKeyInfo,
) -> Result<Option<u128>, AllocError>
    ensures { IfOk result (λ length. length ≡ rsa_length key.now) }
{
    if is_rsa(key) {
        modulus_length(alloc, key.subject_public_key.bytes())
    } else {
        Ok(None)
    }
}

/// Pushes the exponent, where the octets are an RSAPublicKey's.
#[tactic(auto, unfolding(crate::specs::RsaKeys::exponent_in, crate::specs::RsaKeys::exponent_of))]
fn push_exponent_in(alloc: Global, lines: &mut Vec<u8>, octets: &[u8]) -> Result<(), AllocError>
    ensures { OnOk result (lines.new.items ≡ lines.old.items ++ exponent_in octets.now) }
{
    let Some(key) = der::value_of::<RsaPublicKey>(alloc, octets)? else {
        return Ok(());
    };
    push_labelled(alloc, lines, b", exponent ", &key.public_exponent)?;
    Ok(())
}

/// Pushes the exponent, where the key is an RSA key.
#[tactic(auto, unfolding(crate::specs::RsaKeys::exponent_text))]
pub(crate) fn push_exponent(
    alloc: Global,
    lines: &mut Vec<u8>,
    key: &SubjectPublicKeyInfo,
) -> Result<(), AllocError>
    ensures { OnOk result (lines.new.items ≡ lines.old.items ++ exponent_text key.now) }
{
    if is_rsa(key) {
        push_exponent_in(alloc, lines, key.subject_public_key.bytes())
    } else {
        Ok(())
    }
}
