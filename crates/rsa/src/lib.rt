//! RSASSA-PKCS1-v1_5 and RSASSA-PSS (RFC 8017, 8.2 and 8.1): whether a signature is that of a message
//! under a public key. Nothing is allocated, and each call returns.
//!
//! Decided are keys whose modulus has at most 8192 bits and is odd, and whose exponent is odd, at
//! least 3 and below 2 ^ 32; of other keys no signature is accepted. Which hash functions and sizes of
//! keys are good enough is the caller's to say.
#![tactic(auto)]

ghost use Rattle.std.specs.Prelude.{◌≡◌, ℕ, ◌+◌, ◌-◌, ◌^◌, ◌<◌, ◌≤◌, ◌%◌, true, List, length};
ghost use Rattle.std.specs.Int.Digits.{AllBelowBase};
ghost use Rattle.rsa.specs.Primitives.{i2osp, is_modulus, os2ip};
ghost use Rattle.rsa.specs.Pkcs1.{digest_info, digest_info_len, encoded_message, verifies};
ghost use Rattle.rsa.specs.Pss as pss;
ghost use Rattle.rsa.specs.declared.digest.PssHash.{PssHash};
ghost use Rattle.rsa.specs.declared.Hash.{Hash};

mod conversion;
mod digest;
mod emsa_pss;
mod key;
mod mgf1;
mod pkcs1;
mod primitive;
mod pss;

pub use digest::PssHash;
use key::decided_exponent;
use pkcs1::{has_encoded, is_long_enough};
use pss::has_signed;

/// The hash function that a signature goes by.
#[derive(Clone, Copy, PartialEq, Eq, Debug)]
pub enum Hash {
    /// SHA-1 (FIPS 180-4), for which collisions are known.
    Sha1,
    /// SHA-256 (FIPS 180-4).
    Sha256,
    /// SHA-384 (FIPS 180-4).
    Sha384,
    /// SHA-512 (FIPS 180-4).
    Sha512,
}

/// Whether `signature` is that of `message` by RSASSA-PKCS1-v1_5 with the hash function, under the
/// public key whose modulus and exponent have these octets, the highest first
/// (RSASSA-PKCS1-V1_5-VERIFY: RFC 8017, 8.2.2). The modulus has no leading zero octet: strip
/// the one that a DER INTEGER may have.
pub fn verify_pkcs1_v1_5(
    hash: Hash,
    modulus: &[u8],
    exponent: &[u8],
    message: &[u8],
    signature: &[u8],
) -> bool
    ensures { result ≡ verifies hash modulus.now exponent.now message.now signature.now }
{
    let Some(exponent) = decided_exponent(modulus, exponent, signature) else {
        return false;
    };
    if !is_long_enough(hash, modulus.len()) {
        return false;
    }
    has_encoded(hash, modulus, exponent, message, signature)
}

/// Whether `signature` is that of `message` by RSASSA-PSS with the hash function, MGF1 with it too, and
/// a salt as long as a digest, under the public key of these octets (RSASSA-PSS-VERIFY: RFC 8017,
/// 8.1.2). The modulus has no leading zero octet.
pub fn verify_pss(
    hash: PssHash,
    modulus: &[u8],
    exponent: &[u8],
    message: &[u8],
    signature: &[u8],
) -> bool
    ensures { result ≡ pss.verifies hash modulus.now exponent.now message.now signature.now }
{
    let Some(exponent) = decided_exponent(modulus, exponent, signature) else {
        return false;
    };
    has_signed(hash, modulus, exponent, message, signature)
}

/// A law: what is accepted has as many octets as the modulus and is below it, and its power is the
/// message's encoding, octet by octet (RFC 8017, 8.2.2).
pub fn accepted_is_encoded()
    ensures length { (hash : Hash) (modulus exponent message signature : List ℕ) → verifies hash modulus exponent message signature ≡ true
        → length signature ≡ length modulus }
    ensures range { (hash : Hash) (modulus exponent message signature : List ℕ) → verifies hash modulus exponent message signature ≡ true
        → os2ip signature < os2ip modulus }
    ensures encoded { (hash : Hash) (modulus exponent message signature : List ℕ) → verifies hash modulus exponent message signature ≡ true
        → i2osp ((os2ip signature ^ os2ip exponent) % os2ip modulus) (length modulus) ≡ encoded_message hash message (length modulus) }
{}

/// A law: a DigestInfo and an encoded message have as many octets as the encoding counts on.
pub fn encodings_have_lengths()
    ensures digest_info { (hash : Hash) (message : List ℕ) → length (digest_info hash message) ≡ digest_info_len hash }
    ensures encoded { (hash : Hash) (message : List ℕ) (em_len : ℕ) → digest_info_len hash + 11 ≤ em_len
        → length (encoded_message hash message em_len) ≡ em_len }
{}

/// A law: a digest and a mask of RSASSA-PSS have as many octets as is said, and a modulus as many bits.
pub fn options_have_lengths()
    ensures digest { (hash : PssHash) (message : List ℕ) → length (pss.hash_of hash message) ≡ pss.h_len hash }
    ensures mask { (hash : PssHash) (seed : List ℕ) (mask_len : ℕ) → length (pss.mgf1 hash seed mask_len) ≡ mask_len }
    ensures modulus { (modulus : List ℕ) → AllBelowBase 256 modulus → is_modulus modulus ≡ true
        → (2 ^ (pss.mod_bits modulus - 1) ≤ os2ip modulus) × (os2ip modulus < 2 ^ pss.mod_bits modulus) }
{}
