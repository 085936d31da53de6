ghost use Rattle.std.specs.Prelude.{◌≡◌, ◌==◌, not, Some};
ghost use Rattle.std.proofs.Common.{rules};
ghost use Rattle.rcgen_text.specs.Causes.{Makes, MayAnswer, TakesMemory, origin_of, x509};
ghost use Rattle.rcgen_sign.specs.Keys.{key_of_parts};
ghost use Rattle.rcgen_sign.specs.KeyReading.{IsKeyOf, first_key_fault};

use crate::key_info::KeyInfo;
use crate::key_pair::PublicKeyData;
use crate::sign_algo::SignatureAlgorithm;
use asn1_core::{OctetString, TryClone};
use der_tree::{DecodeError, der};
use rcgen_text::Error;
use std::alloc::Global;
use std::marker::Model;

/// A public key of which the bytes and the algorithm are known.
#[derive(Clone, Debug, PartialEq, Eq, Hash)]
pub struct PublicKey {
    raw: OctetString,
    algorithm: SignatureAlgorithm,
}

impl Model for PublicKey {
    ghost use Rattle.rcgen_sign.specs.Keys.{Key, key_of_parts};

    ghost Value = { Key };

    ghost view = { λ k. key_of_parts k.algorithm k.raw };

    ghost inverse = { λ k. record { raw = k.octets; algorithm = k.algorithm } };
}

impl Drop for PublicKey {
    fn drop(self) {
        let PublicKey {
            raw: _,
            algorithm: _,
        } = self;
    }
}

impl TryClone for PublicKey {
    ghost copies_are_equal = { Prim.search rules };
}

impl PublicKey {
    /// The key of these bytes, as the subjectPublicKey of a certificate has them (RFC 5280,
    /// 4.1.2.7). Whether they are a key of the algorithm isn't looked at.
    pub fn new(raw: Vec<u8>, algorithm: SignatureAlgorithm) -> PublicKey
        ensures { result ≡ key_of_parts algorithm raw.items }
    {
        PublicKey {
            raw: OctetString::new(raw),
            algorithm,
        }
    }
}

impl PublicKeyData for PublicKey {
    ghost key = { λ k. k };

    fn der_bytes(&self) -> &[u8] {
        self.raw.as_slice()
    }

    fn algorithm(&self) -> SignatureAlgorithm {
        self.algorithm
    }
}

/// A public key that was read from its DER (RFC 5280, 4.1.2.7).
#[derive(Clone, Debug, PartialEq, Eq)]
pub struct SubjectPublicKeyInfo {
    alg: SignatureAlgorithm,
    subject_public_key: OctetString,
}

impl Model for SubjectPublicKeyInfo {
    ghost use Rattle.rcgen_sign.specs.Keys.{Key, key_of_parts};

    ghost Value = { Key };

    ghost view = { λ k. key_of_parts k.alg k.subject_public_key };

    ghost inverse = { λ k. record { alg = k.algorithm; subject_public_key = k.octets } };
}

impl Drop for SubjectPublicKeyInfo {
    fn drop(self) {
        let SubjectPublicKeyInfo {
            alg: _,
            subject_public_key: _,
        } = self;
    }
}

impl TryClone for SubjectPublicKeyInfo {
    ghost copies_are_equal = { Prim.search rules };
}

/// The error of bytes that aren't a public key's info, and why.
fn not_read(alloc: Global, why: &str) -> Error
    ensures { MayAnswer TakesMemory (Some (x509 why.now)) (origin_of result) }
{
    match String::from_str(alloc, why) {
        Ok(text) => Error::X509(text),
        Err(_) => Error::OutOfMemory,
    }
}

/// Whether bits at the end of the key are unused.
fn has_unused_bits(info: &KeyInfo) -> bool
    ensures { result ≡ not (info.now.subject_public_key.unused == 0) }
{
    info.subject_public_key.unused() != 0
}

impl SubjectPublicKeyInfo {
    /// The key whose info the bytes are. `X509` where no front of them is an info, where bytes
    /// follow it, and where bits of the key are unused; then `UnsupportedSignatureAlgorithm` where
    /// no algorithm that `SignatureAlgorithm::from_oid` looks for has such keys. Of several the
    /// first is taken, so an RSA key always gets `PKCS_RSA_SHA256`.
    pub fn from_der(alloc: Global, der: &[u8]) -> Result<SubjectPublicKeyInfo, Error>
        ensures { Makes TakesMemory (first_key_fault der.now) (IsKeyOf der.now) result }
    {
        let (info, rest): (KeyInfo, &[u8]) = match der::decode_with_remainder(alloc, der) {
            Ok(read) => read,
            Err(DecodeError::NotInGrammar) => {
                return Err(not_read(alloc, "not a SubjectPublicKeyInfo"));
            }
            Err(DecodeError::OutOfMemory) => return Err(Error::OutOfMemory),
        };
        if !rest.is_empty() {
            return Err(not_read(alloc, "trailing bytes in SubjectPublicKeyInfo"));
        }
        if has_unused_bits(&info) {
            return Err(not_read(alloc, "unused bits in SubjectPublicKeyInfo"));
        }
        let Some(alg) = SignatureAlgorithm::from_key(&info.algorithm) else {
            return Err(Error::UnsupportedSignatureAlgorithm);
        };
        let octets = Vec::from_slice(alloc, info.subject_public_key.bytes())?;
        Ok(SubjectPublicKeyInfo {
            alg,
            subject_public_key: OctetString::new(octets),
        })
    }
}

impl PublicKeyData for SubjectPublicKeyInfo {
    ghost key = { λ k. k };

    fn der_bytes(&self) -> &[u8] {
        self.subject_public_key.as_slice()
    }

    fn algorithm(&self) -> SignatureAlgorithm {
        self.alg
    }
}
