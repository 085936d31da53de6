//! The key of a line.
ghost use Rattle.rcgen_sign.specs.Keys.{key_of_parts};

use crate::device_key::{DeviceKey, device_key};
use crate::words::{algorithm, has_word, value_of, value_or};
use case_octets::octets_of;
use rcgen_issue::{
    DigestKey, Error, FixedKey, PKCS_ED25519, PublicKeyData, RefusingKey, SignatureAlgorithm,
    SigningKey,
};
use std::alloc::{AllocError, Global};

/// Who signs for a key.
#[derive(Drop)]
enum Signer {
    Fixed(FixedKey),
    Refusing(RefusingKey),
    Digest(DigestKey),
    Device(DeviceKey),
}

/// The key of a line: one type, so that each call of the libraries is compiled once.
#[derive(Drop)]
pub struct CaseKey {
    algorithm: SignatureAlgorithm,
    public: Vec<u8>,
    signer: Signer,
}

impl PublicKeyData for CaseKey {
    ghost key = { λ k. key_of_parts k.algorithm k.public.items };

    fn der_bytes(&self) -> &[u8] {
        self.public.as_slice()
    }

    fn algorithm(&self) -> SignatureAlgorithm {
        self.algorithm
    }
}

impl SigningKey for CaseKey {
    ghost fits = { λ k message signature. Unit {0} };

    ghost may_refuse = { λ k message. Unit {0} };

    fn sign(&self, alloc: Global, msg: &[u8]) -> Result<Vec<u8>, Error> {
        signature(alloc, &self.signer, msg)?.ok_or(Error::RemoteKeyError)
    }
}

fn answer_of(alloc: Global, signer: &Signer, msg: &[u8]) -> Result<Vec<u8>, Error> {
    match signer {
        Signer::Fixed(key) => key.sign(alloc, msg),
        Signer::Refusing(key) => key.sign(alloc, msg),
        Signer::Digest(key) => key.sign(alloc, msg),
        Signer::Device(key) => key.sign(alloc, msg),
    }
}

fn signature(alloc: Global, signer: &Signer, msg: &[u8]) -> Result<Option<Vec<u8>>, AllocError> {
    match answer_of(alloc, signer, msg) {
        Ok(signature) => Ok(Some(signature)),
        Err(Error::OutOfMemory) => Err(AllocError),
        Err(_) => Ok(None),
    }
}

fn fixed_key(
    algorithm: SignatureAlgorithm,
    public: Vec<u8>,
    signature: Vec<u8>,
) -> Result<CaseKey, AllocError> {
    let copy = public.clone()?;
    Ok(CaseKey {
        algorithm,
        public,
        signer: Signer::Fixed(FixedKey::new(algorithm, copy, signature)),
    })
}

/// A key that signs nothing.
pub fn refusing_key(algorithm: SignatureAlgorithm, public: Vec<u8>) -> Result<CaseKey, AllocError> {
    let copy = public.clone()?;
    Ok(CaseKey {
        algorithm,
        public,
        signer: Signer::Refusing(RefusingKey::new(algorithm, copy)),
    })
}

/// The stand-in of a secret.
pub fn digest_key(alloc: Global, secret: &[u8]) -> Option<CaseKey> {
    let key = DigestKey::new(alloc, secret).ok()?;
    Some(CaseKey {
        algorithm: key.algorithm(),
        public: key.der_bytes().to_vec(alloc).ok()?,
        signer: Signer::Digest(key),
    })
}

fn key_on_device(alloc: Global) -> Option<CaseKey> {
    let key = device_key(alloc)?;
    Some(CaseKey {
        algorithm: key.algorithm(),
        public: key.der_bytes().to_vec(alloc).ok()?,
        signer: Signer::Device(key),
    })
}

/// A key of the byte AA with the signature BB CC under Ed25519.
pub fn plain_key(alloc: Global) -> Result<CaseKey, AllocError> {
    let public = [0xAA].to_vec(alloc)?;
    fixed_key(PKCS_ED25519, public, [0xBB, 0xCC].to_vec(alloc)?)
}

// The key of `public=HEX`, `algorithm=NAME` and `signature=HEX`; with `refusing` one that signs nothing.
fn stated_key(alloc: Global, line: &str) -> Option<CaseKey> {
    let algorithm = algorithm(value_or(line, "algorithm=", "ed25519"))?;
    let public = octets_of(alloc, value_or(line, "public=", "aa"))?;
    if has_word(line, "refusing") {
        return refusing_key(algorithm, public).ok();
    }
    let signature = octets_of(alloc, value_or(line, "signature=", "bbcc"))?;
    fixed_key(algorithm, public, signature).ok()
}

/// The key of the line: the one of a `secret=HEX`, the `device`, or one of parts.
pub fn key(alloc: Global, line: &str) -> Option<CaseKey> {
    if let Some(secret) = value_of(line, "secret=") {
        return digest_key(alloc, &octets_of(alloc, secret)?);
    }
    if has_word(line, "device") {
        return key_on_device(alloc);
    }
    stated_key(alloc, line)
}
