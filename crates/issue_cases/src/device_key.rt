//! A key that a user of the library hands in.
ghost use Rattle.rcgen_sign.specs.Keys.{key_of_parts};
ghost use Rattle.rcgen_sign.specs.declared.sign_algo.TheConstants.{PKCS_ED25519};

use rcgen_issue::{Error, PKCS_ED25519, PublicKeyData, SignatureAlgorithm, SigningKey};
use std::alloc::{AllocError, Global};

#[derive(Drop)]
pub struct DeviceKey {
    public: Vec<u8>,
}

impl PublicKeyData for DeviceKey {
    ghost key = { λ k. key_of_parts PKCS_ED25519 k.public.items };

    fn der_bytes(&self) -> &[u8] {
        self.public.as_slice()
    }

    fn algorithm(&self) -> SignatureAlgorithm {
        PKCS_ED25519
    }
}

impl SigningKey for DeviceKey {
    ghost fits = { λ k message signature. Unit {0} };

    ghost may_refuse = { λ k message. Unit {0} };

    fn sign(&self, alloc: Global, msg: &[u8]) -> Result<Vec<u8>, Error> {
        device_signature(alloc, msg)?.ok_or(Error::RemoteKeyError)
    }
}

// A device that signs what fits into its buffer.
fn device_signature(alloc: Global, msg: &[u8]) -> Result<Option<Vec<u8>>, AllocError> {
    if msg.len() > 200 {
        return Ok(None);
    }
    Ok(Some([0xDD; 64].to_vec(alloc)?))
}

/// The device of 32 bytes AA.
pub fn device_key(alloc: Global) -> Option<DeviceKey> {
    let public = [0xAA; 32].to_vec(alloc).ok()?;
    Some(DeviceKey { public })
}
