ghost use Rattle.std.specs.Prelude.{◌≡◌, ℕ, List, None, IfOk, IfErr};
ghost use Rattle.der_tree.specs.Form.{IsDerOf};
ghost use Rattle.rcgen_text.specs.Causes.{Explains, origin_of};
ghost use Rattle.rcgen_text.specs.declared.error.Error.TheVariants.{OutOfMemory};
ghost use Rattle.rcgen_sign.specs.declared.sign_algo.TheConstants.{PKCS_ED25519};
ghost use Rattle.rcgen_sign.specs.DigestKeys.{digest_key, digest_signature};
ghost use Rattle.rcgen_sign.specs.KeyInfos.{key_info};
ghost use Rattle.rcgen_sign.specs.Keys.{Key, key_info_octets, key_info_value, key_of_parts};

use crate::key_info::{KeyInfo, memory_only};
use crate::sign_algo::{PKCS_ED25519, SignatureAlgorithm};
use der_tree::der;
use rcgen_text::Error;
use sha2::{Digest, Sha256};
use std::alloc::Global;
use std::marker::Model;

/// The DER of the info of a key of these bytes.
fn info_octets(alloc: Global, algorithm: SignatureAlgorithm, key: &[u8]) -> Result<Vec<u8>, Error>
    ensures form { IfOk result (λ b. IsDerOf key_info (key_info_value (key_of_parts algorithm key.now)) b.items) }
    ensures octets { IfOk result (λ b. b.items ≡ key_info_octets (key_of_parts algorithm key.now)) }
    ensures memory { IfErr result (λ e. e ≡ OutOfMemory) }
{
    let info = KeyInfo::new(alloc, algorithm, key)?;
    let octets = memory_only(der::encode(alloc, &info))?;
    Ok(octets)
}

/// A public key, and the algorithm of its signatures.
pub trait PublicKeyData {
    /// Its algorithm and its bytes.
    ghost key: { Self → Key };

    /// Its bytes: the contents of the BIT STRING subjectPublicKey, no bits unused (RFC 5280,
    /// 4.1.2.7). Of an RSA key they are the DER of its RSAPublicKey (RFC 3279, 2.3.1), of ECDSA the
    /// octets of the point (RFC 5480, 2.2), of Ed25519 and ML-DSA the key as it is, 32 octets of
    /// Ed25519 (RFC 8410, 4; RFC 9881, 4).
    fn der_bytes(&self) -> &[u8]
        ensures { result.now ≡ (key self.now).octets };

    /// The algorithm of its signatures.
    fn algorithm(&self) -> SignatureAlgorithm
        ensures { result ≡ (key self.now).algorithm };

    /// The DER of the key's SubjectPublicKeyInfo (RFC 5280, 4.1.2.7).
    fn subject_public_key_info(&self, alloc: Global) -> Result<Vec<u8>, Error>
        ensures form { IfOk result (λ b. IsDerOf key_info (key_info_value (key self.now)) b.items) }
        ensures octets { IfOk result (λ b. b.items ≡ key_info_octets (key self.now)) }
        ensures memory { IfErr result (λ e. e ≡ OutOfMemory) }
    {
        info_octets(alloc, self.algorithm(), self.der_bytes())
    }
}

/// A key that signs.
pub trait SigningKey: PublicKeyData {
    /// Which signatures fit a message.
    ghost fits: { Self → List ℕ → List ℕ → Type 0 };

    /// Which messages the key may refuse to sign.
    ghost may_refuse: { Self → List ℕ → Type 0 };

    /// A signature that fits the message, which is the whole DER of what is signed and not its
    /// digest: the key digests it, as its algorithm has it. The answer is what the BIT STRING of the
    /// signature holds (RFC 5280, 4.1.1.3): of RSA as many octets as the modulus has (RFC 3279,
    /// 2.2.1; RFC 8017, 8.2.1), of ECDSA the DER of the SEQUENCE of r and s (RFC 3279, 2.2.3), of
    /// Ed25519 its 64 octets (RFC 8410, 6; RFC 8032, 5.1.6), of ML-DSA the signature as it is (RFC
    /// 9881, 3). `RemoteKeyError` only where the key may refuse it; no other error but lack of
    /// memory.
    fn sign(&self, alloc: Global, msg: &[u8]) -> Result<Vec<u8>, Error>
        ensures signed { IfOk result (λ s. fits self.now msg.now s.items) }
        ensures why { IfErr result (λ e. Explains None (may_refuse self.now msg.now) (origin_of e)) };
}

impl<K: PublicKeyData> PublicKeyData for &K {
    ghost key = { λ k. K.key k.now };

    fn der_bytes(&self) -> &[u8] {
        (**self).der_bytes()
    }

    fn algorithm(&self) -> SignatureAlgorithm {
        (**self).algorithm()
    }
}

impl<K: SigningKey> SigningKey for &K {
    ghost fits = { λ k. K.fits k.now };

    ghost may_refuse = { λ k. K.may_refuse k.now };

    fn sign(&self, alloc: Global, msg: &[u8]) -> Result<Vec<u8>, Error> {
        (**self).sign(alloc, msg)
    }
}

/// A stand-in for a key, for trials: its public bytes are the SHA-256 of its secret, and the one
/// signature that fits a message is the SHA-256 of the secret and then the message. It calls itself
/// Ed25519, and isn't a signature scheme: whoever can check a signature can make it.
#[derive(Drop)]
pub struct DigestKey {
    secret: Vec<u8>,
    public: [u8; 32],
}

impl Model for DigestKey {
    ghost use Rattle.std.specs.Prelude.{◌≡◌, ℕ, List};
    ghost use Rattle.sha2.specs.Sha256.{sha256};

    ghost Value = { List ℕ };

    ghost view = { λ k. k.secret.items };

    ghost invariant = { λ k. k.public ≡ sha256 k.secret.items };
}

impl DigestKey {
    /// The key of a secret.
    pub fn new(alloc: Global, secret: &[u8]) -> Result<DigestKey, Error>
        ensures secret { IfOk result (λ k. k ≡ secret.now) }
        ensures memory { IfErr result (λ e. e ≡ OutOfMemory) }
    {
        let public = Sha256::digest(secret);
        let secret = Vec::from_slice(alloc, secret)?;
        Ok(DigestKey { secret, public })
    }
}

impl PublicKeyData for DigestKey {
    ghost key = { digest_key };

    fn der_bytes(&self) -> &[u8] {
        &self.public
    }

    fn algorithm(&self) -> SignatureAlgorithm {
        PKCS_ED25519
    }
}

impl SigningKey for DigestKey {
    ghost fits = { λ k m s. s ≡ digest_signature k m };

    ghost may_refuse = { λ k m. ⊥ };

    fn sign(&self, alloc: Global, msg: &[u8]) -> Result<Vec<u8>, Error> {
        let mut hasher = Sha256::new();
        hasher.update(self.secret.as_slice());
        hasher.update(msg);
        let digest = hasher.finalize();
        Ok(Vec::from_slice(alloc, &digest)?)
    }
}

/// A stand-in for a key, for trials: one signature fits every message, and no other does.
#[derive(Drop)]
pub struct FixedKey {
    algorithm: SignatureAlgorithm,
    public: Vec<u8>,
    signature: Vec<u8>,
}

impl Model for FixedKey {
    ghost use Rattle.rcgen_sign.specs.Keys.{Fixed, key_of_parts};

    ghost Value = { Fixed };

    ghost view = { λ k. record { key = key_of_parts k.algorithm k.public.items; signature = k.signature.items } };
}

impl FixedKey {
    /// The key of these parts. Nothing relates them.
    pub fn new(algorithm: SignatureAlgorithm, public: Vec<u8>, signature: Vec<u8>) -> FixedKey
        ensures key { result.key ≡ key_of_parts algorithm public.items }
        ensures signature { result.signature ≡ signature.items }
    {
        FixedKey {
            algorithm,
            public,
            signature,
        }
    }
}

impl PublicKeyData for FixedKey {
    ghost key = { λ k. k.key };

    fn der_bytes(&self) -> &[u8] {
        self.public.as_slice()
    }

    fn algorithm(&self) -> SignatureAlgorithm {
        self.algorithm
    }
}

impl SigningKey for FixedKey {
    ghost fits = { λ k m s. s ≡ k.signature };

    ghost may_refuse = { λ k m. ⊥ };

    fn sign(&self, alloc: Global, _msg: &[u8]) -> Result<Vec<u8>, Error> {
        Ok(Vec::from_slice(alloc, self.signature.as_slice())?)
    }
}

/// A key that refuses to sign, for trials of what becomes of a refusal: no signature fits a message,
/// and each message is refused.
#[derive(Drop)]
pub struct RefusingKey {
    algorithm: SignatureAlgorithm,
    public: Vec<u8>,
}

impl Model for RefusingKey {
    ghost use Rattle.rcgen_sign.specs.Keys.{Key, key_of_parts};

    ghost Value = { Key };

    ghost view = { λ k. key_of_parts k.algorithm k.public.items };
}

impl RefusingKey {
    /// The key of these parts.
    pub fn new(algorithm: SignatureAlgorithm, public: Vec<u8>) -> RefusingKey
        ensures { result ≡ key_of_parts algorithm public.items }
    {
        RefusingKey { algorithm, public }
    }
}

impl PublicKeyData for RefusingKey {
    ghost key = { λ k. k };

    fn der_bytes(&self) -> &[u8] {
        self.public.as_slice()
    }

    fn algorithm(&self) -> SignatureAlgorithm {
        self.algorithm
    }
}

impl SigningKey for RefusingKey {
    ghost fits = { λ k m s. ⊥ };

    ghost may_refuse = { λ k m. Unit {0} };

    /// `RemoteKeyError`, whatever the message is.
    fn sign(&self, _alloc: Global, _msg: &[u8]) -> Result<Vec<u8>, Error>
        ensures signed { IfOk result (λ s. ⊥) }
        ensures why { IfErr result (λ e. Explains None (Unit {0}) (origin_of e)) }
        ensures refused { result ≡ Err Error.RemoteKeyError }
    {
        Err(Error::RemoteKeyError)
    }
}
