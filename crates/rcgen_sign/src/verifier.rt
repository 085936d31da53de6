//! Who checks signatures.
ghost use Rattle.std.specs.Prelude.{◌≡◌, ℕ, List, Bool, true};
ghost use Rattle.std.specs.Str.{bytes_eq};
ghost use Rattle.rcgen_sign.specs.DigestKeys.{accepts_digest, digest_key, digest_signature};
ghost use Rattle.rcgen_sign.specs.Keys.{key_info_octets};

use sha2::{Digest, Sha256};
use std::marker::Model;

/// The DER of an Ed25519 key's info up to the key's 32 bytes (RFC 8410, 4).
const ED25519_INFO: &[u8] = &[
    0x30, 0x2A, 0x30, 0x05, 0x06, 0x03, 0x2B, 0x65, 0x70, 0x03, 0x21, 0x00,
];

/// Tells whether signatures were made by the keys that they are said to be made by.
pub trait Verifier {
    /// Which signatures are accepted: of what is signed, the DER of the info of a public key, the
    /// DER of the signature's algorithm, and the signature.
    ghost accepts: { Self → List ℕ → List ℕ → List ℕ → List ℕ → Bool };

    /// Whether the signature over `info` by the key with that info (the DER of its
    /// SubjectPublicKeyInfo: RFC 5280, 4.1.2.7) and by that algorithm (the DER of its
    /// AlgorithmIdentifier: RFC 5280, 4.1.1.2) is accepted.
    fn verify(&self, info: &[u8], key_info: &[u8], algorithm: &[u8], signature: &[u8]) -> bool
        ensures { result ≡ accepts self.now info.now key_info.now algorithm.now signature.now };
}

impl<V: Verifier> Verifier for &V {
    ghost accepts = { λ v. V.accepts v.now };

    fn verify(&self, info: &[u8], key_info: &[u8], algorithm: &[u8], signature: &[u8]) -> bool {
        (**self).verify(info, key_info, algorithm, signature)
    }
}

/// A stand-in for who checks signatures, for trials: accepts those of the `DigestKey` of its secret
/// and no others, whatever the algorithm.
#[derive(Drop)]
pub struct DigestVerifier {
    secret: Vec<u8>,
}

impl Model for DigestVerifier {
    ghost use Rattle.std.specs.Prelude.{ℕ, List};

    ghost Value = { List ℕ };

    ghost view = { λ v. v.secret.items };
}

impl DigestVerifier {
    /// Accepts the signatures of the `DigestKey` of this secret.
    pub fn new(secret: Vec<u8>) -> DigestVerifier
        ensures { result ≡ secret.items }
    {
        DigestVerifier { secret }
    }

    /// Whether the key with that info is the `DigestKey` of the secret.
    #[tactic(auto, using(crate::proofs::DigestKeys::known, crate::proofs::DigestKeys::unknown))]
    fn knows(&self, key_info: &[u8]) -> bool
        ensures { result ≡ bytes_eq key_info.now (key_info_octets (digest_key self.now)) }
    {
        let Some(key) = key_info.strip_prefix(ED25519_INFO) else {
            return false;
        };
        key == Sha256::digest(self.secret.as_slice()).as_slice()
    }
}

impl Verifier for DigestVerifier {
    ghost accepts = { λ secret info key algorithm signature. accepts_digest secret info key signature };

    fn verify(&self, info: &[u8], key_info: &[u8], _algorithm: &[u8], signature: &[u8]) -> bool {
        if !self.knows(key_info) {
            return false;
        }
        let mut hasher = Sha256::new();
        hasher.update(self.secret.as_slice());
        hasher.update(info);
        signature == hasher.finalize().as_slice()
    }
}

/// A law: what the `DigestKey` of a secret signs, the `DigestVerifier` of that secret accepts under
/// that key's info, and it accepts nothing else.
pub fn signed_is_accepted()
    ensures accepted { (secret info : List ℕ) → accepts_digest secret info (key_info_octets (digest_key secret)) (digest_signature secret info) ≡ true }
    ensures only { (secret info key signature : List ℕ) → accepts_digest secret info key signature ≡ true
        → (key ≡ key_info_octets (digest_key secret)) × (signature ≡ digest_signature secret info) }
{}
