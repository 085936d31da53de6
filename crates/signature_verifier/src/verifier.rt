ghost use Rattle.std.specs.Prelude.{◌≡◌, ◌↔◌, ◌++◌, ◌∷◌, ℕ, List, true, false};
ghost use Rattle.der_tree.specs.Form.{IsDerOf};
ghost use Rattle.rcgen_sign.specs.KeyInfos.{key_algorithm};
ghost use Rattle.signature_verifier.specs.Accepted.{accepts, is_taken};
ghost use Rattle.signature_verifier.specs.Keys.{Key};
ghost use Rattle.signature_verifier.specs.Schemes.{pkcs_1, with_null};
ghost use Rattle.signature_verifier.specs.Signed.{IsSigned};
ghost use Rattle.signature_verifier.specs.declared.scheme.SignatureScheme.{SignatureScheme};
ghost use Rattle.signature_verifier.specs.declared.verifier.SignatureVerifier.{SignatureVerifier};

use crate::public_key::PublicKey;
use crate::scheme::SignatureScheme;
use rcgen_sign::Verifier;

/// Who accepts the signatures that RSA, ECDSA and Ed25519 verify, each under its key and by its
/// identifiers, and no others: RSASSA-PKCS1-v1_5, RSASSA-PSS and ECDSA on P-256, P-384 and P-521 with
/// SHA-256, SHA-384 and SHA-512, and Ed25519.
#[derive(Clone, Copy, PartialEq, Eq, Debug)]
pub struct SignatureVerifier {
    /// Whether signatures by RSA with SHA-1 are taken too (RFC 3279, 2.2.1), for which messages of
    /// one digest are known.
    pub takes_sha1: bool,
}

impl SignatureVerifier {
    /// Takes no signature with SHA-1.
    pub fn new() -> SignatureVerifier
        ensures { result.takes_sha1 ≡ false }
    {
        SignatureVerifier { takes_sha1: false }
    }

    /// Takes signatures by RSA with SHA-1 too.
    pub fn with_sha1() -> SignatureVerifier
        ensures { result.takes_sha1 ≡ true }
    {
        SignatureVerifier { takes_sha1: true }
    }

    /// Whether signatures by the scheme are taken.
    pub fn takes(&self, scheme: SignatureScheme) -> bool
        ensures { result ≡ is_taken self.now scheme }
    {
        match scheme {
            SignatureScheme::RsaPkcs1(rsa::Hash::Sha1) => self.takes_sha1,
            _ => true,
        }
    }
}

impl Default for SignatureVerifier {
    fn default() -> SignatureVerifier
        ensures { result.takes_sha1 ≡ false }
    {
        SignatureVerifier::new()
    }
}

#[tactic(auto, unfolding(crate::specs::Accepted::accepts))]
impl Verifier for SignatureVerifier {
    ghost accepts = { accepts };

    fn verify(&self, info: &[u8], key_info: &[u8], algorithm: &[u8], signature: &[u8]) -> bool {
        let Some(key) = PublicKey::read(key_info) else {
            return false;
        };
        let Some(scheme) = SignatureScheme::named(algorithm) else {
            return false;
        };
        self.takes(scheme) && key.verifies(scheme, info, signature)
    }
}

/// A law: what is accepted is so by one scheme and under one key, whose identifiers the octets are,
/// and all that is so is accepted.
pub fn accepted_by_one_scheme()
    ensures accepted { (v : SignatureVerifier) (message key algorithm signature : List ℕ)
        → (accepts v message key algorithm signature ≡ true)
        ↔ ((s : SignatureScheme) × (k : Key) × IsSigned v s k message key algorithm signature) }
    ensures one { (v : SignatureVerifier) (message key algorithm signature : List ℕ) (s other : SignatureScheme) (k other_key : Key)
        → IsSigned v s k message key algorithm signature → IsSigned v other other_key message key algorithm signature
        → (s ≡ other) × (k ≡ other_key) }
{}

/// A law: octets after a key's info or after an algorithm with which some signature is accepted
/// make one with which none is.
pub fn nothing_follows()
    ensures key { (v w : SignatureVerifier) (message other key algorithm name signature mark : List ℕ) (b : ℕ) (rest : List ℕ)
        → accepts v message key algorithm signature ≡ true → accepts w other (key ++ b ∷ rest) name mark ≡ false }
    ensures algorithm { (v w : SignatureVerifier) (message other key info algorithm signature mark : List ℕ) (b : ℕ) (rest : List ℕ)
        → accepts v message key algorithm signature ≡ true → accepts w other info (algorithm ++ b ∷ rest) mark ≡ false }
{}

/// A law: where SHA-1 isn't taken, nothing is accepted whose algorithm names it.
pub fn sha1_is_refused()
    ensures { (v : SignatureVerifier) (message key algorithm signature : List ℕ) → v.takes_sha1 ≡ false
        → IsDerOf key_algorithm (with_null (pkcs_1 5)) algorithm → accepts v message key algorithm signature ≡ false }
{}
