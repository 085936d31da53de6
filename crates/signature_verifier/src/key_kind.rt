ghost use Rattle.std.specs.Prelude.{◌≡◌};
ghost use Rattle.signature_verifier.specs.Schemes.{kind_named};

use crate::scheme::{RSA_PSS, RSA_PSS_SHA256, RSA_PSS_SHA384, RSA_PSS_SHA512};
use ecdsa::Curve;
use rcgen_sign::{
    PKCS_ECDSA_P256_SHA256, PKCS_ECDSA_P384_SHA384, PKCS_ECDSA_P521_SHA512, PKCS_ED25519,
    PKCS_RSA_SHA256,
};
use rsa::PssHash;

/// What a public key is of, by the identifier of its algorithm (RFC 5280, 4.1.2.7).
#[derive(Clone, Copy, PartialEq, Eq, Debug)]
pub enum KeyKind {
    /// RSA (RFC 3279, 2.3.1).
    Rsa,
    /// RSA for RSASSA-PSS alone, and with the hash function, where there is one, alone (RFC 4055, 3.1).
    RsaPss(Option<PssHash>),
    /// An elliptic curve, named (RFC 5480, 2.1.1).
    Ec(Curve),
    /// Ed25519 (RFC 8410, 3).
    Ed25519,
}

impl KeyKind {
    /// The kind whose AlgorithmIdentifier has these octets.
    #[tactic(auto, using(crate::proofs::Naming::kind_found))]
    pub fn named(octets: &[u8]) -> Option<KeyKind>
        ensures { result ≡ kind_named octets.now }
    {
        if octets == PKCS_RSA_SHA256.key_element() {
            return Some(KeyKind::Rsa);
        }
        if octets == RSA_PSS {
            return Some(KeyKind::RsaPss(None));
        }
        if octets == RSA_PSS_SHA256 {
            return Some(KeyKind::RsaPss(Some(PssHash::Sha256)));
        }
        if octets == RSA_PSS_SHA384 {
            return Some(KeyKind::RsaPss(Some(PssHash::Sha384)));
        }
        if octets == RSA_PSS_SHA512 {
            return Some(KeyKind::RsaPss(Some(PssHash::Sha512)));
        }
        if octets == PKCS_ECDSA_P256_SHA256.key_element() {
            return Some(KeyKind::Ec(Curve::P256));
        }
        if octets == PKCS_ECDSA_P384_SHA384.key_element() {
            return Some(KeyKind::Ec(Curve::P384));
        }
        if octets == PKCS_ECDSA_P521_SHA512.key_element() {
            return Some(KeyKind::Ec(Curve::P521));
        }
        if octets == PKCS_ED25519.key_element() {
            return Some(KeyKind::Ed25519);
        }
        None
    }
}
