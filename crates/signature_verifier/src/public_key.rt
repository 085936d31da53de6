ghost use Rattle.std.specs.Prelude.{◌≡◌};
ghost use Rattle.std.specs.Option.{option_map};
ghost use Rattle.der_tree.specs.Windows.{shown};
ghost use Rattle.signature_verifier.specs.PublicKeys.{key_in, octets_in, positive_in, rsa_key};
ghost use Rattle.signature_verifier.specs.Accepted.{allows, is_signed, is_signed_by_pss, is_signed_by_rsa};

use crate::key_kind::KeyKind;
use crate::scheme::SignatureScheme;
use crate::sequence::{contents, two_elements};
use asn1_core::{Integer, Tag};
use der_tree::Window;
use rsa::{PssHash, verify_pkcs1_v1_5, verify_pss};
use std::marker::Model;

/// A public key as a certificate holds it: what it is of, and the octets of its BIT STRING
/// (RFC 5280, 4.1.2.7).
#[derive(Debug, Drop)]
pub(crate) struct PublicKey<'a> {
    kind: KeyKind,
    octets: &'a [u8],
}

impl<'a> Model for PublicKey<'a> {
    ghost use Rattle.signature_verifier.specs.Keys.{Key, key};

    ghost Value = { Key };

    ghost view = { λ k. key k.kind k.octets.now };
}

impl<'a> PublicKey<'a> {
    /// The key whose SubjectPublicKeyInfo these octets are, where it is of a kind that is known.
    #[tactic(auto, using(crate::proofs::Reading::key_read))]
    pub(crate) fn read(info: &'a [u8]) -> Option<PublicKey<'a>>
        ensures { result ≡ key_in info.now }
    {
        let (algorithm, key) = two_elements(info)?;
        let kind = KeyKind::named(algorithm.whole())?;
        let octets = whole_octets(key)?;
        Some(PublicKey { kind, octets })
    }

    /// Whether the signature is that of the message, by the scheme and under this key.
    #[tactic(auto, unfolding(crate::specs::Accepted::is_signed))]
    pub(crate) fn verifies(&self, scheme: SignatureScheme, message: &[u8], signature: &[u8]) -> bool
        ensures { result ≡ is_signed scheme self.now message.now signature.now }
    {
        match (self.kind, scheme) {
            (KeyKind::Rsa, SignatureScheme::RsaPkcs1(hash)) => {
                is_signed_by_rsa(hash, self.octets, message, signature)
            }
            (KeyKind::Rsa, SignatureScheme::RsaPss(hash)) => {
                is_signed_by_pss(hash, self.octets, message, signature)
            }
            (KeyKind::RsaPss(own), SignatureScheme::RsaPss(hash)) => {
                allows(own, hash) && is_signed_by_pss(hash, self.octets, message, signature)
            }
            (KeyKind::Ec(curve), SignatureScheme::Ecdsa(hash)) => {
                ecdsa::verify(curve, hash, self.octets, message, signature)
            }
            (KeyKind::Ed25519, SignatureScheme::Ed25519) => {
                ed25519::verify(self.octets, message, signature)
            }
            _ => false,
        }
    }
}

/// The octets of a BIT STRING of whole octets (X.690, 8.6).
#[tactic(auto, using(crate::proofs::Reading::octets_read))]
fn whole_octets(window: Window<'_>) -> Option<&[u8]>
    ensures { option_map (λ b. b.now) result ≡ octets_in (shown window.entry) }
{
    let [unused, octets @ ..] = contents(window, Tag::BIT_STRING)? else {
        return None;
    };
    if *unused == 0 { Some(octets) } else { None }
}

/// The octets of a positive INTEGER's number, the highest first, without leading zero octets
/// (X.690, 8.3).
#[tactic(auto, using(crate::proofs::Reading::positive_read), unfolding(asn1_core::specs::Twos::integer_contents))]
fn positive(window: Window<'_>) -> Option<&[u8]>
    ensures { option_map (λ b. b.now) result ≡ positive_in (shown window.entry) }
{
    let octets = contents(window, Tag::INTEGER)?;
    if !Integer::is_contents(octets) {
        return None;
    }
    let [first, digits @ ..] = octets else {
        return None;
    };
    match *first {
        0 => if digits.is_empty() {
            None
        } else {
            Some(digits)
        },
        1..=127 => Some(octets),
        _ => None,
    }
}

/// The modulus and the exponent of the RSAPublicKey whose octets these are (RFC 8017, A.1.1).
#[tactic(auto, using(crate::proofs::Reading::rsa_key_read))]
fn rsa_key(octets: &[u8]) -> Option<(&[u8], &[u8])>
    ensures { option_map (λ k. (k.0.now, k.1.now)) result ≡ rsa_key octets.now }
{
    let (modulus, exponent) = two_elements(octets)?;
    let modulus = positive(modulus)?;
    let exponent = positive(exponent)?;
    Some((modulus, exponent))
}

/// Whether the signature is that of the message by RSASSA-PKCS1-v1_5 under the RSAPublicKey.
#[tactic(auto, unfolding(crate::specs::Accepted::is_signed_by_rsa))]
fn is_signed_by_rsa(hash: rsa::Hash, key: &[u8], message: &[u8], signature: &[u8]) -> bool
    ensures { result ≡ is_signed_by_rsa hash key.now message.now signature.now }
{
    let Some((modulus, exponent)) = rsa_key(key) else {
        return false;
    };
    verify_pkcs1_v1_5(hash, modulus, exponent, message, signature)
}

/// Whether a key for RSASSA-PSS, maybe with a hash function of its own, is one for the hash function.
fn allows(own: Option<PssHash>, hash: PssHash) -> bool
    ensures { result ≡ allows own hash }
{
    match own {
        None => true,
        Some(own) => own == hash,
    }
}

/// Whether the signature is that of the message by RSASSA-PSS under the RSAPublicKey.
#[tactic(auto, unfolding(crate::specs::Accepted::is_signed_by_pss))]
fn is_signed_by_pss(hash: PssHash, key: &[u8], message: &[u8], signature: &[u8]) -> bool
    ensures { result ≡ is_signed_by_pss hash key.now message.now signature.now }
{
    let Some((modulus, exponent)) = rsa_key(key) else {
        return false;
    };
    verify_pss(hash, modulus, exponent, message, signature)
}
