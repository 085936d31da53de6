//! Ed25519 (RFC 8032, 5.1): whether a signature is that of a message under a public key. Nothing is
//! allocated, and each call returns. The time that a call takes depends on the octets: it is for
//! public values only.
#![tactic(auto)]

ghost use Rattle.std.specs.Prelude.{◌≡◌, ◌≢◌, ◌⊎◌, ℕ, ◌+◌, ◌*◌, ◌%◌, ◌^◌, ◌≤◌, ◌<◌, ◌==◌, Bool, true, List, length, Some};
ghost use Rattle.modular.specs.Numbers.{value, little_endian};
ghost use Rattle.ed25519.specs.Curve.{B, IsOnCurve, L, Point, add, d, decode_point, multiple, neutral};
ghost use Rattle.ed25519.specs.Field.{inverse, minus, p, plus, power, times};
ghost use Rattle.ed25519.specs.Verification.{challenge, meets_equation, verifies};

mod completed;
mod decoding;
mod element;
mod limbs;
mod point;
mod product;
mod square;

use decoding::decode_point;
use modular::{is_below, load_little_endian};
use point::ExtendedPoint;
use sha2::{Digest, Sha512};

/// L, the order of B (RFC 8032, 5.1).
const ORDER: [u64; 4] = [
    0x5812_631a_5cf5_d3ed,
    0x14de_f9de_a2f7_9cd6,
    0x0000_0000_0000_0000,
    0x1000_0000_0000_0000,
];

/// k, the digest of the octets of R, of the public key and of the message (RFC 8032, 5.1.7, step 2).
fn challenge(r: &[u8], public_key: &[u8], message: &[u8]) -> [u64; 8]
    ensures { value result ≡ challenge r.now public_key.now message.now }
{
    let mut hasher = Sha512::new();
    hasher.update(r);
    hasher.update(public_key);
    hasher.update(message);
    let mut limbs = [0u64; 8];
    load_little_endian(&mut limbs, &hasher.finalize());
    limbs
}

/// Steps 1 and 3 of the verification: whether R, S and A are decoded, and [S]B = R + [k]A.
fn meets_equation(r: &[u8], s: &[u8], public_key: &[u8], k: &[u64; 8]) -> bool
    requires r_length { length r.now ≡ 32 }
    requires s_length { length s.now ≡ 32 }
    requires key_length { length public_key.now ≡ 32 }
    ensures { result ≡ meets_equation (decode_point r.now) (little_endian s.now) (decode_point public_key.now) (value k.now) }
{
    let Some(r) = decode_point(r) else {
        return false;
    };
    let Some(a) = decode_point(public_key) else {
        return false;
    };
    let mut limbs = [0u64; 4];
    load_little_endian(&mut limbs, s);
    if !is_below(&limbs, &ORDER) {
        return false;
    }
    let left = ExtendedPoint::BASE.multiple(&limbs, 256);
    let right = r.add(&a.multiple(k, 512));
    left.is_same(&right)
}

/// Whether `signature` is one of `message` under the public key by Ed25519 (RFC 8032, 5.1.7), with
/// the equation without the cofactor. A public key has 32 octets and a signature 64; of others none
/// is accepted. Public keys of small order aren't refused, as the RFC doesn't: whoever holds one can
/// make a signature that fits many messages.
pub fn verify(public_key: &[u8], message: &[u8], signature: &[u8]) -> bool
    ensures { result ≡ verifies public_key.now message.now signature.now }
{
    if public_key.len() != 32 {
        return false;
    }
    if signature.len() != 64 {
        return false;
    }
    let r = &signature[..32];
    let k = challenge(r, public_key, message);
    meets_equation(r, &signature[32..], public_key, &k)
}

/// A law: p is a prime, and so what isn't 0 modulo p has an inverse.
pub fn p_is_prime()
    ensures prime { (a b : ℕ) → a * b ≡ p → (a ≡ 1) ⊎ (a ≡ p) }
    ensures inverse { (x : ℕ) → x % p ≢ 0 → times x (inverse x) ≡ 1 }
{}

/// A law: the addition is complete. Of two points of the curve no denominator is 0, and their sum is
/// a point of the curve.
pub fn addition_is_complete()
    ensures denominators { (P Q : Point) → IsOnCurve P → IsOnCurve Q
        → (let e = (d * P.x * Q.x * P.y * Q.y) % p in (plus 1 e ≢ 0) × (minus 1 e ≢ 0)) }
    ensures sum { (P Q : Point) → IsOnCurve P → IsOnCurve Q → IsOnCurve (add P Q) }
{}

/// A law: decoded points, B and the neutral point are on the curve, and their coordinates are below p.
pub fn points_are_on_the_curve()
    ensures decoded { (octets : List ℕ) (P : Point) → decode_point octets ≡ Some P → IsOnCurve P × (P.x < p) × (P.y < p) }
    ensures base { IsOnCurve B }
    ensures neutral { IsOnCurve neutral }
{}

/// A law: the power by binary digits is the power modulo p.
pub fn power_is_power()
    ensures { (digits x e : ℕ) → e < 2 ^ digits → power digits x e ≡ (x ^ e) % p }
{}

/// A law: the numerals are what RFC 8032, 5.1, says of them: d = -121665/121666, the y-coordinate of
/// B is 4/5 and its x-coordinate is even, and [L]B is the neutral point.
pub fn numerals_are_right()
    ensures d { (d * 121666 + 121665) % p ≡ 0 }
    ensures y { (B.y * 5) % p ≡ 4 }
    ensures x { B.x % 2 ≡ 0 }
    ensures order { multiple 253 L B ≡ neutral }
{}
