//! The verification of signatures by ECDSA over P-256, P-384 and P-521 (SEC 1, 4.1.4; FIPS 186-5,
//! 6.4.2). Nothing is allocated, and each call returns.
#![tactic(auto)]

ghost use Rattle.std.specs.Prelude.{◌≡◌, ℕ, ◌*◌, ◌^◌, ◌%◌, ◌<◌, ◌≤◌, ◌↔◌, true, Some, List, length, is_some};
ghost use Rattle.std.specs.Int.Digits.{AllBelowBase};
ghost use Rattle.ecdsa.specs.Signature.{ecdsa_sig_value};
ghost use Rattle.ecdsa.specs.declared.Curve.{Curve};
ghost use Rattle.primes.specs.Primes.{IsPrime};
ghost use Rattle.ecdsa.specs.Der.{IsSignature};
ghost use Rattle.ecdsa.specs.Group.{inverse, Point, Infinity, repeated};
ghost use Rattle.ecdsa.specs.Curves.{field_prime, coefficient_a, base_x, base_y, base_point, order, order_bits, sum, times};
ghost use Rattle.ecdsa.specs.Ecdsa.{is_on_curve, is_point, is_signature, leftmost_bits, public_key, verifies};

mod affine;
mod euclid;
mod field;
mod jacobian;
mod key;
mod multiple;
mod octets;
mod parameters;
mod signature;
mod verification;

use key::has_key;
use parameters::{p256, p384, p521};
use sha2::{Digest, Sha256, Sha384, Sha512};
use verification::verify_with;

/// The curve of a public key (SP 800-186, 3.2.1).
#[derive(Clone, Copy, PartialEq, Eq, Debug)]
pub enum Curve {
    /// P-256, or secp256r1.
    P256,
    /// P-384, or secp384r1.
    P384,
    /// P-521, or secp521r1.
    P521,
}

/// The hash function that a signature goes by.
#[derive(Clone, Copy, PartialEq, Eq, Debug)]
pub enum Hash {
    /// SHA-256 (FIPS 180-4).
    Sha256,
    /// SHA-384 (FIPS 180-4).
    Sha384,
    /// SHA-512 (FIPS 180-4).
    Sha512,
}

/// Whether a signature is that of a digest under a public key of the curve.
fn verify_digest(curve: Curve, key: &[u8], digest: &[u8], signature: &[u8]) -> bool
    requires { length digest.now ≤ 64 }
    ensures { result ≡ is_signature curve (leftmost_bits curve digest.now) (public_key curve key.now) (ecdsa_sig_value signature.now) }
{
    match curve {
        Curve::P256 => verify_with(&p256(), key, digest, signature),
        Curve::P384 => verify_with(&p384(), key, digest, signature),
        Curve::P521 => verify_with(&p521(), key, digest, signature),
    }
}

/// Whether `signature`, the DER of SEQUENCE { r INTEGER, s INTEGER } (RFC 3279, 2.2.3), is that of
/// `message` by ECDSA with the hash function, under the public key that `key` writes in the
/// uncompressed form (SEC 1, 2.3.3 and 4.1.4). Keys in other forms or off the curve and signatures in
/// other forms are refused. Where r and s are accepted, r and n - s are too.
#[tactic(auto, unfolding(crate::specs::Ecdsa::verifies))]
pub fn verify(curve: Curve, hash: Hash, key: &[u8], message: &[u8], signature: &[u8]) -> bool
    ensures { result ≡ verifies curve hash key.now message.now signature.now }
{
    match hash {
        Hash::Sha256 => verify_digest(curve, key, Sha256::digest(message).as_slice(), signature),
        Hash::Sha384 => verify_digest(curve, key, Sha384::digest(message).as_slice(), signature),
        Hash::Sha512 => verify_digest(curve, key, Sha512::digest(message).as_slice(), signature),
    }
}

/// Whether the octets write a public key of the curve in the uncompressed form (SEC 1, 2.3.3): both
/// coordinates are below p, and they are those of a point of the curve (3.2.2.1).
pub fn is_public_key(curve: Curve, octets: &[u8]) -> bool
    ensures { result ≡ is_some (public_key curve octets.now) }
{
    match curve {
        Curve::P256 => has_key(&p256(), octets),
        Curve::P384 => has_key(&p384(), octets),
        Curve::P521 => has_key(&p521(), octets),
    }
}

/// A law: the inverse of x modulo p is one where there is one, it is the only one below p, and elsewhere
/// it is 0.
pub fn inverses_are_unique()
    ensures inverse { (p x y : ℕ) → 0 < p → x * y % p ≡ 1 → x * inverse p x % p ≡ 1 }
    ensures only { (p x y : ℕ) → 1 < p → y < p → x * y % p ≡ 1 → y ≡ inverse p x }
    ensures none { (p x : ℕ) → ((y : ℕ) → x * y % p ≡ 1 → ⊥) → inverse p x ≡ 0 }
{}

/// A law: the coordinates of G are below p, and G is a point of its curve (SEC 1, 3.1.1.2.1).
pub fn generators_are_points()
    ensures x { (curve : Curve) → base_x curve < field_prime curve }
    ensures y { (curve : Curve) → base_y curve < field_prime curve }
    ensures on_curve { (curve : Curve) → is_on_curve curve (base_x curve) (base_y curve) ≡ true }
{}

/// A law: no two signatures' octets have the same r and s, so that each signature has one form.
pub fn signatures_have_one_form()
    ensures { (a b : List ℕ) (r s : ℕ) → AllBelowBase 256 a → AllBelowBase 256 b
        → ecdsa_sig_value a ≡ Some (r, s) → ecdsa_sig_value b ≡ Some (r, s) → a ≡ b }
{}

/// A law: of numbers below 2 ^ 521, as r and s of each curve are, the octets that are read are those of the
/// signature in DER (X.690, 10), and no others.
pub fn signatures_are_der()
    ensures { (octets : List ℕ) (r s : ℕ) → r < 2 ^ 521 → s < 2 ^ 521
        → (ecdsa_sig_value octets ≡ Some (r, s)) ↔ IsSignature r s octets }
{}

/// A law: the points of a curve are a commutative group, and [k]P is the sum of k points P (SEC 1, 2.2.1).
pub fn points_are_a_group()
    ensures closed { (curve : Curve) (P Q : Point) → is_point curve P ≡ true → is_point curve Q ≡ true
        → is_point curve (sum curve P Q) ≡ true }
    ensures neutral { (curve : Curve) (P : Point) → sum curve Infinity P ≡ P }
    ensures opposite { (curve : Curve) (P : Point) → is_point curve P ≡ true
        → (Q : Point) × ((is_point curve Q ≡ true) × (sum curve P Q ≡ Infinity)) }
    ensures commutative { (curve : Curve) (P Q : Point) → is_point curve P ≡ true → is_point curve Q ≡ true
        → sum curve P Q ≡ sum curve Q P }
    ensures associative { (curve : Curve) (P Q R : Point) → is_point curve P ≡ true → is_point curve Q ≡ true → is_point curve R ≡ true
        → sum curve (sum curve P Q) R ≡ sum curve P (sum curve Q R) }
    ensures multiple { (curve : Curve) (k : ℕ) (P : Point) → is_point curve P ≡ true → k < 2 ^ order_bits curve
        → times curve k P ≡ repeated (field_prime curve) (coefficient_a curve) k P }
{}

/// A law: [n]G is the point at infinity (SEC 1, 3.1.1.2.1).
pub fn orders_are_orders()
    ensures { (curve : Curve) → times curve (order curve) (base_point curve) ≡ Infinity }
{}

/// A law: p is a prime, and n of P-256 and P-384 (SEC 1, 3.1.1.2.1).
pub fn parameters_are_prime()
    ensures field { (curve : Curve) → IsPrime (field_prime curve) }
    ensures order_256 { IsPrime (order Curve.P256) }
    ensures order_384 { IsPrime (order Curve.P384) }
{}
