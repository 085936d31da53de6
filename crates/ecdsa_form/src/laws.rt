//! A law: the reader of signatures against the type.
ghost use Rattle.std.specs.Prelude.{List, Some, ℕ, ◌<◌, ◌^◌, ◌≡◌};
ghost use Rattle.std.specs.Int.Digits.{AllBelowBase};
ghost use Rattle.ecdsa.specs.Signature.{ecdsa_sig_value};
ghost use Rattle.ecdsa_form.specs.Values.{IsSigValue};

use ecdsa::signatures_are_der;

/// A law: octets that `ecdsa` reads as r and s are the DER encoding of the `EcdsaSigValue` of these two
/// numbers. Each encoding of two numbers from 0 to below 2^521, as r and s of each curve are, is read
/// as these.
pub fn signatures_are_values()
    ensures form { (octets : List ℕ) (r s : ℕ) → AllBelowBase 256 octets
        → ecdsa_sig_value octets ≡ Some (r, s) → IsSigValue r s octets }
    ensures read { (octets : List ℕ) (r s : ℕ) → AllBelowBase 256 octets → r < 2 ^ 521 → s < 2 ^ 521
        → IsSigValue r s octets → ecdsa_sig_value octets ≡ Some (r, s) }
{
    signatures_are_der();
}
