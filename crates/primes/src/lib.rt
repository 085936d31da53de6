//! Primes by certificates, which are checked by computing.
#![tactic(auto)]

ghost use Rattle.std.specs.Prelude.{◌≡◌, ℕ, ◌-◌, ◌%◌, ◌^◌, ◌<◌, true, List};
ghost use Rattle.primes.specs.Primes.{IsPrime, Row, certifies};

/// A law: a number that a certificate certifies is a prime, and what is between 0 and the number is, to
/// the power of one less than the number, 1 modulo it (Fermat's theorem).
pub fn certified_are_primes()
    ensures prime { (rows : List Row) (n : ℕ) → certifies rows n ≡ true → IsPrime n }
    ensures fermat { (rows : List Row) (n a : ℕ) → certifies rows n ≡ true → 0 < a → a < n → a ^ (n - 1) % n ≡ 1 }
{}
