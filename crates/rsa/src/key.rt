//! Which public keys are decided.
ghost use Rattle.std.specs.Prelude.{◌≡◌, ◌^◌, ◌<◌, ◌≤◌, ◌%◌, ◌&&◌, ◌==◌, false, true, nat_le, length, MatchOption};
ghost use Rattle.rsa.specs.Primitives.{is_decided, is_modulus, os2ip};

/// The most octets of a modulus: 8192 bits.
pub const MAX_MODULUS_OCTETS: usize = 1024;

/// Whether the octets are those of a modulus that is decided.
pub fn is_decided_modulus(modulus: &[u8]) -> bool
    ensures { result ≡ is_modulus modulus.now }
{
    if modulus.len() > MAX_MODULUS_OCTETS {
        return false;
    }
    let [first, ..] = modulus else {
        return false;
    };
    if *first == 0 {
        return false;
    }
    modulus[modulus.len() - 1] % 2 == 1
}

/// Whether the exponent is odd and at least 3.
pub fn is_decided_exponent(exponent: u32) -> bool
    ensures { result ≡ (nat_le 3 exponent && (exponent % 2 == 1)) }
{
    if exponent < 3 {
        return false;
    }
    exponent % 2 == 1
}

/// The number of the octets, where it is below 2 ^ 32.
pub fn small_number(octets: &[u8]) -> Option<u32>
    ensures { MatchOption result (2 ^ 32 ≤ os2ip octets.now) (λ number. (number ≡ os2ip octets.now) × (number < 2 ^ 32)) }
{
    let mut number: u32 = 0;
    for octet in octets {
        if number >= 0x0100_0000 {
            return None;
        }
        number = number * 256 + *octet as u32;
    }
    Some(number)
}

/// The exponent, where the key is one that is decided and the signature is as long as the modulus.
pub fn decided_exponent(modulus: &[u8], exponent: &[u8], signature: &[u8]) -> Option<u32>
    ensures { MatchOption result (is_decided modulus.now exponent.now signature.now ≡ false)
        (λ number. (number ≡ os2ip exponent.now) × (0 < number) × (is_modulus modulus.now ≡ true)
        × (length signature.now ≡ length modulus.now) × (is_decided modulus.now exponent.now signature.now ≡ true)) }
{
    if !is_decided_modulus(modulus) {
        return None;
    }
    let Some(exponent) = small_number(exponent) else {
        return None;
    };
    if !is_decided_exponent(exponent) {
        return None;
    }
    if signature.len() == modulus.len() {
        Some(exponent)
    } else {
        None
    }
}
