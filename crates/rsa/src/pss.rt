//! RSASSA-PSS: steps 2 and 3 of RSASSA-PSS-VERIFY (RFC 8017, 8.1.2).
ghost use Rattle.std.specs.Prelude.{◌≡◌, ◌+◌, ◌*◌, ◌^◌, ◌%◌, ◌<◌, ◌≤◌, ◌↔◌, IsTrue, true, length};
ghost use Rattle.rsa.specs.Primitives.{i2osp, is_modulus, os2ip};
ghost use Rattle.rsa.specs.Pss.{has_signed, mod_bits};

use crate::conversion::store;
use crate::digest::{PssHash, digest_length};
use crate::emsa_pss::emsa_pss_verify;
use crate::key::MAX_MODULUS_OCTETS;
use crate::primitive::{MAX_LIMBS, verification_primitive};

/// The length in bits of the modulus.
fn modulus_bits(modulus: &[u8]) -> usize
    requires { is_modulus modulus.now ≡ true }
    ensures bits { result ≡ mod_bits modulus.now }
    ensures above { 8 * length modulus.now < result + 8 }
    ensures within { result ≤ 8 * length modulus.now }
{
    8 * modulus.len() - modulus[0].leading_zeros() as usize
}

/// The octets of the signature's message (RSAVP1: RFC 8017, 5.2.2; I2OSP: 4.1), as many as the modulus
/// has; false where the signature is out of range.
fn message_octets(octets: &mut [u8], modulus: &[u8], exponent: u32, signature: &[u8]) -> bool
    requires decided { is_modulus modulus.now ≡ true }
    requires signature_length { length signature.now ≡ length modulus.now }
    requires long { 1 < length modulus.now }
    requires room { length octets.old ≡ length modulus.now }
    requires positive { 0 < exponent }
    ensures range { IsTrue result ↔ (os2ip signature.now < os2ip modulus.now) }
    ensures octets { IsTrue result → octets.new ≡ i2osp ((os2ip signature.now ^ exponent) % os2ip modulus.now) (length modulus.now) }
{
    let mut m = [0u64; MAX_LIMBS];
    let m = &mut m[..(modulus.len() + 7) / 8];
    let is_in_range = verification_primitive(m, modulus, exponent, signature);
    store(octets, m);
    is_in_range
}

/// Whether the signature's power is an encoding of the message.
pub fn has_signed(
    hash: PssHash,
    modulus: &[u8],
    exponent: u32,
    message: &[u8],
    signature: &[u8],
) -> bool
    requires decided { is_modulus modulus.now ≡ true }
    requires signature_length { length signature.now ≡ length modulus.now }
    requires positive { 0 < exponent }
    ensures { result ≡ has_signed hash modulus.now exponent message.now signature.now }
{
    if modulus.len() < digest_length(hash) + digest_length(hash) + 2 {
        return false;
    }
    let mut room = [0u8; MAX_MODULUS_OCTETS];
    let octets = &mut room[..modulus.len()];
    if !message_octets(octets, modulus, exponent, signature) {
        return false;
    }
    let em: &[u8] = octets;
    let em_bits = modulus_bits(modulus) - 1;
    if (em_bits + 7) / 8 == modulus.len() {
        return emsa_pss_verify(hash, message, em, em_bits);
    }
    em[0] == 0 && emsa_pss_verify(hash, message, &em[1..], em_bits)
}
