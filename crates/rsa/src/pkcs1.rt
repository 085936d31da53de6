//! RSASSA-PKCS1-v1_5: EMSA-PKCS1-v1_5 (RFC 8017, 9.2) as the number that its octets write, and what
//! a signature's power is compared with.
ghost use Rattle.std.specs.Prelude.{◌≡◌, ◌+◌, ◌*◌, ◌<◌, ◌≤◌, ◌%◌, ◌++◌, true, nat_le, length};
ghost use Rattle.std.specs.Int.Digits.{number_from_digits_after, AllBelowBase};
ghost use Rattle.modular.specs.Numbers.{value, limbs_end};
ghost use Rattle.rsa.specs.Primitives.{is_modulus, os2ip};
ghost use Rattle.rsa.specs.Pkcs1.{digest_info, digest_info_len, encoded_message, has_encoded};

use crate::Hash;
use crate::key::MAX_MODULUS_OCTETS;
use crate::primitive::{MAX_LIMBS, verification_primitive};
use modular::{append_octets, is_same};
use sha1::Sha1;
use sha2::{Digest, Sha256, Sha384, Sha512};

/// The DER of a DigestInfo up to its digest, for SHA-1 (RFC 8017, 9.2, note 1).
const SHA1_PREFIX: &[u8] = &[
    0x30, 0x21, 0x30, 0x09, 0x06, 0x05, 0x2B, 0x0E, 0x03, 0x02, 0x1A, 0x05, 0x00, 0x04, 0x14,
];

/// The same for SHA-256.
const SHA256_PREFIX: &[u8] = &[
    0x30, 0x31, 0x30, 0x0D, 0x06, 0x09, 0x60, 0x86, 0x48, 0x01, 0x65, 0x03, 0x04, 0x02, 0x01, 0x05,
    0x00, 0x04, 0x20,
];

/// The same for SHA-384.
const SHA384_PREFIX: &[u8] = &[
    0x30, 0x41, 0x30, 0x0D, 0x06, 0x09, 0x60, 0x86, 0x48, 0x01, 0x65, 0x03, 0x04, 0x02, 0x02, 0x05,
    0x00, 0x04, 0x30,
];

/// The same for SHA-512.
const SHA512_PREFIX: &[u8] = &[
    0x30, 0x51, 0x30, 0x0D, 0x06, 0x09, 0x60, 0x86, 0x48, 0x01, 0x65, 0x03, 0x04, 0x02, 0x03, 0x05,
    0x00, 0x04, 0x40,
];

/// Appends the octets of `front` and those of `back` to those that `limbs` write.
fn append_both(limbs: &mut [u64], front: &[u8], back: &[u8])
    ensures value { value limbs.new ≡ number_from_digits_after 256 (value limbs.old) (front.now ++ back.now) % limbs_end (length limbs.old) }
    ensures octets { AllBelowBase 256 (front.now ++ back.now) }
{
    append_octets(limbs, front);
    append_octets(limbs, back);
}

/// Appends the DER of the message's DigestInfo to the octets that `limbs` write.
fn append_digest_info(limbs: &mut [u64], hash: Hash, message: &[u8])
    ensures value { value limbs.new ≡ number_from_digits_after 256 (value limbs.old) (digest_info hash message.now) % limbs_end (length limbs.old) }
    ensures octets { AllBelowBase 256 (digest_info hash message.now) }
{
    match hash {
        Hash::Sha1 => append_both(limbs, SHA1_PREFIX, Sha1::digest(message).as_slice()),
        Hash::Sha256 => append_both(limbs, SHA256_PREFIX, Sha256::digest(message).as_slice()),
        Hash::Sha384 => append_both(limbs, SHA384_PREFIX, Sha384::digest(message).as_slice()),
        Hash::Sha512 => append_both(limbs, SHA512_PREFIX, Sha512::digest(message).as_slice()),
    }
}

/// The number of octets of a DigestInfo.
fn digest_info_length(hash: Hash) -> usize
    ensures { result ≡ digest_info_len hash }
{
    match hash {
        Hash::Sha1 => 35,
        Hash::Sha256 => 51,
        Hash::Sha384 => 67,
        Hash::Sha512 => 83,
    }
}

/// Whether an encoding has room in so many octets (RFC 8017, 9.2, step 3).
pub fn is_long_enough(hash: Hash, em_len: usize) -> bool
    ensures { result ≡ nat_le (digest_info_len hash + 11) em_len }
{
    digest_info_length(hash) + 11 <= em_len
}

/// The number of the message's encoding in `em_len` octets, into `limbs`.
fn encode(limbs: &mut [u64], hash: Hash, message: &[u8], em_len: usize)
    requires fits { digest_info_len hash + 11 ≤ em_len }
    requires short { em_len ≤ 1024 }
    requires room { em_len ≤ 8 * length limbs.old }
    ensures value { value limbs.new ≡ os2ip (encoded_message hash message.now em_len) }
    ensures octets { AllBelowBase 256 (encoded_message hash message.now em_len) }
{
    let padding = [0xFFu8; MAX_MODULUS_OCTETS];
    limbs.fill(0);
    append_octets(limbs, &[0x00, 0x01]);
    append_octets(limbs, &padding[..em_len - digest_info_length(hash) - 3]);
    append_octets(limbs, &[0x00]);
    append_digest_info(limbs, hash, message);
}

/// Whether the signature's power is the message's encoding (RFC 8017, 8.2.2, steps 2 to 4).
pub fn has_encoded(
    hash: Hash,
    modulus: &[u8],
    exponent: u32,
    message: &[u8],
    signature: &[u8],
) -> bool
    requires decided { is_modulus modulus.now ≡ true }
    requires signature_length { length signature.now ≡ length modulus.now }
    requires fits { digest_info_len hash + 11 ≤ length modulus.now }
    requires positive { 0 < exponent }
    ensures { result ≡ has_encoded hash modulus.now exponent message.now signature.now }
{
    let count = (modulus.len() + 7) / 8;
    let mut m = [0u64; MAX_LIMBS];
    let m = &mut m[..count];
    if !verification_primitive(m, modulus, exponent, signature) {
        return false;
    }
    let mut em = [0u64; MAX_LIMBS];
    let em = &mut em[..count];
    encode(em, hash, message, modulus.len());
    is_same(m, em)
}
