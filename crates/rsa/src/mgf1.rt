//! MGF1 (RFC 8017, B.2.1).
ghost use Rattle.std.specs.Prelude.{◌≡◌, ◌+◌, ◌*◌, ◌≤◌, length, take};
ghost use Rattle.rsa.specs.Pss.{h_len, hashed_counters, mgf1, xor};

use crate::digest::{MAX_DIGEST_OCTETS, PssHash, digest_length, hash_parts};
use crate::key::MAX_MODULUS_OCTETS;

/// The digests of the seed followed by each counter below `count`, one after the other, at the
/// beginning of `octets`.
fn hash_counters(octets: &mut [u8], hash: PssHash, seed: &[u8], count: usize)
    requires few { count ≤ 1024 }
    requires room { count * h_len hash ≤ length octets.old }
    ensures { take (count * h_len hash) octets.new ≡ hashed_counters hash seed.now count }
{
    let size = digest_length(hash);
    for counter in 0..count {
        let start = counter * size;
        let number = (counter as u32).to_be_bytes();
        hash_parts(&mut octets[start..start + size], hash, seed, &number, &[]);
    }
}

/// The exclusive or of `octets` and `others`, into `octets`.
fn xor_with(octets: &mut [u8], others: &[u8])
    requires { length octets.old ≤ length others.now }
    ensures { octets.new ≡ xor octets.old others.now }
{
    for i in 0..octets.len() {
        octets[i] ^= others[i];
    }
}

/// The exclusive or of `octets` and a mask of the seed that is as long.
pub fn mask(octets: &mut [u8], hash: PssHash, seed: &[u8])
    requires { length octets.old ≤ 1024 }
    ensures { octets.new ≡ xor octets.old (mgf1 hash seed.now (length octets.old)) }
{
    let mut mask = [0u8; MAX_MODULUS_OCTETS + MAX_DIGEST_OCTETS];
    let size = digest_length(hash);
    hash_counters(&mut mask, hash, seed, (octets.len() + size - 1) / size);
    xor_with(octets, &mask[..octets.len()]);
}
