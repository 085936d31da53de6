//! EMSA-PSS-VERIFY (RFC 8017, 9.1.2).
ghost use Rattle.std.specs.Prelude.{◌≡◌, ◌+◌, ◌-◌, ◌*◌, ◌==◌, ◌<◌, ◌≤◌, length};
ghost use Rattle.std.specs.List.{list_all};
ghost use Rattle.rsa.specs.Pss.{begins_with_zeros, db, emsa_pss_verify, h_len, has_padding, is_salted, s_len, salted_hash, with_zeros};

use crate::digest::{MAX_DIGEST_OCTETS, PssHash, digest_length, hash_parts};
use crate::key::MAX_MODULUS_OCTETS;
use crate::mgf1::mask;

/// Whether of the first octet the leftmost `bits` bits are zero (step 6).
fn begins_with_zeros(bits: u32, octets: &[u8]) -> bool
    requires few { bits ≤ 8 }
    requires some { 0 < length octets.now }
    ensures { result ≡ begins_with_zeros bits octets.now }
{
    (octets[0] as u16) < 256 >> bits
}

/// Sets of the first octet the leftmost `bits` bits to zero (step 9).
fn set_zeros(bits: u32, octets: &mut [u8])
    requires few { bits ≤ 8 }
    requires some { 0 < length octets.old }
    ensures { octets.new ≡ with_zeros bits octets.old }
{
    octets[0] = (octets[0] as u16 % (256 >> bits)) as u8;
}

/// DB, from maskedDB in its place (steps 7 to 9).
fn unmask(octets: &mut [u8], hash: PssHash, bits: u32, digest: &[u8])
    requires few { bits ≤ 8 }
    requires some { 0 < length octets.old }
    requires short { length octets.old ≤ 1024 }
    ensures { octets.new ≡ db hash bits octets.old digest.now }
{
    mask(octets, hash, digest);
    set_zeros(bits, octets);
}

/// Whether each octet is zero.
fn are_zeros(octets: &[u8]) -> bool
    ensures { result ≡ list_all (λ octet. octet == 0x00) octets.now }
{
    octets.iter().all(|octet| *octet == 0)
}

/// Whether DB has its padding (step 10).
fn has_padding(hash: PssHash, db: &[u8]) -> bool
    requires { s_len hash < length db.now }
    ensures { result ≡ has_padding hash db.now }
{
    let count = db.len() - digest_length(hash) - 1;
    are_zeros(&db[..count]) && db[count] == 1
}

/// The digest of the message's salted digest (steps 12 and 13), into `digest`.
fn hash_salted(digest: &mut [u8], hash: PssHash, message: &[u8], salt: &[u8])
    requires { length digest.old ≡ h_len hash }
    ensures { digest.new ≡ salted_hash hash message.now salt.now }
{
    let mut room = [0u8; MAX_DIGEST_OCTETS];
    let m_hash = &mut room[..digest_length(hash)];
    hash_parts(m_hash, hash, message, &[], &[]);
    let m_hash: &[u8] = m_hash;
    hash_parts(digest, hash, &[0; 8], m_hash, salt);
}

/// Whether DB is right, and the digest what comes of its salt (steps 10 to 14).
fn is_salted(hash: PssHash, message: &[u8], digest: &[u8], db: &[u8]) -> bool
    requires digest { length digest.now ≡ h_len hash }
    requires db { s_len hash < length db.now }
    ensures { result ≡ is_salted hash message.now digest.now db.now }
{
    if !has_padding(hash, db) {
        return false;
    }
    let salt = &db[db.len() - digest_length(hash)..];
    let mut room = [0u8; MAX_DIGEST_OCTETS];
    let salted = &mut room[..digest_length(hash)];
    hash_salted(salted, hash, message, salt);
    let salted: &[u8] = salted;
    digest == salted
}

/// Whether the octets of EM, of whose bits `em_bits` are used, are the message's.
pub fn emsa_pss_verify(hash: PssHash, message: &[u8], em: &[u8], em_bits: usize) -> bool
    requires short { length em.now ≤ 1024 }
    requires used { em_bits ≤ 8 * length em.now }
    requires unused { 8 * length em.now ≤ em_bits + 8 }
    ensures { result ≡ emsa_pss_verify hash message.now em.now em_bits }
{
    let size = digest_length(hash);
    if em.len() < size + size + 2 {
        return false;
    }
    if em[em.len() - 1] != 0xBC {
        return false;
    }
    let unused = (8 * em.len() - em_bits) as u32;
    let length = em.len() - size - 1;
    let masked = &em[..length];
    let digest = &em[length..length + size];
    if !begins_with_zeros(unused, masked) {
        return false;
    }
    let mut room = [0u8; MAX_MODULUS_OCTETS];
    let db = &mut room[..length];
    db.copy_from_slice(masked);
    unmask(db, hash, unused, digest);
    is_salted(hash, message, digest, db)
}
