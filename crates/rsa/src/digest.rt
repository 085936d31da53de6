//! Digests of octets that are in several places.
ghost use Rattle.std.specs.Prelude.{◌≡◌, ◌++◌, length};
ghost use Rattle.rsa.specs.Pss.{h_len, hash_of};

use sha2::{Digest, Sha256, Sha384, Sha512};

/// The hash function that a signature by RSASSA-PSS goes by, of the message and of the mask.
#[derive(Clone, Copy, PartialEq, Eq, Debug)]
pub enum PssHash {
    /// SHA-256 (FIPS 180-4).
    Sha256,
    /// SHA-384 (FIPS 180-4).
    Sha384,
    /// SHA-512 (FIPS 180-4).
    Sha512,
}

/// The most octets of a digest.
pub const MAX_DIGEST_OCTETS: usize = 64;

/// How many octets a digest has.
pub fn digest_length(hash: PssHash) -> usize
    ensures { result ≡ h_len hash }
{
    match hash {
        PssHash::Sha256 => 32,
        PssHash::Sha384 => 48,
        PssHash::Sha512 => 64,
    }
}

/// The digest of `front`, `middle` and `back`, one after the other, into `digest`.
pub fn hash_parts(digest: &mut [u8], hash: PssHash, front: &[u8], middle: &[u8], back: &[u8])
    requires { length digest.old ≡ h_len hash }
    ensures { digest.new ≡ hash_of hash (front.now ++ middle.now ++ back.now) }
{
    match hash {
        PssHash::Sha256 => {
            let mut hasher = Sha256::new();
            hasher.update(front);
            hasher.update(middle);
            hasher.update(back);
            digest.copy_from_slice(&hasher.finalize());
        }
        PssHash::Sha384 => {
            let mut hasher = Sha384::new();
            hasher.update(front);
            hasher.update(middle);
            hasher.update(back);
            digest.copy_from_slice(&hasher.finalize());
        }
        PssHash::Sha512 => {
            let mut hasher = Sha512::new();
            hasher.update(front);
            hasher.update(middle);
            hasher.update(back);
            digest.copy_from_slice(&hasher.finalize());
        }
    }
}
