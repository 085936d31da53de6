ghost use Rattle.std.specs.Prelude.{◌≡◌, true, IfOk, IfErr};
ghost use Rattle.rcgen_text.specs.declared.error.Error.TheVariants.{OutOfMemory as NoMemory};
ghost use Rattle.rcgen_sign.specs.KeyIds.{key_id, method_of, same_method};
ghost use Rattle.rcgen_sign.specs.contracts.key_id.KeyIdMethodPartialEq.TheImpl.{ghosts as equality};
ghost use Rattle.rcgen_sign.specs.declared.key_id.KeyIdMethod.{KeyIdMethod};

use asn1_core::OutOfMemory;
use rcgen_text::Error;
use sha2::{Digest, Sha256, Sha384, Sha512};
use std::alloc::{AllocError, Global};

/// How the identifier of a key is made, or which one it is. The digests are those of RFC 7093, 2,
/// methods 1 to 3, but of the whole DER of the key's info, as in its method 4.
#[derive(Debug, PartialEq, Eq, Hash)]
pub enum KeyIdMethod {
    /// The first 160 bits of a SHA-256 digest.
    Sha256,
    /// The first 160 bits of a SHA-384 digest.
    Sha384,
    /// The first 160 bits of a SHA-512 digest.
    Sha512,
    /// These very bytes, whatever the key.
    PreSpecified(Vec<u8>),
}

impl Drop for KeyIdMethod {
    fn drop(self) {
        match self {
            KeyIdMethod::Sha256 => (),
            KeyIdMethod::Sha384 => (),
            KeyIdMethod::Sha512 => (),
            KeyIdMethod::PreSpecified(_) => (),
        }
    }
}

impl KeyIdMethod {
    /// The identifier of the key with that info, the DER of its SubjectPublicKeyInfo (RFC 5280,
    /// 4.1.2.7, 4.2.1.2).
    pub fn derive(&self, alloc: Global, info: &[u8]) -> Result<Vec<u8>, Error>
        ensures value { IfOk result (λ id. id.items ≡ key_id (method_of self.now) info.now) }
        ensures memory { IfErr result (λ e. e ≡ NoMemory) }
    {
        match self {
            KeyIdMethod::Sha256 => Ok(Vec::from_slice(alloc, &Sha256::digest(info)[..20])?),
            KeyIdMethod::Sha384 => Ok(Vec::from_slice(alloc, &Sha384::digest(info)[..20])?),
            KeyIdMethod::Sha512 => Ok(Vec::from_slice(alloc, &Sha512::digest(info)[..20])?),
            KeyIdMethod::PreSpecified(id) => Ok(Vec::from_slice(alloc, id.as_slice())?),
        }
    }

    /// The same method, its bytes copied.
    #[tactic(auto, using(crate::proofs::Methods::methods_equal))]
    pub fn try_clone(&self, _alloc: Global) -> Result<KeyIdMethod, OutOfMemory>
        ensures method { IfOk result (λ copy. method_of copy ≡ method_of self.now) }
        ensures equal { IfOk result (λ copy. equality.eq copy self.now ≡ true) }
    {
        Ok(self.clone()?)
    }
}

// no `TryClone`: a copied `Vec` may have another capacity
impl Clone for KeyIdMethod {
    ghost is_clone = { λ x y. method_of y ≡ method_of x };

    fn clone(&self) -> Result<KeyIdMethod, AllocError> {
        match self {
            KeyIdMethod::Sha256 => Ok(KeyIdMethod::Sha256),
            KeyIdMethod::Sha384 => Ok(KeyIdMethod::Sha384),
            KeyIdMethod::Sha512 => Ok(KeyIdMethod::Sha512),
            KeyIdMethod::PreSpecified(id) => Ok(KeyIdMethod::PreSpecified(Vec::from_slice(
                *id.allocator(),
                id.as_slice(),
            )?)),
        }
    }
}

/// Methods are equal where they are of one digest, or have the same bytes.
#[tactic(auto, using(crate::proofs::Methods::methods_same))]
pub fn methods_are_same()
    ensures { (m other : KeyIdMethod) → equality.eq m other ≡ same_method (method_of m) (method_of other) }
{}
