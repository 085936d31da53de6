//! The DER of values that have one, and octets that are the same.
ghost use Rattle.std.specs.Prelude.{◌≡◌, IfOk};
ghost use Rattle.std.specs.Str.{bytes_eq};
ghost use Rattle.der_tree.specs.Form.{IsDerOf};
ghost use Rattle.der_tree.specs.HasTree.{HasTree};

use asn1_core::OutOfMemory;
use der_tree::{DerType, der};
use std::alloc::Global;

/// The DER of a value that has one.
pub fn encoded<T: DerType>(alloc: Global, value: &T) -> Result<Vec<u8>, OutOfMemory>
    requires { HasTree T.codec value.now }
    ensures { IfOk result (λ octets. IsDerOf T.codec value.now octets.items) }
{
    match der::encode(alloc, value) {
        Ok(octets) => Ok(octets),
        Err(_) => Err(OutOfMemory),
    }
}

pub(crate) fn are_same(one: &[u8], other: &[u8]) -> bool
    ensures { result ≡ bytes_eq one.now other.now }
{
    one == other
}
