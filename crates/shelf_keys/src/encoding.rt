//! The DER of values.
ghost use Rattle.std.specs.Prelude.{◌≡◌};
ghost use Rattle.shelf_fault.specs.Faults.{Gets};
ghost use Rattle.shelf_keys.specs.Encoded.{encoded, encoding_fault};

use der_tree::{DerType, EncodeError, der};
use shelf_fault::Fault;
use std::alloc::Global;

/// The fault of a value that isn't encoded.
fn encoding_fault(error: EncodeError, fault: Fault) -> Fault
    ensures { result ≡ encoding_fault error fault }
{
    match error {
        EncodeError::OutOfMemory => Fault::OutOfMemory,
        _ => fault,
    }
}

/// The DER of a value, and the fault where it has none.
#[tactic(auto, using(crate::proofs::Octets::none_are))]
pub fn encoded<T: DerType>(alloc: Global, value: &T, fault: Fault) -> Result<Vec<u8>, Fault>
    ensures { Gets (λ v. v.items) (encoded T.codec fault value.now) result }
{
    match der::encode(alloc, value) {
        Ok(octets) => Ok(octets),
        Err(error) => Err(encoding_fault(error, fault)),
    }
}
