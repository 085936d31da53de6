ghost use Rattle.std.specs.Prelude.{◌≡◌, IfOk};
ghost use Rattle.std.proofs.Common.{rules};

use crate::error::OutOfMemory;
use std::alloc::{AllocError, Global};

/// A type whose values can be copied, where the copy may need memory. What `clone` gives is equal to
/// its original, which is found where `Clone` is derived and each field is such a type.
pub trait TryClone: Clone {
    ghost copies_are_equal: { (x y : Self) → Self.is_clone x y → y ≡ x };

    /// A value equal to this one.
    final fn try_clone(&self, _alloc: Global) -> Result<Self, OutOfMemory>
        ensures { IfOk result (λ copy. copy ≡ self.now) }
    {
        Ok(self.clone()?)
    }
}

/// A copy of a part. Its contract is one equation, for where the search doesn't take a derived copy
/// apart.
pub fn copied<T: TryClone>(value: &T) -> Result<T, AllocError>
    ensures { IfOk result (λ copy. copy ≡ value.now) }
{
    value.clone()
}

impl TryClone for () {
    ghost copies_are_equal = { λ _ _ same. same };
}

impl TryClone for bool {
    ghost copies_are_equal = { λ _ _ same. same };
}

impl TryClone for u8 {
    ghost copies_are_equal = { λ _ _ same. same };
}

impl TryClone for u16 {
    ghost copies_are_equal = { λ _ _ same. same };
}

impl TryClone for u64 {
    ghost copies_are_equal = { λ _ _ same. same };
}

impl<T: TryClone> TryClone for Option<T> {
    ghost copies_are_equal = { Prim.search (T.copies_are_equal, rules) };
}
