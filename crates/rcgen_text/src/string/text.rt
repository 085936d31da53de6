ghost use Rattle.std.specs.Prelude.{◌≡◌, ◌↔◌, nat_eq, string_bytes, IfOk, IsTrue};
ghost use Rattle.std.specs.Cmp.{partial_equiv_from_equiv};
ghost use Rattle.std.specs.Cmp.Lexicographic.{pointwise, nat_list_eq_equiv};
ghost use Rattle.std.specs.Cmp.Rules.{hashing};
ghost use Rattle.std.specs.Hash as fed;
ghost use Rattle.std.proofs.Common.{rules};

use asn1_core::TryClone;
use std::alloc::{AllocError, Global};
use std::hash::{Hash, Hasher};
use std::marker::Model;

/// A text, whose copies are equal to it.
#[derive(Debug)]
pub(crate) struct OwnedText {
    text: String,
}

impl Model for OwnedText {
    ghost use Rattle.std.specs.Prelude.{ℕ, List, string_bytes};

    ghost Value = { List ℕ };

    ghost view = { λ t. string_bytes t.text };
}

impl Drop for OwnedText {
    fn drop(self) {
        let OwnedText { text: _ } = self;
    }
}

impl OwnedText {
    /// The text, without a copy.
    pub(crate) fn new(text: String) -> OwnedText
        ensures { result ≡ string_bytes text }
    {
        OwnedText { text }
    }

    pub(crate) fn as_str(&self) -> &str
        ensures { result.now ≡ self.now }
    {
        self.text.as_str()
    }
}

impl Clone for OwnedText {
    ghost is_clone = { λ x y. y ≡ x };

    fn clone(&self) -> Result<OwnedText, AllocError> {
        Ok(OwnedText::new(self.text.clone()?))
    }
}

impl TryClone for OwnedText {
    ghost copies_are_equal = { λ _ _ same. same };
}

impl PartialEq for OwnedText {
    ghost eq = { pointwise nat_eq };

    ghost laws = { partial_equiv_from_equiv nat_list_eq_equiv };

    fn eq(&self, other: &OwnedText) -> bool {
        self.as_str().as_bytes() == other.as_str().as_bytes()
    }
}

impl Eq for OwnedText {
    ghost laws = { nat_list_eq_equiv };
}

impl Hash for OwnedText {
    ghost hash_input = { fed.slice fed.u8 };

    ghost respects_eq = { Prim.search (hashing, rules) };

    fn hash<H: Hasher>(&self, state: &mut H) {
        self.as_str().as_bytes().hash(state);
    }
}
