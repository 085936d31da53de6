ghost use Rattle.std.specs.Prelude.{◌≡◌, Some, None, [], ◌∷◌, MatchOption, IfSome, true, false, is_some};
ghost use Rattle.der_tree.specs.Element.{element_octets, split};
ghost use Rattle.der_tree.specs.SetOf.{in_order};
ghost use Rattle.der_tree.specs.Windows.{shown, whole_of};

use crate::window::{Window, element_at};
use std::marker::Model;

/// The elements that are left of a list of elements.
#[derive(Debug, Drop)]
pub struct Fields<'a> {
    rest: &'a [u8],
}

impl<'a> Model for Fields<'a> {
    ghost use Rattle.std.specs.Prelude.{◌≡◌, List, Some};
    ghost use Rattle.der_tree.specs.Element.{Element, split};
    ghost use Rattle.der_tree.specs.Element.{left};

    ghost Value = { List Element };

    ghost view = { λ s. left s.rest.now };

    ghost invariant = { λ s. split s.rest.now ≡ Some (left s.rest.now) };
}

#[tactic(auto, using(crate::proofs::SplitLaws::steps))]
fn are_elements(bytes: &[u8]) -> bool
    ensures { result ≡ is_some (split bytes.now) }
{
    let mut rest = bytes;
    while !rest.is_empty() {
        let Ok((_, after)) = element_at(rest) else {
            return false;
        };
        rest = after;
    }
    true
}

impl<'a> Fields<'a> {
    /// `None` exactly where the bytes aren't a list of elements.
    #[tactic(auto, using(crate::proofs::SplitLaws::ends))]
    pub(crate) fn of(bytes: &'a [u8]) -> Option<Fields<'a>>
        ensures { result ≡ split bytes.now }
    {
        if are_elements(bytes) {
            Some(Fields { rest: bytes })
        } else {
            None
        }
    }

    /// The next element, and those after it.
    pub fn first(&self) -> Option<(Window<'a>, Fields<'a>)>
        ensures fields { MatchOption result (self.now ≡ []) (λ p. self.now ≡ shown p.0 ∷ p.1) }
        ensures whole { IfSome result (λ p. whole_of p.0 ≡ element_octets (shown p.0)) }
    {
        match element_at(self.rest) {
            Err(_) => None,
            Ok((window, rest)) => Some((window, Fields { rest })),
        }
    }

    /// Whether the octets of the elements ascend (X.690, 11.6).
    #[tactic(auto, using(crate::proofs::SetLaws::comparing))]
    pub fn are_in_order(&self) -> bool
        ensures { result ≡ in_order self.now }
    {
        let mut before: &[u8] = &[];
        let mut left = Fields { rest: self.rest };
        while let Some((window, rest)) = left.first() {
            let octets = window.whole();
            if before.cmp(&octets).is_gt() {
                return false;
            }
            before = octets;
            left = rest;
        }
        true
    }
}
