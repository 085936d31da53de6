ghost use Rattle.std.specs.Prelude.{◌≡◌, ◌&&◌, [], ◌∷◌, IfSome, MatchOption, drop, is_some};
ghost use Rattle.std.specs.List.{slice_get};
ghost use Rattle.std.specs.Option.{option_map};
ghost use Rattle.der_tree.specs.Element.{element_at, element_octets};
ghost use Rattle.der_tree.specs.Sequence.{at_end, children};
ghost use Rattle.der_tree.specs.Windows.{shown, whole_of};
ghost use Rattle.pkix_cert.specs.Unread.{all_if, unread};
ghost use Rattle.pkix_cert.specs.Views.{inside, last_from, tagged};

use asn1_core::Tag;
use der_tree::{Window, read_window};
use std::marker::Model;

/// Contents octets of which elements are read one after the other, each when it is asked for.
#[derive(Debug, Drop)]
pub(crate) struct Elements<'a> {
    rest: &'a [u8],
}

impl<'a> Model for Elements<'a> {
    ghost use Rattle.pkix_cert.specs.Unread.{Unread, unread};

    ghost Value = { Unread };

    ghost view = { λ s. unread s.rest.now };
}

/// The element at the front of the octets, and what follows it.
pub(crate) fn element_in_front(octets: &[u8]) -> Option<(Window<'_>, &[u8])>
    ensures element { option_map (λ x. (shown x.0, x.1.now)) result ≡ element_at octets.now }
    ensures whole { IfSome result (λ x. whole_of x.0 ≡ element_octets (shown x.0)) }
{
    match read_window(octets) {
        Ok((window, rest)) => Some((window, rest)),
        Err(_) => None,
    }
}

impl<'a> Elements<'a> {
    pub(crate) fn of(octets: &'a [u8]) -> Elements<'a>
        ensures { result ≡ unread octets.now }
    {
        Elements { rest: octets }
    }

    /// Those within a window that shows a node of the tag.
    #[tactic(auto, using(crate::proofs::Unread::nodes))]
    pub(crate) fn within(window: Window<'a>, tag: Tag) -> Option<Elements<'a>>
        ensures { children tag (shown window.entry) ≡ all_if result }
    {
        if window.tag() != tag || !window.is_constructed() {
            return None;
        }
        Some(Elements::of(window.content()))
    }

    /// Those within a window that is there, and else none.
    #[tactic(auto, using(crate::proofs::Unread::nothing))]
    pub(crate) fn inside(window: &Option<Window<'a>>) -> Elements<'a>
        ensures { result.elements ≡ inside (option_map shown window.now) }
    {
        match window {
            None => Elements::of(&[]),
            Some(window) => Elements::of(window.content()),
        }
    }

    /// The next element, and those after it.
    #[tactic(auto, using(crate::proofs::Unread::firsts))]
    pub(crate) fn first(&self) -> Option<(Window<'a>, Elements<'a>)>
        ensures elements { MatchOption result (self.now.elements ≡ []) (λ p. self.now.elements ≡ shown p.0 ∷ p.1.elements) }
        ensures complete { IfSome result (λ p. p.1.complete ≡ self.now.complete) }
        ensures whole { IfSome result (λ p. whole_of p.0 ≡ element_octets (shown p.0)) }
    {
        let (window, rest) = element_in_front(self.rest)?;
        Some((window, Elements { rest }))
    }

    /// Whether no octet is left.
    #[tactic(auto, using(crate::proofs::Unread::ends))]
    pub(crate) fn is_empty(&self) -> bool
        ensures { result ≡ (is_some (at_end self.now.elements) && self.now.complete) }
    {
        self.rest.is_empty()
    }

    /// Takes the next element, where there is one.
    pub(crate) fn take(&mut self) -> Option<Window<'a>>
        ensures element { option_map shown result ≡ slice_get self.old.elements 0 }
        ensures rest { self.new.elements ≡ drop 1 self.old.elements }
        ensures whole { IfSome result (λ w. whole_of w ≡ element_octets (shown w)) }
    {
        let (window, rest) = self.first()?;
        *self = rest;
        Some(window)
    }

    /// The last element, or the one before where none is left.
    pub(crate) fn last(&self, before: Option<Window<'a>>) -> Option<Window<'a>>
        ensures { option_map shown result ≡ last_from (option_map shown before.entry) self.now.elements }
    {
        match self.first() {
            None => before,
            Some((window, rest)) => rest.last(Some(window)),
        }
    }

    /// The first element with the tag.
    pub(crate) fn tagged(&self, tag: Tag) -> Option<Window<'a>>
        ensures { option_map shown result ≡ tagged tag self.now.elements }
    {
        let (window, rest) = self.first()?;
        if window.tag() == tag {
            Some(window)
        } else {
            rest.tagged(tag)
        }
    }
}
