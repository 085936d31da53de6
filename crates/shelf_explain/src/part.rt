//! Elements where they are in a block.
ghost use Rattle.std.specs.Prelude.{◌≡◌, ◌∷◌, [], MatchOption};
ghost use Rattle.shelf_explain.specs.Parts.{begins_with, inside, in_front, only, parts_of, places_from};

use der_tree::{Fields, one_window};
use std::marker::Model;

/// An element, and how many octets of the block come before it.
#[derive(Drop)]
pub(crate) struct Part<'a> {
    at: u64,
    octets: &'a [u8],
}

impl<'a> Model for Part<'a> {
    ghost use Rattle.shelf_explain.specs.Parts.{Place};

    ghost Value = { Place };

    ghost view = { λ s. record { at = s.at; octets = s.octets.now } };
}

/// Elements one after the other.
#[derive(Drop)]
pub(crate) struct Parts<'a> {
    at: u64,
    left: Fields<'a>,
}

impl<'a> Model for Parts<'a> {
    ghost use Rattle.std.specs.Prelude.{List};
    ghost use Rattle.shelf_explain.specs.Parts.{Place, places_from};

    ghost Value = { List Place };

    ghost view = { λ s. places_from s.at s.left };
}

/// Whether the identifier octet is this one.
#[tactic(auto, unfolding(crate::specs::Parts::begins_with))]
pub(crate) fn begins_with(octets: &[u8], start: u8) -> bool
    ensures { result ≡ begins_with octets.now start }
{
    match octets {
        [] => false,
        [first, ..] => *first == start,
    }
}

impl<'a> Part<'a> {
    /// All octets of a block.
    #[tactic(auto, unfolding(crate::specs::Parts::in_front))]
    pub(crate) fn in_front(octets: &'a [u8]) -> Part<'a>
        ensures { result ≡ in_front octets.now }
    {
        Part { at: 0, octets }
    }

    pub(crate) fn at(&self) -> u64
        ensures { result ≡ self.now.at }
    {
        self.at
    }

    pub(crate) fn octets(&self) -> &'a [u8]
        ensures { result.now ≡ self.now.octets }
    {
        self.octets
    }

    /// The elements within it.
    #[tactic(auto, unfolding(crate::specs::Parts::parts_of))]
    pub(crate) fn parts(&self) -> Option<Parts<'a>>
        ensures { result ≡ parts_of self.now }
    {
        let element = one_window(self.octets)?;
        let left = element.fields()?;
        let header = element
            .whole()
            .len()
            .saturating_sub(element.content().len());
        Some(Parts {
            at: self.at.saturating_add(header as u64),
            left,
        })
    }

    /// The element within it, where it is the only one.
    #[tactic(auto, unfolding(crate::specs::Parts::inside, crate::specs::Parts::only))]
    pub(crate) fn inside(&self) -> Option<Part<'a>>
        ensures { result ≡ inside self.now }
    {
        let (part, left) = self.parts()?.first()?;
        match left.first() {
            None => Some(part),
            Some(_) => None,
        }
    }
}

impl<'a> Parts<'a> {
    /// The next element, and those after it.
    #[tactic(auto, unfolding(crate::specs::Parts::places_from))]
    pub(crate) fn first(&self) -> Option<(Part<'a>, Parts<'a>)>
        ensures { MatchOption result (self.now ≡ []) (λ p. self.now ≡ p.0 ∷ p.1) }
    {
        let (element, left) = self.left.first()?;
        let octets = element.whole();
        let part = Part {
            at: self.at,
            octets,
        };
        let at = self.at.saturating_add(octets.len() as u64);
        Some((part, Parts { at, left }))
    }
}
