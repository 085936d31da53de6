ghost use Rattle.std.specs.Prelude.{◌≡◌, ◌+◌, ◌<◌, ◌≤◌, [], ◌∷◌, ◌++◌, IfOk, OnOk, OnErr, length, slice_index};

use crate::error::OutOfMemory;
use crate::steps::Steps;
use std::alloc::Global;
use std::marker::Model;
use std::sync::ledger::Ledger;

/// Numbers that are put one after the other. They come in by `push` alone, which counts them and
/// needs room; `reserve` makes room.
#[derive(Debug, Drop)]
pub struct Sizes {
    sizes: Vec<u64>,
    room: usize,
}

impl Model for Sizes {
    ghost use Rattle.std.specs.Prelude.{◌≤◌, vec_len, vec_capacity};
    ghost use Rattle.asn1_core.specs.Filled.{Filled};

    ghost Value = { Filled };

    ghost view = { λ s. record { items = s.sizes.items; room = s.room } };

    ghost invariant = { λ s. (vec_len s.sizes ≤ s.room) × (s.room ≤ vec_capacity s.sizes) };
}

impl Sizes {
    /// Empty, with room for so many numbers.
    pub fn with_room(alloc: Global, room: usize) -> Result<Sizes, OutOfMemory>
        ensures items { IfOk result (λ s. s.items ≡ []) }
        ensures room { IfOk result (λ s. s.room ≡ room) }
    {
        let sizes = Vec::with_capacity(alloc, room)?;
        Ok(Sizes { sizes, room })
    }

    /// Room for so many numbers more. Where it is too small it grows as that of a `Vec`, by more than
    /// is asked, so a room for each number as it comes costs a few moves for each. No step is counted.
    pub fn reserve(&mut self, more: usize) -> Result<(), OutOfMemory>
        ensures items { self.new.items ≡ self.old.items }
        ensures room { OnOk result (length self.new.items + more ≤ self.new.room) }
        ensures kept { self.old.room ≤ self.new.room }
        ensures err { OnErr result (self.new.room ≡ self.old.room) }
        ensures full { OnErr result (self.old.room < length self.old.items + more) }
    {
        self.sizes.reserve(more)?;
        self.room = self.sizes.capacity();
        Ok(())
    }

    /// Puts the number after the others: one step.
    pub fn push<L: Ledger>(&mut self, size: u64, steps: &mut Steps<L>)
        requires { length self.old.items < self.old.room }
        ensures items { self.new.items ≡ self.old.items ++ size ∷ [] }
        ensures room { self.new.room ≡ self.old.room }
        ensures steps { steps.new ≡ steps.old + 1 }
    {
        self.sizes.push(size).unwrap();
        steps.rise(1);
    }

    /// The number at a place, counted from 0.
    pub fn at(&self, i: usize) -> u64
        requires { i < length self.now.items }
        ensures { result ≡ slice_index self.now.items i }
    {
        self.sizes[i]
    }

    /// How many there are.
    pub fn len(&self) -> usize
        ensures { result ≡ length self.now.items }
    {
        self.sizes.len()
    }
}
