ghost use Rattle.std.specs.Prelude.{◌≡◌, ◌+◌, ◌-◌, ◌<◌, ◌≤◌, [], ◌∷◌, ◌++◌, IfOk, length, min};
ghost use Rattle.std.specs.List.{insert};

use crate::error::OutOfMemory;
use crate::steps::Steps;
use std::alloc::Global;
use std::marker::Model;
use std::sync::ledger::Ledger;

/// Octets that are put one after the other into a room that doesn't grow. They come in by `put`,
/// `put_all` and `insert_at` alone, and each of these counts what it moves. The value itself counts
/// what `insert_at` moves out of its way too, whatever counter it is handed.
#[derive(Debug, Drop)]
pub struct Out {
    bytes: Vec<u8>,
    room: usize,
    moved: u64,
}

impl Model for Out {
    ghost use Rattle.std.specs.Prelude.{◌≤◌, vec_len, vec_capacity};
    ghost use Rattle.asn1_core.specs.Filled.{Buffer};

    ghost Value = { Buffer };

    ghost view = { λ o. record { items = o.bytes.items; room = o.room; moved = o.moved } };

    ghost invariant = { λ o. (vec_len o.bytes ≤ o.room) × (o.room ≤ vec_capacity o.bytes) };
}

impl Out {
    /// Empty, with room for so many octets.
    pub fn with_room(alloc: Global, room: usize) -> Result<Out, OutOfMemory>
        ensures items { IfOk result (λ o. o.items ≡ []) }
        ensures room { IfOk result (λ o. o.room ≡ room) }
        ensures moved { IfOk result (λ o. o.moved ≡ 0) }
    {
        let bytes = Vec::with_capacity(alloc, room)?;
        Ok(Out {
            bytes,
            room,
            moved: 0,
        })
    }

    /// Puts the octet after the others: one step.
    pub fn put<L: Ledger>(&mut self, byte: u8, steps: &mut Steps<L>)
        requires { length self.old.items < self.old.room }
        ensures items { self.new.items ≡ self.old.items ++ byte ∷ [] }
        ensures room { self.new.room ≡ self.old.room }
        ensures moved { self.new.moved ≡ self.old.moved }
        ensures steps { steps.new ≡ steps.old + 1 }
    {
        self.bytes.push(byte).unwrap();
        steps.rise(1);
    }

    /// Puts the octets after the others: a step for each.
    pub fn put_all<L: Ledger>(&mut self, bytes: &[u8], steps: &mut Steps<L>)
        requires { length self.old.items + length bytes.now ≤ self.old.room }
        ensures items { self.new.items ≡ self.old.items ++ bytes.now }
        ensures room { self.new.room ≡ self.old.room }
        ensures moved { self.new.moved ≡ self.old.moved }
        ensures steps { steps.new ≡ steps.old + length bytes.now }
    {
        self.bytes.extend_from_slice(bytes).unwrap();
        steps.rise(bytes.len());
    }

    /// Puts the octet at a place, and moves those after it: one step, and one for each that moves.
    pub fn insert_at<L: Ledger>(&mut self, at: usize, byte: u8, steps: &mut Steps<L>)
        requires at { at ≤ length self.old.items }
        requires room { length self.old.items < self.old.room }
        ensures items { self.new.items ≡ insert self.old.items at byte }
        ensures room { self.new.room ≡ self.old.room }
        ensures moved { self.new.moved ≡ min (self.old.moved + (length self.old.items - at)) u64.MAX }
        ensures steps { steps.new ≡ steps.old + 1 + (length self.old.items - at) }
    {
        steps.rise(1);
        steps.rise(self.bytes.len() - at);
        self.moved = self.moved.saturating_add((self.bytes.len() - at) as u64);
        self.bytes.insert(at, byte).unwrap();
    }

    /// The octets in order.
    pub fn as_slice(&self) -> &[u8]
        ensures { result.now ≡ self.now.items }
    {
        self.bytes.as_slice()
    }

    /// The octets, without a copy.
    pub fn finish(self) -> Vec<u8>
        ensures { result.items ≡ self.items }
    {
        let Out {
            bytes,
            room: _,
            moved: _,
        } = self;
        bytes
    }
}
