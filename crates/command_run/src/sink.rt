ghost use Rattle.std.specs.Prelude.{◌≡◌, ◌⊎◌, ◌↔◌, ◌+◌, ◌-◌, ◌^◌, ◌≤◌, ◌<◌, ℕ, List, [], Option, Some, None, min, length, IfOk, OnOk, OnErr, IsErr, IsTrue};
ghost use Rattle.std.specs.Io.{WritesAtMost};
ghost use Rattle.command_run.specs.Io.{Rose, Writes};
ghost use Rattle.command_run.specs.Memory.{fails_at, call_after};

use crate::source::{Failed, fails, following};
use std::alloc::{AllocError, Global};
use std::marker::Model;

/// Takes bytes, a piece at a time.
pub trait Sink {
    /// How often a write has failed, up to the last value of a `u64`.
    ghost faults: { Self → ℕ };

    /// The bytes that were written, where the sink tells them.
    ghost written: { Self → Option (List ℕ) };

    /// Takes bytes from the front of the piece, and says how many. Where a write fails, some may have been taken.
    fn write(&mut self, piece: &[u8]) -> Result<usize, Failed>
        ensures bound { WritesAtMost result piece.now }
        ensures progress { IfOk result (λ n. 0 < length piece.now → 0 < n) }
        ensures content { Writes (written self.old) (written self.new) result piece.now }
        ensures count { faults self.old ≤ faults self.new }
        ensures cause { OnErr result (Rose (faults self.old) (faults self.new)) };
}

/// Room for bytes in memory, with the calls that are to fail. A write also fails where the room is full, whatever the
/// piece; where there is room, an empty piece takes nothing, and that is no failure.
#[derive(Drop)]
pub struct MemorySink {
    bytes: Vec<u8>,
    room: usize,
    failing: Vec<u64>,
    call: Option<u64>,
    faults: u64,
}

impl Model for MemorySink {
    ghost use Rattle.std.specs.Prelude.{◌≤◌, length, vec_capacity};
    ghost use Rattle.command_run.specs.Memory.{SinkState};

    ghost Value = { SinkState };

    ghost view = { λ s. record { written = s.bytes.items; room = s.room; failing = s.failing.items; call = s.call; faults = s.faults } };

    ghost invariant = { λ s. (length s.bytes.items ≤ s.room) × (s.room ≤ vec_capacity s.bytes) };
}

impl MemorySink {
    /// A sink with room for so many bytes, that fails at the calls with those numbers, counted from 0. All the memory
    /// that it needs is taken here.
    pub fn with_room(
        alloc: Global,
        room: usize,
        failing: Vec<u64>,
    ) -> Result<MemorySink, AllocError>
        ensures written { IfOk result (λ sink. sink.written ≡ []) }
        ensures room { IfOk result (λ sink. sink.room ≡ room) }
        ensures failing { IfOk result (λ sink. sink.failing ≡ failing.items) }
        ensures call { IfOk result (λ sink. sink.call ≡ Some 0) }
        ensures faults { IfOk result (λ sink. sink.faults ≡ 0) }
    {
        let bytes = Vec::with_capacity(alloc, room)?;
        Ok(MemorySink {
            bytes,
            room,
            failing,
            call: Some(0),
            faults: 0,
        })
    }

    /// The bytes that were written.
    pub fn written(&self) -> &[u8]
        ensures { result.now ≡ self.now.written }
    {
        &self.bytes
    }
}

impl Sink for MemorySink {
    ghost faults = { λ s. s.faults };

    ghost written = { λ s. Some s.written };

    fn write(&mut self, piece: &[u8]) -> Result<usize, Failed>
        ensures bound { WritesAtMost result piece.now }
        ensures progress { IfOk result (λ n. 0 < length piece.now → 0 < n) }
        ensures content { Writes (Some self.old.written) (Some self.new.written) result piece.now }
        ensures count { self.old.faults ≤ self.new.faults }
        ensures cause { OnErr result (Rose self.old.faults self.new.faults) }
        ensures counted { OnErr result (self.new.faults ≡ min (self.old.faults + 1) (2 ^ 64 - 1)) }
        ensures fails { IsErr result ↔ (IsTrue (fails_at self.old.failing self.old.call)
            ⊎ (self.old.room ≤ length self.old.written)) }
        ensures taken { IfOk result (λ n. n ≡ min (self.old.room - length self.old.written) (length piece.now)) }
        ensures steady { OnOk result (self.new.faults ≡ self.old.faults) }
        ensures nothing { OnErr result (self.new.written ≡ self.old.written) }
        ensures room { self.new.room ≡ self.old.room }
        ensures failing { self.new.failing ≡ self.old.failing }
        ensures call { self.new.call ≡ call_after self.old.call }
    {
        let failed = fails(&self.failing, self.call);
        self.call = following(self.call);
        let count = (self.room - self.bytes.len()).min(piece.len());
        if failed || self.bytes.len() == self.room {
            self.faults = self.faults.saturating_add(1);
            return Err(Failed);
        }
        self.bytes.extend_from_slice(&piece[..count]).unwrap();
        Ok(count)
    }
}

/// Takes every piece whole, and keeps nothing.
#[derive(Clone, Copy, Debug)]
pub struct DropSink;

impl DropSink {
    /// A sink that keeps nothing.
    pub fn new() -> DropSink {
        DropSink
    }
}

impl Sink for DropSink {
    ghost faults = { λ _. 0 };

    ghost written = { λ _. None };

    fn write(&mut self, piece: &[u8]) -> Result<usize, Failed>
        ensures { result ≡ Ok (length piece.now) }
    {
        Ok(piece.len())
    }
}

/// The runtime's standard output. It tells no bytes.
#[derive(Drop)]
pub struct StdSink<'a, R: Print> {
    rt: &'a R,
    faults: u64,
}

impl<'a, R: Print> Model for StdSink<'a, R> {
    ghost use Rattle.std.specs.Prelude.{ℕ};

    ghost Value = { ℕ };

    ghost view = { λ s. s.faults };
}

impl<'a, R: Print> StdSink<'a, R> {
    /// The standard output of this runtime.
    pub fn new(rt: &'a R) -> StdSink<'a, R>
        ensures { result ≡ 0 }
    {
        StdSink { rt, faults: 0 }
    }
}

impl<'a, R: Print> Sink for StdSink<'a, R> {
    ghost faults = { λ s. s };

    ghost written = { λ _. None };

    fn write(&mut self, piece: &[u8]) -> Result<usize, Failed>
        ensures bound { WritesAtMost result piece.now }
        ensures progress { IfOk result (λ n. 0 < length piece.now → 0 < n) }
        ensures content { Writes None None result piece.now }
        ensures count { self.old ≤ self.new }
        ensures cause { OnErr result (Rose self.old self.new) }
        ensures counted { OnErr result (self.new ≡ min (self.old + 1) (2 ^ 64 - 1)) }
        ensures steady { OnOk result (self.new ≡ self.old) }
    {
        match self.rt.write_some(piece) {
            Ok(count) if count > 0 || piece.is_empty() => Ok(count),
            _ => {
                self.faults = self.faults.saturating_add(1);
                Err(Failed)
            }
        }
    }
}
