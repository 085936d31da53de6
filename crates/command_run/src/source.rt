ghost use Rattle.std.specs.Prelude.{◌≡◌, ◌≤◌, ◌+◌, ◌-◌, ◌^◌, ℕ, List, Option, Some, None, min, length, take, drop, IfOk, OnOk, OnErr, is_err};
ghost use Rattle.std.specs.Io.{ReadsAtMost};
ghost use Rattle.std.specs.Io.KnownBytes.{ReadConsumes};
ghost use Rattle.command_run.specs.Io.{Rose};
ghost use Rattle.command_run.specs.Memory.{fails_at, call_after};

use std::io::Read;
use std::marker::Model;

/// A read or a write failed.
#[derive(Clone, Copy, Debug, PartialEq, Eq)]
pub struct Failed;

/// Gives bytes, a piece at a time.
pub trait Source {
    /// How often a read has failed, up to the last value of a `u64`.
    ghost faults: { Self → ℕ };

    /// The bytes that reads will give, where the source tells them.
    ghost left: { Self → Option (List ℕ) };

    /// Puts bytes at the front of the buffer, and says how many. 0 means that the source is at its end, where the
    /// buffer has room.
    fn read(&mut self, buf: &mut [u8]) -> Result<usize, Failed>
        ensures bound { ReadsAtMost result buf.new }
        ensures content { ReadConsumes (left self.old) (left self.new) result buf.new }
        ensures count { faults self.old ≤ faults self.new }
        ensures cause { OnErr result (Rose (faults self.old) (faults self.new)) };
}

/// Copies as much as fits, and says how much that was.
fn copy_front(from: &[u8], to: &mut [u8]) -> usize
    ensures count { result ≡ min (length from.now) (length to.old) }
    ensures front { take result to.new ≡ take result from.now }
{
    let count = from.len().min(to.len());
    to[..count].copy_from_slice(&from[..count]);
    count
}

/// Bytes in memory, with the calls that are to fail.
#[derive(Drop)]
pub struct MemorySource {
    bytes: Vec<u8>,
    at: usize,
    failing: Vec<u64>,
    call: Option<u64>,
    faults: u64,
}

impl Model for MemorySource {
    ghost use Rattle.std.specs.Prelude.{◌≤◌, drop, length};
    ghost use Rattle.command_run.specs.Memory.{SourceState};

    ghost Value = { SourceState };

    ghost view = { λ s. record { left = drop s.at s.bytes.items; failing = s.failing.items; call = s.call; faults = s.faults } };

    ghost invariant = { λ s. s.at ≤ length s.bytes.items };
}

impl MemorySource {
    /// A source that fails at the calls with those numbers, counted from 0.
    pub fn new(bytes: Vec<u8>, failing: Vec<u64>) -> MemorySource
        ensures left { result.left ≡ bytes.items }
        ensures failing { result.failing ≡ failing.items }
        ensures call { result.call ≡ Some 0 }
        ensures faults { result.faults ≡ 0 }
    {
        MemorySource {
            bytes,
            at: 0,
            failing,
            call: Some(0),
            faults: 0,
        }
    }
}

/// Whether the next call fails, by its number.
pub(crate) fn fails(failing: &[u64], call: Option<u64>) -> bool
    ensures { result ≡ fails_at failing.now call }
{
    match call {
        Some(number) => failing.contains(&number),
        None => false,
    }
}

/// The number of the call after this one. After the last number there is none.
pub(crate) fn following(call: Option<u64>) -> Option<u64>
    ensures { result ≡ call_after call }
{
    match call {
        Some(number) => number.checked_add(1),
        None => None,
    }
}

impl Source for MemorySource {
    ghost faults = { λ s. s.faults };

    ghost left = { λ s. Some s.left };

    fn read(&mut self, buf: &mut [u8]) -> Result<usize, Failed>
        ensures bound { ReadsAtMost result buf.new }
        ensures content { ReadConsumes (Some self.old.left) (Some self.new.left) result buf.new }
        ensures count { self.old.faults ≤ self.new.faults }
        ensures cause { OnErr result (Rose self.old.faults self.new.faults) }
        ensures counted { OnErr result (self.new.faults ≡ min (self.old.faults + 1) (2 ^ 64 - 1)) }
        ensures fails { is_err result ≡ fails_at self.old.failing self.old.call }
        ensures given { IfOk result (λ n. n ≡ min (length self.old.left) (length buf.old)) }
        ensures steady { OnOk result (self.new.faults ≡ self.old.faults) }
        ensures failing { self.new.failing ≡ self.old.failing }
        ensures call { self.new.call ≡ call_after self.old.call }
    {
        let failed = fails(&self.failing, self.call);
        self.call = following(self.call);
        if failed {
            self.faults = self.faults.saturating_add(1);
            return Err(Failed);
        }
        let count = copy_front(&self.bytes[self.at..], buf);
        self.at += count;
        Ok(count)
    }
}

/// Bytes in memory. No read fails.
#[derive(Drop)]
pub struct SureSource {
    bytes: Vec<u8>,
    at: usize,
}

impl Model for SureSource {
    ghost use Rattle.std.specs.Prelude.{◌≤◌, ℕ, List, drop, length};

    ghost Value = { List ℕ };

    ghost view = { λ s. drop s.at s.bytes.items };

    ghost invariant = { λ s. s.at ≤ length s.bytes.items };
}

impl SureSource {
    /// A source of these bytes.
    pub fn new(bytes: Vec<u8>) -> SureSource
        ensures { result ≡ bytes.items }
    {
        SureSource { bytes, at: 0 }
    }
}

impl Source for SureSource {
    ghost faults = { λ _. 0 };

    ghost left = { λ s. Some s };

    fn read(&mut self, buf: &mut [u8]) -> Result<usize, Failed> {
        let count = copy_front(&self.bytes[self.at..], buf);
        self.at += count;
        Ok(count)
    }
}

/// The runtime's standard input. It tells no bytes.
#[derive(Drop)]
pub struct StdSource<R: Input> {
    reader: R::Reader,
    faults: u64,
}

impl<R: Input> Model for StdSource<R> {
    ghost use Rattle.std.specs.Prelude.{ℕ};

    ghost Value = { ℕ };

    ghost view = { λ s. s.faults };
}

impl<R: Input> StdSource<R> {
    /// The standard input of this runtime.
    pub fn new(rt: &R) -> StdSource<R>
        ensures { result ≡ 0 }
    {
        StdSource {
            reader: rt.reader(),
            faults: 0,
        }
    }
}

impl<R: Input> Source for StdSource<R> {
    ghost faults = { λ s. s };

    ghost left = { λ _. None };

    fn read(&mut self, buf: &mut [u8]) -> Result<usize, Failed>
        ensures bound { ReadsAtMost result buf.new }
        ensures count { self.old ≤ self.new }
        ensures cause { OnErr result (Rose self.old self.new) }
        ensures counted { OnErr result (self.new ≡ min (self.old + 1) (2 ^ 64 - 1)) }
        ensures steady { OnOk result (self.new ≡ self.old) }
    {
        match self.reader.read(buf) {
            Ok(count) => Ok(count),
            Err(_) => {
                self.faults = self.faults.saturating_add(1);
                Err(Failed)
            }
        }
    }
}
