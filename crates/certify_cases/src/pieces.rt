//! Sources and sinks that take pieces of a few bytes, and count their calls.
ghost use Rattle.std.specs.Prelude.{None};

use certify_core::{Failed, MemorySink, MemorySource, Sink, Source};

/// Gives at most so many bytes a call.
#[derive(Drop)]
pub struct PieceSource {
    source: MemorySource,
    size: usize,
    calls: u64,
}

impl PieceSource {
    /// The source, in pieces of `size` bytes.
    pub fn new(source: MemorySource, size: usize) -> PieceSource {
        PieceSource {
            source,
            size,
            calls: 0,
        }
    }

    /// How often it was read.
    pub fn calls(&self) -> u64 {
        self.calls
    }
}

impl Source for PieceSource {
    ghost faults = { λ s. s.source.faults };

    ghost left = { λ _. None };

    fn read(&mut self, buf: &mut [u8]) -> Result<usize, Failed> {
        self.calls = self.calls.saturating_add(1);
        let count = self.size.max(1).min(buf.len());
        self.source.read(&mut buf[..count])
    }
}

/// Takes at most so many bytes a call.
#[derive(Drop)]
pub struct PieceSink {
    sink: MemorySink,
    size: usize,
    calls: u64,
}

impl PieceSink {
    /// The sink, in pieces of `size` bytes.
    pub fn new(sink: MemorySink, size: usize) -> PieceSink {
        PieceSink {
            sink,
            size,
            calls: 0,
        }
    }

    /// How often it was written to.
    pub fn calls(&self) -> u64 {
        self.calls
    }

    /// The bytes that were written.
    pub fn written(&self) -> &[u8] {
        self.sink.written()
    }
}

impl Sink for PieceSink {
    ghost faults = { λ s. s.sink.faults };

    ghost written = { λ _. None };

    fn write(&mut self, piece: &[u8]) -> Result<usize, Failed> {
        self.calls = self.calls.saturating_add(1);
        let count = self.size.max(1).min(piece.len());
        self.sink.write(&piece[..count])
    }
}
