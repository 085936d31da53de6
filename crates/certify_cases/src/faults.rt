//! A run of which each read and each write fails in turn.
use crate::pieces::{PieceSink, PieceSource};
use certify_core::{MemorySink, MemorySource, Status, run};
use std::alloc::{AllocError, Global};

/// What is run, and how many bytes a call takes at most.
#[derive(Clone, Copy)]
pub struct Trial<'a> {
    /// The words after the program's name.
    pub words: &'a [String],
    /// The input.
    pub input: &'a [u8],
    /// How many bytes a read gives and a write takes at most.
    pub size: usize,
}

// How a run ends, what it writes, and how often it reads and writes.
#[derive(Drop)]
struct Outcome {
    status: Status,
    written: Vec<u8>,
    reads: u64,
    writes: u64,
}

// The number of the call that fails, if one does.
fn failing(alloc: Global, call: Option<u64>) -> Result<Vec<u64>, AllocError> {
    match call {
        Some(number) => Ok(vec![in alloc; number]?),
        None => Ok(Vec::new(alloc)),
    }
}

impl Trial<'_> {
    // The run of which the read and the write of those numbers fail.
    fn outcome(
        &self,
        alloc: Global,
        unread: Option<u64>,
        unwritten: Option<u64>,
    ) -> Result<Outcome, AllocError> {
        let source = MemorySource::new(self.input.to_vec(alloc)?, failing(alloc, unread)?);
        let mut source = PieceSource::new(source, self.size);
        let Ok(sink) = MemorySink::with_room(alloc, 65536, failing(alloc, unwritten)?) else {
            return Err(AllocError);
        };
        let mut sink = PieceSink::new(sink, self.size);
        let status = run(alloc, self.words, &mut source, &mut sink);
        Ok(Outcome {
            status,
            written: sink.written().to_vec(alloc)?,
            reads: source.calls(),
            writes: sink.calls(),
        })
    }

    // Of how many reads the fault is the answer, and nothing is written.
    fn read_faults(&self, alloc: Global, reads: u64) -> Result<u64, AllocError> {
        let mut count: u64 = 0;
        for call in 0..reads {
            let cut = self.outcome(alloc, Some(call), None)?;
            if cut.status == Status::ReadFault && cut.written.is_empty() {
                count = count.saturating_add(1);
            }
        }
        Ok(count)
    }

    // Of how many writes the fault is the answer, and a front of the text is written, not all of it.
    fn write_faults(&self, alloc: Global, whole: &Outcome) -> Result<u64, AllocError> {
        let mut count: u64 = 0;
        for call in 0..whole.writes {
            let cut = self.outcome(alloc, None, Some(call))?;
            let is_cut = cut.written.len() < whole.written.len();
            if cut.status == Status::WriteFault
                && is_cut
                && whole.written.starts_with(&cut.written)
            {
                count = count.saturating_add(1);
            }
        }
        Ok(count)
    }
}

/// How the run ends where no call fails, and what becomes of it where one does.
pub fn faults_text(alloc: Global, trial: Trial<'_>) -> Result<String, AllocError> {
    let whole = trial.outcome(alloc, None, None)?;
    let unread = trial.read_faults(alloc, whole.reads)?;
    let unwritten = trial.write_faults(alloc, &whole)?;
    format!(in alloc;
        "{:?}\n{} reads, at {unread} of them ReadFault, nothing written\n{} writes, at {unwritten} of them WriteFault, a front written\n",
        whole.status, whole.reads, whole.writes,
    )
}
