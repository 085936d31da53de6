//! Reads a source to its end.
ghost use Rattle.std.specs.Prelude.{◌≤◌, ◌+◌, ℕ, List, IfOk, IsErrOf};
ghost use Rattle.command_run.specs.Io.{Rose};
ghost use Rattle.command_run.specs.Run.{ReadsBeyond, ReadsUpTo, ReadsWithin};

use crate::source::{Failed, Source};
use std::alloc::Global;

/// How many bytes are asked for at once.
const CHUNK: usize = 4096;

/// Why an input was not read.
#[derive(Clone, Copy, Debug, PartialEq, Eq)]
pub enum ReadError {
    /// A read failed.
    Fault,
    /// The input has more bytes than its limit.
    TooLong,
    /// Memory was refused.
    OutOfMemory,
}

/// Reads to the end, or until the input has more than `limit` bytes: then one byte more was taken.
pub fn read_within<S: Source>(
    alloc: Global,
    source: &mut S,
    limit: usize,
) -> Result<Vec<u8>, ReadError>
    ensures whole { IfOk result (λ input. ReadsWithin limit (S.left source.old) (S.left source.new) input.items) }
    ensures too_long { IsErrOf result ReadError.TooLong →
        (front : List ℕ) × ReadsBeyond limit (S.left source.old) (S.left source.new) front }
    ensures fault { IsErrOf result ReadError.Fault → Rose (S.faults source.old) (S.faults source.new) }
    ensures in_time { IsErrOf result ReadError.Fault → ReadsUpTo limit (S.left source.old) (S.left source.new) }
    ensures count { S.faults source.old ≤ S.faults source.new }
    ensures taken { ReadsUpTo (limit + 1) (S.left source.old) (S.left source.new) }
{
    let mut input = Vec::new(alloc);
    let mut chunk = [0u8; CHUNK];
    while input.len() <= limit {
        let room = (limit - input.len()).min(CHUNK - 1) + 1;
        if input.reserve(room).is_err() {
            return Err(ReadError::OutOfMemory);
        }
        let count = match source.read(&mut chunk[..room]) {
            Ok(count) => count,
            Err(Failed) => return Err(ReadError::Fault),
        };
        if count == 0 {
            return Ok(input);
        }
        input.extend_from_slice(&chunk[..count]).unwrap();
    }
    Err(ReadError::TooLong)
}
