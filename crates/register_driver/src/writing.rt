//! Writes an answer.
ghost use Rattle.std.specs.Prelude.{◌≡◌, ◌≢◌, IfErr, OnOk};
ghost use Rattle.std.specs.Option.{option_map};
ghost use Rattle.command_files.specs.Run.{Puts};

use command_files::{OutputError, Outputs};
use command_run::{Answer, Ending, Failed, Sink, Status, write_all};
use std::alloc::Global;

/// Puts the text into the file, or writes it to standard output.
fn put<O: Outputs, K: Sink>(
    alloc: Global,
    outputs: &mut O,
    sink: &mut K,
    target: Option<&str>,
    text: &[u8],
) -> Result<(), Status>
    ensures put { OnOk result (Puts (option_map (λ name. name.now) target.entry) (O.held outputs.old) (O.held outputs.new)
        (K.written sink.old) (K.written sink.new) text.now) }
    ensures failed { IfErr result (λ status. status ≢ Status.Done) }
{
    match target {
        Some(name) => match outputs.replace(alloc, name, text) {
            Ok(()) => Ok(()),
            Err(OutputError::Fault) => Err(Status::WriteFault),
            Err(OutputError::OutOfMemory) => Err(Status::OutOfMemory),
        },
        None => match write_all(sink, text) {
            Ok(()) => Ok(()),
            Err(Failed) => Err(Status::WriteFault),
        },
    }
}

/// What standard error is given where the answer can't be written.
const UNWRITTEN: &[u8] = b"writing failed; the register has what was recorded\n";

/// Writes the complaint, and then, of an answer that is done, puts the text where it belongs.
pub fn written<O: Outputs, K: Sink, L: Sink>(
    alloc: Global,
    outputs: &mut O,
    sink: &mut K,
    complaints: &mut L,
    target: Option<&str>,
    answer: &Answer,
) -> Status
    ensures { result ≡ Status.Done → Puts (option_map (λ name. name.now) target.entry) (O.held outputs.old) (O.held outputs.new)
        (K.written sink.old) (K.written sink.new) answer.now.text.items }
{
    if let Err(Failed) = write_all(complaints, &answer.complaint) {
        return Status::WriteFault;
    }
    match answer.ending {
        Ending::Done => match put(alloc, outputs, sink, target, &answer.text) {
            Ok(()) => Status::Done,
            Err(status) => {
                let _told = write_all(complaints, UNWRITTEN);
                status
            }
        },
        Ending::BadProfile => Status::BadProfile,
        Ending::Refused => Status::Refused,
    }
}
