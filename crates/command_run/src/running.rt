ghost use Rattle.std.specs.Prelude.{◌≡◌, ◌≢◌, ◌⊎◌, ◌↔◌, ◌≤◌, ℕ, List, Some, None, map, IfOk, OnOk, OnErr, IsOk, IsErrOf, false, string_bytes};
ghost use Rattle.std.specs.Io.KnownBytes.{Appends};
ghost use Rattle.command_run.specs.Io.{Rose, AppendsFront};
ghost use Rattle.command_run.specs.Run.{OnInput, Takes, Has, HasTooMuch, Decides, ReadsNothing, ReadsSome, ReadsUpTo, ReadsWhole, ReadsTooLong, AppendsBoth, AppendsFronts, input_limit};
ghost use Rattle.command_run.specs.Status.{EndsWith, status_of};
ghost use Rattle.command_run.specs.declared.status.Ending.{Ending};

use crate::command::{Answer, Command};
use crate::reading::{ReadError, read_within};
use crate::sink::Sink;
use crate::source::{Failed, Source};
use crate::status::Status;
use crate::writing::write_all;
use std::alloc::Global;

/// The longest input, in bytes.
const INPUT_LIMIT: usize = 1_048_576;

/// Reads what the command takes.
fn read_input<C: Command, S: Source>(
    alloc: Global,
    command: &C,
    source: &mut S,
) -> Result<Vec<u8>, ReadError>
    ensures input { IfOk result (λ input. Takes (S.left source.old) (S.left source.new) (C.reads command.now) input.items) }
    ensures too_long { IsErrOf result ReadError.TooLong →
        (front : List ℕ) × ReadsTooLong (S.left source.old) (S.left source.new) front }
    ensures fault { IsErrOf result ReadError.Fault → Rose (S.faults source.old) (S.faults source.new) }
    ensures in_time { IsErrOf result ReadError.Fault → ReadsUpTo input_limit (S.left source.old) (S.left source.new) }
    ensures taken { ReadsSome (S.left source.old) (S.left source.new) }
    ensures unread { C.reads command.now ≡ false → (source.new ≡ source.old) × IsOk result }
{
    if command.reads_input() {
        read_within(alloc, source, INPUT_LIMIT)
    } else {
        Ok(Vec::new(alloc))
    }
}

/// Writes the text, and then the complaint.
fn write_answer<K: Sink, L: Sink>(
    sink: &mut K,
    complaints: &mut L,
    answer: &Answer,
) -> Result<(), Failed>
    ensures text { OnOk result (Appends (K.written sink.old) (K.written sink.new) answer.now.text.items) }
    ensures complaint { OnOk result (Appends (L.written complaints.old) (L.written complaints.new) answer.now.complaint.items) }
    ensures text_front { AppendsFront (K.written sink.old) (K.written sink.new) answer.now.text.items }
    ensures complaint_front { AppendsFront (L.written complaints.old) (L.written complaints.new) answer.now.complaint.items }
    ensures fault { OnErr result (Rose (K.faults sink.old) (K.faults sink.new) ⊎ Rose (L.faults complaints.old) (L.faults complaints.new)) }
{
    write_all(sink, &answer.text)?;
    write_all(complaints, &answer.complaint)?;
    Ok(())
}

/// Makes the answer whole in memory, and then writes it.
fn respond<C: Command, K: Sink, L: Sink>(
    alloc: Global,
    command: &C,
    input: &[u8],
    sink: &mut K,
    complaints: &mut L,
) -> Status
    ensures whole { result ≢ Status.WriteFault → result ≢ Status.OutOfMemory → (ending : Ending) × (result ≡ status_of ending) ×
        AppendsBoth (K.written sink.old) (K.written sink.new) (L.written complaints.old) (L.written complaints.new) (C.gives command.now input.now ending) }
    ensures cut_short { result ≡ Status.WriteFault → (ending : Ending) ×
        AppendsFronts (K.written sink.old) (K.written sink.new) (L.written complaints.old) (L.written complaints.new) (C.gives command.now input.now ending) }
    ensures write_fault { result ≡ Status.WriteFault →
        Rose (K.faults sink.old) (K.faults sink.new) ⊎ Rose (L.faults complaints.old) (L.faults complaints.new) }
    ensures unwritten { result ≡ Status.OutOfMemory → (sink.new ≡ sink.old) × (complaints.new ≡ complaints.old) }
{
    let Ok(answer) = command.answer_to(alloc, input) else {
        return Status::OutOfMemory;
    };
    match write_answer(sink, complaints, &answer) {
        Ok(()) => answer.ending.status(),
        Err(Failed) => Status::WriteFault,
    }
}

/// Carries out the command that the words are: reads its input to the end, makes the answer whole in memory, and then
/// writes its text and its complaint. The statuses `Done`, `BadProfile` and `Refused` come once both were written whole.
pub fn run<C: Command, S: Source, K: Sink, L: Sink>(
    alloc: Global,
    words: &[String],
    source: &mut S,
    sink: &mut K,
    complaints: &mut L,
) -> Status
    ensures usage { (result ≡ Status.Usage) ↔ (C.command_of (map string_bytes words.now) ≡ None) }
    ensures untouched { result ≡ Status.Usage → source.new ≡ source.old }
    ensures read_fault { result ≡ Status.ReadFault → Rose (S.faults source.old) (S.faults source.new) }
    // Once the input is too long nothing more is read.
    ensures in_time { result ≡ Status.ReadFault → ReadsUpTo input_limit (S.left source.old) (S.left source.new) }
    ensures write_fault { result ≡ Status.WriteFault →
        Rose (K.faults sink.old) (K.faults sink.new) ⊎ Rose (L.faults complaints.old) (L.faults complaints.new) }
    ensures too_long { result ≡ Status.TooLong →
        (front : List ℕ) × ReadsTooLong (S.left source.old) (S.left source.new) front }
    // The whole input was taken, and its answer was written whole.
    ensures answered { (ending : Ending) → result ≡ status_of ending →
        OnInput (C.command_of (map string_bytes words.now))
        (λ command. Takes (S.left source.old) (S.left source.new) (C.reads command))
        (λ command input. AppendsBoth (K.written sink.old) (K.written sink.new) (L.written complaints.old) (L.written complaints.new) (C.gives command input ending)) }
    ensures cut_short { result ≡ Status.WriteFault →
        OnInput (C.command_of (map string_bytes words.now))
        (λ command. Takes (S.left source.old) (S.left source.new) (C.reads command))
        (λ command input. (ending : Ending) ×
        AppendsFronts (K.written sink.old) (K.written sink.new) (L.written complaints.old) (L.written complaints.new) (C.gives command input ending)) }
    ensures taken { ReadsSome (S.left source.old) (S.left source.new) }
    // A command that reads nothing leaves the source, and ends for no reason that lies there.
    ensures unread { ReadsNothing (C.command_of (map string_bytes words.now)) C.reads →
        (source.new ≡ source.old) × (result ≢ Status.ReadFault) × (result ≢ Status.TooLong) }
    ensures unwritten { result ≢ Status.Done → result ≢ Status.BadProfile → result ≢ Status.Refused →
        result ≢ Status.WriteFault → (sink.new ≡ sink.old) × (complaints.new ≡ complaints.old) }
    // What the source tells as left decides how it ends, but for reads and writes that fail and for memory.
    ensures decided { (wanted : Ending) →
        OnInput (C.command_of (map string_bytes words.now))
        (λ command. Has (S.left source.old) (C.reads command))
        (λ command input. Decides (C.gives command input) wanted) →
        (result ≡ Status.ReadFault) ⊎ (result ≡ Status.WriteFault) ⊎ EndsWith (status_of wanted) result }
    ensures overlong { HasTooMuch (C.command_of (map string_bytes words.now)) C.reads (S.left source.old) →
        (result ≡ Status.ReadFault) ⊎ EndsWith Status.TooLong result }
{
    let Some(command) = C::of_words(words) else {
        return Status::Usage;
    };
    match read_input(alloc, &command, source) {
        Ok(input) => respond(alloc, &command, &input, sink, complaints),
        Err(ReadError::Fault) => Status::ReadFault,
        Err(ReadError::TooLong) => Status::TooLong,
        Err(ReadError::OutOfMemory) => Status::OutOfMemory,
    }
}
