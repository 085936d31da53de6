ghost use Rattle.std.specs.Prelude.{◌≡◌, ◌≢◌, ◌⊎◌, ◌↔◌, ℕ, List, None, map, string_bytes};
ghost use Rattle.command_run.specs.Io.{Rose};
ghost use Rattle.command_run.specs.Run.{ReadsSome, ReadsTooLong, ReadsUpTo, input_limit};
ghost use Rattle.command_run.specs.Status.{EndsWith};
ghost use Rattle.certify_core.specs.Answer.{Answered, CutShort};
ghost use Rattle.certify_core.specs.Command.{command_of, Gives};
ghost use Rattle.certify_core.specs.Outcome.{Decides};
ghost use Rattle.certify_core.specs.Run.{OnInput, Has, HasTooMuch, ReadsNothing};

use crate::command::Command;
use command_run::{DropSink, Sink, Source, Status};
use std::alloc::Global;

/// Carries out the command that the words are: reads its input to the end, makes the answer whole in memory, and then
/// writes it. The statuses `Done`, `BadProfile` and `Refused` come once the text or the line was written whole.
pub fn run<S: Source, K: Sink>(
    alloc: Global,
    words: &[String],
    source: &mut S,
    sink: &mut K,
) -> Status
    ensures usage { (result ≡ Status.Usage) ↔ (command_of (map string_bytes words.now) ≡ None) }
    ensures untouched { result ≡ Status.Usage → (source.new ≡ source.old) × (sink.new ≡ sink.old) }
    ensures read_fault { result ≡ Status.ReadFault → Rose (S.faults source.old) (S.faults source.new) }
    // Once the input is too long nothing more is read.
    ensures in_time { result ≡ Status.ReadFault → ReadsUpTo input_limit (S.left source.old) (S.left source.new) }
    ensures write_fault { result ≡ Status.WriteFault → Rose (K.faults sink.old) (K.faults sink.new) }
    ensures too_long { result ≡ Status.TooLong →
        (front : List ℕ) × ReadsTooLong (S.left source.old) (S.left source.new) front }
    ensures bad_profile { result ≡ Status.BadProfile →
        Answered (map string_bytes words.now) (S.left source.old) (S.left source.new) (K.written sink.old) (K.written sink.new) Status.BadProfile }
    ensures refused { result ≡ Status.Refused →
        Answered (map string_bytes words.now) (S.left source.old) (S.left source.new) (K.written sink.old) (K.written sink.new) Status.Refused }
    ensures done { result ≡ Status.Done →
        Answered (map string_bytes words.now) (S.left source.old) (S.left source.new) (K.written sink.old) (K.written sink.new) Status.Done }
    ensures cut_short { result ≡ Status.WriteFault → CutShort (map string_bytes words.now) (S.left source.old) (S.left source.new) (K.written sink.old) (K.written sink.new) }
    ensures taken { ReadsSome (S.left source.old) (S.left source.new) }
    // A command that reads nothing leaves the source, and ends for no reason that lies there.
    ensures unread { ReadsNothing (map string_bytes words.now) →
        (source.new ≡ source.old) × (result ≢ Status.ReadFault) × (result ≢ Status.TooLong) }
    // Nothing prevents it: it ends with its text, by a failed write, or for lack of memory.
    ensures silent { ReadsNothing (map string_bytes words.now) → (result ≡ Status.WriteFault) ⊎ EndsWith Status.Done result }
    ensures unwritten { result ≢ Status.Done → result ≢ Status.BadProfile → result ≢ Status.Refused →
        result ≢ Status.WriteFault → sink.new ≡ sink.old }
    // Where no read and no write fails, what the source reports as left decides how it ends, but for memory.
    ensures decided { (wanted : Status) → OnInput (map string_bytes words.now) (Has (S.left source.old))
        (λ command input. Decides (Gives command input) wanted) →
        ¬ (Rose (S.faults source.old) (S.faults source.new)) → ¬ (Rose (K.faults sink.old) (K.faults sink.new)) →
        EndsWith wanted result }
    ensures overlong { HasTooMuch (map string_bytes words.now) (S.left source.old) →
        ¬ (Rose (S.faults source.old) (S.faults source.new)) →
        EndsWith Status.TooLong result }
{
    let mut complaints = DropSink::new();
    command_run::run::<Command, S, K, DropSink>(alloc, words, source, sink, &mut complaints)
}
