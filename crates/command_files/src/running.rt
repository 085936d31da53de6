//! The run.
ghost use Rattle.std.specs.Prelude.{◌≡◌, ◌≢◌, ◌⊎◌, ◌≤◌, ℕ, List, Option, Some, None, map, min, length, IfOk, IfErr, OnOk, OnErr, string_bytes};
ghost use Rattle.std.specs.Option.{option_map};
ghost use Rattle.std.specs.Io.KnownBytes.{Appends};
ghost use Rattle.command_run.specs.Io.{AppendsFront};
ghost use Rattle.command_run.specs.Status.{EndsWith, status_of};
ghost use Rattle.command_run.specs.declared.status.Ending.{Ending};
ghost use Rattle.command_files.specs.Ends.{EndsReading, EndsWriting, IsEndStatus, end_status, status_of_stop};
ghost use Rattle.command_files.specs.Files.{IsLongerThan, IsStored};
ghost use Rattle.command_files.specs.Run.{AreKnown, AreRead, Decides, Delivers, IsCutShort, IsTooMuch, IsUnreadable, OnCommand, OnInputs, Puts, target_at};

use crate::command::{FileCommand, InputName, Stop};
use crate::inputs::{InputError, Inputs};
use crate::outputs::{OutputError, Outputs};
use command_run::{Answer, Ending, Failed, Sink, Status, write_all};
use std::alloc::{AllocError, AllocFailed, Global};

/// How many bytes all inputs of a run may have.
pub const ALL_LIMIT: usize = 268_435_456;

/// Why a run ends before there is an answer, or before it is delivered.
#[derive(Clone, Copy)]
enum End {
    OutOfMemory,
    Stopped(Stop),
}

impl From<AllocError> for End {
    ghost use Rattle.command_files.specs.declared.running.End.TheVariants.{OutOfMemory};

    ghost from_gives = { λ _ e. e ≡ OutOfMemory };

    fn from(_error: AllocError) -> End {
        End::OutOfMemory
    }
}

impl<T: Drop> From<AllocFailed<T>> for End {
    ghost use Rattle.command_files.specs.declared.running.End.TheVariants.{OutOfMemory};

    ghost from_gives = { λ _ e. e ≡ OutOfMemory };

    fn from(_error: AllocFailed<T>) -> End {
        End::OutOfMemory
    }
}

impl Stop {
    /// The status that a run ends with.
    fn status(self) -> Status
        ensures { result ≡ status_of_stop self }
    {
        match self {
            Stop::Unread(_, _) => Status::ReadFault,
            Stop::TooLong(_) | Stop::TooLongInAll(_) => Status::TooLong,
            Stop::Unwritten | Stop::Unreplaced => Status::WriteFault,
        }
    }
}

/// Reads the input at this place, where all inputs may still have so many bytes.
fn read_one<I: Inputs>(
    alloc: Global,
    inputs: &I,
    named: &InputName,
    place: usize,
    left: usize,
) -> Result<Vec<u8>, End>
    ensures whole { IfOk result (λ bytes. IsStored (I.stored inputs.now named.now.name) bytes.items) }
    ensures own { IfOk result (λ bytes. length bytes.items ≤ named.now.limit) }
    ensures all { IfOk result (λ bytes. length bytes.items ≤ left) }
    ensures too_long { IfErr result (λ end. end_status end ≡ Status.TooLong →
        IsLongerThan (min named.now.limit left) (I.stored inputs.now named.now.name)) }
    ensures fault { IfErr result (λ end. end_status end ≡ Status.ReadFault → I.may_fail inputs.now named.now.name) }
    ensures kinds { IfErr result (λ end. EndsReading (end_status end)) }
{
    let room = named.limit().min(left);
    match inputs.read(alloc, named.name(), room) {
        Ok(bytes) => Ok(bytes),
        Err(InputError::OutOfMemory) => Err(End::OutOfMemory),
        Err(InputError::Fault(kind)) => Err(End::Stopped(Stop::Unread(place, kind))),
        Err(InputError::TooLong) => {
            if named.limit() <= left {
                Err(End::Stopped(Stop::TooLong(place)))
            } else {
                Err(End::Stopped(Stop::TooLongInAll(place)))
            }
        }
    }
}

/// Reads the inputs, one after the other.
fn read_each<I: Inputs>(alloc: Global, inputs: &I, names: &[InputName]) -> Result<Vec<Vec<u8>>, End>
    ensures read { IfOk result (λ found. AreRead (I.stored inputs.now) names.now (map (λ bytes. bytes.items) found.items)) }
    ensures too_long { IfErr result (λ end. end_status end ≡ Status.TooLong → IsTooMuch (I.stored inputs.now) names.now) }
    ensures fault { IfErr result (λ end. end_status end ≡ Status.ReadFault → IsUnreadable (I.may_fail inputs.now) names.now) }
    ensures kinds { IfErr result (λ end. EndsReading (end_status end)) }
{
    let mut found = Vec::new(alloc);
    let mut left = ALL_LIMIT;
    for (place, named) in names.iter().enumerate() {
        let bytes = read_one(alloc, inputs, named, place, left)?;
        left -= bytes.len();
        found.push(bytes)?;
    }
    Ok(found)
}

/// Puts the text into the file, or writes it to standard output.
fn put<O: Outputs, K: Sink>(
    alloc: Global,
    outputs: &mut O,
    sink: &mut K,
    target: Option<&str>,
    text: &[u8],
) -> Result<(), End>
    ensures put { OnOk result (Puts (option_map (λ name. name.now) target.entry) (O.held outputs.old) (O.held outputs.new)
        (K.written sink.old) (K.written sink.new) text.now) }
    ensures front { OnErr result (AppendsFront (K.written sink.old) (K.written sink.new) text.now) }
    ensures held { OnErr result (O.held outputs.new ≡ O.held outputs.old) }
    ensures memory { IfErr result (λ end. end_status end ≡ Status.OutOfMemory → K.written sink.new ≡ K.written sink.old) }
    ensures kinds { IfErr result (λ end. EndsWriting (end_status end)) }
{
    match target {
        Some(name) => match outputs.replace(alloc, name, text) {
            Ok(()) => Ok(()),
            Err(OutputError::Fault) => Err(End::Stopped(Stop::Unreplaced)),
            Err(OutputError::OutOfMemory) => Err(End::OutOfMemory),
        },
        None => match write_all(sink, text) {
            Ok(()) => Ok(()),
            Err(Failed) => Err(End::Stopped(Stop::Unwritten)),
        },
    }
}

/// The name of the file that takes an answer's text: of one that is done alone.
fn target_at(ending: Ending, target: Option<&str>) -> Option<&str>
    ensures { option_map (λ name. name.now) result ≡ target_at ending (option_map (λ name. name.now) target.entry) }
{
    match ending {
        Ending::Done => target,
        Ending::BadProfile | Ending::Refused => None,
    }
}

/// Writes the complaint, and then puts the text where it belongs.
fn deliver<O: Outputs, K: Sink, L: Sink>(
    alloc: Global,
    outputs: &mut O,
    sink: &mut K,
    complaints: &mut L,
    target: Option<&str>,
    answer: &Answer,
) -> Result<(), End>
    ensures complaint { OnOk result (Appends (L.written complaints.old) (L.written complaints.new) answer.now.complaint.items) }
    ensures put { OnOk result (Puts (target_at answer.now.ending (option_map (λ name. name.now) target.entry)) (O.held outputs.old) (O.held outputs.new)
        (K.written sink.old) (K.written sink.new) answer.now.text.items) }
    ensures complaint_front { OnErr result (AppendsFront (L.written complaints.old) (L.written complaints.new) answer.now.complaint.items) }
    ensures front { OnErr result (AppendsFront (K.written sink.old) (K.written sink.new) answer.now.text.items) }
    ensures held { OnErr result (O.held outputs.new ≡ O.held outputs.old) }
    ensures memory { IfErr result (λ end. end_status end ≡ Status.OutOfMemory → K.written sink.new ≡ K.written sink.old) }
    ensures kinds { IfErr result (λ end. EndsWriting (end_status end)) }
{
    if let Err(Failed) = write_all(complaints, &answer.complaint) {
        return Err(End::Stopped(Stop::Unwritten));
    }
    let target = target_at(answer.ending, target);
    put(alloc, outputs, sink, target, &answer.text)?;
    Ok(())
}

/// Makes the answer whole in memory, and then delivers it.
fn respond<C: FileCommand, O: Outputs, K: Sink, L: Sink>(
    alloc: Global,
    command: &C,
    inputs: &[Vec<u8>],
    outputs: &mut O,
    sink: &mut K,
    complaints: &mut L,
) -> Result<Ending, End>
    ensures whole { IfOk result (λ ending. Delivers (C.gives command.now (map (λ bytes. bytes.items) inputs.now) ending)
        (target_at ending (C.target_of command.now)) (O.held outputs.old) (O.held outputs.new)
        (K.written sink.old) (K.written sink.new) (L.written complaints.old) (L.written complaints.new)) }
    ensures cut_short { IfErr result (λ end. end_status end ≡ Status.WriteFault → (ending : Ending) ×
        IsCutShort (C.gives command.now (map (λ bytes. bytes.items) inputs.now) ending) (O.held outputs.old) (O.held outputs.new)
        (K.written sink.old) (K.written sink.new) (L.written complaints.old) (L.written complaints.new)) }
    ensures held { OnErr result (O.held outputs.new ≡ O.held outputs.old) }
    ensures memory { IfErr result (λ end. end_status end ≡ Status.OutOfMemory → K.written sink.new ≡ K.written sink.old) }
    ensures kinds { IfErr result (λ end. EndsWriting (end_status end)) }
{
    let answer = command.answer_to(alloc, inputs)?;
    deliver(alloc, outputs, sink, complaints, command.target(), &answer)?;
    Ok(answer.ending)
}

/// Reads the command's inputs, makes its answer and delivers it.
fn carry_out<C: FileCommand, I: Inputs, O: Outputs, K: Sink, L: Sink>(
    alloc: Global,
    command: &C,
    inputs: &I,
    outputs: &mut O,
    sink: &mut K,
    complaints: &mut L,
) -> Result<Ending, End>
    ensures whole { IfOk result (λ ending. (given : List (List ℕ)) × AreRead (I.stored inputs.now) (C.inputs_of command.now) given
        × Delivers (C.gives command.now given ending) (target_at ending (C.target_of command.now)) (O.held outputs.old) (O.held outputs.new)
        (K.written sink.old) (K.written sink.new) (L.written complaints.old) (L.written complaints.new)) }
    ensures cut_short { IfErr result (λ end. end_status end ≡ Status.WriteFault →
        (given : List (List ℕ)) × AreRead (I.stored inputs.now) (C.inputs_of command.now) given
        × (ending : Ending) × IsCutShort (C.gives command.now given ending) (O.held outputs.old) (O.held outputs.new)
        (K.written sink.old) (K.written sink.new) (L.written complaints.old) (L.written complaints.new)) }
    ensures too_long { IfErr result (λ end. end_status end ≡ Status.TooLong → IsTooMuch (I.stored inputs.now) (C.inputs_of command.now)) }
    ensures fault { IfErr result (λ end. end_status end ≡ Status.ReadFault → IsUnreadable (I.may_fail inputs.now) (C.inputs_of command.now)) }
    ensures held { OnErr result (O.held outputs.new ≡ O.held outputs.old) }
    ensures output { IfErr result (λ end. end_status end ≢ Status.WriteFault → K.written sink.new ≡ K.written sink.old) }
    ensures kinds { IfErr result (λ end. IsEndStatus (end_status end)) }
{
    let given = read_each(alloc, inputs, command.inputs())?;
    let ending = respond(alloc, command, &given, outputs, sink, complaints)?;
    Ok(ending)
}

/// Gives standard error a text, where there is one. Whether it gets there is no matter.
fn tell<L: Sink>(complaints: &mut L, text: Result<Vec<u8>, AllocError>) {
    if let Ok(text) = text {
        let _told = write_all(complaints, &text);
    }
}

/// What standard error is given where memory is refused.
const NO_MEMORY: &[u8] = b"memory was refused\n";

/// Carries out the command that the words are: reads its inputs, makes its answer whole in memory, writes its complaint, and then
/// puts its text into the file that it names, or writes it to standard output. On any failure that file is as it was.
pub fn run<C: FileCommand, I: Inputs, O: Outputs, K: Sink, L: Sink>(
    alloc: Global,
    words: &[String],
    inputs: &I,
    outputs: &mut O,
    sink: &mut K,
    complaints: &mut L,
) -> Status
    ensures usage { result ≡ Status.Usage → C.command_of (map string_bytes words.now) ≡ None }
    ensures no_command { C.command_of (map string_bytes words.now) ≡ None → EndsWith Status.Usage result }
    // The inputs were read whole, and the answer was delivered whole.
    ensures answered { (ending : Ending) → result ≡ status_of ending →
        OnInputs (C.command_of (map string_bytes words.now)) (λ command. AreRead (I.stored inputs.now) (C.inputs_of command))
        (λ command given. Delivers (C.gives command given ending) (target_at ending (C.target_of command)) (O.held outputs.old) (O.held outputs.new)
        (K.written sink.old) (K.written sink.new) (L.written complaints.old) (L.written complaints.new)) }
    ensures read_fault { result ≡ Status.ReadFault →
        OnCommand (C.command_of (map string_bytes words.now)) (λ command. IsUnreadable (I.may_fail inputs.now) (C.inputs_of command)) }
    ensures too_long { result ≡ Status.TooLong →
        OnCommand (C.command_of (map string_bytes words.now)) (λ command. IsTooMuch (I.stored inputs.now) (C.inputs_of command)) }
    // Whatever isn't done leaves the file that is named as it was.
    ensures kept { result ≢ Status.Done → O.held outputs.new ≡ O.held outputs.old }
    ensures unwritten { result ≢ Status.Done → result ≢ Status.BadProfile → result ≢ Status.Refused → result ≢ Status.WriteFault →
        K.written sink.new ≡ K.written sink.old }
    // What is stored under the names decides how it ends, except for reads and writes that fail and for memory.
    ensures decided { (wanted : Ending) →
        OnInputs (C.command_of (map string_bytes words.now)) (λ command. AreKnown (I.stored inputs.now) (C.inputs_of command))
        (λ command given. Decides (C.gives command given) wanted) →
        (result ≡ Status.ReadFault) ⊎ (result ≡ Status.WriteFault) ⊎ EndsWith (status_of wanted) result }
{
    let command = match C::of_words(alloc, words) {
        Ok(Some(command)) => command,
        Ok(None) => {
            tell(complaints, C::usage(alloc, words));
            return Status::Usage;
        }
        Err(_) => {
            let _told = write_all(complaints, NO_MEMORY);
            return Status::OutOfMemory;
        }
    };
    match carry_out(alloc, &command, inputs, outputs, sink, complaints) {
        Ok(ending) => ending.status(),
        Err(End::OutOfMemory) => {
            let _told = write_all(complaints, NO_MEMORY);
            Status::OutOfMemory
        }
        Err(End::Stopped(stop)) => {
            tell(complaints, command.stopped(alloc, stop));
            stop.status()
        }
    }
}
