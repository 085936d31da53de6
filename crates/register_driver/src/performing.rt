//! Records a step before anything of it is written.
ghost use Rattle.std.specs.Prelude.{◌≡◌, ◌≢◌, ◌⊎◌, false, IsTrue, IfSome, OnOk, OnErr};
ghost use Rattle.std.specs.Option.{option_map};
ghost use Rattle.sqlite_trees.specs.Tree.{Trees};
ghost use Rattle.sqlite_trees.specs.View.{IsClean};
ghost use Rattle.command_files.specs.Run.{Puts};
ghost use Rattle.register.specs.Registers.{HasRecord, IsOpenRegister};
ghost use Rattle.register_record.specs.Records.{after};
ghost use Rattle.register_driver.specs.Recorded.{IsRecorded, IsStillOpen, IsUntouched, append_text};

use crate::step::Step;
use crate::writing::written;
use command_files::Outputs;
use command_run::{Sink, Status, write_all};
use register::{AppendError, Register};
use register_record::Event;
use sqlite_trees::store::Alter;
use std::alloc::Global;

/// The status of a run whose event isn't recorded.
pub fn append_status(error: AppendError) -> Status
    ensures { result ≢ Status.Done }
{
    match error {
        AppendError::OutOfMemory => Status::OutOfMemory,
        AppendError::Store(_) | AppendError::Closed => Status::WriteFault,
        _ => Status::Refused,
    }
}

/// Why an event isn't recorded.
pub fn append_text(error: AppendError) -> &'static str
    ensures { result.now ≡ append_text error }
{
    match error {
        AppendError::NotNext => "register: the event may not follow; nothing is recorded\n",
        AppendError::NumberTooLarge => "register: the number of the list is too large\n",
        AppendError::Full => "register: there is no room for another event\n",
        AppendError::Closed => "register: a write failed before\n",
        AppendError::Store(_) => "register: it can't be written; run shelf register check\n",
        AppendError::OutOfMemory => "memory was refused\n",
    }
}

/// Adds the event of a step, where it has one.
fn append<S: Alter>(
    alloc: Global,
    register: &mut Register<S>,
    event: Option<Event>,
) -> Result<(), AppendError>
    requires { IsOpenRegister register.old.is_closed (S.Store.view register.old.store) register.old.record }
    ensures kept { IsOpenRegister register.new.is_closed (S.Store.view register.new.store) register.new.record }
    ensures ok { OnOk result (IsRecorded event register.old.record register.new.record) }
    ensures open { OnOk result (IsStillOpen event register.old.is_closed register.new.is_closed) }
    ensures same { OnErr result (register.new.is_closed ≡ false → register.new.record ≡ register.old.record) }
    ensures crash { IfSome event (λ e. register.old.is_closed ≡ false → IsClean (S.Store.view register.new.store) → IsTrue (S.Store.view register.old.store).is_open
        → (db : Trees) → S.Store.recovers register.new.store db → HasRecord (db 0) register.old.record ⊎ HasRecord (db 0) (after register.old.record e)) }
{
    let Some(event) = event else {
        return Ok(());
    };
    register.append(alloc, event)?;
    Ok(())
}

/// Records the event of a step, and then writes its answer: the first octet of it comes after the event
/// is in the store, where it stays over a crash. At any status the register has its record, with the event
/// or without.
pub fn perform<S: Alter, O: Outputs, K: Sink, L: Sink>(
    alloc: Global,
    register: &mut Register<S>,
    step: Step,
    outputs: &mut O,
    sink: &mut K,
    complaints: &mut L,
    target: Option<&str>,
) -> Status
    requires { IsOpenRegister register.old.is_closed (S.Store.view register.old.store) register.old.record }
    ensures kept { IsOpenRegister register.new.is_closed (S.Store.view register.new.store) register.new.record }
    ensures first { IsUntouched (O.held outputs.old) (O.held outputs.new) (K.written sink.old) (K.written sink.new)
        ⊎ IsRecorded step.event register.old.record register.new.record }
    ensures unchanged { register.new.is_closed ≡ false → (register.new.record ≡ register.old.record) ⊎ IsRecorded step.event register.old.record register.new.record }
    ensures open { IsUntouched (O.held outputs.old) (O.held outputs.new) (K.written sink.old) (K.written sink.new)
        ⊎ IsStillOpen step.event register.old.is_closed register.new.is_closed }
    ensures recorded { result ≡ Status.Done → IsRecorded step.event register.old.record register.new.record }
    ensures done { result ≡ Status.Done → IsStillOpen step.event register.old.is_closed register.new.is_closed }
    ensures written { result ≡ Status.Done → Puts (option_map (λ name. name.now) target.entry) (O.held outputs.old) (O.held outputs.new)
        (K.written sink.old) (K.written sink.new) step.answer.text.items }
    ensures crash { IfSome step.event (λ e. register.old.is_closed ≡ false → IsClean (S.Store.view register.new.store) → IsTrue (S.Store.view register.old.store).is_open
        → (db : Trees) → S.Store.recovers register.new.store db → HasRecord (db 0) register.old.record ⊎ HasRecord (db 0) (after register.old.record e)) }
{
    let Step { event, answer } = step;
    match append(alloc, register, event) {
        Ok(()) => written(alloc, outputs, sink, complaints, target, &answer),
        Err(error) => {
            let _told = write_all(complaints, append_text(error).as_bytes());
            append_status(error)
        }
    }
}
