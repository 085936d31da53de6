//! What a command answers to its input.
ghost use Rattle.std.specs.Prelude.{ℕ, List, ◌≢◌, IfOk};
ghost use Rattle.rcgen_text.specs.Causes.{Cause};
ghost use Rattle.attr_issue.specs.AttributeCauses.{AttributeCause};
ghost use Rattle.certify_core.specs.Answer.{AnswersWith};
ghost use Rattle.certify_core.specs.AttributeRefusals.{attribute_cause_name};
ghost use Rattle.certify_core.specs.Command.{Gives};
ghost use Rattle.certify_core.specs.Lines.{cause_name, key_name};
ghost use Rattle.certify_core.specs.Outcome.{HasOneAnswer};

use crate::command::Command;
use crate::refusal::Refusal;
use crate::text::{bad_profile_line, refused_line};
use command_run::{Answer, Ending};
use std::alloc::{AllocError, Global};

/// The answer to an input.
pub(crate) fn answer_to(alloc: Global, command: Command, input: &[u8]) -> Result<Answer, AllocError>
    ensures { IfOk result (λ answer. AnswersWith command input.now answer.ending answer.text.items answer.complaint.items) }
{
    let (ending, text) = match command.text(alloc, input) {
        Ok(text) => (Ending::Done, text),
        Err(Refusal::Reason(reason)) => (Ending::BadProfile, bad_profile_line(alloc, reason)?),
        Err(Refusal::Cause(name)) => (Ending::Refused, refused_line(alloc, &name)?),
        Err(Refusal::OutOfMemory) => return Err(AllocError),
    };
    let complaint = Vec::new(alloc);
    Ok(Answer {
        ending,
        text,
        complaint,
    })
}

/// A law: one status and one text are answered to what a command reads.
pub fn one_answer()
    ensures { (command : Command) (input : List ℕ) → HasOneAnswer (Gives command input) }
{}

/// A law: the name of no cause is that of the key's refusal, which `run` therefore never writes.
pub fn remote_key_error_is_no_cause()
    ensures causes { (c : Cause) → cause_name c ≢ key_name }
    ensures attribute_causes { (c : AttributeCause) → attribute_cause_name c ≢ key_name }
{}
