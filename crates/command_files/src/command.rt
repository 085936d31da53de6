//! A program's commands.
ghost use Rattle.std.specs.Prelude.{◌≡◌, ℕ, List, Option, IfOk, map, string_bytes};
ghost use Rattle.std.specs.Option.{option_map};
ghost use Rattle.command_run.specs.declared.status.Ending.{Ending};
ghost use Rattle.command_files.specs.Run.{Named};

use crate::inputs::FaultKind;
use command_run::Answer;
use std::alloc::{AllocError, Global};
use std::marker::Model;

/// An input that a command reads.
#[derive(Drop)]
pub struct InputName {
    name: String,
    limit: usize,
}

impl Model for InputName {
    ghost use Rattle.std.specs.Prelude.{string_bytes};
    ghost use Rattle.command_files.specs.Run.{Named};

    ghost Value = { Named };

    ghost view = { λ i. record { name = string_bytes i.name; limit = i.limit } };
}

impl InputName {
    /// The input of this name, which may have so many bytes.
    pub fn new(name: String, limit: usize) -> InputName
        ensures { result ≡ record { name = string_bytes name; limit = limit } }
    {
        InputName { name, limit }
    }

    /// Its name.
    pub fn name(&self) -> &str
        ensures { result.now ≡ self.now.name }
    {
        self.name.as_str()
    }

    /// How many bytes it may have.
    pub fn limit(&self) -> usize
        ensures { result ≡ self.now.limit }
    {
        self.limit
    }
}

/// Why a command was stopped before its answer was there, or before it was written.
#[derive(Clone, Copy, Debug, PartialEq, Eq)]
pub enum Stop {
    /// The input at this place, from 0, can't be read.
    Unread(usize, FaultKind),
    /// The input at this place has more bytes than it may have.
    TooLong(usize),
    /// With the input at this place all inputs have more bytes than they may have.
    TooLongInAll(usize),
    /// A write to standard output or standard error failed.
    Unwritten,
    /// The file that takes the answer can't be written. It is as it was.
    Unreplaced,
}

/// What a program can be asked to do.
pub trait FileCommand: Drop {
    /// The command that the words after the program's name are, by their bytes.
    ghost command_of: { List (List ℕ) → Option Self };

    /// The inputs that a command reads, in order.
    ghost inputs_of: { Self → List Named };

    /// The name of the file that takes its text, where it isn't standard output that does.
    ghost target_of: { Self → Option (List ℕ) };

    /// Which text and complaint a command gives for its inputs, and with which ending.
    ghost gives: { Self → List (List ℕ) → Ending → List ℕ → List ℕ → Type 0 };

    /// The command that the words after the program's name are.
    fn of_words(alloc: Global, words: &[String]) -> Result<Option<Self>, AllocError>
        ensures { IfOk result (λ command. command ≡ command_of (map string_bytes words.now)) };

    /// The inputs that it reads, in order.
    fn inputs(&self) -> &[InputName]
        ensures { result.now ≡ inputs_of self.now };

    /// The name of the file that takes its text.
    fn target(&self) -> Option<&str>
        ensures { option_map (λ name. name.now) result ≡ target_of self.now };

    /// The answer to its inputs.
    fn answer_to(&self, alloc: Global, inputs: &[Vec<u8>]) -> Result<Answer, AllocError>
        ensures { IfOk result (λ answer. gives self.now (map (λ input. input.items) inputs.now) answer.ending answer.text.items answer.complaint.items) };

    /// What standard error is given of words that aren't a command.
    fn usage(alloc: Global, words: &[String]) -> Result<Vec<u8>, AllocError>;

    /// What standard error is given of a run that was stopped.
    fn stopped(&self, alloc: Global, stop: Stop) -> Result<Vec<u8>, AllocError>;
}
