ghost use Rattle.std.specs.Prelude.{◌≡◌, ℕ, Bool, List, Option, IfOk, map, string_bytes};
ghost use Rattle.command_run.specs.declared.status.Ending.{Ending};

use crate::status::Ending;
use std::alloc::{AllocError, Global};

/// What is written of an input, and what that says of it.
#[derive(Drop)]
pub struct Answer {
    /// What it says.
    pub ending: Ending,
    /// What goes to the output.
    pub text: Vec<u8>,
    /// What goes beside it, as to the standard error.
    pub complaint: Vec<u8>,
}

/// What a program can be asked to do.
pub trait Command: Drop {
    /// The command that the words after the program's name are, by their bytes.
    ghost command_of: { List (List ℕ) → Option Self };

    /// Whether a command takes an input.
    ghost reads: { Self → Bool };

    /// Which text and complaint a command gives for an input, and with which ending.
    ghost gives: { Self → List ℕ → Ending → List ℕ → List ℕ → Type 0 };

    /// The command that the words after the program's name are.
    fn of_words(words: &[String]) -> Option<Self>
        ensures { result ≡ command_of (map string_bytes words.now) };

    /// Whether the command takes an input.
    fn reads_input(&self) -> bool
        ensures { result ≡ reads self.now };

    /// The answer to an input, which is empty where the command takes none.
    fn answer_to(&self, alloc: Global, input: &[u8]) -> Result<Answer, AllocError>
        ensures { IfOk result (λ answer. gives self.now input.now answer.ending answer.text.items answer.complaint.items) };
}
