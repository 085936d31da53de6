//! Where an answer is put that isn't written to standard output.
ghost use Rattle.std.specs.Prelude.{◌≡◌, ℕ, List, Option, OnOk, OnErr, IsErrOf};
ghost use Rattle.command_files.specs.Files.{Replaces};

use std::alloc::Global;

/// Why a file was not replaced. It is as it was.
#[derive(Clone, Copy, Debug, PartialEq, Eq)]
pub enum OutputError {
    /// It can't be made, or a write failed.
    Fault,
    /// Memory was refused.
    OutOfMemory,
}

/// Files, each under a name.
pub trait Outputs {
    /// What is stored under each name, where that is known: nothing, or the bytes.
    ghost held: { Self → Option (List ℕ → Option (List ℕ)) };

    /// Whether the file of a name may fail to be replaced.
    ghost may_fail: { Self → List ℕ → Type 0 };

    /// Replaces what is stored under a name by a text: by the whole text, or, on any failure, not at all.
    fn replace(&mut self, alloc: Global, name: &str, text: &[u8]) -> Result<(), OutputError>
        ensures done { OnOk result (Replaces (held self.old) (held self.new) name.now text.now) }
        ensures kept { OnErr result (held self.new ≡ held self.old) }
        ensures fault { IsErrOf result OutputError.Fault → may_fail self.old name.now };
}
