//! Where inputs come from.
ghost use Rattle.std.specs.Prelude.{◌≡◌, ◌≤◌, ℕ, List, Option, length, IfOk, IsErrOf};
ghost use Rattle.command_files.specs.Files.{IsLongerThan, IsStored};

use std::alloc::Global;

/// Why an input can't be read.
#[derive(Clone, Copy, Debug, PartialEq, Eq)]
pub enum FaultKind {
    /// Nothing has this name.
    NotFound,
    /// It may not be read.
    PermissionDenied,
    /// It is a directory, or a read failed.
    Other,
}

/// Why an input was not read.
#[derive(Clone, Copy, Debug, PartialEq, Eq)]
pub enum InputError {
    /// It can't be opened, or a read failed.
    Fault(FaultKind),
    /// It has more bytes than its limit.
    TooLong,
    /// Memory was refused.
    OutOfMemory,
}

/// Inputs, each under a name.
pub trait Inputs {
    /// What the input of a name holds, where that is known.
    ghost stored: { Self → List ℕ → Option (List ℕ) };

    /// Whether the input of a name may fail to be read.
    ghost may_fail: { Self → List ℕ → Type 0 };

    /// Reads the input of this name to its end, or until it has more than `limit` bytes.
    fn read(&self, alloc: Global, name: &str, limit: usize) -> Result<Vec<u8>, InputError>
        ensures whole { IfOk result (λ bytes. IsStored (stored self.now name.now) bytes.items) }
        ensures within { IfOk result (λ bytes. length bytes.items ≤ limit) }
        ensures too_long { IsErrOf result InputError.TooLong → IsLongerThan limit (stored self.now name.now) }
        ensures fault { (kind : FaultKind) → IsErrOf result (InputError.Fault kind) → may_fail self.now name.now };
}
