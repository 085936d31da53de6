//! Files in memory.
ghost use Rattle.std.specs.Prelude.{◌≡◌, ◌≤◌, ◌<◌, ◌∷◌, [], Some, false, length, IfOk, OnOk, OnErr, IsErrOf, option_copied};
ghost use Rattle.std.specs.Option.{option_map};
ghost use Rattle.command_files.specs.Files.{HasFault, held_in, input_named, stored_in};

use crate::inputs::{FaultKind, InputError, Inputs};
use crate::outputs::{OutputError, Outputs};
use command_run::{MemorySource, ReadError, SureSource, read_within};
use std::alloc::{AllocError, Global};
use std::marker::Model;

/// An input in memory, with the calls of reading it that are to fail, counted from 0.
#[derive(Drop)]
pub struct NamedInput {
    name: Vec<u8>,
    bytes: Vec<u8>,
    failing: Vec<u64>,
}

impl Model for NamedInput {
    ghost use Rattle.command_files.specs.Files.{StoredInput};

    ghost Value = { StoredInput };

    ghost view = { λ i. record { name = i.name.items; bytes = i.bytes.items; failing = i.failing.items } };
}

impl NamedInput {
    /// The input of this name.
    pub fn new(name: Vec<u8>, bytes: Vec<u8>, failing: Vec<u64>) -> NamedInput
        ensures { result ≡ record { name = name.items; bytes = bytes.items; failing = failing.items } }
    {
        NamedInput {
            name,
            bytes,
            failing,
        }
    }

    /// Reads its bytes.
    fn read(&self, alloc: Global, limit: usize) -> Result<Vec<u8>, ReadError>
        ensures whole { IfOk result (λ bytes. bytes.items ≡ self.now.bytes) }
        ensures within { IfOk result (λ bytes. length bytes.items ≤ limit) }
        ensures too_long { IsErrOf result ReadError.TooLong → limit < length self.now.bytes }
        ensures fault { IsErrOf result ReadError.Fault → ¬ (self.now.failing ≡ []) }
    {
        let Ok(bytes) = Vec::from_slice(alloc, &self.bytes) else {
            return Err(ReadError::OutOfMemory);
        };
        if self.failing.is_empty() {
            let mut source = SureSource::new(bytes);
            return read_within(alloc, &mut source, limit);
        }
        let Ok(failing) = Vec::from_slice(alloc, &self.failing) else {
            return Err(ReadError::OutOfMemory);
        };
        let mut source = MemorySource::new(bytes, failing);
        read_within(alloc, &mut source, limit)
    }
}

/// Inputs in memory.
#[derive(Drop)]
pub struct MemoryInputs {
    inputs: Vec<NamedInput>,
}

impl Model for MemoryInputs {
    ghost use Rattle.std.specs.Prelude.{List};
    ghost use Rattle.command_files.specs.Files.{StoredInput};

    ghost Value = { List StoredInput };

    ghost view = { λ i. i.inputs.items };
}

impl MemoryInputs {
    /// These inputs. Of two with one name the first is read.
    pub fn new(inputs: Vec<NamedInput>) -> MemoryInputs
        ensures { result ≡ inputs.items }
    {
        MemoryInputs { inputs }
    }

    /// The input of a name.
    fn named(&self, name: &[u8]) -> Option<&NamedInput>
        ensures { option_copied result ≡ input_named self.now name.now }
    {
        self.inputs
            .iter()
            .find(|input| input.name.as_slice() == name)
    }
}

impl Inputs for MemoryInputs {
    ghost stored = { stored_in };

    ghost may_fail = { λ inputs name. HasFault (input_named inputs name) };

    fn read(&self, alloc: Global, name: &str, limit: usize) -> Result<Vec<u8>, InputError> {
        let Some(input) = self.named(name.as_bytes()) else {
            return Err(InputError::Fault(FaultKind::NotFound));
        };
        match input.read(alloc, limit) {
            Ok(bytes) => Ok(bytes),
            Err(ReadError::Fault) => Err(InputError::Fault(FaultKind::Other)),
            Err(ReadError::TooLong) => Err(InputError::TooLong),
            Err(ReadError::OutOfMemory) => Err(InputError::OutOfMemory),
        }
    }
}

/// A file in memory.
#[derive(Drop)]
struct NamedFile {
    name: Vec<u8>,
    bytes: Vec<u8>,
}

impl Model for NamedFile {
    ghost use Rattle.command_files.specs.Files.{HeldFile};

    ghost Value = { HeldFile };

    ghost view = { λ f. record { name = f.name.items; bytes = f.bytes.items } };
}

/// Files in memory that can be replaced, or can't.
#[derive(Drop)]
pub struct MemoryFiles {
    files: Vec<NamedFile>,
    is_writable: bool,
}

impl Model for MemoryFiles {
    ghost use Rattle.command_files.specs.Files.{HeldFiles};

    ghost Value = { HeldFiles };

    ghost view = { λ f. record { files = f.files.items; is_writable = f.is_writable } };
}

impl MemoryFiles {
    /// No file; whether files can be made and replaced.
    pub fn new(alloc: Global, is_writable: bool) -> MemoryFiles
        ensures { result ≡ record { files = []; is_writable = is_writable } }
    {
        MemoryFiles {
            files: Vec::new(alloc),
            is_writable,
        }
    }

    /// What is stored under a name.
    pub fn held(&self, name: &[u8]) -> Option<&[u8]>
        ensures { option_map (λ bytes. bytes.now) result ≡ held_in self.now.files name.now }
    {
        match self.files.iter().find(|file| file.name.as_slice() == name) {
            Some(file) => Some(file.bytes.as_slice()),
            None => None,
        }
    }

    /// Puts a file before the others.
    fn put(&mut self, alloc: Global, name: &[u8], text: &[u8]) -> Result<(), AllocError>
        ensures done { OnOk result (self.new ≡ record self.old { files = record { name = name.now; bytes = text.now } ∷ self.old.files }) }
        ensures kept { OnErr result (self.new ≡ self.old) }
    {
        let file = NamedFile {
            name: Vec::from_slice(alloc, name)?,
            bytes: Vec::from_slice(alloc, text)?,
        };
        self.files.insert(0, file)?;
        Ok(())
    }
}

impl Outputs for MemoryFiles {
    ghost held = { λ f. Some (held_in f.files) };

    ghost may_fail = { λ f name. f.is_writable ≡ false };

    fn replace(&mut self, alloc: Global, name: &str, text: &[u8]) -> Result<(), OutputError> {
        if !self.is_writable {
            return Err(OutputError::Fault);
        }
        match self.put(alloc, name.as_bytes(), text) {
            Ok(()) => Ok(()),
            Err(_) => Err(OutputError::OutOfMemory),
        }
    }
}
