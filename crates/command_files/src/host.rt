//! The files of the system.
ghost use Rattle.std.specs.Prelude.{◌≡◌, ◌≤◌, None, ⊤, length, IfOk, OnErr};

use crate::inputs::{FaultKind, InputError, Inputs};
use crate::outputs::{OutputError, Outputs};
use command_run::{Failed, ReadError, Source, StdSource, read_within};
use std::alloc::Global;
use std::fs::{File, OpenFile, OpenOptions};
use std::io::{ErrorKind, Read, Write};
use std::marker::Model;
use std::rt::Files;
use std::{fs, io};

/// A file that is read. It tells no bytes.
#[derive(Drop)]
struct FileSource<F: Read + Drop> {
    file: F,
    faults: u64,
}

impl<F: Read + Drop> Model for FileSource<F> {
    ghost use Rattle.std.specs.Prelude.{ℕ};

    ghost Value = { ℕ };

    ghost view = { λ s. s.faults };
}

impl<F: Read + Drop> Source for FileSource<F> {
    ghost faults = { λ s. s };

    ghost left = { λ _. None };

    fn read(&mut self, buf: &mut [u8]) -> Result<usize, Failed> {
        match self.file.read(buf) {
            Ok(count) => Ok(count),
            Err(_) => {
                self.faults = self.faults.saturating_add(1);
                Err(Failed)
            }
        }
    }
}

/// The files of the system, and standard input under the name `-`. What they hold isn't known to a contract.
#[derive(Drop)]
pub struct HostFiles<'a, R: Files + Input> {
    rt: &'a R,
}

impl<'a, R: Files + Input> HostFiles<'a, R> {
    /// The files of this runtime.
    pub fn new(rt: &'a R) -> HostFiles<'a, R> {
        HostFiles { rt }
    }
}

fn kind_of(error: &io::Error) -> FaultKind {
    match error.kind() {
        ErrorKind::NotFound => FaultKind::NotFound,
        ErrorKind::PermissionDenied => FaultKind::PermissionDenied,
        _ => FaultKind::Other,
    }
}

fn input_error(error: ReadError) -> InputError {
    match error {
        ReadError::Fault => InputError::Fault(FaultKind::Other),
        ReadError::TooLong => InputError::TooLong,
        ReadError::OutOfMemory => InputError::OutOfMemory,
    }
}

impl<'a, R: Files + Input> Inputs for HostFiles<'a, R> {
    ghost stored = { λ _ _. None };

    ghost may_fail = { λ _ _. ⊤ };

    fn read(&self, alloc: Global, name: &str, limit: usize) -> Result<Vec<u8>, InputError> {
        if name == "-" {
            let mut source = StdSource::new(self.rt);
            return read_within(alloc, &mut source, limit).map_err(input_error);
        }
        match File::open(self.rt, name) {
            Ok(file) => {
                let mut source = FileSource { file, faults: 0 };
                read_within(alloc, &mut source, limit).map_err(input_error)
            }
            Err(error) => Err(InputError::Fault(kind_of(&error))),
        }
    }
}

/// Whether a file of this name may be replaced: nothing has the name, or a regular file that may be written. A symbolic link is
/// neither followed nor replaced: it may be one that the system needs, such as /dev/stdout.
fn is_replaceable<R: Files>(rt: &R, name: &str) -> bool {
    match fs::symlink_metadata(rt, name) {
        Ok(there) => there.is_file() && OpenOptions::new().write(true).open(rt, name).is_ok(),
        Err(error) => error.kind() == ErrorKind::NotFound,
    }
}

/// How many names are tried for the file beside the one that is replaced.
const MOST_NAMES: u32 = 100;

/// A new file beside the one of this name, and its own name.
fn create_beside<R: Files>(
    rt: &R,
    alloc: Global,
    name: &str,
) -> Result<(R::File, String), OutputError> {
    for number in 0..MOST_NAMES {
        let Ok(beside) = format!(in alloc; "{name}.new{number}") else {
            return Err(OutputError::OutOfMemory);
        };
        match File::create_new(rt, beside.as_str()) {
            Ok(file) => return Ok((file, beside)),
            Err(error) if error.kind() == ErrorKind::AlreadyExists => {}
            Err(_) => return Err(OutputError::Fault),
        }
    }
    Err(OutputError::Fault)
}

/// Writes the whole text, and waits until it is on the disk.
fn fill<F: Write + OpenFile>(file: &mut F, text: &[u8]) -> io::Result<()> {
    file.write_all(text)?;
    file.sync_all()
}

/// The directory that a file of this name is in.
fn directory_of(name: &str) -> &str {
    match name.rsplit_once('/') {
        Some(("", _)) => "/",
        Some((directory, _)) => directory,
        None => ".",
    }
}

/// Waits until the names of a directory are on the disk, where the system can.
fn sync_names<R: Files>(rt: &R, directory: &str) {
    if let Ok(directory) = File::open(rt, directory) {
        let _synced = directory.sync_all();
    }
}

impl<'a, R: Files + Input> Outputs for HostFiles<'a, R> {
    ghost held = { λ _. None };

    ghost may_fail = { λ _ _. ⊤ };

    // The text is written to a new file beside the one of that name, which then takes its place. The system asks only whether the
    // directory may be written.
    fn replace(&mut self, alloc: Global, name: &str, text: &[u8]) -> Result<(), OutputError> {
        if !is_replaceable(self.rt, name) {
            return Err(OutputError::Fault);
        }
        let (mut file, beside) = create_beside(self.rt, alloc, name)?;
        let beside = beside.as_str();
        if fill(&mut file, text).is_ok() && fs::rename(self.rt, beside, name).is_ok() {
            sync_names(self.rt, directory_of(name));
            return Ok(());
        }
        let _removed = fs::remove_file(self.rt, beside);
        Err(OutputError::Fault)
    }
}
