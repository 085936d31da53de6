//! Reads files by their names.
use crate::halt::Halt;
use crate::told::shown_file;
use command_files::{ALL_LIMIT, FaultKind, InputError, InputName, Inputs};
use command_run::{Ending, Status};
use std::alloc::{AllocError, Global};

/// How many octets a file may have: 64 MiB.
const FILE_LIMIT: usize = 67_108_864;

/// Why a run ends without a step.
#[derive(Drop)]
pub(crate) enum End {
    /// With this status and this message.
    Told(Status, Vec<u8>),
    OutOfMemory,
}

impl From<AllocError> for End {
    fn from(_error: AllocError) -> End {
        End::OutOfMemory
    }
}

impl From<Halt> for End {
    fn from(halt: Halt) -> End {
        match halt {
            Halt::Said(Ending::BadProfile, text) => End::Told(Status::BadProfile, text),
            Halt::Said(_, text) => End::Told(Status::Refused, text),
            Halt::OutOfMemory => End::OutOfMemory,
        }
    }
}

/// With a status and a text that was made.
pub(crate) fn told(status: Status, text: Result<String, AllocError>) -> End {
    match text {
        Ok(text) => End::Told(status, text.into_bytes()),
        Err(_) => End::OutOfMemory,
    }
}

fn unread_text(kind: FaultKind) -> &'static str {
    match kind {
        FaultKind::NotFound => "no such file",
        FaultKind::PermissionDenied => "permission denied",
        FaultKind::Other => "can't be read",
    }
}

fn unread(alloc: Global, name: &str, error: InputError) -> End {
    let name = shown_file(name);
    match error {
        InputError::OutOfMemory => End::OutOfMemory,
        InputError::TooLong => told(
            Status::TooLong,
            format!(in alloc; "{name}: longer than it may be\n"),
        ),
        InputError::Fault(kind) => {
            let why = unread_text(kind);
            told(Status::ReadFault, format!(in alloc; "{name}: {why}\n"))
        }
    }
}

/// Reads a file, where so many octets are left.
fn read_one<I: Inputs>(
    alloc: Global,
    inputs: &I,
    name: &str,
    limit: usize,
) -> Result<Vec<u8>, End> {
    match inputs.read(alloc, name, limit) {
        Ok(octets) => Ok(octets),
        Err(error) => Err(unread(alloc, name, error)),
    }
}

/// Reads the files, each within its limit and all within theirs.
pub(crate) fn read_named<I: Inputs>(
    alloc: Global,
    inputs: &I,
    names: &[InputName],
) -> Result<Vec<Vec<u8>>, End> {
    let mut found = Vec::new(alloc);
    let mut left = ALL_LIMIT;
    for named in names {
        let octets = read_one(alloc, inputs, named.name(), named.limit().min(left))?;
        left = left.saturating_sub(octets.len());
        found.push(octets).map_err(|_| End::OutOfMemory)?;
    }
    Ok(found)
}

/// The inputs of these names.
pub(crate) fn input_names(alloc: Global, names: &[String]) -> Result<Vec<InputName>, AllocError> {
    let mut list = Vec::new(alloc);
    for name in names {
        let name = String::from_str(alloc, name.as_str())?;
        list.push(InputName::new(name, FILE_LIMIT))?;
    }
    Ok(list)
}
