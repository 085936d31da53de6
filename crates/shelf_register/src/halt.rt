//! Why a step isn't made.
use asn1_core::OutOfMemory;
use command_run::Ending;
use std::alloc::{AllocError, AllocFailed, Global};

/// Why a step isn't made.
#[derive(Drop)]
pub(crate) enum Halt {
    /// The inputs aren't ones that the subcommand takes, or what is asked can't be done: the
    /// message.
    Said(Ending, Vec<u8>),
    OutOfMemory,
}

impl From<AllocError> for Halt {
    fn from(_error: AllocError) -> Halt {
        Halt::OutOfMemory
    }
}

impl<T: Drop> From<AllocFailed<T>> for Halt {
    fn from(_error: AllocFailed<T>) -> Halt {
        Halt::OutOfMemory
    }
}

impl From<OutOfMemory> for Halt {
    fn from(_error: OutOfMemory) -> Halt {
        Halt::OutOfMemory
    }
}

/// What is asked can't be done.
pub(crate) fn refused(alloc: Global, text: &str) -> Halt {
    said(alloc, Ending::Refused, text)
}

/// An input isn't one that the subcommand takes.
pub(crate) fn bad_input(alloc: Global, text: &str) -> Halt {
    said(alloc, Ending::BadProfile, text)
}

fn said(alloc: Global, ending: Ending, text: &str) -> Halt {
    match String::from_str(alloc, text) {
        Ok(text) => Halt::Said(ending, text.into_bytes()),
        Err(_) => Halt::OutOfMemory,
    }
}

/// What is asked can't be done, by a text that was made.
pub(crate) fn refused_with(text: Result<String, AllocError>) -> Halt {
    match text {
        Ok(text) => Halt::Said(Ending::Refused, text.into_bytes()),
        Err(_) => Halt::OutOfMemory,
    }
}

/// An input isn't one that the subcommand takes, by a text that was made.
pub(crate) fn bad_input_with(text: Result<String, AllocError>) -> Halt {
    match text {
        Ok(text) => Halt::Said(Ending::BadProfile, text.into_bytes()),
        Err(_) => Halt::OutOfMemory,
    }
}
