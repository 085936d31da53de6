//! A run of a program over files: inputs that are read by their names, and an answer that is written to standard output or in
//! the place of a file.
#![tactic(auto)]

mod command;
mod host;
mod inputs;
mod memory;
mod outputs;
mod running;

pub use command::{FileCommand, InputName, Stop};
pub use host::HostFiles;
pub use inputs::{FaultKind, InputError, Inputs};
pub use memory::{MemoryFiles, MemoryInputs, NamedInput};
pub use outputs::{OutputError, Outputs};
pub use running::{ALL_LIMIT, run};
