//! A run of a program that reads one input and writes one answer: its words, where bytes come from and go to, how a run
//! ends, and `run` over the program's own commands.
#![tactic(auto)]

mod command;
mod command_line;
mod reading;
mod running;
mod sink;
mod source;
mod status;
mod writing;

pub use command::{Answer, Command};
pub use command_line::words;
pub use reading::{ReadError, read_within};
pub use running::run;
pub use sink::{DropSink, MemorySink, Sink, StdSink};
pub use source::{Failed, MemorySource, Source, StdSource, SureSource};
pub use status::{Ending, Status};
pub use writing::write_all;
