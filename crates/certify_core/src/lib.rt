//! The words of the program `certify`: what each reads, what it writes, and the status that it ends with.
#![tactic(auto)]

mod accept;
mod answer;
mod attribute;
mod bulk;
mod cause_name;
mod check;
mod command;
mod count;
mod document;
mod issue;
mod list;
mod listing;
mod params;
mod refusal;
mod request;
mod restore;
mod revoked;
mod running;
mod script;
mod show;
mod text;

pub use answer::{one_answer, remote_key_error_is_no_cause};
pub use command::bulk_words;
pub use command_run::{
    DropSink, Failed, MemorySink, MemorySource, Sink, Source, Status, StdSink, StdSource,
    SureSource, words,
};
pub use running::run;
