//! The subcommands of `shelf` that keep a register: their command line, what each comes to on a record,
//! and a run that records a step before anything of it is written.
#![tactic(auto)]

mod arguments;
mod asked;
mod checking;
mod creating;
mod exporting;
mod finding;
mod halt;
mod importing;
mod issuing;
mod listing;
mod missing;
mod named;
mod numbers;
mod opening;
mod options;
mod reading;
mod renewing;
mod requests;
mod revoking;
mod running;
mod sealing;
mod subject;
mod text;
mod times;
mod told;
mod validity;
mod word;

pub use running::run;
pub use text::more_help;
pub use word::is_register;
