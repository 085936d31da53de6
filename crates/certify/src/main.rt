//! The program: `run` over its words, standard input and standard output. `certify --help` lists the words.
#![tactic(auto)]

use certify_core::{Status, StdSink, StdSource, run, words};
use std::process::ExitCode;

/// Carries out the command that the words are.
fn carry_out(rt: &HostRuntime) -> Status {
    match words(rt) {
        Ok(words) => {
            let mut source = StdSource::new(rt);
            let mut sink = StdSink::new(rt);
            run(rt.alloc(), &words, &mut source, &mut sink)
        }
        Err(status) => status,
    }
}

fn main(rt: HostRuntime) -> ExitCode {
    ExitCode::from(carry_out(&rt).exit_code())
}
