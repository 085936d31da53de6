//! The program: a run over its words, files, standard input, standard output and standard error. `shelf --help` has the
//! subcommands.
#![tactic(auto)]

use command_files::{HostFiles, run};
use command_run::{Status, StdSink, words, write_all};
use register_files::HostKeeper;
use shelf_core::Program;
use shelf_register::{is_register, more_help};
use std::process::ExitCode;

/// Carries out what the words ask for.
fn carry_out(rt: &HostRuntime) -> Status {
    let words = match words(rt) {
        Ok(words) => words,
        Err(status) => {
            let _told = eprintln!(rt; "shelf: an argument isn't UTF-8, or memory was refused");
            return status;
        }
    };
    if is_register(&words) {
        return with_register(rt, &words);
    }
    let errors = rt.stderr();
    let inputs = HostFiles::new(rt);
    let mut outputs = HostFiles::new(rt);
    let mut sink = StdSink::new(rt);
    let mut complaints = StdSink::new(&errors);
    let status = run::<Program, _, _, _, _>(
        rt.alloc(),
        &words,
        &inputs,
        &mut outputs,
        &mut sink,
        &mut complaints,
    );
    let more = more_help(&words);
    if status != Status::Done || more.is_empty() {
        return status;
    }
    let is_written = write_all(&mut sink, b"\n").is_ok()
        && write_all(&mut sink, more.as_bytes()).is_ok();
    if is_written {
        status
    } else {
        Status::WriteFault
    }
}

/// The same with a register.
fn with_register(rt: &HostRuntime, words: &[String]) -> Status {
    let errors = rt.stderr();
    let inputs = HostFiles::new(rt);
    let mut outputs = HostFiles::new(rt);
    let mut keeper = HostKeeper::new(rt);
    let mut sink = StdSink::new(rt);
    let mut complaints = StdSink::new(&errors);
    shelf_register::run(
        rt.alloc(),
        words,
        &mut keeper,
        &inputs,
        &mut outputs,
        &mut sink,
        &mut complaints,
    )
}

fn main(rt: HostRuntime) -> ExitCode {
    ExitCode::from(carry_out(&rt).exit_code())
}
