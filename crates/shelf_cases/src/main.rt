//! Cases of `shelf`, a line each: the words after the program's name, a colon and a space, and the files, which `; ` part, each as
//! `NAME=` and its octets in words of `case_octets`; `NAME!N=` is one whose read number N, from 0, fails. Written is how the run
//! ends, and what it writes in hex; where it doesn't end well, what standard error is given, its lines parted by ` / `. Of `--out out`
//! the file's octets are written after `out=`; where a line begins with `readonly ` no file can be written. A line that begins with `#`
//! says what the cases below it are, and is written as it is.
//!
//! What a run writes is text in three kinds of lines. `explain LABEL HEX` is a run on a block. `question NAMES DOCUMENT` is one of `path` on
//! a document, in which `;` is a line feed, and on the blocks of these names, which commas part (`-`: none), and `linting NAMES OPTIONS` is
//! one of `lint` on such blocks; `certificate NAME HEX`, `list NAME HEX`, of an issuer of lists `signer NAME HEX`, and `block NAME LABEL HEX`
//! give the names. `explanation LABEL HEX` asks the library, which takes labels
//! that no block has. `rules KIND HEX` asks the library which rules are broken by what is to be signed of a `certificate`, `request`,
//! `list` or `attribute` certificate, and `rules KIND HEX ISSUER` beside the certificate of its issuer: their names, or `-`.
#![tactic(auto)]

mod block;
mod files;

use crate::files::{Run, run_of};
use case_octets::NamedOctets;
use command_files::{MemoryFiles, MemoryInputs, run};
use command_run::{MemorySink, Status};
use shelf_core::Program;
use std::alloc::{AllocError, Global};
use std::{io, str};

/// How much a run may write.
const ROOM: usize = 65536;

fn main(rt: HostRuntime) -> io::Result<()> {
    let mut blocks = NamedOctets::new(rt.alloc());
    for line in rt.lines(rt.alloc()) {
        let line = line?;
        let line = line.as_str();
        if line.starts_with('#') {
            println!(rt; "{line}")?;
        } else if !is_kept(rt.alloc(), &mut blocks, line) {
            let answer = answer_to(rt.alloc(), &blocks, line)?;
            println!(rt; "{answer}")?;
        }
    }
    Ok(())
}

// Keeps the block that a line gives a name, and says whether it did.
fn is_kept(alloc: Global, blocks: &mut NamedOctets, line: &str) -> bool {
    if let Some(words) = line.strip_prefix("certificate ") {
        return block::keep(alloc, blocks, "CERTIFICATE", words).is_some();
    }
    if let Some(words) = line.strip_prefix("list ") {
        return block::keep(alloc, blocks, "X509 CRL", words).is_some();
    }
    if let Some(words) = line.strip_prefix("signer ") {
        return block::keep(alloc, blocks, "CRL ISSUER CERTIFICATE", words).is_some();
    }
    if let Some(words) = line.strip_prefix("block ") {
        return block::keep_labelled(alloc, blocks, words).is_some();
    }
    false
}

// What is said of a line.
fn answer_to(alloc: Global, blocks: &NamedOctets, line: &str) -> Result<String, AllocError> {
    if let Some(words) = line.strip_prefix("explain ") {
        return answer_in_text(alloc, files::explaining(alloc, words));
    }
    if let Some(words) = line.strip_prefix("explanation ") {
        return match block::explained(alloc, words) {
            Some(text) => Ok(text),
            None => format!(in alloc; "no octets"),
        };
    }
    if let Some(words) = line.strip_prefix("rules ") {
        return match block::rules(alloc, words) {
            Some(text) => Ok(text),
            None => format!(in alloc; "no octets"),
        };
    }
    if let Some(words) = line.strip_prefix("question ") {
        return answer_in_text(alloc, files::asking(alloc, blocks, words));
    }
    if let Some(words) = line.strip_prefix("linting ") {
        return answer_in_text(alloc, files::linting(alloc, blocks, words));
    }
    match run_of(alloc, line) {
        Some(run) => outcome(alloc, run, false),
        None => format!(in alloc; "no files"),
    }
}

// What is said of a run that writes text.
fn answer_in_text(alloc: Global, run: Option<Run>) -> Result<String, AllocError> {
    match run {
        Some(run) => outcome(alloc, run, true),
        None => format!(in alloc; "no blocks"),
    }
}

// How a run ends, and what it writes, in text or in hex, or says.
fn outcome(alloc: Global, given: Run, in_text: bool) -> Result<String, AllocError> {
    let Run {
        words,
        inputs,
        is_writable,
    } = given;
    let inputs = MemoryInputs::new(inputs);
    let mut outputs = MemoryFiles::new(alloc, is_writable);
    let mut sink = MemorySink::with_room(alloc, ROOM, Vec::new(alloc))?;
    let mut complaints = MemorySink::with_room(alloc, ROOM, Vec::new(alloc))?;
    let status = run::<Program, _, _, _, _>(
        alloc,
        &words,
        &inputs,
        &mut outputs,
        &mut sink,
        &mut complaints,
    );
    let mut text = shown(alloc, status, sink.written(), complaints.written(), in_text)?;
    if let Some(octets) = outputs.held(b"out") {
        text.push_str(" out=")?;
        text.push_str(hex::encode(alloc, octets)?.as_str())?;
    }
    Ok(text)
}

// What was written, in text or in hex.
fn written_text(alloc: Global, written: &[u8], in_text: bool) -> Result<String, AllocError> {
    if !in_text {
        let digits = hex::encode(alloc, written)?;
        return Ok(digits);
    }
    match str::from_utf8(written) {
        Ok(text) => String::from_str(alloc, text.trim_end()),
        Err(_) => String::from_str(alloc, "no text"),
    }
}

// The status, what was written, and what standard error was given.
fn shown(
    alloc: Global,
    status: Status,
    written: &[u8],
    told: &[u8],
    in_text: bool,
) -> Result<String, AllocError> {
    let mut text = format!(in alloc; "{status:?}")?;
    if !written.is_empty() {
        text.push(' ')?;
        text.push_str(written_text(alloc, written, in_text)?.as_str())?;
    }
    let Ok(told) = str::from_utf8(told) else {
        text.push_str(" no text")?;
        return Ok(text);
    };
    let told = told.trim_end().replace(alloc, "\n", " / ")?;
    if !told.is_empty() {
        text.push(' ')?;
        text.push_str(told.as_str())?;
    }
    Ok(text)
}
