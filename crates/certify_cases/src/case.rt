//! A case: what `certify` is run on, and what is looked at of what it writes.
use crate::faults::{Trial, faults_text};
use case_octets::octets_of;
use certify_core::{DropSink, MemorySink, MemorySource, Sink, Status, SureSource, run};
use std::alloc::{AllocError, Global};

/// A case, as its lines say it.
#[derive(Drop)]
struct Case<'a> {
    words: Vec<String>,
    front: Vec<u8>,
    text: &'a str,
    times: usize,
    unread: Vec<u64>,
    unwritten: Vec<u64>,
    room: usize,
    is_dropped: bool,
    pieces: Option<usize>,
    request: Vec<u8>,
    lines: &'a str,
}

// The words of a line, which spaces part.
fn words_of(alloc: Global, line: &str) -> Result<Vec<String>, AllocError> {
    let mut words = Vec::new(alloc);
    for word in line.split(' ') {
        if !word.is_empty() {
            words.push(String::from_str(alloc, word)?)?;
        }
    }
    Ok(words)
}

impl<'a> Case<'a> {
    // Of the words on a line, and of a text: no call fails, there is room enough, and every line is looked at.
    fn new(alloc: Global, line: &str, text: &'a str) -> Result<Case<'a>, AllocError> {
        Ok(Case {
            words: words_of(alloc, line)?,
            front: Vec::new(alloc),
            text,
            times: 1,
            unread: Vec::new(alloc),
            unwritten: Vec::new(alloc),
            room: 65536,
            is_dropped: false,
            pieces: None,
            request: Vec::new(alloc),
            lines: "",
        })
    }

    // With a further part of the first line: a name and a value. Other parts say nothing.
    fn set(&mut self, alloc: Global, part: &'a str) -> Result<(), AllocError> {
        let (name, value) = part.split_once(' ').unwrap_or((part, ""));
        match name {
            "bytes" => self.front = hex::decode(alloc, value.as_bytes()).unwrap_or(Vec::new(alloc)),
            "times" => self.times = value.parse().unwrap_or(1),
            "unread" => self.unread.push(value.parse().unwrap_or(0))?,
            "unwritten" => self.unwritten.push(value.parse().unwrap_or(0))?,
            "room" => self.room = value.parse().unwrap_or(0),
            "dropped" => self.is_dropped = true,
            "pieces" => self.pieces = value.parse().ok(),
            "request" => self.request = octets_of(alloc, value).unwrap_or(Vec::new(alloc)),
            "lines" => self.lines = value,
            _ => {}
        }
        Ok(())
    }

    // The input.
    fn input(&self, alloc: Global) -> Result<Vec<u8>, AllocError> {
        let mut input = self.front.clone()?;
        for _ in 0..self.times {
            input.extend_from_slice(self.text.as_bytes())?;
        }
        if !self.request.is_empty() {
            let digits = hex::encode(alloc, &self.request)?;
            let line = format!(in alloc; "\nrequest = \"{digits}\"")?;
            input.extend_from_slice(line.as_bytes())?;
        }
        Ok(input)
    }

    // How the run ends that writes into this sink.
    fn run_into<K: Sink>(&self, alloc: Global, sink: &mut K) -> Result<Status, AllocError> {
        let input = self.input(alloc)?;
        if self.unread.is_empty() {
            let mut source = SureSource::new(input);
            return Ok(run(alloc, &self.words, &mut source, sink));
        }
        let mut source = MemorySource::new(input, self.unread.clone()?);
        Ok(run(alloc, &self.words, &mut source, sink))
    }

    // What becomes of the run where a call of so many bytes at most fails, each in turn.
    fn faults(&self, alloc: Global, size: usize) -> Result<String, AllocError> {
        let input = self.input(alloc)?;
        let trial = Trial {
            words: self.words.as_slice(),
            input: input.as_slice(),
            size,
        };
        faults_text(alloc, trial)
    }

    // How the run ends, and what is kept of what it writes.
    fn run(&self, alloc: Global) -> Result<(Status, Vec<u8>), AllocError> {
        if self.is_dropped {
            let status = self.run_into(alloc, &mut DropSink::new())?;
            return Ok((status, Vec::new(alloc)));
        }
        let unwritten = self.unwritten.clone()?;
        let Ok(mut sink) = MemorySink::with_room(alloc, self.room, unwritten) else {
            return Err(AllocError);
        };
        let status = self.run_into(alloc, &mut sink)?;
        Ok((status, sink.written().to_vec(alloc)?))
    }
}

// The case that its lines say.
fn case_of<'a>(alloc: Global, head: &'a str, text: &'a str) -> Result<Case<'a>, AllocError> {
    let (line, parts) = head.split_once(" | ").unwrap_or((head, ""));
    let mut case = Case::new(alloc, line, text)?;
    for part in parts.split(" | ") {
        case.set(alloc, part)?;
    }
    Ok(case)
}

// Those lines of the text that begin so.
fn push_lines(answer: &mut String, text: &[u8], front: &str) -> Result<(), AllocError> {
    let Ok(text) = str::from_utf8(text) else {
        return Ok(());
    };
    for line in text.lines() {
        if line.starts_with(front) {
            answer.push_str(line)?;
            answer.push('\n')?;
        }
    }
    Ok(())
}

/// The first line of the case again, how the run ends, and the lines that are looked at.
pub fn answer_to(alloc: Global, case: &str) -> Result<String, AllocError> {
    let (head, text) = case.split_once('\n').unwrap_or((case, ""));
    let case = case_of(alloc, head, text)?;
    if let Some(size) = case.pieces {
        let faults = case.faults(alloc, size)?;
        return format!(in alloc; ">{head}\n{faults}");
    }
    let (status, written) = case.run(alloc)?;
    let mut answer = format!(in alloc; ">{head}\n{status:?}\n")?;
    push_lines(&mut answer, &written, case.lines)?;
    Ok(answer)
}
