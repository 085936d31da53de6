//! Runs: their words and files.
use crate::block;
use case_octets::{NamedOctets, octets_of};
use command_files::NamedInput;
use std::alloc::Global;

/// The words of a run, its files, and whether files can be written.
#[derive(Drop)]
pub struct Run {
    pub words: Vec<String>,
    pub inputs: Vec<NamedInput>,
    pub is_writable: bool,
}

// The words of a text, which spaces part.
fn words_of(alloc: Global, text: &str) -> Option<Vec<String>> {
    let mut words = Vec::new(alloc);
    for word in text.split(' ') {
        if !word.is_empty() {
            words.push(String::from_str(alloc, word).ok()?).ok()?;
        }
    }
    Some(words)
}

// The name of a file, and the numbers of the reads that fail.
fn name_of(alloc: Global, text: &str) -> Option<(Vec<u8>, Vec<u64>)> {
    let mut failing = Vec::new(alloc);
    let name = match text.split_once('!') {
        Some((name, number)) => {
            failing.push(number.parse::<u64>().ok()?).ok()?;
            name
        }
        None => text,
    };
    Some((Vec::from_slice(alloc, name.as_bytes()).ok()?, failing))
}

// A file of words.
fn file_of(alloc: Global, text: &str) -> Option<NamedInput> {
    let (name, octets) = text.split_once('=')?;
    let (name, failing) = name_of(alloc, name)?;
    Some(NamedInput::new(name, octets_of(alloc, octets)?, failing))
}

// The files of a text, which `; ` parts.
fn files_of(alloc: Global, text: &str) -> Option<Vec<NamedInput>> {
    let mut files = Vec::new(alloc);
    for file in text.split("; ") {
        if !file.is_empty() {
            files.push(file_of(alloc, file)?).ok()?;
        }
    }
    Some(files)
}

/// The run of a line.
pub fn run_of(alloc: Global, line: &str) -> Option<Run> {
    let (is_writable, line) = match line.strip_prefix("readonly ") {
        Some(rest) => (false, rest),
        None => (true, line),
    };
    let (words, files) = line.split_once(':')?;
    Some(Run {
        words: words_of(alloc, words)?,
        inputs: files_of(alloc, files.trim_start())?,
        is_writable,
    })
}

// A run of words on files of these octets.
fn run_on(alloc: Global, words: &str, inputs: Vec<NamedInput>) -> Option<Run> {
    Some(Run {
        words: words_of(alloc, words)?,
        inputs,
        is_writable: true,
    })
}

// A file that is read whole.
fn file(alloc: Global, name: &str, octets: Vec<u8>) -> Option<NamedInput> {
    let name = Vec::from_slice(alloc, name.as_bytes()).ok()?;
    Some(NamedInput::new(name, octets, Vec::new(alloc)))
}

/// A run of `explain` on the block of a label and octets.
pub fn explaining(alloc: Global, words: &str) -> Option<Run> {
    let text = block::one_block(alloc, words)?;
    let mut inputs = Vec::new(alloc);
    inputs.push(file(alloc, "-", text)?).ok()?;
    run_on(alloc, "explain", inputs)
}

/// A run of `path` on a question and blocks.
pub fn asking(alloc: Global, blocks: &NamedOctets, words: &str) -> Option<Run> {
    let (names, document) = words.split_once(' ')?;
    let mut inputs = Vec::new(alloc);
    let question = block::document(alloc, document)?;
    inputs.push(file(alloc, "question", question)?).ok()?;
    let text = block::text_of(alloc, blocks, names)?;
    inputs.push(file(alloc, "files", text)?).ok()?;
    run_on(alloc, "path question files", inputs)
}

/// A run of `lint` on blocks, with options.
pub fn linting(alloc: Global, blocks: &NamedOctets, words: &str) -> Option<Run> {
    let (names, options) = match words.split_once(' ') {
        Some(parts) => parts,
        None => (words, ""),
    };
    let mut inputs = Vec::new(alloc);
    let text = block::text_of(alloc, blocks, names)?;
    inputs.push(file(alloc, "files", text)?).ok()?;
    let words = format!(in alloc; "lint files {options}").ok()?;
    run_on(alloc, words.as_str(), inputs)
}
