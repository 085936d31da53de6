//! Messages about wrong command lines and stopped runs.
use crate::request::Request;
use crate::word::word_named;
use command_files::{FaultKind, Stop};
use std::alloc::{AllocError, Global};

/// Whether a word is shown as it is: a short one of letters, digits and what file names have besides.
fn is_plain(word: &str) -> bool {
    !word.is_empty()
        && word.len() <= 60
        && word.bytes().all(|byte| byte.is_ascii_alphanumeric() || b"._/-+=".contains(&byte))
}

/// The word, or a placeholder.
fn shown(word: &str) -> &str {
    if is_plain(word) { word } else { "this" }
}

/// The message about words that aren't a command.
pub fn usage_text(alloc: Global, words: &[String]) -> Result<Vec<u8>, AllocError> {
    let Some(first) = words.first() else {
        return Vec::from_slice(alloc, b"shelf: no subcommand; shelf --help lists them\n");
    };
    let word = shown(first.as_str());
    let text = if word_named(first.as_str()).is_some() {
        format!(in alloc; "shelf {word}: wrong arguments; see shelf {word} --help\n")?
    } else {
        format!(in alloc; "shelf: {word} is an unknown subcommand; shelf --help lists them\n")?
    };
    Ok(text.into_bytes())
}

/// The name of an input as it is shown.
fn input_name<'a>(request: &'a Request, place: usize) -> &'a str {
    match request.inputs().get(place) {
        Some(input) if input.name() == "-" => "standard input",
        Some(input) if is_plain(input.name()) => input.name(),
        _ => "an input",
    }
}

/// The message about an input that can't be read.
fn unread_text(kind: FaultKind) -> &'static str {
    match kind {
        FaultKind::NotFound => "no such file",
        FaultKind::PermissionDenied => "permission denied",
        FaultKind::Other => "can't be read",
    }
}

/// The message about a run that was stopped.
pub fn stopped_text(alloc: Global, request: &Request, stop: Stop) -> Result<Vec<u8>, AllocError> {
    let text = match stop {
        Stop::Unread(place, kind) => {
            let (name, why) = (input_name(request, place), unread_text(kind));
            format!(in alloc; "{name}: {why}\n")?
        }
        Stop::TooLong(place) => {
            let name = input_name(request, place);
            let limit = request
                .inputs()
                .get(place)
                .map_or(0, |input| input.limit() / 1_048_576);
            format!(in alloc; "{name}: longer than {limit} MiB\n")?
        }
        Stop::TooLongInAll(place) => {
            let name = input_name(request, place);
            format!(in alloc; "{name}: all inputs together are longer than 256 MiB\n")?
        }
        Stop::Unwritten => String::from_str(alloc, "writing failed\n")?,
        Stop::Unreplaced => {
            String::from_str(
                alloc,
                "--out: the file can't be written, and is unchanged\n",
            )?
        }
    };
    Ok(text.into_bytes())
}
