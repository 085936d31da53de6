//! What a run with a register is asked to do.
ghost use Rattle.std.specs.Prelude.{None, Some, IfOk, map, string_bytes};
ghost use Rattle.shelf_register.specs.Arguments.{Fits};
ghost use Rattle.shelf_register.specs.Commands.{Asks, IsOf, after_register, register_word};

use crate::arguments::{NO_SUBCOMMAND, line_text, misuse_in, misuse_text, no_register_text};
use crate::options::{Line, Opt, line_of};
use crate::word::{Word, other_word, register_word};
use std::alloc::{AllocError, Global};

/// A subcommand with its words.
#[derive(Drop)]
pub(crate) struct Asked {
    pub(crate) word: Word,
    /// The name of the register.
    pub(crate) register: String,
    pub(crate) line: Line,
}

/// What the words come to.
#[derive(Drop)]
pub(crate) enum Command {
    Run(Asked),
    HelpOn(Word),
    /// They are none: the message about them.
    Wrong(String),
}

/// Takes the name of the register out of the line.
fn register_of(alloc: Global, word: Word, line: &mut Line) -> Result<Option<String>, AllocError> {
    match word {
        Word::New | Word::Import | Word::Export | Word::Check => {
            if line.names.is_empty() {
                return Ok(None);
            }
            Ok(Some(line.names.remove(0)))
        }
        _ => match line.value(Opt::Register) {
            Some(name) => Ok(Some(String::from_str(alloc, name)?)),
            None => Ok(None),
        },
    }
}

/// The command of a line.
fn command_in(alloc: Global, word: Word, line: Line) -> Result<Command, AllocError>
    ensures asks { IfOk result (IsOf (Some word) (Some word)) }
    ensures fits { IfOk result Fits }
{
    let mut line = line;
    if line.has(Opt::Help) {
        return Ok(Command::HelpOn(word));
    }
    let Some(register) = register_of(alloc, word, &mut line)? else {
        return Ok(Command::Wrong(no_register_text(alloc, word)?));
    };
    match misuse_in(word, &line) {
        Some(found) => {
            let text = misuse_text(alloc, word, found)?;
            Ok(Command::Wrong(text))
        }
        None => Ok(Command::Run(Asked {
            word,
            register,
            line,
        })),
    }
}

fn command_on(alloc: Global, word: Word, words: &[String]) -> Result<Command, AllocError>
    ensures asks { IfOk result (IsOf (Some word) (Some word)) }
    ensures fits { IfOk result Fits }
{
    match line_of(alloc, word, words) {
        Ok(line) => {
            let command = command_in(alloc, word, line)?;
            Ok(command)
        }
        Err(error) => {
            let text = line_text(alloc, word, error)?;
            Ok(Command::Wrong(text))
        }
    }
}

fn no_subcommand(alloc: Global) -> Result<Command, AllocError>
    ensures asks { IfOk result (IsOf None None) }
    ensures fits { IfOk result Fits }
{
    let text = String::from_str(alloc, NO_SUBCOMMAND)?;
    Ok(Command::Wrong(text))
}

/// What the words of a subcommand ask for, if there is one.
fn command_if(alloc: Global, word: Option<Word>, words: &[String]) -> Result<Command, AllocError>
    ensures asks { IfOk result (IsOf word word) }
    ensures fits { IfOk result Fits }
{
    match word {
        Some(word) => command_on(alloc, word, words),
        None => no_subcommand(alloc),
    }
}

/// What the words after `register` and another word ask for.
fn after_register(alloc: Global, second: &str, rest: &[String]) -> Result<Command, AllocError>
    ensures asks { IfOk result (IsOf (register_word second.now) (after_register second.now)) }
    ensures fits { IfOk result Fits }
{
    if second == "--help" {
        return Ok(Command::HelpOn(Word::New));
    }
    command_if(alloc, register_word(second), rest)
}

/// What the words after the program's name ask for.
pub(crate) fn command_of(alloc: Global, words: &[String]) -> Result<Command, AllocError>
    ensures asks { IfOk result (Asks (map string_bytes words.now)) }
    ensures fits { IfOk result Fits }
{
    match words {
        [] => no_subcommand(alloc),
        [first] => command_if(alloc, other_word(first.as_str()), &[]),
        [first, second, rest @ ..] => {
            if first.as_str() == "register" {
                return after_register(alloc, second.as_str(), rest);
            }
            command_if(alloc, other_word(first.as_str()), &words[1..])
        }
    }
}
