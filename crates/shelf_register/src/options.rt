//! Options, and the other words after a subcommand.
ghost use Rattle.std.specs.Prelude.{◌≡◌};
ghost use Rattle.std.specs.Option.{option_map};
ghost use Rattle.shelf_register.specs.Options.{has, value_of};

use crate::word::Word;
use std::alloc::{AllocError, AllocFailed, Global};

/// An option.
#[derive(Clone, Copy, Debug, PartialEq, Eq)]
pub(crate) enum Opt {
    /// `--register FILE`
    Register,
    /// `--signature FILE`
    Signature,
    /// `--serial SERIAL`
    Serial,
    /// `--reason REASON`
    Reason,
    /// `--time TIME`
    Time,
    /// `--invalidity-date TIME`
    InvalidityDate,
    /// `--days DAYS`
    Days,
    /// `--digest DIGEST`
    Digest,
    /// `--points URI`
    Points,
    /// `--scope SCOPE`
    Scope,
    /// `--expires-within DAYS`
    ExpiresWithin,
    /// `--name TEXT`
    Name,
    /// `--out FILE`
    Out,
    /// `--list`
    List,
    /// `--delta`
    Delta,
    /// `--revoked`
    Revoked,
    /// `--on-hold`
    OnHold,
    /// `--pending`
    Pending,
    /// `--json`
    Json,
    /// `--pem`
    Pem,
    /// `--der`
    Der,
    /// `--strict`
    Strict,
    /// `--help`
    Help,
}

/// The option that the word is.
fn option_named(word: &str) -> Option<Opt> {
    match word {
        "--register" => Some(Opt::Register),
        "--signature" => Some(Opt::Signature),
        "--serial" => Some(Opt::Serial),
        "--reason" => Some(Opt::Reason),
        "--time" => Some(Opt::Time),
        "--invalidity-date" => Some(Opt::InvalidityDate),
        "--days" => Some(Opt::Days),
        "--digest" => Some(Opt::Digest),
        "--points" => Some(Opt::Points),
        "--scope" => Some(Opt::Scope),
        "--expires-within" => Some(Opt::ExpiresWithin),
        "--name" => Some(Opt::Name),
        "--out" => Some(Opt::Out),
        _ => flag_named(word),
    }
}

/// The option without a value that the word is.
fn flag_named(word: &str) -> Option<Opt> {
    match word {
        "--list" => Some(Opt::List),
        "--delta" => Some(Opt::Delta),
        "--revoked" => Some(Opt::Revoked),
        "--on-hold" => Some(Opt::OnHold),
        "--pending" => Some(Opt::Pending),
        "--json" => Some(Opt::Json),
        "--pem" => Some(Opt::Pem),
        "--der" => Some(Opt::Der),
        "--strict" => Some(Opt::Strict),
        "--help" => Some(Opt::Help),
        _ => None,
    }
}

impl Opt {
    /// Whether the next word is its value.
    fn takes_value(self) -> bool {
        match self {
            Opt::List | Opt::Delta | Opt::Revoked | Opt::OnHold | Opt::Pending => false,
            Opt::Json | Opt::Pem | Opt::Der | Opt::Strict | Opt::Help => false,
            _ => true,
        }
    }
}

impl Word {
    /// Whether the option is one of the subcommand's.
    fn takes(self, option: Opt) -> bool {
        if option == Opt::Help {
            return true;
        }
        match self {
            Word::New | Word::Import | Word::Check => false,
            Word::Export => option == Opt::Out,
            Word::Tbs => matches!(option, Opt::Register | Opt::Strict | Opt::Out),
            Word::Seal => matches!(
                option,
                Opt::Register | Opt::Signature | Opt::Serial | Opt::List | Opt::Der | Opt::Out
            ),
            Word::Revoke => matches!(
                option,
                Opt::Register | Opt::Serial | Opt::Reason | Opt::Time | Opt::InvalidityDate
            ),
            Word::List => is_of_list(option),
            Word::Find => is_of_find(option),
            Word::Renew => matches!(option, Opt::Register | Opt::Serial | Opt::Days | Opt::Out),
        }
    }
}

fn is_of_list(option: Opt) -> bool {
    matches!(
        option,
        Opt::Register
            | Opt::Days
            | Opt::Delta
            | Opt::Time
            | Opt::Digest
            | Opt::Points
            | Opt::Scope
            | Opt::Strict
            | Opt::Out
    )
}

fn is_of_find(option: Opt) -> bool {
    matches!(
        option,
        Opt::Register
            | Opt::Serial
            | Opt::Name
            | Opt::ExpiresWithin
            | Opt::Revoked
            | Opt::OnHold
            | Opt::Pending
            | Opt::Json
            | Opt::Pem
            | Opt::Out
    )
}

/// An option with its value, which is empty where it takes none.
#[derive(Drop)]
pub(crate) struct Given {
    pub(crate) option: Opt,
    pub(crate) value: String,
}

/// The words after a subcommand.
#[derive(Drop)]
pub(crate) struct Line {
    /// The names of files, in order.
    pub(crate) names: Vec<String>,
    pub(crate) given: Vec<Given>,
}

#[tactic(auto, unfolding(crate::specs::Options::value_of))]
fn value_in(given: &[Given], option: Opt) -> Option<&str>
    ensures { option_map (λ value. value.now) result ≡ value_of option given.now }
{
    for one in given {
        if one.option == option {
            return Some(one.value.as_str());
        }
    }
    None
}

impl Line {
    /// The value of an option that is given.
    pub(crate) fn value(&self, option: Opt) -> Option<&str>
        ensures { option_map (λ value. value.now) result ≡ value_of option self.now.given.items }
    {
        value_in(self.given.as_slice(), option)
    }

    /// Whether the option is given.
    pub(crate) fn has(&self, option: Opt) -> bool
        ensures { result ≡ has option self.now.given.items }
    {
        self.value(option).is_some()
    }

    fn push(&mut self, alloc: Global, option: Opt, value: &str) -> Result<(), AllocError> {
        let value = String::from_str(alloc, value)?;
        self.given.push(Given { option, value })?;
        Ok(())
    }
}

/// Whether the word has the form of an option: a hyphen-minus and more.
fn is_option(word: &str) -> bool {
    matches!(word.as_bytes(), [b'-', _, ..])
}

/// Why words aren't options and files of a subcommand: the option, where it is one's fault.
#[derive(Drop)]
pub(crate) enum LineError {
    /// It isn't one of the subcommand's.
    Unknown(String),
    /// It is given twice.
    Twice(String),
    /// Its value is missing.
    NoValue(String),
    OutOfMemory,
}

impl From<AllocError> for LineError {
    fn from(_error: AllocError) -> LineError {
        LineError::OutOfMemory
    }
}

impl<T: Drop> From<AllocFailed<T>> for LineError {
    fn from(_error: AllocFailed<T>) -> LineError {
        LineError::OutOfMemory
    }
}

/// The option that may come now: one of the subcommand's, and only once.
fn allowed(alloc: Global, word: Word, line: &Line, text: &str) -> Result<Opt, LineError> {
    match option_named(text) {
        Some(option) if word.takes(option) => {
            if line.has(option) {
                return Err(LineError::Twice(String::from_str(alloc, text)?));
            }
            Ok(option)
        }
        _ => Err(LineError::Unknown(String::from_str(alloc, text)?)),
    }
}

/// The last word, which is an option without its value.
fn no_value(alloc: Global, words: &[String]) -> LineError {
    let option = match words.last() {
        Some(word) => word.as_str(),
        None => "",
    };
    match String::from_str(alloc, option) {
        Ok(option) => LineError::NoValue(option),
        Err(_) => LineError::OutOfMemory,
    }
}

/// The line of the words.
pub(crate) fn line_of(alloc: Global, word: Word, words: &[String]) -> Result<Line, LineError> {
    let mut line = Line {
        names: Vec::new(alloc),
        given: Vec::new(alloc),
    };
    let mut awaited = None;
    let mut is_ended = false;
    for text in words {
        let text = text.as_str();
        if let Some(option) = awaited {
            line.push(alloc, option, text)?;
            awaited = None;
        } else if is_ended || !is_option(text) {
            line.names.push(String::from_str(alloc, text)?)?;
        } else if text == "--" {
            is_ended = true;
        } else {
            let option = allowed(alloc, word, &line, text)?;
            if option.takes_value() {
                awaited = Some(option);
            } else {
                line.push(alloc, option, "")?;
            }
        }
    }
    if awaited.is_some() {
        return Err(no_value(alloc, words));
    }
    Ok(line)
}
