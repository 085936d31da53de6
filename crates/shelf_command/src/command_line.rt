//! The words after a subcommand: options, and names of files.
ghost use Rattle.std.specs.Prelude.{◌≡◌, IfOk, is_some, map, string_bytes};
ghost use Rattle.shelf_command.specs.CommandLines.{is_option, line_of, no_line, option_named, step, with_name, with_option, with_value};

use std::alloc::{AllocError, Global};
use std::marker::Model;

/// An option.
#[derive(Clone, Copy, Debug, PartialEq, Eq)]
pub(crate) enum Opt {
    /// `--signature FILE`
    Signature,
    /// `--revoked FILE`
    Revoked,
    /// `--order ORDER`
    Order,
    /// `--out FILE`
    Out,
    /// `--der`
    Der,
    /// `--strict`
    Strict,
    /// `--json`
    Json,
    /// `--help`
    Help,
    /// `--`: what comes after it is names of files.
    End,
}

/// What was read of the words after a subcommand.
#[derive(Drop)]
pub(crate) struct Line {
    /// The names of files, in order.
    pub(crate) names: Vec<String>,
    pub(crate) signature: Option<String>,
    pub(crate) revoked: Option<String>,
    pub(crate) order: Option<String>,
    pub(crate) out: Option<String>,
    pub(crate) is_der: bool,
    pub(crate) is_strict: bool,
    pub(crate) is_json: bool,
    pub(crate) is_help: bool,
    /// Whether `--` came.
    pub(crate) is_ended: bool,
    /// The option whose value is the next word.
    pub(crate) awaited: Option<Opt>,
}

impl Model for Line {
    ghost use Rattle.std.specs.Prelude.{map, string_bytes};
    ghost use Rattle.std.specs.Option.{option_map};
    ghost use Rattle.shelf_command.specs.Lines.{LineView};

    ghost Value = { LineView };

    ghost view = { λ l. record {
      names = map string_bytes l.names.items;
      signature = option_map string_bytes l.signature;
      revoked = option_map string_bytes l.revoked;
      order = option_map string_bytes l.order;
      out = option_map string_bytes l.out;
      is_der = l.is_der;
      is_strict = l.is_strict;
      is_json = l.is_json;
      is_help = l.is_help;
      is_ended = l.is_ended;
      awaited = l.awaited;
    } };
}

/// The option that the word is.
#[tactic(auto, unfolding(crate::specs::CommandLines::option_named))]
fn option_named(word: &str) -> Option<Opt>
    ensures { result ≡ option_named word.now }
{
    match word {
        "--signature" => Some(Opt::Signature),
        "--revoked" => Some(Opt::Revoked),
        "--order" => Some(Opt::Order),
        "--out" => Some(Opt::Out),
        "--der" => Some(Opt::Der),
        "--strict" => Some(Opt::Strict),
        "--json" => Some(Opt::Json),
        "--help" => Some(Opt::Help),
        "--" => Some(Opt::End),
        _ => None,
    }
}

/// Whether the word has the form of an option: a hyphen-minus and more. `-` alone is the name of standard input.
fn is_option(word: &str) -> bool
    ensures { result ≡ is_option word.now }
{
    matches!(word.as_bytes(), [b'-', _, ..])
}

impl Line {
    /// What was read of no word.
    fn new(alloc: Global) -> Line
        ensures { result ≡ no_line }
    {
        Line {
            names: Vec::new(alloc),
            signature: None,
            revoked: None,
            order: None,
            out: None,
            is_der: false,
            is_strict: false,
            is_json: false,
            is_help: false,
            is_ended: false,
            awaited: None,
        }
    }

    /// Whether an option still has no value.
    pub(crate) fn is_open(&self) -> bool
        ensures { result ≡ is_some self.now.awaited }
    {
        self.awaited.is_some()
    }

    /// With one more name of a file.
    fn with_name(self, alloc: Global, word: &str) -> Result<Line, AllocError>
        ensures { IfOk result (λ l. l ≡ with_name self word.now) }
    {
        let mut line = self;
        line.names.push(String::from_str(alloc, word)?)?;
        Ok(line)
    }

    /// With the value of an option; none where the option takes none or has one.
    fn with_value(self, alloc: Global, option: Opt, word: &str) -> Result<Option<Line>, AllocError>
        ensures { IfOk result (λ l. l ≡ with_value option self word.now) }
    {
        let mut line = self;
        let value = String::from_str(alloc, word)?;
        match option {
            Opt::Signature if line.signature.is_none() => line.signature = Some(value),
            Opt::Revoked if line.revoked.is_none() => line.revoked = Some(value),
            Opt::Order if line.order.is_none() => line.order = Some(value),
            Opt::Out if line.out.is_none() => line.out = Some(value),
            _ => return Ok(None),
        }
        line.awaited = None;
        Ok(Some(line))
    }

    /// With an option.
    fn with_option(self, option: Opt) -> Line
        ensures { result ≡ with_option option self }
    {
        match option {
            Opt::Signature | Opt::Revoked | Opt::Order | Opt::Out => Line {
                awaited: Some(option),
                ..self
            },
            Opt::Der => Line {
                is_der: true,
                ..self
            },
            Opt::Strict => Line {
                is_strict: true,
                ..self
            },
            Opt::Json => Line {
                is_json: true,
                ..self
            },
            Opt::Help => Line {
                is_help: true,
                ..self
            },
            Opt::End => Line {
                is_ended: true,
                ..self
            },
        }
    }

    /// With one more word; none where that isn't an option.
    fn step(self, alloc: Global, word: &str) -> Result<Option<Line>, AllocError>
        ensures { IfOk result (λ l. l ≡ step self word.now) }
    {
        if let Some(option) = self.awaited {
            return self.with_value(alloc, option, word);
        }
        if self.is_ended {
            return Ok(Some(self.with_name(alloc, word)?));
        }
        if let Some(option) = option_named(word) {
            return Ok(Some(self.with_option(option)));
        }
        if is_option(word) {
            return Ok(None);
        }
        Ok(Some(self.with_name(alloc, word)?))
    }
}

/// What the words after a subcommand are; none where one of them is an unknown option, or an option has two values.
pub(crate) fn line_of(alloc: Global, words: &[String]) -> Result<Option<Line>, AllocError>
    ensures { IfOk result (λ l. l ≡ line_of no_line (map string_bytes words.now)) }
{
    let mut line = Line::new(alloc);
    for word in words {
        line = match line.step(alloc, word.as_str())? {
            Some(next) => next,
            None => return Ok(None),
        };
    }
    Ok(Some(line))
}
