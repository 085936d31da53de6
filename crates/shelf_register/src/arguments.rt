//! Which arguments of a subcommand go together, and the messages about those that don't.
ghost use Rattle.std.specs.Prelude.{◌≡◌, length};
ghost use Rattle.shelf_register.specs.Arguments.{misuse, names_misuse, naming_misuse, options_misuse, seal_misuse, list_misuse, unless};

use crate::options::{Line, LineError, Opt};
use crate::told::shown;
use crate::word::Word;
use std::alloc::{AllocError, Global};

/// Why the arguments of a subcommand don't go together.
#[derive(Clone, Copy, Debug)]
pub(crate) enum Misuse {
    /// There are names of files.
    Files,
    /// There isn't one file beside the register.
    NoIssuer,
    /// There is nothing to import.
    NoInput,
    /// There is no order.
    NoOrder,
    /// A certificate is named by its serial number and by a file.
    Both,
    /// No certificate is named.
    Neither,
    /// There is more than one file.
    ManyFiles,
    /// There is neither a signature, nor the name of what is sealed already.
    NoSignature,
    /// `--serial` and `--list`.
    SerialAndList,
    NoReason,
    NoDays,
    /// `--scope` without `--points`.
    ScopeAlone,
    /// `--json` and `--pem`.
    JsonAndPem,
}

fn unless(holds: bool, misuse: Misuse) -> Option<Misuse>
    ensures { result ≡ unless holds misuse }
{
    if holds { None } else { Some(misuse) }
}

/// Of a subcommand on a certificate that is named by its serial number or by a file.
fn naming_misuse(has_serial: bool, count: usize) -> Option<Misuse>
    ensures { result ≡ naming_misuse has_serial count }
{
    if has_serial {
        unless(count == 0, Misuse::Both)
    } else if count == 0 {
        Some(Misuse::Neither)
    } else {
        unless(count == 1, Misuse::ManyFiles)
    }
}

/// Of so many names of files, the register's not counted.
fn names_misuse(word: Word, line: &Line, count: usize) -> Option<Misuse>
    ensures { result ≡ names_misuse word line.now.given.items count }
{
    match word {
        Word::New => unless(count == 1, Misuse::NoIssuer),
        Word::Import => unless(count != 0, Misuse::NoInput),
        Word::Tbs => unless(count != 0, Misuse::NoOrder),
        Word::Revoke => naming_misuse(line.has(Opt::Serial), count),
        Word::Renew => naming_misuse(line.has(Opt::Serial), count),
        Word::Export => unless(count == 0, Misuse::Files),
        Word::Check => unless(count == 0, Misuse::Files),
        Word::Seal => unless(count == 0, Misuse::Files),
        Word::List => unless(count == 0, Misuse::Files),
        Word::Find => unless(count == 0, Misuse::Files),
    }
}

fn seal_misuse(has_serial: bool, has_list: bool, has_signature: bool) -> Option<Misuse>
    ensures { result ≡ seal_misuse has_serial has_list has_signature }
{
    if has_serial {
        unless(!has_list, Misuse::SerialAndList)
    } else {
        unless(has_list || has_signature, Misuse::NoSignature)
    }
}

fn list_misuse(has_days: bool, has_scope: bool, has_points: bool) -> Option<Misuse>
    ensures { result ≡ list_misuse has_days has_scope has_points }
{
    if has_days {
        unless(!has_scope || has_points, Misuse::ScopeAlone)
    } else {
        Some(Misuse::NoDays)
    }
}

/// Of the options.
fn options_misuse(word: Word, line: &Line) -> Option<Misuse>
    ensures { result ≡ options_misuse word line.now.given.items }
{
    match word {
        Word::Seal => seal_misuse(
            line.has(Opt::Serial),
            line.has(Opt::List),
            line.has(Opt::Signature),
        ),
        Word::Revoke => unless(line.has(Opt::Reason), Misuse::NoReason),
        Word::List => list_misuse(
            line.has(Opt::Days),
            line.has(Opt::Scope),
            line.has(Opt::Points),
        ),
        Word::Find => unless(
            !line.has(Opt::Json) || !line.has(Opt::Pem),
            Misuse::JsonAndPem,
        ),
        Word::New | Word::Import | Word::Export | Word::Check | Word::Tbs | Word::Renew => None,
    }
}

/// Why the arguments of a subcommand don't go together, if they don't.
pub(crate) fn misuse_in(word: Word, line: &Line) -> Option<Misuse>
    ensures { result ≡ misuse word line.now.given.items (length line.now.names.items) }
{
    let count = line.names.as_slice().len();
    match names_misuse(word, line, count) {
        Some(found) => Some(found),
        None => options_misuse(word, line),
    }
}

/// The reasons of `revoke` (RFC 5280, 5.3.1).
pub(crate) const REASONS: &str =
    "unspecified, keyCompromise, cACompromise, affiliationChanged, superseded, cessationOfOperation, certificateHold, privilegeWithdrawn, aACompromise, or removeFromCRL to end a hold";

/// The message about words that name no subcommand.
pub(crate) const NO_SUBCOMMAND: &str =
    "shelf: --register is an option of tbs, seal, revoke, list, find and renew; the subcommands of shelf register are new, import, export and check (see shelf --help)\n";

fn title(word: Word) -> &'static str {
    match word {
        Word::New => "register new",
        Word::Import => "register import",
        Word::Export => "register export",
        Word::Check => "register check",
        Word::Tbs => "tbs",
        Word::Seal => "seal",
        Word::Revoke => "revoke",
        Word::List => "list",
        Word::Find => "find",
        Word::Renew => "renew",
    }
}

/// The subcommand whose help says more.
fn help_title(word: Word) -> &'static str {
    match word {
        Word::New | Word::Import | Word::Export | Word::Check => "register",
        other => title(other),
    }
}

fn why(misuse: Misuse) -> &'static str {
    match misuse {
        Misuse::Files => "it takes no file",
        Misuse::NoIssuer => "give the register's FILE and the certificate ISSUER",
        Misuse::NoInput => "give the files to import",
        Misuse::NoOrder => "give an ORDER",
        Misuse::Both => "give either --serial or the certificate's FILE, not both",
        Misuse::Neither => "give the certificate, by --serial SERIAL or by its FILE",
        Misuse::ManyFiles => "give one FILE",
        Misuse::NoSignature =>
            "give --signature FILE; what is sealed already is written by --serial or --list",
        Misuse::SerialAndList => "give either --serial or --list, not both",
        Misuse::NoReason => "give --reason: ",
        Misuse::NoDays => "give --days",
        Misuse::ScopeAlone => "--scope needs --points",
        Misuse::JsonAndPem => "give either --json or --pem, not both",
    }
}

fn usage(alloc: Global, word: Word, why: &str) -> Result<String, AllocError> {
    let (title, help) = (title(word), help_title(word));
    format!(in alloc; "shelf {title}: {why}; see shelf {help} --help\n")
}

/// The message about arguments that don't go together.
pub(crate) fn misuse_text(alloc: Global, word: Word, misuse: Misuse) -> Result<String, AllocError> {
    let why = why(misuse);
    let more = match misuse {
        Misuse::NoReason => REASONS,
        _ => "",
    };
    let text = format!(in alloc; "{why}{more}")?;
    usage(alloc, word, text.as_str())
}

/// The message about a register that isn't named.
pub(crate) fn no_register_text(alloc: Global, word: Word) -> Result<String, AllocError> {
    let why = match word {
        Word::New | Word::Import | Word::Export | Word::Check => "give the register's FILE",
        _ => "give --register REGISTER",
    };
    usage(alloc, word, why)
}

fn about_option(alloc: Global, word: Word, option: &str, why: &str) -> Result<String, AllocError> {
    let option = shown(option);
    let text = format!(in alloc; "{option}: {why}")?;
    usage(alloc, word, text.as_str())
}

/// The message about words that aren't options and files.
pub(crate) fn line_text(alloc: Global, word: Word, error: LineError) -> Result<String, AllocError> {
    match error {
        LineError::Unknown(option) => about_option(alloc, word, option.as_str(), "unknown option"),
        LineError::Twice(option) => about_option(alloc, word, option.as_str(), "given twice"),
        LineError::NoValue(option) => {
            about_option(alloc, word, option.as_str(), "its value is missing")
        }
        LineError::OutOfMemory => Err(AllocError),
    }
}
