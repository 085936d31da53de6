//! What the filter `shelf tbs` is asked for an order, and which files a subcommand reads.
ghost use Rattle.std.specs.Prelude.{◌≡◌, IfOk, IfSome};
ghost use Rattle.shelf_command.specs.declared.request.Action.TheVariants.{Run};
ghost use Rattle.shelf_command.specs.declared.word.Word.TheVariants as filter;

use crate::asked::Asked;
use crate::options::Opt;
use crate::reading::input_names;
use crate::word::Word;
use command_files::InputName;
use shelf_command::{Action, Request, Word as FilterWord, request_in};
use std::alloc::{AllocError, Global};

fn push_word(alloc: Global, words: &mut Vec<String>, word: &str) -> Result<(), AllocError> {
    words.push(String::from_str(alloc, word)?)?;
    Ok(())
}

/// The files of `tbs`: those that are named, or standard input.
fn files_of(alloc: Global, names: &[String]) -> Result<Vec<String>, AllocError> {
    let mut files = Vec::new(alloc);
    for name in names {
        push_word(alloc, &mut files, name.as_str())?;
    }
    if files.len() == 1 {
        push_word(alloc, &mut files, "-")?;
    }
    Ok(files)
}

/// The request, if it is one of `tbs`.
fn of_tbs(request: Option<Request>) -> Option<Request>
    ensures { IfSome result (λ r. r.action ≡ Run filter.Tbs) }
{
    let request = request?;
    match request.action() {
        Action::Run(FilterWord::Tbs) => Some(request),
        _ => None,
    }
}

fn request_of_tbs(alloc: Global, words: &[String]) -> Result<Option<Request>, AllocError>
    ensures { IfOk result (λ o. IfSome o (λ r. r.action ≡ Run filter.Tbs)) }
{
    let request = request_in(alloc, words)?;
    Ok(of_tbs(request))
}

/// The request of `tbs`, with the issuer's certificate as its last file.
pub(crate) fn order_request(alloc: Global, asked: &Asked) -> Result<Option<Request>, AllocError>
    ensures { IfOk result (λ o. IfSome o (λ r. r.action ≡ Run filter.Tbs)) }
{
    let mut words = Vec::new(alloc);
    push_word(alloc, &mut words, "tbs")?;
    if asked.line.has(Opt::Strict) {
        push_word(alloc, &mut words, "--strict")?;
    }
    push_word(alloc, &mut words, "--")?;
    for name in files_of(alloc, asked.line.names.as_slice())? {
        words.push(name)?;
    }
    push_word(alloc, &mut words, "issuer")?;
    let request = request_of_tbs(alloc, words.as_slice())?;
    Ok(request)
}

/// The request of a list's message: its order, the entries and the issuer's certificate.
pub(crate) fn list_request(alloc: Global, is_strict: bool) -> Result<Option<Request>, AllocError>
    ensures { IfOk result (λ o. IfSome o (λ r. r.action ≡ Run filter.Tbs)) }
{
    let mut words = Vec::new(alloc);
    push_word(alloc, &mut words, "tbs")?;
    push_word(alloc, &mut words, "list")?;
    push_word(alloc, &mut words, "issuer")?;
    push_word(alloc, &mut words, "--revoked")?;
    push_word(alloc, &mut words, "entries")?;
    if is_strict {
        push_word(alloc, &mut words, "--strict")?;
    }
    let request = request_of_tbs(alloc, words.as_slice())?;
    Ok(request)
}

/// The names of the files that the subcommand reads.
pub(crate) fn names_of(alloc: Global, asked: &Asked) -> Result<Vec<InputName>, AllocError> {
    match asked.word {
        Word::Tbs => {
            let names = files_of(alloc, asked.line.names.as_slice())?;
            input_names(alloc, names.as_slice())
        }
        Word::Seal => {
            let mut names = Vec::new(alloc);
            if let Some(name) = asked.line.value(Opt::Signature) {
                push_word(alloc, &mut names, name)?;
            }
            input_names(alloc, names.as_slice())
        }
        _ => input_names(alloc, asked.line.names.as_slice()),
    }
}
