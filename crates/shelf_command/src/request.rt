//! What a run is asked to do, and with which files.
ghost use Rattle.std.specs.Prelude.{◌≡◌, ◌++◌, false, IfOk, OnOk, map, string_bytes};
ghost use Rattle.shelf_command.specs.declared.request.Action.TheVariants.{Run};
ghost use Rattle.std.specs.Option.{option_map};
ghost use Rattle.shelf_command.specs.Requests.{about, allows, alone, file_inputs, fits_form, fits_order, in_form, inputs_after, is_ordered, is_read_once, option_inputs, ordered, ordered_names, request_of, requested, run_of, subcommand, takes_json, takes_order, takes_options, takes_out, takes_revoked, takes_signature, takes_strict};

use crate::command_line::{Line, line_of};
use crate::word::{Word, word_named};
use command_files::InputName;
use std::alloc::{AllocError, Global};
use std::marker::Model;

/// How many octets an order or a question may have: 16 MiB.
const ORDER_LIMIT: usize = 16_777_216;

/// How many octets another file may have: 64 MiB.
const FILE_LIMIT: usize = 67_108_864;

/// What is done.
#[derive(Clone, Copy, Debug, PartialEq, Eq)]
pub enum Action {
    /// A subcommand is carried out.
    Run(Word),
    /// What a subcommand does is written.
    HelpOn(Word),
    /// What the program does is written.
    Help,
    /// The name and the version are written.
    Version,
}

/// What a run is asked to do.
#[derive(Drop)]
pub struct Request {
    action: Action,
    /// The order or question, the signature, the file of `--revoked` and the files, each where it is taken.
    inputs: Vec<InputName>,
    out: Option<String>,
    is_der: bool,
    is_strict: bool,
    has_revoked: bool,
}

impl Model for Request {
    ghost use Rattle.std.specs.Prelude.{string_bytes};
    ghost use Rattle.std.specs.Option.{option_map};
    ghost use Rattle.shelf_command.specs.RequestViews.{RequestView};

    ghost Value = { RequestView };

    ghost view = { λ r. record {
      action = r.action;
      inputs = r.inputs.items;
      out = option_map string_bytes r.out;
      is_der = r.is_der;
      is_strict = r.is_strict;
      has_revoked = r.has_revoked;
    } };
}

impl Word {
    /// Whether its first file is an order or a question.
    fn takes_order(self) -> bool
        ensures { result ≡ takes_order self }
    {
        match self {
            Word::Tbs | Word::Seal | Word::LintOrder | Word::Path => true,
            Word::Lint | Word::LintJson | Word::Explain | Word::ExplainJson => false,
        }
    }

    /// Whether it takes a signature, and writes DER where that is asked.
    fn takes_signature(self) -> bool
        ensures { result ≡ takes_signature self }
    {
        match self {
            Word::Seal => true,
            Word::Tbs
            | Word::Lint
            | Word::LintJson
            | Word::LintOrder
            | Word::Path
            | Word::Explain
            | Word::ExplainJson => false,
        }
    }

    /// Whether a warning can be its fault.
    fn takes_strict(self) -> bool
        ensures { result ≡ takes_strict self }
    {
        match self {
            Word::Tbs | Word::Seal | Word::Lint | Word::LintJson | Word::LintOrder => true,
            Word::Path | Word::Explain | Word::ExplainJson => false,
        }
    }

    /// Whether it takes the entries of a revocation list.
    fn takes_revoked(self) -> bool
        ensures { result ≡ takes_revoked self }
    {
        match self {
            Word::Tbs | Word::Seal | Word::LintOrder => true,
            Word::Lint | Word::LintJson | Word::Path | Word::Explain | Word::ExplainJson => false,
        }
    }

    /// Whether a file can take what it makes.
    fn takes_out(self) -> bool
        ensures { result ≡ takes_out self }
    {
        match self {
            Word::Tbs | Word::Seal | Word::Explain | Word::ExplainJson => true,
            Word::Lint | Word::LintJson | Word::LintOrder | Word::Path => false,
        }
    }

    /// Whether its order is named by `--order`.
    fn is_ordered(self) -> bool
        ensures { result ≡ is_ordered self }
    {
        match self {
            Word::LintOrder => true,
            Word::Tbs
            | Word::Seal
            | Word::Lint
            | Word::LintJson
            | Word::Path
            | Word::Explain
            | Word::ExplainJson => false,
        }
    }

    /// What it is where `--order` is given.
    fn ordered(self, has_order: bool) -> Word
        ensures { result ≡ ordered self has_order }
    {
        match self {
            Word::Lint => {
                if has_order {
                    Word::LintOrder
                } else {
                    Word::Lint
                }
            }
            Word::LintJson => Word::LintJson,
            Word::LintOrder => Word::LintOrder,
            Word::Tbs => Word::Tbs,
            Word::Seal => Word::Seal,
            Word::Path => Word::Path,
            Word::Explain => Word::Explain,
            Word::ExplainJson => Word::ExplainJson,
        }
    }

    /// Whether what it writes can be JSON.
    fn takes_json(self) -> bool
        ensures { result ≡ takes_json self }
    {
        match self {
            Word::Lint | Word::LintJson | Word::Explain | Word::ExplainJson => true,
            Word::Tbs | Word::Seal | Word::LintOrder | Word::Path => false,
        }
    }

    /// What it is where `--json` is given.
    fn in_form(self, is_json: bool) -> Word
        ensures { result ≡ in_form self is_json }
    {
        match self {
            Word::Lint => { if is_json { Word::LintJson } else { Word::Lint } }
            Word::LintJson => Word::LintJson,
            Word::LintOrder => Word::LintOrder,
            Word::Tbs => Word::Tbs,
            Word::Seal => Word::Seal,
            Word::Path => Word::Path,
            Word::ExplainJson => Word::ExplainJson,
            Word::Explain => {
                if is_json {
                    Word::ExplainJson
                } else {
                    Word::Explain
                }
            }
        }
    }

    /// Whether `--json` is given only where it takes it.
    #[tactic(auto, unfolding(crate::specs::Requests::fits_form))]
    fn fits_form(self, line: &Line) -> bool
        ensures { result ≡ fits_form self line.now }
    {
        !line.is_json || self.takes_json()
    }

    /// Whether the options are ones that it takes.
    #[tactic(auto, unfolding(crate::specs::Requests::takes_options))]
    fn takes_options(self, line: &Line) -> bool
        ensures { result ≡ takes_options self line.now }
    {
        (!line.is_der || self.takes_signature())
            && (!line.is_strict || self.takes_strict())
            && (line.out.is_none() || self.takes_out())
            && (line.revoked.is_none() || self.takes_revoked())
    }

    /// Whether `--order` is given only where it takes it.
    #[tactic(auto, unfolding(crate::specs::Requests::fits_order))]
    fn fits_order(self, line: &Line) -> bool
        ensures { result ≡ fits_order self line.now }
    {
        line.order.is_none() || self.is_ordered()
    }

    /// Whether the options are ones that it takes, with those that it needs, each with its value.
    fn allows(self, line: &Line) -> bool
        ensures { result ≡ allows self line.now }
    {
        self.takes_options(line)
            && self.fits_order(line)
            && self.fits_form(line)
            && self.takes_signature() == line.signature.is_some()
            && !line.is_open()
    }
}

/// Adds the files of these names, or standard input where there is none.
fn push_files(
    alloc: Global,
    inputs: &mut Vec<InputName>,
    names: Vec<String>,
) -> Result<(), AllocError>
    ensures { OnOk result (inputs.new.items ≡ inputs.old.items ++ file_inputs (map string_bytes names.items)) }
{
    if names.is_empty() {
        let name = String::from_str(alloc, "-")?;
        inputs.push(InputName::new(name, FILE_LIMIT))?;
        return Ok(());
    }
    for name in names {
        inputs.push(InputName::new(name, FILE_LIMIT))?;
    }
    Ok(())
}

/// Adds the file of this name, where there is one.
fn push_file(inputs: &mut Vec<InputName>, name: Option<String>) -> Result<(), AllocError>
    ensures { OnOk result (inputs.new.items ≡ inputs.old.items ++ option_inputs (option_map string_bytes name)) }
{
    if let Some(name) = name {
        inputs.push(InputName::new(name, FILE_LIMIT))?;
    }
    Ok(())
}

/// The names of the files, the one of `--order` before them.
fn ordered_names(order: Option<String>, names: Vec<String>) -> Result<Vec<String>, AllocError>
    ensures { IfOk result (λ all. map string_bytes all.items ≡ ordered_names (option_map string_bytes order) (map string_bytes names.items)) }
{
    let mut names = names;
    if let Some(order) = order {
        names.insert(0, order)?;
    }
    Ok(names)
}

/// The inputs of a line; none where an order is missing.
fn inputs_after(
    alloc: Global,
    has_order: bool,
    signature: Option<String>,
    revoked: Option<String>,
    names: Vec<String>,
) -> Result<Option<Vec<InputName>>, AllocError>
    ensures { IfOk result (λ inputs. option_map (λ list. list.items) inputs
        ≡ inputs_after has_order (option_map string_bytes signature) (option_map string_bytes revoked) (map string_bytes names.items)) }
{
    let mut names = names;
    let mut inputs = Vec::new(alloc);
    if has_order {
        if names.is_empty() {
            return Ok(None);
        }
        let order = names.remove(0);
        inputs.push(InputName::new(order, ORDER_LIMIT))?;
        push_file(&mut inputs, signature)?;
        push_file(&mut inputs, revoked)?;
    }
    push_files(alloc, &mut inputs, names)?;
    Ok(Some(inputs))
}

/// Whether standard input is named at most once.
fn is_read_once(inputs: &[InputName]) -> bool
    ensures { result ≡ is_read_once inputs.now }
{
    inputs.iter().filter(|input| input.name() == "-").count() < 2
}

impl Request {
    /// What is done.
    pub fn action(&self) -> Action
        ensures { result ≡ self.now.action }
    {
        self.action
    }

    /// The inputs: the order or question, the signature, the file of `--revoked` and the files, each where it is taken.
    pub fn inputs(&self) -> &[InputName]
        ensures { result.now ≡ self.now.inputs }
    {
        &self.inputs
    }

    /// The file that takes what is made; none is standard output.
    pub fn out(&self) -> Option<&str>
        ensures { option_map (λ name. name.now) result ≡ self.now.out }
    {
        match &self.out {
            Some(name) => Some(name.as_str()),
            None => None,
        }
    }

    /// Whether DER is written in place of PEM.
    pub fn is_der(&self) -> bool
        ensures { result ≡ self.now.is_der }
    {
        self.is_der
    }

    /// Whether a warning is a fault.
    pub fn is_strict(&self) -> bool
        ensures { result ≡ self.now.is_strict }
    {
        self.is_strict
    }

    /// Whether a file of `--revoked` is among the inputs.
    pub fn has_revoked(&self) -> bool
        ensures { result ≡ self.now.has_revoked }
    {
        self.has_revoked
    }

    /// A request to carry out a subcommand on inputs that the caller has at hand, which go by these names.
    pub fn on(alloc: Global, word: Word, names: &[&'static str]) -> Result<Request, AllocError>
        ensures action { IfOk result (λ r. r.action ≡ Run word) }
        ensures form { IfOk result (λ r. r.is_der ≡ false) }
        ensures warnings { IfOk result (λ r. r.is_strict ≡ false) }
        ensures revoked { IfOk result (λ r. r.has_revoked ≡ false) }
    {
        let mut inputs = Vec::new(alloc);
        for name in names {
            let name = String::from_str(alloc, name)?;
            inputs.push(InputName::new(name, FILE_LIMIT))?;
        }
        Ok(Request {
            action: Action::Run(word),
            inputs,
            out: None,
            is_der: false,
            is_strict: false,
            has_revoked: false,
        })
    }

    /// A request without files.
    fn about(alloc: Global, action: Action) -> Request
        ensures { result ≡ about action }
    {
        Request {
            action,
            inputs: Vec::new(alloc),
            out: None,
            is_der: false,
            is_strict: false,
            has_revoked: false,
        }
    }
}

/// What a subcommand with this line is asked to do; none where the line isn't one of the subcommand's.
fn run_of(alloc: Global, word: Word, line: Line) -> Result<Option<Request>, AllocError>
    ensures { IfOk result (λ r. r ≡ run_of word line) }
{
    let word = word.ordered(line.order.is_some());
    if !word.allows(&line) {
        return Ok(None);
    }
    let Line {
        names,
        signature,
        revoked,
        order,
        out,
        is_der,
        is_strict,
        is_json,
        is_help: _,
        is_ended: _,
        awaited: _,
    } = line;
    let has_revoked = revoked.is_some();
    let names = ordered_names(order, names)?;
    let Some(inputs) = inputs_after(alloc, word.takes_order(), signature, revoked, names)? else {
        return Ok(None);
    };
    if !is_read_once(&inputs) {
        return Ok(None);
    }
    Ok(Some(Request {
        action: Action::Run(word.in_form(is_json)),
        inputs,
        out,
        is_der,
        is_strict,
        has_revoked,
    }))
}

/// The same, or the subcommand's help where it is asked for.
fn request_of(alloc: Global, word: Word, line: Line) -> Result<Option<Request>, AllocError>
    ensures { IfOk result (λ r. r ≡ request_of word line) }
{
    if line.is_help {
        return Ok(Some(Request::about(alloc, Action::HelpOn(word))));
    }
    run_of(alloc, word, line)
}

/// What the subcommand of this name is asked to do with these words.
fn subcommand(alloc: Global, name: &str, words: &[String]) -> Result<Option<Request>, AllocError>
    ensures { IfOk result (λ r. r ≡ subcommand name.now (map string_bytes words.now)) }
{
    let Some(word) = word_named(name) else {
        return Ok(None);
    };
    let Some(line) = line_of(alloc, words)? else {
        return Ok(None);
    };
    request_of(alloc, word, line)
}

/// What a word alone asks for that isn't a subcommand.
#[tactic(auto, unfolding(crate::specs::Requests::alone))]
fn alone(word: &str) -> Option<Action>
    ensures { result ≡ alone word.now }
{
    match word {
        "--help" => Some(Action::Help),
        "--version" => Some(Action::Version),
        _ => None,
    }
}

/// What the words after the program's name ask for; none where they aren't a command line.
pub fn request_in(alloc: Global, words: &[String]) -> Result<Option<Request>, AllocError>
    ensures { IfOk result (λ r. r ≡ requested (map string_bytes words.now)) }
{
    let [first, rest @ ..] = words else {
        return Ok(None);
    };
    if rest.is_empty()
        && let Some(action) = alone(first.as_str())
    {
        return Ok(Some(Request::about(alloc, action)));
    }
    subcommand(alloc, first.as_str(), rest)
}
