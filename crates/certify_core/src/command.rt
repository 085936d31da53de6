ghost use Rattle.std.specs.Prelude.{◌≡◌, ◌↔◌, ℕ, List, Some, map, string_bytes, IfOk, IfErr};
ghost use Rattle.certify_core.specs.Command.{command_named, command_of, taking, Gives, IsBulk};
ghost use Rattle.certify_core.specs.Outcome.{done, HasRefusal};

use crate::accept::Accepting;
use crate::answer::answer_to;
use crate::attribute::AttributeIssuing;
use crate::bulk::bulk;
use crate::check::Checking;
use crate::count::count_of;
use crate::document::document_text;
use crate::issue::Issuing;
use crate::list::ListIssuing;
use crate::refusal::Refusal;
use crate::request::Requesting;
use crate::restore::Restoring;
use crate::revoked::LookingUp;
use crate::script::ScriptRunning;
use crate::show::show;
use crate::text::{help_text, version_text};
use command_run::Answer;
use std::alloc::{AllocError, Global};

/// What the program is to do.
#[derive(Clone, Copy, Debug, PartialEq, Eq)]
pub enum Command {
    /// Issue the certificate of a profile.
    Issue,
    /// List what a certificate contains.
    Show,
    /// Write the request of a profile.
    Request,
    /// Issue the certificate that a request asks for.
    Accept,
    /// Issue the revocation list of a profile.
    List,
    /// Write the issuer that is restored from a certificate.
    Restore,
    /// Issue the attribute certificate of a profile.
    Attribute,
    /// Write what an authority replies to the commands of a profile.
    Authority,
    /// Tell which serial numbers a revocation list has.
    Revoked,
    /// Check a certification path.
    Check,
    /// Make a revocation list of so many entries.
    Bulk(u64),
    /// Tell the words and the statuses.
    Help,
    /// Tell the name and the version.
    Version,
}

impl Command {
    /// The command with what follows its word.
    #[tactic(auto, unfolding(crate::specs::Command::taking))]
    fn taking(self, arguments: &[String]) -> Option<Command>
        ensures { result ≡ taking self (map string_bytes arguments.now) }
    {
        match self {
            Command::Bulk(_) => match arguments {
                [count] => count_of(count.as_bytes()).map(Command::Bulk),
                _ => None,
            },
            command => match arguments {
                [] => Some(command),
                _ => None,
            },
        }
    }

    /// What the command writes on success.
    #[tactic(auto, using(crate::proofs::Made::always_made))]
    pub(crate) fn text(self, alloc: Global, input: &[u8]) -> Result<Vec<u8>, Refusal>
        ensures text { IfOk result (λ text. Gives self input.now (done text.items)) }
        ensures why { IfErr result (HasRefusal (Gives self input.now)) }
    {
        match self {
            Command::Issue => document_text::<Issuing>(alloc, input),
            Command::Show => show(alloc, input),
            Command::Request => document_text::<Requesting>(alloc, input),
            Command::Accept => document_text::<Accepting>(alloc, input),
            Command::List => document_text::<ListIssuing>(alloc, input),
            Command::Restore => document_text::<Restoring>(alloc, input),
            Command::Attribute => document_text::<AttributeIssuing>(alloc, input),
            Command::Authority => document_text::<ScriptRunning>(alloc, input),
            Command::Revoked => document_text::<LookingUp>(alloc, input),
            Command::Check => document_text::<Checking>(alloc, input),
            Command::Bulk(count) => bulk(alloc, count),
            Command::Help => Ok(help_text(alloc)?),
            Command::Version => Ok(version_text(alloc)?),
        }
    }
}

/// The command whose word it is. One that takes a number has some number.
#[tactic(auto, unfolding(crate::specs::Command::command_named))]
fn command_named(word: &str) -> Option<Command>
    ensures { result ≡ command_named word.now }
{
    match word {
        "issue" => Some(Command::Issue),
        "show" => Some(Command::Show),
        "request" => Some(Command::Request),
        "accept" => Some(Command::Accept),
        "list" => Some(Command::List),
        "restore" => Some(Command::Restore),
        "attribute" => Some(Command::Attribute),
        "authority" => Some(Command::Authority),
        "revoked" => Some(Command::Revoked),
        "check" => Some(Command::Check),
        "bulk" => Some(Command::Bulk(1)),
        "--help" => Some(Command::Help),
        "--version" => Some(Command::Version),
        _ => None,
    }
}

impl command_run::Command for Command {
    ghost use Rattle.certify_core.specs.Answer.{AnswersWith};
    ghost use Rattle.certify_core.specs.Command.{reads_input};

    ghost command_of = { λ words. command_of words };

    ghost reads = { reads_input };

    ghost gives = { AnswersWith };

    /// None at all are `issue`.
    #[tactic(auto, unfolding(crate::specs::Command::command_of))]
    fn of_words(words: &[String]) -> Option<Command> {
        match words {
            [] => Some(Command::Issue),
            [word, arguments @ ..] => command_named(word.as_str())?.taking(arguments),
        }
    }

    fn reads_input(&self) -> bool {
        match self {
            Command::Issue
            | Command::Show
            | Command::Request
            | Command::Accept
            | Command::List
            | Command::Restore
            | Command::Attribute
            | Command::Authority
            | Command::Revoked
            | Command::Check => true,
            Command::Bulk(_) | Command::Help | Command::Version => false,
        }
    }

    fn answer_to(&self, alloc: Global, input: &[u8]) -> Result<Answer, AllocError> {
        answer_to(alloc, *self, input)
    }
}

/// A law: the words of a list for measures are `bulk` and the number of its entries, in decimal
/// digits.
pub fn bulk_words()
    ensures { (words : List (List ℕ)) (n : ℕ) → (command_of words ≡ Some (Command.Bulk n)) ↔ IsBulk words n }
{}
