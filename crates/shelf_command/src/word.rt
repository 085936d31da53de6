//! The subcommands.
ghost use Rattle.std.specs.Prelude.{◌≡◌};
ghost use Rattle.shelf_command.specs.Words.{word_named};

/// A subcommand.
#[derive(Clone, Copy, Debug, PartialEq, Eq)]
pub enum Word {
    /// Writes the octets that are to be signed.
    Tbs,
    /// Writes what is signed.
    Seal,
    /// Writes what is wrong with what files hold.
    Lint,
    /// Writes the same as JSON: `lint` with `--json`.
    LintJson,
    /// Writes nothing, and says what is wrong with an order.
    LintOrder,
    /// Writes what files hold, for people.
    Explain,
    /// Writes the same as JSON: `explain` with `--json`.
    ExplainJson,
    /// Writes whether a certification path is valid.
    Path,
}

/// The subcommand of this name.
#[tactic(auto, unfolding(crate::specs::Words::word_named))]
pub(crate) fn word_named(text: &str) -> Option<Word>
    ensures { result ≡ word_named text.now }
{
    match text {
        "tbs" => Some(Word::Tbs),
        "seal" => Some(Word::Seal),
        "lint" => Some(Word::Lint),
        "explain" => Some(Word::Explain),
        "path" => Some(Word::Path),
        _ => None,
    }
}
