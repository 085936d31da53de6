//! The subcommands.
ghost use Rattle.std.specs.Prelude.{◌≡◌, map, string_bytes};
ghost use Rattle.shelf_register.specs.Commands.{decided_by, has_register_option, is_register, needs_register, other_word, register_word};

/// A subcommand that keeps a register.
#[derive(Clone, Copy, Debug, PartialEq, Eq)]
pub(crate) enum Word {
    /// `register new FILE ISSUER`
    New,
    /// `register import FILE..`
    Import,
    /// `register export`
    Export,
    /// `register check`
    Check,
    Tbs,
    Seal,
    Revoke,
    List,
    Find,
    Renew,
}

/// What a register as a whole is asked.
#[tactic(auto, unfolding(crate::specs::Commands::register_word))]
pub(crate) fn register_word(text: &str) -> Option<Word>
    ensures { result ≡ register_word text.now }
{
    match text {
        "new" => Some(Word::New),
        "import" => Some(Word::Import),
        "export" => Some(Word::Export),
        "check" => Some(Word::Check),
        _ => None,
    }
}

/// The other subcommands.
#[tactic(auto, unfolding(crate::specs::Commands::other_word))]
pub(crate) fn other_word(text: &str) -> Option<Word>
    ensures { result ≡ other_word text.now }
{
    match text {
        "tbs" => Some(Word::Tbs),
        "seal" => Some(Word::Seal),
        "revoke" => Some(Word::Revoke),
        "list" => Some(Word::List),
        "find" => Some(Word::Find),
        "renew" => Some(Word::Renew),
        _ => None,
    }
}

/// Whether the subcommand always needs a register.
fn needs_register(text: &str) -> bool
    ensures { result ≡ needs_register text.now }
{
    matches!(text, "register" | "revoke" | "list" | "find" | "renew")
}

/// Whether the words ask for a register, where this word decides it.
#[tactic(auto, unfolding(crate::specs::Commands::decided_by))]
fn decided_by(text: &str) -> Option<bool>
    ensures { result ≡ decided_by text.now }
{
    match text {
        "--register" => Some(true),
        "--" => Some(false),
        _ => None,
    }
}

/// Whether `--register` is among the words, and `--` isn't before it.
fn has_register_option(words: &[String]) -> bool
    ensures { result ≡ has_register_option (map string_bytes words.now) }
{
    for word in words {
        if let Some(is_asked) = decided_by(word.as_str()) {
            return is_asked;
        }
    }
    false
}

/// Whether the words after the program's name ask for a register.
pub fn is_register(words: &[String]) -> bool
    ensures { result ≡ is_register (map string_bytes words.now) }
{
    let [first, rest @ ..] = words else {
        return false;
    };
    needs_register(first.as_str()) || has_register_option(rest)
}
