//! Whether a subject is an authority: a word, or a path length from 0 to 255 (RFC 5280, 4.2.1.9).
ghost use Rattle.std.specs.Prelude.{◌≡◌, IfOk};
ghost use Rattle.toml_format.specs.Ca.{ca, ca_word, path_length};
ghost use Rattle.toml_format.specs.Values.{whole};

use crate::from_value::FromValue;
use crate::number::within;
use crate::reason::Reason;
use rcgen_text::{BasicConstraints, IsCa};
use std::alloc::{AllocError, Global};
use toml::Value;

/// What the word says.
#[tactic(auto, unfolding(crate::specs::Ca::ca_word))]
fn ca_word(text: &str) -> Option<IsCa>
    ensures { result ≡ ca_word text.now }
{
    match text {
        "no" => Some(IsCa::NoCa),
        "explicit" => Some(IsCa::ExplicitNoCa),
        "unconstrained" => Some(IsCa::Ca(BasicConstraints::Unconstrained)),
        _ => None,
    }
}

/// An authority with paths of at most this length, which is from 0 to 255.
#[tactic(auto, unfolding(crate::specs::Ca::path_length))]
fn path_length(number: i64) -> Option<IsCa>
    ensures { result ≡ path_length number }
{
    let number = within(0, 255, number)?;
    Some(IsCa::Ca(BasicConstraints::Constrained(number as u8)))
}

impl FromValue for IsCa {
    ghost format = { whole ca };

    #[tactic(auto, unfolding(crate::specs::Ca::ca))]
    fn from_value(_alloc: Global, value: &Value) -> Result<Result<IsCa, Reason>, AllocError> {
        match value.as_str() {
            Some(text) => Ok(ca_word(text).ok_or(Reason::WrongValue)),
            None => match value.as_integer() {
                Some(number) => Ok(path_length(number).ok_or(Reason::WrongValue)),
                None => Ok(Err(Reason::WrongType)),
            },
        }
    }
}
