//! Texts that are kept as they are, also the empty one.
ghost use Rattle.std.specs.Prelude.{◌≡◌, string_bytes, IfOk};
ghost use Rattle.toml_format.specs.Values.{text};

use crate::from_value::FromValue;
use crate::reason::Reason;
use std::alloc::{AllocError, Global};
use std::marker::Model;
use toml::Value;

/// Any text, in UTF-8.
pub struct Text {
    text: String,
}

impl Model for Text {
    ghost use Rattle.std.specs.Prelude.{ℕ, List, string_bytes};

    ghost Value = { List ℕ };

    ghost view = { λ t. string_bytes t.text };
}

impl Drop for Text {
    fn drop(self) {
        let Text { text: _ } = self;
    }
}

impl Text {
    /// A copy of the text.
    pub fn copy(alloc: Global, text: &str) -> Result<Text, AllocError>
        ensures { IfOk result (λ copy. copy ≡ text.now) }
    {
        Ok(Text {
            text: String::from_str(alloc, text)?,
        })
    }

    /// The text.
    pub fn as_str(&self) -> &str
        ensures { result.now ≡ self.now }
    {
        self.text.as_str()
    }

    /// The bytes of the text.
    pub fn as_bytes(&self) -> &[u8]
        ensures { result.now ≡ self.now }
    {
        self.text.as_bytes()
    }

    /// The text, without a copy.
    pub fn into_string(self) -> String
        ensures { string_bytes result ≡ self }
    {
        let Text { text } = self;
        text
    }
}

impl FromValue for Text {
    ghost format = { text };

    #[tactic(auto, unfolding(crate::specs::ValueReading::read_text))]
    fn from_value(alloc: Global, value: &Value) -> Result<Result<Text, Reason>, AllocError> {
        match value.as_str() {
            Some(text) => Ok(Ok(Text::copy(alloc, text)?)),
            None => Ok(Err(Reason::WrongType)),
        }
    }
}
