//! Bytes as hex that a command reads further: a text that isn't hex has a reason of its own.
ghost use Rattle.std.specs.Prelude.{◌≡◌, IfOk};
ghost use Rattle.std.specs.List.{concat};
ghost use Rattle.certify_profile.specs.HexInput.{hex_input, joined_hex};

use std::alloc::{AllocError, Global};
use std::marker::Model;
use toml::Value;
use toml_format::{FromValue, HexBytes, List, Reason, from_hex};

/// Bytes in hexadecimal digits that are the input proper, as a request or a certificate: a text
/// that isn't hex is `Reason::NotHex`.
pub struct HexInput {
    bytes: HexBytes,
}

impl Model for HexInput {
    ghost use Rattle.std.specs.Prelude.{ℕ, List};

    ghost Value = { List ℕ };

    ghost view = { λ h. h.bytes };
}

impl Drop for HexInput {
    fn drop(self) {
        let HexInput { bytes: _ } = self;
    }
}

impl HexInput {
    /// The bytes.
    pub fn as_slice(&self) -> &[u8]
        ensures { result.now ≡ self.now }
    {
        self.bytes.as_slice()
    }
}

impl FromValue for HexInput {
    ghost format = { hex_input };

    #[tactic(auto, unfolding(toml_format::specs::ValueReading::read_text, crate::specs::HexInput::read_hex_input))]
    fn from_value(alloc: Global, value: &Value) -> Result<Result<HexInput, Reason>, AllocError> {
        match value.as_str() {
            Some(text) => match from_hex(alloc, text.as_bytes())? {
                Some(bytes) => Ok(Ok(HexInput { bytes })),
                None => Ok(Err(Reason::NotHex)),
            },
            None => Ok(Err(Reason::WrongType)),
        }
    }
}

/// The bytes of the texts of an array, joined. Each text is hex by itself, as one of `HexInput`.
pub struct JoinedHex {
    bytes: Vec<u8>,
}

impl Model for JoinedHex {
    ghost use Rattle.std.specs.Prelude.{ℕ, List};

    ghost Value = { List ℕ };

    ghost view = { λ h. h.bytes.items };
}

impl Drop for JoinedHex {
    fn drop(self) {
        let JoinedHex { bytes: _ } = self;
    }
}

impl JoinedHex {
    /// The bytes.
    pub fn as_slice(&self) -> &[u8]
        ensures { result.now ≡ self.now }
    {
        self.bytes.as_slice()
    }
}

/// The bytes of all inputs, one after another.
#[tactic(auto, using(crate::proofs::Joined::joining))]
fn joined(alloc: Global, inputs: &[HexInput]) -> Result<JoinedHex, AllocError>
    ensures { IfOk result (λ bytes. bytes ≡ concat inputs.now) }
{
    let mut bytes = Vec::new(alloc);
    for input in inputs {
        bytes.extend_from_slice(input.as_slice())?;
    }
    Ok(JoinedHex { bytes })
}

impl FromValue for JoinedHex {
    ghost format = { joined_hex };

    fn from_value(alloc: Global, value: &Value) -> Result<Result<JoinedHex, Reason>, AllocError> {
        match List::<HexInput>::from_value(alloc, value)? {
            Ok(inputs) => Ok(Ok(joined(alloc, inputs.into_vec().as_slice())?)),
            Err(reason) => Ok(Err(reason)),
        }
    }
}
