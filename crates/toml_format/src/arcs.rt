//! Arcs as text: decimals to 18446744073709551615 without leading zeros, joined by periods.
ghost use Rattle.std.specs.Prelude.{◌≡◌, ◌-◌, if◌then◌else◌, None, IfOk};
ghost use Rattle.std.specs.Char.{is_ascii_digit};
ghost use Rattle.toml_format.specs.Arcs.{with_digit, arcs};
ghost use Rattle.toml_format.specs.Values.{text_as};

use crate::from_value::{FromText, FromValue, text_as};
use crate::reason::Reason;
use std::alloc::{AllocError, Global};
use std::marker::Model;
use toml::Value;

/// The arcs of an object identifier, or numbers that are none's.
pub struct Arcs {
    arcs: Vec<u64>,
}

impl Model for Arcs {
    ghost use Rattle.std.specs.Prelude.{ℕ, List};

    ghost Value = { List ℕ };

    ghost view = { λ a. a.arcs.items };
}

impl Drop for Arcs {
    fn drop(self) {
        let Arcs { arcs: _ } = self;
    }
}

impl Arcs {
    /// The arcs, without a copy.
    pub fn into_vec(self) -> Vec<u64>
        ensures { result.items ≡ self }
    {
        let Arcs { arcs } = self;
        arcs
    }
}

/// The number with the byte appended, where that is a digit and the number stays below 2^64.
#[tactic(auto, unfolding(crate::specs::Arcs::with_digit))]
fn with_digit(number: Option<u64>, byte: u8) -> Option<u64>
    ensures { result ≡ (if is_ascii_digit byte then with_digit number (byte - 48) else None) }
{
    if !byte.is_ascii_digit() {
        return None;
    }
    let digit = u64::from(byte - b'0');
    let Some(number) = number else {
        return Some(digit);
    };
    if number == 0 || number > (u64::MAX - digit) / 10 {
        return None;
    }
    Some(10 * number + digit)
}

/// The arcs that the text is.
#[tactic(auto, unfolding(crate::specs::Arcs::arcs), using(crate::proofs::ArcSteps::reading))]
pub(crate) fn arcs_of(alloc: Global, text: &[u8]) -> Result<Option<Arcs>, AllocError>
    ensures { IfOk result (λ found. found ≡ arcs text.now) }
{
    // a dot follows each arc but the last
    let mut arcs = Vec::with_capacity(alloc, text.len() / 2 + 1)?;
    let mut number = None;
    let mut rest = text;
    while let [byte, after @ ..] = rest {
        if *byte == b'.' {
            let Some(arc) = number else {
                return Ok(None);
            };
            arcs.push(arc)?;
            number = None;
        } else {
            number = with_digit(number, *byte);
            if number.is_none() {
                return Ok(None);
            }
        }
        rest = after;
    }
    match number {
        Some(arc) => {
            arcs.push(arc)?;
            Ok(Some(Arcs { arcs }))
        }
        None => Ok(None),
    }
}

impl FromText for Arcs {
    ghost from_text = { arcs };

    fn from_text(alloc: Global, text: &str) -> Result<Option<Arcs>, AllocError> {
        arcs_of(alloc, text.as_bytes())
    }
}

impl FromValue for Arcs {
    ghost format = { text_as arcs };

    fn from_value(alloc: Global, value: &Value) -> Result<Result<Arcs, Reason>, AllocError> {
        text_as(alloc, value)
    }
}
