//! A text at its first `=` or `:`, which ends a type or a kind.
ghost use Rattle.std.specs.Prelude.{◌≡◌, ◌==◌, ◌||◌, ◌<◌, IsTrue};
ghost use Rattle.std.specs.Option.{option_map};
ghost use Rattle.toml_format.specs.Separator.{at_separator};

/// Whether the byte ends a kind.
fn is_separator(byte: u8) -> bool
    ensures value { result ≡ (byte == 61 || byte == 58) }
    ensures ascii { IsTrue result → byte < 128 }
{
    byte == b'=' || byte == b':'
}

/// The text before the first `=` or `:`, which of the two it is, and the text after it.
#[tactic(auto, unfolding(crate::specs::Separator::at_separator), using(crate::proofs::Separators::boundaries))]
pub(crate) fn at_separator(text: &str) -> Option<(&str, u8, &str)>
    ensures { option_map (λ x. (x.0.now, x.1, x.2.now)) result ≡ at_separator text.now }
{
    let bytes = text.as_bytes();
    for index in 0..bytes.len() {
        let byte = bytes[index];
        if is_separator(byte) {
            return Some((&text[..index], byte, &text[index + 1..]));
        }
    }
    None
}
