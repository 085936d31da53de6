//! The characters of a text that count when it is compared (RFC 4518, 2.6.1).
ghost use Rattle.std.specs.Prelude.{◌≡◌};
ghost use Rattle.std.specs.Str.{bytes_eq};
ghost use Rattle.path_names.specs.Preparation.{prepared};
ghost use Rattle.pkix_name.specs.Characters.{codes_of};
ghost use Rattle.path_names.specs.Significant.{significant_of, are_same, same_character};

use crate::mapped::MappedCharacters;
use pkix_name::Characters;

/// A character that isn't a space.
#[derive(Clone, Copy, Debug)]
pub(crate) struct Significant {
    /// A space comes before it, or nothing.
    begins_word: bool,
    code: char,
}

fn is_same(a: Significant, b: Significant) -> bool
    ensures { result ≡ same_character a b }
{
    a.begins_word == b.begins_word && a.code == b.code
}

/// Those that are left of a text.
#[derive(Clone, Copy, Debug)]
pub(crate) struct SignificantCharacters<'a> {
    rest: MappedCharacters<'a>,
    begins_word: bool,
}

impl<'a> Iterator for SignificantCharacters<'a> {
    ghost use Rattle.std.specs.Iterator.{YieldsFirst, item_count};

    type Item = Significant;

    ghost next_gives = { YieldsFirst significant_of };

    ghost remaining = { item_count significant_of };

    fn next(&mut self) -> Option<Significant> {
        while let Some(code) = self.rest.next() {
            let begins_word = self.begins_word;
            self.begins_word = code == ' ';
            if !self.begins_word {
                return Some(Significant { begins_word, code });
            }
        }
        None
    }
}

fn are_same(a: SignificantCharacters<'_>, b: SignificantCharacters<'_>) -> bool
    ensures { result ≡ are_same (significant_of a.entry) (significant_of b.entry) }
{
    let mut others = b;
    for character in a {
        match others.next() {
            Some(other) if is_same(character, other) => (),
            _ => return false,
        }
    }
    others.next().is_none()
}

/// Whether two texts are the same when they are prepared.
#[tactic(auto, using(crate::proofs::Preparing::prepared_alike))]
pub(crate) fn are_prepared_alike(a: Characters<'_>, b: Characters<'_>) -> bool
    ensures { result ≡ bytes_eq (prepared (codes_of a.entry)) (prepared (codes_of b.entry)) }
{
    let a = SignificantCharacters {
        rest: MappedCharacters::new(a),
        begins_word: true,
    };
    let b = SignificantCharacters {
        rest: MappedCharacters::new(b),
        begins_word: true,
    };
    are_same(a, b)
}
