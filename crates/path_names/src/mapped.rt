//! The characters of a text when it is mapped (RFC 4518, 2.2), and whether they are in NFKC (2.3).
ghost use Rattle.std.specs.Prelude.{◌≡◌, ◌∷◌, [], MatchOption, List, true, ℕ};
ghost use Rattle.path_names.specs.Preparation.{folded, is_preparable, is_yes, mapped, mapped_to};
ghost use Rattle.pkix_name.specs.Characters.{codes_of};
ghost use Rattle.path_names.specs.Significant.{mapped_of};
ghost use Rattle.unicode_normalization.specs.Forms.{nfkc};

use crate::character::{is_ignored, is_separator};
use pkix_name::Characters;
use ucd_case::full_folding;
use unicode_normalization::{QuickCheck, is_nfkc_quick};

/// The first character into which case folding maps the one of the code, and those after it.
fn folded(code: u32) -> (char, &'static [char])
    ensures { folded code ≡ result.0 ∷ result.1.now }
{
    let Some(character) = char::from_u32(code) else {
        return ('\u{fffd}', &[]);
    };
    match full_folding(character) {
        [] => (character, &[]),
        [first, behind @ ..] => (*first, behind),
    }
}

/// The first character into which the one of the code is mapped, and those after it; none where it is
/// mapped to nothing.
fn mapped_to(code: u32) -> Option<(char, &'static [char])>
    ensures { MatchOption result (mapped_to code ≡ []) (λ x. mapped_to code ≡ x.0 ∷ x.1.now) }
{
    if is_ignored(code) {
        None
    } else if is_separator(code) {
        Some((' ', &[]))
    } else {
        Some(folded(code))
    }
}

/// Those that are left of a text when it is mapped.
#[derive(Clone, Copy, Debug)]
pub(crate) struct MappedCharacters<'a> {
    /// What is left of the characters into which the one before was mapped.
    queue: &'static [char],
    rest: Characters<'a>,
}

impl<'a> MappedCharacters<'a> {
    pub(crate) fn new(text: Characters<'a>) -> Self
        ensures { mapped_of result ≡ mapped (codes_of text.entry) }
    {
        MappedCharacters {
            queue: &[],
            rest: text,
        }
    }
}

impl<'a> Iterator for MappedCharacters<'a> {
    ghost use Rattle.std.specs.Iterator.{YieldsFirst, item_count};

    type Item = char;

    ghost next_gives = { YieldsFirst mapped_of };

    ghost remaining = { item_count mapped_of };

    fn next(&mut self) -> Option<char> {
        if let [first, behind @ ..] = self.queue {
            self.queue = behind;
            return Some(*first);
        }
        while let Some(code) = self.rest.next() {
            if let Some((first, behind)) = mapped_to(code) {
                self.queue = behind;
                return Some(first);
            }
        }
        None
    }
}

fn is_yes(answer: QuickCheck) -> bool
    ensures { result ≡ is_yes answer }
{
    match answer {
        QuickCheck::Yes => true,
        QuickCheck::No | QuickCheck::Maybe => false,
    }
}

/// Whether the text is known to be in NFKC when it is mapped, so that it can be prepared.
pub(crate) fn is_preparable(text: Characters<'_>) -> bool
    ensures { result ≡ is_preparable (codes_of text.entry) }
{
    is_yes(is_nfkc_quick(MappedCharacters::new(text)))
}

/// NFKC leaves a text that can be prepared as it is when it is mapped (RFC 4518, 2.3).
pub fn preparable_texts_are_normal()
    ensures { (cs : List ℕ) → is_preparable cs ≡ true → nfkc (mapped cs) ≡ mapped cs }
{}
