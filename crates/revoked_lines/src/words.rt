//! The words of a line.
ghost use Rattle.std.specs.Prelude.{◌≡◌, ◌∷◌, []};
ghost use Rattle.std.specs.Option.{option_map, option_map_or};
ghost use Rattle.revoked_lines.specs.Lines.{named_words, split_words, words_of, words_view};

/// The words of a line, each where it is there.
#[derive(Clone, Copy, Debug)]
pub(crate) struct Words<'a> {
    pub(crate) serial: &'a str,
    pub(crate) time: &'a str,
    pub(crate) reason: Option<&'a str>,
    pub(crate) invalid: Option<&'a str>,
}

/// The first word, and what comes after the space that follows it, where there is one.
fn first_word(text: &str) -> (&str, Option<&str>)
    ensures { split_words text.now ≡ result.0.now ∷ option_map_or (λ rest. split_words rest.now) result.1 [] }
{
    match text.split_once(' ') {
        Some((word, rest)) => (word, Some(rest)),
        None => (text, None),
    }
}

/// The last words of a line, of which there may be two, after these.
#[tactic(auto, using(crate::proofs::Lines::no_fifth))]
fn last_words<'a>(serial: &'a str, time: &'a str, rest: &'a str) -> Option<Words<'a>>
    ensures { option_map words_view result ≡ named_words (serial.now ∷ time.now ∷ split_words rest.now) }
{
    let (reason, rest) = first_word(rest);
    let Some(rest) = rest else {
        return Some(Words {
            serial,
            time,
            reason: Some(reason),
            invalid: None,
        });
    };
    let (invalid, rest) = first_word(rest);
    match rest {
        Some(_) => None,
        None => Some(Words {
            serial,
            time,
            reason: Some(reason),
            invalid: Some(invalid),
        }),
    }
}

/// The words of a line; none where there are fewer than two or more than four between single spaces.
#[tactic(auto, unfolding(crate::specs::Lines::words_of))]
pub(crate) fn words_of(line: &str) -> Option<Words<'_>>
    ensures { option_map words_view result ≡ words_of line.now }
{
    let (serial, rest) = first_word(line);
    let (time, rest) = first_word(rest?);
    match rest {
        Some(rest) => last_words(serial, time, rest),
        None => Some(Words {
            serial,
            time,
            reason: None,
            invalid: None,
        }),
    }
}
