ghost use Rattle.std.specs.Prelude.{◌≡◌};
ghost use Rattle.certify_core.specs.Counts.{count_of, with_digits};

/// The most entries of a list that is made for measures.
const MOST_ENTRIES: u64 = 100_000;

/// The number that the digits make, where it isn't too large.
#[tactic(auto, unfolding(crate::specs::Counts::with_digits))]
fn number_of(digits: &[u8]) -> Option<u64>
    ensures { result ≡ with_digits 0 digits.now }
{
    let mut number = 0;
    let mut rest = digits;
    while let [digit, after @ ..] = rest {
        if !digit.is_ascii_digit() {
            return None;
        }
        number = 10 * number + u64::from(*digit - b'0');
        if number > MOST_ENTRIES {
            return None;
        }
        rest = after;
    }
    Some(number)
}

/// The number that a text is, in decimal digits without a leading zero: from 1 to 100000.
#[tactic(auto, unfolding(crate::specs::Counts::count_of))]
pub(crate) fn count_of(text: &[u8]) -> Option<u64>
    ensures { result ≡ count_of text.now }
{
    match text {
        [] | [b'0', ..] => None,
        [_, ..] => number_of(text),
    }
}
