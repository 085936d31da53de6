//! The octets that a text represents, with the escapes of RFC 4514, section 3.
ghost use Rattle.std.specs.Prelude.{◌≡◌, ◌<◌, ◌++◌, true, IfOk, IfSome, OnOk};
ghost use Rattle.std.specs.Option.{option_map};
ghost use Rattle.name_parts.specs.Octets.{given, hex_digit, is_sound, is_special, octets, step};

use std::alloc::{AllocError, Global};

/// An octet that a text represents, and whether an escape gives it.
#[derive(Clone, Copy, Debug, PartialEq, Eq)]
pub(crate) struct Octet {
    pub(crate) value: u8,
    pub(crate) is_escaped: bool,
}

/// What comes before an octet of a text.
#[derive(Clone, Copy, Debug, PartialEq, Eq)]
pub(crate) enum Place {
    /// No escape that goes on.
    Outside,
    /// A backslash.
    AfterBackslash,
    /// A backslash and this hexadecimal digit.
    AfterDigit(u8),
}

/// What represents itself after a backslash.
const SPECIALS: &[u8] = b" \"#+,;<=>\\";

fn is_special(c: u8) -> bool
    ensures { result ≡ is_special c }
{
    SPECIALS.contains(&c)
}

fn hex_digit(c: u8) -> Option<u8>
    ensures value { result ≡ hex_digit c }
    ensures below { IfSome result (λ d. d < 16) }
{
    match c {
        b'0'..=b'9' => Some(c - b'0'),
        b'A'..=b'F' => Some(c - b'A' + 10),
        b'a'..=b'f' => Some(c - b'a' + 10),
        _ => None,
    }
}

/// What comes before the next octet, and the octet that this one completes.
#[tactic(auto, unfolding(crate::specs::Octets::step))]
fn step(place: Place, c: u8) -> Option<(Place, Option<Octet>)>
    requires { is_sound place ≡ true }
    ensures value { result ≡ step place c }
    ensures sound { IfSome result (λ x. is_sound x.0 ≡ true) }
{
    match place {
        Place::Outside => {
            if c == b'\\' {
                return Some((Place::AfterBackslash, None));
            }
            let octet = Octet {
                value: c,
                is_escaped: false,
            };
            Some((Place::Outside, Some(octet)))
        }
        Place::AfterBackslash => {
            if is_special(c) {
                let octet = Octet {
                    value: c,
                    is_escaped: true,
                };
                return Some((Place::Outside, Some(octet)));
            }
            let high = hex_digit(c)?;
            Some((Place::AfterDigit(high), None))
        }
        Place::AfterDigit(high) => {
            let low = hex_digit(c)?;
            let octet = Octet {
                value: 16 * high + low,
                is_escaped: true,
            };
            Some((Place::Outside, Some(octet)))
        }
    }
}

fn push_given(octets: &mut Vec<Octet>, octet: Option<Octet>) -> Result<(), AllocError>
    ensures { OnOk result (octets.new.items ≡ octets.old.items ++ given octet) }
{
    if let Some(octet) = octet {
        octets.push(octet)?;
    }
    Ok(())
}

/// The octets that the text represents; none where an escape isn't one or isn't whole.
#[tactic(auto, unfolding(crate::specs::Octets::octets), using(crate::proofs::Reading::reading))]
pub(crate) fn octets_of(alloc: Global, text: &[u8]) -> Result<Option<Vec<Octet>>, AllocError>
    ensures { IfOk result (λ found. option_map (λ all. all.items) found ≡ octets text.now) }
{
    let mut octets = Vec::new(alloc);
    let mut place = Place::Outside;
    let mut rest = text;
    while let [c, after @ ..] = rest {
        let Some((next, octet)) = step(place, *c) else {
            return Ok(None);
        };
        push_given(&mut octets, octet)?;
        place = next;
        rest = after;
    }
    match place {
        Place::Outside => Ok(Some(octets)),
        Place::AfterBackslash => Ok(None),
        Place::AfterDigit(_) => Ok(None),
    }
}
