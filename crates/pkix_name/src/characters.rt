//! The characters of a text of X.520, whichever its form.
ghost use Rattle.std.specs.Prelude.{◌≡◌, ◌∷◌, [], None, MatchOption};
ghost use Rattle.std.specs.Str.{chars};
ghost use Rattle.asn1_core.specs.StringTypes.{utf8};
ghost use Rattle.asn1_core.specs.Texts.{fault_of};
ghost use Rattle.pkix_name.specs.Characters.{codes_of};

/// The characters of a text that are left.
#[derive(Clone, Copy, Debug)]
pub enum Characters<'a> {
    /// An octet each.
    Octets(&'a [u8]),
    /// In UTF-8.
    Utf8(&'a str),
    /// Two octets each, the first the higher.
    Pairs(&'a [u8]),
    /// Four octets each, the first the highest.
    Quads(&'a [u8]),
}

/// The characters of these octets, which are a text in UTF-8.
#[tactic(auto, using(asn1_core::proofs::Units::utf8))]
pub fn utf8_characters(octets: &[u8]) -> Characters<'_>
    requires { fault_of utf8 octets.now ≡ None }
    ensures { codes_of result ≡ utf8.characters octets.now }
{
    match str::from_utf8(octets) {
        Ok(text) => Characters::Utf8(text),
        Err(_) => unreachable!(),
    }
}

/// The first character of a text in UTF-8, and what comes after it.
#[tactic(auto, using(crate::proofs::Texts::first, crate::proofs::Texts::none))]
fn first_of_utf8(text: &str) -> Option<(u32, &str)>
    ensures { MatchOption result (chars text.now ≡ []) (λ x. chars text.now ≡ x.0 ∷ chars x.1.now) }
{
    let mut characters = text.chars();
    let first = characters.next()?;
    Some((u32::from(first), characters.as_str()))
}

impl<'a> Iterator for Characters<'a> {
    ghost use Rattle.std.specs.Iterator.{YieldsFirst, item_count};

    type Item = u32;

    ghost next_gives = { YieldsFirst codes_of };

    ghost remaining = { item_count codes_of };

    fn next(&mut self) -> Option<u32> {
        match *self {
            Characters::Octets(octets) => {
                let [first, rest @ ..] = octets else {
                    return None;
                };
                *self = Characters::Octets(rest);
                Some(u32::from(*first))
            }
            Characters::Utf8(text) => {
                let (first, rest) = first_of_utf8(text)?;
                *self = Characters::Utf8(rest);
                Some(first)
            }
            Characters::Pairs(octets) => {
                let [high, low, rest @ ..] = octets else {
                    return None;
                };
                *self = Characters::Pairs(rest);
                Some(256 * u32::from(*high) + u32::from(*low))
            }
            Characters::Quads(octets) => {
                let [a, b, c, d, rest @ ..] = octets else {
                    return None;
                };
                *self = Characters::Quads(rest);
                Some(u32::from_be_bytes([*a, *b, *c, *d]))
            }
        }
    }
}
