ghost use Rattle.std.specs.Prelude.{◌≡◌, ◌^◌, ◌<◌, ◌≤◌, length, refl};
ghost use Rattle.asn1_core.specs.StringTypes.{scalar, numeric, printable, teletex, ia5, graphic, visible, general, bmp, universal_string, utf8};
ghost use Rattle.asn1_core.specs.Tags.{universal};

use crate::tag::Tag;
use crate::text::StringType;

/// The characters of NumericString.
pub struct Numeric;

impl StringType for Numeric {
    ghost string_type = { numeric };

    ghost TAG = { universal 18 };

    ghost WIDTH = { 1 };

    ghost tag_is = { refl };

    ghost width_is = { refl };

    const TAG: Tag = Tag::NUMERIC_STRING;

    const WIDTH: usize = 1;

    fn valid_len(octets: &[u8]) -> usize {
        octets
            .iter()
            .take_while(|b| b.is_ascii_digit() || **b == b' ')
            .count()
    }

    fn char_count(octets: &[u8]) -> usize {
        octets.len()
    }
}

/// The characters of PrintableString.
pub struct Printable;

impl StringType for Printable {
    ghost string_type = { printable };

    ghost TAG = { universal 19 };

    ghost WIDTH = { 1 };

    ghost tag_is = { refl };

    ghost width_is = { refl };

    const TAG: Tag = Tag::PRINTABLE_STRING;

    const WIDTH: usize = 1;

    fn valid_len(octets: &[u8]) -> usize {
        octets
            .iter()
            .take_while(|b| b.is_ascii_alphanumeric()
                || matches!(**b, b' ' | b'\'' ..= b')' | b'+' ..= b'/' | b':' | b'=' | b'?'))
            .count()
    }

    fn char_count(octets: &[u8]) -> usize {
        octets.len()
    }
}

/// The characters of TeletexString.
pub struct Teletex;

impl StringType for Teletex {
    ghost string_type = { teletex };

    ghost TAG = { universal 20 };

    ghost WIDTH = { 1 };

    ghost tag_is = { refl };

    ghost width_is = { refl };

    const TAG: Tag = Tag::TELETEX_STRING;

    const WIDTH: usize = 1;

    fn valid_len(octets: &[u8]) -> usize {
        octets.len()
    }

    fn char_count(octets: &[u8]) -> usize {
        octets.len()
    }
}

/// The characters of IA5String.
pub struct Ia5;

impl StringType for Ia5 {
    ghost string_type = { ia5 };

    ghost TAG = { universal 22 };

    ghost WIDTH = { 1 };

    ghost tag_is = { refl };

    ghost width_is = { refl };

    const TAG: Tag = Tag::IA5_STRING;

    const WIDTH: usize = 1;

    fn valid_len(octets: &[u8]) -> usize {
        octets.iter().take_while(|b| b.is_ascii()).count()
    }

    fn char_count(octets: &[u8]) -> usize {
        octets.len()
    }
}

/// The characters of GraphicString.
pub struct Graphic;

impl StringType for Graphic {
    ghost string_type = { graphic };

    ghost TAG = { universal 25 };

    ghost WIDTH = { 1 };

    ghost tag_is = { refl };

    ghost width_is = { refl };

    const TAG: Tag = Tag::GRAPHIC_STRING;

    const WIDTH: usize = 1;

    fn valid_len(octets: &[u8]) -> usize {
        octets.len()
    }

    fn char_count(octets: &[u8]) -> usize {
        octets.len()
    }
}

/// The characters of VisibleString.
pub struct Visible;

impl StringType for Visible {
    ghost string_type = { visible };

    ghost TAG = { universal 26 };

    ghost WIDTH = { 1 };

    ghost tag_is = { refl };

    ghost width_is = { refl };

    const TAG: Tag = Tag::VISIBLE_STRING;

    const WIDTH: usize = 1;

    fn valid_len(octets: &[u8]) -> usize {
        octets
            .iter()
            .take_while(|b| matches!(**b, b' '..=b'~'))
            .count()
    }

    fn char_count(octets: &[u8]) -> usize {
        octets.len()
    }
}

/// The characters of GeneralString.
pub struct General;

impl StringType for General {
    ghost string_type = { general };

    ghost TAG = { universal 27 };

    ghost WIDTH = { 1 };

    ghost tag_is = { refl };

    ghost width_is = { refl };

    const TAG: Tag = Tag::GENERAL_STRING;

    const WIDTH: usize = 1;

    fn valid_len(octets: &[u8]) -> usize {
        octets.len()
    }

    fn char_count(octets: &[u8]) -> usize {
        octets.len()
    }
}

fn is_scalar(code: u32) -> bool
    ensures { result ≡ scalar code }
{
    char::from_u32(code).is_some()
}

/// The characters of BMPString.
pub struct Bmp;

impl StringType for Bmp {
    ghost string_type = { bmp };

    ghost TAG = { universal 30 };

    ghost WIDTH = { 2 };

    ghost tag_is = { refl };

    ghost width_is = { refl };

    const TAG: Tag = Tag::BMP_STRING;

    const WIDTH: usize = 2;

    #[tactic(auto, using(crate::proofs::Units::ending))]
    fn valid_len(octets: &[u8]) -> usize {
        let mut rest = octets;
        while let [a, b, after @ ..] = rest {
            if !is_scalar(256 * u32::from(*a) + u32::from(*b)) {
                break;
            }
            rest = after;
        }
        octets.len() - rest.len()
    }

    #[tactic(auto, using(crate::proofs::Units::counting))]
    fn char_count(octets: &[u8]) -> usize {
        octets.len() / 2
    }
}

/// The characters of UniversalString.
pub struct Universal;

impl StringType for Universal {
    ghost string_type = { universal_string };

    ghost TAG = { universal 28 };

    ghost WIDTH = { 4 };

    ghost tag_is = { refl };

    ghost width_is = { refl };

    const TAG: Tag = Tag::UNIVERSAL_STRING;

    const WIDTH: usize = 4;

    #[tactic(auto, using(crate::proofs::Units::ending))]
    fn valid_len(octets: &[u8]) -> usize {
        let mut rest = octets;
        while let [a, b, c, d, after @ ..] = rest {
            if !is_scalar(u32::from_be_bytes([*a, *b, *c, *d])) {
                break;
            }
            rest = after;
        }
        octets.len() - rest.len()
    }

    #[tactic(auto, using(crate::proofs::Units::counting))]
    fn char_count(octets: &[u8]) -> usize {
        octets.len() / 4
    }
}

/// The characters of UTF8String.
pub struct Utf8;

impl StringType for Utf8 {
    ghost string_type = { utf8 };

    ghost TAG = { universal 12 };

    ghost WIDTH = { 1 };

    ghost tag_is = { refl };

    ghost width_is = { refl };

    const TAG: Tag = Tag::UTF8_STRING;

    const WIDTH: usize = 1;

    #[tactic(auto, using(crate::proofs::Units::utf8))]
    fn valid_len(octets: &[u8]) -> usize {
        match str::from_utf8(octets) {
            Ok(_) => octets.len(),
            Err(fault) => fault.valid_up_to(),
        }
    }

    #[tactic(auto, using(crate::proofs::Units::utf8))]
    fn char_count(octets: &[u8]) -> usize {
        match str::from_utf8(octets) {
            Ok(text) => text.chars().count(),
            Err(_) => unreachable!(),
        }
    }
}
