//! Characters that hide, that act on a terminal, or that change where other characters are shown (Unicode 18.0).
ghost use Rattle.std.specs.Prelude.{◌≡◌};
ghost use Rattle.shown_text.specs.Hidden.{is_hidden, is_in, is_right_to_left, is_shown};

/// From the first code to the last.
type Range = (u32, u32);

/// The hidden characters, in ascending order: the general categories Cc, Cf, Zl, Zp, Zs but for U+0020, Cs and Co, what
/// has Default_Ignorable_Code_Point, noncharacters, and five more that show nothing or represent what isn't there. From
/// the fourth plane on nothing shows: planes 4 to 13 have no characters, plane 14 has tags and selectors of variants,
/// the last two are private.
const HIDDEN: &[Range] = &[
    (0x0, 0x1f), // controls
    (0x7f, 0xa0), // controls, no-break space
    (0xad, 0xad), // soft hyphen
    (0x34f, 0x34f), // combining grapheme joiner
    (0x600, 0x605), // Arabic number signs
    (0x61c, 0x61c), // Arabic letter mark
    (0x6dd, 0x6dd), // Arabic end of ayah
    (0x70f, 0x70f), // Syriac abbreviation mark
    (0x890, 0x891), // Arabic marks above numbers
    (0x8e2, 0x8e2), // Arabic disputed end of ayah
    (0x115f, 0x1160), // Hangul fillers
    (0x1680, 0x1680), // Ogham space
    (0x17b4, 0x17b5), // Khmer vowels that aren't written
    (0x180b, 0x180f), // Mongolian selectors and vowel separator
    (0x2000, 0x200f), // spaces, joiners, marks of direction
    (0x2028, 0x202f), // separators of lines, embeddings and overrides of direction, narrow space
    (0x205f, 0x206f), // mathematical space, joiners, isolates of direction, deprecated formats
    (0x2800, 0x2800), // blank Braille pattern
    (0x3000, 0x3000), // ideographic space
    (0x3164, 0x3164), // Hangul filler
    (0xd800, 0xf8ff), // surrogates, private use
    (0xfdd0, 0xfdef), // noncharacters
    (0xfe00, 0xfe0f), // selectors of variants
    (0xfeff, 0xfeff), // zero width no-break space
    (0xffa0, 0xffa0), // halfwidth Hangul filler
    (0xfff0, 0xffff), // ignorables, interlinear annotations, replacement characters, noncharacters
    (0x110bd, 0x110bd), // Kaithi number sign
    (0x110cd, 0x110cd), // Kaithi number sign above
    (0x13430, 0x1343f), // formats of Egyptian hieroglyphs
    (0x16fe4, 0x16fe4), // Khitan filler
    (0x1bca0, 0x1bca3), // shorthand formats
    (0x1d173, 0x1d17a), // formats of music
    (0x1fffe, 0x1ffff), // noncharacters
    (0x2fffe, 0x2ffff), // noncharacters
    (0x3fffe, 0xffffffff), // noncharacters, and all from the fourth plane on
];

/// The blocks of scripts that run from right to left: wherever a character has or may get Bidi_Class R or AL.
const RIGHT_TO_LEFT: &[Range] = &[
    (0x590, 0x8ff), // Hebrew, Arabic, Syriac, Thaana, NKo, Samaritan, Mandaic
    (0xfb1d, 0xfdcf), // presentation forms of Hebrew and Arabic
    (0xfdf0, 0xfdff), // presentation forms of Arabic
    (0xfe70, 0xfeff), // presentation forms of Arabic
    (0x10800, 0x10fff), // Cypriot to Elymaic
    (0x1e800, 0x1efff), // Mende Kikakui, Adlam, Arabic mathematics
];

fn is_in(ranges: &[Range], code: u32) -> bool
    ensures { result ≡ is_in ranges.now code }
{
    ranges
        .iter()
        .any(|range| range.0 <= code && code <= range.1)
}

/// Whether a code is that of a hidden character, or of no character: a control, a format, a mark of direction, a selector of variants,
/// a tag, a space other than U+0020, a blank, a private one.
#[tactic(auto, unfolding(crate::specs::Hidden::is_hidden))]
pub fn is_hidden_code(code: u32) -> bool
    ensures { result ≡ is_hidden code }
{
    is_in(HIDDEN, code)
}

/// Whether a character is hidden.
pub fn is_hidden(character: char) -> bool
    ensures { result ≡ is_hidden character }
{
    is_hidden_code(u32::from(character))
}

/// Whether a code belongs to a script that runs from right to left, which reorders what is next to it.
#[tactic(auto, unfolding(crate::specs::Hidden::is_right_to_left))]
pub fn is_right_to_left(code: u32) -> bool
    ensures { result ≡ is_right_to_left code }
{
    is_in(RIGHT_TO_LEFT, code)
}

/// Whether a character is shown as it is: it is neither hidden nor of a script that runs from right to left.
#[tactic(auto, unfolding(crate::specs::Hidden::is_shown))]
pub fn is_shown(code: u32) -> bool
    ensures { result ≡ is_shown code }
{
    !is_hidden_code(code) && !is_right_to_left(code)
}
