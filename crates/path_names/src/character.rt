//! Characters that are mapped to nothing or to a space when a text is prepared (RFC 4518, 2.2).
ghost use Rattle.std.specs.Prelude.{◌≡◌};
ghost use Rattle.path_names.specs.Preparation.{is_in, mapped_to_nothing, mapped_to_space};

/// From the first code to the second.
pub(crate) type Range = (u32, u32);

const MAPPED_TO_NOTHING: &[Range] = &[
    (0x00, 0x08),
    (0x0e, 0x1f),
    (0x7f, 0x84),
    (0x86, 0x9f),
    (0xad, 0xad),
    (0x34f, 0x34f),
    (0x6dd, 0x6dd),
    (0x70f, 0x70f),
    (0x1806, 0x1806),
    (0x180b, 0x180e),
    (0x200b, 0x200f),
    (0x202a, 0x202e),
    (0x2060, 0x2063),
    (0x206a, 0x206f),
    (0xfe00, 0xfe0f),
    (0xfeff, 0xfeff),
    (0xfff9, 0xfffc),
    (0x1d173, 0x1d17a),
    (0xe0001, 0xe0001),
    (0xe0020, 0xe007f),
];

const MAPPED_TO_SPACE: &[Range] = &[
    (0x09, 0x0d),
    (0x20, 0x20),
    (0x85, 0x85),
    (0xa0, 0xa0),
    (0x1680, 0x1680),
    (0x2000, 0x200a),
    (0x2028, 0x2029),
    (0x202f, 0x202f),
    (0x205f, 0x205f),
    (0x3000, 0x3000),
];

pub(crate) fn is_in(ranges: &[Range], code: u32) -> bool
    ensures { result ≡ is_in ranges.now code }
{
    ranges
        .iter()
        .any(|range| range.0 <= code && code <= range.1)
}

/// Whether the character is mapped to nothing.
pub(crate) fn is_ignored(code: u32) -> bool
    ensures { result ≡ is_in mapped_to_nothing code }
{
    is_in(MAPPED_TO_NOTHING, code)
}

/// Whether the character is mapped to a space.
pub(crate) fn is_separator(code: u32) -> bool
    ensures { result ≡ is_in mapped_to_space code }
{
    is_in(MAPPED_TO_SPACE, code)
}
