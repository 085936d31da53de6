//! The texts of a window, without memory (X.680, 41).
ghost use Rattle.std.specs.Prelude.{◌≡◌};
ghost use Rattle.std.specs.Char.{is_ascii};
ghost use Rattle.std.specs.List.{list_all};
ghost use Rattle.std.specs.Option.{option_map};
ghost use Rattle.asn1_core.specs.StringTypes.{StringType, utf8};
ghost use Rattle.der_tree.specs.Primitive.{is_text};
ghost use Rattle.der_tree.specs.Windows.{shown};
ghost use Rattle.path_names.specs.NameMatching.{ascii_types, characters_in, characters_of, is_text_type, same_text, text_types};
ghost use Rattle.pkix_name.specs.Characters.{codes_of};

use crate::character::{Range, is_in};
use asn1_core::{BmpString, CharacterString, Class, StringType, Tag, UniversalString, Utf8String};
use der_tree::Window;
use pkix_name::{Characters, utf8_characters};

/// ObjectDescriptor, UTF8String, NumericString to IA5String, and GraphicString to BMPString.
const TEXT_TYPES: &[Range] = &[(7, 7), (12, 12), (18, 22), (25, 30)];

/// NumericString, PrintableString, TeletexString, IA5String, and VisibleString.
const ASCII_TYPES: &[Range] = &[(18, 20), (22, 22), (26, 26)];

/// Whether the tag is that of a type of texts.
pub(crate) fn is_text_type(tag: Tag) -> bool
    ensures { result ≡ is_text_type tag }
{
    tag.class == Class::Universal && is_in(TEXT_TYPES, tag.number)
}

fn is_ascii(octets: &[u8]) -> bool
    ensures { result ≡ list_all is_ascii octets.now }
{
    octets.iter().all(|octet| octet.is_ascii())
}

/// A type of texts of which octets can be.
trait SeenText {
    ghost string_type: { StringType };

    /// Whether the contents octets are a text of the type.
    fn is_text(octets: &[u8]) -> bool
        ensures { result ≡ is_text string_type octets.now };
}

impl<S: StringType> SeenText for CharacterString<S> {
    ghost string_type = { S.string_type };

    fn is_text(octets: &[u8]) -> bool {
        octets.len() % S::WIDTH == 0 && S::valid_len(octets) == octets.len()
    }
}

/// Whether the octets are a text in UTF-8.
pub(crate) fn is_utf8(octets: &[u8]) -> bool
    ensures { result ≡ is_text utf8 octets.now }
{
    Utf8String::is_text(octets)
}

fn characters_of(number: u32, octets: &[u8]) -> Option<Characters<'_>>
    ensures { option_map codes_of result ≡ characters_of number octets.now }
{
    if is_in(ASCII_TYPES, number) {
        if is_ascii(octets) {
            Some(Characters::Octets(octets))
        } else {
            None
        }
    } else if number == Tag::UTF8_STRING.number {
        if is_utf8(octets) {
            Some(utf8_characters(octets))
        } else {
            None
        }
    } else if number == Tag::UNIVERSAL_STRING.number {
        if UniversalString::is_text(octets) {
            Some(Characters::Quads(octets))
        } else {
            None
        }
    } else if number == Tag::BMP_STRING.number {
        if BmpString::is_text(octets) {
            Some(Characters::Pairs(octets))
        } else {
            None
        }
    } else {
        None
    }
}

/// The characters of the text that the window shows, which is of a type of texts; none where they
/// aren't known.
pub(crate) fn characters_in(window: Window<'_>) -> Option<Characters<'_>>
    ensures { option_map codes_of result ≡ characters_in (shown window.entry) }
{
    if window.is_constructed() {
        return None;
    }
    characters_of(window.tag().number, window.content())
}

/// Whether the texts are the same, without the case of ASCII.
#[tactic(auto, using(crate::proofs::Texts::decided))]
pub(crate) fn same_text(a: &[u8], b: &[u8]) -> bool
    ensures { result ≡ same_text a.now b.now }
{
    a.eq_ignore_ascii_case(b)
}
