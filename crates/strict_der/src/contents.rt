//! The contents octets of primitive elements (X.690, 8 and 11).
ghost use Rattle.std.specs.Prelude.{◌≡◌, true, is_some};
ghost use Rattle.asn1_core.specs.Octets.{boolean_contents, null_contents};
ghost use Rattle.asn1_core.specs.StringTypes.{StringType};
ghost use Rattle.der_tree.specs.Primitive.{is_text};
ghost use Rattle.strict_der.specs.Contents.{are_characters, are_contents, are_subidentifiers, is_identifier, is_special_real, takes_any_octets};

use asn1_core::{
    BitString, BmpString, CharacterString, GeneralizedTime, Ia5String, Integer, NumericString,
    PrintableString, StringType, UniversalString, UtcTime, Utf8String, VisibleString,
};

/// A restricted character string type, of which octets are looked at without memory.
trait Characters {
    ghost string_type: { StringType };

    /// Whether the octets are whole characters of the type.
    fn are(octets: &[u8]) -> bool
        ensures { result ≡ is_text string_type octets.now };
}

impl<S: StringType> Characters for CharacterString<S> {
    ghost string_type = { S.string_type };

    fn are(octets: &[u8]) -> bool {
        octets.len() % S::WIDTH == 0 && S::valid_len(octets) == octets.len()
    }
}

/// Whether the octets are whole subidentifiers (X.690, 8.19.2).
fn are_subidentifiers(octets: &[u8]) -> bool
    ensures { result ≡ are_subidentifiers true octets.now }
{
    let mut begins = true;
    for octet in octets {
        if begins && *octet == 128 {
            return false;
        }
        begins = *octet < 128;
    }
    begins
}

/// Whether they are at least one (X.690, 8.19 and 8.20).
fn is_identifier(octets: &[u8]) -> bool
    ensures { result ≡ is_identifier octets.now }
{
    !octets.is_empty() && are_subidentifiers(octets)
}

/// Whether they are a REAL without a mantissa (X.690, 8.5.2 and 8.5.9).
fn is_special_real(octets: &[u8]) -> bool
    ensures { result ≡ is_special_real octets.now }
{
    match octets {
        [] => true,
        [octet] => 64 <= *octet && *octet <= 67,
        _ => false,
    }
}

/// Whether they are the truth or falsehood (X.690, 11.1).
#[tactic(auto, unfolding(asn1_core::specs::Octets::boolean_contents))]
fn is_boolean(octets: &[u8]) -> bool
    ensures { result ≡ is_some (boolean_contents.of octets.now) }
{
    match octets {
        [255] => true,
        [0] => true,
        _ => false,
    }
}

/// Whether there are none (X.690, 8.8).
#[tactic(auto, unfolding(asn1_core::specs::Octets::null_contents))]
fn is_null(octets: &[u8]) -> bool
    ensures { result ≡ is_some (null_contents.of octets.now) }
{
    octets.is_empty()
}

/// Whether any octets are contents of the type.
fn takes_any_octets(number: u32) -> bool
    ensures { result ≡ takes_any_octets number }
{
    number == 4 || number == 7 || number == 20 || number == 21 || number == 25 || number == 27
}

/// Whether the octets are whole characters of the type (X.690, 8.23).
#[tactic(auto, unfolding(crate::specs::Contents::are_characters))]
fn are_characters(number: u32, octets: &[u8]) -> bool
    ensures { result ≡ are_characters number octets.now }
{
    if number == 12 {
        return Utf8String::are(octets);
    }
    if number == 18 {
        return NumericString::are(octets);
    }
    if number == 19 {
        return PrintableString::are(octets);
    }
    if number == 22 {
        return Ia5String::are(octets);
    }
    if number == 26 {
        return VisibleString::are(octets);
    }
    if number == 28 {
        return UniversalString::are(octets);
    }
    number == 30 && BmpString::are(octets)
}

/// Whether the octets are the contents of a primitive element of the type with this universal number.
#[tactic(auto, unfolding(crate::specs::Contents::are_contents))]
pub(crate) fn are_contents(number: u32, octets: &[u8]) -> bool
    ensures { result ≡ are_contents number octets.now }
{
    if number == 1 {
        return is_boolean(octets);
    }
    if number == 2 || number == 10 {
        return Integer::is_contents(octets);
    }
    if number == 3 {
        return BitString::is_contents(octets);
    }
    if number == 5 {
        return is_null(octets);
    }
    if number == 6 || number == 13 {
        return is_identifier(octets);
    }
    if number == 9 {
        return is_special_real(octets);
    }
    if number == 23 {
        return UtcTime::from_contents(octets).is_some();
    }
    if number == 24 {
        return GeneralizedTime::from_contents(octets).is_some();
    }
    takes_any_octets(number) || are_characters(number, octets)
}
