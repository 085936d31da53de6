//! The first offence against DER: where it is, and which rule it breaks.
ghost use Rattle.std.specs.Prelude.{◌≡◌, ◌<◌, ◌+◌, ◌^◌, ℕ, List, length, is_none};
ghost use Rattle.der_tree.specs.Element.{element_octets};
ghost use Rattle.der_tree.specs.Windows.{shown, whole_of};
ghost use Rattle.strict_der.specs.Offences.{contents_rule, element_offence, header_rule, is_constructed_type, is_not_shortest, is_string_type, offence_of, order_rule, own_rule};
ghost use Rattle.strict_der.specs.Strict.{is_strict};

use crate::element::{LEVEL_LIMIT, has_contents, has_elements, is_sequence, is_universal};
use der_tree::{Window, read_window};

/// A rule of DER (X.690), for elements of any type.
#[derive(Clone, Copy, Debug, PartialEq, Eq)]
pub enum Rule {
    /// A tag number above 30 and the length after it are in their shortest forms (8.1.2.4, 10.1). A number of 2^32 or
    /// more isn't read.
    HighTag,
    /// No length is of the indefinite form (10.1).
    Indefinite,
    /// A length has at most eight octets, which isn't DER's rule, but the most that is read.
    LongLength,
    /// A length is in its shortest form (10.1).
    LengthForm,
    /// An element ends within what it is in (8.1).
    Incomplete,
    /// Nothing comes after the element that is the outermost.
    Trailing,
    /// At most so many levels of elements are looked into, which isn't DER's rule.
    Depth,
    /// A BOOLEAN is 00 or FF (11.1).
    Boolean,
    /// An INTEGER or ENUMERATED has the fewest octets (8.3.2, 8.4).
    Integer,
    /// A BIT STRING has at most 7 unused bits, which are zero (8.6.2, 11.2.1).
    BitString,
    /// A NULL is empty (8.8).
    Null,
    /// The subidentifiers of an OBJECT IDENTIFIER are whole and have the fewest octets (8.19.2).
    Identifier,
    /// A REAL without a mantissa; others aren't judged (8.5).
    Real,
    /// A UTCTime has seconds and Z, and is a time (11.8).
    UtcTime,
    /// A GeneralizedTime has seconds, no zero at the end of a fraction, and Z, and is a time (11.7).
    GeneralizedTime,
    /// A string has the characters of its type (8.23).
    Characters,
    /// A string, a time or another simple type is primitive (10.2).
    Constructed,
    /// A SEQUENCE or SET is constructed (8.9, 8.11).
    Primitive,
    /// No type that is known has this universal tag (X.680, 8.4).
    UnknownType,
    /// The elements of a SET OF, and those of a SET, are in order (10.3, 11.6).
    Order,
}

/// Where a rule is broken.
#[derive(Clone, Copy, Debug, PartialEq, Eq)]
pub struct Offence {
    /// How many octets come before the element that breaks it, or before what should be an element.
    pub at: usize,
    /// The rule.
    pub rule: Rule,
}

/// Whether a length in the long form isn't the shortest.
fn is_not_shortest(length: u8, octets: &[u8]) -> bool
    ensures { result ≡ is_not_shortest length octets.now }
{
    match octets {
        [] => false,
        [first, ..] => *first == 0 || (length == 129 && *first < 128),
    }
}

/// Why no element begins with these octets.
fn header_rule(octets: &[u8]) -> Rule
    ensures { result ≡ header_rule octets.now }
{
    let [first, length, rest @ ..] = octets else {
        return Rule::Incomplete;
    };
    if *first % 32 == 31 {
        return Rule::HighTag;
    }
    if *length == 128 {
        return Rule::Indefinite;
    }
    if *length > 136 {
        return Rule::LongLength;
    }
    if *length > 128 && is_not_shortest(*length, rest) {
        return Rule::LengthForm;
    }
    Rule::Incomplete
}

/// Whether the type is one of characters that are looked at.
fn is_string_type(number: u32) -> bool
    ensures { result ≡ is_string_type number }
{
    number == 12
        || number == 18
        || number == 19
        || number == 22
        || number == 26
        || number == 28
        || number == 30
}

/// Whether elements of the type are constructed.
fn is_constructed_type(number: u32) -> bool
    ensures { result ≡ is_constructed_type number }
{
    is_sequence(number) || number == 17
}

/// The rule on the contents octets of a primitive element of the type.
fn contents_rule(number: u32) -> Rule
    ensures { result ≡ contents_rule number }
{
    if number == 1 {
        return Rule::Boolean;
    }
    if number == 2 || number == 10 {
        return Rule::Integer;
    }
    if number == 3 {
        return Rule::BitString;
    }
    if number == 5 {
        return Rule::Null;
    }
    if number == 6 || number == 13 {
        return Rule::Identifier;
    }
    if number == 9 {
        return Rule::Real;
    }
    if number == 23 {
        return Rule::UtcTime;
    }
    if number == 24 {
        return Rule::GeneralizedTime;
    }
    if is_string_type(number) {
        return Rule::Characters;
    }
    if is_constructed_type(number) {
        return Rule::Primitive;
    }
    Rule::UnknownType
}

/// The rule that an element breaks, whatever is within it.
fn own_rule(window: &Window<'_>) -> Option<Rule>
    ensures { result ≡ own_rule (shown window.now) }
{
    let tag = window.tag();
    if window.is_constructed() {
        if !is_universal(tag) || is_constructed_type(tag.number) {
            return None;
        }
        return Some(Rule::Constructed);
    }
    if has_contents(tag, window.content()) {
        return None;
    }
    Some(contents_rule(tag.number))
}

/// The rule that the order of the elements within one breaks.
fn order_rule(window: &Window<'_>) -> Option<Rule>
    ensures { result ≡ order_rule (shown window.now) }
{
    let fields = window.fields()?;
    if has_elements(window.tag(), &fields) {
        None
    } else {
        Some(Rule::Order)
    }
}

/// The first offence of the element that begins at this place, on so many levels at most.
#[tactic(auto, using(crate::proofs::Offences::levels, crate::proofs::Offences::next_fits))]
fn element_offence(levels: u8, at: usize, window: &Window<'_>) -> Option<Offence>
    requires whole { whole_of window.now ≡ element_octets (shown window.now) }
    requires room { at + length (whole_of window.now) < 2 ^ 64 }
    ensures { result ≡ element_offence levels at (shown window.now) }
{
    if levels == 0 {
        return Some(Offence {
            at,
            rule: Rule::Depth,
        });
    }
    if let Some(rule) = own_rule(window) {
        return Some(Offence { at, rule });
    }
    if !window.is_constructed() {
        return None;
    }
    let mut left = window.content();
    let mut place = at + (window.whole().len() - left.len());
    while !left.is_empty() {
        let Ok((element, rest)) = read_window(left) else {
            return Some(Offence {
                at: place,
                rule: header_rule(left),
            });
        };
        if let Some(offence) = element_offence(levels - 1, place, &element) {
            return Some(offence);
        }
        place += element.whole().len();
        left = rest;
    }
    match order_rule(window) {
        Some(rule) => Some(Offence { at, rule }),
        None => None,
    }
}

/// The first offence against DER in octets that should be one element: its own form comes first, then what is within
/// it, from beginning to end, then the order within it. None exactly where the octets are strict, as
/// `no_offence_is_strict` says. The time is about that of reading the octets once.
#[tactic(auto, unfolding(crate::specs::Offences::offence_of))]
pub fn first_offence(octets: &[u8]) -> Option<Offence>
    ensures { result ≡ offence_of octets.now }
{
    let Ok((window, rest)) = read_window(octets) else {
        return Some(Offence {
            at: 0,
            rule: header_rule(octets),
        });
    };
    if let Some(offence) = element_offence(LEVEL_LIMIT, 0, &window) {
        return Some(offence);
    }
    if rest.is_empty() {
        return None;
    }
    Some(Offence {
        at: window.whole().len(),
        rule: Rule::Trailing,
    })
}

/// A law: octets are strict exactly where they have no offence.
#[tactic(auto, using(crate::proofs::Offences::none_is_strict))]
pub fn no_offence_is_strict()
    ensures { (octets : List ℕ) → is_none (offence_of octets) ≡ is_strict octets }
{}
