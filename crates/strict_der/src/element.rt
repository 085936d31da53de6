//! An element, and those within it (X.690, 8.1).
ghost use Rattle.std.specs.Prelude.{◌≡◌, Some};
ghost use Rattle.der_tree.specs.Element.{Element};
ghost use Rattle.der_tree.specs.Windows.{shown};
ghost use Rattle.strict_der.specs.Strict.{comes_after, has_contents, has_elements, has_form, is_ordered, is_sequence, is_strict, is_strict_within, is_universal, level_limit, rank, tags_ascend};

use crate::contents::are_contents;
use asn1_core::{Class, Tag};
use der_tree::{Fields, Window, one_window};

/// How many levels of elements are looked into, the outermost counted: octets with more aren't strict.
pub const LEVEL_LIMIT: u8 = 64;

pub(crate) fn is_universal(tag: Tag) -> bool
    ensures { result ≡ is_universal tag }
{
    match tag.class {
        Class::Universal => true,
        Class::Application | Class::Context | Class::Private => false,
    }
}

/// The place of the class in the order of tags (X.680, 8.6).
fn rank(class: Class) -> u8
    ensures { result ≡ rank class }
{
    match class {
        Class::Universal => 0,
        Class::Application => 1,
        Class::Context => 2,
        Class::Private => 3,
    }
}

/// Whether the tag comes after the other in the order of tags (X.680, 8.6).
fn comes_after(tag: Tag, other: Tag) -> bool
    ensures { result ≡ comes_after tag other }
{
    let place = rank(tag.class);
    let place_of_other = rank(other.class);
    place_of_other < place || (place == place_of_other && other.number < tag.number)
}

/// Whether no tag comes after the one that follows it (X.690, 10.3).
fn tags_ascend(fields: &Fields<'_>) -> bool
    ensures { result ≡ tags_ascend fields.now }
{
    let Some((window, mut left)) = fields.first() else {
        return true;
    };
    let mut before = window.tag();
    while let Some((window, rest)) = left.first() {
        let tag = window.tag();
        if comes_after(before, tag) {
            return false;
        }
        before = tag;
        left = rest;
    }
    true
}

/// Whether the elements are in order as a SET OF (X.690, 11.6) and as a SET (10.3).
fn is_ordered(fields: &Fields<'_>) -> bool
    ensures { result ≡ is_ordered fields.now }
{
    fields.are_in_order() && tags_ascend(fields)
}

/// Whether elements of the type are constructed, those within in any order.
pub(crate) fn is_sequence(number: u32) -> bool
    ensures { result ≡ is_sequence number }
{
    number == 8 || number == 11 || number == 16 || number == 29
}

/// Whether elements may occur in this order within a constructed element of the tag.
pub(crate) fn has_elements(tag: Tag, fields: &Fields<'_>) -> bool
    ensures { result ≡ has_elements tag (Some fields.now) }
{
    if !is_universal(tag) || is_sequence(tag.number) {
        return true;
    }
    tag.number == 17 && is_ordered(fields)
}

/// Whether the octets may be the contents of a primitive element of the tag.
pub(crate) fn has_contents(tag: Tag, octets: &[u8]) -> bool
    ensures { result ≡ has_contents tag octets.now }
{
    !is_universal(tag) || are_contents(tag.number, octets)
}

/// Whether the element has a form of its type, whatever is within it.
#[tactic(auto, unfolding(crate::specs::Strict::has_form))]
fn has_form(window: &Window<'_>) -> bool
    ensures { result ≡ has_form (shown window.now) }
{
    if !window.is_constructed() {
        return has_contents(window.tag(), window.content());
    }
    match window.fields() {
        Some(fields) => has_elements(window.tag(), &fields),
        None => false,
    }
}

/// Whether the element and those within it have their forms, on so many levels at most.
#[tactic(auto, using(crate::proofs::Walking::levels))]
fn is_strict_within(levels: u8, window: &Window<'_>) -> bool
    ensures { result ≡ is_strict_within levels (shown window.now) }
{
    if levels == 0 {
        return false;
    }
    if !has_form(window) {
        return false;
    }
    let Some(mut left) = window.fields() else {
        return true;
    };
    while let Some((element, rest)) = left.first() {
        if !is_strict_within(levels - 1, &element) {
            return false;
        }
        left = rest;
    }
    true
}

/// Whether the octets are one element (X.690, 8.1, with a definite, shortest length, 10.1) in which none, at any
/// depth, has a form that DER forbids for its universal type. The time is about that of reading the octets once.
///
/// Refused, since it isn't judged: a REAL with a mantissa, the types of times and of identifiers as texts that have
/// universal tags above 30 or 14, a fraction of a second with more than nine digits, and more than `LEVEL_LIMIT`
/// levels. Taken, and not judged: the characters of TeletexString, VideotexString, GraphicString, GeneralString and
/// ObjectDescriptor, the contents of a primitive element of another class, and what only a type's definition says:
/// defaults (11.5), bits with names (11.2.2), types with implicit tags.
#[tactic(auto, unfolding(crate::specs::Strict::is_strict))]
pub fn is_strict(octets: &[u8]) -> bool
    ensures { result ≡ is_strict octets.now }
{
    match one_window(octets) {
        Some(window) => is_strict_within(LEVEL_LIMIT, &window),
        None => false,
    }
}
