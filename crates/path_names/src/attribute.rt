//! Attributes that match (RFC 5280, 7.1).
ghost use Rattle.std.specs.Prelude.{◌≡◌, Some};
ghost use Rattle.std.specs.List.{list_all, list_any};
ghost use Rattle.der_tree.specs.Element.{one_element};
ghost use Rattle.der_tree.specs.Windows.{shown};
ghost use Rattle.path_names.specs.Comparing.{compared_as};
ghost use Rattle.path_names.specs.NameMatching.{are_equal, attributes_match, compared, has_defined_value, has_each};

use crate::mapped::is_preparable;
use crate::significant::are_prepared_alike;
use crate::text::{characters_in, is_text_type};
use der_tree::{Any, Window, one_window};
use pkix_name::{AttributeTypeAndValue, Characters};

/// What the value of an attribute is compared by.
#[derive(Clone, Copy, Debug)]
enum ComparedValue<'a> {
    /// A text, which is prepared as it is compared.
    Text(Characters<'a>),
    /// The octets of a text that can't be prepared.
    Unprepared(&'a [u8]),
    /// The octets of any other value.
    Octets(&'a [u8]),
}

fn compared_window<'a>(octets: &'a [u8], window: Window<'a>) -> ComparedValue<'a>
    requires { one_element octets.now ≡ Some (shown window) }
    ensures { compared_as result ≡ compared octets.now }
{
    if !is_text_type(window.tag()) {
        return ComparedValue::Octets(octets);
    }
    let Some(characters) = characters_in(window) else {
        return ComparedValue::Unprepared(octets);
    };
    if is_preparable(characters) {
        ComparedValue::Text(characters)
    } else {
        ComparedValue::Unprepared(octets)
    }
}

fn compared(value: &Any) -> ComparedValue<'_>
    ensures { compared_as result ≡ compared value.now }
{
    let octets = value.as_bytes();
    match one_window(octets) {
        Some(window) => compared_window(octets, window),
        None => ComparedValue::Unprepared(octets),
    }
}

fn are_equal(a: ComparedValue<'_>, b: ComparedValue<'_>) -> bool
    ensures { result ≡ are_equal (compared_as a.entry) (compared_as b.entry) }
{
    match (a, b) {
        (ComparedValue::Text(a), ComparedValue::Text(b)) => are_prepared_alike(a, b),
        (ComparedValue::Unprepared(a), ComparedValue::Unprepared(b)) => a == b,
        (ComparedValue::Octets(a), ComparedValue::Octets(b)) => a == b,
        _ => false,
    }
}

fn attributes_match(a: &AttributeTypeAndValue, b: &AttributeTypeAndValue) -> bool
    ensures { result ≡ attributes_match a.now b.now }
{
    a.attr_type == b.attr_type && are_equal(compared(&a.value), compared(&b.value))
}

fn has_match(a: &AttributeTypeAndValue, others: &[AttributeTypeAndValue]) -> bool
    ensures { result ≡ list_any (attributes_match a.now) others.now }
{
    others.iter().any(|b| attributes_match(a, b))
}

/// Whether each of the attributes matches one of the others.
pub(crate) fn has_each(
    attributes: &[AttributeTypeAndValue],
    others: &[AttributeTypeAndValue],
) -> bool
    ensures { result ≡ has_each attributes.now others.now }
{
    attributes.iter().all(|a| has_match(a, others))
}

fn has_defined_value(a: &AttributeTypeAndValue) -> bool
    ensures { result ≡ has_defined_value a.now }
{
    match compared(&a.value) {
        ComparedValue::Unprepared(_) => false,
        ComparedValue::Text(_) | ComparedValue::Octets(_) => true,
    }
}

/// Whether each of the attributes has a value that can be compared.
pub(crate) fn have_defined_values(attributes: &[AttributeTypeAndValue]) -> bool
    ensures { result ≡ list_all has_defined_value attributes.now }
{
    attributes.iter().all(|a| has_defined_value(a))
}
