//! Parts of a value, made of the parts of what would be its form, whether or not the value has one.
use asn1_core::{CharacterString, Integer, ObjectIdentifier, StringType};
use der_tree::{Any, Children, DerType, SequenceOf, Window, read_window};
use std::alloc::Global;

/// The element at the front of the octets.
pub fn window_of(form: &[u8]) -> Option<Window<'_>> {
    let (window, _) = read_window(form).ok()?;
    Some(window)
}

/// The elements within that element.
pub fn parts_of(form: &[u8]) -> Option<Children<'_>> {
    window_of(form)?.children()
}

/// The text of the element's contents, of however many characters.
pub fn text<S: StringType>(alloc: Global, window: Window<'_>) -> Option<CharacterString<S>> {
    CharacterString::new(alloc, window.content()).ok()
}

/// The text of the next part's contents.
pub fn next_text<S: StringType>(
    alloc: Global,
    parts: &mut Children<'_>,
) -> Option<CharacterString<S>> {
    text(alloc, parts.next()?)
}

/// The identifier of the element's contents.
pub fn identifier(alloc: Global, window: Window<'_>) -> Option<ObjectIdentifier> {
    ObjectIdentifier::from_contents(alloc, window.content()).ok()?
}

/// The number of the element's contents.
pub fn integer(alloc: Global, window: Window<'_>) -> Option<Integer> {
    Integer::from_contents(alloc, window.content()).ok()?
}

/// Whatever these octets are.
pub fn any(alloc: Global, octets: &[u8]) -> Option<Any> {
    Some(Any::new(octets.to_vec(alloc).ok()?))
}

/// The list of one value.
pub fn list_of<T: DerType>(alloc: Global, item: T) -> Option<SequenceOf<T>> {
    let mut items = SequenceOf::new(alloc);
    items.push(item).ok()?;
    Some(items)
}
