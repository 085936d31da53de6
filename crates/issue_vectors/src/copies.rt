//! Copies of what names and errors hold.
use rcgen_issue::{DnValue, Error, InvalidAsn1String, IpAddr, OtherNameValue, SanType};
use std::alloc::Global;

fn other_value(alloc: Global) -> Option<OtherNameValue> {
    Some(OtherNameValue::from(String::from_str(alloc, "Foo").ok()?))
}

fn is_value_copied(alloc: Global) -> bool {
    match other_value(alloc) {
        Some(value) => value.try_clone(alloc).is_ok_and(|copy| copy == value),
        None => false,
    }
}

fn other_name(alloc: Global) -> Option<SanType> {
    let arcs = Vec::from_slice(alloc, &[1, 2, 3, 4]).ok()?;
    Some(SanType::OtherName((arcs, other_value(alloc)?)))
}

fn is_name_copied(alloc: Global) -> bool {
    match other_name(alloc) {
        Some(name) => name.try_clone(alloc).is_ok_and(|copy| copy == name),
        None => false,
    }
}

fn is_address_copied(alloc: Global) -> bool {
    let name = SanType::IpAddress(IpAddr::V4([127, 0, 0, 1]));
    name.try_clone(alloc).is_ok_and(|copy| copy == name)
}

fn is_attribute_copied(alloc: Global) -> bool {
    match String::from_str(alloc, "a") {
        Ok(text) => {
            let value = DnValue::from(text);
            value.try_clone(alloc).is_ok_and(|copy| copy == value)
        }
        Err(_) => false,
    }
}

fn refused_text(alloc: Global) -> Option<InvalidAsn1String> {
    Some(InvalidAsn1String::Ia5String(String::from_str(alloc, "é").ok()?))
}

fn is_refused_text_copied(alloc: Global) -> bool {
    match refused_text(alloc) {
        Some(text) => text.try_clone(alloc).is_ok_and(|copy| copy == text),
        None => false,
    }
}

fn is_error_copied(alloc: Global) -> bool {
    match refused_text(alloc) {
        Some(text) => {
            let error = Error::InvalidAsn1String(text);
            error.try_clone(alloc).is_ok_and(|copy| copy == error)
        }
        None => false,
    }
}

#[test]
fn copies_are_equal(rt: HostRuntime) {
    assert!(rt; is_value_copied(rt.alloc()) && is_name_copied(rt.alloc()));
    assert!(rt; is_address_copied(rt.alloc()) && is_attribute_copied(rt.alloc()));
    assert!(rt; is_refused_text_copied(rt.alloc()) && is_error_copied(rt.alloc()));
}
