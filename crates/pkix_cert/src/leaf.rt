use crate::seen::{Plain, Shown, contents};
use asn1_core::{
    BitString, GeneralizedTime, Integer, ObjectIdentifier, OctetString, Tag, UtcTime,
    u64_from_contents,
};
use der_tree::{Any, Window};

impl Shown for Any {
    fn is_shown(_window: Window<'_>) -> bool {
        true
    }
}

impl Shown for OctetString {
    #[tactic(auto, unfolding(asn1_core::specs::Octets::octet_contents))]
    fn is_shown(window: Window<'_>) -> bool {
        contents(window, Tag::OCTET_STRING).is_some()
    }
}

impl Shown for Integer {
    fn is_shown(window: Window<'_>) -> bool {
        match contents(window, Tag::INTEGER) {
            None => false,
            Some(contents) => Integer::is_contents(contents),
        }
    }
}

impl Shown for BitString {
    fn is_shown(window: Window<'_>) -> bool {
        match contents(window, Tag::BIT_STRING) {
            None => false,
            Some(contents) => BitString::is_contents(contents),
        }
    }
}

impl Shown for ObjectIdentifier {
    fn is_shown(window: Window<'_>) -> bool {
        match contents(window, Tag::OBJECT_IDENTIFIER) {
            None => false,
            Some(contents) => ObjectIdentifier::is_contents(contents),
        }
    }
}

impl Plain for bool {
    #[tactic(auto, unfolding(asn1_core::specs::Octets::boolean_contents))]
    fn plain(window: Window<'_>) -> Option<Self> {
        match contents(window, Tag::BOOL)? {
            [255] => Some(true),
            [0] => Some(false),
            _ => None,
        }
    }
}

impl Plain for u64 {
    fn plain(window: Window<'_>) -> Option<Self> {
        u64_from_contents(contents(window, Tag::INTEGER)?)
    }
}

impl Plain for UtcTime {
    fn plain(window: Window<'_>) -> Option<Self> {
        UtcTime::from_contents(contents(window, Tag::UTC_TIME)?)
    }
}

impl Plain for GeneralizedTime {
    fn plain(window: Window<'_>) -> Option<Self> {
        GeneralizedTime::from_contents(contents(window, Tag::GENERALIZED_TIME)?)
    }
}
