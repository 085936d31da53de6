//! What is asked of bytes.
use der_tree::der::{decode, encode};
use der_tree::{DecodeError, DerType, EncodeError};
use std::alloc::Global;

/// What a type has to do with bytes.
#[derive(Clone, Copy)]
pub enum Reading {
    /// They are the form of a value, which is written as they are.
    Same,
    /// They are no value's.
    Refused,
    /// The value that they would be has no form: a part is too short, too long or too large.
    OutOfRange,
    /// The same: a part that may be of any type is no single element.
    NotOneElement,
    /// None of these.
    Neither,
    /// There is no type of the name.
    NoType,
}

/// What values of the type have to do with the bytes.
pub fn read_as<T: DerType>(alloc: Global, form: &[u8]) -> Reading {
    match decode::<T>(alloc, form) {
        Ok(value) => written_again(alloc, &value, form),
        Err(DecodeError::NotInGrammar) => Reading::Refused,
        Err(_) => Reading::Neither,
    }
}

// What the value that was read has to do with them.
fn written_again<T: DerType>(alloc: Global, value: &T, form: &[u8]) -> Reading {
    match encode(alloc, value) {
        Ok(octets) if octets.as_slice() == form => Reading::Same,
        Ok(_) => Reading::Neither,
        Err(EncodeError::SizeOutOfRange) => Reading::OutOfRange,
        Err(EncodeError::NotOneElement) => Reading::NotOneElement,
        Err(_) => Reading::Neither,
    }
}

/// What the value has to do with them that was made of them, if one was.
pub fn written<T: DerType>(alloc: Global, made: Option<T>, form: &[u8]) -> Reading {
    match made {
        Some(value) => written_again(alloc, &value, form),
        None => Reading::Refused,
    }
}

/// What the type's value has to do with them that is made of what they are the form of.
pub fn written_as<T: DerType + From<U>, U: DerType>(alloc: Global, form: &[u8]) -> Reading {
    match decode::<U>(alloc, form) {
        Ok(parts) => written_again(alloc, &T::from(parts), form),
        Err(_) => Reading::Refused,
    }
}
