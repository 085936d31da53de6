//! Serial numbers and numbers of days as words.
ghost use Rattle.std.specs.Prelude.{◌≡◌, IfOk, IfSome, string_bytes};
ghost use Rattle.hex.specs.Hex.{encode_lower};
ghost use Rattle.shelf_register.specs.Options.{IsNumber, digits_in, even};

use crate::halt::{Halt, bad_input_with};
use crate::told::shown;
use asn1_core::Integer;
use register_record::Certificate;
use std::alloc::{AllocError, Global};

/// So many days there may be: a hundred years.
const MOST_DAYS: i64 = 36_525;

/// The digits of a serial number, without 0x before them.
fn digits_in(text: &[u8]) -> &[u8]
    ensures { result.now ≡ digits_in text.now }
{
    if text.starts_with(b"0x") {
        text.get(2..).unwrap_or(&[])
    } else {
        text
    }
}

/// The digits, with a zero before an odd number of them.
fn even(alloc: Global, digits: &[u8]) -> Result<Vec<u8>, AllocError>
    ensures { IfOk result (λ all. all.items ≡ even digits.now) }
{
    let mut all = Vec::new(alloc);
    if digits.len() % 2 == 1 {
        all.push(b'0')?;
    }
    all.extend_from_slice(digits)?;
    Ok(all)
}

/// The serial number of hexadecimal digits.
fn serial_named(alloc: Global, text: &[u8]) -> Result<Option<Integer>, AllocError>
    ensures { IfOk result (λ o. IfSome o (λ serial. IsNumber text.now serial)) }
{
    let digits = even(alloc, digits_in(text))?;
    match hex::decode(alloc, digits.as_slice()) {
        Ok(octets) if !octets.is_empty() && octets.len() <= 21 => {
            let serial = Integer::from_unsigned(alloc, octets.as_slice())?;
            Ok(Some(serial))
        }
        _ => Ok(None),
    }
}

/// The serial number that a word says.
pub(crate) fn serial_in(alloc: Global, text: &str) -> Result<Integer, Halt>
    ensures { IfOk result (λ serial. IsNumber text.now serial) }
{
    match serial_named(alloc, text.as_bytes())? {
        Some(serial) => Ok(serial),
        None => {
            let word = shown(text);
            Err(bad_input_with(format!(in alloc;
                "--serial: {word} is not a serial number: hexadecimal digits of at most 20 octets\n"
            )))
        }
    }
}

/// The seconds of so many days.
pub(crate) fn days_in(alloc: Global, option: &str, text: &str) -> Result<i64, Halt> {
    match text.parse::<i64>() {
        Ok(days) if 1 <= days && days <= MOST_DAYS => Ok(days.saturating_mul(86_400)),
        _ => {
            let word = shown(text);
            Err(bad_input_with(format!(in alloc;
                "{option}: {word} is not a number of days from 1 to 36525\n"
            )))
        }
    }
}

/// A serial number in hexadecimal digits.
pub(crate) fn digits(alloc: Global, serial: &Integer) -> Result<String, AllocError>
    ensures { IfOk result (λ text. string_bytes text ≡ encode_lower serial.now) }
{
    hex::encode(alloc, serial.as_bytes())
}

/// The line with a serial number.
pub(crate) fn serial_line(alloc: Global, serial: &Integer) -> Result<Vec<u8>, AllocError> {
    let digits = digits(alloc, serial)?;
    let text = format!(in alloc; "serial: {digits}\n")?;
    Ok(text.into_bytes())
}

/// The same of a certificate.
pub(crate) fn certificate_digits(
    alloc: Global,
    certificate: &Certificate,
) -> Result<String, AllocError> {
    digits(alloc, &certificate.serial)
}
