//! Views of certificates: what one shows, and that there is one exactly where a certificate is read.
use case_octets::octets_of;
use der_tree::der::decode_with_remainder;
use pkix_cert::{Certificate, CertificateView};
use std::alloc::{AllocError, Global};

// Whether there is a view exactly where a certificate is read at the front of the input, with the same after it.
fn is_alike(alloc: Global, input: &[u8]) -> bool {
    match decode_with_remainder::<Certificate>(alloc, input) {
        Ok((_certificate, rest)) => match CertificateView::new(input) {
            Some(view) => view.rest() == rest,
            None => false,
        },
        Err(_) => CertificateView::new(input).is_none(),
    }
}

// Whether it is so of the form and of each front of it.
fn fronts_are_alike(alloc: Global, form: &[u8]) -> bool {
    for length in 0..form.len() {
        if !is_alike(alloc, &form[..length]) {
            return false;
        }
    }
    is_alike(alloc, form)
}

// The bits of an octet.
pub(crate) const BITS: &[u8] = &[1, 2, 4, 8, 16, 32, 64, 128];

// Whether it is so of the form with one bit turned, each in turn.
fn turned_are_alike(alloc: Global, form: &[u8]) -> Result<bool, AllocError> {
    for place in 0..form.len() {
        for bit in BITS {
            let mut turned = form.to_vec(alloc)?;
            turned[place] ^= *bit;
            if !is_alike(alloc, &turned) {
                return Ok(false);
            }
        }
    }
    Ok(true)
}

fn alike_text(alloc: Global, form: &[u8]) -> Result<String, AllocError> {
    let fronts = fronts_are_alike(alloc, form);
    let turned = turned_are_alike(alloc, form)?;
    let word = if fronts && turned {
        " alike"
    } else {
        " different"
    };
    word.to_string(alloc)
}

// The element of the serial number, and what comes after the certificate.
fn view_text(alloc: Global, input: &[u8]) -> Result<String, AllocError> {
    let Some(view) = CertificateView::new(input) else {
        return " none".to_string(alloc);
    };
    let serial_number = hex::encode(alloc, view.serial_number())?;
    let rest = hex::encode(alloc, view.rest())?;
    format!(in alloc; " serial number {serial_number}, behind it {rest}")
}

/// What there is to say of a line `view OCTETS` or `views OCTETS`; nothing of any other line.
pub fn answer_to(alloc: Global, line: &str) -> Result<String, AllocError> {
    let Some((word, words)) = line.split_once(' ') else {
        return Ok(String::new(alloc));
    };
    let octets = octets_of(alloc, words).unwrap_or(Vec::new(alloc));
    match word {
        "view" => view_text(alloc, &octets),
        "views" => alike_text(alloc, &octets),
        _ => Ok(String::new(alloc)),
    }
}
