//! The words of a line.
use asn1_core::OffsetDateTime;
use case_octets::octets_of;
use jiff::civil::DateTime;
use rcgen_issue::{
    KeyIdMethod, KeyUsagePurpose, PKCS_ECDSA_P384_SHA384, PKCS_ED25519, PKCS_RSA_SHA256,
    SerialNumber, SignatureAlgorithm, date_time_ymd,
};
use std::alloc::Global;

/// What comes after `front` in the first word of the line that begins with it.
pub fn value_of<'a>(line: &'a str, front: &str) -> Option<&'a str> {
    for word in line.split(' ') {
        if let Some(value) = word.strip_prefix(front) {
            return Some(value);
        }
    }
    None
}

/// The same, or else `default`.
pub fn value_or<'a>(line: &'a str, front: &str, default: &'a str) -> &'a str {
    match value_of(line, front) {
        Some(value) => value,
        None => default,
    }
}

/// Whether the line contains the word.
pub fn has_word(line: &str, word: &str) -> bool {
    line.split(' ').any(|other| other == word)
}

/// Numbers between dots.
pub fn arcs(alloc: Global, text: &str) -> Option<Vec<u64>> {
    let mut arcs = Vec::new(alloc);
    for part in text.split('.') {
        let arc = part.parse::<u64>().ok()?;
        arcs.push(arc).ok()?;
    }
    Some(arcs)
}

/// Texts between commas.
pub fn texts(alloc: Global, list: &str) -> Option<Vec<String>> {
    let mut texts = Vec::new(alloc);
    for text in list.split(',') {
        let text = text.to_string(alloc).ok()?;
        texts.push(text).ok()?;
    }
    Some(texts)
}

/// The number of these octets.
pub fn serial(alloc: Global, digits: &str) -> Option<SerialNumber> {
    Some(SerialNumber::from_vec(octets_of(alloc, digits)?))
}

/// `sha256`, `sha384`, `sha512`, or an identifier in hex.
pub fn method(alloc: Global, word: &str) -> Option<KeyIdMethod> {
    match word {
        "sha256" => Some(KeyIdMethod::Sha256),
        "sha384" => Some(KeyIdMethod::Sha384),
        "sha512" => Some(KeyIdMethod::Sha512),
        digits => Some(KeyIdMethod::PreSpecified(octets_of(alloc, digits)?)),
    }
}

fn usage(word: &str) -> Option<KeyUsagePurpose> {
    match word {
        "digitalSignature" => Some(KeyUsagePurpose::DigitalSignature),
        "keyCertSign" => Some(KeyUsagePurpose::KeyCertSign),
        "cRLSign" => Some(KeyUsagePurpose::CrlSign),
        _ => None,
    }
}

/// `digitalSignature`, `keyCertSign` and `cRLSign` between commas; no word says none.
pub fn usages(alloc: Global, list: Option<&str>) -> Option<Vec<KeyUsagePurpose>> {
    let mut usages = Vec::new(alloc);
    if let Some(list) = list {
        for word in list.split(',') {
            usages.push(usage(word)?).ok()?;
        }
    }
    Some(usages)
}

/// `ed25519`, `rsa-sha256` or `p384-sha384`.
pub fn algorithm(word: &str) -> Option<SignatureAlgorithm> {
    match word {
        "ed25519" => Some(PKCS_ED25519),
        "rsa-sha256" => Some(PKCS_RSA_SHA256),
        "p384-sha384" => Some(PKCS_ECDSA_P384_SHA384),
        _ => None,
    }
}

// One hour of the first day of a year, at an offset in seconds.
fn moment_at(year: &str, hour: &str, offset: &str) -> Option<OffsetDateTime> {
    let year = year.parse::<i16>().ok()?;
    let hour = hour.parse::<i8>().ok()?;
    let offset = offset.parse::<i32>().ok()?;
    let time = DateTime::new(year, 1, 1, hour, 0, 0, 0).ok()?;
    OffsetDateTime::new(time, offset)
}

/// The start of a year in UTC, as `2025`, or an hour of its first day at an offset in seconds from UTC, as `2025:1:3600`.
pub fn moment(text: &str) -> Option<OffsetDateTime> {
    let Some((year, time)) = text.split_once(':') else {
        return date_time_ymd(text.parse::<i32>().ok()?, 1, 1).ok();
    };
    let (hour, offset) = time.split_once(':')?;
    moment_at(year, hour, offset)
}
