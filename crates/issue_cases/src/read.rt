//! What is read of a request, a key or an issuer's certificate, a line a part, or the text of the error.
use crate::algorithms::algorithms_text;
use crate::key::{CaseKey, plain_key};
use crate::lines::{digits, error_text, push_line};
use crate::name::{push_alternatives, push_name};
use crate::verifier::Constant;
use case_octets::octets_of;
use rcgen_issue::{
    CertificateParams, Error, Issuer, PublicKeyData, SignatureAlgorithm, SubjectPublicKeyInfo,
    Verifier,
};
use rcgen_read::{CertificateSigningRequestParams, ReadBack, issuer_from_ca_cert_der};
use signature_verifier::SignatureVerifier;
use std::alloc::{AllocError, Global};

// The usages and purposes of a key, and whether it is an authority's.
fn push_uses(
    alloc: Global,
    text: &mut String,
    params: &CertificateParams,
) -> Result<(), AllocError> {
    let uses = format!(in alloc;
        "usages {:?}\npurposes {:?}\nauthority {:?}",
        params.key_usages, params.extended_key_usages, params.is_ca,
    )?;
    push_line(text, uses.as_str())
}

// The algorithm and the octets of a key.
fn push_key(
    alloc: Global,
    text: &mut String,
    algorithm: SignatureAlgorithm,
    octets: &[u8],
) -> Result<(), AllocError> {
    let octets = hex::encode(alloc, octets)?;
    let line = format!(in alloc; "key {algorithm:?} {octets}")?;
    push_line(text, line.as_str())
}

fn info_line(alloc: Global, key: &SubjectPublicKeyInfo) -> Option<String> {
    let info = key.subject_public_key_info(alloc).ok()?;
    let info = digits(alloc, info.as_slice())?;
    format!(in alloc; "info {info}").ok()
}

fn key_lines(alloc: Global, key: &SubjectPublicKeyInfo) -> Option<String> {
    let mut text = String::new(alloc);
    push_key(alloc, &mut text, key.algorithm(), key.der_bytes()).ok()?;
    push_line(&mut text, info_line(alloc, key)?.as_str()).ok()?;
    Some(text)
}

// What is read of a key's info, and the info that is written of it.
fn key_text(alloc: Global, der: &[u8]) -> Option<String> {
    match SubjectPublicKeyInfo::from_der(alloc, der) {
        Ok(key) => key_lines(alloc, &key),
        Err(error) => error_text(alloc, &error),
    }
}

fn request_lines(
    alloc: Global,
    read: &CertificateSigningRequestParams,
) -> Result<String, AllocError> {
    let mut text = String::new(alloc);
    push_name(alloc, &mut text, &read.params.distinguished_name)?;
    push_alternatives(alloc, &mut text, &read.params.subject_alt_names)?;
    push_uses(alloc, &mut text, &read.params)?;
    let key = &read.public_key;
    push_key(alloc, &mut text, key.algorithm(), key.der_bytes())?;
    Ok(text)
}

fn request_text<V: Verifier>(alloc: Global, der: &[u8], verifier: &V) -> Option<String> {
    match CertificateSigningRequestParams::from_der(alloc, der, verifier) {
        Ok(read) => request_lines(alloc, &read).ok(),
        Err(error) => error_text(alloc, &error),
    }
}

fn issuer_lines(alloc: Global, issuer: &Issuer<'_, &CaseKey>) -> Result<String, AllocError> {
    let mut text = String::new(alloc);
    push_name(alloc, &mut text, issuer.distinguished_name())?;
    let parts = format!(in alloc;
        "method {:?}\nusages {:?}",
        issuer.key_identifier_method(),
        issuer.key_usages(),
    )?;
    push_line(&mut text, parts.as_str())?;
    let key = issuer.key();
    push_key(alloc, &mut text, key.algorithm(), key.der_bytes())?;
    Ok(text)
}

fn issuer_text(alloc: Global, read: Result<Issuer<'_, &CaseKey>, Error>) -> Option<String> {
    match &read {
        Ok(issuer) => issuer_lines(alloc, issuer).ok(),
        Err(error) => error_text(alloc, error),
    }
}

/// A word, and octets (`case_octets`): `signed`, a request whose signature a `SignatureVerifier` checks; `request`, whose
/// signature is accepted whatever it is, `unsigned`, whose signature is not; `issuer`, the certificate of an issuer, with a key
/// of the byte AA, and `Issuer`, the same by rcgen's name; `key`, the info of a public key. `algorithms` has no octets,
/// and lists the algorithms.
pub fn read_text(alloc: Global, line: &str) -> Option<String> {
    let (word, words) = line.split_once(' ').unwrap_or((line, ""));
    let der = octets_of(alloc, words)?;
    let key = plain_key(alloc).ok()?;
    match word {
        "request" => request_text(alloc, &der, &Constant { accepts: true }),
        "unsigned" => request_text(alloc, &der, &Constant { accepts: false }),
        "signed" => request_text(alloc, &der, &SignatureVerifier::new()),
        "key" => key_text(alloc, &der),
        "algorithms" => algorithms_text(alloc).ok(),
        "issuer" => issuer_text(alloc, issuer_from_ca_cert_der(alloc, &der, &key)),
        "Issuer" => issuer_text(alloc, Issuer::from_ca_cert_der(alloc, &der, &key)),
        _ => None,
    }
}
