//! What a key signs for itself, and what it has.
use crate::issued::certified_text;
use crate::key::CaseKey;
use crate::lines::{digits, refusal, told};
use crate::params::attributes;
use crate::words::{texts, value_of};
use asn1_core::TryClone;
use case_octets::octets_of;
use rcgen_issue::{
    Attribute, CertificateParams, CertificateSigningRequest, CertifiedIssuer, CertifiedKey, Error,
    PublicKeyData, SigningKey, generate_simple_self_signed,
};
use std::alloc::Global;

fn self_signed(alloc: Global, params: &CertificateParams, key: &CaseKey) -> Result<Vec<u8>, Error> {
    Ok(params.self_signed(alloc, key)?.into_der())
}

fn certified(alloc: Global, params: &CertificateParams, key: &CaseKey) -> Option<String> {
    let params = params.try_clone(alloc).ok()?;
    certified_text(alloc, &CertifiedIssuer::self_signed(alloc, params, key))
}

// The certificate, and the key beside it.
fn pair_text(alloc: Global, pair: &CertifiedKey<&CaseKey>) -> Option<String> {
    let certificate = digits(alloc, pair.cert.der())?;
    let key = digits(alloc, pair.signing_key.der_bytes())?;
    format!(in alloc; "{certificate} key {key}").ok()
}

fn simple(alloc: Global, line: &str, key: &CaseKey) -> Option<String> {
    let names = texts(alloc, value_of(line, "names=")?)?;
    match &generate_simple_self_signed(alloc, names, key) {
        Ok(pair) => pair_text(alloc, pair),
        Err(error) => refusal(alloc, error),
    }
}

// After the octets it says whether a copy is equal.
fn copied_text(alloc: Global, request: &CertificateSigningRequest) -> Option<String> {
    let copy = request.try_clone(alloc).ok()?;
    let digits = digits(alloc, request.der())?;
    let is_equal = copy == *request;
    format!(in alloc; "{digits} copy {is_equal}").ok()
}

fn request(alloc: Global, params: &CertificateParams, key: &CaseKey) -> Option<String> {
    match &params.serialize_request(alloc, key) {
        Ok(request) => copied_text(alloc, request),
        Err(error) => refusal(alloc, error),
    }
}

fn request_with(
    alloc: Global,
    params: &CertificateParams,
    key: &CaseKey,
    attributes: Vec<Attribute>,
) -> Result<Vec<u8>, Error> {
    let request = params.serialize_request_with_attributes(alloc, key, attributes)?;
    Ok(request.into_der())
}

// The info of the key, and its signature of the message.
fn info_and_signature(alloc: Global, line: &str, key: &CaseKey) -> Option<String> {
    let message = octets_of(alloc, value_of(line, "message=")?)?;
    let info = told(alloc, key.subject_public_key_info(alloc))?;
    let signature = told(alloc, key.sign(alloc, &message))?;
    format!(in alloc; "info {info} signature {signature}").ok()
}

/// What the key does without parameters: `simple`, with the `names` between commas, and `key`, with the octets of a `message`.
pub fn key_text(alloc: Global, word: &str, line: &str, key: &CaseKey) -> Option<String> {
    match word {
        "simple" => simple(alloc, line, key),
        "key" => info_and_signature(alloc, line, key),
        _ => None,
    }
}

/// What the key does with parameters for itself.
pub fn own_text(
    alloc: Global,
    word: &str,
    line: &str,
    params: &CertificateParams,
    key: &CaseKey,
) -> Option<String> {
    match word {
        "self_signed" => told(alloc, self_signed(alloc, params, key)),
        "certified" => certified(alloc, params, key),
        "request" => request(alloc, params, key),
        "request_with" => {
            let attributes = attributes(alloc, line)?;
            told(alloc, request_with(alloc, params, key, attributes))
        }
        "key_identifier" => told(alloc, params.key_identifier(alloc, key)),
        _ => None,
    }
}
