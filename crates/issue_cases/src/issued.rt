//! What an issuer signs.
use crate::key::{CaseKey, plain_key};
use crate::lines::{digits, push_line, refusal, told};
use crate::list::list_params;
use crate::name::name;
use crate::verifier::Constant;
use crate::words::{algorithm, method, usages, value_of, value_or};
use case_octets::octets_of;
use der_tree::der;
use pkix_cert::Certificate as CertificateValue;
use rcgen_issue::{
    Certificate, CertificateParams, CertificateRevocationListParams, CertifiedIssuer, Error,
    Issuer, PublicKey, PublicKeyData, Verifier, issue_and_read,
};
use rcgen_read::CertificateSigningRequestParams;
use std::alloc::{AllocError, Global};

/// The key of `subject=HEX` and `subject_algorithm=NAME`, else of the byte AA.
pub fn subject_key(alloc: Global, line: &str) -> Option<PublicKey> {
    let octets = octets_of(alloc, value_or(line, "subject=", "aa"))?;
    let algorithm = algorithm(value_or(line, "subject_algorithm=", "ed25519"))?;
    Some(PublicKey::new(octets, algorithm))
}

pub fn certificate_by(
    alloc: Global,
    params: &CertificateParams,
    subject: &PublicKey,
    issuer: &Issuer<'_, &CaseKey>,
) -> Result<Vec<u8>, Error> {
    Ok(params.signed_by(alloc, subject, issuer)?.into_der())
}

pub fn list_by(
    alloc: Global,
    list: &CertificateRevocationListParams,
    issuer: &Issuer<'_, &CaseKey>,
) -> Result<Vec<u8>, Error> {
    Ok(list.signed_by(alloc, issuer)?.into_der())
}

/// For a request whose signature the verifier accepts, with the identifier of the issuer's key.
pub fn accepted_by<V: Verifier>(
    alloc: Global,
    request: &[u8],
    verifier: &V,
    issuer: &Issuer<'_, &CaseKey>,
) -> Result<Vec<u8>, Error> {
    let mut read = CertificateSigningRequestParams::from_der(alloc, request, verifier)?;
    read.params.use_authority_key_identifier_extension = true;
    Ok(read.signed_by(alloc, issuer)?.into_der())
}

// Whether the octets are read as the value that came with them.
fn is_read(alloc: Global, certificate: &Certificate, value: &CertificateValue) -> bool {
    match &der::decode_exact::<CertificateValue>(alloc, certificate.der()) {
        Ok(read) => read == value,
        Err(_) => false,
    }
}

fn read_text(
    alloc: Global,
    params: &CertificateParams,
    subject: &PublicKey,
    issuer: &Issuer<'_, &CaseKey>,
) -> Option<String> {
    match &issue_and_read(alloc, params, subject, issuer) {
        Ok((certificate, value)) => {
            let digits = digits(alloc, certificate.der())?;
            let is_read = is_read(alloc, certificate, value);
            format!(in alloc; "{digits} read {is_read}").ok()
        }
        Err(error) => refusal(alloc, error),
    }
}

// What an issuer says of itself: its name, its method, its usages and the octets of its key.
fn parts_text(alloc: Global, issuer: &Issuer<'_, &CaseKey>) -> Result<String, AllocError> {
    let key = hex::encode(alloc, issuer.key().der_bytes())?;
    format!(in alloc;
        "{:?} {:?} {:?} key {key}",
        issuer.distinguished_name(),
        issuer.key_identifier_method(),
        issuer.key_usages(),
    )
}

fn push_parts(
    alloc: Global,
    text: &mut String,
    issuer: &Issuer<'_, &CaseKey>,
) -> Result<(), AllocError> {
    let parts = parts_text(alloc, issuer)?;
    push_line(text, parts.as_str())
}

fn push_der(alloc: Global, text: &mut String, der: &[u8]) -> Result<(), AllocError> {
    let digits = hex::encode(alloc, der)?;
    push_line(text, digits.as_str())
}

// Whether the text of an issuer beside its certificate is those of both.
fn is_printed(alloc: Global, certified: &CertifiedIssuer<&CaseKey>) -> Result<bool, AllocError> {
    let (certificate, issuer) = (certified.certificate(), certified.issuer());
    let both = format!(in alloc;
        "CertifiedIssuer {{ certificate: {certificate:?}, issuer: {issuer:?} }}"
    )?;
    let text = format!(in alloc; "{certified:?}")?;
    Ok(text == both)
}

// The certificate, of the whole and by itself; and what the issuer beside it says of itself, by itself and reached through the
// whole.
fn beside_text(alloc: Global, certified: &CertifiedIssuer<&CaseKey>) -> Result<String, AllocError> {
    let mut text = String::new(alloc);
    push_der(alloc, &mut text, certified.der())?;
    push_der(alloc, &mut text, certified.certificate().der())?;
    push_parts(alloc, &mut text, certified.issuer())?;
    push_parts(alloc, &mut text, certified)?;
    Ok(text)
}

fn printed_text(
    alloc: Global,
    certified: &CertifiedIssuer<&CaseKey>,
) -> Result<String, AllocError> {
    let text = beside_text(alloc, certified)?;
    let is_printed = is_printed(alloc, certified)?;
    format!(in alloc; "{text}\nprinted {is_printed}")
}

/// What the issuer and its certificate say, and whether the text of both is theirs; or why there are none.
pub fn certified_text(
    alloc: Global,
    made: &Result<CertifiedIssuer<&CaseKey>, Error>,
) -> Option<String> {
    match made {
        Ok(certified) => printed_text(alloc, certified).ok(),
        Err(error) => refusal(alloc, error),
    }
}

// Of an issuer with the plain key.
fn certified_by(
    alloc: Global,
    params: &CertificateParams,
    issuer: &Issuer<'_, &CaseKey>,
) -> Option<String> {
    let key = plain_key(alloc).ok()?;
    let params = params.try_clone(alloc).ok()?;
    certified_text(
        alloc,
        &CertifiedIssuer::signed_by(alloc, params, &key, issuer),
    )
}

// After the list it says whether a copy of its parameters, made before, is equal.
fn list_text(alloc: Global, line: &str, issuer: &Issuer<'_, &CaseKey>) -> Option<String> {
    let list = list_params(alloc, line)?;
    let copy = list.try_clone(alloc).ok()?;
    let is_equal = copy == list;
    let told = told(alloc, list_by(alloc, &list, issuer))?;
    format!(in alloc; "{told} copy {is_equal}").ok()
}

fn accepted_text(alloc: Global, line: &str, issuer: &Issuer<'_, &CaseKey>) -> Option<String> {
    let request = octets_of(alloc, value_of(line, "request=")?)?;
    let verifier = Constant { accepts: true };
    told(alloc, accepted_by(alloc, &request, &verifier, issuer))
}

// What is called with the issuer.
fn call(
    alloc: Global,
    word: &str,
    line: &str,
    params: &CertificateParams,
    issuer: &Issuer<'_, &CaseKey>,
) -> Option<String> {
    let subject = subject_key(alloc, line)?;
    match word {
        "signed_by" => told(alloc, certificate_by(alloc, params, &subject, issuer)),
        "issue_and_read" => read_text(alloc, params, &subject, issuer),
        "certified_by" => certified_by(alloc, params, issuer),
        "list" => list_text(alloc, line, issuer),
        "accept" => accepted_text(alloc, line, issuer),
        "issuer" => parts_text(alloc, issuer).ok(),
        _ => None,
    }
}

// What comes of the call, and the issuer as it is then.
fn issued_by(
    alloc: Global,
    word: &str,
    line: &str,
    params: &CertificateParams,
    issuer: &Issuer<'_, &CaseKey>,
) -> Option<String> {
    let text = call(alloc, word, line, params, issuer)?;
    format!(in alloc; "{text}\n{issuer:?}").ok()
}

fn issued_by_copy(
    alloc: Global,
    word: &str,
    line: &str,
    params: &CertificateParams,
    key: &CaseKey,
) -> Option<String> {
    let copy = params.try_clone(alloc).ok()?;
    issued_by(alloc, word, line, params, &Issuer::new(copy, key))
}

fn issued_by_parts(
    alloc: Global,
    word: &str,
    line: &str,
    params: &CertificateParams,
    key: &CaseKey,
) -> Option<String> {
    let name = name(alloc, value_or(line, "issuer=", "a"))?;
    let method = method(alloc, value_or(line, "issuer_method=", "sha256"))?;
    let usages = usages(alloc, value_of(line, "issuer_usages="))?;
    let issuer = Issuer::from_parts(name, method, usages, key);
    issued_by(alloc, word, line, params, &issuer)
}

/// What is called with the issuer of the line.
pub fn issued_text(
    alloc: Global,
    word: &str,
    line: &str,
    params: &CertificateParams,
    key: &CaseKey,
) -> Option<String> {
    match value_or(line, "by=", "borrowed") {
        "borrowed" => issued_by(alloc, word, line, params, &Issuer::from_params(params, key)),
        "new" => issued_by_copy(alloc, word, line, params, key),
        "parts" => issued_by_parts(alloc, word, line, params, key),
        _ => None,
    }
}
