//! What an issuer issues that is restored from its own certificate, beside what the original one does.
use crate::issued::{accepted_by, certificate_by, list_by, subject_key};
use crate::key::CaseKey;
use crate::lines::refusal;
use crate::list::list_params;
use crate::name::name;
use crate::params::params;
use crate::words::value_or;
use case_octets::octets_of;
use rcgen_issue::{CertificateParams, DigestVerifier, Error, Issuer};
use rcgen_read::issuer_from_ca_cert_der;
use std::alloc::{AllocError, Global};

/// A request of the `DigestKey` of `def` for an authority with one authority below it at most.
const REQUEST: &str =
    "3081a530790201003021311f301d06035504030c16726367656e2073656c66207369676e65642063657274302a300506032b6570032100cb8379ac2098aa165029e3938a51da0bcecfc008fd6795f401178647f96c5b34a025302306092a864886f70d01090e3116301430120603551d130101ff040830060101ff020101300506032b6570032100977c5c7072c8c5c2e3e6046cf3dff5048f88d5df8b28714114a8a9180019f810";

/// What is issued later has the identifier of the issuer's key.
const LATER: &str = "serial=01 authority_key";

// Whether both are the same, and which error both are.
fn compared(
    alloc: Global,
    one: &Result<Vec<u8>, Error>,
    other: &Result<Vec<u8>, Error>,
) -> Result<String, AllocError> {
    if one != other {
        return "differs".to_string(alloc);
    }
    match one {
        Ok(_) => "same".to_string(alloc),
        Err(error) => format!(in alloc; "{error:?}"),
    }
}

fn certificates(
    alloc: Global,
    one: &Issuer<'_, &CaseKey>,
    other: &Issuer<'_, &CaseKey>,
) -> Option<String> {
    let subject = subject_key(alloc, LATER)?;
    let params = params(alloc, LATER)?;
    compared(
        alloc,
        &certificate_by(alloc, &params, &subject, one),
        &certificate_by(alloc, &params, &subject, other),
    )
    .ok()
}

fn for_requests(
    alloc: Global,
    one: &Issuer<'_, &CaseKey>,
    other: &Issuer<'_, &CaseKey>,
) -> Option<String> {
    let request = octets_of(alloc, REQUEST)?;
    let verifier = DigestVerifier::new(b"def".to_vec(alloc).ok()?);
    compared(
        alloc,
        &accepted_by(alloc, &request, &verifier, one),
        &accepted_by(alloc, &request, &verifier, other),
    )
    .ok()
}

fn lists(
    alloc: Global,
    one: &Issuer<'_, &CaseKey>,
    other: &Issuer<'_, &CaseKey>,
) -> Option<String> {
    let list = list_params(alloc, LATER)?;
    compared(
        alloc,
        &list_by(alloc, &list, one),
        &list_by(alloc, &list, other),
    )
    .ok()
}

// The issuer that is read of what the key certifies for itself.
fn restored<'a>(
    alloc: Global,
    params: &CertificateParams,
    key: &'a CaseKey,
) -> Result<Issuer<'static, &'a CaseKey>, Error> {
    let certificate = params.self_signed(alloc, key)?;
    issuer_from_ca_cert_der(alloc, certificate.der(), key)
}

// What the restored issuer is, and what it issues.
fn beside_text(
    alloc: Global,
    line: &str,
    one: &Issuer<'_, &CaseKey>,
    other: &Issuer<'_, &CaseKey>,
) -> Option<String> {
    let certificates = certificates(alloc, one, other)?;
    let requests = for_requests(alloc, one, other)?;
    let lists = lists(alloc, one, other)?;
    let name = name(
        alloc,
        value_or(line, "restored=", value_or(line, "name=", "a")),
    )?;
    let is_named = *other.distinguished_name() == name;
    let (method, usages) = (other.key_identifier_method(), other.key_usages());
    format!(in alloc;
        "name {is_named}, method {method:?}, usages {usages:?}\ncertificate {certificates}, request {requests}, list {lists}"
    ).ok()
}

/// Whether the restored issuer has the name `restored`, which is that of the parameters where no word says it; its method and
/// its usages; and whether it issues what the original one does.
pub fn restored_text(
    alloc: Global,
    line: &str,
    params: &CertificateParams,
    key: &CaseKey,
) -> Option<String> {
    let one = Issuer::from_params(params, key);
    match &restored(alloc, params, key) {
        Ok(other) => beside_text(alloc, line, &one, other),
        Err(error) => refusal(alloc, error),
    }
}
