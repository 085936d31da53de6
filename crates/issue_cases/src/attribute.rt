//! Attribute certificates.
use crate::key::{CaseKey, key};
use crate::lines::digits;
use crate::name::name;
use crate::params::attributes;
use crate::words::{has_word, method, moment, serial, value_or};
use attr_issue::{AttributeCertificateParams, IssuedAttribute, issue_and_read_attribute};
use der_tree::der;
use pkix_attr::AttributeCertificate;
use rcgen_issue::{DistinguishedName, Issuer, SerialNumber};
use std::alloc::Global;

// Of the times alone, with nothing else.
fn bare_params(alloc: Global, line: &str) -> Option<AttributeCertificateParams> {
    let not_before = moment(value_or(line, "not_before=", "2025"))?;
    let not_after = moment(value_or(line, "not_after=", "2026"))?;
    Some(AttributeCertificateParams {
        holder_issuer: DistinguishedName::new(alloc),
        holder_serial: SerialNumber::from_vec(Vec::new(alloc)),
        serial_number: SerialNumber::from_vec(Vec::new(alloc)),
        not_before,
        not_after,
        attributes: Vec::new(alloc),
        use_authority_key_identifier_extension: has_word(line, "authority_key_id"),
    })
}

fn set(alloc: Global, line: &str, params: &mut AttributeCertificateParams) -> Option<()> {
    params.holder_issuer = name(alloc, value_or(line, "holder=", "a"))?;
    params.holder_serial = serial(alloc, value_or(line, "holder_serial=", "01"))?;
    params.serial_number = serial(alloc, value_or(line, "serial=", "02"))?;
    params.attributes = attributes(alloc, line)?;
    Some(())
}

// Whether the bytes are read as the value that was answered with them.
fn is_read(alloc: Global, issued: &IssuedAttribute, value: &AttributeCertificate) -> bool {
    match &der::decode_exact::<AttributeCertificate>(alloc, issued.der()) {
        Ok(read) => read == value,
        Err(_) => false,
    }
}

// Whether `signed_by` answers the same.
fn is_again(
    alloc: Global,
    params: &AttributeCertificateParams,
    issuer: &Issuer<'_, &CaseKey>,
    issued: &IssuedAttribute,
) -> bool {
    match &params.signed_by(alloc, issuer) {
        Ok(again) => again == issued,
        Err(_) => false,
    }
}

fn issued_text(
    alloc: Global,
    params: &AttributeCertificateParams,
    issuer: &Issuer<'_, &CaseKey>,
) -> Option<String> {
    match &issue_and_read_attribute(alloc, params, issuer) {
        Ok((issued, value)) => {
            let digits = digits(alloc, issued.der())?;
            let is_same = is_read(alloc, issued, value) && is_again(alloc, params, issuer, issued);
            format!(in alloc; "{digits} {is_same}").ok()
        }
        Err(error) => format!(in alloc; "{error:?}: {error}").ok(),
    }
}

fn text_by_issuer(
    alloc: Global,
    line: &str,
    params: &AttributeCertificateParams,
) -> Option<String> {
    let key = key(alloc, line)?;
    let name = name(alloc, value_or(line, "issuer=", "a"))?;
    let method = method(alloc, value_or(line, "method=", "sha256"))?;
    let issuer = Issuer::from_parts(name, method, Vec::new(alloc), &key);
    issued_text(alloc, params, &issuer)
}

/// The words say what is asked for beside the defaults: the names `holder` and `issuer`; `holder_serial` and `serial` (hex);
/// `not_before` and `not_after` (`moment`); `attribute=ARCS:HEX`, once for each attribute; `method`; `authority_key_id`; and the
/// key. After what is issued it says whether its bytes are read as the value that was answered with them and
/// `signed_by` answers the same.
pub fn attribute_text(alloc: Global, line: &str) -> Option<String> {
    let mut params = bare_params(alloc, line)?;
    set(alloc, line, &mut params)?;
    text_by_issuer(alloc, line, &params)
}
