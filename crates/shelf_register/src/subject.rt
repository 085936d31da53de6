//! Whom certificates are for.
ghost use Rattle.std.specs.Prelude.{◌≡◌, IfOk, codes};
ghost use Rattle.std.specs.Option.{option_map};
ghost use Rattle.der_tree.specs.Form.{value_of};
ghost use Rattle.pkix_attr.specs.Certificates.{attribute_certificate_info};
ghost use Rattle.pkix_cert.specs.Certificates.{tbs_certificate};
ghost use Rattle.pkix_cert.specs.Held.{extensions_in};
ghost use Rattle.shelf_register.specs.Subjects.{alternative_names, certificate_subject, certificate_text, has_no_parts, holder_of, holder_text, info_in, info_text, names_contents, names_text, subject_or_names, subject_text, tbs_in, tbs_text};

use asn1_core::OutOfMemory;
use der_tree::der;
use pkix_attr::{AttributeCertificate, AttributeCertificateInfo, Holder, IssuerSerial};
use pkix_cert::extension_id::ID_CE_SUBJECT_ALT_NAME;
use pkix_cert::{
    Certificate as SignedCertificate, Extension, Extensions, GeneralNames, Name, TbsCertificate,
};
use register_record::{Certificate, Content, Kind};
use shelf_explain::{general_names_text, name_text};
use std::alloc::Global;

/// What is shown where there is no name.
fn no_name(alloc: Global) -> Result<Vec<u8>, OutOfMemory>
    ensures { IfOk result (λ text. text.items ≡ codes "-") }
{
    let text = Vec::from_slice(alloc, b"-")?;
    Ok(text)
}

#[tactic(auto, unfolding(crate::specs::Subjects::names_text))]
fn names_text(alloc: Global, names: &Option<GeneralNames>) -> Result<Vec<u8>, OutOfMemory>
    ensures { IfOk result (λ text. text.items ≡ names_text names.now) }
{
    match names {
        Some(names) => {
            let text = general_names_text(alloc, names.as_slice())?;
            Ok(text)
        }
        None => {
            let text = no_name(alloc)?;
            Ok(text)
        }
    }
}

fn extensions_in(extensions: &Option<Extensions>) -> &[Extension]
    ensures { result.now ≡ extensions_in extensions.now }
{
    match extensions {
        None => &[],
        Some(extensions) => extensions.0.as_slice(),
    }
}

/// The contents of the first extension with the subject's other names.
fn names_contents(extensions: &[Extension]) -> Option<&[u8]>
    ensures { option_map (λ contents. contents.now) result ≡ names_contents extensions.now }
{
    for extension in extensions {
        if extension.extn_id.arcs() == ID_CE_SUBJECT_ALT_NAME {
            return Some(extension.extn_value.as_slice());
        }
    }
    None
}

/// The subject's other names, if there are any.
#[tactic(auto, unfolding(crate::specs::Subjects::alternative_names))]
fn alternative_names(
    alloc: Global,
    extensions: &[Extension],
) -> Result<Option<GeneralNames>, OutOfMemory>
    ensures { IfOk result (λ names. names ≡ alternative_names extensions.now) }
{
    match names_contents(extensions) {
        None => Ok(None),
        Some(contents) => der::value_of(alloc, contents),
    }
}

fn has_no_parts(name: &Name) -> bool
    ensures { result ≡ has_no_parts name.now }
{
    let Name::RdnSequence(parts) = name;
    parts.as_slice().is_empty()
}

#[tactic(auto, unfolding(crate::specs::Subjects::subject_or_names))]
fn subject_or_names(
    alloc: Global,
    subject: &Name,
    extensions: &Option<Extensions>,
) -> Result<Vec<u8>, OutOfMemory>
    ensures { IfOk result (λ text. text.items ≡ subject_or_names subject.now extensions.now) }
{
    if has_no_parts(subject) {
        let names = alternative_names(alloc, extensions_in(extensions))?;
        let text = names_text(alloc, &names)?;
        Ok(text)
    } else {
        let text = name_text(alloc, subject)?;
        Ok(text)
    }
}

/// The subject of a certificate's message.
#[tactic(auto, unfolding(crate::specs::Subjects::tbs_text))]
fn message_text(alloc: Global, message: &[u8]) -> Result<Vec<u8>, OutOfMemory>
    ensures { IfOk result (λ text. text.items ≡ tbs_text (value_of tbs_certificate message.now)) }
{
    let Some(tbs) = der::value_of::<TbsCertificate>(alloc, message)? else {
        return no_name(alloc);
    };
    let text = subject_or_names(alloc, &tbs.subject, &tbs.extensions)?;
    Ok(text)
}

/// The subject of a certificate.
#[tactic(auto, unfolding(crate::specs::Subjects::tbs_text))]
fn sealed_text(alloc: Global, octets: &[u8]) -> Result<Vec<u8>, OutOfMemory>
    ensures { IfOk result (λ text. text.items ≡ tbs_text (tbs_in octets.now)) }
{
    let Some(found) = der::value_of::<SignedCertificate>(alloc, octets)? else {
        return no_name(alloc);
    };
    let tbs = &found.tbs_certificate;
    let text = subject_or_names(alloc, &tbs.subject, &tbs.extensions)?;
    Ok(text)
}

/// A certificate by its number and its issuer's names.
#[tactic(auto, unfolding(crate::specs::Subjects::certificate_text))]
fn certificate_text(alloc: Global, certificate: &IssuerSerial) -> Result<Vec<u8>, OutOfMemory>
    ensures { IfOk result (λ text. text.items ≡ certificate_text certificate.now) }
{
    let digits = hex::encode(alloc, certificate.serial.as_bytes())?;
    let names = general_names_text(alloc, certificate.issuer.as_slice())?;
    let mut text = Vec::from_slice(alloc, b"certificate ")?;
    text.extend_from_slice(digits.as_bytes())?;
    text.extend_from_slice(b" of ")?;
    text.extend_from_slice(names.as_slice())?;
    Ok(text)
}

/// Who holds the attributes (RFC 5755, 4.2.2).
#[tactic(auto, unfolding(crate::specs::Subjects::holder_text))]
fn holder_text(alloc: Global, holder: &Holder) -> Result<Vec<u8>, OutOfMemory>
    ensures { IfOk result (λ text. text.items ≡ holder_text holder.now.base_certificate_id holder.now.entity_name) }
{
    match &holder.base_certificate_id {
        Some(certificate) => {
            let text = certificate_text(alloc, certificate)?;
            Ok(text)
        }
        None => {
            let text = names_text(alloc, &holder.entity_name)?;
            Ok(text)
        }
    }
}

/// The holder in an attribute certificate's message.
#[tactic(auto, unfolding(crate::specs::Subjects::info_text))]
fn attribute_message_text(alloc: Global, message: &[u8]) -> Result<Vec<u8>, OutOfMemory>
    ensures { IfOk result (λ text. text.items ≡ info_text (value_of attribute_certificate_info message.now)) }
{
    let Some(info) = der::value_of::<AttributeCertificateInfo>(alloc, message)? else {
        return no_name(alloc);
    };
    let text = holder_text(alloc, &info.holder)?;
    Ok(text)
}

/// The holder in an attribute certificate.
#[tactic(auto, unfolding(crate::specs::Subjects::info_text))]
fn sealed_attribute_text(alloc: Global, octets: &[u8]) -> Result<Vec<u8>, OutOfMemory>
    ensures { IfOk result (λ text. text.items ≡ info_text (info_in octets.now)) }
{
    let Some(found) = der::value_of::<AttributeCertificate>(alloc, octets)? else {
        return no_name(alloc);
    };
    let text = holder_text(alloc, &found.info.holder)?;
    Ok(text)
}

#[tactic(auto, unfolding(crate::specs::Subjects::certificate_subject))]
fn certificate_subject(alloc: Global, content: &Content) -> Result<Vec<u8>, OutOfMemory>
    ensures { IfOk result (λ text. text.items ≡ certificate_subject content.now) }
{
    match content {
        Content::Pending(message) => {
            let text = message_text(alloc, message.as_slice())?;
            Ok(text)
        }
        Content::Sealed(octets) => {
            let text = sealed_text(alloc, octets.as_slice())?;
            Ok(text)
        }
    }
}

#[tactic(auto, unfolding(crate::specs::Subjects::holder_of))]
fn holder_of(alloc: Global, content: &Content) -> Result<Vec<u8>, OutOfMemory>
    ensures { IfOk result (λ text. text.items ≡ holder_of content.now) }
{
    match content {
        Content::Pending(message) => {
            let text = attribute_message_text(alloc, message.as_slice())?;
            Ok(text)
        }
        Content::Sealed(octets) => {
            let text = sealed_attribute_text(alloc, octets.as_slice())?;
            Ok(text)
        }
    }
}

/// Whom the certificate is for: its subject, or where that is empty its other names; the holder of an
/// attribute certificate.
#[tactic(auto, unfolding(crate::specs::Subjects::subject_text))]
pub(crate) fn subject_text(alloc: Global, certificate: &Certificate) -> Result<Vec<u8>, OutOfMemory>
    ensures { IfOk result (λ text. text.items ≡ subject_text certificate.now.kind certificate.now.content) }
{
    match certificate.kind {
        Kind::Certificate => {
            let text = certificate_subject(alloc, &certificate.content)?;
            Ok(text)
        }
        Kind::AttributeCertificate => {
            let text = holder_of(alloc, &certificate.content)?;
            Ok(text)
        }
    }
}
