//! Values by their constructors and defaults, and what values that are read say (RFC 5280, 4.1.2.1 and 5.3.1; RFC 5755, 4.1 and
//! 4.4.6; RFC 5914, 2).
use crate::parts::{integer, parts_of};
use crate::reading::{Reading, written};
use asn1_core::{ObjectIdentifier, OutOfMemory, TryClone};
use case_octets::octets_of;
use der_tree::DerType;
use der_tree::der::decode;
use pkix_alg::EcdsaSigValue;
use pkix_attr::{ClassList, Clearance, DisgestedObjectType};
use pkix_cert::{AuthorityKeyIdentifier, Certificate, CrlReason, DistributionPoint, Time};
use pkix_trust::TrustAnchorInfo;
use std::alloc::{AllocError, Global};
use std::fmt::Debug;

// The list of the class of this name.
fn class_list(alloc: Global, class: &str) -> Result<ClassList, OutOfMemory> {
    if class == "unmarked" {
        return ClassList::unmarked(alloc);
    }
    if class == "unclassified" {
        return ClassList::unclassified(alloc);
    }
    if class == "restricted" {
        return ClassList::restricted(alloc);
    }
    if class == "confidential" {
        return ClassList::confidential(alloc);
    }
    if class == "secret" {
        return ClassList::secret(alloc);
    }
    if class == "top_secret" {
        return ClassList::top_secret(alloc);
    }
    Ok(ClassList::default(alloc))
}

// A clearance by the policy 1.2.3 for that class.
fn clearance(alloc: Global, class: &str) -> Option<Clearance> {
    let policy = ObjectIdentifier::new(alloc, &[1, 2, 3]).ok()?;
    let classes = class_list(alloc, class).ok()?;
    Some(Clearance::new(policy, classes, None))
}

// A signature of the two numbers.
fn signature(alloc: Global, form: &[u8]) -> Option<EcdsaSigValue> {
    let mut parts = parts_of(form)?;
    let r = integer(alloc, parts.next()?)?;
    let s = integer(alloc, parts.next()?)?;
    Some(EcdsaSigValue::new(r, s))
}

/// What the value of the type, or of the type and the class, of this name has to do with the form.
pub fn write(alloc: Global, name: &str, form: &[u8]) -> Reading {
    if name == "AuthorityKeyIdentifier" {
        return written(alloc, Some(AuthorityKeyIdentifier::default()), form);
    }
    if name == "DistributionPoint" {
        return written(alloc, Some(DistributionPoint::default()), form);
    }
    if name == "EcdsaSigValue" {
        return written(alloc, signature(alloc, form), form);
    }
    let Some((kind, class)) = name.split_once('.') else {
        return Reading::NoType;
    };
    if kind == "ClassList" {
        return written(alloc, class_list(alloc, class).ok(), form);
    }
    written(alloc, clearance(alloc, class), form)
}

// The value's name in its enumeration.
fn name_text<T: DerType + Debug>(alloc: Global, form: &[u8]) -> Result<String, AllocError> {
    match decode::<T>(alloc, form) {
        Ok(value) => format!(in alloc; " {value:?}"),
        Err(_) => " refused".to_string(alloc),
    }
}

// Which of the two types its times have.
fn time_word(time: &Time) -> &'static str {
    match time {
        Time::Utc(_) => "UTCTime",
        Time::General(_) => "GeneralizedTime",
    }
}

// The version, and the type of the first time, of a copy of the certificate.
fn certificate_text(alloc: Global, form: &[u8]) -> Result<String, AllocError> {
    let Ok(certificate) = decode::<Certificate>(alloc, form) else {
        return " refused".to_string(alloc);
    };
    match certificate.tbs_certificate.try_clone(alloc) {
        Ok(fields) => format!(in alloc;
            " {:?} {}",
            fields.version,
            time_word(&fields.validity.not_before)
        ),
        Err(_) => " no copy".to_string(alloc),
    }
}

fn anchor_text(alloc: Global, form: &[u8]) -> Result<String, AllocError> {
    match decode::<TrustAnchorInfo>(alloc, form) {
        Ok(anchor) => format!(in alloc; " {:?}", anchor.version),
        Err(_) => " refused".to_string(alloc),
    }
}

/// What there is to say of a line `shown.NAME OCTETS`.
pub fn answer_to(alloc: Global, name: &str, words: &str) -> Result<String, AllocError> {
    let form = octets_of(alloc, words).unwrap_or(Vec::new(alloc));
    if name == "CrlReason" {
        return name_text::<CrlReason>(alloc, form.as_slice());
    }
    if name == "DisgestedObjectType" {
        return name_text::<DisgestedObjectType>(alloc, form.as_slice());
    }
    if name == "Certificate" {
        return certificate_text(alloc, form.as_slice());
    }
    anchor_text(alloc, form.as_slice())
}
