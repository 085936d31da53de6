//! What is said without a key.
use crate::lines::{digits, refusal};
use crate::words::{texts, value_of};
use asn1_core::{OidFault, OutOfMemory, TextFault};
use case_octets::octets_of;
use der_tree::{DecodeError, EncodeError, WindowFault};
use pkix_cert::Version;
use rcgen_issue::{CertificateParams, CustomExtension, DigestVerifier, Error, Verifier};
use std::alloc::{AllocError, Global};
use std::fmt::{Debug, Display};

// The serial number, the authority, the constraints on names and the method that the parameters say.
fn params_text(alloc: Global, made: &Result<CertificateParams, Error>) -> Option<String> {
    match made {
        Ok(params) => format!(in alloc;
            "{:?} {:?} {:?} {:?}",
            params.serial_number,
            params.is_ca,
            params.name_constraints,
            params.key_identifier_method,
        )
        .ok(),
        Err(error) => refusal(alloc, error),
    }
}

// Of the default parameters, or those of names.
fn made_text(alloc: Global, line: &str) -> Option<String> {
    match value_of(line, "names=") {
        Some(list) => {
            let names = texts(alloc, list)?;
            params_text(alloc, &CertificateParams::new(alloc, names))
        }
        None => params_text(alloc, &CertificateParams::default(alloc)),
    }
}

// Of a digest of 32 zeros: the arcs, whether it is critical, and the contents.
fn acme_text(alloc: Global) -> Option<String> {
    let acme = CustomExtension::new_acme_identifier(alloc, &[0; 32]).ok()?;
    let contents = digits(alloc, acme.content())?;
    format!(in alloc;
        "{:?} {} {contents}",
        acme.oid_components(),
        acme.criticality()
    )
    .ok()
}

fn octets(alloc: Global, line: &str, front: &str) -> Option<Vec<u8>> {
    octets_of(alloc, value_of(line, front)?)
}

// Whether the `DigestVerifier` of the secret accepts the signature of the info under the info of the key.
fn verify_text(alloc: Global, line: &str) -> Option<String> {
    let verifier = DigestVerifier::new(octets(alloc, line, "secret=")?);
    let info = octets(alloc, line, "info=")?;
    let key_info = octets(alloc, line, "key_info=")?;
    let signature = octets(alloc, line, "signature=")?;
    let accepts = verifier.verify(&info, &key_info, &[], &signature);
    format!(in alloc; "{accepts}").ok()
}

fn push_printed<T: Debug + Display>(
    alloc: Global,
    text: &mut String,
    values: &[T],
) -> Result<(), AllocError> {
    for value in values {
        let line = format!(in alloc; "\n{value:?}: {value}")?;
        text.push_str(line.as_str())?;
    }
    Ok(())
}

fn push_versions(alloc: Global, text: &mut String) -> Result<(), AllocError> {
    for version in [Version::V1, Version::V2, Version::V3] {
        let line = format!(in alloc; "\nversion {}: {version}", version.raw_value())?;
        text.push_str(line.as_str())?;
    }
    Ok(())
}

// Each fault of lower layers, and its text; and the versions, with the number that each is written as.
fn printed_text(alloc: Global) -> Result<String, AllocError> {
    let mut text = format!(in alloc; "{OutOfMemory:?}: {OutOfMemory}")?;
    push_printed(alloc, &mut text, &OID_FAULTS)?;
    push_printed(alloc, &mut text, &TEXT_FAULTS)?;
    push_printed(alloc, &mut text, &ENCODE_ERRORS)?;
    push_printed(alloc, &mut text, &DECODE_ERRORS)?;
    push_printed(alloc, &mut text, &WINDOW_FAULTS)?;
    push_versions(alloc, &mut text)?;
    Ok(text)
}

const OID_FAULTS: [OidFault; 5] = [
    OidFault::TooShort,
    OidFault::BadRoot,
    OidFault::BadText,
    OidFault::ArcTooLarge,
    OidFault::OutOfMemory,
];

const TEXT_FAULTS: [TextFault; 3] = [
    TextFault::BadCharacter { at: 1 },
    TextFault::BadLength,
    TextFault::OutOfMemory,
];

const ENCODE_ERRORS: [EncodeError; 4] = [
    EncodeError::NotOneElement,
    EncodeError::SizeOutOfRange,
    EncodeError::TimeNotCarried,
    EncodeError::OutOfMemory,
];

const DECODE_ERRORS: [DecodeError; 2] = [DecodeError::NotInGrammar, DecodeError::OutOfMemory];

const WINDOW_FAULTS: [WindowFault; 2] = [WindowFault::Incomplete, WindowFault::Malformed];

/// `params`, of the alternative `names` between commas; `verify`, of a `secret`, an `info`, a `key_info` and a `signature`;
/// `acme` and `printed`.
pub fn plain_text(alloc: Global, word: &str, line: &str) -> Option<String> {
    match word {
        "params" => made_text(alloc, line),
        "acme" => acme_text(alloc),
        "verify" => verify_text(alloc, line),
        "printed" => printed_text(alloc).ok(),
        _ => None,
    }
}
