//! What a key takes, for messages about other values.
use crate::guesses::nearest_word;
use crate::lines::push_short;
use asn1_core::{ObjectIdentifier, OidFault};
use rcgen_text::{CrlScope, KeyUsagePurpose, RevocationReason};
use shelf_profile::{
    Days, Digest, ExtensionId, NamePart, OrderCa, OrderKind, Padding, Preset, SerialOctets,
    SubjectAttribute, Take, is_number,
};
use std::alloc::{AllocError, Global};
use toml::Value;
use toml_format::{
    AltName, Arcs, Attribute, FromValue, HexBytes, KeyId, Purpose, Subtree, Text, Timestamp,
    UtcInstant,
};

/// A single value.
#[derive(Clone, Copy, Debug, PartialEq, Eq)]
pub(crate) enum Single {
    Kind,
    Preset,
    Text,
    Switch,
    Hex,
    Serial,
    CrlNumber,
    Digest,
    Padding,
    Take,
    ExtensionId,
    Attribute,
    SubjectAttribute,
    NamePart,
    Time,
    Instant,
    Days,
    AltName,
    Ca,
    Usage,
    Purpose,
    Subtree,
    KeyId,
    Arcs,
    Identifier,
    Reason,
    DeltaReason,
    Scope,
}

/// What a key takes.
#[derive(Clone, Copy, Debug, PartialEq, Eq)]
pub(crate) enum ValueKind {
    /// One value.
    One(Single),
    /// An array of values.
    Many(Single),
    /// An array of arrays of values.
    Lists(Single),
    /// An array of tables, each an extension.
    Extensions,
    /// A table: who holds attributes.
    Holder,
    /// An array of tables, each an attribute.
    Attributes,
    /// An array of tables, each an entry of a revocation list with such a reason.
    Revoked(Single),
}

/// Whether a value is the number of a revocation list (RFC 5280, 5.2.3).
fn is_crl_number(alloc: Global, value: &Value) -> Result<bool, AllocError> {
    match HexBytes::from_value(alloc, value)? {
        Ok(octets) => Ok(is_number(octets.as_slice())),
        Err(_) => Ok(false),
    }
}

/// Whether a value is a reason that an entry of a complete list may have (RFC 5280, 5.3.1).
fn is_reason(alloc: Global, value: &Value) -> Result<bool, AllocError> {
    match RevocationReason::from_value(alloc, value)? {
        Ok(reason) => Ok(reason != RevocationReason::RemoveFromCrl),
        Err(_) => Ok(false),
    }
}

/// Whether a value is an object identifier (X.660, 7.6).
fn is_identifier(alloc: Global, value: &Value) -> Result<bool, AllocError> {
    let Ok(arcs) = Arcs::from_value(alloc, value)? else {
        return Ok(false);
    };
    match ObjectIdentifier::from_u64(alloc, &arcs.into_vec()) {
        Ok(_) => Ok(true),
        Err(OidFault::OutOfMemory) => Err(AllocError),
        Err(_) => Ok(false),
    }
}

/// Whether a value is read as `T`.
fn reads<T: FromValue>(alloc: Global, value: &Value) -> Result<bool, AllocError> {
    Ok(T::from_value(alloc, value)?.is_ok())
}

impl Single {
    /// Whether the value is such a one.
    pub(crate) fn takes(self, alloc: Global, value: &Value) -> Result<bool, AllocError> {
        match self {
            Single::Kind => reads::<OrderKind>(alloc, value),
            Single::Preset => reads::<Preset>(alloc, value),
            Single::Text => reads::<Text>(alloc, value),
            Single::Switch => reads::<bool>(alloc, value),
            Single::Hex => reads::<HexBytes>(alloc, value),
            Single::Serial => reads::<SerialOctets>(alloc, value),
            Single::CrlNumber => is_crl_number(alloc, value),
            Single::Digest => reads::<Digest>(alloc, value),
            Single::Padding => reads::<Padding>(alloc, value),
            Single::Take => reads::<Take>(alloc, value),
            Single::ExtensionId => reads::<ExtensionId>(alloc, value),
            Single::Attribute => reads::<Attribute>(alloc, value),
            Single::SubjectAttribute => reads::<SubjectAttribute>(alloc, value),
            Single::NamePart => reads::<NamePart>(alloc, value),
            Single::Time => reads::<Timestamp>(alloc, value),
            Single::Instant => reads::<UtcInstant>(alloc, value),
            Single::Days => reads::<Days>(alloc, value),
            Single::AltName => reads::<AltName>(alloc, value),
            Single::Ca => reads::<OrderCa>(alloc, value),
            Single::Usage => reads::<KeyUsagePurpose>(alloc, value),
            Single::Purpose => reads::<Purpose>(alloc, value),
            Single::Subtree => reads::<Subtree>(alloc, value),
            Single::KeyId => reads::<KeyId>(alloc, value),
            Single::Arcs => reads::<Arcs>(alloc, value),
            Single::Identifier => is_identifier(alloc, value),
            Single::Reason => is_reason(alloc, value),
            Single::DeltaReason => reads::<RevocationReason>(alloc, value),
            Single::Scope => reads::<CrlScope>(alloc, value),
        }
    }

    /// What such a value is, as it is written after `is not`.
    pub(crate) fn description(self) -> &'static str {
        match self {
            Single::Kind => "one of certificate, request, list, attribute",
            Single::Preset => "one of root, authority, server, client",
            Single::Text => "a text in quotation marks",
            Single::Switch => "true or false",
            Single::Hex => "an even number of hexadecimal digits, in quotation marks",
            Single::Serial => "a valid serial number: 1 to 20 octets of hex, positive",
            Single::CrlNumber => "a valid CRL number: 1 to 20 octets of hex, not negative",
            Single::Digest => "one of sha256, sha384, sha512",
            Single::Padding => "one of pkcs1, pss",
            Single::Take => "one of subject, alt_names, extended_key_usages, key_id",
            Single::ExtensionId => "the identifier of an extension, such as 2.5.29.14",
            Single::Attribute => "an attribute such as CN=a, O=Example, C:printable=DE or 1.2.3=a",
            Single::SubjectAttribute =>
                "an attribute such as CN=a, O=Example, C=DE or 1.2.3=a (distinguished_name takes further types)",
            Single::NamePart =>
                "a part of a name such as DC=example, OU=a, CN=a+UID=b or O=Example\\, Inc. (RFC 4514)",
            Single::Time => "a time such as 2026-01-31T12:00:00Z, in quotation marks",
            Single::Instant =>
                "a time such as 2026-01-31T12:00:00Z, in quotation marks and within the years 0 to 9999 in UTC",
            Single::Days => "a number of days from 1 to 36525",
            Single::AltName =>
                "an alternative name such as dns:www.example.org, ip:192.0.2.1, email:a@example.org, uri:http://example.org/ or other:1.2.3:a",
            Single::Ca =>
                "one of \"no\", \"false\" (not an authority, and basic constraints say so), \"unconstrained\", or a path length from 0 to 255",
            Single::Usage =>
                "one of digitalSignature, contentCommitment (once nonRepudiation), keyEncipherment, dataEncipherment, keyAgreement, keyCertSign, cRLSign, encipherOnly, decipherOnly",
            Single::Purpose =>
                "one of any, serverAuth, clientAuth, codeSigning, emailProtection, timeStamping, OCSPSigning, or an object identifier such as 1.3.6.1.5.5.7.3.17",
            Single::Subtree =>
                "a subtree such as dns:example.org, email:example.org, dir:Example or net:192.0.2.0/24",
            Single::KeyId => "one of sha256, sha384, sha512, or hex: and hexadecimal digits",
            Single::Arcs | Single::Identifier => "an object identifier such as 1.2.3",
            Single::Reason =>
                "one of unspecified, keyCompromise, cACompromise, affiliationChanged, superseded, cessationOfOperation, certificateHold, privilegeWithdrawn, aACompromise (removeFromCRL only with `base`)",
            Single::DeltaReason =>
                "one of unspecified, keyCompromise, cACompromise, affiliationChanged, superseded, cessationOfOperation, certificateHold, removeFromCRL, privilegeWithdrawn, aACompromise",
            Single::Scope => "one of user, ca",
        }
    }

    /// The words that such a value may be, where it is a word.
    fn words(self) -> &'static str {
        match self {
            Single::Kind => "certificate request list attribute",
            Single::Preset => "root authority server client",
            Single::Digest => "sha256 sha384 sha512",
            Single::Padding => "pkcs1 pss",
            Single::Take => "subject alt_names extended_key_usages key_id",
            Single::Ca => "no false unconstrained",
            Single::Usage =>
                "digitalSignature contentCommitment keyEncipherment dataEncipherment keyAgreement keyCertSign cRLSign encipherOnly decipherOnly",
            Single::Purpose =>
                "any serverAuth clientAuth codeSigning emailProtection timeStamping OCSPSigning",
            Single::KeyId => "sha256 sha384 sha512",
            Single::Reason =>
                "unspecified keyCompromise cACompromise affiliationChanged superseded cessationOfOperation certificateHold privilegeWithdrawn aACompromise",
            Single::DeltaReason =>
                "unspecified keyCompromise cACompromise affiliationChanged superseded cessationOfOperation certificateHold removeFromCRL privilegeWithdrawn aACompromise",
            Single::Scope => "user ca",
            _ => "",
        }
    }
}

/// How the text of an alternative name or of a subtree begins where its beginning is another's.
fn right_front(single: Single, text: &str) -> &'static str {
    match single {
        Single::Subtree if text.starts_with("ip:") => "; a range of addresses begins with net:",
        Single::Subtree if !text.contains(':') => "; a domain begins with dns:",
        Single::AltName if text.starts_with("net:") => "; an address begins with ip:",
        Single::AltName if !text.contains(':') => "; a host name begins with dns:",
        Single::AltName if text.starts_with("DNS:") => "; a host name begins with dns:",
        Single::AltName if text.starts_with("IP:") => "; an address begins with ip:",
        Single::Usage if text == "nonRepudiation" => "; use contentCommitment",
        _ => "",
    }
}

/// Adds what would be right in place of a text, where that can be guessed.
fn push_advice(
    alloc: Global,
    message: &mut String,
    single: Single,
    text: &str,
) -> Result<(), AllocError> {
    let front = right_front(single, text);
    if !front.is_empty() {
        return message.push_str(front);
    }
    let words = single.words();
    if words.is_empty() {
        return Ok(());
    }
    match nearest_word(alloc, text, words)? {
        Some(word) => {
            message.push_str("; use ")?;
            message.push_str(word)
        }
        None => Ok(()),
    }
}

/// What a value is.
pub(crate) fn type_of(value: &Value) -> &'static str {
    match value {
        Value::String(_) => "a text",
        Value::Integer(_) => "a number",
        Value::Float(_) => "a number with a fraction",
        Value::Boolean(_) => "true or false",
        Value::Datetime(_) => "a time without quotation marks",
        Value::Array(_) => "an array",
        Value::Table(_) => "a table",
    }
}

/// Adds a value: a short text, a number or a switch as it is, and of another one what it is.
fn push_value(alloc: Global, message: &mut String, value: &Value) -> Result<(), AllocError> {
    match value {
        Value::String(text) => {
            message.push_str("\"")?;
            push_short(alloc, message, text.as_str())?;
            message.push_str("\"")
        }
        Value::Integer(number) => {
            let digits = format!(in alloc; "{number}")?;
            message.push_str(digits.as_str())
        }
        Value::Boolean(true) => message.push_str("true"),
        Value::Boolean(false) => message.push_str("false"),
        other => message.push_str(type_of(other)),
    }
}

/// What is wrong with a word where another kind of word is required.
pub(crate) fn misfit_word(
    alloc: Global,
    single: Single,
    word: &str,
    wanted: &str,
) -> Result<String, AllocError> {
    let mut message = String::from_str(alloc, "\"")?;
    push_short(alloc, &mut message, word)?;
    message.push_str("\" is not ")?;
    message.push_str(wanted)?;
    push_advice(alloc, &mut message, single, word)?;
    Ok(message)
}

/// What is wrong with a value of another kind.
pub(crate) fn misfit(alloc: Global, single: Single, value: &Value) -> Result<String, AllocError> {
    let mut message = String::new(alloc);
    push_value(alloc, &mut message, value)?;
    message.push_str(" is not ")?;
    message.push_str(single.description())?;
    match value.as_str() {
        Some(text) => push_advice(alloc, &mut message, single, text)?,
        None => (),
    }
    Ok(message)
}
