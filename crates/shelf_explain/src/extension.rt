//! Extensions by name, with their values spelled out.
ghost use Rattle.std.specs.Prelude.{◌≡◌, ◌++◌, IfOk, OnOk};
ghost use Rattle.std.specs.Option.{option_copied};
ghost use Rattle.der_tree.specs.PrimitiveTypes.{bit_string};
ghost use Rattle.shelf_explain.specs.BitNames.{key_usage_names, names_text};
ghost use Rattle.shelf_explain.specs.ExtensionTexts.{all_extensions, contents_text, critical_mark, each_read, extension_key, extension_line, extension_lines, kind_of, kind_of_others, kind_of_rarer, read_text, set_text};
ghost use Rattle.shelf_explain.specs.PartTexts.{read_at};

use crate::bits::push_key_usage;
use crate::element::{push_elements, push_features};
use crate::known::push_extension_name;
use crate::line::{next_line, push_key};
use crate::name::push_attribute_value;
use crate::part::Part;
use crate::part_text::{push_read_at, push_read_or_parts, push_unreadable_at};
use crate::show::{ShowText, push_hex};
use crate::timestamp::push_timestamp_list;
use asn1_core::{GeneralizedTime, Integer, ObjectIdentifier, OctetString};
use der_tree::{DerType, SequenceOf, der};
use pkix_cert::extension_id::{
    ID_CE_AUTHORITY_KEY_IDENTIFIER, ID_CE_BASIC_CONSTRAINTS, ID_CE_CERTIFICATE_ISSUER,
    ID_CE_CERTIFICATE_POLICIES, ID_CE_CRL_DISTRIBUTION_POINTS, ID_CE_CRL_NUMBER, ID_CE_CRL_REASONS,
    ID_CE_DELTA_CRL_INDICATOR, ID_CE_EXT_KEY_USAGE, ID_CE_FRESHEST_CRL, ID_CE_INHIBIT_ANY_POLICY,
    ID_CE_INVALIDITY_DATE, ID_CE_ISSUER_ALT_NAME, ID_CE_ISSUING_DISTRIBUTION_POINT,
    ID_CE_KEY_USAGE, ID_CE_NAME_CONSTRAINTS, ID_CE_POLICY_CONSTRAINTS, ID_CE_POLICY_MAPPINGS,
    ID_CE_SUBJECT_ALT_NAME, ID_CE_SUBJECT_KEY_IDENTIFIER,
};
use pkix_cert::{
    AuthorityKeyIdentifier, BasicConstraints, CrlReason, DistributionPoint, Extension, Extensions,
    IssuingDistributionPoint, KeyUsage, NameConstraints,
};
use pkix_name::GeneralName;
use pkix_trust::{AccessDescription, PolicyConstraints, PolicyInformation, PolicyMapping};
use std::alloc::{AllocError, Global};

/// What the issuer has to say (RFC 5280, 4.2.2.1).
const AUTHORITY_ACCESS: &[u32] = &[1, 3, 6, 1, 5, 5, 7, 1, 1];
/// What the subject has to say (RFC 5280, 4.2.2.2).
const SUBJECT_ACCESS: &[u32] = &[1, 3, 6, 1, 5, 5, 7, 1, 11];

/// What a server has to offer (RFC 7633, 4.1).
const TLS_FEATURES: &[u32] = &[1, 3, 6, 1, 5, 5, 7, 1, 24];
/// A responder's certificate isn't asked about (RFC 6960, 4.2.2.2.1).
const OCSP_NO_CHECK: &[u32] = &[1, 3, 6, 1, 5, 5, 7, 48, 1, 5];
/// Signed certificate timestamps (RFC 6962, 3.3).
const CT_TIMESTAMPS: &[u32] = &[1, 3, 6, 1, 4, 1, 11129, 2, 4, 2];
/// A certificate that is for logs alone (RFC 6962, 3.1).
const CT_POISON: &[u32] = &[1, 3, 6, 1, 4, 1, 11129, 2, 4, 3];
/// Microsoft's: by which template, and by which of the issuer's certificates.
const TEMPLATE_NAME: &[u32] = &[1, 3, 6, 1, 4, 1, 311, 20, 2];

const CA_VERSION: &[u32] = &[1, 3, 6, 1, 4, 1, 311, 21, 1];

const PREVIOUS_CA_HASH: &[u32] = &[1, 3, 6, 1, 4, 1, 311, 21, 2];

const TEMPLATE: &[u32] = &[1, 3, 6, 1, 4, 1, 311, 21, 7];

const APPLICATION_POLICIES: &[u32] = &[1, 3, 6, 1, 4, 1, 311, 21, 10];
/// Netscape's.
const COMMENT: &[u32] = &[2, 16, 840, 1, 113730, 1, 13];

/// What an extension contains.
#[derive(Clone, Copy, Debug)]
pub(crate) enum Contents {
    KeyUsage,
    KeyId,
    AuthorityKeyId,
    Names,
    BasicConstraints,
    Purposes,
    Points,
    Access,
    Policies,
    PolicyMappings,
    PolicyConstraints,
    NameConstraints,
    Number,
    Reason,
    Moment,
    IssuingPoint,
    Features,
    Flag,
    Timestamps,
    Text,
    Elements,
    Unknown,
}

/// What the extensions of an issuer's certificates contain.
#[tactic(auto, unfolding(crate::specs::ExtensionTexts::kind_of))]
fn kind_of(arcs: &[u32]) -> Contents
    ensures { result ≡ kind_of arcs.now }
{
    if arcs == ID_CE_KEY_USAGE {
        return Contents::KeyUsage;
    }
    if arcs == ID_CE_SUBJECT_KEY_IDENTIFIER {
        return Contents::KeyId;
    }
    if arcs == ID_CE_AUTHORITY_KEY_IDENTIFIER {
        return Contents::AuthorityKeyId;
    }
    if arcs == ID_CE_SUBJECT_ALT_NAME {
        return Contents::Names;
    }
    if arcs == ID_CE_ISSUER_ALT_NAME {
        return Contents::Names;
    }
    if arcs == ID_CE_BASIC_CONSTRAINTS {
        return Contents::BasicConstraints;
    }
    if arcs == ID_CE_EXT_KEY_USAGE {
        return Contents::Purposes;
    }
    if arcs == ID_CE_CRL_DISTRIBUTION_POINTS {
        return Contents::Points;
    }
    if arcs == ID_CE_FRESHEST_CRL {
        return Contents::Points;
    }
    if arcs == AUTHORITY_ACCESS {
        return Contents::Access;
    }
    if arcs == SUBJECT_ACCESS {
        return Contents::Access;
    }
    kind_of_rarer(arcs)
}

/// The same of policies, constraints, and the extensions of lists.
#[tactic(auto, unfolding(crate::specs::ExtensionTexts::kind_of_rarer))]
fn kind_of_rarer(arcs: &[u32]) -> Contents
    ensures { result ≡ kind_of_rarer arcs.now }
{
    if arcs == ID_CE_CERTIFICATE_POLICIES {
        return Contents::Policies;
    }
    if arcs == ID_CE_POLICY_MAPPINGS {
        return Contents::PolicyMappings;
    }
    if arcs == ID_CE_POLICY_CONSTRAINTS {
        return Contents::PolicyConstraints;
    }
    if arcs == ID_CE_NAME_CONSTRAINTS {
        return Contents::NameConstraints;
    }
    if arcs == ID_CE_INHIBIT_ANY_POLICY {
        return Contents::Number;
    }
    if arcs == ID_CE_CRL_NUMBER {
        return Contents::Number;
    }
    if arcs == ID_CE_DELTA_CRL_INDICATOR {
        return Contents::Number;
    }
    if arcs == ID_CE_CRL_REASONS {
        return Contents::Reason;
    }
    if arcs == ID_CE_INVALIDITY_DATE {
        return Contents::Moment;
    }
    if arcs == ID_CE_ISSUING_DISTRIBUTION_POINT {
        return Contents::IssuingPoint;
    }
    if arcs == ID_CE_CERTIFICATE_ISSUER {
        return Contents::Names;
    }
    kind_of_others(arcs)
}

/// The same of what other documents than RFC 5280 have.
#[tactic(auto, unfolding(crate::specs::ExtensionTexts::kind_of_others))]
fn kind_of_others(arcs: &[u32]) -> Contents
    ensures { result ≡ kind_of_others arcs.now }
{
    if arcs == TLS_FEATURES {
        return Contents::Features;
    }
    if arcs == OCSP_NO_CHECK {
        return Contents::Flag;
    }
    if arcs == CT_POISON {
        return Contents::Flag;
    }
    if arcs == CT_TIMESTAMPS {
        return Contents::Timestamps;
    }
    if arcs == TEMPLATE_NAME {
        return Contents::Text;
    }
    if arcs == COMMENT {
        return Contents::Text;
    }
    if arcs == CA_VERSION {
        return Contents::Number;
    }
    if arcs == PREVIOUS_CA_HASH {
        return Contents::KeyId;
    }
    if arcs == TEMPLATE {
        return Contents::Elements;
    }
    if arcs == APPLICATION_POLICIES {
        return Contents::Policies;
    }
    Contents::Unknown
}

/// Pushes the value whose DER encoding the octets are.
fn push_read<T: DerType + ShowText + Drop>(
    alloc: Global,
    lines: &mut Vec<u8>,
    octets: &[u8],
) -> Result<(), AllocError>
    ensures { OnOk result (lines.new.items ≡ lines.old.items ++ read_text T.codec T.text octets.now) }
{
    push_read_at::<T>(alloc, lines, &Part::in_front(octets))
}

/// Pushes the values of a SEQUENCE OF, one by one where it can't be read as a whole.
fn push_each_read<T: DerType + ShowText + Drop>(
    alloc: Global,
    lines: &mut Vec<u8>,
    octets: &[u8],
) -> Result<(), AllocError>
    ensures { OnOk result (lines.new.items ≡ lines.old.items ++ each_read T.codec T.text octets.now) }
{
    let part = Part::in_front(octets);
    push_read_or_parts::<SequenceOf<T>, SequenceOf<T>>(alloc, lines, next_line(), &part)
}

#[tactic(auto, unfolding(crate::specs::PartTexts::read_at, crate::specs::PartTexts::text_or_unreadable_at))]
fn push_key_usage_at(alloc: Global, lines: &mut Vec<u8>, part: &Part<'_>) -> Result<(), AllocError>
    ensures { OnOk result (lines.new.items ≡ lines.old.items ++ read_at bit_string (names_text key_usage_names) part.now) }
{
    let Some(bits) = der::value_of::<KeyUsage>(alloc, part.octets())? else {
        return push_unreadable_at(alloc, lines, part);
    };
    push_key_usage(alloc, lines, &bits)?;
    Ok(())
}

fn push_read_key_usage(alloc: Global, lines: &mut Vec<u8>, octets: &[u8]) -> Result<(), AllocError>
    ensures { OnOk result (lines.new.items ≡ lines.old.items ++ read_text bit_string (names_text key_usage_names) octets.now) }
{
    push_key_usage_at(alloc, lines, &Part::in_front(octets))
}

/// Pushes that an extension without a value is there: it has NULL.
#[tactic(auto, unfolding(crate::specs::ExtensionTexts::set_text))]
fn push_set(alloc: Global, lines: &mut Vec<u8>, octets: &[u8]) -> Result<(), AllocError>
    ensures { OnOk result (lines.new.items ≡ lines.old.items ++ set_text octets.now) }
{
    if octets == [5, 0].as_slice() {
        lines.extend_from_slice(b"yes")
    } else {
        push_unreadable_at(alloc, lines, &Part::in_front(octets))
    }
}

/// Pushes what an extension contains.
#[tactic(auto, unfolding(crate::specs::ExtensionTexts::contents_text))]
fn push_contents(
    alloc: Global,
    lines: &mut Vec<u8>,
    contents: Contents,
    octets: &[u8],
) -> Result<(), AllocError>
    ensures { OnOk result (lines.new.items ≡ lines.old.items ++ contents_text contents octets.now) }
{
    match contents {
        Contents::KeyUsage => push_read_key_usage(alloc, lines, octets),
        Contents::KeyId => push_read::<OctetString>(alloc, lines, octets),
        Contents::AuthorityKeyId => push_read::<AuthorityKeyIdentifier>(alloc, lines, octets),
        Contents::Names => push_each_read::<GeneralName>(alloc, lines, octets),
        Contents::BasicConstraints => push_read::<BasicConstraints>(alloc, lines, octets),
        Contents::Purposes => push_each_read::<ObjectIdentifier>(alloc, lines, octets),
        Contents::Points => push_each_read::<DistributionPoint>(alloc, lines, octets),
        Contents::Access => push_each_read::<AccessDescription>(alloc, lines, octets),
        Contents::Policies => push_each_read::<PolicyInformation>(alloc, lines, octets),
        Contents::PolicyMappings => push_each_read::<PolicyMapping>(alloc, lines, octets),
        Contents::PolicyConstraints => push_read::<PolicyConstraints>(alloc, lines, octets),
        Contents::NameConstraints => push_read::<NameConstraints>(alloc, lines, octets),
        Contents::Number => push_read::<Integer>(alloc, lines, octets),
        Contents::Reason => push_read::<CrlReason>(alloc, lines, octets),
        Contents::Moment => push_read::<GeneralizedTime>(alloc, lines, octets),
        Contents::IssuingPoint => push_read::<IssuingDistributionPoint>(alloc, lines, octets),
        Contents::Features => push_features(alloc, lines, octets),
        Contents::Flag => push_set(alloc, lines, octets),
        Contents::Timestamps => push_timestamp_list(alloc, lines, octets),
        Contents::Text => push_attribute_value(alloc, lines, octets),
        Contents::Elements => push_elements(alloc, lines, octets),
        Contents::Unknown => push_hex(alloc, lines, octets),
    }
}

/// Pushes what is in the extension with the identifier.
pub(crate) fn push_contents_of(
    alloc: Global,
    lines: &mut Vec<u8>,
    arcs: &[u32],
    octets: &[u8],
) -> Result<(), AllocError>
    ensures { OnOk result (lines.new.items ≡ lines.old.items ++ contents_text (kind_of arcs.now) octets.now) }
{
    push_contents(alloc, lines, kind_of(arcs), octets)
}

#[tactic(auto, unfolding(crate::specs::ExtensionTexts::critical_mark))]
fn push_critical_mark(key: &mut Vec<u8>, critical: bool) -> Result<(), AllocError>
    ensures { OnOk result (key.new.items ≡ key.old.items ++ critical_mark critical) }
{
    if critical {
        key.extend_from_slice(b" (critical)")
    } else {
        Ok(())
    }
}

/// The name of the extension, or the arcs of its identifier, and whether it is critical.
#[tactic(auto, unfolding(crate::specs::ExtensionTexts::extension_key))]
fn extension_key(alloc: Global, extension: &Extension) -> Result<Vec<u8>, AllocError>
    ensures { IfOk result (λ key. key.items ≡ extension_key extension.now) }
{
    let mut key = Vec::new(alloc);
    push_extension_name(alloc, &mut key, extension.extn_id.arcs())?;
    push_critical_mark(&mut key, extension.critical)?;
    Ok(key)
}

/// Pushes the line of an extension.
#[tactic(auto, unfolding(crate::specs::ExtensionTexts::extension_line, crate::specs::Lines::line))]
pub(crate) fn push_extension(
    alloc: Global,
    lines: &mut Vec<u8>,
    indent: &[u8],
    extension: &Extension,
) -> Result<(), AllocError>
    ensures { OnOk result (lines.new.items ≡ lines.old.items ++ extension_line indent.now extension.now) }
{
    let key = extension_key(alloc, extension)?;
    push_key(lines, indent, key.as_slice())?;
    let contents = kind_of(extension.extn_id.arcs());
    push_contents(alloc, lines, contents, extension.extn_value.as_slice())?;
    lines.push(b'\n')?;
    Ok(())
}

/// Pushes a line for each extension.
#[tactic(auto, using(crate::proofs::Joined::pushing), unfolding(crate::specs::ExtensionTexts::all_extensions))]
pub(crate) fn push_all_extensions(
    alloc: Global,
    lines: &mut Vec<u8>,
    indent: &[u8],
    extensions: &[Extension],
) -> Result<(), AllocError>
    ensures { OnOk result (lines.new.items ≡ lines.old.items ++ all_extensions indent.now extensions.now) }
{
    for extension in extensions {
        push_extension(alloc, lines, indent, extension)?;
    }
    Ok(())
}

/// Pushes a line for each extension, where there are any.
#[tactic(auto, unfolding(crate::specs::ExtensionTexts::extension_lines))]
pub(crate) fn push_extensions(
    alloc: Global,
    lines: &mut Vec<u8>,
    indent: &[u8],
    extensions: Option<&Extensions>,
) -> Result<(), AllocError>
    ensures { OnOk result (lines.new.items ≡ lines.old.items ++ extension_lines indent.now (option_copied extensions.entry)) }
{
    match extensions {
        None => Ok(()),
        Some(extensions) => { push_all_extensions(alloc, lines, indent, extensions.0.as_slice()) }
    }
}
