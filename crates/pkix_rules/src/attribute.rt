//! The rules that an attribute certificate breaks (RFC 5755, 4).
ghost use Rattle.std.specs.Prelude.{◌≡◌, ◌++◌, IfOk, not};
ghost use Rattle.std.specs.List.{list_any};
ghost use Rattle.std.specs.Option.{option_map};
ghost use Rattle.rule_table.specs.Found.{when};
ghost use Rattle.pkix_rules.specs.Attributes.{attribute_certificate_rules, extension_rules, frame_rules, has_empty_name, has_fraction_at, holder_rules, is_directory_name, is_empty_directory_name, is_named, is_named_issuer, is_odd_directory_name};
ghost use Rattle.pkix_rules.specs.Attributes.{is_odd_name, is_one, is_one_name, is_second_version, issuer_names_in, key_rules, rules_of, target_rules, time_rules};

use crate::alt_names::names_in;
use crate::certificate::{differ, is_empty_id, issuer_key_id};
use crate::contents::has_loose_contents;
use crate::criticality::pointer_rules;
use crate::extension::{
    extensions_in, has_critical, has_critical_stranger, has_uncritical, repeats_any, said_at,
};
use crate::frame::serial_rules;
use crate::identifiers::{
    AUDIT_IDENTITY, KNOWN_ATTRIBUTE_EXTENSIONS, NO_REVOCATION, TARGET_INFORMATION,
};
use crate::key::has_bad_parameters;
use crate::name::{
    are_ia5_texts, are_printable_texts, are_short_texts, are_texts, countries_fit, is_empty_name,
};
use crate::request::attribute_rules;
use crate::said::key_identifier_in;
use asn1_core::{GeneralizedTime, OctetString, OutOfMemory};
use der_tree::der;
use pkix_attr::{
    AttributeCertificateInfo, AttributeCertificateValidityPeriod, AttributeCertificateVersion,
    Holder, Issuer, IssuerSerial, V2Form,
};
use pkix_cert::extension_id::ID_CE_AUTHORITY_KEY_IDENTIFIER;
use pkix_cert::{AuthorityKeyIdentifier, Extension};
use pkix_name::{GeneralName, Name};
use rule_table::{Rule, add, note};
use std::alloc::Global;
use strict_der::is_strict;

/// Whether it has version 2, which is written as 1.
fn is_second_version(version: &AttributeCertificateVersion) -> bool
    ensures { result ≡ is_second_version version.now }
{
    version.0.as_bytes() == [1].as_slice()
}

/// Whether one of three is so, and no two.
fn is_one(a: bool, b: bool, c: bool) -> bool
    ensures { result ≡ is_one a b c }
{
    (a && !b && !c) || (!a && b && !c) || (!a && !b && c)
}

/// The names of the issuer of the holder's certificate, none where it isn't named by one.
fn issuer_names_in(id: &Option<IssuerSerial>) -> &[GeneralName]
    ensures { result.now ≡ issuer_names_in id.now }
{
    match id {
        None => &[],
        Some(id) => id.issuer.as_slice(),
    }
}

/// Whether it is a directory name without parts.
fn is_empty_directory_name(name: &GeneralName) -> bool
    ensures { result ≡ is_empty_directory_name name.now }
{
    match name {
        GeneralName::DirectoryName(name) => is_empty_name(name),
        GeneralName::OtherName(_) => false,
        GeneralName::Rfc822Name(_) => false,
        GeneralName::DnsName(_) => false,
        GeneralName::X400Address(_) => false,
        GeneralName::EdiPartyName(_) => false,
        GeneralName::Uri(_) => false,
        GeneralName::IpAddress(_) => false,
        GeneralName::RegisteredId(_) => false,
    }
}

fn has_empty_name(names: &[GeneralName]) -> bool
    ensures { result ≡ has_empty_name names.now }
{
    names.iter().any(|name| is_empty_directory_name(name))
}

/// Whether the value of an attribute of the name doesn't have the type of its identifier.
fn is_odd_name(alloc: Global, name: &Name) -> Result<bool, OutOfMemory>
    ensures { IfOk result (λ b. b ≡ is_odd_name name.now) }
{
    let countries = countries_fit(alloc, name)?;
    let ia5 = are_ia5_texts(alloc, name)?;
    let printable = are_printable_texts(alloc, name)?;
    let texts = are_texts(alloc, name)?;
    let short = are_short_texts(alloc, name)?;
    Ok(!(countries && ia5 && printable && texts && short))
}

fn is_odd_directory_name(alloc: Global, name: &GeneralName) -> Result<bool, OutOfMemory>
    ensures { IfOk result (λ b. b ≡ is_odd_directory_name name.now) }
{
    match name {
        GeneralName::DirectoryName(name) => is_odd_name(alloc, name),
        GeneralName::OtherName(_) => Ok(false),
        GeneralName::Rfc822Name(_) => Ok(false),
        GeneralName::DnsName(_) => Ok(false),
        GeneralName::X400Address(_) => Ok(false),
        GeneralName::EdiPartyName(_) => Ok(false),
        GeneralName::Uri(_) => Ok(false),
        GeneralName::IpAddress(_) => Ok(false),
        GeneralName::RegisteredId(_) => Ok(false),
    }
}

fn has_odd_name(alloc: Global, names: &[GeneralName]) -> Result<bool, OutOfMemory>
    ensures { IfOk result (λ b. b ≡ list_any is_odd_directory_name names.now) }
{
    for name in names {
        if is_odd_directory_name(alloc, name)? {
            return Ok(true);
        }
    }
    Ok(false)
}

/// Of who holds the attributes.
#[tactic(auto, unfolding(crate::specs::Attributes::holder_rules))]
fn holder_rules(alloc: Global, holder: &Holder) -> Result<Vec<Rule>, OutOfMemory>
    ensures { IfOk result (λ v. v.items ≡ holder_rules holder.now) }
{
    let by_certificate = issuer_names_in(&holder.base_certificate_id);
    let by_name = names_in(&holder.entity_name);
    let one = is_one(
        holder.base_certificate_id.is_some(),
        holder.entity_name.is_some(),
        holder.object_digest_info.is_some(),
    );
    let empty = has_empty_name(by_certificate) || has_empty_name(by_name);
    let mut found = Vec::new(alloc);
    note(&mut found, Rule::HolderForms, !one)?;
    note(&mut found, Rule::EmptyHolderName, empty)?;
    let odd_issuer = has_odd_name(alloc, by_certificate)?;
    let odd_holder = has_odd_name(alloc, by_name)?;
    note(&mut found, Rule::HolderNameForm, odd_issuer || odd_holder)?;
    Ok(found)
}

/// Whether the name is a directory name with a part.
fn is_directory_name(name: &GeneralName) -> bool
    ensures { result ≡ is_directory_name name.now }
{
    match name {
        GeneralName::DirectoryName(name) => !is_empty_name(name),
        GeneralName::OtherName(_) => false,
        GeneralName::Rfc822Name(_) => false,
        GeneralName::DnsName(_) => false,
        GeneralName::X400Address(_) => false,
        GeneralName::EdiPartyName(_) => false,
        GeneralName::Uri(_) => false,
        GeneralName::IpAddress(_) => false,
        GeneralName::RegisteredId(_) => false,
    }
}

/// Whether there is one name, a directory name with a part.
fn is_one_name(names: &[GeneralName]) -> bool
    ensures { result ≡ is_one_name names.now }
{
    match names {
        [] => false,
        [name] => is_directory_name(name),
        [_, _, ..] => false,
    }
}

fn is_named(form: &V2Form) -> bool
    ensures { result ≡ is_named form.now }
{
    is_one_name(names_in(&form.issuer_name))
        && form.base_certificate_id.is_none()
        && form.object_digest_info.is_none()
}

/// Whether the issuer is one directory name in the form of version 2.
fn is_named_issuer(issuer: &Issuer) -> bool
    ensures { result ≡ is_named_issuer issuer.now }
{
    match issuer {
        Issuer::V1(_) => false,
        Issuer::V2(form) => is_named(form),
    }
}

fn has_fraction_at(time: &GeneralizedTime) -> bool
    ensures { result ≡ has_fraction_at time.now }
{
    time.at.subsec_nanosecond() != 0
}

/// Of when the attributes hold.
#[tactic(auto, unfolding(crate::specs::Attributes::time_rules))]
fn time_rules(
    alloc: Global,
    period: &AttributeCertificateValidityPeriod,
) -> Result<Vec<Rule>, OutOfMemory>
    ensures { IfOk result (λ v. v.items ≡ time_rules period.now) }
{
    let reversed = period.not_after.at < period.not_before.at;
    let fraction = has_fraction_at(&period.not_before) || has_fraction_at(&period.not_after);
    let mut found = Vec::new(alloc);
    note(&mut found, Rule::ValidityReversed, reversed)?;
    note(&mut found, Rule::TimeFraction, fraction)?;
    Ok(found)
}

/// Of the extensions that attribute certificates have.
#[tactic(auto, unfolding(crate::specs::Attributes::target_rules))]
fn target_rules(alloc: Global, extensions: &[Extension]) -> Result<Vec<Rule>, OutOfMemory>
    ensures { IfOk result (λ v. v.items ≡ target_rules extensions.now) }
{
    let mut found = Vec::new(alloc);
    let targets = has_uncritical(extensions, TARGET_INFORMATION);
    note(&mut found, Rule::UncriticalTargets, targets)?;
    let audit = has_uncritical(extensions, AUDIT_IDENTITY);
    note(&mut found, Rule::UncriticalAuditIdentity, audit)?;
    let revocation = has_critical(extensions, NO_REVOCATION);
    note(&mut found, Rule::CriticalNoRevocation, revocation)?;
    Ok(found)
}

/// Of the extensions as a list.
#[tactic(auto, unfolding(crate::specs::Attributes::extension_rules))]
fn extension_rules(alloc: Global, extensions: &[Extension]) -> Result<Vec<Rule>, OutOfMemory>
    ensures { IfOk result (λ v. v.items ≡ extension_rules extensions.now) }
{
    let mut found = Vec::new(alloc);
    let repeats = repeats_any(alloc, extensions)?;
    note(&mut found, Rule::ExtensionTwice, repeats)?;
    note(
        &mut found,
        Rule::ExtensionNotDer,
        has_loose_contents(extensions),
    )?;
    let stranger = has_critical_stranger(extensions, KNOWN_ATTRIBUTE_EXTENSIONS);
    note(&mut found, Rule::UnknownCriticalExtension, stranger)?;
    let others = target_rules(alloc, extensions)?;
    add(&mut found, others)?;
    let others = pointer_rules(alloc, extensions)?;
    add(&mut found, others)?;
    Ok(found)
}

/// Of the key that signs it.
#[tactic(auto, unfolding(crate::specs::Attributes::key_rules))]
fn key_rules(
    alloc: Global,
    extensions: &[Extension],
    issuer_key: Option<&OctetString>,
) -> Result<Vec<Rule>, OutOfMemory>
    ensures { IfOk result (λ v. v.items ≡ key_rules extensions.now (option_map (λ k. k.now) issuer_key.entry)) }
{
    let mut found = Vec::new(alloc);
    let id: Option<AuthorityKeyIdentifier> = said_at(
        alloc,
        extensions,
        ID_CE_AUTHORITY_KEY_IDENTIFIER,
    )?;
    note(
        &mut found,
        Rule::EmptyAuthorityKeyId,
        is_empty_id(key_identifier_in(&id)),
    )?;
    let differs = differ(key_identifier_in(&id), issuer_key);
    note(&mut found, Rule::AuthorityKeyIdDiffers, differs)?;
    let critical = has_critical(extensions, ID_CE_AUTHORITY_KEY_IDENTIFIER);
    note(&mut found, Rule::CriticalAuthorityKeyId, critical)?;
    Ok(found)
}

/// Of what every attribute certificate says.
#[tactic(auto, unfolding(crate::specs::Attributes::frame_rules))]
fn frame_rules(alloc: Global, info: &AttributeCertificateInfo) -> Result<Vec<Rule>, OutOfMemory>
    ensures { IfOk result (λ v. v.items ≡ frame_rules info.now) }
{
    let attributes = info.attributes.as_slice();
    let mut found = Vec::new(alloc);
    note(
        &mut found,
        Rule::AttributeVersion,
        !is_second_version(&info.version),
    )?;
    note(
        &mut found,
        Rule::AttributeIssuerForm,
        !is_named_issuer(&info.issuer),
    )?;
    note(
        &mut found,
        Rule::SignatureParameters,
        has_bad_parameters(&info.signature),
    )?;
    let others = serial_rules(alloc, &info.serial_number)?;
    add(&mut found, others)?;
    let others = time_rules(alloc, &info.attr_cert_validity_period)?;
    add(&mut found, others)?;
    note(&mut found, Rule::NoAttributes, attributes.is_empty())?;
    let others = attribute_rules(alloc, attributes)?;
    add(&mut found, others)?;
    Ok(found)
}

/// The rules that an attribute certificate breaks, in order.
#[tactic(auto, unfolding(crate::specs::Attributes::rules_of))]
fn rules_of(
    alloc: Global,
    info: &AttributeCertificateInfo,
    issuer_key: Option<&OctetString>,
) -> Result<Vec<Rule>, OutOfMemory>
    ensures { IfOk result (λ v. v.items ≡ rules_of info.now (option_map (λ k. k.now) issuer_key.entry)) }
{
    let extensions = extensions_in(&info.extensions);
    let mut found = holder_rules(alloc, &info.holder)?;
    let others = frame_rules(alloc, info)?;
    add(&mut found, others)?;
    let others = extension_rules(alloc, extensions)?;
    add(&mut found, others)?;
    let others = key_rules(alloc, extensions, issuer_key)?;
    add(&mut found, others)?;
    Ok(found)
}

/// These, and whether its octets are strict DER.
fn all_rules_of(
    alloc: Global,
    info: &AttributeCertificateInfo,
    issuer_key: &Option<OctetString>,
    strict: bool,
) -> Result<Vec<Rule>, OutOfMemory>
    ensures { IfOk result (λ v. v.items ≡ rules_of info.now issuer_key.now ++ when (not strict) Rule.NotStrictDer) }
{
    let mut found = rules_of(alloc, info, issuer_key.as_ref())?;
    note(&mut found, Rule::NotStrictDer, !strict)?;
    Ok(found)
}

/// The rules that the attribute certificate breaks of which `message` is the DER of what is to be signed (RFC 5755, 4.1), in order, beside
/// its issuer's certificate, of which the DER is given where it is known. Octets that can't be read break none.
#[tactic(auto, unfolding(crate::specs::Attributes::attribute_certificate_rules))]
pub fn attribute_certificate_rules(
    alloc: Global,
    message: &[u8],
    issuer: Option<&[u8]>,
) -> Result<Vec<Rule>, OutOfMemory>
    ensures { IfOk result (λ w. w.items ≡ attribute_certificate_rules message.now (option_map (λ octets. octets.now) issuer.entry)) }
{
    let info: Option<AttributeCertificateInfo> = der::value_of(alloc, message)?;
    let Some(info) = info else {
        return Ok(Vec::new(alloc));
    };
    let key = issuer_key_id(alloc, issuer)?;
    let found = all_rules_of(alloc, &info, &key, is_strict(message))?;
    Ok(found)
}
