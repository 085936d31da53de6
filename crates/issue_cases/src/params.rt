//! The parameters that a line says.
use crate::name::name;
use crate::words::{arcs, has_word, method, moment, serial, texts, usages, value_of, value_or};
use case_octets::octets_of;
use rcgen_issue::{
    Attribute, BasicConstraints, CertificateParams, CidrSubnet, CrlDistributionPoint,
    CustomExtension, ExtendedKeyUsagePurpose, GeneralSubtree, IsCa, NameConstraints,
};
use std::alloc::Global;

fn set_times(line: &str, params: &mut CertificateParams) -> Option<()> {
    params.not_before = moment(value_or(line, "not_before=", "2025"))?;
    params.not_after = moment(value_or(line, "not_after=", "2026"))?;
    Some(())
}

fn set_serial(alloc: Global, line: &str, params: &mut CertificateParams) -> Option<()> {
    if let Some(digits) = value_of(line, "serial=") {
        params.serial_number = Some(serial(alloc, digits)?);
    }
    Some(())
}

// `no`, `explicit`, `any` or the length of a path.
fn authority(word: &str) -> Option<IsCa> {
    match word {
        "no" => Some(IsCa::NoCa),
        "explicit" => Some(IsCa::ExplicitNoCa),
        "any" => Some(IsCa::Ca(BasicConstraints::Unconstrained)),
        length => Some(IsCa::Ca(BasicConstraints::Constrained(length.parse().ok()?))),
    }
}

fn purpose(alloc: Global, word: &str) -> Option<ExtendedKeyUsagePurpose> {
    match word {
        "serverAuth" => Some(ExtendedKeyUsagePurpose::ServerAuth),
        text => Some(ExtendedKeyUsagePurpose::Other(arcs(alloc, text)?)),
    }
}

fn insert_purposes(alloc: Global, list: &str, params: &mut CertificateParams) -> Option<()> {
    for word in list.split(',') {
        let purpose = purpose(alloc, word)?;
        params.insert_extended_key_usage(purpose).ok()?;
    }
    Some(())
}

/// The point of URIs between commas.
pub fn point(alloc: Global, list: &str) -> Option<CrlDistributionPoint> {
    let uris = texts(alloc, list)?;
    Some(CrlDistributionPoint { uris })
}

// A subnet that is permitted, and a host that isn't.
fn constraints(alloc: Global, words: &str) -> Option<NameConstraints> {
    let (subnet, host) = words.split_once(',')?;
    let subnet = GeneralSubtree::IpAddress(CidrSubnet::from_str(subnet)?);
    let host = GeneralSubtree::DnsName(host.to_string(alloc).ok()?);
    Some(NameConstraints {
        permitted_subtrees: vec![in alloc; subnet].ok()?,
        excluded_subtrees: vec![in alloc; host].ok()?,
    })
}

fn custom(alloc: Global, text: &str) -> Option<CustomExtension> {
    let (front, digits) = text.split_once(':')?;
    let contents = octets_of(alloc, digits)?;
    CustomExtension::from_oid_content(alloc, arcs(alloc, front)?.as_slice(), contents).ok()
}

// An extension that isn't critical, or after `critical` a copy that is.
fn push_custom(alloc: Global, word: &str, params: &mut CertificateParams) -> Option<()> {
    if let Some(text) = word.strip_prefix("custom=") {
        params.custom_extensions.push(custom(alloc, text)?).ok()?;
    }
    if let Some(text) = word.strip_prefix("critical=") {
        let plain = custom(alloc, text)?;
        let mut critical = plain.try_clone(alloc).ok()?;
        critical.set_criticality(!plain.criticality());
        params.custom_extensions.push(critical).ok()?;
    }
    Some(())
}

fn set_uses(alloc: Global, line: &str, params: &mut CertificateParams) -> Option<()> {
    params.is_ca = authority(value_or(line, "ca=", "no"))?;
    params.key_usages = usages(alloc, value_of(line, "usages="))?;
    if let Some(list) = value_of(line, "purposes=") {
        insert_purposes(alloc, list, params)?;
    }
    Some(())
}

fn set_further(alloc: Global, line: &str, params: &mut CertificateParams) -> Option<()> {
    if let Some(list) = value_of(line, "points=") {
        let point = point(alloc, list)?;
        params.crl_distribution_points.push(point).ok()?;
    }
    if let Some(words) = value_of(line, "constraints=") {
        params.name_constraints = Some(constraints(alloc, words)?);
    }
    for word in line.split(' ') {
        push_custom(alloc, word, params)?;
    }
    Some(())
}

fn set_key(alloc: Global, line: &str, params: &mut CertificateParams) -> Option<()> {
    params.use_authority_key_identifier_extension = has_word(line, "authority_key");
    params.key_identifier_method = method(alloc, value_or(line, "method=", "sha256"))?;
    Some(())
}

fn set(alloc: Global, line: &str, params: &mut CertificateParams) -> Option<()> {
    set_times(line, params)?;
    set_serial(alloc, line, params)?;
    params.distinguished_name = name(alloc, value_or(line, "name=", "a"))?;
    set_uses(alloc, line, params)?;
    set_further(alloc, line, params)?;
    set_key(alloc, line, params)
}

/// The parameters of a certificate: the default ones, but for `not_before` and `not_after` (`moment`), `serial` (hex), `name`
/// (`name`), `ca` (`no`, `explicit`, `any` or the length of a path), `usages` (`usages`), `purposes` (`serverAuth` or arcs,
/// between commas), `points` (the URIs of one point, between commas), `constraints` (a subnet that is permitted and a host that
/// isn't), `custom` and `critical` (an extension's arcs and contents), `authority_key` and `method` (`method`).
pub fn params(alloc: Global, line: &str) -> Option<CertificateParams> {
    let mut params = CertificateParams::default(alloc).ok()?;
    set(alloc, line, &mut params)?;
    Some(params)
}

fn attribute(alloc: Global, text: &str) -> Option<Attribute> {
    let (front, digits) = text.split_once(':')?;
    let oid = arcs(alloc, front)?;
    let values = octets_of(alloc, digits)?;
    Some(Attribute { oid, values })
}

/// The attributes of the words `attribute=ARCS:HEX`, each a copy.
pub fn attributes(alloc: Global, line: &str) -> Option<Vec<Attribute>> {
    let mut attributes = Vec::new(alloc);
    for word in line.split(' ') {
        if let Some(text) = word.strip_prefix("attribute=") {
            let attribute = attribute(alloc, text)?;
            let copy = attribute.try_clone(alloc).ok()?;
            attributes.push(copy).ok()?;
        }
    }
    Some(attributes)
}
