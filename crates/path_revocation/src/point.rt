//! Distribution points: their names, and the scope of a list (RFC 5280, 4.2.1.13, 5.2.5 and 6.3.3 (b)).
ghost use Rattle.std.specs.Prelude.{◌≡◌, ◌∷◌, [], IfOk, unwrap_or};
ghost use Rattle.std.specs.List.{list_any};
ghost use Rattle.path_revocation.specs.Points.{below, contains_such, general_names_match, has_name, has_scope, is_among, is_directory_name};
ghost use Rattle.path_revocation.specs.Points.{is_indirect, is_of_issuer, names_of, names_of_point, share_name};
ghost use Rattle.pkix_name.specs.declared.general_name.GeneralName.TheVariants.{DirectoryName};

use asn1_core::OutOfMemory;
use path_names::names_match;
use pkix_cert::{DistributionPoint, DistributionPointName, IssuingDistributionPoint};
use pkix_name::{GeneralName, GeneralNames, Name, RelativeDistinguishedName};
use std::alloc::Global;

#[tactic(auto, unfolding(crate::specs::Points::general_names_match))]
fn general_names_match(a: &GeneralName, b: &GeneralName) -> bool
    ensures { result ≡ general_names_match a.now b.now }
{
    match (a, b) {
        (GeneralName::DirectoryName(a), GeneralName::DirectoryName(b)) => names_match(a, b),
        (GeneralName::Rfc822Name(a), GeneralName::Rfc822Name(b)) => a.as_bytes() == b.as_bytes(),
        (GeneralName::DnsName(a), GeneralName::DnsName(b)) => a.as_bytes() == b.as_bytes(),
        (GeneralName::Uri(a), GeneralName::Uri(b)) => a.as_bytes() == b.as_bytes(),
        (GeneralName::IpAddress(a), GeneralName::IpAddress(b)) => a.as_slice() == b.as_slice(),
        (GeneralName::RegisteredId(a), GeneralName::RegisteredId(b)) => a == b,
        _ => false,
    }
}

fn has_match(name: &GeneralName, others: &[GeneralName]) -> bool
    ensures { result ≡ list_any (general_names_match name.now) others.now }
{
    others.iter().any(|other| general_names_match(name, other))
}

/// Whether one of the names is one of the others.
#[tactic(auto, unfolding(crate::specs::Points::share_name))]
fn share_name(names: &[GeneralName], others: &[GeneralName]) -> bool
    ensures { result ≡ share_name names.now others.now }
{
    names.iter().any(|name| has_match(name, others))
}

#[tactic(auto, unfolding(crate::specs::Points::is_directory_name))]
fn is_directory_name(name: &Name, general_name: &GeneralName) -> bool
    ensures { result ≡ is_directory_name name.now general_name.now }
{
    match general_name {
        GeneralName::DirectoryName(other) => names_match(other, name),
        _ => false,
    }
}

/// Whether the name is one of these.
#[tactic(auto, unfolding(crate::specs::Points::is_among))]
pub(crate) fn is_among(name: &Name, names: &[GeneralName]) -> bool
    ensures { result ≡ is_among name.now names.now }
{
    names.iter().any(|other| is_directory_name(name, other))
}

/// The name with one more part.
#[tactic(auto, unfolding(crate::specs::Points::below))]
fn below(name: &Name, rdn: &RelativeDistinguishedName) -> Result<Name, OutOfMemory>
    ensures { IfOk result (λ n. n ≡ below name.now rdn.now) }
{
    match name {
        Name::RdnSequence(rdns) => {
            let mut rdns = rdns.clone()?;
            rdns.push(rdn.clone()?)?;
            Ok(Name::RdnSequence(rdns))
        }
    }
}

/// The relative name appended to the name of the list's issuer, alone.
fn relative(
    alloc: Global,
    issuer: &Name,
    rdn: &RelativeDistinguishedName,
) -> Result<Vec<GeneralName>, OutOfMemory>
    ensures { IfOk result (λ names. names.items ≡ DirectoryName (below issuer.now rdn.now) ∷ []) }
{
    let name = GeneralName::DirectoryName(below(issuer, rdn)?);
    let names = vec![in alloc; name]?;
    Ok(names)
}

/// Whether one of the names is one of the point's, of which a relative one is appended to the name of
/// the list's issuer.
#[tactic(auto, unfolding(crate::specs::Points::names_of))]
fn shares_with(
    alloc: Global,
    names: &[GeneralName],
    issuer: &Name,
    name: &DistributionPointName,
) -> Result<bool, OutOfMemory>
    ensures { IfOk result (λ b. b ≡ share_name names.now (names_of issuer.now name.now)) }
{
    match name {
        DistributionPointName::FullName(others) => Ok(share_name(names, others.as_slice())),
        DistributionPointName::NameRelativeToCrlIssuer(rdn) => {
            let others = relative(alloc, issuer, rdn)?;
            Ok(share_name(names, others.as_slice()))
        }
    }
}

fn shares_with_these(names: &[GeneralName], issuers: &Option<GeneralNames>) -> bool
    ensures { result ≡ share_name names.now (unwrap_or issuers.now []) }
{
    match issuers {
        Some(issuers) => share_name(names, issuers.as_slice()),
        None => share_name(names, &[]),
    }
}

/// The same of a certificate's point, or of its cRLIssuer where it has no name.
#[tactic(auto, unfolding(crate::specs::Points::names_of_point))]
fn shares_with_point(
    alloc: Global,
    names: &[GeneralName],
    issuer: &Name,
    point: &DistributionPoint,
) -> Result<bool, OutOfMemory>
    ensures { IfOk result (λ b. b ≡ share_name names.now (names_of_point issuer.now point.now)) }
{
    match &point.distribution_point {
        Some(name) => shares_with(alloc, names, issuer, name),
        None => Ok(shares_with_these(names, &point.crl_issuer)),
    }
}

#[tactic(auto, unfolding(crate::specs::Points::is_indirect))]
pub(crate) fn is_indirect(issuing_point: &Option<IssuingDistributionPoint>) -> bool
    ensures { result ≡ is_indirect issuing_point.now }
{
    match issuing_point {
        None => false,
        Some(issuing_point) => issuing_point.indirect_crl,
    }
}

/// Whether the list is of the certificate's issuer, or of the point's (RFC 5280, 6.3.3 (b) (1)).
#[tactic(auto, unfolding(crate::specs::Points::is_of_issuer))]
pub(crate) fn is_of_issuer(
    issuer: &Name,
    issuers: &Option<GeneralNames>,
    list_issuer: &Name,
    issuing_point: &Option<IssuingDistributionPoint>,
) -> bool
    ensures { result ≡ is_of_issuer issuer.now issuers.now list_issuer.now issuing_point.now }
{
    match issuers {
        None => names_match(list_issuer, issuer),
        Some(issuers) => is_among(list_issuer, issuers.as_slice()) && is_indirect(issuing_point),
    }
}

/// Whether the list's name is one of the point's (RFC 5280, 6.3.3 (b) (2) (i)).
#[tactic(auto, unfolding(crate::specs::Points::has_name, crate::specs::Points::names_of))]
fn has_name(
    alloc: Global,
    list_issuer: &Name,
    point: &DistributionPoint,
    name: &Option<DistributionPointName>,
) -> Result<bool, OutOfMemory>
    ensures { IfOk result (λ b. b ≡ has_name list_issuer.now point.now name.now) }
{
    let Some(name) = name else {
        return Ok(true);
    };
    match name {
        DistributionPointName::FullName(names) => {
            shares_with_point(alloc, names.as_slice(), list_issuer, point)
        }
        DistributionPointName::NameRelativeToCrlIssuer(rdn) => {
            let names = relative(alloc, list_issuer, rdn)?;
            shares_with_point(alloc, names.as_slice(), list_issuer, point)
        }
    }
}

/// Whether such certificates are listed (RFC 5280, 6.3.3 (b) (2) (ii) to (iv)).
#[tactic(auto, unfolding(crate::specs::Points::contains_such))]
fn contains_such(is_ca: bool, issuing_point: &IssuingDistributionPoint) -> bool
    ensures { result ≡ contains_such is_ca issuing_point.now }
{
    !(issuing_point.only_contains_user_certs && is_ca)
        && (!issuing_point.only_contains_ca_certs || is_ca)
        && !issuing_point.only_contains_attribute_certs
}

/// Whether the list covers the certificate at the point (RFC 5280, 6.3.3 (b) (2)).
#[tactic(auto, unfolding(crate::specs::Points::has_scope))]
pub(crate) fn has_scope(
    alloc: Global,
    is_ca: bool,
    point: &DistributionPoint,
    list_issuer: &Name,
    issuing_point: &Option<IssuingDistributionPoint>,
) -> Result<bool, OutOfMemory>
    ensures { IfOk result (λ b. b ≡ has_scope is_ca point.now list_issuer.now issuing_point.now) }
{
    let Some(issuing_point) = issuing_point else {
        return Ok(true);
    };
    let is_named = has_name(alloc, list_issuer, point, &issuing_point.distribution_point)?;
    Ok(is_named && contains_such(is_ca, issuing_point))
}
