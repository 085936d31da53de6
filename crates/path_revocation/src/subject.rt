//! The certificate that is asked about.
ghost use Rattle.std.specs.Prelude.{◌≡◌, ◌++◌, IfOk, OnOk, [], unwrap_or};
ghost use Rattle.std.specs.Option.{option_map};
ghost use Rattle.path_revocation.specs.Search.{constraints_contents, is_ca, is_readable_certificate, names_contents, own_point, points_contents};
ghost use Rattle.path_revocation.specs.Search.{points, points_of, subject_of};
ghost use Rattle.path_revocation.specs.Entries.{general_names};
ghost use Rattle.path_revocation.specs.Extensions.{said};

use crate::extension::{can_be_read, contents_at, has_freshest, said};
use asn1_core::{Integer, OutOfMemory, copied};
use der_tree::SequenceOf;
use pkix_cert::extension_id::{
    ID_CE_BASIC_CONSTRAINTS, ID_CE_CRL_DISTRIBUTION_POINTS, ID_CE_ISSUER_ALT_NAME,
};
use pkix_cert::{
    BasicConstraints, Certificate, CrlDistributionPoints, DistributionPoint, DistributionPointName,
};
use pkix_name::{GeneralName, GeneralNames, Name};
use std::alloc::Global;

/// What the search is for.
#[derive(Drop)]
pub(crate) struct Subject {
    pub(crate) issuer: Name,
    pub(crate) serial_number: Integer,
    pub(crate) is_ca: bool,
    /// Whether it says where the newest list is (RFC 5280, 4.2.1.15).
    pub(crate) has_freshest: bool,
}

#[tactic(auto, unfolding(crate::specs::Search::constraints_contents))]
fn constraints_contents(certificate: &Certificate) -> Option<&[u8]>
    ensures { option_map (λ contents. contents.now) result ≡ constraints_contents certificate.now }
{
    contents_at(
        &certificate.tbs_certificate.extensions,
        ID_CE_BASIC_CONSTRAINTS,
    )
}

#[tactic(auto, unfolding(crate::specs::Search::points_contents))]
fn points_contents(certificate: &Certificate) -> Option<&[u8]>
    ensures { option_map (λ contents. contents.now) result ≡ points_contents certificate.now }
{
    contents_at(
        &certificate.tbs_certificate.extensions,
        ID_CE_CRL_DISTRIBUTION_POINTS,
    )
}

#[tactic(auto, unfolding(crate::specs::Search::names_contents))]
fn names_contents(certificate: &Certificate) -> Option<&[u8]>
    ensures { option_map (λ contents. contents.now) result ≡ names_contents certificate.now }
{
    contents_at(
        &certificate.tbs_certificate.extensions,
        ID_CE_ISSUER_ALT_NAME,
    )
}

/// Whether each extension that is read can be read.
#[tactic(auto, unfolding(crate::specs::Search::is_readable_certificate))]
pub(crate) fn is_readable_certificate(
    alloc: Global,
    certificate: &Certificate,
) -> Result<bool, OutOfMemory>
    ensures { IfOk result (λ b. b ≡ is_readable_certificate certificate.now) }
{
    let has_constraints = can_be_read::<BasicConstraints>(
        alloc,
        constraints_contents(certificate),
    )?;
    let has_points = can_be_read::<CrlDistributionPoints>(alloc, points_contents(certificate))?;
    let has_names = can_be_read::<GeneralNames>(alloc, names_contents(certificate))?;
    Ok(has_constraints && has_points && has_names)
}

/// Whether it includes basic constraints with cA (RFC 5280, 4.2.1.9).
#[tactic(auto, unfolding(crate::specs::Search::is_ca))]
fn is_ca(alloc: Global, certificate: &Certificate) -> Result<bool, OutOfMemory>
    ensures { IfOk result (λ b. b ≡ is_ca certificate.now) }
{
    let constraints: Option<BasicConstraints> = said(alloc, constraints_contents(certificate))?;
    match constraints {
        None => Ok(false),
        Some(constraints) => Ok(constraints.ca),
    }
}

/// What the search is for.
#[tactic(auto, unfolding(crate::specs::Search::subject_of))]
pub(crate) fn subject_of(alloc: Global, certificate: &Certificate) -> Result<Subject, OutOfMemory>
    ensures { IfOk result (λ subject. subject ≡ subject_of certificate.now) }
{
    let tbs = &certificate.tbs_certificate;
    Ok(Subject {
        issuer: tbs.issuer.clone()?,
        serial_number: tbs.serial_number.clone()?,
        is_ca: is_ca(alloc, certificate)?,
        has_freshest: has_freshest(&tbs.extensions),
    })
}

/// The issuer's other names (RFC 5280, 4.2.1.7).
fn issuer_alt_names(alloc: Global, certificate: &Certificate) -> Result<GeneralNames, OutOfMemory>
    ensures { IfOk result (λ names. names ≡ unwrap_or (said general_names (names_contents certificate.now)) []) }
{
    let names: Option<GeneralNames> = said(alloc, names_contents(certificate))?;
    match names {
        None => Ok(SequenceOf::new(alloc)),
        Some(names) => Ok(names),
    }
}

/// Appends copies of the names.
fn push_names(names: &mut Vec<GeneralName>, others: &[GeneralName]) -> Result<(), OutOfMemory>
    ensures { OnOk result (names.new.items ≡ names.old.items ++ others.now) }
{
    for name in others {
        names.push(copied(name)?)?;
    }
    Ok(())
}

/// The points that the certificate names (RFC 5280, 4.2.1.13).
fn named_points(
    alloc: Global,
    certificate: &Certificate,
) -> Result<CrlDistributionPoints, OutOfMemory>
    ensures { IfOk result (λ ps. ps ≡ unwrap_or (said points (points_contents certificate.now)) []) }
{
    let points: Option<CrlDistributionPoints> = said(alloc, points_contents(certificate))?;
    match points {
        None => Ok(SequenceOf::new(alloc)),
        Some(points) => Ok(points),
    }
}

/// The point for lists that no point names (RFC 5280, 6.3.3, at its end).
#[tactic(auto, unfolding(crate::specs::Search::own_point))]
fn own_point(alloc: Global, certificate: &Certificate) -> Result<DistributionPoint, OutOfMemory>
    ensures { IfOk result (λ p. p ≡ own_point certificate.now) }
{
    let issuer = certificate.tbs_certificate.issuer.clone()?;
    let mut names = vec![in alloc; GeneralName::DirectoryName(issuer)]?;
    let others = issuer_alt_names(alloc, certificate)?;
    push_names(&mut names, others.as_slice())?;
    Ok(DistributionPoint {
        distribution_point: Some(DistributionPointName::FullName(SequenceOf::from_vec(names))),
        reasons: None,
        crl_issuer: None,
    })
}

/// The points of the certificate, and then that one.
#[tactic(auto, unfolding(crate::specs::Search::points_of))]
pub(crate) fn points_of(
    alloc: Global,
    certificate: &Certificate,
) -> Result<CrlDistributionPoints, OutOfMemory>
    ensures { IfOk result (λ ps. ps ≡ points_of certificate.now) }
{
    let mut points = named_points(alloc, certificate)?;
    points.push(own_point(alloc, certificate)?)?;
    Ok(points)
}
