//! Rules of where more is found: distribution points of lists and information access (RFC 5280, 4.2.1.13 and 4.2.2).
ghost use Rattle.std.specs.Prelude.{◌≡◌, IfOk};
ghost use Rattle.std.specs.List.{list_any};
ghost use Rattle.pkix_rules.specs.Points.{access_rules, has_bad_access, has_bad_name, has_bad_point, lacks_name, point_rules};

use crate::general::{has_bad_location, is_bad_location};
use asn1_core::OutOfMemory;
use pkix_cert::{CrlDistributionPoints, DistributionPoint, DistributionPointName};
use pkix_trust::{AccessDescription, AuthorityInfoAccessSyntax};
use rule_table::{Rule, note};
use std::alloc::Global;

/// Whether a URI of the name is one that nobody can fetch from.
pub(crate) fn has_bad_name(name: &Option<DistributionPointName>) -> bool
    ensures { result ≡ has_bad_name name.now }
{
    match name {
        None => false,
        Some(DistributionPointName::FullName(names)) => has_bad_location(names.as_slice()),
        Some(DistributionPointName::NameRelativeToCrlIssuer(_)) => false,
    }
}

fn has_bad_point(point: &DistributionPoint) -> bool
    ensures { result ≡ has_bad_point point.now }
{
    has_bad_name(&point.distribution_point)
}

/// Whether the point has neither a name nor an issuer.
fn lacks_name(point: &DistributionPoint) -> bool
    ensures { result ≡ lacks_name point.now }
{
    point.distribution_point.is_none() && point.crl_issuer.is_none()
}

fn has_nameless(points: &[DistributionPoint]) -> bool
    ensures { result ≡ list_any lacks_name points.now }
{
    points.iter().any(|point| lacks_name(point))
}

fn has_bad_points(points: &[DistributionPoint]) -> bool
    ensures { result ≡ list_any has_bad_point points.now }
{
    points.iter().any(|point| has_bad_point(point))
}

/// The rules of distribution points that are broken, in order.
#[tactic(auto, unfolding(crate::specs::Points::point_rules))]
pub(crate) fn point_rules(
    alloc: Global,
    points: &Option<CrlDistributionPoints>,
) -> Result<Vec<Rule>, OutOfMemory>
    ensures { IfOk result (λ v. v.items ≡ point_rules points.now) }
{
    let mut found = Vec::new(alloc);
    let Some(points) = points else {
        return Ok(found);
    };
    note(
        &mut found,
        Rule::EmptyCrlPoints,
        points.as_slice().is_empty(),
    )?;
    note(
        &mut found,
        Rule::CrlPointWithoutName,
        has_nameless(points.as_slice()),
    )?;
    note(
        &mut found,
        Rule::CrlPointUri,
        has_bad_points(points.as_slice()),
    )?;
    Ok(found)
}

fn has_bad_access(access: &AccessDescription) -> bool
    ensures { result ≡ has_bad_access access.now }
{
    is_bad_location(&access.access_location)
}

fn has_bad_accesses(accesses: &[AccessDescription]) -> bool
    ensures { result ≡ list_any has_bad_access accesses.now }
{
    accesses.iter().any(|access| has_bad_access(access))
}

/// The rules of information access that are broken, in order.
#[tactic(auto, unfolding(crate::specs::Points::access_rules))]
pub(crate) fn access_rules(
    alloc: Global,
    accesses: &Option<AuthorityInfoAccessSyntax>,
) -> Result<Vec<Rule>, OutOfMemory>
    ensures { IfOk result (λ v. v.items ≡ access_rules accesses.now) }
{
    let mut found = Vec::new(alloc);
    let Some(accesses) = accesses else {
        return Ok(found);
    };
    note(
        &mut found,
        Rule::EmptyAccess,
        accesses.as_slice().is_empty(),
    )?;
    note(
        &mut found,
        Rule::AccessUri,
        has_bad_accesses(accesses.as_slice()),
    )?;
    Ok(found)
}
