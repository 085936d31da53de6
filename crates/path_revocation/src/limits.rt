//! How much is compared.
ghost use Rattle.std.specs.Prelude.{◌≡◌, ◌^◌, ◌-◌, length, map, min, nat_le, unwrap_or, []};
ghost use Rattle.std.specs.List.{sum_by};
ghost use Rattle.path_names.specs.Sizes.{names_size};
ghost use Rattle.path_revocation.specs.Limits.{count_of_name, count_on, finding_count, finding_size, is_too_much, most_lists};
ghost use Rattle.path_revocation.specs.Limits.{point_count, point_size, size_of_name, size_on};

use crate::finding::Finding;
use crate::given::GivenList;
use path_names::{directory_size, names_size, part_size};
use pkix_cert::{DistributionPoint, DistributionPointName, IssuingDistributionPoint};
use pkix_name::{GeneralNames, Name};

/// How many lists that can be used and are well signed are used at most.
const MOST_LISTS: usize = 512;

/// How many octets are read at most to compare the names of points with those of lists.
const MOST_OCTETS: usize = 1_000_000;

/// Whether there are no more lists than are used.
#[tactic(auto, using(crate::proofs::Limiting::few_are))]
pub(crate) fn are_few(sound: &[&GivenList]) -> bool
    ensures { result ≡ nat_le (length (map (λ g. g.now) sound.now)) most_lists }
{
    sound.len() <= MOST_LISTS
}

fn count_of_name(name: &Option<DistributionPointName>) -> usize
    ensures { result ≡ count_of_name name.now }
{
    match name {
        None => 0,
        Some(DistributionPointName::FullName(names)) => names.as_slice().len(),
        Some(DistributionPointName::NameRelativeToCrlIssuer(_)) => 1,
    }
}

fn size_of_name(name: &Option<DistributionPointName>) -> usize
    ensures { result ≡ min (size_of_name name.now) (2 ^ 64 - 1) }
{
    match name {
        None => 0,
        Some(DistributionPointName::FullName(names)) => names_size(names.as_slice()),
        Some(DistributionPointName::NameRelativeToCrlIssuer(rdn)) => part_size(rdn),
    }
}

fn count_of_names(names: &Option<GeneralNames>) -> usize
    ensures { result ≡ length (unwrap_or names.now []) }
{
    match names {
        None => 0,
        Some(names) => names.as_slice().len(),
    }
}

#[tactic(auto, unfolding(path_names::specs::Sizes::names_size))]
fn size_of_names(names: &Option<GeneralNames>) -> usize
    ensures { result ≡ min (names_size (unwrap_or names.now [])) (2 ^ 64 - 1) }
{
    match names {
        None => 0,
        Some(names) => names_size(names.as_slice()),
    }
}

#[tactic(auto, unfolding(crate::specs::Limits::point_count))]
fn point_count(point: &DistributionPoint) -> usize
    ensures { result ≡ min (point_count point.now) (2 ^ 64 - 1) }
{
    let count = count_of_name(&point.distribution_point).saturating_add(1);
    count.saturating_add(count_of_names(&point.crl_issuer))
}

#[tactic(auto, unfolding(crate::specs::Limits::point_size))]
fn point_size(issuer: &Name, point: &DistributionPoint) -> usize
    ensures { result ≡ min (point_size issuer.now point.now) (2 ^ 64 - 1) }
{
    let size = directory_size(issuer).saturating_add(size_of_name(&point.distribution_point));
    size.saturating_add(size_of_names(&point.crl_issuer))
}

#[tactic(auto, using(path_names::proofs::Sizes::sum_more))]
fn points_count(points: &[DistributionPoint]) -> usize
    ensures { result ≡ min (sum_by point_count points.now) (2 ^ 64 - 1) }
{
    let mut count: usize = 0;
    for point in points {
        count = count.saturating_add(point_count(point));
    }
    count
}

#[tactic(auto, using(path_names::proofs::Sizes::sum_more))]
fn points_size(issuer: &Name, points: &[DistributionPoint]) -> usize
    ensures { result ≡ min (sum_by (point_size issuer.now) points.now) (2 ^ 64 - 1) }
{
    let mut size: usize = 0;
    for point in points {
        size = size.saturating_add(point_size(issuer, point));
    }
    size
}

fn count_on(issuing_point: &Option<IssuingDistributionPoint>) -> usize
    ensures { result ≡ count_on issuing_point.now }
{
    match issuing_point {
        None => 0,
        Some(issuing_point) => count_of_name(&issuing_point.distribution_point),
    }
}

fn size_on(issuing_point: &Option<IssuingDistributionPoint>) -> usize
    ensures { result ≡ min (size_on issuing_point.now) (2 ^ 64 - 1) }
{
    match issuing_point {
        None => 0,
        Some(issuing_point) => size_of_name(&issuing_point.distribution_point),
    }
}

#[tactic(auto, unfolding(crate::specs::Limits::finding_count))]
fn finding_count(finding: &Option<Finding>) -> usize
    ensures { result ≡ min (finding_count finding.now) (2 ^ 64 - 1) }
{
    match finding {
        None => 1,
        Some(finding) => count_on(&finding.issuing_point).saturating_add(1),
    }
}

#[tactic(auto, unfolding(crate::specs::Limits::finding_size))]
fn finding_size(finding: &Option<Finding>) -> usize
    ensures { result ≡ min (finding_size finding.now) (2 ^ 64 - 1) }
{
    match finding {
        None => 1,
        Some(finding) => {
            directory_size(&finding.issuer).saturating_add(size_on(&finding.issuing_point))
        }
    }
}

#[tactic(auto, using(path_names::proofs::Sizes::sum_more))]
fn findings_count(findings: &[Option<Finding>]) -> usize
    ensures { result ≡ min (sum_by finding_count findings.now) (2 ^ 64 - 1) }
{
    let mut count: usize = 0;
    for finding in findings {
        count = count.saturating_add(finding_count(finding));
    }
    count
}

#[tactic(auto, using(path_names::proofs::Sizes::sum_more))]
fn findings_size(findings: &[Option<Finding>]) -> usize
    ensures { result ≡ min (sum_by finding_size findings.now) (2 ^ 64 - 1) }
{
    let mut size: usize = 0;
    for finding in findings {
        size = size.saturating_add(finding_size(finding));
    }
    size
}

/// Whether comparing the names of the points with those of the lists would read too many octets.
#[tactic(auto, using(crate::proofs::Limiting::too_much_is), unfolding(crate::specs::Limits::is_too_much))]
pub(crate) fn is_too_much(
    issuer: &Name,
    points: &[DistributionPoint],
    findings: &[Option<Finding>],
) -> bool
    ensures { result ≡ is_too_much issuer.now points.now findings.now }
{
    let of_lists = points_count(points).saturating_mul(findings_size(findings));
    let of_points = findings_count(findings).saturating_mul(points_size(issuer, points));
    of_lists.saturating_add(of_points) > MOST_OCTETS
}
