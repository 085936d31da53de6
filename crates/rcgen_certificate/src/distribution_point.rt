//! Where lists of revoked certificates are found.
ghost use Rattle.std.specs.Prelude.{◌≡◌, true, map, IfOk, IfErr, ◌++◌, OnOk};
ghost use Rattle.std.specs.List.{list_all};
ghost use Rattle.pkix_name.specs.declared.general_name.GeneralName.TheVariants.{Uri};
ghost use Rattle.rcgen_text.specs.declared.error.Error.TheVariants.{OutOfMemory as NoMemory};
ghost use Rattle.rcgen_certificate.specs.AsciiTexts.{is_ascii};
ghost use Rattle.rcgen_certificate.specs.DistributionPoints.{uris_of, uri_texts, full_name, point_value, crl_distribution_points, crl_distribution_points_row};
ghost use Rattle.rcgen_certificate.specs.contracts.distribution_point.CrlDistributionPointPartialEq.TheImpl.{ghosts as equality};
ghost use Rattle.rcgen_certificate.specs.ExtensionRows.{row_of_extension};

use crate::extension::push_extension;
use crate::value::ia5_text;
use asn1_core::OutOfMemory;
use der_tree::SequenceOf;
use pkix_cert::extension_id::ID_CE_CRL_DISTRIBUTION_POINTS;
use pkix_cert::{
    CrlDistributionPoints, DistributionPoint, DistributionPointName, Extension, GeneralName,
    GeneralNames,
};
use rcgen_text::Error;
use std::alloc::Global;

/// Where lists of revoked certificates are found (RFC 5280, 4.2.1.13).
#[derive(Clone, Debug, PartialEq, Eq, Drop)]
pub struct CrlDistributionPoint {
    /// At least one, each in ASCII; otherwise nothing is issued.
    pub uris: Vec<String>,
}

// no `TryClone`: a copied `String` may have another capacity
impl CrlDistributionPoint {
    /// A point with the same URIs.
    #[tactic(auto, using(crate::proofs::Points::copies))]
    pub fn try_clone(&self, _alloc: Global) -> Result<CrlDistributionPoint, OutOfMemory>
        ensures uris { IfOk result (λ copy. uris_of copy ≡ uris_of self.now) }
        ensures equal { IfOk result (λ copy. equality.eq copy self.now ≡ true) }
    {
        Ok(self.clone()?)
    }
}

/// The name that a URI is.
fn uri_name(alloc: Global, uri: &str) -> Result<GeneralName, Error>
    requires { is_ascii uri.now ≡ true }
    ensures value { IfOk result (λ n. n ≡ Uri uri.now) }
    ensures memory { IfErr result (λ e. e ≡ NoMemory) }
{
    Ok(GeneralName::Uri(ia5_text(alloc, uri)?))
}

/// A name for each URI of the point.
fn uri_names(alloc: Global, point: &CrlDistributionPoint) -> Result<GeneralNames, Error>
    requires { list_all is_ascii (uris_of point.now) ≡ true }
    ensures value { IfOk result (λ names. names ≡ map Uri (uris_of point.now)) }
    ensures memory { IfErr result (λ e. e ≡ NoMemory) }
{
    let mut names = SequenceOf::new(alloc);
    for uri in &point.uris {
        names.push(uri_name(alloc, uri.as_str())?)?;
    }
    Ok(names)
}

/// The full name of the point.
pub fn full_name(
    alloc: Global,
    point: &CrlDistributionPoint,
) -> Result<DistributionPointName, Error>
    requires { list_all is_ascii (uris_of point.now) ≡ true }
    ensures value { IfOk result (λ name. name ≡ full_name (uris_of point.now)) }
    ensures memory { IfErr result (λ e. e ≡ NoMemory) }
{
    Ok(DistributionPointName::FullName(uri_names(alloc, point)?))
}

/// The distribution point with these URIs.
fn point_value(alloc: Global, point: &CrlDistributionPoint) -> Result<DistributionPoint, Error>
    requires { list_all is_ascii (uris_of point.now) ≡ true }
    ensures value { IfOk result (λ p. p ≡ point_value (uris_of point.now)) }
    ensures memory { IfErr result (λ e. e ≡ NoMemory) }
{
    let name = full_name(alloc, point)?;
    Ok(DistributionPoint {
        distribution_point: Some(name),
        reasons: None,
        crl_issuer: None,
    })
}

/// The distribution points; None where there are none (RFC 5280, 4.2.1.13).
fn crl_distribution_points(
    alloc: Global,
    points: &[CrlDistributionPoint],
) -> Result<Option<CrlDistributionPoints>, Error>
    requires { list_all is_ascii (uri_texts (map uris_of points.now)) ≡ true }
    ensures value { IfOk result (λ p. p ≡ crl_distribution_points (map uris_of points.now)) }
    ensures memory { IfErr result (λ e. e ≡ NoMemory) }
{
    if points.is_empty() {
        return Ok(None);
    }
    let mut list = SequenceOf::new(alloc);
    for point in points {
        list.push(point_value(alloc, point)?)?;
    }
    Ok(Some(list))
}

/// Puts the extension on where lists are found at the end.
#[tactic(auto, using(crate::proofs::KindTrees::crl_distribution_points_formed))]
pub(crate) fn push_crl_distribution_points(
    alloc: Global,
    list: &mut SequenceOf<Extension>,
    points: &[CrlDistributionPoint],
) -> Result<(), Error>
    requires { list_all is_ascii (uri_texts (map uris_of points.now)) ≡ true }
    ensures rows { OnOk result (map row_of_extension list.new ≡ map row_of_extension list.old ++ crl_distribution_points_row (map uris_of points.now)) }
    ensures memory { IfErr result (λ e. e ≡ NoMemory) }
{
    let points = crl_distribution_points(alloc, points)?;
    push_extension(alloc, list, ID_CE_CRL_DISTRIBUTION_POINTS, false, points)
}
