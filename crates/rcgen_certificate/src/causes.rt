//! Why nothing is issued, tested before anything is built.
ghost use Rattle.std.specs.Prelude.{◌≡◌, ◌==◌, ◌++◌, length, Some, None, is_some, map, flat_map, OnOk, IfErr};
ghost use Rattle.std.specs.List.{list_all, list_any};
ghost use Rattle.std.specs.Option.{option_copied, option_map};
ghost use Rattle.rcgen_certificate.specs.SubjectAltNames.{has_type_id};
ghost use Rattle.asn1_core.specs.Arcs.{is_oid};
ghost use Rattle.rcgen_text.specs.Causes.{Explains, ia5_text, origin_of};
ghost use Rattle.rcgen_text.specs.AlternativeNames.{alternative_name};
ghost use Rattle.rcgen_text.specs.DnTypes.{kind_of, type_arcs};
ghost use Rattle.rcgen_certificate.specs.AsciiTexts.{is_ascii, first_not_ascii};
ghost use Rattle.rcgen_certificate.specs.CustomExtensions.{custom_of, has_custom_oid};
ghost use Rattle.rcgen_certificate.specs.DistributionPoints.{has_empty_point, uris_of, uri_texts};
ghost use Rattle.rcgen_certificate.specs.ExtendedKeyUsages.{has_purpose_oid, purpose_of};
ghost use Rattle.rcgen_certificate.specs.Issue.{first_cause, all_oids_valid, HasNoCause};
ghost use Rattle.rcgen_certificate.specs.Issuers.{issuer_field_of};
ghost use Rattle.rcgen_certificate.specs.NameConstraints.{base_of, bases_of, base_texts, has_base_types, constraint_texts, has_subtree_types};
ghost use Rattle.rcgen_certificate.specs.NameValues.{has_types, issuer_name};
ghost use Rattle.rcgen_certificate.specs.ParamsView.{params_view};

use crate::custom_extension::CustomExtension;
use crate::distribution_point::CrlDistributionPoint;
use crate::extended_key_usage::ExtendedKeyUsagePurpose;
use crate::issuer::Issuer;
use crate::name_constraints::{GeneralSubtree, NameConstraints};
use crate::params::CertificateParams;
use asn1_core::valid_arcs;
use rcgen_sign::SigningKey;
use rcgen_text::{DistinguishedName, DnType, DnValue, Error, InvalidAsn1String, SanType};
use std::alloc::Global;

fn have_types(entries: &[(DnType, DnValue)]) -> bool
    ensures { result ≡ list_all (λ e. is_oid (type_arcs (kind_of e.0))) entries.now }
{
    entries.iter().all(|entry| valid_arcs(entry.0.oid()))
}

/// Whether each type of the name is an object identifier.
fn has_types(name: &DistinguishedName) -> bool
    ensures { result ≡ has_types name.now }
{
    have_types(name.entries())
}

/// Whether an issuer's distinguished name has a value.
#[tactic(auto, using(crate::proofs::IssuerNames::has_issuer_value))]
pub fn has_issuer_value(name: &DistinguishedName) -> bool
    ensures { result ≡ is_some (issuer_name name.now) }
{
    has_types(name)
}

/// Whether the type of an other name is an object identifier.
fn has_type_id(name: &SanType) -> bool
    ensures { result ≡ has_type_id (alternative_name name.now) }
{
    match name {
        SanType::Rfc822Name(_) => true,
        SanType::DnsName(_) => true,
        SanType::URI(_) => true,
        SanType::IpAddress(_) => true,
        SanType::OtherName((arcs, _)) => valid_arcs(arcs.as_slice()),
    }
}

fn have_type_ids(names: &[SanType]) -> bool
    ensures { result ≡ list_all (λ n. has_type_id (alternative_name n)) names.now }
{
    names.iter().all(|name| has_type_id(name))
}

fn have_purpose_arcs(purposes: &[ExtendedKeyUsagePurpose]) -> bool
    ensures { result ≡ list_all (λ p. has_purpose_oid (purpose_of p)) purposes.now }
{
    purposes.iter().all(|purpose| valid_arcs(purpose.oid()))
}

fn have_custom_arcs(given: &[CustomExtension]) -> bool
    ensures { result ≡ list_all (λ e. has_custom_oid (custom_of e)) given.now }
{
    given
        .iter()
        .all(|custom| valid_arcs(custom.oid_components()))
}

/// Whether all that names something in the parameters is an object identifier.
#[tactic(auto, using(crate::proofs::NoCause::tests))]
pub(crate) fn all_oids_valid(params: &CertificateParams) -> bool
    ensures { result ≡ all_oids_valid (params_view params.now) }
{
    has_types(&params.distinguished_name)
        && has_subtree_types(params.name_constraints.as_ref())
        && have_type_ids(&params.subject_alt_names)
        && have_purpose_arcs(&params.extended_key_usages)
        && have_custom_arcs(&params.custom_extensions)
}

/// Whether each type of the subtree's name is an object identifier.
fn has_base_types(subtree: &GeneralSubtree) -> bool
    ensures { result ≡ has_base_types (base_of subtree.now) }
{
    match subtree {
        GeneralSubtree::Rfc822Name(_) => true,
        GeneralSubtree::DnsName(_) => true,
        GeneralSubtree::DirectoryName(name) => has_types(name),
        GeneralSubtree::IpAddress(_) => true,
    }
}

fn have_base_types(subtrees: &[GeneralSubtree]) -> bool
    ensures { result ≡ list_all (λ s. has_base_types (base_of s)) subtrees.now }
{
    subtrees.iter().all(|subtree| has_base_types(subtree))
}

/// Whether each type of the subtrees' names is an object identifier.
#[tactic(auto, using(crate::proofs::Constraints::types))]
fn has_subtree_types(constraints: Option<&NameConstraints>) -> bool
    ensures { result ≡ has_subtree_types (option_map bases_of (option_copied constraints.entry)) }
{
    match constraints {
        Some(constraints) => have_base_types(&constraints.permitted_subtrees)
            && have_base_types(&constraints.excluded_subtrees),
        None => true,
    }
}

fn have_no_uri(points: &[CrlDistributionPoint]) -> bool
    ensures { result ≡ list_any (λ p. length p.uris.items == 0) points.now }
{
    points.iter().any(|point| point.uris.is_empty())
}

/// Whether a point has no URI.
fn has_empty_point(points: &[CrlDistributionPoint]) -> bool
    ensures { result ≡ has_empty_point (map uris_of points.now) }
{
    have_no_uri(points)
}

fn is_ascii(text: &str) -> bool
    ensures { result ≡ is_ascii text.now }
{
    text.as_bytes().iter().all(|byte| byte.is_ascii())
}

/// The text of the subtree, where it isn't ASCII.
fn first_of_subtree(subtree: &GeneralSubtree) -> Option<&str>
    ensures { option_copied result ≡ first_not_ascii (base_texts (base_of subtree.now)) }
{
    let (GeneralSubtree::Rfc822Name(text) | GeneralSubtree::DnsName(text)) = subtree else {
        return None;
    };
    if is_ascii(text.as_str()) {
        None
    } else {
        Some(text.as_str())
    }
}

/// The first text of the subtrees that isn't ASCII.
#[tactic(auto, using(crate::proofs::AsciiTexts::texts))]
fn first_of_subtrees(subtrees: &[GeneralSubtree]) -> Option<&str>
    ensures { option_copied result ≡ first_not_ascii (flat_map base_texts (map base_of subtrees.now)) }
{
    let mut rest = subtrees;
    while let [subtree, after @ ..] = rest {
        if let Some(text) = first_of_subtree(subtree) {
            return Some(text);
        }
        rest = after;
    }
    None
}

/// The first text of the permitted subtrees, then of the excluded ones, that isn't ASCII.
#[tactic(auto, using(crate::proofs::Constraints::texts))]
fn first_of_constraints(constraints: Option<&NameConstraints>) -> Option<&str>
    ensures { option_copied result ≡ first_not_ascii (constraint_texts (option_map bases_of (option_copied constraints.entry))) }
{
    let constraints = constraints?;
    match first_of_subtrees(&constraints.permitted_subtrees) {
        Some(text) => Some(text),
        None => first_of_subtrees(&constraints.excluded_subtrees),
    }
}

/// The first URI of the point that isn't ASCII.
pub fn first_uri_not_ascii(point: &CrlDistributionPoint) -> Option<&str>
    ensures { option_copied result ≡ first_not_ascii (uris_of point.now) }
{
    let mut rest = point.uris.as_slice();
    while let [uri, after @ ..] = rest {
        if !is_ascii(uri.as_str()) {
            return Some(uri.as_str());
        }
        rest = after;
    }
    None
}

/// The first URI that isn't ASCII.
#[tactic(auto, using(crate::proofs::Points::texts))]
fn first_of_points(points: &[CrlDistributionPoint]) -> Option<&str>
    ensures { option_copied result ≡ first_not_ascii (uri_texts (map uris_of points.now)) }
{
    let mut rest = points;
    while let [point, after @ ..] = rest {
        if let Some(text) = first_uri_not_ascii(point) {
            return Some(text);
        }
        rest = after;
    }
    None
}

/// The first text that isn't ASCII: of the permitted subtrees, of the excluded ones, then of the
/// points.
#[tactic(auto, using(crate::proofs::AsciiTexts::texts))]
fn first_not_ascii<'a>(
    constraints: Option<&'a NameConstraints>,
    points: &'a [CrlDistributionPoint],
) -> Option<&'a str>
    ensures { option_copied result ≡ first_not_ascii (constraint_texts (option_map bases_of (option_copied constraints.entry)) ++ uri_texts (map uris_of points.now)) }
{
    match first_of_constraints(constraints) {
        Some(text) => Some(text),
        None => first_of_points(points),
    }
}

/// The error of a text that isn't ASCII.
pub fn not_ascii_error(alloc: Global, text: &str) -> Error
    ensures { Explains (Some (ia5_text text.now)) ⊥ (origin_of result) }
{
    match String::from_str(alloc, text) {
        Ok(text) => Error::InvalidAsn1String(InvalidAsn1String::Ia5String(text)),
        Err(_) => Error::OutOfMemory,
    }
}

/// Answers the first cause why nothing is issued for the parameters under the issuer's name.
fn refuse_first<S: SigningKey>(
    alloc: Global,
    params: &CertificateParams,
    issuer: &Issuer<'_, S>,
) -> Result<(), Error>
    ensures ok { OnOk result (first_cause (params_view params.now) (issuer_field_of issuer.now) ≡ None) }
    ensures why { IfErr result (λ e. Explains (first_cause (params_view params.now) (issuer_field_of issuer.now)) ⊥ (origin_of e)) }
{
    // RFC 5280, 4.2.1.13
    if has_empty_point(&params.crl_distribution_points) {
        return Err(Error::EmptyCrlDistributionPointUris);
    }
    // RFC 5280, 4.1.2.5
    if params.not_before.utc().is_none() || params.not_after.utc().is_none() {
        return Err(Error::Time);
    }
    // X.660, 7.6
    if !(issuer.has_issuer_field() && all_oids_valid(params)) {
        return Err(Error::InvalidObjectIdentifier);
    }
    // RFC 5280, 4.2.1.6 and 4.2.1.10
    let text = first_not_ascii(
        params.name_constraints.as_ref(),
        &params.crl_distribution_points,
    );
    match text {
        Some(text) => Err(not_ascii_error(alloc, text)),
        None => Ok(()),
    }
}

/// Answers the first cause why nothing is issued for the parameters under the issuer's name. Where
/// there is none, each part is without one.
#[tactic(auto, using(crate::proofs::NoCause::parts))]
pub(crate) fn refuse_causes<S: SigningKey>(
    alloc: Global,
    params: &CertificateParams,
    issuer: &Issuer<'_, S>,
) -> Result<(), Error>
    ensures ok { OnOk result (first_cause (params_view params.now) (issuer_field_of issuer.now) ≡ None) }
    ensures parts { OnOk result (HasNoCause (params_view params.now) (issuer_field_of issuer.now)) }
    ensures why { IfErr result (λ e. Explains (first_cause (params_view params.now) (issuer_field_of issuer.now)) ⊥ (origin_of e)) }
{
    refuse_first(alloc, params, issuer)?;
    Ok(())
}
