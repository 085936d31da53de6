//! The lists that are asked of a certificate (RFC 5280, 6.3.3 (b) (1) and (f)).
ghost use Rattle.std.specs.Prelude.{◌≡◌, ◌++◌, ◌*◌, IfOk, OnOk, length, nat_lt};
ghost use Rattle.std.specs.List.{flat_map};
ghost use Rattle.std.specs.Option.{option_map};
ghost use Rattle.extension_lookup.specs.Lookup.{read_from};
ghost use Rattle.shelf_path.specs.ListIssuers.{list_by, list_under, lists_of, most_pairs, names_issuer, points_of, status_by};

use crate::list_issuer::{copy_of, read_from};
use asn1_core::{OutOfMemory, copied};
use der_tree::SequenceOf;
use extension_lookup::contents_at;
use jiff::civil::DateTime;
use path_names::names_match;
use path_revocation::{GivenList, ListIssuer, RevocationInputs, is_issuer_of, revocation_status};
use path_validation::RevocationStatus;
use pkix_cert::extension_id::CRL_DISTRIBUTION_POINTS_DER;
use pkix_cert::{
    Certificate, CertificateList, CertificateView, CrlDistributionPoints, DistributionPoint,
};
use pkix_name::Name;
use signature_verifier::SignatureVerifier;
use std::alloc::Global;

/// How many names of lists and of issuers are compared at most for a certificate.
const MOST_PAIRS: usize = 65_536;

/// The points that the certificate names (RFC 5280, 4.2.1.13).
#[tactic(auto, unfolding(crate::specs::ListIssuers::points_of))]
fn points_of(
    alloc: Global,
    view: &CertificateView<'_>,
) -> Result<CrlDistributionPoints, OutOfMemory>
    ensures { IfOk result (λ ps. ps ≡ points_of view.now) }
{
    let points: Option<CrlDistributionPoints> = read_from(
        alloc,
        contents_at(view, CRL_DISTRIBUTION_POINTS_DER),
    )?;
    match points {
        None => Ok(SequenceOf::new(alloc)),
        Some(points) => Ok(points),
    }
}

/// Whether a point names the issuer of its lists.
fn names_issuer(points: &[DistributionPoint]) -> bool
    ensures { result ≡ names_issuer points.now }
{
    points.iter().any(|point| point.crl_issuer.is_some())
}

/// The list as one of the issuer.
fn given(list: &CertificateList, issuer: &ListIssuer) -> Result<GivenList, OutOfMemory>
    ensures { IfOk result (λ given. given ≡ record { list = list.now; issuer = Some issuer.now }) }
{
    Ok(GivenList {
        list: copied(list)?,
        issuer: Some(copy_of(issuer)?),
    })
}

/// Appends the list, if it is one of the issuer.
#[tactic(auto, unfolding(crate::specs::ListIssuers::list_under))]
fn push_under(
    lists: &mut Vec<GivenList>,
    list: &CertificateList,
    issuer: &ListIssuer,
) -> Result<(), OutOfMemory>
    ensures { OnOk result (lists.new.items ≡ lists.old.items ++ list_under list.now issuer.now) }
{
    if is_issuer_of(list, issuer) {
        lists.push(given(list, issuer)?)?;
    }
    Ok(())
}

/// Appends the list as one of each of these issuers.
fn push_by(
    lists: &mut Vec<GivenList>,
    list: &CertificateList,
    issuers: &[ListIssuer],
) -> Result<(), OutOfMemory>
    ensures { OnOk result (lists.new.items ≡ lists.old.items ++ flat_map (list_under list.now) issuers.now) }
{
    for issuer in issuers {
        push_under(lists, list, issuer)?;
    }
    Ok(())
}

/// The same, if the list is one of this issuer, or lists of any are asked.
#[tactic(auto, unfolding(crate::specs::ListIssuers::list_by))]
fn push_asked(
    lists: &mut Vec<GivenList>,
    issuers: &[ListIssuer],
    issuer: &Name,
    of_any: bool,
    list: &CertificateList,
) -> Result<(), OutOfMemory>
    ensures { OnOk result (lists.new.items ≡ lists.old.items ++ list_by issuers.now issuer.now of_any list.now) }
{
    if names_match(&list.tbs_cert_list.issuer, issuer) || of_any {
        push_by(lists, list, issuers)?;
    }
    Ok(())
}

fn asked(
    alloc: Global,
    lists: &[CertificateList],
    issuers: &[ListIssuer],
    issuer: &Name,
    of_any: bool,
) -> Result<SequenceOf<GivenList>, OutOfMemory>
    ensures { IfOk result (λ given. given ≡ flat_map (list_by issuers.now issuer.now of_any) lists.now) }
{
    let mut given = Vec::new(alloc);
    for list in lists {
        push_asked(&mut given, issuers, issuer, of_any, list)?;
    }
    Ok(SequenceOf::from_vec(given))
}

/// Whether there are more names of lists and of issuers than are compared for a certificate.
#[tactic(auto, using(crate::proofs::Pairs::many_are))]
fn are_many(lists: &[CertificateList], issuers: &[ListIssuer]) -> bool
    ensures { result ≡ nat_lt most_pairs (length lists.now * length issuers.now) }
{
    lists.len().saturating_mul(issuers.len()) > MOST_PAIRS
}

/// The lists of a certificate, each as one of each of these issuers that has its name; none where they are
/// more than are compared.
#[tactic(auto, unfolding(crate::specs::ListIssuers::lists_of))]
pub(crate) fn lists_of(
    alloc: Global,
    lists: &[CertificateList],
    issuers: &[ListIssuer],
    view: &CertificateView<'_>,
    certificate: &Certificate,
) -> Result<SequenceOf<GivenList>, OutOfMemory>
    ensures { IfOk result (λ given. given ≡ lists_of lists.now issuers.now view.now certificate.now) }
{
    if are_many(lists, issuers) {
        return Ok(SequenceOf::new(alloc));
    }
    let points = points_of(alloc, view)?;
    asked(
        alloc,
        lists,
        issuers,
        &certificate.tbs_certificate.issuer,
        names_issuer(points.as_slice()),
    )
}

/// What is known of the certificate by these lists, unless they are more than are left to check.
#[tactic(auto, unfolding(crate::specs::ListIssuers::status_by))]
pub(crate) fn status_by(
    alloc: Global,
    at: DateTime,
    left: u64,
    lists: SequenceOf<GivenList>,
    certificate: &Certificate,
) -> Result<RevocationStatus, OutOfMemory>
    ensures { IfOk result (λ status. status ≡ status_by at left lists certificate.now) }
{
    if left < lists.as_slice().len() as u64 {
        return Ok(RevocationStatus::Undetermined);
    }
    let inputs = RevocationInputs {
        at,
        use_deltas: true,
        lists,
    };
    revocation_status(
        alloc,
        certificate,
        &inputs,
        &SignatureVerifier { takes_sha1: false },
    )
}
