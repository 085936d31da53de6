//! Who may sign revocation lists (RFC 5280, 6.3.3 (f)).
ghost use Rattle.std.specs.Prelude.{◌&&◌, ◌≡◌, ◌++◌, IfOk, OnOk, fold, length};
ghost use Rattle.std.specs.Option.{option_map};
ghost use Rattle.extension_lookup.specs.Lookup.{read_from};
ghost use Rattle.path_names.specs.NameMatching.{names_match};
ghost use Rattle.path_validation.specs.Outcomes.{outcome};
ghost use Rattle.shelf_path.specs.ListIssuers.{accepts_signature, again, anchor_as_issuer, as_issuer, has_crl_sign, if_good, is_valid_outcome};
ghost use Rattle.shelf_path.specs.ListIssuers.{is_valid_path, issuer_inputs, key_usage_of, known_below, known_by, known_first, known_with};
ghost use Rattle.shelf_path.specs.ListIssuers.{may_sign, most_checks, path_to, with_each, with_issuer, with_issuers};

use crate::asked_lists::{lists_of, status_by};
use asn1_core::{OutOfMemory, copied};
use der_tree::{DerType, SequenceOf, der};
use extension_lookup::contents_at;
use jiff::civil::DateTime;
use path_names::names_match;
use path_revocation::{GivenList, ListIssuer};
use path_validation::{PathError, PathInputs, RevocationStatus, TrustAnchor, validate_path};
use pkix_cert::extension_id::KEY_USAGE_DER;
use pkix_cert::{
    CRL_SIGN, Certificate, CertificateList, CertificateView, GeneralSubtrees, KeyUsage,
};
use pkix_name::Name;
use signature_verifier::SignatureVerifier;
use std::alloc::Global;

/// How many certificates the path to an issuer of lists has at most, its own included.
const MOST_CERTIFICATES: usize = 8;

/// The issuers of lists that are known at a place of a path.
#[derive(Drop)]
pub(crate) struct KnownIssuers {
    /// The subject of the last certificate so far, or the anchor's name.
    pub(crate) last: Name,
    pub(crate) issuers: SequenceOf<ListIssuer>,
    /// How many signatures of lists are still checked.
    pub(crate) left: u64,
}

/// The anchor as an issuer of lists.
fn anchor_as_issuer(anchor: &TrustAnchor) -> Result<ListIssuer, OutOfMemory>
    ensures { IfOk result (λ issuer. issuer ≡ anchor_as_issuer anchor.now) }
{
    Ok(ListIssuer {
        name: copied(&anchor.name)?,
        key_usage: None,
        key_info: copied(&anchor.key_info)?,
    })
}

/// The value whose DER the contents are, where they are there.
#[tactic(auto, unfolding(extension_lookup::specs::Lookup::read_from))]
pub(crate) fn read_from<T: DerType>(
    alloc: Global,
    contents: Option<&[u8]>,
) -> Result<Option<T>, OutOfMemory>
    ensures { IfOk result (λ value. value ≡ read_from T.codec (option_map (λ octets. octets.now) contents.entry)) }
{
    match contents {
        None => Ok(None),
        Some(octets) => der::value_of(alloc, octets),
    }
}

/// What the certificate says of its key's use (RFC 5280, 4.2.1.3).
#[tactic(auto, unfolding(crate::specs::ListIssuers::key_usage_of))]
fn key_usage_of(alloc: Global, view: &CertificateView<'_>) -> Result<Option<KeyUsage>, OutOfMemory>
    ensures { IfOk result (λ usage. usage ≡ key_usage_of view.now) }
{
    read_from(alloc, contents_at(view, KEY_USAGE_DER))
}

/// A certificate's subject as an issuer of lists: with its own key, so that one whose parameters are
/// inherited signs none (RFC 5280, 6.1.4 (e)).
fn as_issuer(
    alloc: Global,
    view: &CertificateView<'_>,
    certificate: &Certificate,
) -> Result<ListIssuer, OutOfMemory>
    ensures { IfOk result (λ issuer. issuer ≡ as_issuer view.now certificate.now) }
{
    let key_usage = key_usage_of(alloc, view)?;
    Ok(ListIssuer {
        name: certificate.tbs_certificate.subject.clone()?,
        key_usage,
        key_info: certificate.tbs_certificate.subject_public_key_info.clone()?,
    })
}

/// The same issuer.
pub(crate) fn copy_of(issuer: &ListIssuer) -> Result<ListIssuer, OutOfMemory>
    ensures { IfOk result (λ copy. copy ≡ issuer.now) }
{
    Ok(ListIssuer {
        name: copied(&issuer.name)?,
        key_usage: copied(&issuer.key_usage)?,
        key_info: copied(&issuer.key_info)?,
    })
}

/// What is asked about the path to an issuer of lists: the same time and anchor, whatever the policies.
pub(crate) fn issuer_inputs(alloc: Global, inputs: &PathInputs) -> Result<PathInputs, OutOfMemory>
    ensures { IfOk result (λ x. x ≡ issuer_inputs inputs.now) }
{
    let anchor = TrustAnchor {
        name: copied(&inputs.anchor.name)?,
        key_info: copied(&inputs.anchor.key_info)?,
    };
    Ok(PathInputs {
        at: inputs.at,
        user_initial_policy_set: None,
        anchor,
        initial_policy_mapping_inhibit: false,
        initial_explicit_policy: false,
        initial_any_policy_inhibit: false,
        initial_permitted_subtrees: GeneralSubtrees::new(alloc),
        initial_excluded_subtrees: GeneralSubtrees::new(alloc),
        statuses: None,
    })
}

/// Each of the certificates again.
fn again<'a>(
    alloc: Global,
    certificates: &[CertificateView<'a>],
) -> Result<Option<Vec<CertificateView<'a>>>, OutOfMemory>
    ensures { IfOk result (λ o. option_map (λ views. views.items) o ≡ again certificates.now) }
{
    let mut views = Vec::new(alloc);
    for certificate in certificates {
        let Some(view) = CertificateView::new(certificate.whole()) else {
            return Ok(None);
        };
        views.push(view)?;
    }
    Ok(Some(views))
}

/// The path of the certificates above and this one.
#[tactic(auto, unfolding(crate::specs::ListIssuers::path_to))]
fn path_to<'a>(
    alloc: Global,
    above: &[CertificateView<'a>],
    view: &CertificateView<'a>,
) -> Result<Option<Vec<CertificateView<'a>>>, OutOfMemory>
    ensures { IfOk result (λ o. option_map (λ views. views.items) o ≡ path_to above.now view.now) }
{
    let Some(mut path) = again(alloc, above)? else {
        return Ok(None);
    };
    let Some(last) = CertificateView::new(view.whole()) else {
        return Ok(None);
    };
    path.push(last)?;
    Ok(Some(path))
}

fn is_valid(
    alloc: Global,
    path: &[CertificateView<'_>],
    inputs: &PathInputs,
) -> Result<bool, OutOfMemory>
    ensures { IfOk result (λ b. b ≡ is_valid_outcome (outcome accepts_signature inputs.now path.now)) }
{
    match validate_path(
        alloc,
        path,
        inputs,
        &SignatureVerifier { takes_sha1: false },
    ) {
        Ok(_) => Ok(true),
        Err(
            PathError::Fault {
                place: _,
                reason: _,
            },
        ) => Ok(false),
        Err(PathError::OutOfMemory) => Err(OutOfMemory),
    }
}

/// Whether the certificate is the end of a valid path through the ones above.
fn ends_path(
    alloc: Global,
    inputs: &PathInputs,
    above: &[CertificateView<'_>],
    view: &CertificateView<'_>,
) -> Result<bool, OutOfMemory>
    ensures { IfOk result (λ b. b ≡ is_valid_path inputs.now (path_to above.now view.now)) }
{
    let Some(path) = path_to(alloc, above, view)? else {
        return Ok(false);
    };
    is_valid(alloc, path.as_slice(), inputs)
}

fn has_crl_sign(usage: &Option<KeyUsage>) -> bool
    ensures { result ≡ has_crl_sign usage.now }
{
    match usage {
        None => false,
        Some(usage) => usage.bit(CRL_SIGN),
    }
}

/// Whether this usage has cRLSign, and the certificate names this issuer as its own.
fn is_lists_key(usage: &Option<KeyUsage>, issuer: &Name, certificate: &Certificate) -> bool
    ensures { result ≡ (has_crl_sign usage.now && names_match issuer.now certificate.now.tbs_certificate.issuer) }
{
    has_crl_sign(usage) && names_match(issuer, &certificate.tbs_certificate.issuer)
}

/// Whether the certificate's subject may sign lists: it is the end of a valid path with the
/// certificates above, and cRLSign is among its usages.
#[tactic(auto, unfolding(crate::specs::ListIssuers::may_sign))]
fn may_sign(
    alloc: Global,
    inputs: &PathInputs,
    issuer: &Name,
    above: &[CertificateView<'_>],
    view: &CertificateView<'_>,
    certificate: &Certificate,
) -> Result<bool, OutOfMemory>
    ensures { IfOk result (λ b. b ≡ may_sign inputs.now issuer.now above.now view.now certificate.now) }
{
    let usage = key_usage_of(alloc, view)?;
    if is_lists_key(&usage, issuer, certificate) {
        ends_path(alloc, inputs, above, view)
    } else {
        Ok(false)
    }
}

/// Appends the issuer, if its certificate is good.
fn push_if_good(
    issuers: &mut SequenceOf<ListIssuer>,
    status: RevocationStatus,
    issuer: ListIssuer,
) -> Result<(), OutOfMemory>
    ensures { OnOk result (issuers.new ≡ issuers.old ++ if_good status issuer) }
{
    match status {
        RevocationStatus::Good => {
            issuers.push(issuer)?;
            Ok(())
        }
        RevocationStatus::Revoked { .. } => Ok(()),
        RevocationStatus::Undetermined => Ok(()),
    }
}

/// The issuers that are known with the subject of the certificate, if it is good by these lists.
fn known_by(
    alloc: Global,
    at: DateTime,
    known: KnownIssuers,
    lists: SequenceOf<GivenList>,
    view: &CertificateView<'_>,
    certificate: &Certificate,
) -> Result<KnownIssuers, OutOfMemory>
    ensures { IfOk result (λ k. k ≡ known_by at known lists view.now certificate.now) }
{
    let KnownIssuers {
        last,
        mut issuers,
        left,
    } = known;
    let checks = lists.as_slice().len() as u64;
    let status = status_by(alloc, at, left, lists, certificate)?;
    let issuer = as_issuer(alloc, view, certificate)?;
    push_if_good(&mut issuers, status, issuer)?;
    Ok(KnownIssuers {
        last,
        issuers,
        left: left.saturating_sub(checks),
    })
}

/// The same, if the certificate's subject may sign lists.
#[tactic(auto, unfolding(crate::specs::ListIssuers::known_with))]
fn known_with(
    alloc: Global,
    inputs: &PathInputs,
    lists: &[CertificateList],
    above: &[CertificateView<'_>],
    known: KnownIssuers,
    view: &CertificateView<'_>,
    certificate: &Certificate,
) -> Result<KnownIssuers, OutOfMemory>
    ensures { IfOk result (λ k. k ≡ known_with inputs.now lists.now above.now known view.now certificate.now) }
{
    if !may_sign(alloc, inputs, &known.last, above, view, certificate)? {
        return Ok(known);
    }
    let given = lists_of(alloc, lists, known.issuers.as_slice(), view, certificate)?;
    known_by(alloc, inputs.at, known, given, view, certificate)
}

#[tactic(auto, unfolding(crate::specs::ListIssuers::with_issuer))]
fn with_issuer(
    alloc: Global,
    inputs: &PathInputs,
    lists: &[CertificateList],
    above: &[CertificateView<'_>],
    known: KnownIssuers,
    view: &CertificateView<'_>,
) -> Result<KnownIssuers, OutOfMemory>
    ensures { IfOk result (λ k. k ≡ with_issuer inputs.now lists.now above.now known view.now) }
{
    let Some(certificate) = der::value_of(alloc, view.whole())? else {
        return Ok(known);
    };
    known_with(alloc, inputs, lists, above, known, view, &certificate)
}

fn with_each(
    alloc: Global,
    inputs: &PathInputs,
    lists: &[CertificateList],
    issuers: &[CertificateView<'_>],
    above: &[CertificateView<'_>],
    known: KnownIssuers,
) -> Result<KnownIssuers, OutOfMemory>
    ensures { IfOk result (λ k. k ≡ with_each inputs.now lists.now issuers.now above.now known) }
{
    let mut state = known;
    for view in issuers {
        state = with_issuer(alloc, inputs, lists, above, state, view)?;
    }
    Ok(state)
}

/// The issuers that are known with those of these certificates that are the end of a valid path through
/// the ones above, may sign lists, and are good by the lists of the issuers that are known (RFC 5280,
/// 6.3.3 (f)). One after another, so that a list counts for the certificate of another issuer only
/// where its own issuer is known before, and never for its own issuer's certificate.
#[tactic(auto, unfolding(crate::specs::ListIssuers::with_issuers))]
pub(crate) fn with_issuers(
    alloc: Global,
    inputs: &PathInputs,
    lists: &[CertificateList],
    issuers: &[CertificateView<'_>],
    above: &[CertificateView<'_>],
    known: KnownIssuers,
) -> Result<KnownIssuers, OutOfMemory>
    ensures { IfOk result (λ k. k ≡ with_issuers inputs.now lists.now issuers.now above.now known) }
{
    if above.len() >= MOST_CERTIFICATES {
        return Ok(known);
    }
    with_each(alloc, inputs, lists, issuers, above, known)
}

/// How many signatures of so many lists are checked, for all certificates.
fn most_checks(lists: usize) -> u64
    ensures { result ≡ most_checks lists }
{
    lists.min(65_536) as u64 * 16 + 64
}

/// The issuers that are known at the anchor.
pub(crate) fn known_first(
    alloc: Global,
    lists: &[CertificateList],
    anchor: &TrustAnchor,
) -> Result<KnownIssuers, OutOfMemory>
    ensures { IfOk result (λ k. k ≡ known_first lists.now anchor.now) }
{
    let mut issuers = SequenceOf::new(alloc);
    issuers.push(anchor_as_issuer(anchor)?)?;
    Ok(KnownIssuers {
        last: copied(&anchor.name)?,
        issuers,
        left: most_checks(lists.len()),
    })
}

/// The issuers that are known below a certificate of the path, for which so many lists were checked.
pub(crate) fn known_below(
    alloc: Global,
    known: KnownIssuers,
    checks: u64,
    view: &CertificateView<'_>,
    certificate: Certificate,
) -> Result<KnownIssuers, OutOfMemory>
    ensures { IfOk result (λ k. k ≡ known_below known checks view.now certificate) }
{
    let issuer = as_issuer(alloc, view, &certificate)?;
    let KnownIssuers {
        last: _,
        mut issuers,
        left,
    } = known;
    issuers.push(issuer)?;
    Ok(KnownIssuers {
        last: certificate.tbs_certificate.subject.clone()?,
        issuers,
        left: left.saturating_sub(checks),
    })
}
