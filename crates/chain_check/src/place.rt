//! A certificate at a place of a path (RFC 5280, 6.1.3 and 6.1.4).
ghost use Rattle.std.specs.Prelude.{◌≡◌, ◌+◌, ◌<◌, IfOk, IfSome, ◌^◌};
ghost use Rattle.der_tree.specs.Form.{value_of};
ghost use Rattle.pkix_cert.specs.Times.{validity};
ghost use Rattle.chain_check.specs.ViewChecks.{algorithms_differ, bad_signature, extension_reason, is_earlier, issued_reason};
ghost use Rattle.chain_check.specs.ViewChecks.{issuing_reason, no_cert_sign, not_ca, others_after, own_reason, place_reason};
ghost use Rattle.chain_check.specs.ViewChecks.{time_reason, too_long, validity_reason};
ghost use Rattle.chain_check.specs.Reasons.{is_below};

use crate::error::ChainReason;
use crate::extension::{CaExtensions, has_unhandled, read_ca_extensions};
use asn1_core::{BitString, Integer, OutOfMemory};
use der_tree::der;
use jiff::civil::DateTime;
use pkix_cert::{BasicConstraints, CertificateView, KEY_CERT_SIGN, KeyUsage, Validity};
use rcgen_sign::Verifier;
use std::alloc::Global;

fn is_earlier(a: DateTime, b: DateTime) -> bool
    ensures { result ≡ is_earlier a b }
{
    a < b
}

/// Whether the time isn't within the validity, both ends included.
#[tactic(auto, unfolding(crate::specs::ViewChecks::validity_reason))]
fn validity_reason(at: DateTime, validity: &Validity) -> Option<ChainReason>
    ensures { result ≡ validity_reason at validity.now }
{
    if is_earlier(at, validity.not_before.moment()) {
        return Some(ChainReason::NotYetValid);
    }
    if is_earlier(validity.not_after.moment(), at) {
        return Some(ChainReason::Expired);
    }
    None
}

/// `NotYetValid` or `Expired`. Each view has a validity.
#[tactic(auto, unfolding(crate::specs::ViewChecks::time_reason))]
fn time_reason(
    alloc: Global,
    view: &CertificateView<'_>,
    at: DateTime,
) -> Result<Option<ChainReason>, OutOfMemory>
    ensures { IfOk result (λ o. o ≡ time_reason at (value_of validity view.now.validity)) }
{
    match der::value_of(alloc, view.validity()) {
        Ok(Some(validity)) => Ok(validity_reason(at, &validity)),
        Ok(None) => Ok(Some(ChainReason::NotYetValid)),
        Err(e) => Err(e),
    }
}

#[tactic(auto, unfolding(crate::specs::ViewChecks::algorithms_differ))]
fn algorithms_differ(view: &CertificateView<'_>) -> bool
    ensures { result ≡ algorithms_differ view.now }
{
    view.tbs_signature() != view.signature_algorithm()
}

/// From `AlgorithmsDiffer` to `Expired`, which are of the certificate without its extensions.
#[tactic(auto, unfolding(crate::specs::ViewChecks::own_reason))]
fn own_reason(
    alloc: Global,
    view: &CertificateView<'_>,
    at: DateTime,
) -> Result<Option<ChainReason>, OutOfMemory>
    ensures { IfOk result (λ o. o ≡ own_reason at view.now) }
{
    if algorithms_differ(view) {
        return Ok(Some(ChainReason::AlgorithmsDiffer));
    }
    time_reason(alloc, view, at)
}

#[tactic(auto, unfolding(crate::specs::ViewChecks::not_ca))]
fn not_ca(constraints: &Option<BasicConstraints>) -> bool
    ensures { result ≡ not_ca constraints.now }
{
    match constraints {
        None => true,
        Some(constraints) => !constraints.ca,
    }
}

#[tactic(auto, unfolding(crate::specs::ViewChecks::no_cert_sign))]
fn no_cert_sign(usage: &Option<KeyUsage>) -> bool
    ensures { result ≡ no_cert_sign usage.now }
{
    match usage {
        None => false,
        Some(usage) => !usage.bit(KEY_CERT_SIGN),
    }
}

/// Whether the number is below the count.
fn is_below(most: &Integer, count: u64) -> bool
    ensures { result ≡ is_below most.now count }
{
    match most.to_u64() {
        Some(most) => most < count,
        None => most.as_bytes().first().is_some_and(|first| *first > 127),
    }
}

#[tactic(auto, unfolding(crate::specs::ViewChecks::too_long))]
fn too_long(others: u64, constraints: &Option<BasicConstraints>) -> bool
    ensures { result ≡ too_long others constraints.now }
{
    let Some(constraints) = constraints else {
        return false;
    };
    match &constraints.path_len_constraint {
        None => false,
        Some(most) => is_below(most, others),
    }
}

/// From `NotCa` to `PathTooLong`, which are of one that issued another of the chain. `others` is
/// how many between it and the leaf aren't self-issued.
#[tactic(auto, unfolding(crate::specs::ViewChecks::issuing_reason))]
fn issuing_reason(statements: &CaExtensions, others: u64) -> Option<ChainReason>
    ensures { result ≡ issuing_reason others statements.now }
{
    if not_ca(&statements.constraints) {
        return Some(ChainReason::NotCa);
    }
    if no_cert_sign(&statements.usage) {
        return Some(ChainReason::NoCertSign);
    }
    if too_long(others, &statements.constraints) {
        return Some(ChainReason::PathTooLong);
    }
    None
}

/// From `BadExtension` to `PathTooLong`, which are of the extensions. `others` is how many between the
/// certificate and the leaf aren't self-issued; `None` at the leaf.
#[tactic(auto, unfolding(crate::specs::ViewChecks::extension_reason))]
fn extension_reason(
    alloc: Global,
    view: &CertificateView<'_>,
    others: Option<u64>,
) -> Result<Option<ChainReason>, OutOfMemory>
    ensures { IfOk result (λ o. o ≡ extension_reason others view.now.extensions) }
{
    let Some(statements) = read_ca_extensions(alloc, view)? else {
        return Ok(Some(ChainReason::BadExtension));
    };
    if has_unhandled(view) {
        return Ok(Some(ChainReason::UnhandledCritical));
    }
    match others {
        None => Ok(None),
        Some(others) => Ok(issuing_reason(&statements, others)),
    }
}

/// Whether the signature has unused bits, or isn't accepted.
#[tactic(auto, unfolding(crate::specs::ViewChecks::bad_signature))]
fn bad_signature<V: Verifier>(
    view: &CertificateView<'_>,
    issuer: &CertificateView<'_>,
    signature: &Option<BitString>,
    verifier: &V,
) -> bool
    ensures { result ≡ bad_signature (V.accepts verifier.now view.now.tbs issuer.now.key_info view.now.signature_algorithm) signature.now }
{
    let Some(signature) = signature else {
        return true;
    };
    !(signature.unused() == 0
        && verifier.verify(
            view.tbs(),
            issuer.key_info(),
            view.signature_algorithm(),
            signature.bytes(),
        ))
}

/// `NameMismatch` or `BadSignature`, which are of a certificate and the one after it.
#[tactic(auto, unfolding(crate::specs::ViewChecks::issued_reason))]
fn issued_reason<V: Verifier>(
    alloc: Global,
    view: &CertificateView<'_>,
    issuer: &CertificateView<'_>,
    verifier: &V,
) -> Result<Option<ChainReason>, OutOfMemory>
    ensures { IfOk result (λ o. o ≡ issued_reason (V.accepts verifier.now) view.now issuer.now) }
{
    if view.issuer() != issuer.subject() {
        return Ok(Some(ChainReason::NameMismatch));
    }
    let signature = der::value_of(alloc, view.signature())?;
    if bad_signature(view, issuer, &signature, verifier) {
        return Ok(Some(ChainReason::BadSignature));
    }
    Ok(None)
}

/// The first reason at a place, from `AlgorithmsDiffer` to `BadSignature`. `others` is how many
/// between it and the leaf aren't self-issued; `None` at the leaf.
#[tactic(auto, unfolding(crate::specs::ViewChecks::place_reason))]
pub(crate) fn place_reason<V: Verifier>(
    alloc: Global,
    view: &CertificateView<'_>,
    issuer: &CertificateView<'_>,
    others: Option<u64>,
    at: DateTime,
    verifier: &V,
) -> Result<Option<ChainReason>, OutOfMemory>
    ensures { IfOk result (λ o. o ≡ place_reason (V.accepts verifier.now) at others view.now issuer.now) }
{
    if let Some(reason) = own_reason(alloc, view, at)? {
        return Ok(Some(reason));
    }
    if let Some(reason) = extension_reason(alloc, view, others)? {
        return Ok(Some(reason));
    }
    issued_reason(alloc, view, issuer, verifier)
}

/// The count for the next place: so many between it and the leaf that aren't self-issued. The one
/// that is given is None only at the leaf.
#[tactic(auto, unfolding(crate::specs::ViewChecks::others_after))]
pub(crate) fn others_after(others: Option<u64>, view: &CertificateView<'_>) -> Option<u64>
    requires { IfSome others (λ n. n + 1 < 2 ^ 64) }
    ensures { result ≡ others_after others view.now }
{
    match others {
        None => Some(0),
        Some(others) if view.issuer() == view.subject() => Some(others),
        Some(others) => Some(others + 1),
    }
}
