//! A chain of certificates and its anchor (RFC 5280, 6.1).
ghost use Rattle.std.specs.Prelude.{◌≡◌, ◌++◌, ◌≤◌, ◌+◌, ◌<◌, ◌^◌, [], IfOk, IfErr, IfSome, length, Some, None};
ghost use Rattle.chain_check.specs.Answers.{AreOfPath, AreViews, Explains, IsNoPath, IsOnlyView, IsStop, Tells};
ghost use Rattle.chain_check.specs.Inputs.{Inputs, inputs};
ghost use Rattle.chain_check.specs.Outcomes.{IsOutcome, IsValid, Outcome};
ghost use Rattle.chain_check.specs.ViewChecks.{walk};

use crate::error::{ChainError, ChainReason};
use crate::place::{others_after, place_reason};
use jiff::civil::DateTime;
use pkix_cert::CertificateView;
use rcgen_sign::Verifier;
use std::alloc::Global;

/// The certificates of the chain, one after the other. `NotCertificate` at the first place where what
/// is left doesn't begin with one.
#[tactic(auto, using(crate::proofs::Fronts::views_more, crate::proofs::Fronts::shorter))]
fn chain_views<'a>(alloc: Global, chain: &'a [u8]) -> Result<Vec<CertificateView<'a>>, ChainError>
    ensures views { IfOk result (λ views. AreViews views.items chain.now []) }
    ensures fault { IfErr result (λ e. IsStop chain.now e) }
{
    let mut views = Vec::new(alloc);
    let mut rest = chain;
    while !rest.is_empty() {
        let Some(view) = CertificateView::new(rest) else {
            let place = views.len() as u64 + 1;
            return Err(ChainError::Fault {
                place,
                reason: ChainReason::NotCertificate,
            });
        };
        rest = view.rest();
        views.push(view)?;
    }
    Ok(views)
}

/// The one certificate that the input is.
fn one_view(input: &[u8]) -> Option<CertificateView<'_>>
    ensures { IsOnlyView input.now result }
{
    let view = CertificateView::new(input)?;
    if !view.rest().is_empty() {
        return None;
    }
    Some(view)
}

/// The certificates of the chain and the anchor after them, or `Empty` or `NotCertificate`.
fn path_views<'a>(
    alloc: Global,
    chain: &'a [u8],
    anchor: &'a [u8],
) -> Result<Vec<CertificateView<'a>>, ChainError>
    ensures views { IfOk result (λ views. AreOfPath chain.now anchor.now views.items) }
    ensures fault { IfErr result (λ e. IsNoPath chain.now anchor.now e) }
{
    if chain.is_empty() {
        return Err(ChainError::Fault {
            place: 1,
            reason: ChainReason::Empty,
        });
    }
    let mut views = chain_views(alloc, chain)?;
    let Some(view) = one_view(anchor) else {
        let place = views.len() as u64 + 1;
        return Err(ChainError::Fault {
            place,
            reason: ChainReason::NotCertificate,
        });
    };
    views.push(view)?;
    Ok(views)
}

/// Tests each place but the last, which is the anchor's, for the reasons from `AlgorithmsDiffer` to
/// `BadSignature`. It answers how many places it tested.
fn check_places<V: Verifier>(
    alloc: Global,
    views: &[CertificateView<'_>],
    at: DateTime,
    verifier: &V,
) -> Result<u64, ChainError>
    ensures { Tells result (walk (V.accepts verifier.now) at 0 None views.now) }
{
    let [leaf, issuers @ ..] = views else {
        return Ok(0);
    };
    let mut view = leaf;
    let mut place: u64 = 0;
    let mut others = None;
    for issuer in issuers {
        place += 1;
        if let Some(reason) = place_reason(alloc, view, issuer, others, at, verifier)? {
            return Err(ChainError::Fault { place, reason });
        }
        others = others_after(others, view);
        view = issuer;
    }
    Ok(place)
}

/// How many certificates the chain has, if each follows from the next and the last one from the
/// anchor (RFC 5280, 6.1). `chain` holds the certificates one after the other, the leaf first;
/// `anchor` is one certificate, of which the subject and the key info alone count; `at` is a civil
/// time in UTC. A fault tells the first reason that holds, in the order of `ChainReason`: the first
/// two of the whole input, the others place by place.
///
/// Name constraints and policies are not processed, so a certificate that makes them critical is
/// refused. Extensions that aren't critical are passed over, but for key usage and basic constraints.
/// Purposes and the subject's alternative names are accepted, also where they are critical, and what
/// they say is never looked at. Names match octet for octet only, where RFC 5280, 7.1, allows more.
/// Trust in the anchor and revocation are the caller's.
#[tactic(auto, using(crate::proofs::Coming::stopped_is, crate::proofs::Coming::valid_is, crate::proofs::Coming::fault_is))]
pub fn check_chain<V: Verifier>(
    alloc: Global,
    chain: &[u8],
    anchor: &[u8],
    at: DateTime,
    verifier: &V,
) -> Result<u64, ChainError>
    ensures valid { IfOk result (λ n. IsValid (inputs chain.now anchor.now at (V.accepts verifier.now)) n) }
    ensures fault { IfErr result (λ e. Explains (inputs chain.now anchor.now at (V.accepts verifier.now)) e) }
{
    let views = path_views(alloc, chain, anchor)?;
    check_places(alloc, views.as_slice(), at, verifier)
}

/// A law: of each input comes one thing alone. So a valid chain is answered with its count and no
/// fault, and an invalid one with its first fault and no other, unless memory runs out.
#[tactic(auto, using(crate::proofs::Coming::one_outcome_is))]
pub fn one_outcome()
    ensures { (x : Inputs) (a b : Outcome) → IsOutcome x a → IsOutcome x b → a ≡ b }
{}
