//! Checks a certification path.
ghost use Rattle.std.specs.Prelude.{◌≡◌, map, IfOk};
ghost use Rattle.chain_check.specs.Outcomes.{valid, invalid};
ghost use Rattle.certify_core.specs.Check.{accepts_some, outcome_line, reason_name};

use crate::document::Subcommand;
use crate::listing::push_decimal;
use crate::refusal::Refusal;
use certify_profile::CheckProfile;
use chain_check::{ChainError, ChainReason, check_chain};
use rcgen_sign::{DigestVerifier, Verifier};
use std::alloc::{AllocError, Global};
use std::marker::Model;
use toml_format::Text;

/// Accepts what the `DigestVerifier` of some secret accepts.
#[derive(Drop)]
struct SomeVerifier {
    verifiers: Vec<DigestVerifier>,
}

impl Model for SomeVerifier {
    ghost use Rattle.std.specs.Prelude.{ℕ, List};

    ghost Value = { List (List ℕ) };

    ghost view = { λ v. v.verifiers.items };
}

impl SomeVerifier {
    fn new(alloc: Global, secrets: Vec<Text>) -> Result<SomeVerifier, AllocError>
        ensures { IfOk result (λ verifier. verifier ≡ secrets.items) }
    {
        let mut verifiers = Vec::with_capacity(alloc, secrets.len())?;
        for secret in secrets {
            verifiers.push(DigestVerifier::new(secret.into_string().into_bytes()))?;
        }
        Ok(SomeVerifier { verifiers })
    }
}

impl Verifier for SomeVerifier {
    ghost accepts = { accepts_some };

    fn verify(&self, info: &[u8], key_info: &[u8], algorithm: &[u8], signature: &[u8]) -> bool {
        let verifiers = self.verifiers.as_slice();
        for verifier in verifiers {
            if verifier.verify(info, key_info, algorithm, signature) {
                return true;
            }
        }
        false
    }
}

/// The name of a reason.
fn reason_name(reason: ChainReason) -> &'static [u8]
    ensures { result.now ≡ reason_name reason }
{
    match reason {
        ChainReason::Empty => b"Empty",
        ChainReason::NotCertificate => b"NotCertificate",
        ChainReason::AlgorithmsDiffer => b"AlgorithmsDiffer",
        ChainReason::NotYetValid => b"NotYetValid",
        ChainReason::Expired => b"Expired",
        ChainReason::BadExtension => b"BadExtension",
        ChainReason::UnhandledCritical => b"UnhandledCritical",
        ChainReason::NotCa => b"NotCa",
        ChainReason::NoCertSign => b"NoCertSign",
        ChainReason::PathTooLong => b"PathTooLong",
        ChainReason::NameMismatch => b"NameMismatch",
        ChainReason::BadSignature => b"BadSignature",
    }
}

/// The line of a path of so many certificates.
#[tactic(auto, unfolding(crate::specs::Check::outcome_line))]
fn valid_line(alloc: Global, count: u64) -> Result<Vec<u8>, AllocError>
    ensures { IfOk result (λ line. line.items ≡ outcome_line (valid count)) }
{
    let mut line = b"valid ".to_vec(alloc)?;
    push_decimal(alloc, &mut line, count)?;
    line.push(b'\n')?;
    Ok(line)
}

/// The line of the first reason, and where it holds.
#[tactic(auto, unfolding(crate::specs::Check::outcome_line))]
fn invalid_line(alloc: Global, place: u64, reason: ChainReason) -> Result<Vec<u8>, AllocError>
    ensures { IfOk result (λ line. line.items ≡ outcome_line (invalid place reason)) }
{
    let mut line = b"invalid ".to_vec(alloc)?;
    push_decimal(alloc, &mut line, place)?;
    line.push(b' ')?;
    line.extend_from_slice(reason_name(reason))?;
    line.push(b'\n')?;
    Ok(line)
}

/// The line of the certification path.
pub(crate) struct Checking;

impl Subcommand for Checking {
    ghost use Rattle.certify_core.specs.Checking.{checking};

    type Profile = CheckProfile;

    ghost spec = { checking };

    fn text(alloc: Global, profile: CheckProfile) -> Result<Vec<u8>, Refusal> {
        let CheckProfile {
            chain,
            anchor,
            at,
            secrets,
        } = profile;
        let verifier = SomeVerifier::new(alloc, secrets.into_vec())?;
        let at = at.civil();
        match check_chain(alloc, chain.as_slice(), anchor.as_slice(), at, &verifier) {
            Ok(count) => Ok(valid_line(alloc, count)?),
            Err(ChainError::Fault { place, reason }) => Ok(invalid_line(alloc, place, reason)?),
            Err(ChainError::OutOfMemory) => Err(Refusal::OutOfMemory),
        }
    }
}
