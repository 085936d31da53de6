//! A chain, an anchor, a time as a GeneralizedTime has it, and who checks signatures: `yes` and `no` for all of
//! them, `real` for a `SignatureVerifier`, `algorithm:` and the hex of the one algorithm that is accepted, or
//! the secret of a `DigestVerifier`. A chain `-` is one without a certificate.
use crate::octets::of_hex;
use asn1_core::GeneralizedTime;
use chain_check::{ChainError, check_chain};
use jiff::civil::DateTime;
use rcgen_sign::{DigestVerifier, Verifier};
use signature_verifier::SignatureVerifier;
use std::alloc::Global;

/// Accepts each signature, or none.
#[derive(Clone, Copy)]
struct Constant {
    accepts: bool,
}

impl Verifier for Constant {
    ghost accepts = { λ verifier info key algorithm signature. verifier.accepts };

    fn verify(&self, _info: &[u8], _key_info: &[u8], _algorithm: &[u8], _signature: &[u8]) -> bool {
        self.accepts
    }
}

/// Accepts each signature whose algorithm has these octets.
#[derive(Clone, Copy)]
struct OneAlgorithm<'a> {
    octets: &'a [u8],
}

impl<'a> Verifier for OneAlgorithm<'a> {
    ghost use Rattle.std.specs.Str.{bytes_eq};

    ghost accepts = { λ verifier info key algorithm signature. bytes_eq algorithm verifier.octets.now };

    fn verify(&self, _info: &[u8], _key_info: &[u8], algorithm: &[u8], _signature: &[u8]) -> bool {
        algorithm == self.octets
    }
}

/// A chain, its anchor and a time.
#[derive(Drop)]
struct Chain<'a> {
    chain: &'a [u8],
    anchor: &'a [u8],
    at: DateTime,
}

fn check<V: Verifier>(alloc: Global, asked: &Chain<'_>, verifier: &V) -> Result<u64, ChainError> {
    check_chain(alloc, asked.chain, asked.anchor, asked.at, verifier)
}

fn check_by_algorithm(
    alloc: Global,
    asked: &Chain<'_>,
    digits: &str,
) -> Option<Result<u64, ChainError>> {
    let octets = of_hex(alloc, digits)?;
    let verifier = OneAlgorithm {
        octets: octets.as_slice(),
    };
    Some(check(alloc, asked, &verifier))
}

fn check_by_digest(
    alloc: Global,
    asked: &Chain<'_>,
    secret: &str,
) -> Option<Result<u64, ChainError>> {
    let secret = Vec::from_slice(alloc, secret.as_bytes()).ok()?;
    Some(check(alloc, asked, &DigestVerifier::new(secret)))
}

fn checked(alloc: Global, asked: &Chain<'_>, verifier: &str) -> Option<Result<u64, ChainError>> {
    if let Some(digits) = verifier.strip_prefix("algorithm:") {
        return check_by_algorithm(alloc, asked, digits);
    }
    match verifier {
        "yes" => Some(check(alloc, asked, &Constant { accepts: true })),
        "no" => Some(check(alloc, asked, &Constant { accepts: false })),
        "real" => Some(check(alloc, asked, &SignatureVerifier::new())),
        secret => check_by_digest(alloc, asked, secret),
    }
}

fn outcome_text(alloc: Global, outcome: Result<u64, ChainError>) -> Option<String> {
    match outcome {
        Ok(count) => format!(in alloc; "valid {count}").ok(),
        Err(fault) => format!(in alloc; "invalid {fault}").ok(),
    }
}

/// What comes of the chain of these words; none where they are otherwise, or memory runs out.
pub fn answer(alloc: Global, words: &str) -> Option<String> {
    let (chain, rest) = words.split_once(' ')?;
    let (anchor, rest) = rest.split_once(' ')?;
    let (time, verifier) = rest.split_once(' ')?;
    let chain = of_hex(alloc, chain)?;
    let anchor = of_hex(alloc, anchor)?;
    let asked = Chain {
        chain: chain.as_slice(),
        anchor: anchor.as_slice(),
        at: GeneralizedTime::from_contents(time.as_bytes())?.at,
    };
    outcome_text(alloc, checked(alloc, &asked, verifier)?)
}
