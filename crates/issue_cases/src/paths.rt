//! Verdicts of chains and paths.
use crate::chain::verdict;
use crate::validation::{anchor_of, path_verdict};
use case_octets::octets_of;
use jiff::civil::DateTime;
use path_validation::TrustAnchor;
use pkix_cert::CertificateView;
use std::alloc::Global;

fn anchor(alloc: Global, certificate: &[u8]) -> Option<TrustAnchor> {
    anchor_of(alloc, &CertificateView::new(certificate)?).ok()?
}

// The verdict of a path of one certificate at noon of the first of June.
fn validated_text(alloc: Global, certificate: &[u8], anchor: TrustAnchor) -> Option<String> {
    let certificate = CertificateView::new(certificate)?;
    let at = DateTime::new(2026, 6, 1, 12, 0, 0, 0).ok()?;
    path_verdict(alloc, [certificate].as_slice(), anchor, at).ok()
}

/// `chain HEX HEX` writes the verdict of a chain and its anchor, `path HEX HEX` that of a path of one certificate and its
/// anchor's.
pub fn path_text(alloc: Global, word: &str, words: &str) -> Option<String> {
    let (one, other) = words.split_once(' ')?;
    let one = octets_of(alloc, one)?;
    let other = octets_of(alloc, other)?;
    match word {
        "chain" => verdict(alloc, &one, &other).ok(),
        "path" => validated_text(alloc, &one, anchor(alloc, &other)?),
        _ => None,
    }
}
