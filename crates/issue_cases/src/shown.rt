//! What the documents show of the libraries.
use crate::held::{sealed, to_be_signed};
use crate::issuing;
use crate::key::digest_key;
use crate::lines::{shown_certificate, told};
use crate::paths::path_text;
use crate::reading::accepted;
use case_octets::octets_of;
use rcgen_issue::{CertificateParams, FixedKey, Issuer, PKCS_ED25519, PublicKey, RefusingKey};
use std::alloc::{AllocError, Global};

fn subject(alloc: Global) -> Result<PublicKey, AllocError> {
    Ok(PublicKey::new([0xAA; 32].to_vec(alloc)?, PKCS_ED25519))
}

fn issuer_key(alloc: Global) -> Result<RefusingKey, AllocError> {
    Ok(RefusingKey::new(PKCS_ED25519, [0xBB; 32].to_vec(alloc)?))
}

fn fixed_key(alloc: Global) -> Result<FixedKey, AllocError> {
    let public = [0xBB; 32].to_vec(alloc)?;
    let signature = [0xBB, 0xCC].to_vec(alloc)?;
    Ok(FixedKey::new(PKCS_ED25519, public, signature))
}

fn message_text(alloc: Global, params: &CertificateParams) -> Option<String> {
    let subject = subject(alloc).ok()?;
    let issuer_key = issuer_key(alloc).ok()?;
    told(
        alloc,
        to_be_signed(alloc, params, &subject, params, issuer_key),
    )
}

fn sealed_text(alloc: Global, params: &CertificateParams) -> Option<String> {
    let subject = subject(alloc).ok()?;
    let key = fixed_key(alloc).ok()?;
    shown_certificate(alloc, &sealed(alloc, params, &subject, params, key))
}

// What is to be signed for a certificate of the defaults, and the certificate with the signature BB CC.
fn held_text(alloc: Global) -> Option<String> {
    let params = CertificateParams::default(alloc).ok()?;
    let message = message_text(alloc, &params)?;
    let certificate = sealed_text(alloc, &params)?;
    format!(in alloc; "{message} {certificate}").ok()
}

// What is issued for a request by the stand-in key of `root`.
fn requested_text(alloc: Global, request: &[u8]) -> Option<String> {
    let key = digest_key(alloc, b"root")?;
    let params = CertificateParams::default(alloc).ok()?;
    let issuer = Issuer::new(params, &key);
    shown_certificate(alloc, &accepted(alloc, request, &issuer))
}

/// `issue` writes a certificate in hex, `held` what is to be signed for one and the certificate with a signature, `request HEX`
/// what is issued for a request; the others are of paths.rt.
pub fn shown_text(alloc: Global, line: &str) -> Option<String> {
    let (word, words) = line.split_once(' ').unwrap_or((line, ""));
    match word {
        "issue" => shown_certificate(alloc, &issuing::certificate(alloc)),
        "held" => held_text(alloc),
        "request" => requested_text(alloc, &octets_of(alloc, words)?),
        _ => path_text(alloc, word, words),
    }
}
