//! A certificate, a time as a GeneralizedTime has it, `deltas` or `complete`, and lists with commas between
//! them, each a list and after a colon who signs it: a certificate, an anchor's after `@`, or `-` where no
//! path to its issuer is valid. All but the time are in hex.
use crate::octets::{of_hex, value_in, value_of};
use asn1_core::GeneralizedTime;
use der_tree::SequenceOf;
use extension_lookup::contents_at;
use path_revocation::{
    GivenList, ListIssuer, RevocationInputs, RevocationStatus, revocation_status,
};
use pkix_cert::extension_id::KEY_USAGE_DER;
use pkix_cert::{Certificate, CertificateList, CertificateView, CrlReason, KeyUsage};
use signature_verifier::SignatureVerifier;
use std::alloc::Global;

// What the certificate says of its key's use.
fn key_usage_of(alloc: Global, view: &CertificateView<'_>) -> Option<KeyUsage> {
    let contents = contents_at(view, KEY_USAGE_DER)?;
    value_in(alloc, contents)
}

fn issuer_of(alloc: Global, word: &str) -> Option<ListIssuer> {
    let digits = word.strip_prefix("@").unwrap_or(word);
    let octets = of_hex(alloc, digits)?;
    let view = CertificateView::new(octets.as_slice())?;
    let said = key_usage_of(alloc, &view);
    let key_usage = if word.starts_with('@') { None } else { said };
    let name = value_in(alloc, view.subject())?;
    let key_info = value_in(alloc, view.key_info())?;
    Some(ListIssuer {
        name,
        key_usage,
        key_info,
    })
}

fn given(alloc: Global, word: &str) -> Option<GivenList> {
    let (digits, signer) = word.split_once(':').unwrap_or((word, "-"));
    let issuer = issuer_of(alloc, signer);
    let list: CertificateList = value_of(alloc, digits)?;
    Some(GivenList { list, issuer })
}

fn lists_of(alloc: Global, words: &str) -> Option<SequenceOf<GivenList>> {
    let mut lists = SequenceOf::new(alloc);
    for word in words.split(',') {
        if let Some(given) = given(alloc, word) {
            lists.push(given).ok()?;
        }
    }
    Some(lists)
}

fn inputs_of(alloc: Global, words: &str) -> Option<RevocationInputs> {
    let (time, words) = words.split_once(' ')?;
    let (deltas, lists) = words.split_once(' ').unwrap_or((words, ""));
    let time = GeneralizedTime::from_contents(time.as_bytes())?;
    Some(RevocationInputs {
        at: time.at,
        use_deltas: deltas == "deltas",
        lists: lists_of(alloc, lists)?,
    })
}

fn status_of(alloc: Global, digits: &str, inputs: &RevocationInputs) -> Option<RevocationStatus> {
    let certificate: Certificate = value_of(alloc, digits)?;
    let verifier = SignatureVerifier::with_sha1();
    revocation_status(alloc, &certificate, inputs, &verifier).ok()
}

fn reason_text(reason: CrlReason) -> &'static str {
    match reason {
        CrlReason::Unspecified => "unspecified",
        CrlReason::KeyCompromise => "keyCompromise",
        CrlReason::CaCompromise => "cACompromise",
        CrlReason::AffiliationChanged => "affiliationChanged",
        CrlReason::Superseded => "superseded",
        CrlReason::CessationOfOperation => "cessationOfOperation",
        CrlReason::CertificateHold => "certificateHold",
        CrlReason::RemoveFromCRL => "removeFromCRL",
        CrlReason::PrivilegeWithdrawn => "privilegeWithdrawn",
        CrlReason::AaCompromise => "aACompromise",
    }
}

fn status_text(alloc: Global, status: RevocationStatus) -> Option<String> {
    match status {
        RevocationStatus::Good => String::from_str(alloc, "good").ok(),
        RevocationStatus::Undetermined => String::from_str(alloc, "undetermined").ok(),
        RevocationStatus::Revoked { at, reason } => {
            let why = reason_text(reason);
            format!(in alloc; "revoked {at} {why}").ok()
        }
    }
}

/// What is known of the revocation of the certificate of these words; none where they are otherwise, or memory
/// runs out.
pub fn answer(alloc: Global, words: &str) -> Option<String> {
    let (digits, rest) = words.split_once(' ')?;
    let inputs = inputs_of(alloc, rest)?;
    let status = status_of(alloc, digits, &inputs)?;
    status_text(alloc, status)
}
