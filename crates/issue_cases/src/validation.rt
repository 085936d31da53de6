//! A path that others made.
use der_tree::der;
use jiff::civil::DateTime;
use path_validation::{PathInputs, TrustAnchor, validate_path};
use pkix_cert::{CertificateView, GeneralSubtrees};
use signature_verifier::SignatureVerifier;
use std::alloc::{AllocError, Global};

/// The subject of a certificate and its key, as whom the user trusts.
pub fn anchor_of(
    alloc: Global,
    certificate: &CertificateView<'_>,
) -> Result<Option<TrustAnchor>, AllocError> {
    let Some(name) = der::value_of(alloc, certificate.subject())? else {
        return Ok(None);
    };
    let Some(key_info) = der::value_of(alloc, certificate.key_info())? else {
        return Ok(None);
    };
    Ok(Some(TrustAnchor { name, key_info }))
}

/// Whether the path, the certificate that the anchor issued first, is valid at this time.
pub fn path_verdict(
    alloc: Global,
    path: &[CertificateView<'_>],
    anchor: TrustAnchor,
    at: DateTime,
) -> Result<String, AllocError> {
    let inputs = PathInputs {
        at,
        user_initial_policy_set: None,
        anchor,
        initial_policy_mapping_inhibit: false,
        initial_explicit_policy: false,
        initial_any_policy_inhibit: false,
        initial_permitted_subtrees: GeneralSubtrees::new(alloc),
        initial_excluded_subtrees: GeneralSubtrees::new(alloc),
        statuses: None,
    };
    match validate_path(alloc, path, &inputs, &SignatureVerifier::new()) {
        Ok(_) => "valid".to_string(alloc),
        Err(fault) => format!(in alloc; "invalid {fault}"),
    }
}
