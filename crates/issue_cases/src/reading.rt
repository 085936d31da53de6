//! A request that others wrote, and what is issued for it.
use rcgen_issue::{Certificate, Error, IsCa, Issuer, SigningKey, date_time_ymd};
use rcgen_read::CertificateSigningRequestParams;
use signature_verifier::SignatureVerifier;
use std::alloc::Global;

/// What a request asks for, issued for the year 2026, where its own key signed it.
pub fn accepted<S: SigningKey>(
    alloc: Global,
    request: &[u8],
    issuer: &Issuer<'_, S>,
) -> Result<Certificate, Error> {
    let verifier = SignatureVerifier::new();
    let mut asked = CertificateSigningRequestParams::from_der(alloc, request, &verifier)?;
    asked.params.is_ca = IsCa::ExplicitNoCa;
    asked.params.not_before = date_time_ymd(2026, 1, 1)?;
    asked.params.not_after = date_time_ymd(2027, 1, 1)?;
    asked.signed_by(alloc, issuer)
}
