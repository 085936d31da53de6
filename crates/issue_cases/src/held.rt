//! A key that is held elsewhere.
use rcgen_issue::{
    Certificate, CertificateParams, Error, FixedKey, Issuer, PublicKey, RefusingKey,
};
use rcgen_tbs::certificate_to_be_signed;
use std::alloc::Global;

/// The octets that the issuer's key is to sign for a certificate.
pub fn to_be_signed(
    alloc: Global,
    params: &CertificateParams,
    subject: &PublicKey,
    issuer: &CertificateParams,
    issuer_key: RefusingKey,
) -> Result<Vec<u8>, Error> {
    let issuer = Issuer::from_params(issuer, issuer_key);
    certificate_to_be_signed(alloc, params, subject, &issuer)
}

/// The certificate with the signature that came back.
pub fn sealed(
    alloc: Global,
    params: &CertificateParams,
    subject: &PublicKey,
    issuer: &CertificateParams,
    issuer_key: FixedKey,
) -> Result<Certificate, Error> {
    let issuer = Issuer::from_params(issuer, issuer_key);
    params.signed_by(alloc, subject, &issuer)
}
