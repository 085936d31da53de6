//! Issues the certificate that a request asks for.

use crate::document::Subcommand;
use crate::issue::certificate_text;
use crate::params::issuer_of_profile;
use crate::refusal::Refusal;
use certify_profile::AcceptProfile;
use rcgen_read::CertificateSigningRequestParams;
use rcgen_sign::DigestVerifier;
use std::alloc::Global;

/// The line and the listing of the certificate that the profile's issuer issues for its request.
pub(crate) struct Accepting;

impl Subcommand for Accepting {
    ghost use Rattle.certify_core.specs.Accepting.{accepting};

    type Profile = AcceptProfile;

    ghost spec = { accepting };

    fn text(alloc: Global, profile: AcceptProfile) -> Result<Vec<u8>, Refusal> {
        let secret = Vec::from_slice(alloc, profile.requester.as_bytes())?;
        let verifier = DigestVerifier::new(secret);
        let request = profile.request.as_slice();
        let request = CertificateSigningRequestParams::from_der(alloc, request, &verifier)?;
        let issuer = issuer_of_profile(alloc, profile.issuer)?;
        let text = certificate_text(alloc, &request.params, &request.public_key, &issuer)?;
        Ok(text)
    }
}
