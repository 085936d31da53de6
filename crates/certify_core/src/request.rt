//! Writes the request of a profile.

use crate::document::Subcommand;
use crate::refusal::Refusal;
use crate::text::hex_line;
use certify_profile::CertificateProfile;
use profile_params::params_of_profile;
use rcgen_issue::DigestKey;
use std::alloc::Global;

/// The line of the request of a profile, signed by its own key.
pub(crate) struct Requesting;

impl Subcommand for Requesting {
    ghost use Rattle.certify_core.specs.Requesting.{requesting};

    type Profile = CertificateProfile;

    ghost spec = { requesting };

    fn text(alloc: Global, profile: CertificateProfile) -> Result<Vec<u8>, Refusal> {
        let key = DigestKey::new(alloc, profile.secret.as_bytes())?;
        let params = params_of_profile(alloc, profile.content)?;
        let request = params.serialize_request(alloc, &key)?;
        Ok(hex_line(alloc, request.der())?)
    }
}
