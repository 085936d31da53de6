//! Issues the attribute certificate of a profile.

use crate::document::Subcommand;
use crate::params::{attribute_params, issuer_of_profile};
use crate::refusal::Refusal;
use crate::text::hex_line;
use certify_profile::AttributeCertificateProfile;
use std::alloc::Global;

/// The line of the attribute certificate that the profile's issuer issues.
pub(crate) struct AttributeIssuing;

impl Subcommand for AttributeIssuing {
    ghost use Rattle.certify_core.specs.AttributeIssuing.{attribute_issuing};

    type Profile = AttributeCertificateProfile;

    ghost spec = { attribute_issuing };

    fn text(alloc: Global, profile: AttributeCertificateProfile) -> Result<Vec<u8>, Refusal> {
        let (params, table) = attribute_params(alloc, profile)?;
        let issuer = issuer_of_profile(alloc, table)?;
        let certificate = params.signed_by(alloc, &issuer)?;
        Ok(hex_line(alloc, certificate.der())?)
    }
}
