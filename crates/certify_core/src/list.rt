//! Issues the revocation list of a profile.

use crate::document::Subcommand;
use crate::params::issuer_of_profile;
use crate::refusal::Refusal;
use crate::text::hex_line;
use certify_profile::ListProfile;
use profile_params::list_of_profile;
use std::alloc::Global;

/// The line of the list that the profile's issuer issues.
pub(crate) struct ListIssuing;

impl Subcommand for ListIssuing {
    ghost use Rattle.certify_core.specs.ListIssuing.{list_spec};

    type Profile = ListProfile;

    ghost spec = { list_spec };

    fn text(alloc: Global, profile: ListProfile) -> Result<Vec<u8>, Refusal> {
        let params = list_of_profile(alloc, profile.content)?;
        let issuer = issuer_of_profile(alloc, profile.issuer)?;
        let list = params.signed_by(alloc, &issuer)?;
        Ok(hex_line(alloc, list.der())?)
    }
}
