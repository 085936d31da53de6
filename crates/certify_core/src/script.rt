//! Runs the commands of a profile to an authority.

use crate::document::Subcommand;
use crate::listing::reply_lines;
use crate::params::{commands_of, issuer_of_profile};
use crate::refusal::Refusal;
use authority::Authority;
use certify_profile::AuthorityProfile;
use std::alloc::Global;

/// The lines of what the authority replies to the commands.
pub(crate) struct ScriptRunning;

impl Subcommand for ScriptRunning {
    ghost use Rattle.certify_core.specs.ScriptRunning.{script_running};

    type Profile = AuthorityProfile;

    ghost spec = { script_running };

    fn text(alloc: Global, profile: AuthorityProfile) -> Result<Vec<u8>, Refusal> {
        let limit = profile.limit.get();
        let commands = commands_of(alloc, profile.commands.into_vec())?;
        let issuer = issuer_of_profile(alloc, profile.issuer)?;
        let mut authority = Authority::new(alloc, issuer, limit);
        let replies = authority.run_all(commands.as_slice())?;
        Ok(reply_lines(alloc, replies.as_slice())?)
    }
}
