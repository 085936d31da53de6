//! The commands to an authority that a profile gives.
ghost use Rattle.std.specs.Prelude.{◌≡◌, map, IfOk, IfErr};
ghost use Rattle.rcgen_sign.specs.DigestKeys.{digest_key};
ghost use Rattle.rcgen_text.specs.declared.error.Error.TheVariants.{OutOfMemory};
ghost use Rattle.authority.specs.CommandView.{command_view};
ghost use Rattle.certify_core.specs.AuthorityCommands.{command_of_profile, issue_of_profile};

use authority::Command;
use certify_profile::{AuthorityCommand, IssueCommand};
use profile_params::name_of_profile;
use rcgen_issue::{DigestKey, Error, PublicKeyData};
use rcgen_sign::PublicKey;
use std::alloc::Global;

/// The public key of a secret.
fn public_key(alloc: Global, secret: &[u8]) -> Result<PublicKey, Error>
    ensures key { IfOk result (λ key. key ≡ digest_key secret.now) }
    ensures memory { IfErr result (λ e. e ≡ OutOfMemory) }
{
    let key = DigestKey::new(alloc, secret)?;
    let octets = Vec::from_slice(alloc, key.der_bytes())?;
    Ok(PublicKey::new(octets, key.algorithm()))
}

/// A certificate for the public key of the secret.
fn issue(alloc: Global, said: IssueCommand) -> Result<Command, Error>
    ensures command { IfOk result (λ command. command_view command ≡ issue_of_profile said) }
    ensures memory { IfErr result (λ e. e ≡ OutOfMemory) }
{
    let key = public_key(alloc, said.secret.as_bytes())?;
    let name = name_of_profile(alloc, said.name)?;
    Ok(Command::Issue {
        key,
        name,
        not_before: said.not_before.moment(),
        not_after: said.not_after.moment(),
    })
}

/// The command.
fn command(alloc: Global, said: AuthorityCommand) -> Result<Command, Error>
    ensures command { IfOk result (λ command. command_view command ≡ command_of_profile said) }
    ensures memory { IfErr result (λ e. e ≡ OutOfMemory) }
{
    match said {
        AuthorityCommand::Issue(said) => {
            let command = issue(alloc, said)?;
            Ok(command)
        }
        AuthorityCommand::Revoke(said) => Ok(Command::Revoke {
            serial: said.serial,
            time: said.time.moment(),
            reason: said.reason,
        }),
        AuthorityCommand::List(said) => Ok(Command::List {
            this_update: said.this_update.moment(),
            next_update: said.next_update.moment(),
        }),
    }
}

/// The commands, in order.
pub(crate) fn commands_of(alloc: Global, said: Vec<AuthorityCommand>) -> Result<Vec<Command>, Error>
    ensures commands { IfOk result (λ commands. map command_view commands.items ≡ map command_of_profile said.items) }
    ensures memory { IfErr result (λ e. e ≡ OutOfMemory) }
{
    let mut commands = Vec::with_capacity(alloc, said.len())?;
    for said in said {
        commands.push(command(alloc, said)?)?;
    }
    Ok(commands)
}
