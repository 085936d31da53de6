//! The lines of what an authority replies.
ghost use Rattle.std.specs.Prelude.{◌≡◌, ◌++◌, flat_map, IfOk, OnOk};
ghost use Rattle.authority.specs.Book.{refusal_cause};
ghost use Rattle.certify_core.specs.Replies.{numbered_line, refusal_name, reply_line, told_name};

use crate::cause_name::CauseName;
use crate::listing::part::ShowText;
use crate::refusal::{Refusal, refusal_of};
use crate::text::refused_line;
use authority::{Refusal as AuthorityRefusal, Reply};
use std::alloc::{AllocError, Global};

/// The name of an error's variant. An authority refuses nothing for lack of memory, and an error is
/// no reason, so the last two never come.
fn told_name(refusal: Refusal) -> CauseName
    ensures { result ≡ told_name refusal }
{
    match refusal {
        Refusal::Cause(name) => name,
        Refusal::Reason(_) => CauseName::new(b"OutOfMemory"),
        Refusal::OutOfMemory => CauseName::new(b"OutOfMemory"),
    }
}

/// The name of a refusal.
fn refusal_name(refusal: &AuthorityRefusal) -> CauseName
    ensures { result ≡ refusal_name (refusal_cause refusal.now) }
{
    match refusal {
        AuthorityRefusal::Full => CauseName::new(b"Full"),
        AuthorityRefusal::UnknownSerial => CauseName::new(b"UnknownSerial"),
        AuthorityRefusal::AlreadyRevoked => CauseName::new(b"AlreadyRevoked"),
        AuthorityRefusal::Refused(error) => told_name(refusal_of(error)),
    }
}

/// Pushes the line of bytes that have a number.
#[tactic(auto, unfolding(crate::specs::Replies::numbered_line))]
fn push_numbered(
    alloc: Global,
    lines: &mut Vec<u8>,
    label: &[u8],
    number: u64,
    der: &[u8],
) -> Result<(), AllocError>
    ensures { OnOk result (lines.new.items ≡ lines.old.items ++ numbered_line label.now number der.now) }
{
    lines.extend_from_slice(label)?;
    lines.push(b' ')?;
    number.push_onto(alloc, lines)?;
    lines.push(b' ')?;
    lines.extend_from_slice(hex::encode(alloc, der)?.as_bytes())?;
    lines.push(b'\n')?;
    Ok(())
}

/// Pushes the line of a reply.
fn push_reply(alloc: Global, lines: &mut Vec<u8>, reply: &Reply) -> Result<(), AllocError>
    ensures { OnOk result (lines.new.items ≡ lines.old.items ++ reply_line reply.now) }
{
    match reply {
        Reply::Issued { serial, der } => {
            push_numbered(alloc, lines, b"issued", *serial, der.as_slice())
        }
        Reply::Revoked { serial } => {
            lines.extend_from_slice(b"revoked ")?;
            serial.push_onto(alloc, lines)?;
            lines.push(b'\n')?;
            Ok(())
        }
        Reply::Listed { number, der } => {
            push_numbered(alloc, lines, b"list", *number, der.as_slice())
        }
        Reply::Refused(refusal) => {
            let name = refusal_name(refusal);
            lines.extend_from_slice(refused_line(alloc, &name)?.as_slice())
        }
    }
}

/// The lines of the replies, in order.
#[tactic(auto, using(crate::proofs::Joined::pushing))]
pub(crate) fn reply_lines(alloc: Global, replies: &[Reply]) -> Result<Vec<u8>, AllocError>
    ensures { IfOk result (λ text. text.items ≡ flat_map reply_line replies.now) }
{
    let mut lines = Vec::new(alloc);
    for reply in replies {
        push_reply(alloc, &mut lines, reply)?;
    }
    Ok(lines)
}
