//! Digests of octets.
ghost use Rattle.std.specs.Prelude.{◌≡◌, ◌++◌, OnOk};
ghost use Rattle.shelf_explain.specs.Digests.{fingerprint_line};

use crate::block::LINE;
use crate::line::push_key;
use crate::show::push_hex;
use sha2::{Digest, Sha256};
use std::alloc::{AllocError, Global};

/// Pushes the SHA-256 digest of the octets.
#[tactic(auto, unfolding(crate::specs::Digests::fingerprint_line, crate::specs::Lines::line))]
pub(crate) fn push_fingerprint(
    alloc: Global,
    lines: &mut Vec<u8>,
    octets: &[u8],
) -> Result<(), AllocError>
    ensures { OnOk result (lines.new.items ≡ lines.old.items ++ fingerprint_line octets.now) }
{
    push_key(lines, LINE, b"SHA-256")?;
    push_hex(alloc, lines, &Sha256::digest(octets)[..])?;
    lines.push(b'\n')?;
    Ok(())
}
