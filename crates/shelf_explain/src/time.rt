//! Times.
ghost use Rattle.std.specs.Prelude.{◌≡◌, OnOk, ◌++◌, drop, take};
ghost use Rattle.shelf_explain.specs.Times.{moment_text, rfc_3339};

use crate::line::{after, first};
use crate::show::ShowText;
use asn1_core::GeneralizedTime;
use std::alloc::{AllocError, Global};

fn part(text: &[u8], from: usize, count: usize) -> &[u8]
    ensures { result.now ≡ take count (drop from text.now) }
{
    first(after(text, from), count)
}

/// Pushes the contents octets of a GeneralizedTime, with what RFC 3339 sets between its parts.
#[tactic(auto, unfolding(crate::specs::Times::rfc_3339))]
fn push_rfc_3339(lines: &mut Vec<u8>, contents: &[u8]) -> Result<(), AllocError>
    ensures { OnOk result (lines.new.items ≡ lines.old.items ++ rfc_3339 contents.now) }
{
    lines.extend_from_slice(first(contents, 4))?;
    lines.push(b'-')?;
    lines.extend_from_slice(part(contents, 4, 2))?;
    lines.push(b'-')?;
    lines.extend_from_slice(part(contents, 6, 2))?;
    lines.push(b'T')?;
    lines.extend_from_slice(part(contents, 8, 2))?;
    lines.push(b':')?;
    lines.extend_from_slice(part(contents, 10, 2))?;
    lines.push(b':')?;
    lines.extend_from_slice(after(contents, 12))?;
    Ok(())
}

impl ShowText for GeneralizedTime {
    ghost text = { moment_text };

    #[tactic(auto, unfolding(crate::specs::Times::moment_text, crate::specs::Times::contents_text))]
    fn push_onto(&self, alloc: Global, lines: &mut Vec<u8>) -> Result<(), AllocError> {
        match self.to_contents(alloc) {
            Ok(Some(contents)) => push_rfc_3339(lines, &contents),
            Ok(None) => Ok(()),
            Err(_) => Err(AllocError),
        }
    }
}
