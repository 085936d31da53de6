//! What is wrong with what files hold.
ghost use Rattle.std.specs.Prelude.{◌≡◌, [], IfOk, map};
ghost use Rattle.shelf_fault.specs.Faults.{Gets};
ghost use Rattle.shelf_core.specs.Outcome.{is_wrong, lint_blocks, lint_in, lint_outcome, lint_text, outcome};

use crate::answer::Text;
use asn1_core::OutOfMemory;
use lint_files::{Located, finding_lines, findings_in, findings_json, has_error};
use pem::Block;
use shelf_fault::Fault;
use shelf_input::blocks_of_files;
use std::alloc::Global;

/// Whether the answer is that something is wrong: an error, and where it is strict a warning too.
fn is_wrong(is_strict: bool, found: &[Located<'_>]) -> bool
    ensures { result ≡ is_wrong is_strict found.now }
{
    has_error(found) || (is_strict && !found.is_empty())
}

/// The findings: lines, or JSON.
fn lint_text(alloc: Global, is_json: bool, found: &[Located<'_>]) -> Result<Vec<u8>, OutOfMemory>
    ensures { IfOk result (λ text. text.items ≡ lint_text is_json found.now) }
{
    if is_json {
        findings_json(alloc, found)
    } else {
        finding_lines(alloc, found)
    }
}

/// The answer on what was found.
fn answered(
    alloc: Global,
    is_json: bool,
    is_strict: bool,
    found: &[Located<'_>],
) -> Result<Text, OutOfMemory>
    ensures { IfOk result (λ text. outcome text ≡ lint_outcome is_json is_strict found.now) }
{
    let text = lint_text(alloc, is_json, found)?;
    if is_wrong(is_strict, found) {
        Ok(Text::Refused(text))
    } else {
        Ok(Text::Done(text, Vec::new(alloc)))
    }
}

/// What is wrong with blocks, of which there has to be one.
fn lint_blocks(
    alloc: Global,
    is_json: bool,
    is_strict: bool,
    blocks: &[Block],
) -> Result<Text, Fault>
    ensures { Gets (λ text. outcome text) (lint_blocks is_json is_strict blocks.now) result }
{
    if blocks.is_empty() {
        return Err(Fault::NoBlock);
    }
    let found = findings_in(alloc, blocks)?;
    let text = answered(alloc, is_json, is_strict, &found)?;
    Ok(text)
}

/// What is wrong with what files hold.
#[tactic(auto, unfolding(crate::specs::Outcome::lint_in))]
pub(crate) fn linted(
    alloc: Global,
    is_json: bool,
    is_strict: bool,
    files: &[Vec<u8>],
) -> Result<Text, Fault>
    ensures { Gets (λ text. outcome text) (lint_in is_json is_strict (map (λ file. file.items) files.now)) result }
{
    let blocks = blocks_of_files(alloc, files)?;
    let text = lint_blocks(alloc, is_json, is_strict, &blocks)?;
    Ok(text)
}
