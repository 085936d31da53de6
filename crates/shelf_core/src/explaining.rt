//! What files hold.
ghost use Rattle.std.specs.Prelude.{◌≡◌, ◌++◌, false, IfOk, OnOk, map};
ghost use Rattle.std.specs.List.{flat_map};
ghost use Rattle.std.specs.Option.{option_map};
ghost use Rattle.shelf_fault.specs.Faults.{Gets};
ghost use Rattle.shelf_core.specs.Explaining.{apart, block_text, der_explained, der_text, explained, explained_in, explained_json, texts_in};

use asn1_core::OutOfMemory;
use explain_json::json_of;
use pem::Block;
use shelf_explain::{explanation, explanation_of_der, long_explanation, long_explanation_of_der};
use shelf_fault::Fault;
use shelf_input::blocks_of_files;
use std::alloc::Global;

/// What octets without a label hold, in lines of any length where that is asked for.
#[tactic(auto, unfolding(crate::specs::Explaining::der_text))]
fn der_text(alloc: Global, is_long: bool, octets: &[u8]) -> Result<Option<Vec<u8>>, OutOfMemory>
    ensures { IfOk result (λ found. option_map (λ text. text.items) found ≡ der_text is_long octets.now) }
{
    if is_long {
        long_explanation_of_der(alloc, octets)
    } else {
        explanation_of_der(alloc, octets)
    }
}

/// What octets hold that have the label `DER`.
#[tactic(auto, unfolding(crate::specs::Explaining::der_explained))]
fn der_explained(
    alloc: Global,
    is_long: bool,
    label: &[u8],
    octets: &[u8],
) -> Result<Option<Vec<u8>>, OutOfMemory>
    ensures { IfOk result (λ found. option_map (λ text. text.items) found ≡ der_explained is_long label.now octets.now) }
{
    if label == b"DER".as_slice() {
        return der_text(alloc, is_long, octets);
    }
    Ok(None)
}

/// What octets with a label hold, in lines of any length where that is asked for.
#[tactic(auto, unfolding(crate::specs::Explaining::block_text))]
fn block_text(
    alloc: Global,
    is_long: bool,
    label: &[u8],
    octets: &[u8],
) -> Result<Vec<u8>, OutOfMemory>
    ensures { IfOk result (λ text. text.items ≡ block_text is_long label.now octets.now) }
{
    if is_long {
        long_explanation(alloc, label, octets)
    } else {
        explanation(alloc, label, octets)
    }
}

/// What a block holds: octets without a label of their own show what they are.
#[tactic(auto, unfolding(crate::specs::Explaining::explained))]
fn block_explained(alloc: Global, is_long: bool, block: &Block) -> Result<Vec<u8>, OutOfMemory>
    ensures { IfOk result (λ text. text.items ≡ explained is_long block.now) }
{
    if let Some(text) = der_explained(alloc, is_long, block.label(), block.octets())? {
        return Ok(text);
    }
    block_text(alloc, is_long, block.label(), block.octets())
}

/// Pushes what the blocks hold, each after an empty line.
fn push_each(
    alloc: Global,
    is_long: bool,
    text: &mut Vec<u8>,
    blocks: &[Block],
) -> Result<(), OutOfMemory>
    ensures { OnOk result (text.new.items ≡ text.old.items ++ flat_map (apart is_long) blocks.now) }
{
    for block in blocks {
        let next = block_explained(alloc, is_long, block)?;
        text.push(b'\n')?;
        text.extend_from_slice(&next)?;
    }
    Ok(())
}

/// What files hold, an empty line between two blocks.
#[tactic(auto, unfolding(crate::specs::Explaining::texts_in))]
fn texts_in(alloc: Global, is_long: bool, files: &[Vec<u8>]) -> Result<Vec<u8>, Fault>
    ensures { Gets (λ text. text.items) (texts_in is_long (map (λ file. file.items) files.now)) result }
{
    let blocks = blocks_of_files(alloc, files)?;
    let [first, rest @ ..] = blocks.as_slice() else {
        return Err(Fault::NoBlock);
    };
    let mut text = block_explained(alloc, is_long, first)?;
    push_each(alloc, is_long, &mut text, rest)?;
    Ok(text)
}

/// What files hold, for people.
#[tactic(auto, unfolding(crate::specs::Explaining::explained_in))]
pub(crate) fn explained(alloc: Global, files: &[Vec<u8>]) -> Result<Vec<u8>, Fault>
    ensures { Gets (λ text. text.items) (explained_in (map (λ file. file.items) files.now)) result }
{
    texts_in(alloc, false, files)
}

/// The same as JSON.
#[tactic(auto, unfolding(crate::specs::Explaining::explained_json))]
pub(crate) fn explained_json(alloc: Global, files: &[Vec<u8>]) -> Result<Vec<u8>, Fault>
    ensures { Gets (λ text. text.items) (explained_json (map (λ file. file.items) files.now)) result }
{
    let text = texts_in(alloc, true, files)?;
    let json = json_of(alloc, text.as_slice())?;
    Ok(json)
}
