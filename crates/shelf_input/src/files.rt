//! Files, and the blocks in them.
ghost use Rattle.std.specs.Prelude.{◌≡◌, [], map};
ghost use Rattle.shelf_fault.specs.Faults.{Gets};
ghost use Rattle.pem.specs.Blocks.{blocks as text_blocks};
ghost use Rattle.shelf_input.specs.Files.{der_block, file_blocks, files_blocks, in_text, some_blocks};

use crate::der_file::{der_label, is_der};
use pem::{Block, blocks};
use shelf_fault::Fault;
use std::alloc::Global;

/// The file as the one block that it is as DER.
fn der_block(alloc: Global, file: &[u8]) -> Result<Block, Fault>
    ensures { Gets (λ b. b) (der_block file.now) result }
{
    let label = der_label(alloc, file)?;
    let label = Vec::from_slice(alloc, label)?;
    let octets = Vec::from_slice(alloc, file)?;
    Ok(Block::new(label, octets))
}

/// The blocks of a text, known or not.
#[tactic(auto, using(crate::proofs::Reading::explained))]
pub(crate) fn text_blocks(alloc: Global, text: &[u8]) -> Result<Vec<Block>, Fault>
    ensures { Gets (λ bs. bs.items) (in_text (text_blocks text.now)) result }
{
    let found = blocks(alloc, text)?;
    Ok(found)
}

/// The blocks of a text, of which there has to be one.
#[tactic(auto, unfolding(crate::specs::Files::some_blocks))]
fn some_blocks(alloc: Global, number: usize, text: &[u8]) -> Result<Vec<Block>, Fault>
    ensures { Gets (λ bs. bs.items) (some_blocks number text.now) result }
{
    let found = text_blocks(alloc, text)?;
    if found.is_empty() {
        return Err(Fault::NoBlockIn(number));
    }
    Ok(found)
}

/// The blocks of the file of this number, from 1.
#[tactic(auto, unfolding(crate::specs::Files::file_blocks))]
fn file_blocks(alloc: Global, number: usize, file: &[u8]) -> Result<Vec<Block>, Fault>
    ensures { Gets (λ bs. bs.items) (file_blocks number file.now) result }
{
    if is_der(file) {
        let block = der_block(alloc, file)?;
        let mut found = Vec::new(alloc);
        found.push(block)?;
        return Ok(found);
    }
    some_blocks(alloc, number, file)
}

/// The blocks of files in their order.
pub fn blocks_of_files(alloc: Global, files: &[Vec<u8>]) -> Result<Vec<Block>, Fault>
    ensures { Gets (λ bs. bs.items) (files_blocks 0 [] (map (λ file. file.items) files.now)) result }
{
    let mut found = Vec::new(alloc);
    let mut number = 0usize;
    for file in files {
        number += 1;
        let mut next = file_blocks(alloc, number, file)?;
        found.append(&mut next)?;
    }
    Ok(found)
}
