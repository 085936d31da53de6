//! The file that a signing key's answer is in.
ghost use Rattle.std.specs.Prelude.{◌≡◌, IfOk};
ghost use Rattle.std.specs.Option.{option_map};
ghost use Rattle.base64.specs.Engines.{standard};
ghost use Rattle.base64.specs.GeneralPurpose.{decode_of};
ghost use Rattle.shelf_fault.specs.Faults.{Gets};
ghost use Rattle.shelf_input.specs.Signatures.{IsDecoded, in_block, signature_in, unblocked, without_white};

use crate::files::text_blocks;
use asn1_core::OctetString;
use base64::DecodeAllocError;
use base64::engine::general_purpose::STANDARD;
use pem::{Block, is_white};
use shelf_fault::{Fault, SignatureFault};
use std::alloc::{AllocError, Global};

/// What is left of a text without its white space.
fn without_white(alloc: Global, text: &[u8]) -> Result<Vec<u8>, AllocError>
    ensures { IfOk result (λ left. left.items ≡ without_white text.now) }
{
    text.iter()
        .copied()
        .filter(|byte| !is_white(*byte))
        .collect(alloc)
}

/// The octets of base64 characters; none where they aren't base64.
fn decoded(alloc: Global, characters: &[u8]) -> Result<Option<Vec<u8>>, AllocError>
    ensures { IfOk result (λ found. IsDecoded (decode_of standard characters.now) (option_map (λ octets. octets.items) found)) }
{
    match STANDARD.decode(alloc, characters) {
        Ok(octets) => Ok(Some(octets)),
        Err(DecodeAllocError::OutOfMemory) => Err(AllocError),
        Err(DecodeAllocError::DecodeError(_)) => Ok(None),
    }
}

/// The octets of which the text is base64, and else the text as it is.
#[tactic(auto, using(crate::proofs::Base64::known_base64, crate::proofs::Base64::no_base64), unfolding(crate::specs::Signatures::unblocked))]
fn unblocked(alloc: Global, text: &[u8]) -> Result<Vec<u8>, AllocError>
    ensures { IfOk result (λ octets. octets.items ≡ unblocked text.now) }
{
    let characters = without_white(alloc, text)?;
    let found = decoded(alloc, &characters)?;
    match found {
        Some(octets) => Ok(octets),
        None => Ok(Vec::from_slice(alloc, text)?),
    }
}

/// The octets of the one block, whose label is `SIGNATURE`.
fn in_block(alloc: Global, blocks: &[Block]) -> Result<OctetString, Fault>
    ensures { Gets (λ o. o) (in_block blocks.now) result }
{
    let [block] = blocks else {
        return Err(Fault::Signature(SignatureFault::OtherBlock));
    };
    if block.label() != b"SIGNATURE".as_slice() {
        return Err(Fault::Signature(SignatureFault::OtherBlock));
    }
    let octets = Vec::from_slice(alloc, block.octets())?;
    Ok(OctetString::new(octets))
}

/// The signature of a file: the octets that the key answered, as they are or as base64; or a PEM block `SIGNATURE` of them, with any
/// text around it.
#[tactic(auto, unfolding(crate::specs::Signatures::signature_in))]
pub fn signature_in(alloc: Global, file: &[u8]) -> Result<OctetString, Fault>
    ensures { Gets (λ o. o) (signature_in file.now) result }
{
    let blocks = text_blocks(alloc, file)?;
    if blocks.is_empty() {
        let octets = unblocked(alloc, file)?;
        return Ok(OctetString::new(octets));
    }
    let octets = in_block(alloc, &blocks)?;
    Ok(octets)
}
