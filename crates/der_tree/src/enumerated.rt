ghost use Rattle.std.specs.Prelude.{IsErrOf};
ghost use Rattle.der_tree.specs.Answers.{Encodes};
ghost use Rattle.der_tree.specs.Enumerated.{number_tree_of, number_read_of};
ghost use Rattle.der_tree.specs.Windows.{shown, Decodes};

use crate::base::{leaf, leaf_contents};
use crate::error::{DecodeError, EncodeError};
use crate::tree::Tree;
use crate::window::Window;
use asn1_core::{Tag, u64_from_contents, u64_to_contents};
use std::alloc::Global;

/// The tree of an ENUMERATED value, by its number (X.690, 8.4).
pub fn enumerated_tree(alloc: Global, number: u64) -> Result<Tree, EncodeError>
    ensures { Encodes result (number_tree_of number) }
{
    Ok(leaf(Tag::ENUMERATED, u64_to_contents(alloc, number)?))
}

/// The number of the ENUMERATED value that the window shows (X.690, 8.4). `NotInGrammar` exactly
/// where it shows none from 0 to 2^64 - 1.
pub fn enumerated_number(window: Window<'_>) -> Result<u64, DecodeError>
    ensures reads { Decodes result (number_read_of (shown window.entry)) }
    ensures memory { ¬ (IsErrOf result DecodeError.OutOfMemory) }
{
    let contents = leaf_contents(window, Tag::ENUMERATED)?;
    u64_from_contents(contents).ok_or(DecodeError::NotInGrammar)
}
