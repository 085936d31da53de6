ghost use Rattle.std.specs.Prelude.{◌≡◌, ◌≤◌, IfOk, IsErrOf, OnErr, Some};
ghost use Rattle.der_tree.specs.Answers.{Encodes, Puts};
ghost use Rattle.der_tree.specs.Fields.{next_required};
ghost use Rattle.der_tree.specs.Optional.{optional_by};
ghost use Rattle.der_tree.specs.PrimitiveTypes.{unsigned_to};
ghost use Rattle.der_tree.specs.Tagging.{tagged_read_of, tagged_tree_of};
ghost use Rattle.der_tree.specs.Windows.{Decodes, Reads, shown};

use crate::base::{leaf, leaf_contents};
use crate::error::{DecodeError, EncodeError};
use crate::fields::Fields;
use crate::tree::{Tree, Trees};
use crate::window::Window;
use asn1_core::{Tag, u64_from_contents, u64_to_contents};
use std::alloc::Global;

/// The tree of an INTEGER from 0 to `max` (X.690, 8.3). `SizeOutOfRange` exactly where it is greater.
#[tactic(auto, unfolding(asn1_core::specs::Narrowed::unsigned_contents))]
pub fn number_tree(alloc: Global, number: u64, max: u64) -> Result<Tree, EncodeError>
    ensures { Encodes result ((unsigned_to max).tree_of number) }
{
    if number > max {
        return Err(EncodeError::SizeOutOfRange);
    }
    Ok(leaf(Tag::INTEGER, u64_to_contents(alloc, number)?))
}

/// The INTEGER from 0 to `max` that the window shows (X.690, 8.3). `NotInGrammar` exactly where it
/// shows none.
#[tactic(auto, unfolding(asn1_core::specs::Narrowed::unsigned_contents))]
pub fn number_of(window: Window<'_>, max: u64) -> Result<u64, DecodeError>
    ensures reads { Decodes result ((unsigned_to max).read_of (shown window.entry)) }
    ensures bound { IfOk result (λ number. number ≤ max) }
    ensures memory { ¬ (IsErrOf result DecodeError.OutOfMemory) }
{
    let contents = leaf_contents(window, Tag::INTEGER)?;
    match u64_from_contents(contents) {
        Some(number) if number <= max => Ok(number),
        _ => Err(DecodeError::NotInGrammar),
    }
}

/// Puts the number's tree under an implicit tag after those before it.
#[tactic(auto, unfolding(asn1_core::specs::Narrowed::unsigned_contents))]
pub fn put_implicit_number(
    alloc: Global,
    fields: &mut Trees,
    number: u64,
    tag: Tag,
    max: u64,
) -> Result<(), EncodeError>
    ensures puts { Puts result fields.old fields.new (optional_by (tagged_tree_of tag (unsigned_to max)) (Some number)) }
    ensures err { OnErr result (fields.new ≡ fields.old) }
{
    if number > max {
        return Err(EncodeError::SizeOutOfRange);
    }
    fields.push(leaf(tag, u64_to_contents(alloc, number)?))?;
    Ok(())
}

/// Takes the next field, which has to be a number with this tag in place of that of INTEGER.
#[tactic(auto, unfolding(crate::specs::Fields::next_required))]
pub fn required_implicit_number(
    fields: &mut Fields<'_>,
    tag: Tag,
    max: u64,
) -> Result<u64, DecodeError>
    ensures reads { Reads result fields.new (next_required (tagged_read_of tag (unsigned_to max)) fields.old) }
    ensures bound { IfOk result (λ number. number ≤ max) }
    ensures memory { ¬ (IsErrOf result DecodeError.OutOfMemory) }
    ensures err { OnErr result (fields.new ≡ fields.old) }
{
    let Some((window, rest)) = fields.first() else {
        return Err(DecodeError::NotInGrammar);
    };
    if window.tag() != tag {
        return Err(DecodeError::NotInGrammar);
    }
    let number = number_of(window.retagged(Tag::INTEGER), max)?;
    *fields = rest;
    Ok(number)
}
