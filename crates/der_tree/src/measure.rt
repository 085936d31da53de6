ghost use Rattle.std.specs.Prelude.{◌≡◌, ◌+◌, ◌≤◌, [], ◌∷◌, ◌++◌, Bool, ℕ, List, IfOk, OnOk, is_some, length, true};
ghost use Rattle.asn1_core.specs.Base128.{digits};
ghost use Rattle.der_tree.specs.Element.{element_octets, identifier_octets, is_encodable, length_octets};
ghost use Rattle.der_tree.specs.Sizes.{element_count, sizes_of};
ghost use Rattle.der_tree.specs.TreeBytes.{bytes, made};
ghost use Rattle.der_tree.specs.TreeElement.{element_of, raws_are_elements};
ghost use Rattle.der_tree.specs.View.{plain};

use crate::tree::Tree;
use asn1_core::{OutOfMemory, Sizes, Steps, Tag, base128_len};
use std::alloc::Global;
use std::sync::ledger::Ledger;

#[tactic(auto, using(crate::proofs::Writing::counting))]
pub(crate) fn octets_len(number: usize) -> usize
    ensures value { result ≡ length (digits 256 0 8 number) }
    ensures most { result ≤ 8 }
{
    if number == 0 {
        0
    } else {
        octets_len(number / 256) + 1
    }
}

#[tactic(auto, unfolding(crate::specs::Element::identifier_octets))]
fn identifier_len(tag: Tag) -> usize
    ensures value { (c : Bool) → result ≡ length (identifier_octets tag c) }
    ensures most { result ≤ 11 }
{
    if tag.number < 31 {
        1
    } else {
        base128_len(u64::from(tag.number)) + 1
    }
}

#[tactic(auto, unfolding(crate::specs::Element::length_octets))]
fn length_len(number: usize) -> usize
    ensures value { result ≡ length (length_octets number) }
    ensures most { result ≤ 9 }
{
    if number < 128 {
        1
    } else {
        octets_len(number) + 1
    }
}

/// How many octets an element takes whose contents are so many.
pub(crate) fn element_len(tag: Tag, size: usize) -> Result<usize, OutOfMemory>
    ensures length { IfOk result (λ n. (c : Bool) (x : List ℕ) → length x ≡ size → n ≡ length (element_octets (made tag c x))) }
    ensures encodable { (c : Bool) (x : List ℕ) → length x ≡ size → is_encodable (made tag c x) ≡ true }
{
    let header = identifier_len(tag) + length_len(size);
    match size.checked_add(header) {
        Some(number) => Ok(number),
        None => Err(OutOfMemory),
    }
}

// Puts the size after what is there.
fn push_size<L: Ledger>(
    size: usize,
    sizes: &mut Sizes,
    steps: &mut Steps<L>,
) -> Result<(), OutOfMemory>
    ensures sizes { OnOk result (sizes.new.items ≡ sizes.old.items ++ size ∷ []) }
    ensures steps { OnOk result (steps.new ≡ steps.old + 1) }
{
    sizes.reserve(1)?;
    sizes.push(size as u64, steps);
    Ok(())
}

// Puts the sizes of the tree after what is there; the answer is the number of its octets.
fn push_sizes<L: Ledger>(
    tree: &Tree,
    sizes: &mut Sizes,
    steps: &mut Steps<L>,
) -> Result<usize, OutOfMemory>
    ensures sizes { OnOk result (sizes.new.items ≡ sizes.old.items ++ sizes_of (plain tree.now)) }
    ensures number { IfOk result (λ n. n ≡ length (bytes (plain tree.now))) }
    ensures steps { OnOk result (steps.new ≡ steps.old + element_count (plain tree.now)) }
    ensures element { OnOk result (is_some (element_of (plain tree.now)) ≡ raws_are_elements (plain tree.now)) }
{
    match tree {
        Tree::Leaf { tag, bytes } => {
            let size = bytes.as_slice().len();
            push_size(size, sizes, steps)?;
            let number = element_len(*tag, size)?;
            Ok(number)
        }
        Tree::Raw { bytes } => {
            let size = bytes.as_slice().len();
            push_size(size, sizes, steps)?;
            Ok(size)
        }
        Tree::Node { tag, children } => {
            let items = children.as_slice();
            let mut size: usize = 0;
            let mut left = items.len();
            while left > 0 {
                left -= 1;
                let of_child = push_sizes(&items[left], sizes, steps)?;
                size = size.checked_add(of_child).ok_or(OutOfMemory)?;
            }
            push_size(size, sizes, steps)?;
            let number = element_len(*tag, size)?;
            Ok(number)
        }
    }
}

/// The sizes of a tree, from its last element to its first, and the number of its octets: a step for
/// each element. Memory has run out where the octets are 2^64 or more.
pub fn measure<L: Ledger>(
    alloc: Global,
    tree: &Tree,
    steps: &mut Steps<L>,
) -> Result<(Sizes, usize), OutOfMemory>
    ensures sizes { IfOk result (λ m. m.0.items ≡ sizes_of (plain tree.now)) }
    ensures number { IfOk result (λ m. m.1 ≡ length (bytes (plain tree.now))) }
    ensures steps { OnOk result (steps.new ≡ steps.old + element_count (plain tree.now)) }
    // The octets are one element exactly where each raw is one.
    ensures element { OnOk result (is_some (element_of (plain tree.now)) ≡ raws_are_elements (plain tree.now)) }
{
    let mut sizes = Sizes::with_room(alloc, 0)?;
    let number = push_sizes(tree, &mut sizes, steps)?;
    Ok((sizes, number))
}
