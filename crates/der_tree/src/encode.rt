ghost use Rattle.std.specs.Prelude.{◌≡◌, ◌+◌, ◌<◌, ◌++◌, ◌≤◌, ℕ, List, IfOk, OnOk, Some, is_some, length, take, true};
ghost use Rattle.asn1_core.specs.Base128.{digits};
ghost use Rattle.der_tree.specs.Element.{Element, class_bits, element_octets, identifier_octets, is_encodable, length_octets};
ghost use Rattle.der_tree.specs.Sizes.{element_count, sizes_of};
ghost use Rattle.der_tree.specs.Tree.{PlainTree};
ghost use Rattle.der_tree.specs.TreeBytes.{bytes, made};
ghost use Rattle.der_tree.specs.TreeElement.{element_of, raws_are_elements};
ghost use Rattle.der_tree.specs.View.{plain};

use crate::measure::{element_len, measure, octets_len};
use crate::tree::Tree;
use asn1_core::{Class, Out, OutOfMemory, Sizes, Steps, Tag, put_base128};
use std::alloc::Global;
use std::marker::Brand;
use std::sync::ledger::{Blank, Ledger};

// The class in its place in the first identifier octet.
fn class_bits(class: Class) -> u8
    ensures value { result ≡ class_bits class }
    ensures below { result ≤ 192 }
{
    match class {
        Class::Universal => 0,
        Class::Application => 64,
        Class::Context => 128,
        Class::Private => 192,
    }
}

/// Puts the identifier octets (X.690, 8.1.2) after what is there.
#[tactic(auto, unfolding(crate::specs::Element::identifier_octets))]
fn put_identifier<L: Ledger>(out: &mut Out, tag: Tag, constructed: bool, steps: &mut Steps<L>)
    requires { length out.old.items + length (identifier_octets tag constructed) ≤ out.old.room }
    ensures items { out.new.items ≡ out.old.items ++ identifier_octets tag constructed }
    ensures room { out.new.room ≡ out.old.room }
    ensures moved { out.new.moved ≡ out.old.moved }
    ensures steps { steps.new ≡ steps.old + length (identifier_octets tag constructed) }
{
    let front = class_bits(tag.class) + if constructed { 32 } else { 0 };
    if tag.number < 31 {
        out.put(front + tag.number as u8, steps);
    } else {
        out.put(front + 31, steps);
        put_base128(out, u64::from(tag.number), steps);
    }
}

#[tactic(auto, using(crate::proofs::Writing::putting))]
fn put_octets<L: Ledger>(out: &mut Out, number: usize, steps: &mut Steps<L>)
    requires { length out.old.items + length (digits 256 0 8 number) ≤ out.old.room }
    ensures items { out.new.items ≡ out.old.items ++ digits 256 0 8 number }
    ensures room { out.new.room ≡ out.old.room }
    ensures moved { out.new.moved ≡ out.old.moved }
    ensures steps { steps.new ≡ steps.old + length (digits 256 0 8 number) }
{
    if number == 0 {
        return;
    }
    put_octets(out, number / 256, steps);
    out.put((number % 256) as u8, steps);
}

/// Puts the length octets (X.690, 8.1.3 and 10.1) after what is there.
#[tactic(auto, unfolding(crate::specs::Element::length_octets))]
fn put_length<L: Ledger>(out: &mut Out, number: usize, steps: &mut Steps<L>)
    requires { length out.old.items + length (length_octets number) ≤ out.old.room }
    ensures items { out.new.items ≡ out.old.items ++ length_octets number }
    ensures room { out.new.room ≡ out.old.room }
    ensures moved { out.new.moved ≡ out.old.moved }
    ensures steps { steps.new ≡ steps.old + length (length_octets number) }
{
    if number < 128 {
        out.put(number as u8, steps);
    } else {
        out.put(128 + octets_len(number) as u8, steps);
        put_octets(out, number, steps);
    }
}

// Puts identifier and length of an element whose contents are so many octets after what is there.
fn put_header<L: Ledger>(
    out: &mut Out,
    tag: Tag,
    constructed: bool,
    size: usize,
    steps: &mut Steps<L>,
)
    requires { length out.old.items + length (identifier_octets tag constructed ++ length_octets size) ≤ out.old.room }
    ensures items { out.new.items ≡ out.old.items ++ (identifier_octets tag constructed ++ length_octets size) }
    ensures room { out.new.room ≡ out.old.room }
    ensures moved { out.new.moved ≡ out.old.moved }
    ensures steps { steps.new ≡ steps.old + length (identifier_octets tag constructed ++ length_octets size) }
{
    put_identifier(out, tag, constructed, steps);
    put_length(out, size, steps);
}

/// Puts the element after what is there.
fn put_element<L: Ledger>(
    out: &mut Out,
    tag: Tag,
    constructed: bool,
    content: &[u8],
    steps: &mut Steps<L>,
)
    requires { length out.old.items + length (element_octets (made tag constructed content.now)) ≤ out.old.room }
    ensures items { out.new.items ≡ out.old.items ++ element_octets (made tag constructed content.now) }
    ensures room { out.new.room ≡ out.old.room }
    ensures moved { out.new.moved ≡ out.old.moved }
    ensures steps { steps.new ≡ steps.old + length (element_octets (made tag constructed content.now)) }
{
    put_header(out, tag, constructed, content.len(), steps);
    out.put_all(content, steps);
}

// Puts the tree after what is there. Its sizes are the last ones before a place; the answer is the place
// before them.
fn put_tree<L: Ledger>(
    tree: &Tree,
    sizes: &Sizes,
    at: usize,
    out: &mut Out,
    steps: &mut Steps<L>,
) -> usize
    requires within { at ≤ length sizes.now.items }
    requires sizes { (front : List ℕ) × (take at sizes.now.items ≡ front ++ sizes_of (plain tree.now)) }
    requires room { length out.old.items + length (bytes (plain tree.now)) ≤ out.old.room }
    ensures items { out.new.items ≡ out.old.items ++ bytes (plain tree.now) }
    ensures room { out.new.room ≡ out.old.room }
    ensures moved { out.new.moved ≡ out.old.moved }
    ensures steps { steps.new ≡ steps.old + length (bytes (plain tree.now)) }
    ensures before { result + element_count (plain tree.now) ≡ at }
{
    let mut before = at - 1;
    match tree {
        Tree::Leaf { tag, bytes } => put_element(out, *tag, false, bytes.as_slice(), steps),
        Tree::Raw { bytes } => out.put_all(bytes.as_slice(), steps),
        Tree::Node { tag, children } => {
            put_header(out, *tag, true, sizes.at(before) as usize, steps);
            for child in children.as_slice() {
                before = put_tree(child, sizes, before, out, steps);
            }
        }
    }
    before
}

/// Puts the tree after what is there, reading its sizes from the end: a step for each octet. It takes
/// no memory.
pub fn write_tree<L: Ledger>(tree: &Tree, sizes: &Sizes, out: &mut Out, steps: &mut Steps<L>)
    requires sizes { sizes.now.items ≡ sizes_of (plain tree.now) }
    requires room { length out.old.items + length (bytes (plain tree.now)) ≤ out.old.room }
    ensures items { out.new.items ≡ out.old.items ++ bytes (plain tree.now) }
    ensures room { out.new.room ≡ out.old.room }
    ensures moved { out.new.moved ≡ out.old.moved }
    ensures steps { steps.new ≡ steps.old + length (bytes (plain tree.now)) }
{
    let _first = put_tree(tree, sizes, sizes.len(), out, steps);
}

/// The bytes of a tree, measured first and then written once.
pub(crate) fn tree_out<L: Ledger>(
    alloc: Global,
    tree: &Tree,
    steps: &mut Steps<L>,
) -> Result<Out, OutOfMemory>
    ensures octets { IfOk result (λ o. o.items ≡ bytes (plain tree.now)) }
    ensures moved { IfOk result (λ o. o.moved ≡ 0) }
    ensures element { IfOk result (λ _. is_some (element_of (plain tree.now)) ≡ raws_are_elements (plain tree.now)) }
    ensures steps { OnOk result (steps.new ≡ steps.old + element_count (plain tree.now) + length (bytes (plain tree.now))) }
{
    let (sizes, number) = measure(alloc, tree, steps)?;
    let mut out = Out::with_room(alloc, number)?;
    write_tree(tree, &sizes, &mut out, steps);
    Ok(out)
}

fn tree_from<L: Ledger>(alloc: Global, tree: &Tree, blank: Blank) -> Result<Vec<u8>, OutOfMemory>
    requires name { blank.name ≡ L.name }
    requires parts { blank.parts ≡ L.parts }
    requires share { 0 < L.parts }
    ensures octets { IfOk result (λ v. v.items ≡ bytes (plain tree.now)) }
    ensures element { IfOk result (λ _. is_some (element_of (plain tree.now)) ≡ raws_are_elements (plain tree.now)) }
{
    let mut steps = Steps::<L>::new(blank);
    let out = tree_out(alloc, tree, &mut steps)?;
    Ok(out.finish())
}

/// The bytes of a tree: a header before each leaf and each node, and those of each raw as they
/// are.
pub fn tree_octets(alloc: Global, tree: &Tree) -> Result<Vec<u8>, OutOfMemory>
    ensures octets { IfOk result (λ v. v.items ≡ bytes (plain tree.now)) }
    // They are one element exactly where each raw is one.
    ensures element { IfOk result (λ _. is_some (element_of (plain tree.now)) ≡ raws_are_elements (plain tree.now)) }
{
    tree_from::<Brand>(alloc, tree, Blank::new(1))
}

fn element_from<L: Ledger>(
    alloc: Global,
    tag: Tag,
    constructed: bool,
    content: &[u8],
    blank: Blank,
) -> Result<Vec<u8>, OutOfMemory>
    requires name { blank.name ≡ L.name }
    requires parts { blank.parts ≡ L.parts }
    requires share { 0 < L.parts }
    ensures octets { IfOk result (λ v. v.items ≡ element_octets (made tag constructed content.now)) }
    ensures encodable { is_encodable (made tag constructed content.now) ≡ true }
{
    let mut steps = Steps::<L>::new(blank);
    let mut out = Out::with_room(alloc, element_len(tag, content.len())?)?;
    put_element(&mut out, tag, constructed, content, &mut steps);
    Ok(out.finish())
}

/// The octets of an element with these contents.
pub(crate) fn octets_of_element(
    alloc: Global,
    tag: Tag,
    constructed: bool,
    content: &[u8],
) -> Result<Vec<u8>, OutOfMemory>
    ensures octets { IfOk result (λ v. v.items ≡ element_octets (made tag constructed content.now)) }
    ensures encodable { is_encodable (made tag constructed content.now) ≡ true }
{
    element_from::<Brand>(alloc, tag, constructed, content, Blank::new(1))
}

/// The bytes of a tree are the octets of the element that it is, where it is one.
#[tactic(auto, using(crate::proofs::Writing::bytes_are))]
pub fn bytes_of_each_tree()
    ensures { (t : PlainTree) (s : Element) → element_of t ≡ Some s → bytes t ≡ element_octets s }
{}
