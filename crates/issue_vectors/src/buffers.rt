//! Octets and sizes that are counted as they are put, and a tree that is measured and written.
ghost use Rattle.std.specs.Prelude.{◌≡◌, ◌+◌, ◌<◌, ◌≤◌, IfOk, OnOk, length};
ghost use Rattle.der_tree.specs.TreeBytes.{bytes};
ghost use Rattle.der_tree.specs.View.{plain};
ghost use Rattle.der_tree.specs.Sizes.{element_count};

use asn1_core::{Out, OutOfMemory, Sizes, Steps, Tag};
use der_tree::der::{encode_counted, measure, write_tree};
use der_tree::{Any, Bytes, EncodeError, SequenceOf, Tree, Trees};
use std::alloc::Global;
use std::marker::Brand;
use std::sync::ledger::{Blank, Ledger};

// An octet, and another one before it: three steps.
fn two_octets<L: Ledger>(alloc: Global, steps: &mut Steps<L>) -> Result<Out, OutOfMemory>
    ensures { OnOk result (steps.new ≡ steps.old + 3) }
{
    let mut out = Out::with_room(alloc, 2)?;
    out.put(0x0B, steps);
    out.insert_at(0, 0x0A, steps);
    Ok(out)
}

// A size: one step.
fn one_size<L: Ledger>(alloc: Global, steps: &mut Steps<L>) -> Result<Sizes, OutOfMemory>
    ensures { OnOk result (steps.new ≡ steps.old + 1) }
{
    let mut sizes = Sizes::with_room(alloc, 1)?;
    sizes.push(5, steps);
    Ok(sizes)
}

fn are_put<L: Ledger>(alloc: Global, blank: Blank) -> bool
    requires name { blank.name ≡ L.name }
    requires parts { blank.parts ≡ L.parts }
    requires share { 0 < L.parts }
{
    let mut steps = Steps::<L>::new(blank);
    let Ok(out) = two_octets(alloc, &mut steps) else {
        return false;
    };
    let Ok(sizes) = one_size(alloc, &mut steps) else {
        return false;
    };
    sizes.len() == 1 && sizes.at(0) == 5 && out.finish().as_slice() == [0x0A, 0x0B].as_slice()
}

#[test]
fn buffers(rt: HostRuntime) {
    assert!(rt; are_put::<Brand>(rt.alloc(), Blank::new(1)));
}

// rsaEncryption, as an AlgorithmIdentifier (RFC 3279, 2.3.1)
const ALGORITHM: &[u8] = &[
    0x30, 0x0D, 0x06, 0x09, 0x2A, 0x86, 0x48, 0x86, 0xF7, 0x0D, 0x01, 0x01, 0x01, 0x05, 0x00,
];

// Its tree, with the parameters as they are.
#[tactic(auto, unfolding(der_tree::specs::Element::element_octets, der_tree::specs::Element::identifier_octets, der_tree::specs::Element::length_octets))]
fn algorithm(alloc: Global) -> Result<Tree, OutOfMemory>
    ensures count { IfOk result (λ t. element_count (plain t) ≡ 3) }
    ensures octets { IfOk result (λ t. length (bytes (plain t)) ≡ 15) }
{
    let identifier = Tree::Leaf {
        tag: Tag::OBJECT_IDENTIFIER,
        bytes: Bytes::from_vec(vec![in alloc;
            0x2A, 0x86, 0x48, 0x86, 0xF7, 0x0D, 0x01, 0x01, 0x01,
        ]?),
    };
    let parameters = Tree::Raw {
        bytes: Bytes::from_vec(vec![in alloc; 0x05, 0x00]?),
    };
    let mut children = Trees::new(alloc);
    children.push(identifier)?;
    children.push(parameters)?;
    Ok(Tree::Node {
        tag: Tag::SEQUENCE,
        children,
    })
}

// Three steps, and one for each of fifteen octets.
fn measured<L: Ledger>(
    alloc: Global,
    steps: &mut Steps<L>,
) -> Result<(Sizes, usize, Out), OutOfMemory>
    ensures { OnOk result (steps.new ≡ steps.old + 18) }
{
    let tree = algorithm(alloc)?;
    let (sizes, number) = measure(alloc, &tree, steps)?;
    let mut out = Out::with_room(alloc, 15)?;
    write_tree(&tree, &sizes, &mut out, steps);
    Ok((sizes, number, out))
}

// Whether it is: 15 octets, of elements of 2, 9 and 13.
fn is_measured<L: Ledger>(alloc: Global, blank: Blank) -> bool
    requires name { blank.name ≡ L.name }
    requires parts { blank.parts ≡ L.parts }
    requires share { 0 < L.parts }
{
    let mut steps = Steps::<L>::new(blank);
    let Ok((sizes, number, out)) = measured(alloc, &mut steps) else {
        return false;
    };
    number == 15 && out.as_slice() == ALGORITHM && has_sizes(&sizes)
}

fn has_sizes(sizes: &Sizes) -> bool {
    sizes.len() == 3 && sizes.at(0) == 2 && sizes.at(1) == 9 && sizes.at(2) == 13
}

// X.690, 8.1
#[test]
fn measures(rt: HostRuntime) {
    assert!(rt; is_measured::<Brand>(rt.alloc(), Blank::new(1)));
}

// The same octets as a list of their two elements, since the type itself is in a crate above, pkix_cert: a step for
// each octet, and at most three more.
fn counted<L: Ledger>(alloc: Global, steps: &mut Steps<L>) -> Result<Out, EncodeError>
    ensures least { IfOk result (λ o. steps.old + length o.items ≤ steps.new) }
    ensures most { IfOk result (λ o. steps.new ≤ steps.old + length o.items + 3) }
{
    let identifier = Any::new(vec![in alloc;
        0x06, 0x09, 0x2A, 0x86, 0x48, 0x86, 0xF7, 0x0D, 0x01, 0x01, 0x01,
    ]?);
    let parameters = Any::new(vec![in alloc; 0x05, 0x00]?);
    let value = SequenceOf::from_vec(vec![in alloc; identifier, parameters]?);
    let out = encode_counted(alloc, &value, steps)?;
    Ok(out)
}

fn is_counted<L: Ledger>(alloc: Global, blank: Blank) -> bool
    requires name { blank.name ≡ L.name }
    requires parts { blank.parts ≡ L.parts }
    requires share { 0 < L.parts }
{
    let mut steps = Steps::<L>::new(blank);
    match counted(alloc, &mut steps) {
        Ok(out) => out.as_slice() == ALGORITHM,
        Err(_) => false,
    }
}

#[test]
fn counts(rt: HostRuntime) {
    assert!(rt; is_counted::<Brand>(rt.alloc(), Blank::new(1)));
}
