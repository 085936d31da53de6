//! What grows keeps what it held where memory is refused. The tests pass where none is; `rt try --test --fail-alloc N` refuses it
//! once, and then they say what became of it.
use asn1_core::{Tag, TryClone};
use der_tree::{Bytes, EncodeError, SequenceOf, SetOf, Tree, Trees};
use rcgen_issue::{
    CertificateParams, DistinguishedName, DnType, DnValue, Error, ExtendedKeyUsagePurpose,
};
use std::alloc::Global;

/// Why a test doesn't pass.
#[derive(Debug, Drop)]
enum Refusal {
    /// The growth was refused, and what grows holds what it held.
    AllIsAsItWas,
    /// It doesn't.
    NotAllIsAsItWas,
    /// Memory was refused to something else.
    OutOfMemory,
}

// What is said of a growth that was refused.
fn refused(is_kept: bool) -> Refusal {
    if is_kept {
        Refusal::AllIsAsItWas
    } else {
        Refusal::NotAllIsAsItWas
    }
}

// What is said of the end.
fn ended(is_whole: bool) -> Result<(), Refusal> {
    if is_whole {
        Ok(())
    } else {
        Err(Refusal::NotAllIsAsItWas)
    }
}

const NUMBERS: [u64; 9] = [0, 1, 2, 3, 4, 5, 6, 7, 8];

#[test]
fn pushes_of_a_list(rt: HostRuntime) -> Result<(), Refusal> {
    let mut list = SequenceOf::new(rt.alloc());
    for (count, number) in NUMBERS.iter().enumerate() {
        if list.push(*number).is_err() {
            return Err(refused(list.as_slice() == &NUMBERS[..count]));
        }
    }
    ended(list.as_slice() == NUMBERS.as_slice())
}

// From the last one on, so that each moves all others.
#[test]
fn inserts_of_a_set(rt: HostRuntime) -> Result<(), Refusal> {
    let mut set = SetOf::new(rt.alloc());
    for (count, number) in NUMBERS.iter().rev().enumerate() {
        if let Err(error) = set.insert(*number) {
            let is_kept = set.as_slice() == &NUMBERS[NUMBERS.len() - count..];
            return Err(refused(error == EncodeError::OutOfMemory && is_kept));
        }
    }
    ended(set.as_slice() == NUMBERS.as_slice())
}

const OCTETS: [u8; 9] = [0, 1, 2, 3, 4, 5, 6, 7, 8];

// Whether it is the leaf of the octet.
fn is_leaf(tree: &Tree, octet: u8) -> bool {
    match tree {
        Tree::Leaf { tag: _, bytes } => bytes.as_slice() == [octet].as_slice(),
        _ => false,
    }
}

// Whether they are the leaves of the octets.
fn are_leaves(trees: &[Tree], octets: &[u8]) -> bool {
    let mut pairs = trees.iter().zip(octets.iter());
    trees.len() == octets.len() && pairs.all(|(tree, octet)| is_leaf(tree, *octet))
}

fn leaf(alloc: Global, octet: u8) -> Result<Tree, Refusal> {
    match Vec::from_slice(alloc, &[octet]) {
        Ok(octets) => Ok(Tree::Leaf {
            tag: Tag::OCTET_STRING,
            bytes: Bytes::from_vec(octets),
        }),
        Err(_) => Err(Refusal::OutOfMemory),
    }
}

#[test]
fn pushes_of_trees(rt: HostRuntime) -> Result<(), Refusal> {
    let mut trees = Trees::new(rt.alloc());
    for (count, octet) in OCTETS.iter().enumerate() {
        let leaf = leaf(rt.alloc(), *octet)?;
        if trees.push(leaf).is_err() {
            return Err(refused(are_leaves(trees.as_slice(), &OCTETS[..count])));
        }
    }
    ended(are_leaves(trees.as_slice(), OCTETS.as_slice()))
}

// An attribute of the type of X.520 with this number.
fn attribute(alloc: Global, arc: u64) -> Result<(DnType, DnValue), Error> {
    let value = DnValue::from(String::from_str(alloc, "a")?);
    Ok((DnType::from_oid(alloc, &[2, 5, 4, arc])?, value))
}

// Whether the name keeps its attributes where it can't take one more.
fn push(name: &mut DistinguishedName, alloc: Global, arc: u64) -> Result<(), Refusal> {
    let Ok((kind, value)) = attribute(alloc, arc) else {
        return Err(Refusal::OutOfMemory);
    };
    let Ok(before) = name.try_clone(alloc) else {
        return Err(Refusal::OutOfMemory);
    };
    match name.push(kind, value) {
        Ok(()) => Ok(()),
        Err(error) => Err(refused(error == Error::OutOfMemory && *name == before)),
    }
}

#[test]
fn pushes_of_a_name(rt: HostRuntime) -> Result<(), Refusal> {
    let mut name = DistinguishedName::new(rt.alloc());
    for arc in 3u64..11 {
        push(&mut name, rt.alloc(), arc)?;
    }
    ended(name.entries().len() == 8)
}

// Whether the parameters stay as they are where they can't take one more purpose.
fn insert(params: &mut CertificateParams, alloc: Global, arc: u64) -> Result<(), Refusal> {
    let Ok(arcs) = Vec::from_slice(alloc, &[1, 2, arc]) else {
        return Err(Refusal::OutOfMemory);
    };
    let Ok(before) = params.try_clone(alloc) else {
        return Err(Refusal::OutOfMemory);
    };
    match params.insert_extended_key_usage(ExtendedKeyUsagePurpose::Other(arcs)) {
        Ok(()) => Ok(()),
        Err(error) => Err(refused(error == Error::OutOfMemory && *params == before)),
    }
}

#[test]
fn inserts_of_purposes(rt: HostRuntime) -> Result<(), Refusal> {
    let Ok(mut params) = CertificateParams::default(rt.alloc()) else {
        return Err(Refusal::OutOfMemory);
    };
    for arc in 1u64..9 {
        insert(&mut params, rt.alloc(), arc)?;
    }
    ended(params.extended_key_usages.len() == 8)
}
