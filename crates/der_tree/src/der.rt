//! Values as bytes, and bytes as values.

ghost use Rattle.std.specs.Prelude.{◌≡◌, ◌+◌, ◌<◌, ◌≤◌, ℕ, List, [], ◌++◌, Some, Ok, true, length, nat_lt, ◌^◌, ◌↔◌, IfOk, IfErr, IfSome, IsErrOf};
ghost use Rattle.asn1_core.specs.declared.tag.Tag.{Tag};
ghost use Rattle.der_tree.specs.Answers.{Faults};
ghost use Rattle.der_tree.specs.Codec.{Begins, HasTag};
ghost use Rattle.der_tree.specs.Element.{Element, element_octets, is_encodable};
ghost use Rattle.der_tree.specs.Form.{IsDerOf, value_of};
ghost use Rattle.der_tree.specs.HasTree.{HasTree};
ghost use Rattle.der_tree.specs.Sizes.{element_count};
ghost use Rattle.der_tree.specs.Tags.{has};
ghost use Rattle.der_tree.specs.Tree.{PlainTree};
ghost use Rattle.der_tree.specs.TreeElement.{element_of};
ghost use Rattle.der_tree.specs.Windows.{Decodes};
ghost use Rattle.der_tree.specs.declared.error.EncodeError.TheVariants.{OutOfMemory as NoMemory};
ghost use Rattle.der_tree.specs.declared.error.DecodeError.TheVariants.{NotInGrammar};

use crate::der_type::DerType;
use crate::encode::tree_out;
pub use crate::encode::write_tree;
use crate::error::{DecodeError, EncodeError};
pub use crate::measure::measure;
use crate::window::{element_at, one_window};
use asn1_core::{Out, OutOfMemory, Steps};
use std::alloc::Global;
use std::marker::Brand;
use std::sync::ledger::{Blank, Ledger};

/// The value's DER encoding in an `Out`, as `encode` gives it, and the steps that it took: one for each
/// octet, and at most one more for each element. No octet was moved out of another's way.
#[tactic(auto, using(crate::proofs::HasTreeLaws::memory))]
pub fn encode_counted<T: DerType, L: Ledger>(
    alloc: Global,
    value: &T,
    steps: &mut Steps<L>,
) -> Result<Out, EncodeError>
    ensures ok { IfOk result (λ o. IsDerOf T.codec value.now o.items) }
    ensures moved { IfOk result (λ o. o.moved ≡ 0) }
    ensures fault { IfErr result (λ e. Faults e (T.codec.tree_of value.now)) }
    ensures memory { HasTree T.codec value.now → IfErr result (λ e. e ≡ NoMemory) }
    ensures least { IfOk result (λ o. steps.old + length o.items ≤ steps.new) }
    ensures most { IfOk result (λ o. IfOk (T.codec.tree_of value.now) (λ t. steps.new ≤ steps.old + length o.items + element_count t)) }
{
    let tree = value.to_tree(alloc)?;
    let out = tree_out(alloc, &tree, steps)?;
    Ok(out)
}

fn encode_from<T: DerType, L: Ledger>(
    alloc: Global,
    value: &T,
    blank: Blank,
) -> Result<Vec<u8>, EncodeError>
    requires name { blank.name ≡ L.name }
    requires parts { blank.parts ≡ L.parts }
    requires share { 0 < L.parts }
    ensures ok { IfOk result (λ v. IsDerOf T.codec value.now v.items) }
    ensures fault { IfErr result (λ e. Faults e (T.codec.tree_of value.now)) }
    ensures memory { HasTree T.codec value.now → IfErr result (λ e. e ≡ NoMemory) }
{
    let mut steps = Steps::<L>::new(blank);
    let out = encode_counted(alloc, value, &mut steps)?;
    Ok(out.finish())
}

/// The value's DER encoding. An error but for memory is the first fault in field order, of a value that
/// has none; lengths of 2^64 and more, which no encoding has, run out of memory.
pub fn encode<T: DerType>(alloc: Global, value: &T) -> Result<Vec<u8>, EncodeError>
    ensures ok { IfOk result (λ v. IsDerOf T.codec value.now v.items) }
    // An error but for memory is the one that the definition gives.
    ensures fault { IfErr result (λ e. Faults e (T.codec.tree_of value.now)) }
    // Where the value has a tree, only out of memory is answered.
    ensures memory { HasTree T.codec value.now → IfErr result (λ e. e ≡ NoMemory) }
{
    encode_from::<T, Brand>(alloc, value, Blank::new(1))
}

/// The value whose DER encoding is a front of the input, and the rest.
#[tactic(auto, using(crate::proofs::FormLaws::decoding))]
pub fn decode_with_remainder<T: DerType>(
    alloc: Global,
    input: &[u8],
) -> Result<(T, &[u8]), DecodeError>
    // What is read is the value of a front of the input.
    ensures found { IfOk result (λ x. (b : List ℕ) × IsDerOf T.codec x.0 b × (input.now ≡ b ++ x.1.now)) }
    // The encoding of what is read, as `encode` gives it, is that front.
    ensures again { IfOk result (λ x. (b : List ℕ) → IsDerOf T.codec x.0 b → input.now ≡ b ++ x.1.now) }
    // Nothing is read only where no front of the input is an encoding.
    ensures none { IsErrOf result NotInGrammar → (v : T) (b rest : List ℕ) → IsDerOf T.codec v b → input.now ≡ b ++ rest → ⊥ }
{
    let (window, rest) = element_at(input)?;
    let value = T::from_tree(alloc, window)?;
    Ok((value, rest))
}

/// The value whose DER encoding is a front of the input; the rest is ignored.
pub fn decode<T: DerType>(alloc: Global, input: &[u8]) -> Result<T, DecodeError>
    ensures found { IfOk result (λ v. (b rest : List ℕ) × IsDerOf T.codec v b × (input.now ≡ b ++ rest)) }
    ensures none { IsErrOf result NotInGrammar → (v : T) (b rest : List ℕ) → IsDerOf T.codec v b → input.now ≡ b ++ rest → ⊥ }
{
    let (value, _) = decode_with_remainder(alloc, input)?;
    Ok(value)
}

/// The value whose DER encoding the input is, with nothing after it. `NotInGrammar` exactly where the
/// input isn't a value's encoding, even where it begins with one.
#[tactic(auto, using(crate::proofs::FormLaws::value_there))]
pub fn decode_exact<T: DerType>(alloc: Global, input: &[u8]) -> Result<T, DecodeError>
    ensures value { Decodes result (value_of T.codec input.now) }
    ensures found { IfOk result (λ v. IsDerOf T.codec v input.now) }
    ensures none { IsErrOf result NotInGrammar → (v : T) → IsDerOf T.codec v input.now → ⊥ }
{
    let Some(window) = one_window(input) else {
        return Err(DecodeError::NotInGrammar);
    };
    let value = T::from_tree(alloc, window)?;
    Ok(value)
}

/// The value whose DER encoding the input is, with nothing after it; `None` exactly where it isn't
/// a value's.
pub fn value_of<T: DerType>(alloc: Global, input: &[u8]) -> Result<Option<T>, OutOfMemory>
    ensures { IfOk result (λ found. found ≡ value_of T.codec input.now) }
{
    match decode_exact(alloc, input) {
        Ok(value) => Ok(Some(value)),
        Err(DecodeError::NotInGrammar) => Ok(None),
        Err(DecodeError::OutOfMemory) => Err(OutOfMemory),
    }
}

/// The value of some bytes is the one whose DER encoding they are.
pub fn value_exactly<T: DerType>()
    ensures { (b : List ℕ) (v : T) → (value_of T.codec b ≡ Some v) ↔ IsDerOf T.codec v b }
{}

/// Two values with equal bytes are equal.
#[tactic(auto, using(crate::proofs::FormLaws::one))]
pub fn one_value<T: DerType>()
    ensures { (v w : T) (b : List ℕ) → IsDerOf T.codec v b → IsDerOf T.codec w b → v ≡ w }
{}

/// A value has at most one DER encoding.
#[tactic(auto, using(crate::proofs::FormLaws::one))]
pub fn one_form<T: DerType>()
    ensures { (v : T) (a b : List ℕ) → IsDerOf T.codec v a → IsDerOf T.codec v b → a ≡ b }
{}

/// `starts` holds of exactly the tags with which the tree of some value begins. Tag numbers of 2^32
/// and more, which no element has, are left aside.
pub fn starts_exactly<T: DerType>()
    ensures { (g : Tag) → nat_lt g.number (2 ^ 32) ≡ true → (has T.codec.starts g ≡ true) ↔ ((v : T) × (t : PlainTree) × (T.codec.tree_of v ≡ Ok t) × Begins g t) }
{}

/// Where a type has a `TAG`, the tree of each of its values has that tag.
pub fn tag_of_each_form<T: DerType>()
    ensures { IfSome T.TAG (λ g. (v : T) (t : PlainTree) → T.codec.tree_of v ≡ Ok t → HasTag g t) }
{}

/// An element is read as a value exactly where it is the one that the value's tree is.
pub fn reads_exactly<T: DerType>()
    ensures { (s : Element) (v : T) → is_encodable s ≡ true → (T.codec.read_of s ≡ Some v) ↔ ((t : PlainTree) × (T.codec.tree_of v ≡ Ok t) × (element_of t ≡ Some s)) }
{}

/// Of two DER encodings, of whatever types, neither is a proper front of the other.
pub fn no_front<T: DerType, U: DerType>()
    ensures { (v : T) (w : U) (a b rest : List ℕ) → IsDerOf T.codec v a → IsDerOf U.codec w b → b ≡ a ++ rest → rest ≡ [] }
{}

/// Each DER encoding is the octets of one element (X.690, 8.1).
pub fn is_one_element<T: DerType>()
    ensures { (v : T) (b : List ℕ) → IsDerOf T.codec v b → (s : Element) × (is_encodable s ≡ true) × (b ≡ element_octets s) }
{}
