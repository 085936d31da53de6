ghost use Rattle.std.specs.Prelude.{◌≡◌, ℕ, List, true, IfOk, IfErr, OnOk, OnErr, [], ◌∷◌, None, Some, Ok, refl};
ghost use Rattle.std.specs.Cmp.Lexicographic.{pointwise, slice_cmp, lists_per, lists_equiv};
ghost use Rattle.std.specs.Hash as fed;
ghost use Rattle.std.specs.Hash.{items_Alike};
ghost use Rattle.std.specs.List.{list_all};
ghost use Rattle.std.specs.Ordering.{nat_cmp};
ghost use Rattle.der_tree.specs.declared.error.EncodeError.TheVariants.{OutOfMemory};
ghost use Rattle.der_tree.specs.Answers.{Encodes, Faults, Puts};
ghost use Rattle.der_tree.specs.Fields.{next_required};
ghost use Rattle.der_tree.specs.Form.{IsDerOf};
ghost use Rattle.der_tree.specs.Grammar.{set_of};
ghost use Rattle.der_tree.specs.HasTree.{HasTree};
ghost use Rattle.der_tree.specs.Optional.{optional_by};
ghost use Rattle.der_tree.specs.SetOf.{has_form, inserted, is_set, octets_of_form, padded_cmp, place_of, set_read_of, set_tree_of};
ghost use Rattle.der_tree.specs.Tagging.{read_within, tree_within};
ghost use Rattle.der_tree.specs.Tags.{universal};
ghost use Rattle.der_tree.specs.Windows.{Decodes, Reads, shown};

use crate::der::encode;
use crate::der_type::{DerType, Form, finish, opened};
use crate::error::{DecodeError, EncodeError};
use crate::fields::Fields;
use crate::list::{is_within, put_each, read_each};
use crate::tree::{Tree, Trees};
use crate::window::Window;
use asn1_core::{Tag, TryClone};
use std::alloc::{AllocError, Global};
use std::hash::{Hash, Hasher};
use std::marker::Model;

/// Values in the ascending order of their octets, repeats kept (X.690, 11.6).
#[derive(Debug)]
pub struct SetOf<T: Form> {
    alloc: Global,
    list: Vec<T>,
}

impl<T: Form> Model for SetOf<T> {
    ghost use Rattle.std.specs.Prelude.{◌≡◌, true, List};
    ghost use Rattle.std.specs.Coded.{coded_list};
    ghost use Rattle.der_tree.specs.SetOf.{is_set};

    ghost Value = { List T };

    ghost coded = { coded_list T.code };

    ghost view = { λ s. s.list.items };

    ghost invariant = { λ s. is_set T.codec s.list.items ≡ true };
}

impl<T: Form + Drop> Drop for SetOf<T> {
    fn drop(self) {
        let SetOf { alloc: _, list: _ } = self;
    }
}

// Behind all values whose octets are not greater.
#[tactic(auto, using(crate::proofs::SetLaws::placing))]
fn place_of<T: DerType>(alloc: Global, list: &[T], octets: &[u8]) -> Result<usize, EncodeError>
    requires { list_all (has_form T.codec) list.now ≡ true }
    ensures ok { IfOk result (λ n. n ≡ place_of (octets_of_form T.codec) octets.now list.now) }
    ensures fault { IfErr result (λ e. e ≡ OutOfMemory) }
{
    for (place, value) in list.iter().enumerate() {
        let here = encode(alloc, value)?;
        if here.as_slice().cmp(&octets).is_gt() {
            return Ok(place);
        }
    }
    Ok(list.len())
}

impl<T: DerType> SetOf<T> {
    /// No value yet. What is inserted later is allocated there.
    #[tactic(auto, using(crate::proofs::SetLaws::empty))]
    pub fn new(alloc: Global) -> SetOf<T>
        ensures { result ≡ [] }
    {
        SetOf {
            alloc,
            list: Vec::new(alloc),
        }
    }

    /// The set of this one value, which has a form. The value isn't encoded: no memory is taken but
    /// for a list of one.
    #[tactic(auto, using(crate::proofs::SetLaws::single))]
    pub fn of_one(alloc: Global, value: T) -> Result<SetOf<T>, asn1_core::OutOfMemory>
        requires { has_form T.codec value ≡ true }
        ensures { IfOk result (λ s. s ≡ value ∷ []) }
    {
        let mut list = Vec::with_capacity(alloc, 1)?;
        list.push(value).unwrap();
        Ok(SetOf { alloc, list })
    }

    /// The values in order.
    pub fn as_slice(&self) -> &[T]
        ensures values { result.now ≡ self.now }
        ensures ordered { is_set T.codec self.now ≡ true }
    {
        self.list.as_slice()
    }

    /// Puts the value after those whose octets are not greater. Each call encodes it, and the
    /// values up to its place. An error but for memory is the value's own: it has no form.
    #[tactic(auto, using(crate::proofs::SetLaws::inserting))]
    pub fn insert(&mut self, value: T) -> Result<(), EncodeError>
        ensures ok { OnOk result (self.new ≡ inserted T.codec self.old value) }
        ensures formed { OnOk result ((b : List ℕ) × IsDerOf T.codec value b) }
        ensures err { OnErr result (self.new ≡ self.old) }
        ensures fault { IfErr result (λ e. Faults e (T.codec.tree_of value)) }
        ensures memory { HasTree T.codec value → IfErr result (λ e. e ≡ OutOfMemory) }
    {
        let octets = encode(self.alloc, &value)?;
        let place = place_of(self.alloc, self.list.as_slice(), octets.as_slice())?;
        self.list.insert(place, value)?;
        Ok(())
    }
}

impl<T: DerType + TryClone> SetOf<T> {
    /// Copies of the values, in order.
    pub fn to_vec(&self, alloc: Global) -> Result<Vec<T>, asn1_core::OutOfMemory>
        ensures { IfOk result (λ v. v.items ≡ self.now) }
    {
        Ok(self.as_slice().to_vec(alloc)?)
    }
}

impl<T: DerType + TryClone> Clone for SetOf<T> {
    ghost is_clone = { λ x y. y ≡ x };

    fn clone(&self) -> Result<SetOf<T>, AllocError> {
        Ok(SetOf {
            alloc: self.alloc,
            list: self.list.clone()?,
        })
    }
}

impl<T: DerType + TryClone> TryClone for SetOf<T> {
    ghost copies_are_equal = { λ _ _ same. same };
}

impl<T: DerType + PartialEq> PartialEq for SetOf<T> {
    ghost eq = { pointwise T.eq };

    ghost laws = { lists_per T.laws };

    fn eq(&self, other: &SetOf<T>) -> bool {
        self.as_slice() == other.as_slice()
    }
}

impl<T: DerType + Eq> Eq for SetOf<T> {
    ghost laws = { lists_equiv T.Eq.laws };
}

impl<T: DerType + Hash> Hash for SetOf<T> {
    ghost hash_input = { fed.slice T.hash_input };

    ghost respects_eq = { (items_Alike (record { fed = T.respects_eq })).fed };

    fn hash<H: Hasher>(&self, state: &mut H) {
        self.as_slice().hash(state);
    }
}

/// The tree of a SET OF at least `min` values and at most `max` (X.690, 8.12 and 11.6).
/// `SizeOutOfRange` exactly where there are fewer or more.
#[tactic(auto, using(crate::proofs::SetLaws::writing))]
pub fn set_tree<T: DerType>(
    alloc: Global,
    set: &SetOf<T>,
    min: usize,
    max: Option<usize>,
) -> Result<Tree, EncodeError>
    ensures { Encodes result (set_tree_of T.codec min max set.now) }
{
    let values = set.as_slice();
    if !is_within(values.len(), min, max) {
        return Err(EncodeError::SizeOutOfRange);
    }
    let mut children = Trees::new(alloc);
    put_each(alloc, &mut children, values)?;
    Ok(Tree::Node {
        tag: Tag::SET,
        children,
    })
}

/// The SET OF at least `min` values and at most `max` that the window shows (X.690, 8.12 and 11.6).
/// `NotInGrammar` exactly where it shows none.
#[tactic(auto, using(crate::proofs::SetLaws::reading), unfolding(crate::specs::SetOf::next_set, crate::specs::Sequence::at_end))]
pub fn set_of<T: DerType>(
    alloc: Global,
    window: Window<'_>,
    min: usize,
    max: Option<usize>,
) -> Result<SetOf<T>, DecodeError>
    ensures { Decodes result (set_read_of T.codec min max (shown window.entry)) }
{
    let fields = opened(window, Tag::SET)?;
    if !fields.are_in_order() {
        return Err(DecodeError::NotInGrammar);
    }
    let list = read_each(alloc, fields)?;
    if !is_within(list.len(), min, max) {
        return Err(DecodeError::NotInGrammar);
    }
    Ok(SetOf { alloc, list })
}

/// Puts the tree of a SET OF at least `min` values and at most `max` under an explicit tag after
/// those before it.
pub fn put_explicit_set<T: DerType>(
    alloc: Global,
    fields: &mut Trees,
    set: &SetOf<T>,
    tag: Tag,
    min: usize,
    max: Option<usize>,
) -> Result<(), EncodeError>
    ensures puts { Puts result fields.old fields.new (optional_by (tree_within tag (set_tree_of T.codec min max)) (Some set.now)) }
    ensures err { OnErr result (fields.new ≡ fields.old) }
{
    let mut children = Trees::new(alloc);
    children.push(set_tree(alloc, set, min, max)?)?;
    fields.push(Tree::Node { tag, children })?;
    Ok(())
}

/// Takes the next field, which has to have this tag, around a SET OF at least `min` values and at
/// most `max`.
#[tactic(auto, unfolding(crate::specs::Fields::next_required))]
pub fn required_explicit_set<T: DerType>(
    alloc: Global,
    fields: &mut Fields<'_>,
    tag: Tag,
    min: usize,
    max: Option<usize>,
) -> Result<SetOf<T>, DecodeError>
    ensures reads { Reads result fields.new (next_required (read_within tag (set_read_of T.codec min max)) fields.old) }
    ensures err { OnErr result (fields.new ≡ fields.old) }
{
    let Some((window, rest)) = fields.first() else {
        return Err(DecodeError::NotInGrammar);
    };
    let inner = opened(window, tag)?;
    let Some((window, after)) = inner.first() else {
        return Err(DecodeError::NotInGrammar);
    };
    let set = finish(&after, set_of(alloc, window, min, max)?)?;
    *fields = rest;
    Ok(set)
}

impl<T: Form> Form for SetOf<T> {
    ghost codec = { set_of T.codec 0 None [] refl };
}

impl<T: DerType> DerType for SetOf<T> {
    ghost TAG = { Some (universal 17) };

    ghost tag_is = { refl };

    const TAG: Option<Tag> = Some(Tag::SET);

    fn starts(tag: Tag) -> bool {
        tag == Tag::SET
    }

    fn to_tree(&self, alloc: Global) -> Result<Tree, EncodeError> {
        set_tree(alloc, self, 0, None)
    }

    fn from_tree(alloc: Global, window: Window<'_>) -> Result<Self, DecodeError> {
        set_of(alloc, window, 0, None)
    }
}

/// Zero octets after the shorter of two forms, as X.690, 11.6, puts them to compare, don't
/// change their order.
pub fn padding_is_no_matter<T: DerType>()
    ensures { (v w : T) (a b : List ℕ) → IsDerOf T.codec v a → IsDerOf T.codec w b → padded_cmp a b ≡ slice_cmp nat_cmp a b }
{}
