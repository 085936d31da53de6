ghost use Rattle.std.specs.Ordering.{is_eq};
ghost use Rattle.std.specs.Prelude.{◌≡◌, [], IfOk, OnOk, OnErr, IfErr, position, option_map, string_bytes};
ghost use Rattle.std.specs.List.{list_any};
ghost use Rattle.std.specs.Cmp.{partial_equiv_from_equiv};
ghost use Rattle.std.specs.Cmp.Lexicographic.{lists_per, lists_equiv};
ghost use Rattle.std.specs.Iterator.{YieldsFirstBy, item_count};
ghost use Rattle.std.proofs.Common.{rules};
ghost use Rattle.rcgen_text.specs.DnTypes.{kind_of, same_type};
ghost use Rattle.rcgen_text.specs.DnValues.{text_of};
ghost use Rattle.rcgen_text.specs.Names.{all_pushed, common_name_alone, entries_of, has_type, HasDistinctTypes, place_of_type};
ghost use Rattle.rcgen_text.specs.Names.{text_of_type, pushed, removed, same_entries, same_entry_equiv};
ghost use Rattle.rcgen_text.specs.NameIteration.{given_attribute, attributes_left};
ghost use Rattle.rcgen_text.specs.declared.error.Error.TheVariants.{OutOfMemory as NoMemory};

use crate::dn_type::DnType;
use crate::dn_value::DnValue;
use crate::error::Error;
use asn1_core::TryClone;
use std::alloc::{AllocError, Global};
use std::collections::BTreeMap;
use std::marker::Model;

/// A distinguished name: attributes in order, each type at most once (RFC 5280, 4.1.2.4).
#[derive(Debug, Drop)]
pub struct DistinguishedName {
    entries: Vec<(DnType, DnValue)>,
}

impl Model for DistinguishedName {
    ghost use Rattle.std.specs.Prelude.{List};
    ghost use Rattle.rcgen_text.specs.Names.{Entry, entries_of, HasDistinctTypes};

    ghost Value = { List Entry };

    ghost view = { λ n. entries_of n.entries.items };

    ghost invariant = { λ n. HasDistinctTypes (entries_of n.entries.items) };
}

impl DistinguishedName {
    /// The name without attributes. It keeps the allocator, and takes no memory.
    pub fn new(alloc: Global) -> DistinguishedName
        ensures { result ≡ [] }
    {
        DistinguishedName {
            entries: Vec::new(alloc),
        }
    }

    /// The name that has this common name alone, as a UTF8String.
    pub fn from_common_name(alloc: Global, text: String) -> Result<DistinguishedName, Error>
        ensures value { IfOk result (λ name. name ≡ common_name_alone (string_bytes text)) }
        ensures memory { IfErr result (λ e. e ≡ NoMemory) }
    {
        let mut name = DistinguishedName::new(alloc);
        name.push(DnType::CommonName, DnValue::Utf8String(text))?;
        Ok(name)
    }

    /// The name of these attributes, pushed one after the other: a type that is there keeps its place
    /// and gets the value. The time is that of a sort, n log n.
    pub fn from_entries(
        alloc: Global,
        entries: Vec<(DnType, DnValue)>,
    ) -> Result<DistinguishedName, Error>
        ensures value { IfOk result (λ name. name ≡ all_pushed (entries_of entries.items)) }
        ensures memory { IfErr result (λ e. e ≡ NoMemory) }
    {
        let mut name = DistinguishedName::new(alloc);
        let mut places = BTreeMap::new(alloc);
        ties_are_equal::<DnType>();
        for (ty, value) in entries {
            let place = places.get(&ty).copied();
            if place.is_none() {
                places.insert(ty.clone()?, name.entries().len())?;
            }
            name.put(place, ty, value)?;
        }
        Ok(name)
    }

    /// The value of the attribute of this type. None exactly where the type isn't there.
    pub fn get(&self, ty: &DnType) -> Option<&DnValue>
        ensures { option_map (λ value. text_of value.now) result ≡ text_of_type self.now (kind_of ty.now) }
    {
        match place_of(self.entries.as_slice(), ty) {
            Some(place) => Some(&self.entries[place].1),
            None => None,
        }
    }

    /// Adds an attribute at the end. A type that is there keeps its place and gets the value.
    pub fn push(&mut self, ty: DnType, value: DnValue) -> Result<(), Error>
        ensures ok { OnOk result (self.new ≡ pushed self.old (kind_of ty) (text_of value)) }
        ensures err { OnErr result (self.new ≡ self.old) }
        ensures memory { IfErr result (λ e. e ≡ NoMemory) }
    {
        let place = place_of(self.entries.as_slice(), &ty);
        self.put(place, ty, value)
    }

    /// Adds an attribute whose type occurs at this place, or nowhere.
    fn put(&mut self, place: Option<usize>, ty: DnType, value: DnValue) -> Result<(), Error>
        requires place { place ≡ place_of_type (kind_of ty) self.old }
        ensures ok { OnOk result (self.new ≡ pushed self.old (kind_of ty) (text_of value)) }
        ensures err { OnErr result (self.new ≡ self.old) }
        ensures memory { IfErr result (λ e. e ≡ NoMemory) }
    {
        match place {
            Some(place) => {
                self.entries[place].1 = value;
                Ok(())
            }
            None => {
                self.entries.push((ty, value))?;
                Ok(())
            }
        }
    }

    /// Takes the attribute of this type out; those after it move up. True exactly where it was there.
    pub fn remove(&mut self, ty: &DnType) -> bool
        ensures there { result ≡ list_any (has_type (kind_of ty.now)) self.old }
        ensures left { self.new ≡ removed self.old (kind_of ty.now) }
    {
        match place_of(self.entries.as_slice(), ty) {
            Some(place) => {
                let _attribute = self.entries.remove(place);
                true
            }
            None => false,
        }
    }

    /// The attributes in order.
    pub fn iter(&self) -> DistinguishedNameIterator<'_>
        ensures { attributes_left result ≡ self.now }
    {
        DistinguishedNameIterator {
            rest: self.entries(),
        }
    }

    /// The attributes in order, as a slice.
    pub fn entries(&self) -> &[(DnType, DnValue)]
        ensures entries { entries_of result.now ≡ self.now }
        ensures distinct { HasDistinctTypes self.now }
    {
        self.entries.as_slice()
    }
}

impl Clone for DistinguishedName {
    ghost is_clone = { λ x y. y ≡ x };

    fn clone(&self) -> Result<DistinguishedName, AllocError> {
        let mut entries = Vec::with_capacity(*self.entries.allocator(), self.entries.len())?;
        for entry in self.entries() {
            entries.push((entry.0.clone()?, entry.1.clone()?))?;
        }
        Ok(DistinguishedName { entries })
    }
}

impl TryClone for DistinguishedName {
    ghost copies_are_equal = { λ _ _ same. same };
}

impl PartialEq for DistinguishedName {
    ghost eq = { same_entries };

    ghost laws = { lists_per (partial_equiv_from_equiv same_entry_equiv) };

    fn eq(&self, other: &DistinguishedName) -> bool {
        self.entries() == other.entries()
    }
}

impl Eq for DistinguishedName {
    ghost laws = { lists_equiv same_entry_equiv };
}

/// What an order doesn't tell apart is equal.
fn ties_are_equal<K: Ord>()
    ensures { (x y : K) → is_eq (K.cmp x y) ≡ K.eq x y }
{}

/// The place of the attribute of the type.
fn place_of(entries: &[(DnType, DnValue)], ty: &DnType) -> Option<usize>
    ensures { result ≡ position (λ e. same_type (kind_of e.0) (kind_of ty.now)) entries.now }
{
    entries.iter().position(|entry| entry.0 == *ty)
}

/// The attributes of a name in order, each as its type and its value.
#[derive(Clone, Debug, Drop)]
pub struct DistinguishedNameIterator<'a> {
    rest: &'a [(DnType, DnValue)],
}

impl<'a> Iterator for DistinguishedNameIterator<'a> {
    type Item = (&'a DnType, &'a DnValue);

    ghost next_gives = { YieldsFirstBy given_attribute attributes_left };

    ghost remaining = { item_count attributes_left };

    fn next(&mut self) -> Option<(&'a DnType, &'a DnValue)> {
        let (first, rest) = self.rest.split_first()?;
        self.rest = rest;
        Some((&first.0, &first.1))
    }
}
