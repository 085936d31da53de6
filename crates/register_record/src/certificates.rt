//! What is recorded under serial numbers, in order, and where.
ghost use Rattle.std.specs.Prelude.{◌≡◌, ◌<◌, ◌++◌, ◌∷◌, ℕ, List, [], None, Some, OnOk, OnErr};
ghost use Rattle.std.specs.Vec.{vec_len};
ghost use Rattle.std.specs.Option.{option_copied};
ghost use Rattle.register_record.specs.Records.{changed, changed_to, found, sealed_as};
ghost use Rattle.register_record.specs.Places.{place_of};

use crate::state::{Certificate, Change, Content};
use asn1_core::{Integer, OctetString, OutOfMemory, TryClone};
use std::alloc::Global;
use std::collections::BTreeMap;
use std::marker::Model;

/// The certificates in the order in which their serial numbers were reserved, and the place of each
/// serial number.
#[derive(Drop)]
pub(crate) struct Certificates {
    alloc: Global,
    list: Vec<Certificate>,
    places: BTreeMap<Integer, usize>,
}

impl Model for Certificates {
    ghost use Rattle.std.specs.Prelude.{◌≡◌, ℕ, List};
    ghost use Rattle.std.specs.BTreeMap as tree;
    ghost use Rattle.asn1_core.specs.IntegerOrder.{integer_cmp};
    ghost use Rattle.register_record.specs.declared.state.Certificate.{Certificate};
    ghost use Rattle.register_record.specs.Places.{place_of};

    ghost Value = { List Certificate };

    ghost view = { λ r. r.list.items };

    ghost invariant = { λ r. (q : List ℕ) → tree.get integer_cmp r.places q ≡ place_of q r.list.items };
}

fn seal_at(list: &mut Vec<Certificate>, place: usize, octets: OctetString)
    requires { place < vec_len list.old }
    ensures { (q : List ℕ) → place_of q list.old.items ≡ Some place → list.new.items ≡ changed q (sealed_as octets) list.old.items }
{
    let certificate = &mut list[place];
    certificate.content = Content::Sealed(octets);
}

fn change_at(list: &mut Vec<Certificate>, place: usize, change: Change, since: u64)
    requires { place < vec_len list.old }
    ensures { (q : List ℕ) → place_of q list.old.items ≡ Some place → list.new.items ≡ changed q (changed_to change since) list.old.items }
{
    let certificate = &mut list[place];
    certificate.change = Some(change);
    certificate.since = since;
}

impl Certificates {
    pub(crate) fn new(alloc: Global) -> Certificates
        ensures { result ≡ [] }
    {
        let list = Vec::new(alloc);
        let places = BTreeMap::new(alloc);
        Certificates {
            alloc,
            list,
            places,
        }
    }

    /// In order.
    pub(crate) fn as_slice(&self) -> &[Certificate]
        ensures { result.now ≡ self.now }
    {
        self.list.as_slice()
    }

    fn place(&self, serial: &Integer) -> Option<usize>
        ensures { result ≡ place_of serial.now self.now }
    {
        self.places.get(serial).copied()
    }

    /// What is recorded under the serial number.
    pub(crate) fn get(&self, serial: &Integer) -> Option<&Certificate>
        ensures { option_copied result ≡ found serial.now self.now }
    {
        match self.place(serial) {
            Some(place) => Some(&self.list[place]),
            None => None,
        }
    }

    /// One more, whose serial number is new.
    pub(crate) fn push(&mut self, certificate: Certificate) -> Result<(), OutOfMemory>
        requires { found certificate.serial self.old ≡ None }
        ensures ok { OnOk result (self.new ≡ self.old ++ certificate ∷ []) }
        ensures err { OnErr result (self.new ≡ self.old) }
    {
        self.list.reserve(1)?;
        let serial = certificate.serial.try_clone(self.alloc)?;
        let place = self.list.len();
        self.places.insert(serial, place)?;
        self.list.push(certificate).unwrap();
        Ok(())
    }

    /// The certificate under the serial number has these octets.
    pub(crate) fn seal(&mut self, serial: &Integer, octets: OctetString)
        ensures { self.new ≡ changed serial.now (sealed_as octets) self.old }
    {
        if let Some(place) = self.place(serial) {
            seal_at(&mut self.list, place, octets);
        }
    }

    /// Its status changed after the list with this number was reserved.
    pub(crate) fn change(&mut self, serial: &Integer, change: Change, since: u64)
        ensures { self.new ≡ changed serial.now (changed_to change since) self.old }
    {
        if let Some(place) = self.place(serial) {
            change_at(&mut self.list, place, change, since);
        }
    }
}
