//! How the record changes.
ghost use Rattle.std.specs.Prelude.{◌≡◌, ℕ, Some, None};
ghost use Rattle.std.specs.Option.{option_map};
ghost use Rattle.register_record.specs.Records.{base_after, base_with, changed, changed_to, in_place_of, list_sealed, made_final, number_of};
ghost use Rattle.register_record.specs.declared.state.Change.TheVariants.{Revoked};

use crate::event::{ListKind, Revocation};
use crate::record::Record;
use crate::state::{Base, Change, Content};
use asn1_core::{Integer, OctetString};

fn in_place_of(change: Option<Change>, revocation: Revocation) -> Revocation
    ensures { result ≡ in_place_of change revocation }
{
    match change {
        Some(Change::Revoked(hold)) => Revocation {
            time: hold.time,
            ..revocation
        },
        _ => revocation,
    }
}

fn base_after(kind: ListKind, number: u64, this_update: i64, base: Option<Base>) -> Option<Base>
    ensures { result ≡ base_after kind number this_update base }
{
    match kind {
        ListKind::Complete => Some(Base {
            number,
            this_update,
        }),
        ListKind::Delta => base,
    }
}

impl Record {
    /// The certificate's status changes now.
    pub(crate) fn change(&mut self, serial: &Integer, change: Change)
        ensures { self.new ≡ record self.old { certificates = changed serial.now (changed_to change (number_of self.old.last)) self.old.certificates } }
    {
        let since = self.last_number();
        self.certificates.change(serial, change, since);
    }

    /// The certificate on hold is revoked for good.
    pub(crate) fn set_final(&mut self, serial: &Integer, revocation: Revocation)
        ensures { self.new ≡ record self.old { certificates = changed serial.now (made_final revocation (number_of self.old.last)) self.old.certificates } }
    {
        match self.certificate(serial) {
            Some(certificate) => {
                let placed = in_place_of(certificate.change, revocation);
                self.change(serial, Change::Revoked(placed));
            }
            None => {}
        }
    }

    /// The list that was reserved last has these octets.
    pub(crate) fn set_list_octets(&mut self, octets: OctetString)
        ensures { self.new ≡ record self.old { last = option_map (list_sealed octets) self.old.last; base = base_with self.old.last self.old.base } }
    {
        if let Some(list) = &mut self.last {
            self.base = base_after(list.kind, list.number, list.this_update, self.base);
            list.content = Content::Sealed(octets);
        }
    }
}
