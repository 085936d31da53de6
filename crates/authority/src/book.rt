//! The book: what was issued, revoked and listed.
ghost use Rattle.std.specs.Prelude.{ℕ, get_or, ◌≡◌, ◌++◌, ◌∷◌, [], suc, not, true, false, cond, None, Some, OnOk, OnErr, IfOk, IfErr, map, nat_lt, ◌==◌, ◌||◌, ◌&&◌, ◌<◌, ◌^◌};
ghost use Rattle.rcgen_text.specs.Causes.{origin_of};
ghost use Rattle.rcgen_certificate.specs.Issuers.{key_of, view_of};
ghost use Rattle.std.specs.Int.{w64, to_be_bytes};
ghost use Rattle.asn1_core.specs.Moment.{has_utc, instant};
ghost use Rattle.rcgen_issue.specs.CrlView.{revoked_view};
ghost use Rattle.rcgen_issue.specs.Lists.{has_entry_times};
ghost use Rattle.authority.specs.Asks.{asked_crl, revocation};
ghost use Rattle.authority.specs.Authorities.{registered};
ghost use Rattle.authority.specs.Book.{entry_cause, nothing, state_cause, ExplainsRefusal, IsBook, ListsThese, OrMemory, RefusesToList};
ghost use Rattle.authority.specs.Marks.{is_numbered, is_revoked, serial_of};
ghost use Rattle.authority.specs.declared.commands.AuthorityError.TheVariants.{OutOfMemory as NoMemory};

use crate::commands::{AuthorityError, Register};
use asn1_core::OffsetDateTime;
use rcgen_issue::{
    CertificateRevocationList, CertificateRevocationListParams, Issuer, RevocationReason,
    RevokedCertParams,
};
use rcgen_sign::SigningKey;
use rcgen_text::{Error, SerialNumber};
use std::alloc::Global;
use std::marker::Model;
use std::mem;

/// What was issued, revoked and listed.
#[derive(Drop)]
pub(crate) struct Book {
    /// One for each certificate that was issued: whether it was revoked.
    marks: Vec<bool>,
    lists: u64,
    /// The entries, in order.
    entries: Vec<RevokedCertParams>,
}

impl Model for Book {
    ghost use Rattle.std.specs.Prelude.{ℕ, get_or, ◌≡◌, [], None, length, map};
    ghost use Rattle.rcgen_issue.specs.CrlView.{revoked_view};
    ghost use Rattle.authority.specs.Book.{first_entry_cause, State};
    ghost use Rattle.authority.specs.Marks.{AreMarksOf, AreOfDistinctSerials};

    ghost Value = { State };

    ghost view = { λ b. record { issued = length b.marks.items; lists = b.lists; entries = map revoked_view b.entries.items } };

    ghost invariant = { λ b. AreMarksOf (map revoked_view b.entries.items) b.marks.items × AreOfDistinctSerials (map revoked_view b.entries.items)
        × (first_entry_cause (length b.marks.items) [] (map revoked_view b.entries.items) ≡ None) };
}

impl Book {
    /// Nothing was issued, revoked or listed.
    #[tactic(auto, using(crate::proofs::Marks::none_named))]
    pub(crate) fn new(alloc: Global) -> Book
        ensures { result ≡ nothing }
    {
        Book {
            marks: Vec::new(alloc),
            lists: 0,
            entries: Vec::new(alloc),
        }
    }

    /// As many certificates and lists, of which none is revoked.
    fn unrevoked(alloc: Global, issued: u64, lists: u64) -> Result<Book, AuthorityError>
        ensures state { IfOk result (λ b. b ≡ record { issued = issued; lists = lists; entries = [] }) }
        ensures memory { IfErr result (λ e. e ≡ NoMemory) }
    {
        Ok(Book {
            marks: vec![in alloc; false; issued as usize]?,
            lists,
            entries: Vec::new(alloc),
        })
    }

    /// The book of a register.
    pub(crate) fn resume(alloc: Global, register: Register) -> Result<Book, AuthorityError>
        ensures state { IfOk result (λ b. b ≡ registered register) }
        ensures ok { OnOk result (state_cause (registered register) ≡ None) }
        ensures why { IfErr result (ExplainsRefusal (state_cause (registered register))) }
    {
        let mut book = Book::unrevoked(alloc, register.issued, register.lists)?;
        for entry in register.revoked {
            book.take_entry(entry)?;
        }
        book.is_book();
        Ok(book)
    }

    /// Its register.
    pub(crate) fn into_register(self) -> Register
        ensures state { registered result ≡ self }
        ensures no_cause { state_cause (registered result) ≡ None }
    {
        self.is_book();
        let issued = self.issued();
        Register {
            issued,
            lists: self.lists,
            revoked: self.entries,
        }
    }

    /// A law: no two entries are of one serial number, and each could be put after those before it.
    pub(crate) fn is_book(&self)
        ensures { IsBook self.now }
    {
        let _issued = self.marks.len();
    }

    /// How many certificates were issued.
    pub(crate) fn issued(&self) -> u64
        ensures { result ≡ self.now.issued }
    {
        self.marks.len() as u64
    }

    /// How many lists were made.
    pub(crate) fn lists(&self) -> u64
        ensures { result ≡ self.now.lists }
    {
        self.lists
    }

    /// The entries, in order.
    pub(crate) fn entries(&self) -> &[RevokedCertParams]
        ensures { map revoked_view result.now ≡ self.now.entries }
    {
        self.entries.as_slice()
    }

    /// Whether no certificate has that serial number.
    pub(crate) fn is_unknown(&self, serial: u64) -> bool
        ensures { result ≡ (serial == 0 || nat_lt self.now.issued serial) }
    {
        serial == 0 || serial > self.issued()
    }

    /// Whether the certificate with that serial was revoked.
    pub(crate) fn is_revoked(&self, serial: u64) -> bool
        requires { (serial == 0 || nat_lt self.now.issued serial) ≡ false }
        ensures { result ≡ is_revoked serial self.now.entries }
    {
        self.marks[serial as usize - 1]
    }

    /// Makes room for one more certificate.
    pub(crate) fn reserve_certificate(&mut self) -> Result<(), AuthorityError>
        ensures same { self.new ≡ self.old }
        ensures memory { IfErr result (λ e. e ≡ NoMemory) }
    {
        self.marks.reserve(1)?;
        Ok(())
    }

    /// One more certificate. Where there is room it takes no memory.
    pub(crate) fn add_certificate(&mut self) -> Result<(), AuthorityError>
        ensures ok { OnOk result (self.new ≡ record (self.old) { issued = suc self.old.issued }) }
        ensures err { OnErr result (self.new ≡ self.old) }
        ensures memory { IfErr result (λ e. e ≡ NoMemory) }
    {
        self.marks.push(false)?;
        Ok(())
    }

    /// One more list.
    pub(crate) fn add_list(&mut self)
        requires { suc self.old.lists < 2 ^ 64 }
        ensures { self.new ≡ record (self.old) { lists = suc self.old.lists } }
    {
        self.lists += 1;
    }

    /// Puts the entry of that serial number, which no entry is of, at the end.
    pub(crate) fn add_entry(
        &mut self,
        alloc: Global,
        serial: u64,
        time: OffsetDateTime,
        reason: Option<RevocationReason>,
    ) -> Result<(), AuthorityError>
        requires known { (serial == 0 || nat_lt self.old.issued serial) ≡ false }
        requires unrevoked { is_revoked serial self.old.entries ≡ false }
        requires time { has_utc time ≡ true }
        ensures ok { OnOk result (self.new ≡ record (self.old) { entries = self.old.entries ++ revocation serial (instant time) reason ∷ [] }) }
        ensures err { OnErr result (self.new ≡ self.old) }
        ensures memory { IfErr result (λ e. e ≡ NoMemory) }
    {
        let serial_number = SerialNumber::from_u64(alloc, serial)?;
        self.put_entry(
            serial,
            RevokedCertParams {
                serial_number,
                revocation_time: time,
                reason_code: reason,
                invalidity_date: None,
            },
        )
    }

    /// Puts the entry at the end, which is of that serial number, as no other is.
    #[tactic(auto, using(crate::proofs::Marks::views))]
    fn put_entry(&mut self, serial: u64, entry: RevokedCertParams) -> Result<(), AuthorityError>
        requires known { (serial == 0 || nat_lt self.old.issued serial) ≡ false }
        requires unrevoked { is_revoked serial self.old.entries ≡ false }
        requires octets { (revoked_view entry).serial_number ≡ to_be_bytes w64 serial }
        requires times { has_entry_times (revoked_view entry) ≡ true }
        ensures ok { OnOk result (self.new ≡ record (self.old) { entries = self.old.entries ++ revoked_view entry ∷ [] }) }
        ensures err { OnErr result (self.new ≡ self.old) }
        ensures memory { IfErr result (λ e. e ≡ NoMemory) }
    {
        self.entries.push(entry)?;
        self.marks[serial as usize - 1] = true;
        Ok(())
    }

    /// Puts the entry at the end, where it can follow the others.
    fn take_entry(&mut self, entry: RevokedCertParams) -> Result<(), AuthorityError>
        ensures ok { OnOk result (self.new ≡ record (self.old) { entries = self.old.entries ++ revoked_view entry ∷ [] }) }
        ensures why { IfErr result (ExplainsRefusal (entry_cause self.old.issued self.old.entries (revoked_view entry))) }
        ensures before { state_cause self.old ≡ None }
    {
        self.is_book();
        let Some(serial) = serial_of(&entry) else {
            return Err(AuthorityError::UnknownSerial);
        };
        if self.is_unknown(serial) {
            return Err(AuthorityError::UnknownSerial);
        }
        if self.is_revoked(serial) {
            return Err(AuthorityError::AlreadyRevoked);
        }
        if !has_times(&entry) {
            return Err(AuthorityError::Refused(Error::Time));
        }
        self.put_entry(serial, entry)
    }

    /// The list with that number and these times, of the entries.
    pub(crate) fn sign_list<S: SigningKey>(
        &mut self,
        alloc: Global,
        number: u64,
        this_update: OffsetDateTime,
        next_update: OffsetDateTime,
        issuer: &Issuer<'static, S>,
    ) -> Result<CertificateRevocationList, Error>
        ensures same { self.new ≡ self.old }
        ensures ok { IfOk result (ListsThese (view_of S.key issuer.now) (S.fits (key_of issuer.now))
            (asked_crl number (instant this_update) (instant next_update) self.old.entries)) }
        ensures why { IfErr result (λ e. OrMemory (RefusesToList (view_of S.key issuer.now) (S.may_refuse (key_of issuer.now))
            (asked_crl number (instant this_update) (instant next_update) self.old.entries)) (origin_of e)) }
    {
        sign_list(
            alloc,
            number,
            this_update,
            next_update,
            &mut self.entries,
            issuer,
        )
    }
}

/// A law: the items of a slice of octets are octets.
fn are_octets(octets: &[u8])
    ensures { (i : ℕ) → get_or octets.now i 0 < 256 }
{
    if !octets.is_empty() {
        let _rest = &octets[1..];
    }
}

/// The number of which the entry has the eight octets.
fn serial_of(entry: &RevokedCertParams) -> Option<u64>
    ensures { result ≡ cond (is_numbered (revoked_view entry.now)) (Some (serial_of (revoked_view entry.now))) None }
{
    let octets = entry.serial_number.as_slice();
    are_octets(octets);
    let [a, b, c, d, e, f, g, h] = octets else {
        return None;
    };
    Some(u64::from_be_bytes([*a, *b, *c, *d, *e, *f, *g, *h]))
}

/// Whether the times of the entry have a form in UTC.
fn has_times(entry: &RevokedCertParams) -> bool
    ensures { result ≡ has_entry_times (revoked_view entry.now) }
{
    entry.revocation_time.utc().is_some()
        && match entry.invalidity_date {
            Some(date) => date.utc().is_some(),
            None => true,
        }
}

/// The list with that number and these times, of the entries, which are the same after it.
fn sign_list<S: SigningKey>(
    alloc: Global,
    number: u64,
    this_update: OffsetDateTime,
    next_update: OffsetDateTime,
    entries: &mut Vec<RevokedCertParams>,
    issuer: &Issuer<'static, S>,
) -> Result<CertificateRevocationList, Error>
    ensures same { entries.new.items ≡ entries.old.items }
    ensures ok { IfOk result (ListsThese (view_of S.key issuer.now) (S.fits (key_of issuer.now))
        (asked_crl number (instant this_update) (instant next_update) (map revoked_view entries.old.items))) }
    ensures why { IfErr result (λ e. OrMemory (RefusesToList (view_of S.key issuer.now) (S.may_refuse (key_of issuer.now))
        (asked_crl number (instant this_update) (instant next_update) (map revoked_view entries.old.items))) (origin_of e)) }
{
    let crl_number = SerialNumber::from_u64(alloc, number)?;
    let params = CertificateRevocationListParams {
        this_update,
        next_update,
        crl_number,
        issuing_distribution_point: None,
        revoked_certs: mem::replace(entries, Vec::new(alloc)),
        key_identifier_method: None,
    };
    let list = params.signed_by(alloc, issuer);
    *entries = params.revoked_certs;
    list
}
