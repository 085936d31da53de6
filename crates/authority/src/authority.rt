//! The authority: an issuer and its book.
ghost use Rattle.std.specs.Prelude.{◌≡◌, ◌<◌, ◌^◌, ℕ, List, map, take, None, IfOk, IfErr, OnOk, OnErr};
ghost use Rattle.asn1_core.specs.Moment.{instant};
ghost use Rattle.rcgen_text.specs.Causes.{origin_of};
ghost use Rattle.rcgen_text.specs.declared.error.Error.TheVariants.{OutOfMemory as NoMemory};
ghost use Rattle.rcgen_certificate.specs.Issuers.{key_of, view_of};
ghost use Rattle.rcgen_certificate.specs.ParamsView.{params_view};
ghost use Rattle.rcgen_issue.specs.CrlView.{revoked_view};
ghost use Rattle.authority.specs.Asks.{asked_params};
ghost use Rattle.authority.specs.Authorities.{fixed_of, issuer_of, limits_of, registered, state_of};
ghost use Rattle.authority.specs.Book.{alike, nothing, state_cause, ExplainsRefusal, Fails, IsBook, IsReplyFor, IssuesFor, OrMemory, RefusesIssue, Run, Step};
ghost use Rattle.authority.specs.CommandView.{command_view, to_issue, to_list, to_revoke};
ghost use Rattle.authority.specs.declared.commands.AuthorityError.TheVariants as failure;
ghost use Rattle.authority.specs.declared.commands.Reply.{Reply};
ghost use Rattle.authority.specs.declared.commands.Reply.TheVariants as reply;

use crate::book::Book;
use crate::commands::{AuthorityError, Command, Issued, Limits, Listed, Refusal, Register, Reply};
use asn1_core::{OffsetDateTime, OutOfMemory, TryClone};
use der_tree::{Bytes, SequenceOf};
use rcgen_issue::{
    Certificate, CertificateParams, IsCa, Issuer, RevocationReason, RevokedCertParams,
};
use rcgen_sign::{PublicKeyData, SigningKey};
use rcgen_text::{DistinguishedName, Error, SerialNumber};
use std::alloc::Global;

/// Who issues, revokes and lists, up to its limits, and the book of it.
#[derive(Drop)]
pub struct Authority<S> {
    alloc: Global,
    issuer: Issuer<'static, S>,
    limits: Limits,
    book: Book,
}

impl<S: SigningKey> Authority<S> {
    /// Nothing is issued, listed or revoked. There may be `limit` certificates, and `limit` lists. It
    /// takes no memory.
    pub fn new(alloc: Global, issuer: Issuer<'static, S>, limit: u64) -> Authority<S>
        ensures issuer { issuer_of result ≡ issuer.entry }
        ensures limits { limits_of result ≡ alike limit }
        ensures state { state_of result ≡ nothing }
    {
        let limits = Limits {
            certificates: limit,
            lists: limit,
        };
        Authority::with_limits(alloc, issuer, limits)
    }

    /// Nothing is issued, listed or revoked, and lists have a limit of their own. It takes no memory.
    pub fn with_limits(alloc: Global, issuer: Issuer<'static, S>, limits: Limits) -> Authority<S>
        ensures issuer { issuer_of result ≡ issuer.entry }
        ensures limits { limits_of result ≡ limits }
        ensures state { state_of result ≡ nothing }
    {
        Authority {
            alloc,
            issuer,
            limits,
            book: Book::new(alloc),
        }
    }

    /// The issuer, the limits and the register, from which `Authority::resume` goes on: it refuses no
    /// register that was handed out.
    pub fn into_parts(self) -> (Issuer<'static, S>, Limits, Register)
        ensures issuer { result.0 ≡ issuer_of self }
        ensures limits { result.1 ≡ limits_of self }
        ensures state { registered result.2 ≡ state_of self }
        ensures no_cause { state_cause (registered result.2) ≡ None }
    {
        let register = self.book.into_register();
        (self.issuer, self.limits, register)
    }

    /// A law: the state is one that the laws on runs are about (`lists_are_of_the_revoked`).
    pub fn state_is_book(&self)
        ensures book { IsBook (state_of self.now) }
        ensures certificates { (limits_of self.now).certificates < 2 ^ 64 }
        ensures lists { (limits_of self.now).lists < 2 ^ 64 }
    {
        let _certificates = self.limits.certificates;
        let _lists = self.limits.lists;
        self.book.is_book();
    }

    /// How many certificates were issued.
    pub fn issued(&self) -> u64
        ensures { result ≡ (state_of self.now).issued }
    {
        self.book.issued()
    }

    /// How many lists were made.
    pub fn lists(&self) -> u64
        ensures { result ≡ (state_of self.now).lists }
    {
        self.book.lists()
    }

    /// The entries, in order.
    pub fn revoked(&self) -> &[RevokedCertParams]
        ensures { map revoked_view result.now ≡ (state_of self.now).entries }
    {
        self.book.entries()
    }

    /// The certificate with the next serial number for the key, of the default parameters with this
    /// name and these times, which says that the subject is no authority (RFC 5280, 4.2.1.9) and
    /// identifies the issuer's key (4.2.1.1). `Full` where as many as there may be were issued, else
    /// `Refused` as `CertificateParams::signed_by` refuses. The book has room for it before it is
    /// signed, so that no signature is lost for lack of that room. Where memory runs out after the
    /// signature the certificate is lost and isn't counted: the next one is signed with its number
    /// again (RFC 5280, 4.1.2.2).
    pub fn issue<K: PublicKeyData>(
        &mut self,
        key: &K,
        name: DistinguishedName,
        not_before: OffsetDateTime,
        not_after: OffsetDateTime,
    ) -> Result<Issued, AuthorityError>
        ensures ok { IfOk result (λ r. Step (fixed_of S.key S.fits S.may_refuse self.old) (state_of self.old)
            (to_issue (K.key key.now) name (instant not_before) (instant not_after)) (reply.Issued r.serial r.certificate) (state_of self.new)) }
        ensures err { IfErr result (Fails (fixed_of S.key S.fits S.may_refuse self.old) (state_of self.old)
            (to_issue (K.key key.now) name (instant not_before) (instant not_after)) (state_of self.new)) }
        ensures issuer { issuer_of self.new ≡ issuer_of self.old }
        ensures limits { limits_of self.new ≡ limits_of self.old }
    {
        let issued = self.book.issued();
        if issued >= self.limits.certificates {
            return Err(AuthorityError::Full);
        }
        self.book.reserve_certificate()?;
        let serial = issued + 1;
        let certificate = certificate(
            self.alloc,
            serial,
            key,
            name,
            not_before,
            not_after,
            &self.issuer,
        )?;
        self.book.add_certificate()?;
        Ok(Issued {
            serial,
            certificate,
        })
    }

    /// Puts an entry without invalidity date at the end (RFC 5280, 5.1.2.6). `UnknownSerial` where no
    /// certificate has that serial number, else `AlreadyRevoked` where an entry is of it, else
    /// `Refused(Time)` where the time has no form in UTC. Every reason is taken, `RemoveFromCrl` too,
    /// which belongs in delta lists (5.3.1); no entry is ever taken out.
    pub fn revoke(
        &mut self,
        serial: u64,
        time: OffsetDateTime,
        reason: Option<RevocationReason>,
    ) -> Result<(), AuthorityError>
        ensures ok { OnOk result (Step (fixed_of S.key S.fits S.may_refuse self.old) (state_of self.old)
            (to_revoke serial (instant time) reason) (reply.Revoked serial) (state_of self.new)) }
        ensures err { IfErr result (Fails (fixed_of S.key S.fits S.may_refuse self.old) (state_of self.old)
            (to_revoke serial (instant time) reason) (state_of self.new)) }
        ensures issuer { issuer_of self.new ≡ issuer_of self.old }
        ensures limits { limits_of self.new ≡ limits_of self.old }
    {
        if self.book.is_unknown(serial) {
            return Err(AuthorityError::UnknownSerial);
        }
        if self.book.is_revoked(serial) {
            return Err(AuthorityError::AlreadyRevoked);
        }
        if time.utc().is_none() {
            return Err(AuthorityError::Refused(Error::Time));
        }
        self.book.add_entry(self.alloc, serial, time, reason)
    }

    /// The list with the next number and these times, of the entries (RFC 5280, 5). `Full` where as
    /// many as there may be were made, else `Refused` as `CertificateRevocationListParams::signed_by`
    /// refuses. `next_update` is a later instant than `this_update`, and both have a form in UTC;
    /// nothing compares them with those of the lists before, nor with the times of the entries. Where
    /// memory runs out after its signature, the list is lost and its number isn't counted: the next
    /// list is signed with that number again.
    pub fn list(
        &mut self,
        this_update: OffsetDateTime,
        next_update: OffsetDateTime,
    ) -> Result<Listed, AuthorityError>
        ensures ok { IfOk result (λ r. Step (fixed_of S.key S.fits S.may_refuse self.old) (state_of self.old)
            (to_list (instant this_update) (instant next_update)) (reply.Listed r.number r.list) (state_of self.new)) }
        ensures err { IfErr result (Fails (fixed_of S.key S.fits S.may_refuse self.old) (state_of self.old)
            (to_list (instant this_update) (instant next_update)) (state_of self.new)) }
        ensures issuer { issuer_of self.new ≡ issuer_of self.old }
        ensures limits { limits_of self.new ≡ limits_of self.old }
    {
        let lists = self.book.lists();
        if lists >= self.limits.lists {
            return Err(AuthorityError::Full);
        }
        let number = lists + 1;
        let list = self
            .book
            .sign_list(self.alloc, number, this_update, next_update, &self.issuer)?;
        self.book.add_list();
        Ok(Listed { number, list })
    }

    /// Answers a command.
    fn reply(&mut self, command: &Command) -> Result<Reply, OutOfMemory>
        ensures step { IfOk result (λ r. Step (fixed_of S.key S.fits S.may_refuse self.old) (state_of self.old)
            (command_view command.now) r (state_of self.new)) }
        ensures memory { OnErr result (state_of self.new ≡ state_of self.old) }
        ensures issuer { issuer_of self.new ≡ issuer_of self.old }
        ensures limits { limits_of self.new ≡ limits_of self.old }
    {
        match command {
            Command::Issue {
                key,
                name,
                not_before,
                not_after,
            } => {
                let name = name.try_clone(self.alloc)?;
                match self.issue(key, name, *not_before, *not_after) {
                    Ok(issued) => Ok(Reply::Issued {
                        serial: issued.serial,
                        der: Bytes::from_vec(issued.certificate.into_der()),
                    }),
                    Err(e) => refused(e),
                }
            }
            Command::Revoke {
                serial,
                time,
                reason,
            } => match self.revoke(*serial, *time, *reason) {
                Ok(()) => Ok(Reply::Revoked { serial: *serial }),
                Err(e) => refused(e),
            },
            Command::List {
                this_update,
                next_update,
            } => match self.list(*this_update, *next_update) {
                Ok(listed) => Ok(Reply::Listed {
                    number: listed.number,
                    der: Bytes::from_vec(listed.list.into_der()),
                }),
                Err(e) => refused(e),
            },
        }
    }

    /// Answers the commands in their order, a reply each. Where memory runs out, some of the first ones
    /// were answered, and the state is that after them; their replies are lost. There is room for all
    /// replies before the first command.
    pub fn run_all(&mut self, commands: &[Command]) -> Result<SequenceOf<Reply>, OutOfMemory>
        ensures run { IfOk result (λ replies. Run (fixed_of S.key S.fits S.may_refuse self.old) (state_of self.old)
            (map command_view commands.now) replies (state_of self.new)) }
        ensures prefix { OnErr result ((n : ℕ) × (replies : List Reply)
            × Run (fixed_of S.key S.fits S.may_refuse self.old) (state_of self.old) (map command_view (take n commands.now)) replies (state_of self.new)) }
        ensures issuer { issuer_of self.new ≡ issuer_of self.old }
        ensures limits { limits_of self.new ≡ limits_of self.old }
    {
        let mut replies = Vec::with_capacity(self.alloc, commands.len())?;
        for command in commands {
            let reply = self.reply(command)?;
            replies.push(reply)?;
        }
        Ok(SequenceOf::from_vec(replies))
    }
}

impl<S: SigningKey + Drop> Authority<S> {
    /// An authority that goes on from a register, with the next serial number and the next list's
    /// number, as if it had issued, listed and revoked all that itself. The first entry that can't
    /// follow those before it is refused: `UnknownSerial` where it hasn't the eight octets of a
    /// serial number that was issued, else `AlreadyRevoked` where one before is of it, else
    /// `Refused(Time)` where a time of it has no form in UTC. Limits that were reached, or passed, are
    /// taken: then there is no further certificate, or list. It takes a byte for each certificate
    /// that was issued.
    pub fn resume(
        alloc: Global,
        issuer: Issuer<'static, S>,
        limits: Limits,
        register: Register,
    ) -> Result<Authority<S>, AuthorityError>
        ensures issuer { IfOk result (λ a. issuer_of a ≡ issuer.entry) }
        ensures limits { IfOk result (λ a. limits_of a ≡ limits) }
        ensures state { IfOk result (λ a. state_of a ≡ registered register) }
        ensures ok { OnOk result (state_cause (registered register) ≡ None) }
        ensures why { IfErr result (ExplainsRefusal (state_cause (registered register))) }
    {
        let book = Book::resume(alloc, register)?;
        Ok(Authority {
            alloc,
            issuer,
            limits,
            book,
        })
    }
}

/// The parameters of the certificate with that serial number.
fn certificate_params(
    alloc: Global,
    serial: u64,
    name: DistinguishedName,
    not_before: OffsetDateTime,
    not_after: OffsetDateTime,
) -> Result<CertificateParams, Error>
    ensures value { IfOk result (λ params. params_view params ≡ asked_params serial name (instant not_before) (instant not_after)) }
    ensures memory { IfErr result (λ e. e ≡ NoMemory) }
{
    let serial_number = SerialNumber::from_u64(alloc, serial)?;
    let mut params = CertificateParams::default(alloc)?;
    params.not_before = not_before;
    params.not_after = not_after;
    params.serial_number = Some(serial_number);
    params.distinguished_name = name;
    params.is_ca = IsCa::ExplicitNoCa;
    params.use_authority_key_identifier_extension = true;
    Ok(params)
}

/// The certificate with that serial number for the key.
fn certificate<K: PublicKeyData, S: SigningKey>(
    alloc: Global,
    serial: u64,
    key: &K,
    name: DistinguishedName,
    not_before: OffsetDateTime,
    not_after: OffsetDateTime,
    issuer: &Issuer<'static, S>,
) -> Result<Certificate, Error>
    ensures ok { IfOk result (IssuesFor (view_of S.key issuer.now) (S.fits (key_of issuer.now)) (K.key key.now)
        (asked_params serial name (instant not_before) (instant not_after))) }
    ensures why { IfErr result (λ e. OrMemory (RefusesIssue (view_of S.key issuer.now) (S.may_refuse (key_of issuer.now)) (K.key key.now)
        (asked_params serial name (instant not_before) (instant not_after))) (origin_of e)) }
{
    let params = certificate_params(alloc, serial, name, not_before, not_after)?;
    params.signed_by(alloc, key, issuer)
}

/// The reply that a failure is, or lack of memory.
fn refused(e: AuthorityError) -> Result<Reply, OutOfMemory>
    ensures ok { IfOk result (IsReplyFor e) }
    ensures memory { OnErr result (e ≡ failure.OutOfMemory) }
{
    match e {
        AuthorityError::Full => Ok(Reply::Refused(Refusal::Full)),
        AuthorityError::UnknownSerial => Ok(Reply::Refused(Refusal::UnknownSerial)),
        AuthorityError::AlreadyRevoked => Ok(Reply::Refused(Refusal::AlreadyRevoked)),
        AuthorityError::Refused(e) => Ok(Reply::Refused(Refusal::Refused(e))),
        AuthorityError::OutOfMemory => Err(OutOfMemory),
    }
}
