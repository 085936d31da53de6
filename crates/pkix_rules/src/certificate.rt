//! The rules that a certificate breaks.
ghost use Rattle.std.specs.Prelude.{◌≡◌, ◌++◌, IfOk, not};
ghost use Rattle.std.specs.List.{list_any};
ghost use Rattle.std.specs.Option.{option_map};
ghost use Rattle.rule_table.specs.Found.{when};
ghost use Rattle.pkix_rules.specs.Certificates.{beside_issuer, certificate_rules, differ, ends_after, ends_paths, has_half, has_serial_of, is_below_path_length, is_empty_id, is_not_below, is_path_beyond, is_self_issued, issuer_key_rules};
ghost use Rattle.pkix_rules.specs.Certificates.{agree, has_key_id_of, is_self_issued_authority, rules_by_issuer};
ghost use Rattle.pkix_rules.specs.Certificates.{has_key_of, has_subject_of, is_withheld, issuer_identity_rules, key_octets, lacks_purpose, name_rules, names_no_key, place_rules, validity_rules};
ghost use Rattle.pkix_rules.specs.Certificates.{issuer_key_id, issuer_rules, issuer_statements, key_id_of, key_id_rules, names_other_key, rules_of, starts_before, statements_of};

use crate::constrained::constrained_rules;
use crate::extension::{extension_at, extensions_in, said_at};
use crate::frame::{frame_rules, is_earlier};
use crate::identifiers::ANY_PURPOSE;
use crate::integer::is_zero;
use crate::issuer::issuer_extension_rules;
use crate::said::{Said, has_purpose, is_authority, key_identifier_in, path_length_in, said_of};
use crate::shared::shared_rules;
use asn1_core::{Integer, OctetString, OutOfMemory};
use der_tree::der;
use pkix_cert::extension_id::ID_CE_SUBJECT_KEY_IDENTIFIER;
use pkix_cert::{
    AuthorityKeyIdentifier, Certificate, ExtKeyUsageSyntax, Extension, KeyIdentifier, KeyPurposeId,
    TbsCertificate,
};
use rule_table::{Rule, add, note};
use std::alloc::Global;
use strict_der::is_strict;

/// What is signed of a certificate, and what its extensions say.
struct Statements {
    tbs: TbsCertificate,
    said: Said,
}

impl Drop for Statements {
    fn drop(self) {
        let Statements { tbs: _, said: _ } = self;
    }
}

/// What a certificate says.
#[tactic(auto, unfolding(crate::specs::Certificates::statements_of))]
fn statements_of(alloc: Global, tbs: TbsCertificate) -> Result<Statements, OutOfMemory>
    ensures { IfOk result (λ s. s ≡ statements_of tbs) }
{
    let said = said_of(alloc, extensions_in(&tbs.extensions))?;
    Ok(Statements { tbs, said })
}

/// The octets of the subject's key.
fn key_octets(tbs: &TbsCertificate) -> &[u8]
    ensures { result.now ≡ key_octets tbs.now }
{
    tbs.subject_public_key_info.subject_public_key.bytes()
}

impl Statements {
    /// Whether its subject is its issuer (RFC 5280, 3.2).
    fn is_self_issued(&self) -> bool
        ensures { result ≡ is_self_issued self.now }
    {
        self.tbs.issuer == self.tbs.subject
    }

    /// Whether the identifier of its issuer's key is missing.
    fn names_no_key(&self) -> bool
        ensures { result ≡ names_no_key self.now }
    {
        key_identifier_in(&self.said.authority_key_id).is_none()
    }

    fn starts_before(&self, issuer: &Statements) -> bool
        ensures { result ≡ starts_before self.now issuer.now }
    {
        is_earlier(
            &self.tbs.validity.not_before,
            &issuer.tbs.validity.not_before,
        )
    }

    fn ends_after(&self, issuer: &Statements) -> bool
        ensures { result ≡ ends_after self.now issuer.now }
    {
        is_earlier(&issuer.tbs.validity.not_after, &self.tbs.validity.not_after)
    }

    /// Whether it is an authority below one under which none is that isn't self-issued.
    fn is_below_path_length(&self, issuer: &Statements) -> bool
        ensures { result ≡ is_below_path_length self.now issuer.now }
    {
        ends_paths(&issuer.said) && is_authority(&self.said.constraints) && !self.is_self_issued()
    }

    /// Whether it is an authority that says a path length which its issuer's doesn't leave.
    fn is_path_beyond(&self, issuer: &Statements) -> bool
        ensures { result ≡ is_path_beyond self.now issuer.now }
    {
        !self.is_self_issued()
            && is_not_below(
                path_length_in(&self.said.constraints),
                path_length_in(&issuer.said.constraints),
            )
    }

    /// Whether it has the serial number of its issuer's certificate, which that issuer signed too.
    fn has_serial_of(&self, issuer: &Statements) -> bool
        ensures { result ≡ has_serial_of self.now issuer.now }
    {
        issuer.is_self_issued() && self.tbs.serial_number == issuer.tbs.serial_number
    }

    /// Whether it has its issuer's name, and isn't an authority.
    fn has_subject_of(&self, issuer: &Statements) -> bool
        ensures { result ≡ has_subject_of self.now issuer.now }
    {
        self.tbs.subject == issuer.tbs.subject && !is_authority(&self.said.constraints)
    }

    /// Whether it has its issuer's key.
    fn has_key_of(&self, issuer: &Statements) -> bool
        ensures { result ≡ has_key_of self.now issuer.now }
    {
        key_octets(&self.tbs) == key_octets(&issuer.tbs)
    }

    /// Whether it is an authority with its issuer's name and another key.
    fn is_self_issued_authority(&self, issuer: &Statements) -> bool
        ensures { result ≡ is_self_issued_authority self.now issuer.now }
    {
        self.is_self_issued() && is_authority(&self.said.constraints) && !self.has_key_of(issuer)
    }

    /// Whether it has the identifier of its issuer's key, for another key.
    fn has_key_id_of(&self, issuer: &Statements) -> bool
        ensures { result ≡ has_key_id_of self.now issuer.now }
    {
        let same = agree(
            self.said.subject_key_id.as_ref(),
            issuer.said.subject_key_id.as_ref(),
        );
        same && !self.has_key_of(issuer)
    }

    /// Whether it names another key than its issuer's certificate does.
    fn names_other_key(&self, issuer: &Statements) -> bool
        ensures { result ≡ names_other_key self.now issuer.now }
    {
        differ(
            key_identifier_in(&self.said.authority_key_id),
            issuer.said.subject_key_id.as_ref(),
        )
    }
}

/// Whether the issuer has purposes, not any one, and not this one.
fn is_withheld(purpose: &KeyPurposeId, issuer: &Option<ExtKeyUsageSyntax>) -> bool
    ensures { result ≡ is_withheld issuer.now purpose.now }
{
    issuer.is_some() && !has_purpose(issuer, ANY_PURPOSE) && !has_purpose(issuer, purpose.arcs())
}

fn has_withheld(purposes: &[KeyPurposeId], issuer: &Option<ExtKeyUsageSyntax>) -> bool
    ensures { result ≡ list_any (is_withheld issuer.now) purposes.now }
{
    purposes.iter().any(|purpose| is_withheld(purpose, issuer))
}

/// Whether one of the purposes isn't one that the issuer has.
fn lacks_purpose(own: &Option<ExtKeyUsageSyntax>, issuer: &Option<ExtKeyUsageSyntax>) -> bool
    ensures { result ≡ lacks_purpose own.now issuer.now }
{
    match own {
        None => false,
        Some(purposes) => has_withheld(purposes.as_slice(), issuer),
    }
}

fn ends_paths(said: &Said) -> bool
    ensures { result ≡ ends_paths said.now }
{
    match path_length_in(&said.constraints) {
        None => false,
        Some(length) => is_zero(length),
    }
}

fn is_not_below(own: Option<&Integer>, issuers: Option<&Integer>) -> bool
    ensures { result ≡ is_not_below (option_map (λ n. n.now) own.entry) (option_map (λ n. n.now) issuers.entry) }
{
    match (own, issuers) {
        (Some(own), Some(issuers)) => !is_zero(issuers) && !own.cmp(issuers).is_lt(),
        _ => false,
    }
}

/// Whether both are there, and not the same.
pub(crate) fn differ(a: Option<&OctetString>, b: Option<&OctetString>) -> bool
    ensures { result ≡ differ (option_map (λ n. n.now) a.entry) (option_map (λ n. n.now) b.entry) }
{
    match (a, b) {
        (Some(a), Some(b)) => a.as_slice() != b.as_slice(),
        _ => false,
    }
}

/// Whether both are there, and the same.
fn agree(a: Option<&OctetString>, b: Option<&OctetString>) -> bool
    ensures { result ≡ agree (option_map (λ n. n.now) a.entry) (option_map (λ n. n.now) b.entry) }
{
    match (a, b) {
        (Some(a), Some(b)) => a.as_slice() == b.as_slice(),
        _ => false,
    }
}

/// Of its validity beside its issuer's.
#[tactic(auto, unfolding(crate::specs::Certificates::validity_rules))]
fn validity_rules(
    alloc: Global,
    own: &Statements,
    issuer: &Option<Statements>,
) -> Result<Vec<Rule>, OutOfMemory>
    ensures { IfOk result (λ v. v.items ≡ validity_rules own.now issuer.now) }
{
    let mut found = Vec::new(alloc);
    let Some(issuer) = issuer else {
        return Ok(found);
    };
    let starts = own.starts_before(issuer);
    note(&mut found, Rule::StartsBeforeIssuer, starts)?;
    note(&mut found, Rule::EndsAfterIssuer, own.ends_after(issuer))?;
    Ok(found)
}

/// Of its place below its issuer; where that isn't given, of one whose issuer is another than its subject.
#[tactic(auto, unfolding(crate::specs::Certificates::place_rules))]
fn place_rules(
    alloc: Global,
    own: &Statements,
    issuer: &Option<Statements>,
) -> Result<Vec<Rule>, OutOfMemory>
    ensures { IfOk result (λ v. v.items ≡ place_rules own.now issuer.now) }
{
    let mut found = Vec::new(alloc);
    let Some(issuer) = issuer else {
        let lacks = own.names_no_key() && !own.is_self_issued();
        note(&mut found, Rule::NoAuthorityKeyId, lacks)?;
        return Ok(found);
    };
    let below = own.is_below_path_length(issuer);
    note(&mut found, Rule::BelowPathLength, below)?;
    note(&mut found, Rule::NoAuthorityKeyId, own.names_no_key())?;
    Ok(found)
}

/// Of a certificate beside its issuer's.
#[tactic(auto, unfolding(crate::specs::Certificates::issuer_rules))]
fn issuer_rules(
    alloc: Global,
    own: &Statements,
    issuer: &Option<Statements>,
) -> Result<Vec<Rule>, OutOfMemory>
    ensures { IfOk result (λ v. v.items ≡ issuer_rules own.now issuer.now) }
{
    let mut found = validity_rules(alloc, own, issuer)?;
    let others = place_rules(alloc, own, issuer)?;
    add(&mut found, others)?;
    Ok(found)
}

/// Of its key and path beside its issuer's.
#[tactic(auto, unfolding(crate::specs::Certificates::issuer_key_rules))]
fn issuer_key_rules(
    alloc: Global,
    own: &Statements,
    issuer: &Option<Statements>,
) -> Result<Vec<Rule>, OutOfMemory>
    ensures { IfOk result (λ v. v.items ≡ issuer_key_rules own.now issuer.now) }
{
    let mut found = Vec::new(alloc);
    let Some(issuer) = issuer else {
        return Ok(found);
    };
    note(&mut found, Rule::SerialOfIssuer, own.has_serial_of(issuer))?;
    note(
        &mut found,
        Rule::AuthorityKeyIdDiffers,
        own.names_other_key(issuer),
    )?;
    note(
        &mut found,
        Rule::PathLengthBeyondIssuer,
        own.is_path_beyond(issuer),
    )?;
    Ok(found)
}

/// Of its subject, key and purposes beside its issuer's.
#[tactic(auto, unfolding(crate::specs::Certificates::issuer_identity_rules))]
fn issuer_identity_rules(
    alloc: Global,
    own: &Statements,
    issuer: &Option<Statements>,
) -> Result<Vec<Rule>, OutOfMemory>
    ensures { IfOk result (λ v. v.items ≡ issuer_identity_rules own.now issuer.now) }
{
    let mut found = Vec::new(alloc);
    let Some(issuer) = issuer else {
        return Ok(found);
    };
    let purpose = lacks_purpose(&own.said.purposes, &issuer.said.purposes);
    note(&mut found, Rule::PurposeBeyondIssuer, purpose)?;
    note(
        &mut found,
        Rule::SubjectOfIssuer,
        own.has_subject_of(issuer),
    )?;
    note(
        &mut found,
        Rule::SelfIssuedAuthority,
        own.is_self_issued_authority(issuer),
    )?;
    note(
        &mut found,
        Rule::KeyOfIssuer,
        !own.is_self_issued() && own.has_key_of(issuer),
    )?;
    note(&mut found, Rule::KeyIdOfIssuer, own.has_key_id_of(issuer))?;
    Ok(found)
}

/// Of its names beside the constraints of its issuer's, which don't apply to an authority that issues itself.
#[tactic(auto, unfolding(crate::specs::Certificates::name_rules))]
fn name_rules(
    alloc: Global,
    own: &Statements,
    issuer: &Option<Statements>,
) -> Result<Vec<Rule>, OutOfMemory>
    ensures { IfOk result (λ v. v.items ≡ name_rules own.now issuer.now) }
{
    let Some(issuer) = issuer else {
        return Ok(Vec::new(alloc));
    };
    if own.is_self_issued() && is_authority(&own.said.constraints) {
        return Ok(Vec::new(alloc));
    }
    let found = constrained_rules(
        alloc,
        &own.tbs.subject,
        extensions_in(&own.tbs.extensions),
        extensions_in(&issuer.tbs.extensions),
    )?;
    Ok(found)
}

/// Whether it is there and has no octets.
pub(crate) fn is_empty_id(id: Option<&OctetString>) -> bool
    ensures { result ≡ is_empty_id (option_map (λ n. n.now) id.entry) }
{
    match id {
        None => false,
        Some(id) => id.as_slice().is_empty(),
    }
}

/// Whether the issuer's names are there without its serial number, or the other way round.
fn has_half(id: &Option<AuthorityKeyIdentifier>) -> bool
    ensures { result ≡ has_half id.now }
{
    match id {
        None => false,
        Some(id) => {
            let issuer = id.authority_cert_issuer.is_some();
            let serial = id.authority_cert_serial_number.is_some();
            (issuer && !serial) || (serial && !issuer)
        }
    }
}

/// Of the identifiers of keys.
#[tactic(auto, unfolding(crate::specs::Certificates::key_id_rules))]
fn key_id_rules(
    alloc: Global,
    extensions: &[Extension],
    said: &Said,
) -> Result<Vec<Rule>, OutOfMemory>
    ensures { IfOk result (λ v. v.items ≡ key_id_rules extensions.now said.now) }
{
    let has_id = extension_at(extensions, ID_CE_SUBJECT_KEY_IDENTIFIER).is_some();
    let lacks = is_authority(&said.constraints) && !has_id;
    let mut found = Vec::new(alloc);
    note(&mut found, Rule::CaWithoutSubjectKeyId, lacks)?;
    let subject = is_empty_id(said.subject_key_id.as_ref());
    note(&mut found, Rule::EmptySubjectKeyId, subject)?;
    let authority = is_empty_id(key_identifier_in(&said.authority_key_id));
    note(&mut found, Rule::EmptyAuthorityKeyId, authority)?;
    note(
        &mut found,
        Rule::AuthoritySerialAlone,
        has_half(&said.authority_key_id),
    )?;
    Ok(found)
}

/// Of what its issuer's certificate has.
#[tactic(auto, unfolding(crate::specs::Certificates::rules_by_issuer))]
fn rules_by_issuer(alloc: Global, issuer: &Option<Statements>) -> Result<Vec<Rule>, OutOfMemory>
    ensures { IfOk result (λ v. v.items ≡ rules_by_issuer issuer.now) }
{
    let Some(issuer) = issuer else {
        return Ok(Vec::new(alloc));
    };
    issuer_extension_rules(alloc, extensions_in(&issuer.tbs.extensions))
}

/// Of its key, path, subject, purposes and names beside its issuer's.
#[tactic(auto, unfolding(crate::specs::Certificates::beside_issuer))]
fn beside_issuer(
    alloc: Global,
    own: &Statements,
    issuer: &Option<Statements>,
) -> Result<Vec<Rule>, OutOfMemory>
    ensures { IfOk result (λ v. v.items ≡ beside_issuer own.now issuer.now) }
{
    let mut found = issuer_key_rules(alloc, own, issuer)?;
    let others = issuer_identity_rules(alloc, own, issuer)?;
    add(&mut found, others)?;
    let others = rules_by_issuer(alloc, issuer)?;
    add(&mut found, others)?;
    let others = name_rules(alloc, own, issuer)?;
    add(&mut found, others)?;
    Ok(found)
}

/// The rules that a certificate breaks, in order.
#[tactic(auto, unfolding(crate::specs::Certificates::rules_of))]
fn rules_of(
    alloc: Global,
    own: &Statements,
    issuer: &Option<Statements>,
) -> Result<Vec<Rule>, OutOfMemory>
    ensures { IfOk result (λ v. v.items ≡ rules_of own.now issuer.now) }
{
    let extensions = extensions_in(&own.tbs.extensions);
    let mut found = issuer_rules(alloc, own, issuer)?;
    let key = &own.tbs.subject_public_key_info;
    let others = shared_rules(alloc, &own.tbs.subject, extensions, &own.said, key)?;
    add(&mut found, others)?;
    let others = frame_rules(alloc, &own.tbs)?;
    add(&mut found, others)?;
    let others = key_id_rules(alloc, extensions, &own.said)?;
    add(&mut found, others)?;
    let others = beside_issuer(alloc, own, issuer)?;
    add(&mut found, others)?;
    Ok(found)
}

/// These, and whether its octets are strict DER.
fn all_rules_of(
    alloc: Global,
    own: &Statements,
    issuer: &Option<Statements>,
    strict: bool,
) -> Result<Vec<Rule>, OutOfMemory>
    ensures { IfOk result (λ v. v.items ≡ rules_of own.now issuer.now ++ when (not strict) Rule.NotStrictDer) }
{
    let mut found = rules_of(alloc, own, issuer)?;
    note(&mut found, Rule::NotStrictDer, !strict)?;
    Ok(found)
}

/// The identifier of a certificate's key.
fn key_id_of(alloc: Global, certificate: &Certificate) -> Result<Option<KeyIdentifier>, OutOfMemory>
    ensures { IfOk result (λ o. o ≡ key_id_of certificate.now) }
{
    let extensions = extensions_in(&certificate.tbs_certificate.extensions);
    said_at(alloc, extensions, ID_CE_SUBJECT_KEY_IDENTIFIER)
}

/// What the issuer's certificate says, where it is there and can be read.
#[tactic(auto, unfolding(crate::specs::Certificates::issuer_statements))]
fn issuer_statements(
    alloc: Global,
    issuer: Option<&[u8]>,
) -> Result<Option<Statements>, OutOfMemory>
    ensures { IfOk result (λ o. o ≡ issuer_statements (option_map (λ octets. octets.now) issuer.entry)) }
{
    let Some(octets) = issuer else {
        return Ok(None);
    };
    let certificate: Option<Certificate> = der::value_of(alloc, octets)?;
    match certificate {
        None => Ok(None),
        Some(certificate) => Ok(Some(statements_of(alloc, certificate.tbs_certificate)?)),
    }
}

/// The identifier of the key of the issuer's certificate, where both are there and can be read.
#[tactic(auto, unfolding(crate::specs::Certificates::issuer_key_id))]
pub(crate) fn issuer_key_id(
    alloc: Global,
    issuer: Option<&[u8]>,
) -> Result<Option<KeyIdentifier>, OutOfMemory>
    ensures { IfOk result (λ o. o ≡ issuer_key_id (option_map (λ octets. octets.now) issuer.entry)) }
{
    let Some(octets) = issuer else {
        return Ok(None);
    };
    let certificate: Option<Certificate> = der::value_of(alloc, octets)?;
    let Some(certificate) = certificate else {
        return Ok(None);
    };
    let id = key_id_of(alloc, &certificate)?;
    Ok(id)
}

/// The rules that the certificate breaks of which `message` is the DER of what is to be signed (RFC 5280, 4.1.2), in order, beside its
/// issuer's, of which the DER is given; None where the subject issues itself or its issuer isn't known. Octets that can't be read break none.
#[tactic(auto, unfolding(crate::specs::Certificates::certificate_rules))]
pub fn certificate_rules(
    alloc: Global,
    message: &[u8],
    issuer: Option<&[u8]>,
) -> Result<Vec<Rule>, OutOfMemory>
    ensures { IfOk result (λ w. w.items ≡ certificate_rules message.now (option_map (λ octets. octets.now) issuer.entry)) }
{
    let tbs: Option<TbsCertificate> = der::value_of(alloc, message)?;
    let Some(tbs) = tbs else {
        return Ok(Vec::new(alloc));
    };
    let own = statements_of(alloc, tbs)?;
    let issuer = issuer_statements(alloc, issuer)?;
    let found = all_rules_of(alloc, &own, &issuer, is_strict(message))?;
    Ok(found)
}
