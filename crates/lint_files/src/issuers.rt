//! The certificates of a list of blocks by their subjects and the identifiers of their keys.
ghost use Rattle.std.specs.Prelude.{◌≡◌, ◌++◌, IfOk, OnOk, map};
ghost use Rattle.std.specs.Ordering.{is_eq};
ghost use Rattle.std.specs.declared.cmp.Ordering.TheVariants.{Equal};
ghost use Rattle.std.specs.Option.{option_map};
ghost use Rattle.std.specs.List.{flat_map};
ghost use Rattle.lint_files.specs.Issuers.{any_key, candidate_in, candidate_of, candidates_in, if_same, in_list, is_candidate, is_large, issuer_among, key_of, or_else};
ghost use Rattle.lint_files.specs.Firsts.{first_at, with_other_key};
ghost use Rattle.lint_files.specs.Held.{issuer_by};
ghost use Rattle.lint_files.specs.declared.index_key.IndexKey.{IndexKey};

use crate::artefact::Naming;
use crate::extension::own_key;
use crate::index_key::IndexKey;
use crate::kind::{Kind, kind_of};
use asn1_core::{OctetString, OutOfMemory, copied};
use der_tree::der;
use pem::Block;
use pkix_cert::{Certificate, CertificateView};
use std::alloc::Global;
use std::collections::BTreeMap;
use std::marker::Model;

/// How many octets a certificate may have that is looked at as an issuer's: 64 KiB.
const MOST_OCTETS: usize = 65_536;

/// A certificate that may be an issuer's: the octets of its subject, the identifier of its key, where that is there, and its octets.
pub(crate) struct Candidate<'a> {
    subject: &'a [u8],
    key: Option<OctetString>,
    octets: &'a [u8],
}

impl<'a> Model for Candidate<'a> {
    ghost use Rattle.lint_files.specs.Candidates.{CandidateView};

    ghost Value = { CandidateView };

    ghost view = { λ c. record { subject = c.subject.now; key = c.key; octets = c.octets.now } };
}

impl<'a> Drop for Candidate<'a> {
    fn drop(self) {
        let Candidate {
            subject: _,
            key: _,
            octets: _,
        } = self;
    }
}

/// A certificate of these octets.
#[tactic(auto, unfolding(crate::specs::Issuers::candidate_of))]
fn candidate_of<'a>(alloc: Global, octets: &'a [u8]) -> Result<Option<Candidate<'a>>, OutOfMemory>
    ensures { IfOk result (λ c. c ≡ candidate_of octets.now) }
{
    let certificate: Option<Certificate> = der::value_of(alloc, octets)?;
    let Some(certificate) = certificate else {
        return Ok(None);
    };
    let Some(view) = CertificateView::new(octets) else {
        return Ok(None);
    };
    let key = own_key(alloc, &certificate.tbs_certificate.extensions)?;
    Ok(Some(Candidate {
        subject: view.subject(),
        key,
        octets,
    }))
}

/// Whether a block of this kind is looked at as an issuer's certificate.
fn is_candidate(kind: Kind, octets: &[u8]) -> bool
    ensures { result ≡ is_candidate kind octets.now }
{
    match kind {
        Kind::Certificate => octets.len() <= MOST_OCTETS,
        _ => false,
    }
}

/// Whether a block of this kind is too large for that.
pub(crate) fn is_large(kind: Kind, octets: &[u8]) -> bool
    ensures { result ≡ is_large kind octets.now }
{
    match kind {
        Kind::Certificate => octets.len() > MOST_OCTETS,
        _ => false,
    }
}

/// The certificate of a block, where it is one.
#[tactic(auto, unfolding(crate::specs::Issuers::candidate_in))]
fn candidate_in<'a>(alloc: Global, block: &'a Block) -> Result<Option<Candidate<'a>>, OutOfMemory>
    ensures { IfOk result (λ c. c ≡ candidate_in block.now) }
{
    if !is_candidate(kind_of(block.label()), block.octets()) {
        return Ok(None);
    }
    candidate_of(alloc, block.octets())
}

fn push_optional<'a>(
    found: &mut Vec<Candidate<'a>>,
    candidate: Option<Candidate<'a>>,
) -> Result<(), OutOfMemory>
    ensures { OnOk result (found.new.items ≡ found.old.items ++ in_list candidate.entry) }
{
    if let Some(candidate) = candidate {
        found.push(candidate)?;
    }
    Ok(())
}

/// The certificates of blocks, in their order.
fn candidates_in<'a>(alloc: Global, blocks: &'a [Block]) -> Result<Vec<Candidate<'a>>, OutOfMemory>
    ensures { IfOk result (λ cs. cs.items ≡ candidates_in blocks.now) }
{
    let mut found = Vec::new(alloc);
    for block in blocks {
        push_optional(&mut found, candidate_in(alloc, block)?)?;
    }
    Ok(found)
}

/// A law: what an order doesn't distinguish is equal.
fn ties_are_equal<K: Ord>()
    ensures { (x y : K) → is_eq (K.cmp x y) ≡ K.eq x y }
{}

/// A law: values that an order doesn't distinguish it distinguishes from the same values.
fn ties_are_alike<K: Ord>()
    ensures { (x y z : K) → K.cmp x y ≡ Equal → K.cmp x z ≡ K.cmp y z }
{}

/// Under which any certificate of the subject is looked for.
fn any_key(alloc: Global, subject: &[u8]) -> Result<IndexKey, OutOfMemory>
    ensures { IfOk result (λ k. k ≡ any_key subject.now) }
{
    let subject = OctetString::new(Vec::from_slice(alloc, subject)?);
    Ok(IndexKey {
        subject,
        is_any: true,
        key: None,
    })
}

/// Under which one of the subject is looked for that has this identifier of its key, or none.
fn key_of(alloc: Global, subject: &[u8], key: &Option<OctetString>) -> Result<IndexKey, OutOfMemory>
    ensures { IfOk result (λ k. k ≡ key_of subject.now key.now) }
{
    let subject = OctetString::new(Vec::from_slice(alloc, subject)?);
    let key = match key {
        None => None,
        Some(key) => Some(copied(key)?),
    };
    Ok(IndexKey {
        subject,
        is_any: false,
        key,
    })
}

/// Puts the octets under the key, unless others are there.
fn put<'a>(
    firsts: &mut BTreeMap<IndexKey, &'a [u8]>,
    key: IndexKey,
    octets: &'a [u8],
) -> Result<(), OutOfMemory>
    ensures { OnOk result ((q : IndexKey) → first_at firsts.new q ≡ or_else (first_at firsts.old q) (if_same key q octets.now)) }
{
    ties_are_equal::<IndexKey>();
    ties_are_alike::<IndexKey>();
    if firsts.contains_key(&key) {
        return Ok(());
    }
    firsts.insert(key, octets)?;
    Ok(())
}

/// Puts a certificate under its two keys.
fn put_candidate<'a>(
    alloc: Global,
    firsts: &mut BTreeMap<IndexKey, &'a [u8]>,
    candidate: &Candidate<'a>,
) -> Result<(), OutOfMemory>
    ensures { OnOk result ((q : IndexKey) → first_at firsts.new q
        ≡ or_else (or_else (first_at firsts.old q) (if_same (any_key candidate.now.subject) q candidate.now.octets))
        (if_same (key_of candidate.now.subject candidate.now.key) q candidate.now.octets)) }
{
    let any = any_key(alloc, candidate.subject)?;
    let own = key_of(alloc, candidate.subject, &candidate.key)?;
    put(firsts, any, candidate.octets)?;
    put(firsts, own, candidate.octets)?;
    Ok(())
}

/// Who issued what is asked about.
#[derive(Drop)]
pub(crate) struct Issuers<'a> {
    firsts: BTreeMap<IndexKey, &'a [u8]>,
}

/// The first certificates under each key.
fn indexed<'a>(alloc: Global, candidates: &[Candidate<'a>]) -> Result<Issuers<'a>, OutOfMemory>
    ensures { IfOk result (λ issuers. issuer_by issuers ≡ issuer_among candidates.now) }
{
    let mut firsts = BTreeMap::new(alloc);
    for candidate in candidates {
        put_candidate(alloc, &mut firsts, candidate)?;
    }
    Ok(Issuers { firsts })
}

impl<'a> Issuers<'a> {
    /// Those of the blocks.
    pub(crate) fn among(alloc: Global, blocks: &'a [Block]) -> Result<Issuers<'a>, OutOfMemory>
        ensures { IfOk result (λ issuers. issuer_by issuers ≡ issuer_among (candidates_in blocks.now)) }
    {
        let candidates = candidates_in(alloc, blocks)?;
        indexed(alloc, candidates.as_slice())
    }

    /// The octets of a certificate of the name without an identifier of its key, else those of any, where another key is taken too.
    fn with_other_key(
        &self,
        alloc: Global,
        name: &[u8],
        by_name: bool,
    ) -> Result<Option<&'a [u8]>, OutOfMemory>
        ensures { IfOk result (λ o. option_map (λ octets. octets.now) o ≡ with_other_key (first_at self.now.firsts) name.now by_name) }
    {
        let keyless = key_of(alloc, name, &None)?;
        if let Some(octets) = self.firsts.get(&keyless).copied() {
            return Ok(Some(octets));
        }
        if !by_name {
            return Ok(None);
        }
        let any = any_key(alloc, name)?;
        Ok(self.firsts.get(&any).copied())
    }

    /// The octets of the certificate of who is named, where it is there.
    pub(crate) fn of(
        &self,
        alloc: Global,
        naming: &Naming<'_>,
    ) -> Result<Option<&'a [u8]>, OutOfMemory>
        ensures { IfOk result (λ o. option_map (λ octets. octets.now) o ≡ issuer_by self.now naming.now) }
    {
        let exact = match &naming.key {
            None => any_key(alloc, naming.name)?,
            Some(_) => key_of(alloc, naming.name, &naming.key)?,
        };
        if let Some(octets) = self.firsts.get(&exact).copied() {
            return Ok(Some(octets));
        }
        if naming.key.is_none() {
            return Ok(None);
        }
        let other = self.with_other_key(alloc, naming.name, naming.by_name)?;
        Ok(other)
    }
}
