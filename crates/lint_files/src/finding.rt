//! What is wrong with blocks.
ghost use Rattle.std.specs.Prelude.{◌≡◌, ◌++◌, IfOk, OnOk, map};
ghost use Rattle.std.specs.Option.{option_map};
ghost use Rattle.std.specs.List.{list_any};
ghost use Rattle.lint_files.specs.Held.{issuer_by};
ghost use Rattle.lint_files.specs.Findings.{block_findings, broken, broken_rules, differing, findings_in, findings_of, has_error, is_error, issuer_of, located, not_read, of_artefact, passed_over};

use crate::artefact::{Artefact, Naming, artefact_of};
use crate::issuers::{Issuers, is_large};
use crate::kind::{Kind, kind_of};
use asn1_core::OutOfMemory;
use pem::Block;
use pkix_rules::{
    attribute_certificate_rules, certificate_rules, list_rules, public_key_rules, request_rules,
};
use rule_table::Rule;
use std::alloc::Global;
use std::marker::Model;

/// What is wrong with a block.
#[derive(Clone, Copy, Debug, PartialEq, Eq)]
pub enum Finding {
    /// It breaks a rule.
    Broken(Rule),
    /// No rules are known for its label, or a file that is DER is nothing that has rules.
    OtherLabel,
    /// Its octets aren't a certificate, as its label says.
    NotCertificate,
    NotRequest,
    NotList,
    NotAttributeCertificate,
    NotPublicKey,
    /// The algorithm beside what is signed isn't the one within it (RFC 5280, 4.1.1.2 and 5.1.1.2; RFC 5755, 4.2.4).
    AlgorithmsDiffer,
    /// It is too large for a certificate that is looked at as an issuer's.
    LargeCertificate,
}

/// What is wrong with the block of this number, from 1, that has this label.
#[derive(Drop)]
pub struct Located<'a> {
    pub number: usize,
    pub label: &'a [u8],
    pub finding: Finding,
}

impl<'a> Model for Located<'a> {
    ghost use Rattle.lint_files.specs.Locations.{LocatedView};

    ghost Value = { LocatedView };

    ghost view = { λ l. record { number = l.number; label = l.label.now; finding = l.finding } };
}

/// The rules that what is signed breaks, beside its issuer's certificate.
#[tactic(auto, unfolding(crate::specs::Findings::broken_rules))]
fn broken_rules(
    alloc: Global,
    kind: Kind,
    signed: &[u8],
    issuer: Option<&[u8]>,
) -> Result<Vec<Rule>, OutOfMemory>
    ensures { IfOk result (λ rules. rules.items ≡ broken_rules kind signed.now (option_map (λ octets. octets.now) issuer.entry)) }
{
    match kind {
        Kind::Certificate => certificate_rules(alloc, signed, issuer),
        Kind::Request => request_rules(alloc, signed),
        Kind::List => list_rules(alloc, signed, issuer),
        Kind::AttributeCertificate => attribute_certificate_rules(alloc, signed, issuer),
        Kind::PublicKey => public_key_rules(alloc, signed),
        Kind::Other => Ok(Vec::new(alloc)),
    }
}

/// That the octets aren't what the label says.
fn not_read(kind: Kind) -> Finding
    ensures { result ≡ not_read kind }
{
    match kind {
        Kind::Certificate => Finding::NotCertificate,
        Kind::Request => Finding::NotRequest,
        Kind::List => Finding::NotList,
        Kind::AttributeCertificate => Finding::NotAttributeCertificate,
        Kind::PublicKey => Finding::NotPublicKey,
        Kind::Other => Finding::OtherLabel,
    }
}

fn push_broken(found: &mut Vec<Finding>, rules: &[Rule]) -> Result<(), OutOfMemory>
    ensures { OnOk result (found.new.items ≡ found.old.items ++ map broken rules.now) }
{
    for rule in rules {
        found.push(Finding::Broken(*rule))?;
    }
    Ok(())
}

/// Where the algorithms differ, that they do.
fn differing(alloc: Global, differs: bool) -> Result<Vec<Finding>, OutOfMemory>
    ensures { IfOk result (λ found. found.items ≡ differing differs) }
{
    let mut found = Vec::new(alloc);
    if differs {
        found.push(Finding::AlgorithmsDiffer)?;
    }
    Ok(found)
}

/// The octets of the certificate of who is named, where it is there.
fn issuer_of<'a>(
    alloc: Global,
    issuers: &Issuers<'a>,
    naming: &Option<Naming<'_>>,
) -> Result<Option<&'a [u8]>, OutOfMemory>
    ensures { IfOk result (λ o. option_map (λ octets. octets.now) o ≡ issuer_of (issuer_by issuers.now) naming.now) }
{
    match naming {
        None => Ok(None),
        Some(naming) => issuers.of(alloc, naming),
    }
}

/// Of what a block is.
#[tactic(auto, unfolding(crate::specs::Findings::of_artefact))]
fn of_artefact(
    alloc: Global,
    issuers: &Issuers<'_>,
    kind: Kind,
    artefact: &Artefact<'_>,
) -> Result<Vec<Finding>, OutOfMemory>
    ensures { IfOk result (λ found. found.items ≡ of_artefact (issuer_by issuers.now) kind artefact.now) }
{
    let issuer = issuer_of(alloc, issuers, &artefact.issuer)?;
    let rules = broken_rules(alloc, kind, artefact.signed, issuer)?;
    let mut found = differing(alloc, artefact.differs)?;
    push_broken(&mut found, &rules)?;
    Ok(found)
}

/// Where a certificate is too large, that it isn't looked at as an issuer's.
fn push_passed_over(found: &mut Vec<Finding>, large: bool) -> Result<(), OutOfMemory>
    ensures { OnOk result (found.new.items ≡ found.old.items ++ passed_over large) }
{
    if large {
        found.push(Finding::LargeCertificate)?;
    }
    Ok(())
}

/// Of octets that are to be of a kind.
#[tactic(auto, unfolding(crate::specs::Findings::findings_of))]
fn findings_of(
    alloc: Global,
    issuers: &Issuers<'_>,
    kind: Kind,
    octets: &[u8],
) -> Result<Vec<Finding>, OutOfMemory>
    ensures { IfOk result (λ found. found.items ≡ findings_of (issuer_by issuers.now) kind octets.now) }
{
    let artefact = artefact_of(alloc, kind, octets)?;
    match &artefact {
        None => {
            let mut found = Vec::new(alloc);
            found.push(not_read(kind))?;
            Ok(found)
        }
        Some(artefact) => {
            let mut found = of_artefact(alloc, issuers, kind, artefact)?;
            push_passed_over(&mut found, is_large(kind, octets))?;
            Ok(found)
        }
    }
}

/// Of a block.
#[tactic(auto, unfolding(crate::specs::Findings::block_findings))]
fn block_findings(
    alloc: Global,
    issuers: &Issuers<'_>,
    block: &Block,
) -> Result<Vec<Finding>, OutOfMemory>
    ensures { IfOk result (λ found. found.items ≡ block_findings (issuer_by issuers.now) block.now) }
{
    findings_of(alloc, issuers, kind_of(block.label()), block.octets())
}

fn push_located<'a>(
    found: &mut Vec<Located<'a>>,
    number: usize,
    label: &'a [u8],
    findings: &[Finding],
) -> Result<(), OutOfMemory>
    ensures { OnOk result (found.new.items ≡ found.old.items ++ located number label.now findings.now) }
{
    for finding in findings {
        found.push(Located {
            number,
            label,
            finding: *finding,
        })?;
    }
    Ok(())
}

/// What is wrong with each of the blocks, in order, beside the certificates of issuers among them.
pub fn findings_in<'a>(alloc: Global, blocks: &'a [Block]) -> Result<Vec<Located<'a>>, OutOfMemory>
    ensures { IfOk result (λ found. found.items ≡ findings_in blocks.now) }
{
    let issuers = Issuers::among(alloc, blocks)?;
    let mut found = Vec::new(alloc);
    let mut number = 0usize;
    for block in blocks {
        number += 1;
        let findings = block_findings(alloc, &issuers, block)?;
        push_located(&mut found, number, block.label(), &findings)?;
    }
    Ok(found)
}

/// Whether it isn't a warning.
pub(crate) fn is_error(finding: Finding) -> bool
    ensures { result ≡ is_error finding }
{
    match finding {
        Finding::Broken(rule) => rule_texts::is_error(rule),
        Finding::LargeCertificate => false,
        _ => true,
    }
}

/// Whether one of them isn't a warning.
#[tactic(auto, unfolding(crate::specs::Findings::has_error))]
pub fn has_error(found: &[Located<'_>]) -> bool
    ensures { result ≡ has_error found.now }
{
    found.iter().any(|located| is_error(located.finding))
}
