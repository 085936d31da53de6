//! The parts of a request, a CRL and an attribute certificate, as they are in its octets.
ghost use Rattle.std.specs.Prelude.{◌≡◌};
ghost use Rattle.std.specs.Option.{option_map};
ghost use Rattle.der_tree.specs.Windows.{shown};
ghost use Rattle.lint_files.specs.Parts.{attribute_parts, issuer_name, list_parts, signed_part, without_version};

use asn1_core::Tag;
use der_tree::{Fields, Window, one_window};
use std::marker::Model;

/// Octets of what is signed: the whole of it, the algorithm beside it and the one within it, and the name of its issuer, headers included.
#[derive(Drop)]
pub(crate) struct Parts<'a> {
    pub(crate) signed: &'a [u8],
    pub(crate) algorithm: &'a [u8],
    pub(crate) inner: &'a [u8],
    pub(crate) issuer: Option<&'a [u8]>,
}

impl<'a> Model for Parts<'a> {
    ghost use Rattle.std.specs.Option.{option_map};
    ghost use Rattle.lint_files.specs.PartViews.{PartsView};

    ghost Value = { PartsView };

    ghost view = { λ p. record {
      signed = p.signed.now;
      algorithm = p.algorithm.now;
      inner = p.inner.now;
      issuer = option_map (λ name. name.now) p.issuer;
    } };
}

/// The octets that are signed: the first element within the outer one, header included.
#[tactic(auto, unfolding(crate::specs::Parts::signed_part))]
pub(crate) fn signed_part(octets: &[u8]) -> Option<&[u8]>
    ensures { option_map (λ part. part.now) result ≡ signed_part octets.now }
{
    let (signed, _) = one_window(octets)?.fields()?.first()?;
    Some(signed.whole())
}

/// The elements after the version, where that is written.
fn without_version<'a>(fields: Fields<'a>) -> Fields<'a>
    ensures { result ≡ without_version fields.entry }
{
    let Some((first, rest)) = fields.first() else {
        return fields;
    };
    if first.tag() == Tag::INTEGER {
        rest
    } else {
        fields
    }
}

/// The parts of a CRL (RFC 5280, 5.1).
#[tactic(auto, unfolding(crate::specs::Parts::list_parts))]
pub(crate) fn list_parts<'a>(octets: &'a [u8]) -> Option<Parts<'a>>
    ensures { result ≡ list_parts octets.now }
{
    let (signed, rest) = one_window(octets)?.fields()?.first()?;
    let (algorithm, _) = rest.first()?;
    let (inner, rest) = without_version(signed.fields()?).first()?;
    let (issuer, _) = rest.first()?;
    Some(Parts {
        signed: signed.whole(),
        algorithm: algorithm.whole(),
        inner: inner.whole(),
        issuer: Some(issuer.whole()),
    })
}

/// The name of the issuer of an attribute certificate, where its first name is a directory name (RFC 5755, 4.2.3).
#[tactic(auto, unfolding(crate::specs::Parts::issuer_name))]
fn issuer_name<'a>(issuer: Window<'a>) -> Option<&'a [u8]>
    ensures { option_map (λ name. name.now) result ≡ issuer_name (shown issuer.entry) }
{
    let (names, _) = issuer.fields()?.first()?;
    let (name, _) = names.fields()?.first()?;
    if name.tag() != Tag::CONTEXT_4 {
        return None;
    }
    let (directory, _) = name.fields()?.first()?;
    Some(directory.whole())
}

/// The parts of an attribute certificate (RFC 5755, 4.1).
#[tactic(auto, unfolding(crate::specs::Parts::attribute_parts))]
pub(crate) fn attribute_parts<'a>(octets: &'a [u8]) -> Option<Parts<'a>>
    ensures { result ≡ attribute_parts octets.now }
{
    let (signed, rest) = one_window(octets)?.fields()?.first()?;
    let (algorithm, _) = rest.first()?;
    let (_version, rest) = signed.fields()?.first()?;
    let (_holder, rest) = rest.first()?;
    let (issuer, rest) = rest.first()?;
    let (inner, _) = rest.first()?;
    Some(Parts {
        signed: signed.whole(),
        algorithm: algorithm.whole(),
        inner: inner.whole(),
        issuer: issuer_name(issuer),
    })
}
