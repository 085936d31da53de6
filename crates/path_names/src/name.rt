//! Names that are one (RFC 5280, 7.1).
ghost use Rattle.std.specs.Prelude.{◌≡◌, true};
ghost use Rattle.std.specs.Cmp.{IsEquivalence};
ghost use Rattle.std.specs.Cmp.Lexicographic.{pointwise};
ghost use Rattle.pkix_name.specs.declared.name.Name.{Name};
ghost use Rattle.path_names.specs.NameMatching.{are_decided, is_below_name, is_decided_below, is_defined_part, names_match, rdns_match, rdns_of};

use crate::attribute::{has_each, have_defined_values};
use pkix_name::{Name, RelativeDistinguishedName};

fn rdns_match(a: &RelativeDistinguishedName, b: &RelativeDistinguishedName) -> bool
    ensures { result ≡ rdns_match a.now b.now }
{
    let (a, b) = (a.0.as_slice(), b.0.as_slice());
    a.len() == b.len() && has_each(a, b) && has_each(b, a)
}

/// Whether there are as many of either, which match in their order.
fn all_match(rdns: &[RelativeDistinguishedName], others: &[RelativeDistinguishedName]) -> bool
    ensures { result ≡ pointwise rdns_match rdns.now others.now }
{
    let mut rest = others;
    for rdn in rdns {
        match rest {
            [other, behind @ ..] if rdns_match(rdn, other) => rest = behind,
            _ => return false,
        }
    }
    rest.is_empty()
}

fn rdns_of(name: &Name) -> &[RelativeDistinguishedName]
    ensures { result.now ≡ rdns_of name.now }
{
    match name {
        Name::RdnSequence(rdns) => rdns.as_slice(),
    }
}

/// Whether two names are one: they have as many parts, and these match in their order (RFC 5280,
/// 7.1). Texts are compared as RFC 4518 prepares them, without case, and with spaces where words are
/// apart, if they are known to be in NFKC when they are mapped; any other value by its octets.
///
/// A part of n attributes is compared with one of m in n × m steps, so the time is at most the
/// product of the octets of the two names, and linear where each part has one attribute.
pub fn names_match(a: &Name, b: &Name) -> bool
    ensures { result ≡ names_match a.now b.now }
{
    all_match(rdns_of(a), rdns_of(b))
}

/// Whether the name is in the subtree of the base: the base's parts match its first ones (RFC
/// 5280, 7.1).
pub(crate) fn is_below_name(name: &Name, base: &Name) -> bool
    ensures { result ≡ is_below_name name.now base.now }
{
    let (name, base) = (rdns_of(name), rdns_of(base));
    base.len() <= name.len() && all_match(&name[..base.len()], base)
}

fn is_defined_part(rdn: &RelativeDistinguishedName) -> bool
    ensures { result ≡ is_defined_part rdn.now }
{
    have_defined_values(rdn.0.as_slice())
}

fn are_decided(rdns: &[RelativeDistinguishedName], base: &[RelativeDistinguishedName]) -> bool
    ensures { result ≡ are_decided rdns.now base.now }
{
    let mut rest = base;
    for rdn in rdns {
        let [other, behind @ ..] = rest else {
            return true;
        };
        if !rdns_match(rdn, other) {
            return is_defined_part(rdn) && is_defined_part(other);
        }
        rest = behind;
    }
    true
}

/// Whether it is known that the name is in the subtree of the base, or that it isn't: it has no text
/// that can't be prepared in the first part that doesn't match the base's, nor has the base there.
pub(crate) fn is_decided_below(name: &Name, base: &Name) -> bool
    ensures { result ≡ is_decided_below name.now base.now }
{
    are_decided(rdns_of(name), rdns_of(base))
}

/// Each name is one with itself, with another exactly where that is one with it, and with all names
/// that one of its own is one with.
pub fn names_match_is_equivalence()
    ensures { IsEquivalence names_match }
{}

/// Each name is in the subtree of which it is the base.
pub fn name_is_below_itself()
    ensures { (name : Name) → is_below_name name name ≡ true }
{}
