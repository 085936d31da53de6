//! Which list has taken the place of another (RFC 5280, 5.1.2.4, 5.2.3 and 5.2.5).
ghost use Rattle.std.specs.Prelude.{◌≡◌, IfOk, map};
ghost use Rattle.path_revocation.specs.Newer.{have_one_scope, is_as_new_as, is_below, is_older, is_superseded, supersedes};

use crate::delta::{Delta, crl_number, same_contents};
use crate::given::GivenList;
use crate::list::{is_complete, is_current, point_contents};
use crate::signed::same_key;
use crate::time::is_earlier;
use asn1_core::OutOfMemory;
use jiff::civil::DateTime;
use path_names::names_match;
use pkix_cert::{CertificateList, CrlNumber};
use std::alloc::Global;

/// Whether the two have one issuer, one key and one issuing distribution point (RFC 5280, 5.2.5).
#[tactic(auto, unfolding(crate::specs::Newer::have_one_scope))]
fn have_one_scope(a: &GivenList, b: &GivenList) -> bool
    ensures { result ≡ have_one_scope a.now b.now }
{
    let first = &a.list.tbs_cert_list.issuer;
    let second = &b.list.tbs_cert_list.issuer;
    if !names_match(first, second) {
        return false;
    }
    if !same_contents(point_contents(&a.list), point_contents(&b.list)) {
        return false;
    }
    same_key(&a.issuer, &b.issuer)
}

fn is_below(a: &Option<CrlNumber>, b: &Option<CrlNumber>) -> bool
    ensures { result ≡ is_below a.now b.now }
{
    match (a, b) {
        (Some(a), Some(b)) => a.cmp(b).is_lt(),
        _ => false,
    }
}

/// Whether the second is issued later, or at the same time with a higher number (RFC 5280, 5.2.3).
#[tactic(auto, unfolding(crate::specs::Newer::is_older))]
fn is_older(alloc: Global, a: &CertificateList, b: &CertificateList) -> Result<bool, OutOfMemory>
    ensures { IfOk result (λ older. older ≡ is_older a.now b.now) }
{
    let first = a.tbs_cert_list.this_update.moment();
    let second = b.tbs_cert_list.this_update.moment();
    if is_earlier(first, second) {
        return Ok(true);
    }
    if is_earlier(second, first) {
        return Ok(false);
    }
    let first = crl_number(alloc, a)?;
    let second = crl_number(alloc, b)?;
    Ok(is_below(&first, &second))
}

fn is_as_new_as(delta: &Option<Delta>, number: &Option<CrlNumber>) -> bool
    ensures { result ≡ is_as_new_as delta.now number.now }
{
    match (delta, number) {
        (None, _) => true,
        (Some(delta), Some(number)) => delta.number.cmp(number).is_le(),
        _ => false,
    }
}

/// Whether the second takes the place of the first, to which the delta list is applied.
#[tactic(auto, unfolding(crate::specs::Newer::supersedes))]
fn supersedes(
    alloc: Global,
    at: DateTime,
    old: &GivenList,
    delta: &Option<Delta>,
    new: &GivenList,
) -> Result<bool, OutOfMemory>
    ensures { IfOk result (λ b. b ≡ supersedes at old.now delta.now new.now) }
{
    if !is_older(alloc, &old.list, &new.list)? {
        return Ok(false);
    }
    let number = crl_number(alloc, &new.list)?;
    if !is_as_new_as(delta, &number) || !have_one_scope(old, new) {
        return Ok(false);
    }
    Ok(is_complete(&new.list) && is_current(at, &new.list))
}

/// Whether one of the lists takes the place of this one.
#[tactic(auto, unfolding(crate::specs::Newer::is_superseded))]
pub(crate) fn is_superseded(
    alloc: Global,
    sound: &[&GivenList],
    at: DateTime,
    given: &GivenList,
    delta: &Option<Delta>,
) -> Result<bool, OutOfMemory>
    ensures { IfOk result (λ b. b ≡ is_superseded (map (λ g. g.now) sound.now) at given.now delta.now) }
{
    for other in sound {
        if supersedes(alloc, at, given, delta, other)? {
            return Ok(true);
        }
    }
    Ok(false)
}
