ghost use Rattle.std.specs.Prelude.{◌≡◌, ◌<◌, ◌≤◌, ◌^◌, true, None, IfOk, IfSome, IsErrOf};
ghost use Rattle.std.specs.Option.{option_map};
ghost use Rattle.std.proofs.Common.{rules};
ghost use Rattle.asn1_core.specs.Arcs.{is_oid};
ghost use Rattle.asn1_core.specs.Dotted.{arcs_from, arcs_of_text, text_arcs, text_fault, with_digit};
ghost use Rattle.asn1_core.specs.OidFaults.{MakesIdentifier, arcs_fault};

use crate::object_identifier::{ObjectIdentifier, OidFault, fault_of};
use crate::try_clone::TryClone;
use std::alloc::{AllocError, Global};

/// A borrowed object identifier (X.660, 7.6). The order is that of the lists of arcs.
#[derive(Clone, Copy, Debug, PartialEq, Eq, PartialOrd, Ord, Hash)]
pub struct Oid<'a> {
    arcs: &'a [u32],
    ghost valid: { is_oid arcs.now ≡ true },
}

impl<'a> TryClone for Oid<'a> {
    ghost copies_are_equal = { Prim.search rules };
}

impl<'a> Oid<'a> {
    ghost use Rattle.asn1_core.specs.Oids.{arcs_in};

    /// The identifier of these arcs.
    pub fn new(arcs: &'a [u32]) -> Result<Oid<'a>, OidFault>
        ensures made { MakesIdentifier arcs_in arcs.now (arcs_fault arcs.now) result }
        ensures memory { ¬ (IsErrOf result OidFault.OutOfMemory) }
    {
        match fault_of(arcs) {
            None => Ok(Oid { arcs }),
            Some(fault) => Err(fault),
        }
    }

    /// From the root down.
    pub fn arcs(&self) -> &'a [u32]
        ensures arcs { result.now ≡ arcs_in self.now }
        ensures valid { is_oid result.now ≡ true }
    {
        self.arcs
    }

    /// The identifier of a text: at most one leading period, then arcs in decimal, joined by single
    /// periods; an arc may have leading zeros. `BadText` comes first, then `ArcTooLarge`, then the
    /// faults of `new`.
    pub fn parse(alloc: Global, text: &str) -> Result<ObjectIdentifier, OidFault>
        ensures { MakesIdentifier (λ id. id) (text_arcs text.now) (text_fault text.now) result }
    {
        match arcs_of_text(alloc, text.as_bytes())? {
            Some(arcs) => ObjectIdentifier::from_u64(alloc, arcs.as_slice()),
            None => Err(OidFault::BadText),
        }
    }
}

/// The number with a digit after it; 2^32 represents each greater one.
#[tactic(auto, unfolding(crate::specs::Dotted::with_digit))]
fn with_digit(number: Option<u64>, digit: u8) -> u64
    requires bound { IfSome number (λ n. n ≤ 2 ^ 32) }
    requires digit { digit < 10 }
    ensures value { result ≡ with_digit number digit }
    ensures bound { result ≤ 2 ^ 32 }
{
    (10 * number.unwrap_or(0) + u64::from(digit)).min(1 << 32)
}

/// The arcs of a text without the leading period.
#[tactic(auto, using(crate::proofs::Dotted::reading))]
fn arcs_of(alloc: Global, text: &[u8]) -> Result<Option<Vec<u64>>, AllocError>
    ensures { IfOk result (λ found. option_map (λ arcs. arcs.items) found ≡ arcs_from None text.now) }
{
    let mut arcs = Vec::new(alloc);
    let mut number = None;
    let mut rest = text;
    while let [byte, after @ ..] = rest {
        match *byte {
            b'.' => {
                let Some(arc) = number else {
                    return Ok(None);
                };
                arcs.push(arc)?;
                number = None;
            }
            digit @ b'0'..=b'9' => number = Some(with_digit(number, digit - b'0')),
            _ => return Ok(None),
        }
        rest = after;
    }
    match number {
        Some(arc) => {
            arcs.push(arc)?;
            Ok(Some(arcs))
        }
        None => Ok(None),
    }
}

/// The arcs of a text.
#[tactic(auto, unfolding(crate::specs::Dotted::arcs_of_text))]
fn arcs_of_text(alloc: Global, text: &[u8]) -> Result<Option<Vec<u64>>, AllocError>
    ensures { IfOk result (λ found. option_map (λ arcs. arcs.items) found ≡ arcs_of_text text.now) }
{
    match text {
        [b'.', rest @ ..] => arcs_of(alloc, rest),
        _ => arcs_of(alloc, text),
    }
}
