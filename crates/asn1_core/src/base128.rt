ghost use Rattle.std.specs.Prelude.{◌≡◌, ◌^◌, ◌*◌, ◌+◌, ◌≤◌, ◌<◌, ◌++◌, length, vec_len, vec_capacity, Some, None, IfSome, OnOk, OnErr};
ghost use Rattle.std.specs.Option.{option_map};
ghost use Rattle.asn1_core.specs.Base128.{digits, base128, digits_at, base128_at};

use crate::error::OutOfMemory;
use crate::out::Out;
use crate::steps::Steps;
use std::sync::ledger::Ledger;

#[tactic(auto, unfolding(crate::specs::Base128::digits_at))]
fn digits_at(limit: u64, bytes: &[u8]) -> Option<(u64, &[u8])>
    requires { limit ≤ 2 ^ 50 }
    ensures value { option_map (λ x. (x.0, x.1.now)) result ≡ digits_at limit 0 bytes.now }
    ensures below { IfSome result (λ x. x.0 < limit * 128) }
{
    let mut high: u64 = 0;
    let mut rest = bytes;
    while let [b, after @ ..] = rest {
        if high >= limit {
            return None;
        }
        if *b < 128 {
            return Some((high * 128 + u64::from(*b), after));
        }
        high = high * 128 + u64::from(*b - 128);
        rest = after;
    }
    None
}

/// The number at the front in base 128, shortest, and the bytes after it (X.690, 8.1.2.4.2 and
/// 8.19.2). None where the bytes end within it, where it begins with a zero digit, and where it is
/// `limit * 128` or more.
#[tactic(auto, unfolding(crate::specs::Base128::base128_at))]
pub(crate) fn base128_at(limit: u64, bytes: &[u8]) -> Option<(u64, &[u8])>
    requires { limit ≤ 2 ^ 50 }
    ensures value { option_map (λ x. (x.0, x.1.now)) result ≡ base128_at limit bytes.now }
    ensures below { IfSome result (λ x. x.0 < limit * 128) }
{
    match bytes {
        [] => None,
        [128, ..] => None,
        _ => digits_at(limit, bytes),
    }
}

#[tactic(auto, using(crate::proofs::Digits::writing))]
fn push_digits(contents: &mut Vec<u8>, number: u64)
    requires number { number < 2 ^ 63 }
    requires room { vec_len contents.old + length (digits 128 128 9 number) ≤ vec_capacity contents.old }
    ensures items { contents.new.items ≡ contents.old.items ++ digits 128 128 9 number }
    ensures capacity { vec_capacity contents.old ≤ vec_capacity contents.new }
{
    if number == 0 {
        return;
    }
    push_digits(contents, number / 128);
    contents.push(128 + (number % 128) as u8).unwrap();
}

/// The most octets that a `u64` takes in base 128.
const MOST_OCTETS: usize = 10;

/// Puts the number in base 128, shortest, after the bytes (X.690, 8.1.2.4.2 and 8.19.2).
#[tactic(auto, using(crate::proofs::Digits::room))]
pub(crate) fn push_base128(contents: &mut Vec<u8>, number: u64) -> Result<(), OutOfMemory>
    ensures ok { OnOk result (contents.new.items ≡ contents.old.items ++ base128 number) }
    ensures err { OnErr result (contents.new.items ≡ contents.old.items) }
{
    contents.reserve(MOST_OCTETS)?;
    push_digits(contents, number / 128);
    contents.push((number % 128) as u8).unwrap();
    Ok(())
}

#[tactic(auto, using(crate::proofs::Digits::putting))]
fn put_digits<L: Ledger>(out: &mut Out, number: u64, steps: &mut Steps<L>)
    requires number { number < 2 ^ 63 }
    requires room { length out.old.items + length (digits 128 128 9 number) ≤ out.old.room }
    ensures items { out.new.items ≡ out.old.items ++ digits 128 128 9 number }
    ensures room { out.new.room ≡ out.old.room }
    ensures moved { out.new.moved ≡ out.old.moved }
    ensures steps { steps.new ≡ steps.old + length (digits 128 128 9 number) }
{
    if number == 0 {
        return;
    }
    put_digits(out, number / 128, steps);
    out.put(128 + (number % 128) as u8, steps);
}

/// Puts the number in base 128, shortest, after the octets (X.690, 8.1.2.4.2).
#[tactic(auto, using(crate::proofs::Digits::room))]
pub fn put_base128<L: Ledger>(out: &mut Out, number: u64, steps: &mut Steps<L>)
    requires { length out.old.items + length (base128 number) ≤ out.old.room }
    ensures items { out.new.items ≡ out.old.items ++ base128 number }
    ensures room { out.new.room ≡ out.old.room }
    ensures moved { out.new.moved ≡ out.old.moved }
    ensures steps { steps.new ≡ steps.old + length (base128 number) }
{
    put_digits(out, number / 128, steps);
    out.put((number % 128) as u8, steps);
}

#[tactic(auto, using(crate::proofs::Digits::counting))]
fn digits_len(number: u64) -> usize
    requires { number < 2 ^ 63 }
    ensures value { result ≡ length (digits 128 128 9 number) }
    ensures most { result ≤ 9 }
{
    if number == 0 {
        return 0;
    }
    digits_len(number / 128) + 1
}

/// How many octets the number takes in base 128.
#[tactic(auto, using(crate::proofs::Digits::counting))]
pub fn base128_len(number: u64) -> usize
    ensures value { result ≡ length (base128 number) }
    ensures most { result ≤ 10 }
{
    digits_len(number / 128) + 1
}
