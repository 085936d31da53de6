ghost use Rattle.std.specs.Prelude.{◌≡◌, ◌<◌, ◌≤◌, ◌*◌, ◌+◌, ◌^◌, ◌++◌, IfOk, IfSome, OnOk};
ghost use Rattle.std.specs.Option.{option_map};
ghost use Rattle.std.proofs.Common.{rules};
ghost use Rattle.asn1_core.specs.GeneralizedTime.{fraction_digits, fraction_of, fraction, nanoseconds_of, generalized_time_contents};

use crate::error::OutOfMemory;
use crate::time::{civil, is_z, ten_at, twelve_digits, two_at};
use crate::try_clone::TryClone;
use jiff::civil::DateTime;
use std::alloc::{AllocError, Global};

/// A GeneralizedTime: a civil time in UTC, to the nanosecond. Its contents octets carry the years 0
/// to 9999 alone (X.690, 11.7).
#[derive(Clone, Copy, Debug, PartialEq, Eq, PartialOrd, Ord, Hash)]
pub struct GeneralizedTime {
    pub at: DateTime,
}

const PLACES: u32 = 9;

fn push_fraction(contents: &mut Vec<u8>, nanosecond: u32) -> Result<(), AllocError>
    requires { nanosecond < 1_000_000_000 }
    ensures { OnOk result (contents.new.items ≡ contents.old.items ++ fraction nanosecond) }
{
    if nanosecond == 0 {
        return Ok(());
    }
    contents.push(b'.')?;
    let mut places = PLACES;
    let mut left = nanosecond;
    while left != 0 {
        places -= 1;
        let weight = 10u32.pow(places);
        contents.push(b'0' + (left / weight) as u8)?;
        left %= weight;
    }
    Ok(())
}

// `places` are how many digits may still come before the Z.
#[tactic(auto, unfolding(crate::specs::GeneralizedTime::fraction_of))]
fn fraction_of(places: u32, bytes: &[u8]) -> Option<u32>
    requires { places ≤ 9 }
    ensures value { result ≡ fraction_of places bytes.now }
    ensures below { IfSome result (λ n. n < 10 ^ places) }
{
    if is_z(bytes) {
        return Some(0);
    }
    let [digit, rest @ ..] = bytes else {
        return None;
    };
    if places == 0 || !digit.is_ascii_digit() {
        return None;
    }
    let low = fraction_of(places - 1, rest)?;
    let fraction = u32::from(*digit - b'0') * 10u32.pow(places - 1) + low;
    if fraction == 0 { None } else { Some(fraction) }
}

#[tactic(auto, unfolding(crate::specs::GeneralizedTime::nanoseconds_of))]
fn nanoseconds_of(bytes: &[u8]) -> Option<u32>
    ensures value { result ≡ nanoseconds_of bytes.now }
    ensures below { IfSome result (λ n. n < 1_000_000_000) }
{
    if is_z(bytes) {
        return Some(0);
    }
    let [b'.', rest @ ..] = bytes else {
        return None;
    };
    match fraction_of(PLACES, rest)? {
        0 => None,
        nanoseconds => Some(nanoseconds),
    }
}

impl GeneralizedTime {
    /// The contents octets `YYYYMMDDHHMMSSZ`, with a point and the fraction of the second before
    /// the Z exactly where it isn't 0, and no zero at its end (X.690, 11.7). None where the year is
    /// before 0.
    #[tactic(auto, unfolding(crate::specs::GeneralizedTime::generalized_time_contents))]
    pub fn to_contents(&self, alloc: Global) -> Result<Option<Vec<u8>>, OutOfMemory>
        ensures { IfOk result (λ o. option_map (λ v. v.items) o
            ≡ generalized_time_contents.to self.now) }
    {
        let year = self.at.year();
        if year < 0 {
            return Ok(None);
        }
        let century = (year / 100) as u8;
        let mut contents = Vec::from_slice(alloc, &[b'0' + century / 10, b'0' + century % 10])?;
        contents.extend_from_slice(&twelve_digits(self.at))?;
        push_fraction(&mut contents, self.at.subsec_nanosecond() as u32)?;
        contents.push(b'Z')?;
        Ok(Some(contents))
    }

    /// The time that has these contents octets. None where no GeneralizedTime has them.
    #[tactic(auto, unfolding(crate::specs::GeneralizedTime::generalized_time_contents))]
    pub fn from_contents(contents: &[u8]) -> Option<GeneralizedTime>
        ensures { result ≡ generalized_time_contents.of contents.now }
    {
        let (century, rest) = two_at(contents)?;
        let (year, rest) = two_at(rest)?;
        let (parts, rest) = ten_at(rest)?;
        let nanosecond = nanoseconds_of(rest)?;
        let at = civil(
            u16::from(century) * 100 + u16::from(year),
            parts,
            nanosecond,
        )?;
        Some(GeneralizedTime { at })
    }
}

impl TryClone for GeneralizedTime {
    ghost copies_are_equal = { Prim.search rules };
}
