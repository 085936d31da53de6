ghost use Rattle.std.specs.Prelude.{◌≡◌, ◌<◌, ◌≤◌, IfOk};
ghost use Rattle.std.specs.Option.{option_map};
ghost use Rattle.std.proofs.Common.{rules};
ghost use Rattle.asn1_core.specs.UtcTime.{is_utc_time_year, full_year, utc_time_contents};

use crate::error::OutOfMemory;
use crate::time::{civil, is_z, ten_at, twelve_digits, two_at};
use crate::try_clone::TryClone;
use jiff::civil::DateTime;
use std::alloc::Global;

/// A UTCTime: a civil time in UTC. Its contents octets carry the seconds of the years 1950 to 2049
/// alone (X.690, 11.8; RFC 5280, 4.1.2.5.1).
#[derive(Clone, Copy, Debug, PartialEq, Eq, PartialOrd, Ord, Hash)]
pub struct UtcTime {
    pub at: DateTime,
}

/// Whether a UTCTime carries the year: 1950 to 2049 (RFC 5280, 4.1.2.5.1).
pub fn has_utc_time_year(at: DateTime) -> bool
    ensures { result ≡ is_utc_time_year at }
{
    1950 <= at.year() && at.year() <= 2049
}

fn full_year(short: u8) -> u16
    requires { short < 100 }
    ensures value { result ≡ full_year short }
    ensures bound { result ≤ 9999 }
{
    if short < 50 {
        2000 + u16::from(short)
    } else {
        1900 + u16::from(short)
    }
}

impl UtcTime {
    /// The contents octets `YYMMDDHHMMSSZ` (X.690, 11.8). None where the year isn't from 1950 to
    /// 2049, or the time has a fraction of a second.
    #[tactic(auto, unfolding(crate::specs::UtcTime::utc_time_contents))]
    pub fn to_contents(&self, alloc: Global) -> Result<Option<Vec<u8>>, OutOfMemory>
        ensures { IfOk result (λ o. option_map (λ v. v.items) o ≡ utc_time_contents.to self.now) }
    {
        if !has_utc_time_year(self.at) || self.at.subsec_nanosecond() != 0 {
            return Ok(None);
        }
        let mut contents = Vec::from_slice(alloc, &twelve_digits(self.at))?;
        contents.push(b'Z')?;
        Ok(Some(contents))
    }

    /// The time that has these contents octets. None where no UTCTime has them.
    #[tactic(auto, unfolding(crate::specs::UtcTime::utc_time_contents))]
    pub fn from_contents(contents: &[u8]) -> Option<UtcTime>
        ensures { result ≡ utc_time_contents.of contents.now }
    {
        let (year, rest) = two_at(contents)?;
        let (parts, rest) = ten_at(rest)?;
        if !is_z(rest) {
            return None;
        }
        let at = civil(full_year(year), parts, 0)?;
        Some(UtcTime { at })
    }
}

impl TryClone for UtcTime {
    ghost copies_are_equal = { Prim.search rules };
}
