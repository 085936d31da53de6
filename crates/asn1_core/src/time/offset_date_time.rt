ghost use Rattle.std.specs.Prelude.{◌≡◌, ◌↔◌, true, pos, neg_ℤ, ◌+ℤ◌, ◌*ℤ◌, is_some, MatchOption};
ghost use Rattle.jiff.specs.Words.{IsCivilNanos, IsDate, IsOffsetSeconds, IsBetween, IsYmd, civil_nanos, time_nanos};
ghost use Rattle.jiff.specs.Types.{DateTime as Plain};
ghost use Rattle.std.specs.Ordering.{int_eq, int_cmp, on, as_partial_cmp};
ghost use Rattle.std.specs.Cmp.{partial_order_from_own_ties};
ghost use Rattle.std.specs.Cmp.Rules.{comparing};
ghost use Rattle.std.proofs.Common.{rules};
ghost use Rattle.asn1_core.specs.Moment.{IsUtc, has_utc, instant, same_instant};

use crate::try_clone::TryClone;
use jiff::civil::{Date, DateTime, Time};
use std::cmp::Ordering;
use std::marker::Model;

/// A civil time and how far its clock is ahead of UTC. Equality and order are those of the instants,
/// to the nanosecond.
#[derive(Clone, Copy, Debug)]
pub struct OffsetDateTime {
    local: DateTime,
    offset_seconds: i32,
}

impl Model for OffsetDateTime {
    ghost use Rattle.asn1_core.specs.Moment.{Moment};
    ghost use Rattle.jiff.specs.Words.{IsOffsetSeconds};

    ghost Value = { Moment };

    ghost view = { λ a. record { local = a.local; offset_seconds = a.offset_seconds } };

    ghost inverse = { λ m. record { local = m.local; offset_seconds = m.offset_seconds } };

    ghost invariant = { λ a. IsOffsetSeconds a.offset_seconds };
}

fn shift(offset_seconds: i32) -> i128
    requires { IsOffsetSeconds offset_seconds }
    ensures { result ≡ neg_ℤ (offset_seconds *ℤ pos 1_000_000_000) }
{
    -(i128::from(offset_seconds) * 1_000_000_000)
}

fn moved(at: DateTime, nanoseconds: i128) -> Option<DateTime>
    ensures { MatchOption result
        (¬ (IsCivilNanos (civil_nanos at +ℤ nanoseconds)))
        (λ t. civil_nanos t ≡ (civil_nanos at +ℤ nanoseconds)) }
{
    match at.to_plain().checked_add_nanos(nanoseconds) {
        Ok(moved) => Some(DateTime::from_plain(moved)),
        Err(_) => None,
    }
}

impl OffsetDateTime {
    /// None exactly where the offset is more than 25:59:59 from UTC.
    pub fn new(local: DateTime, offset_seconds: i32) -> Option<OffsetDateTime>
        ensures { MatchOption result (¬ (IsOffsetSeconds offset_seconds))
            (λ m. (m.local ≡ local) × (m.offset_seconds ≡ offset_seconds)
            × IsOffsetSeconds offset_seconds) }
    {
        if offset_seconds < -93_599 || offset_seconds > 93_599 {
            return None;
        }
        Some(OffsetDateTime {
            local,
            offset_seconds,
        })
    }

    /// Midnight of a date in UTC. None exactly where the calendar has no such date, or its year is
    /// outside -9999 to 9999.
    pub fn ymd(year: i32, month: u8, day: u8) -> Option<OffsetDateTime>
        ensures { MatchOption result (¬ (IsDate year (pos month) (pos day)))
            (λ m. IsYmd year (pos month) (pos day) m.local.date × (time_nanos m.local.time ≡ 0)
            × (m.offset_seconds ≡ pos 0)) }
    {
        let year = i16::try_from(year).ok()?;
        let month = i8::try_from(month).ok()?;
        let day = i8::try_from(day).ok()?;
        match Date::new(year, month, day) {
            Ok(date) => OffsetDateTime::new(DateTime::from_parts(date, Time::midnight()), 0),
            Err(_) => None,
        }
    }

    /// The civil time that the clock shows.
    pub fn local(&self) -> DateTime
        ensures { result ≡ self.now.local }
    {
        self.local
    }

    /// How many seconds the clock is ahead of UTC.
    pub fn offset_seconds(&self) -> i32
        ensures value { result ≡ self.now.offset_seconds }
        ensures bound { IsOffsetSeconds result }
    {
        self.offset_seconds
    }

    /// The civil time of the same moment in UTC. None exactly where its year isn't from 0 to 9999.
    pub fn utc(&self) -> Option<DateTime>
        ensures value { MatchOption result ((at : Plain) → ¬ (IsUtc self.now at)) (IsUtc self.now) }
        ensures some { is_some result ≡ has_utc self.now }
    {
        let utc = moved(self.local, shift(self.offset_seconds))?;
        if utc.year() < 0 {
            return None;
        }
        Some(utc)
    }
}

/// A moment has a civil time in UTC exactly where it lies in the years 0 to 9999 there.
pub fn has_utc_exactly(moment: &OffsetDateTime)
    ensures { (has_utc moment.now ≡ true) ↔ ((at : Plain) × IsUtc moment.now at) }
{
    let _found = moment.utc();
}

fn instant(moment: &OffsetDateTime) -> i128
    ensures { result ≡ instant moment.now }
{
    moment.local.to_plain().to_nanosecond() + shift(moment.offset_seconds)
}

impl TryClone for OffsetDateTime {
    ghost copies_are_equal = { Prim.search rules };
}

impl PartialEq for OffsetDateTime {
    ghost eq = { same_instant };

    ghost laws = { Prim.search (comparing, rules) };

    fn eq(&self, other: &OffsetDateTime) -> bool {
        instant(self) == instant(other)
    }
}

impl Eq for OffsetDateTime {
    ghost laws = { Prim.search (comparing, rules) };
}

impl PartialOrd for OffsetDateTime {
    ghost partial_cmp = { as_partial_cmp (on instant int_cmp) };

    ghost laws = { partial_order_from_own_ties (Prim.search (comparing, rules)) (Prim.search (comparing, rules)) };

    fn partial_cmp(&self, other: &OffsetDateTime) -> Option<Ordering> {
        Some(self.cmp(other))
    }
}

impl Ord for OffsetDateTime {
    ghost cmp = { on instant int_cmp };

    ghost total = { Prim.search (comparing, rules) };

    ghost matches_partial_cmp = { Prim.search (comparing, rules) };

    ghost matches_eq = { Prim.search (comparing, rules) };

    fn cmp(&self, other: &OffsetDateTime) -> Ordering {
        instant(self).cmp(&instant(other))
    }
}
