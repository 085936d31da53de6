ghost use Rattle.std.specs.Prelude.{◌≡◌, pos, MatchResult};
ghost use Rattle.jiff.specs.Words.{IsDate};
ghost use Rattle.rcgen_text.specs.Dates.{IsMidnight};
ghost use Rattle.rcgen_text.specs.declared.error.Error.TheVariants.{Time};

use crate::error::Error;
use asn1_core::OffsetDateTime;

/// Midnight of a date in UTC. `Time` exactly where the calendar has no such date, or its year is
/// outside -9999 to 9999.
pub fn date_time_ymd(year: i32, month: u8, day: u8) -> Result<OffsetDateTime, Error>
    ensures { MatchResult result (IsMidnight year month day)
        (λ e. (e ≡ Time) × ¬ (IsDate year (pos month) (pos day))) }
{
    OffsetDateTime::ymd(year, month, day).ok_or(Error::Time)
}
