//! Seconds since 1970 and civil times in UTC.
ghost use Rattle.std.specs.Prelude.{◌≡◌, true};
ghost use Rattle.asn1_core.specs.Moment.{has_utc, instant};
ghost use Rattle.jiff.specs.Words.{civil_seconds};
ghost use Rattle.register_lines.specs.Times.{IsCivilTime, has_year, nanoseconds};

use asn1_core::OffsetDateTime;
use jiff::civil::DateTime;

/// The second in which a civil time in UTC lies, in seconds since 1970.
pub fn second_of(at: DateTime) -> i64
    ensures { result ≡ civil_seconds at }
{
    at.to_plain().to_second()
}

/// Whether the year of so many seconds since 1970 is one from 0 to 9999.
#[tactic(auto, unfolding(crate::specs::Times::has_year))]
pub fn has_year(seconds: i64) -> bool
    ensures { result ≡ has_year seconds }
{
    -62_167_219_200 <= seconds && seconds <= 253_402_300_799
}

fn nanoseconds(seconds: i64) -> i128
    ensures { result ≡ nanoseconds seconds }
{
    i128::from(seconds) * 1_000_000_000
}

fn instant_at(seconds: i64) -> OffsetDateTime
    requires { has_year seconds ≡ true }
    ensures { instant result ≡ nanoseconds seconds }
{
    let at = jiff_core::civil::DateTime::from_nanosecond_in_range(nanoseconds(seconds));
    OffsetDateTime::new(DateTime::from_plain(at), 0).unwrap()
}

/// The moment so many seconds after the start of 1970, in UTC.
pub fn moment_at(seconds: i64) -> OffsetDateTime
    requires { has_year seconds ≡ true }
    ensures moment { instant result ≡ nanoseconds seconds }
    ensures utc { has_utc result ≡ true }
{
    let moment = instant_at(seconds);
    moment
}

/// The civil time in UTC of that moment.
pub(crate) fn civil_at(seconds: i64) -> DateTime
    requires { has_year seconds ≡ true }
    ensures { IsCivilTime seconds result }
{
    match moment_at(seconds).utc() {
        Some(at) => at,
        None => unreachable!(),
    }
}
