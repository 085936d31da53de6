//! The times, by the parts of the calendar and the clock, and in decimal digits.
ghost use Rattle.std.specs.Prelude.{◌≡◌, ◌<◌, ◌≤◌, IfSome};
ghost use Rattle.std.specs.Option.{option_map};
ghost use Rattle.asn1_core.specs.TwoDigits.{two_at};
ghost use Rattle.asn1_core.specs.Civil.{ten_at, civil, IsShort};
ghost use Rattle.asn1_core.specs.UtcTime.{twelve_digits, is_z};

mod generalized_time;
mod offset_date_time;
mod utc_time;
mod written;

pub use generalized_time::GeneralizedTime;
use jiff::civil::DateTime;
pub use offset_date_time::{OffsetDateTime, has_utc_exactly};
pub use utc_time::{UtcTime, has_utc_time_year};
pub use written::{whole_seconds, written_is_carried, written_once};

// What follows the year, before it is known whether the calendar has it.
#[derive(Clone, Copy)]
struct MonthToSecond {
    month: u8,
    day: u8,
    hour: u8,
    minute: u8,
    second: u8,
}

#[tactic(auto, unfolding(crate::specs::TwoDigits::two_at))]
fn two_at(bytes: &[u8]) -> Option<(u8, &[u8])>
    ensures value { option_map (λ x. (x.0, x.1.now)) result ≡ two_at bytes.now }
    ensures below { IfSome result (λ x. x.0 < 100) }
{
    match bytes {
        [a, b, rest @ ..] if a.is_ascii_digit() && b.is_ascii_digit() => {
            Some(((*a - b'0') * 10 + (*b - b'0'), rest))
        }
        _ => None,
    }
}

#[tactic(auto, unfolding(crate::specs::Civil::ten_at))]
fn ten_at(bytes: &[u8]) -> Option<(MonthToSecond, &[u8])>
    ensures value { option_map (λ x. (x.0, x.1.now)) result ≡ ten_at bytes.now }
    ensures short { IfSome result (λ x. IsShort x.0) }
{
    let (month, rest) = two_at(bytes)?;
    let (day, rest) = two_at(rest)?;
    let (hour, rest) = two_at(rest)?;
    let (minute, rest) = two_at(rest)?;
    let (second, rest) = two_at(rest)?;
    let parts = MonthToSecond {
        month,
        day,
        hour,
        minute,
        second,
    };
    Some((parts, rest))
}

fn civil(year: u16, parts: MonthToSecond, nanosecond: u32) -> Option<DateTime>
    requires year { year ≤ 9999 }
    requires parts { IsShort parts }
    requires nanosecond { nanosecond < 1_000_000_000 }
    ensures { result ≡ civil year parts nanosecond }
{
    DateTime::new(
        year as i16,
        parts.month as i8,
        parts.day as i8,
        parts.hour as i8,
        parts.minute as i8,
        parts.second as i8,
        nanosecond as i32,
    )
    .ok()
}

fn is_z(bytes: &[u8]) -> bool
    ensures { result ≡ is_z bytes.now }
{
    matches!(bytes, [b'Z'])
}

fn twelve_digits(at: DateTime) -> [u8; 12]
    ensures { result ≡ twelve_digits at }
{
    let at = at.to_plain();
    let year = (at.date.year.unsigned_abs() % 100) as u8;
    let (date, time) = (at.date, at.time);
    [
        b'0' + year / 10,
        b'0' + year % 10,
        b'0' + date.month / 10,
        b'0' + date.month % 10,
        b'0' + date.day / 10,
        b'0' + date.day % 10,
        b'0' + time.hour / 10,
        b'0' + time.hour % 10,
        b'0' + time.minute / 10,
        b'0' + time.minute % 10,
        b'0' + time.second / 10,
        b'0' + time.second % 10,
    ]
}
