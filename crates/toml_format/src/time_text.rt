//! A date, a time of day and an offset as text (RFC 3339, 5.6).
ghost use Rattle.std.specs.Prelude.{◌≡◌, ◌+◌, ◌-◌, ◌*◌, ◌<◌, ◌≤◌, pos, neg_ℤ, IfSome};
ghost use Rattle.std.specs.Option.{option_map};
ghost use Rattle.jiff.specs.Words.{IsOffsetSeconds};
ghost use Rattle.toml_format.specs.TimeText.{two_digits_at, byte_at, date_of, time_of_day, full_date_at, decimals_at};
ghost use Rattle.toml_format.specs.TimeText.{fraction_at, partial_time_at, hours_minutes_at, time_offset_at, date_time};
ghost use Rattle.toml_format.specs.TimeView.{date_view, time_view, timestamp_view};

use asn1_core::OffsetDateTime;
use jiff::civil::{Date, DateTime, Time};

/// The number of two digits.
#[tactic(auto, unfolding(crate::specs::TimeText::two_digits_at))]
fn two_digits_at(bytes: &[u8]) -> Option<(u8, &[u8])>
    ensures value { option_map (λ x. (x.0, x.1.now)) result ≡ two_digits_at bytes.now }
    ensures small { IfSome result (λ x. x.0 < 100) }
{
    match bytes {
        [tens @ b'0'..=b'9', ones @ b'0'..=b'9', rest @ ..] => {
            Some((10 * (*tens - b'0') + (*ones - b'0'), rest))
        }
        _ => None,
    }
}

/// What comes after this byte.
#[tactic(auto, unfolding(crate::specs::TimeText::byte_at))]
fn byte_at(expected: u8, bytes: &[u8]) -> Option<&[u8]>
    ensures { option_map (λ x. x.now) result ≡ byte_at expected bytes.now }
{
    match bytes {
        [byte, rest @ ..] if *byte == expected => Some(rest),
        _ => None,
    }
}

/// The date, where the calendar has it.
#[tactic(auto, unfolding(crate::specs::TimeText::date_of))]
fn date_of(year: u16, month: u8, day: u8) -> Option<Date>
    requires year { year < 10_000 }
    requires month { month < 100 }
    requires day { day < 100 }
    ensures { option_map date_view result ≡ date_of year month day }
{
    Date::new(year as i16, month as i8, day as i8).ok()
}

/// The time of day, where a clock shows it.
#[tactic(auto, unfolding(crate::specs::TimeText::time_of_day))]
fn time_of_day(hour: u8, minute: u8, second: u8, nanosecond: u32) -> Option<Time>
    requires hour { hour < 100 }
    requires minute { minute < 100 }
    requires second { second < 100 }
    requires nanosecond { nanosecond < 1_000_000_000 }
    ensures { option_map time_view result ≡ time_of_day hour minute second nanosecond }
{
    Time::new(hour as i8, minute as i8, second as i8, nanosecond as i32).ok()
}

/// A full-date.
#[tactic(auto, unfolding(crate::specs::TimeText::full_date_at))]
fn full_date_at(bytes: &[u8]) -> Option<(Date, &[u8])>
    ensures { option_map (λ x. (date_view x.0, x.1.now)) result ≡ full_date_at bytes.now }
{
    let (century, rest) = two_digits_at(bytes)?;
    let (year, rest) = two_digits_at(rest)?;
    let rest = byte_at(b'-', rest)?;
    let (month, rest) = two_digits_at(rest)?;
    let rest = byte_at(b'-', rest)?;
    let (day, rest) = two_digits_at(rest)?;
    let date = date_of(100 * u16::from(century) + u16::from(year), month, day)?;
    Some((date, rest))
}

/// The digits at the front, as nanoseconds.
#[tactic(auto, unfolding(crate::specs::TimeText::decimals_at))]
fn decimals_at(bytes: &[u8]) -> Option<(u32, &[u8])>
    ensures value { option_map (λ x. (x.0, x.1.now)) result ≡ decimals_at 100_000_000 bytes.now }
    ensures small { IfSome result (λ x. x.0 < 1_000_000_000) }
{
    let mut nanoseconds = 0;
    let mut unit = 100_000_000;
    let mut rest = bytes;
    while let [digit @ b'0'..=b'9', after @ ..] = rest {
        if unit == 0 {
            return None;
        }
        nanoseconds += u32::from(*digit - b'0') * unit;
        unit /= 10;
        rest = after;
    }
    Some((nanoseconds, rest))
}

/// The fraction of a second, where there is one, as nanoseconds.
#[tactic(auto, unfolding(crate::specs::TimeText::fraction_at))]
fn fraction_at(bytes: &[u8]) -> Option<(u32, &[u8])>
    ensures value { option_map (λ x. (x.0, x.1.now)) result ≡ fraction_at bytes.now }
    ensures small { IfSome result (λ x. x.0 < 1_000_000_000) }
{
    match bytes {
        [b'.', rest @ ..] => match rest {
            [b'0'..=b'9', ..] => decimals_at(rest),
            _ => None,
        },
        _ => Some((0, bytes)),
    }
}

/// A partial-time.
#[tactic(auto, unfolding(crate::specs::TimeText::partial_time_at))]
fn partial_time_at(bytes: &[u8]) -> Option<(Time, &[u8])>
    ensures { option_map (λ x. (time_view x.0, x.1.now)) result ≡ partial_time_at bytes.now }
{
    let (hour, rest) = two_digits_at(bytes)?;
    let rest = byte_at(b':', rest)?;
    let (minute, rest) = two_digits_at(rest)?;
    let rest = byte_at(b':', rest)?;
    let (second, rest) = two_digits_at(rest)?;
    let (nanosecond, rest) = fraction_at(rest)?;
    let time = time_of_day(hour, minute, second, nanosecond)?;
    Some((time, rest))
}

/// Hours and minutes, as seconds.
#[tactic(auto, unfolding(crate::specs::TimeText::hours_minutes_at))]
fn hours_minutes_at(bytes: &[u8]) -> Option<(u32, &[u8])>
    ensures value { option_map (λ x. (x.0, x.1.now)) result ≡ hours_minutes_at bytes.now }
    ensures small { IfSome result (λ x. x.0 < 86_400) }
{
    let (hour, rest) = two_digits_at(bytes)?;
    let rest = byte_at(b':', rest)?;
    let (minute, rest) = two_digits_at(rest)?;
    if hour >= 24 || minute >= 60 {
        return None;
    }
    Some((3600 * u32::from(hour) + 60 * u32::from(minute), rest))
}

/// A time-offset, in seconds.
#[tactic(auto, unfolding(crate::specs::TimeText::time_offset_at))]
fn time_offset_at(bytes: &[u8]) -> Option<(i32, &[u8])>
    ensures value { option_map (λ x. (x.0, x.1.now)) result ≡ time_offset_at bytes.now }
    ensures small { IfSome result (λ x. IsOffsetSeconds x.0) }
{
    match bytes {
        [b'Z', rest @ ..] => Some((0, rest)),
        [b'+', rest @ ..] => {
            let (seconds, rest) = hours_minutes_at(rest)?;
            Some((seconds as i32, rest))
        }
        [b'-', rest @ ..] => {
            let (seconds, rest) = hours_minutes_at(rest)?;
            Some((-(seconds as i32), rest))
        }
        _ => None,
    }
}

/// The moment of a date-time with T and Z as capital letters and no leap second.
#[tactic(auto, unfolding(crate::specs::TimeText::date_time))]
pub(crate) fn date_time(text: &str) -> Option<OffsetDateTime>
    ensures { option_map timestamp_view result ≡ date_time text.now }
{
    let Some((date, rest)) = full_date_at(text.as_bytes()) else {
        return None;
    };
    let rest = byte_at(b'T', rest)?;
    let Some((time, rest)) = partial_time_at(rest) else {
        return None;
    };
    let (offset, rest) = time_offset_at(rest)?;
    if !rest.is_empty() {
        return None;
    }
    Some(OffsetDateTime::new(DateTime::from_parts(date, time), offset).unwrap())
}
