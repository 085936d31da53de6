//! Rules of what every certificate says: version, serial number, times (RFC 5280, 4.1.2).
ghost use Rattle.std.specs.Prelude.{◌≡◌, IfOk};
ghost use Rattle.pkix_rules.specs.Frames.{frame_rules, has_fraction, has_wrong_form, is_earlier, is_of_year_zero, serial_rules, time_rules, version_rules};

use crate::integer::is_positive;
use crate::key::has_bad_parameters;
use crate::name::is_empty_name;
use asn1_core::{Integer, OutOfMemory, has_utc_time_year};
use pkix_cert::{TbsCertificate, Time, Version};
use rule_table::{Rule, add, note};
use std::alloc::Global;

/// Of the version.
#[tactic(auto, unfolding(crate::specs::Frames::version_rules))]
fn version_rules(
    alloc: Global,
    version: Version,
    has_unique_ids: bool,
    has_extensions: bool,
) -> Result<Vec<Rule>, OutOfMemory>
    ensures { IfOk result (λ v. v.items ≡ version_rules version has_unique_ids has_extensions) }
{
    let number = version.raw_value();
    let mut found = Vec::new(alloc);
    note(&mut found, Rule::UnknownVersion, 2 < number)?;
    note(
        &mut found,
        Rule::ExtensionsWithoutV3,
        has_extensions && number != 2,
    )?;
    note(&mut found, Rule::UniqueIdentifiers, has_unique_ids)?;
    Ok(found)
}

/// Of a serial number.
#[tactic(auto, unfolding(crate::specs::Frames::serial_rules))]
pub(crate) fn serial_rules(alloc: Global, number: &Integer) -> Result<Vec<Rule>, OutOfMemory>
    ensures { IfOk result (λ v. v.items ≡ serial_rules number.now) }
{
    let mut found = Vec::new(alloc);
    note(&mut found, Rule::SerialNotPositive, !is_positive(number))?;
    note(
        &mut found,
        Rule::SerialTooLong,
        20 < number.as_bytes().len(),
    )?;
    Ok(found)
}

/// Whether the one is before the other.
pub(crate) fn is_earlier(a: &Time, b: &Time) -> bool
    ensures { result ≡ is_earlier a.now b.now }
{
    a.moment() < b.moment()
}

/// Whether a year from 1950 to 2049 is written as GeneralizedTime.
pub(crate) fn has_wrong_form(time: &Time) -> bool
    ensures { result ≡ has_wrong_form time.now }
{
    match time {
        Time::Utc(_) => false,
        Time::General(time) => has_utc_time_year(time.at),
    }
}

/// Whether it has a fraction of a second.
pub(crate) fn has_fraction(time: &Time) -> bool
    ensures { result ≡ has_fraction time.now }
{
    time.moment().subsec_nanosecond() != 0
}

fn is_of_year_zero(time: &Time) -> bool
    ensures { result ≡ is_of_year_zero time.now }
{
    time.moment().year() == 0
}

/// Of two times.
#[tactic(auto, unfolding(crate::specs::Frames::time_rules))]
fn time_rules(alloc: Global, start: &Time, end: &Time) -> Result<Vec<Rule>, OutOfMemory>
    ensures { IfOk result (λ v. v.items ≡ time_rules start.now end.now) }
{
    let mut found = Vec::new(alloc);
    note(&mut found, Rule::ValidityReversed, is_earlier(end, start))?;
    let form = has_wrong_form(start) || has_wrong_form(end);
    note(&mut found, Rule::TimeForm, form)?;
    let fraction = has_fraction(start) || has_fraction(end);
    note(&mut found, Rule::TimeFraction, fraction)?;
    let zero = is_of_year_zero(start) || is_of_year_zero(end);
    note(&mut found, Rule::YearZero, zero)?;
    Ok(found)
}

/// The rules of it that are broken, in order.
#[tactic(auto, unfolding(crate::specs::Frames::frame_rules))]
pub(crate) fn frame_rules(alloc: Global, tbs: &TbsCertificate) -> Result<Vec<Rule>, OutOfMemory>
    ensures { IfOk result (λ v. v.items ≡ frame_rules tbs.now) }
{
    let mut found = Vec::new(alloc);
    note(&mut found, Rule::EmptyIssuer, is_empty_name(&tbs.issuer))?;
    let unique = tbs.issuer_unique_id.is_some() || tbs.subject_unique_id.is_some();
    let others = version_rules(alloc, tbs.version, unique, tbs.extensions.is_some())?;
    add(&mut found, others)?;
    let others = serial_rules(alloc, &tbs.serial_number)?;
    add(&mut found, others)?;
    let others = time_rules(alloc, &tbs.validity.not_before, &tbs.validity.not_after)?;
    add(&mut found, others)?;
    note(
        &mut found,
        Rule::SignatureParameters,
        has_bad_parameters(&tbs.signature),
    )?;
    Ok(found)
}
