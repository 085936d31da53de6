//! Times that their types carry or don't, by what a clock in UTC shows (RFC 5280, 4.1.2.5; X.690, 11.7 and 11.8).
use crate::octets::octets_text;
use asn1_core::{GeneralizedTime, UtcTime};
use der_tree::DerType;
use der_tree::der::encode;
use jiff::civil::DateTime;
use pkix_attr::AttributeCertificateValidityPeriod;
use pkix_cert::{Time, Validity};
use pkix_trust::PrivateKeyUsagePeriod;
use std::alloc::{AllocError, Global};

// The value's form, or why it has none.
fn form_text<T: DerType>(alloc: Global, value: &T) -> Result<String, AllocError> {
    match encode(alloc, value) {
        Ok(octets) => octets_text(alloc, octets.as_slice()),
        Err(fault) => format!(in alloc; " {fault}"),
    }
}

// The form of one moment.
fn moment_text(alloc: Global, name: &str, at: DateTime) -> Result<String, AllocError> {
    if name == "UtcTime" {
        return form_text(alloc, &UtcTime { at });
    }
    if name == "GeneralizedTime" {
        return form_text(alloc, &GeneralizedTime { at });
    }
    if name == "Time.utc" {
        return form_text(alloc, &Time::Utc(UtcTime { at }));
    }
    form_text(alloc, &Time::General(GeneralizedTime { at }))
}

// The form of two.
fn period_text(
    alloc: Global,
    name: &str,
    from: DateTime,
    to: DateTime,
) -> Result<String, AllocError> {
    if name == "Validity" {
        let validity = Validity {
            not_before: Time::Utc(UtcTime { at: from }),
            not_after: Time::Utc(UtcTime { at: to }),
        };
        return form_text(alloc, &validity);
    }
    let not_before = GeneralizedTime { at: from };
    let not_after = GeneralizedTime { at: to };
    if name == "PrivateKeyUsagePeriod" {
        let period = PrivateKeyUsagePeriod {
            not_before: Some(not_before),
            not_after: Some(not_after),
        };
        return form_text(alloc, &period);
    }
    let period = AttributeCertificateValidityPeriod {
        not_before,
        not_after,
    };
    form_text(alloc, &period)
}

// The words of two moments.
fn period_of(words: &str) -> Option<(DateTime, DateTime)> {
    let (from, to) = words.split_once(' ')?;
    match (from.parse::<DateTime>(), to.parse::<DateTime>()) {
        (Ok(from), Ok(to)) => Some((from, to)),
        _ => None,
    }
}

/// What there is to say of a line `time.NAME MOMENT` or `time.NAME MOMENT MOMENT`.
pub fn answer_to(alloc: Global, name: &str, words: &str) -> Result<String, AllocError> {
    if let Some((from, to)) = period_of(words) {
        return period_text(alloc, name, from, to);
    }
    match words.parse::<DateTime>() {
        Ok(at) => moment_text(alloc, name, at),
        Err(_) => " no moment".to_string(alloc),
    }
}
