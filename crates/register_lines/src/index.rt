//! Lines of the file index.txt of `openssl ca`.
ghost use Rattle.std.specs.Prelude.{◌≡◌, IfOk};
ghost use Rattle.std.specs.Option.{option_map};
ghost use Rattle.hex.specs.Hex.{decode_of};
ghost use Rattle.register_lines.specs.Index.{change_in, cut, fields, indexed, number_from, number_of, reason_named, revocation, revoked_in, time_in, unchanged_in, with_extra, with_reason};

use crate::time::second_of;
use asn1_core::{GeneralizedTime, Integer, OutOfMemory, UtcTime};
use hex::FromHexError;
use register_record::{Reason, Revocation};
use std::alloc::Global;

/// What a line says of a certificate.
#[derive(Drop)]
pub struct Indexed {
    pub serial: Integer,
    pub revocation: Option<Revocation>,
}

fn cut_tab(text: &str) -> Option<(&str, &str)>
    ensures { option_map (λ x. (x.0.now, x.1.now)) result ≡ cut 9 text.now }
{
    match text.split_once('\t') {
        Some((front, back)) => Some((front, back)),
        None => None,
    }
}

fn cut_comma(text: &str) -> Option<(&str, &str)>
    ensures { option_map (λ x. (x.0.now, x.1.now)) result ≡ cut 44 text.now }
{
    match text.split_once(',') {
        Some((front, back)) => Some((front, back)),
        None => None,
    }
}

#[tactic(auto, unfolding(crate::specs::Index::time_in))]
fn time_in(text: &str) -> Option<i64>
    ensures { result ≡ time_in text.now }
{
    if let Some(time) = UtcTime::from_contents(text.as_bytes()) {
        return Some(second_of(time.at));
    }
    let time = GeneralizedTime::from_contents(text.as_bytes())?;
    Some(second_of(time.at))
}

#[tactic(auto, unfolding(crate::specs::Index::reason_named))]
fn reason_named(word: &str) -> Option<Reason>
    ensures { result ≡ reason_named word.now }
{
    match word {
        "unspecified" => Some(Reason::Unspecified),
        "keyCompromise" => Some(Reason::KeyCompromise),
        "CACompromise" => Some(Reason::CaCompromise),
        "affiliationChanged" => Some(Reason::AffiliationChanged),
        "superseded" => Some(Reason::Superseded),
        "cessationOfOperation" => Some(Reason::CessationOfOperation),
        "certificateHold" => Some(Reason::CertificateHold),
        _ => None,
    }
}

fn revocation(time: i64, reason: Reason, invalidity_date: Option<i64>) -> Revocation
    ensures { result ≡ revocation time reason invalidity_date }
{
    Revocation {
        time,
        reason,
        invalidity_date,
    }
}

#[tactic(auto, unfolding(crate::specs::Index::with_extra))]
fn with_extra(time: i64, word: &str, extra: &str) -> Option<Revocation>
    ensures { result ≡ with_extra time word.now extra.now }
{
    match word {
        "holdInstruction" => Some(revocation(time, Reason::CertificateHold, None)),
        "keyTime" => {
            let date = time_in(extra)?;
            Some(revocation(time, Reason::KeyCompromise, Some(date)))
        }
        "CAkeyTime" => {
            let date = time_in(extra)?;
            Some(revocation(time, Reason::CaCompromise, Some(date)))
        }
        _ => None,
    }
}

fn with_reason(time: i64, text: &str) -> Option<Revocation>
    ensures { result ≡ with_reason time text.now (cut 44 text.now) }
{
    match cut_comma(text) {
        Some((word, extra)) => with_extra(time, word, extra),
        None => {
            let reason = reason_named(text)?;
            Some(revocation(time, reason, None))
        }
    }
}

#[tactic(auto, unfolding(crate::specs::Index::revoked_in))]
fn revoked_in(text: &str) -> Option<Revocation>
    ensures { result ≡ revoked_in text.now }
{
    match cut_comma(text) {
        Some((time, rest)) => {
            let time = time_in(time)?;
            with_reason(time, rest)
        }
        None => {
            let time = time_in(text)?;
            Some(revocation(time, Reason::Unspecified, None))
        }
    }
}

#[tactic(auto, unfolding(crate::specs::Index::unchanged_in))]
fn unchanged_in(text: &str) -> Option<Option<Revocation>>
    ensures { result ≡ unchanged_in text.now }
{
    match text {
        "" => Some(None),
        _ => None,
    }
}

#[tactic(auto, unfolding(crate::specs::Index::change_in))]
fn change_in(status: &str, text: &str) -> Option<Option<Revocation>>
    ensures { result ≡ change_in status.now text.now }
{
    match status {
        "V" => unchanged_in(text),
        "E" => unchanged_in(text),
        "R" => {
            let revocation = revoked_in(text)?;
            Some(Some(revocation))
        }
        _ => None,
    }
}

fn number_from(alloc: Global, octets: &[u8]) -> Result<Option<Integer>, OutOfMemory>
    ensures { IfOk result (λ o. o ≡ number_from octets.now) }
{
    if octets.is_empty() {
        return Ok(None);
    }
    let number = Integer::from_unsigned(alloc, octets)?;
    Ok(Some(number))
}

fn number_in(alloc: Global, text: &str) -> Result<Option<Integer>, OutOfMemory>
    ensures { IfOk result (λ o. o ≡ number_of (decode_of text.now)) }
{
    match hex::decode(alloc, text) {
        Ok(octets) => {
            let number = number_from(alloc, octets.as_slice())?;
            Ok(number)
        }
        Err(FromHexError::OutOfMemory) => Err(OutOfMemory),
        Err(_) => Ok(None),
    }
}

/// The fields of a line that count: the status, the end, the revocation and the serial number.
#[tactic(auto, unfolding(crate::specs::Index::fields))]
fn fields(line: &str) -> Option<(&str, &str, &str, &str)>
    ensures { option_map (λ x. (x.0.now, x.1.now, x.2.now, x.3.now)) result ≡ fields line.now }
{
    let (status, rest) = cut_tab(line)?;
    let (end, rest) = cut_tab(rest)?;
    let (revoked, rest) = cut_tab(rest)?;
    let (serial, rest) = cut_tab(rest)?;
    let (_, _) = cut_tab(rest)?;
    Some((status, end, revoked, serial))
}

/// What a line of the file index.txt of `openssl ca` says, without its line feed; None where it isn't
/// such a line: it has fewer than six fields, one of the first four can't be read, or a revocation
/// where the status isn't R.
#[tactic(auto, unfolding(crate::specs::Index::indexed))]
pub fn index_line(alloc: Global, line: &str) -> Result<Option<Indexed>, OutOfMemory>
    ensures { IfOk result (λ o. o ≡ indexed line.now) }
{
    let Some((status, end, revoked, serial)) = fields(line) else {
        return Ok(None);
    };
    let Some(_) = time_in(end) else {
        return Ok(None);
    };
    let Some(revocation) = change_in(status, revoked) else {
        return Ok(None);
    };
    let Some(serial) = number_in(alloc, serial)? else {
        return Ok(None);
    };
    Ok(Some(Indexed { serial, revocation }))
}
