//! A script: commands to an authority.
use crate::name::name;
use crate::words::serial;
use asn1_core::OffsetDateTime;
use authority::{Command, Limits, Register};
use rcgen_issue::{
    DistinguishedName, PKCS_ED25519, PublicKey, RevocationReason, RevokedCertParams, date_time_ymd,
};
use std::alloc::{AllocError, Global};

// The midnight of a date in UTC; `never` is one before the year 0.
fn date(word: &str) -> Option<OffsetDateTime> {
    if word == "never" {
        return date_time_ymd(-1, 1, 1).ok();
    }
    let (year, rest) = word.split_once('-')?;
    let (month, day) = rest.split_once('-')?;
    let (year, month, day) = (year.parse().ok()?, month.parse().ok()?, day.parse().ok()?);
    date_time_ymd(year, month, day).ok()
}

fn reason(number: &str) -> Option<RevocationReason> {
    match number {
        "0" => Some(RevocationReason::Unspecified),
        "1" => Some(RevocationReason::KeyCompromise),
        "6" => Some(RevocationReason::CertificateHold),
        "8" => Some(RevocationReason::RemoveFromCrl),
        _ => None,
    }
}

/// The common name of a text; `!` has a type that is no object identifier.
pub fn name_of(alloc: Global, text: &str) -> Option<DistinguishedName> {
    match text {
        "!" => name(alloc, "3.1:"),
        text => name(alloc, text),
    }
}

fn issue(alloc: Global, words: &str) -> Option<Command> {
    let (key, words) = words.split_once(' ')?;
    let (name, times) = words.split_once(' ')?;
    issue_for(alloc, key, name, times)
}

fn issue_for(alloc: Global, key: &str, name: &str, times: &str) -> Option<Command> {
    let (not_before, not_after) = times.split_once(' ')?;
    let (not_before, not_after) = (date(not_before)?, date(not_after)?);
    let key = PublicKey::new(Vec::from_slice(alloc, key.as_bytes()).ok()?, PKCS_ED25519);
    let name = name_of(alloc, name)?;
    Some(Command::Issue {
        key,
        name,
        not_before,
        not_after,
    })
}

fn revoke(words: &str) -> Option<Command> {
    let (serial, words) = words.split_once(' ')?;
    let (time, number) = words.split_once(' ').unwrap_or((words, ""));
    let (serial, time) = (serial.parse().ok()?, date(time)?);
    Some(Command::Revoke {
        serial,
        time,
        reason: reason(number),
    })
}

fn list(words: &str) -> Option<Command> {
    let (this_update, next_update) = words.split_once(' ')?;
    let (this_update, next_update) = (date(this_update)?, date(next_update)?);
    Some(Command::List {
        this_update,
        next_update,
    })
}

fn command(alloc: Global, text: &str) -> Option<Command> {
    let (word, words) = text.split_once(' ').unwrap_or((text, ""));
    match word {
        "issue" => issue(alloc, words),
        "revoke" => revoke(words),
        "list" => list(words),
        _ => None,
    }
}

/// The commands between semicolons; one that can't be read is left out.
pub fn commands(alloc: Global, texts: &str) -> Result<Vec<Command>, AllocError> {
    let mut commands = Vec::new(alloc);
    for text in texts.split(';') {
        if let Some(command) = command(alloc, text.trim()) {
            commands.push(command)?;
        }
    }
    Ok(commands)
}

// The entry of a serial number's octets, a date and maybe an invalidity date.
fn entry(alloc: Global, text: &str) -> Option<RevokedCertParams> {
    let (octets, dates) = text.split_once(':')?;
    let (time, invalid) = dates.split_once(':').unwrap_or((dates, ""));
    let revocation_time = date(time)?;
    Some(RevokedCertParams {
        serial_number: serial(alloc, octets)?,
        revocation_time,
        reason_code: None,
        invalidity_date: date(invalid),
    })
}

/// The register of the words: two counts and the entries. An entry that can't be read is left out.
pub fn register(alloc: Global, words: &str) -> Result<Register, AllocError> {
    let (issued, words) = words.split_once(' ').unwrap_or((words, ""));
    let (lists, words) = words.split_once(' ').unwrap_or((words, ""));
    let mut revoked = Vec::new(alloc);
    for word in words.split_whitespace() {
        if let Some(entry) = entry(alloc, word) {
            revoked.push(entry)?;
        }
    }
    Ok(Register {
        issued: issued.parse().unwrap_or(0),
        lists: lists.parse().unwrap_or(0),
        revoked,
    })
}

/// The limits: one of both kinds, or two with `/` between them.
pub fn limits(words: &str) -> Limits {
    let (certificates, lists) = words.split_once('/').unwrap_or((words, words));
    Limits {
        certificates: certificates.parse().unwrap_or(0),
        lists: lists.parse().unwrap_or(0),
    }
}
