//! What an authority replies to the commands of a script.
use crate::key::{CaseKey, digest_key, refusing_key};
use crate::lines::{digits, push_line};
use crate::script::{commands, limits, name_of, register};
use authority::{Authority, AuthorityError, Command, Limits, Reply};
use der_tree::der;
use pkix_cert::{Certificate, CertificateList, Extensions};
use rcgen_issue::{Issuer, KeyIdMethod, KeyUsagePurpose, PKCS_ED25519, PublicKeyData};
use std::alloc::{AllocError, Global};

// The last arcs of the extensions' identifiers.
fn arcs_text(alloc: Global, extensions: Option<&Extensions>) -> Result<String, AllocError> {
    let mut text = String::new(alloc);
    if let Some(extensions) = extensions {
        for extension in extensions.0.as_slice() {
            if let [.., last] = extension.extn_id.arcs() {
                let arc = format!(in alloc; " {last}")?;
                text.push_str(arc.as_str())?;
            }
        }
    }
    Ok(text)
}

// The serial number of a certificate, the front of its key and its extensions.
fn parts_text(alloc: Global, certificate: &Certificate) -> Result<String, AllocError> {
    let tbs = &certificate.tbs_certificate;
    let serial = hex::encode(alloc, tbs.serial_number.as_bytes())?;
    let key = tbs.subject_public_key_info.subject_public_key.bytes();
    let key = hex::encode(alloc, key.get(..2).unwrap_or(key))?;
    let arcs = arcs_text(alloc, tbs.extensions.as_ref())?;
    format!(in alloc; "{serial} key {key} extensions{arcs}")
}

// The entries of a list as DER, and its extensions.
fn entries_text(alloc: Global, list: &CertificateList) -> Option<String> {
    let tbs = &list.tbs_cert_list;
    let mut text = arcs_text(alloc, tbs.crl_extensions.as_ref()).ok()?;
    for entry in tbs.revoked_certificates.as_slice() {
        let der = der::encode(alloc, entry).ok()?;
        let digits = digits(alloc, der.as_slice())?;
        let line = format!(in alloc; "\n  {digits}").ok()?;
        text.push_str(line.as_str()).ok()?;
    }
    Some(text)
}

fn issued_text(alloc: Global, serial: u64, der: &[u8]) -> Option<String> {
    let certificate = der::decode::<Certificate>(alloc, der).ok()?;
    let parts = parts_text(alloc, &certificate).ok()?;
    format!(in alloc; "issued {serial}: {parts}").ok()
}

fn revoked_text(alloc: Global, serial: u64) -> Option<String> {
    format!(in alloc; "revoked {serial}").ok()
}

fn listed_text(alloc: Global, number: u64, der: &[u8]) -> Option<String> {
    let list = der::decode::<CertificateList>(alloc, der).ok()?;
    let entries = entries_text(alloc, &list)?;
    format!(in alloc; "list {number}: extensions{entries}").ok()
}

fn reply_text(alloc: Global, reply: &Reply) -> Option<String> {
    match reply {
        Reply::Issued { serial, der } => issued_text(alloc, *serial, der.as_slice()),
        Reply::Revoked { serial } => revoked_text(alloc, *serial),
        Reply::Listed { number, der } => listed_text(alloc, *number, der.as_slice()),
        Reply::Refused(refusal) => format!(in alloc; "refused {refusal:?}").ok(),
    }
}

// A failure as it is printed.
fn failure_text(alloc: Global, error: &AuthorityError) -> Option<String> {
    format!(in alloc; "refused: {error}").ok()
}

fn issue_text(
    alloc: Global,
    authority: &mut Authority<&CaseKey>,
    command: &Command,
) -> Option<String> {
    let Command::Issue {
        key,
        name,
        not_before,
        not_after,
    } = command
    else {
        return None;
    };
    let key = digest_key(alloc, key.der_bytes())?;
    let name = name.clone().ok()?;
    match &authority.issue(&key, name, *not_before, *not_after) {
        Ok(issued) => issued_text(alloc, issued.serial, issued.certificate.der()),
        Err(error) => failure_text(alloc, error),
    }
}

// What the call that the command represents answers. A certificate is for the stand-in of a key whose secret is the
// command's key.
fn call_text(
    alloc: Global,
    authority: &mut Authority<&CaseKey>,
    command: &Command,
) -> Option<String> {
    match command {
        Command::Issue { .. } => issue_text(alloc, authority, command),
        Command::Revoke {
            serial,
            time,
            reason,
        } => match &authority.revoke(*serial, *time, *reason) {
            Ok(()) => revoked_text(alloc, *serial),
            Err(error) => failure_text(alloc, error),
        },
        Command::List {
            this_update,
            next_update,
        } => match &authority.list(*this_update, *next_update) {
            Ok(listed) => listed_text(alloc, listed.number, listed.list.der()),
            Err(error) => failure_text(alloc, error),
        },
    }
}

fn push_calls(
    alloc: Global,
    text: &mut String,
    authority: &mut Authority<&CaseKey>,
    commands: &[Command],
) -> Option<()> {
    for command in commands {
        let line = call_text(alloc, authority, command)?;
        push_line(text, line.as_str()).ok()?;
    }
    Some(())
}

// The replies of one run.
fn push_run(
    alloc: Global,
    text: &mut String,
    authority: &mut Authority<&CaseKey>,
    commands: &[Command],
) -> Option<()> {
    let replies = authority.run_all(commands).ok()?;
    for reply in replies.as_slice() {
        let line = reply_text(alloc, reply)?;
        push_line(text, line.as_str()).ok()?;
    }
    Some(())
}

// How much was issued, listed and revoked.
fn push_state(alloc: Global, text: &mut String, authority: &Authority<&CaseKey>) -> Option<()> {
    let (issued, lists, revoked) = (
        authority.issued(),
        authority.lists(),
        authority.revoked().len(),
    );
    let line = format!(in alloc; "after: {issued} issued, {lists} lists, {revoked} revoked").ok()?;
    push_line(text, line.as_str()).ok()
}

// A run and the state after it.
fn push_rest(
    alloc: Global,
    text: &mut String,
    resumed: Result<Authority<&CaseKey>, AuthorityError>,
    commands: &[Command],
) -> Option<()> {
    match resumed {
        Ok(mut authority) => {
            push_run(alloc, text, &mut authority, commands)?;
            push_state(alloc, text, &authority)
        }
        Err(error) => push_line(text, failure_text(alloc, &error)?.as_str()).ok(),
    }
}

// The replies to the commands, the first so many of them by one authority and the others by another.
fn push_two_runs(
    alloc: Global,
    text: &mut String,
    mut first: Authority<&CaseKey>,
    commands: &[Command],
    count: usize,
) -> Option<()> {
    let (before, behind) = commands.split_at(commands.len().min(count));
    push_run(alloc, text, &mut first, before)?;
    let (issuer, limits, register) = first.into_parts();
    let second = Authority::resume(alloc, issuer, limits, register);
    push_rest(alloc, text, second, behind)
}

fn push_direct(
    alloc: Global,
    text: &mut String,
    mut authority: Authority<&CaseKey>,
    commands: &[Command],
) -> Option<()> {
    push_calls(alloc, text, &mut authority, commands)?;
    push_state(alloc, text, &authority)
}

// What is replied, and how much was issued, listed and revoked after it.
fn push_replies(
    alloc: Global,
    text: &mut String,
    issuer: Issuer<'static, &CaseKey>,
    limits: Limits,
    way: &str,
    commands: &[Command],
) -> Option<()> {
    let (way, words) = way.split_once(' ').unwrap_or((way, ""));
    if way == "from" {
        let register = register(alloc, words).ok()?;
        let resumed = Authority::resume(alloc, issuer, limits, register);
        return push_rest(alloc, text, resumed, commands);
    }
    let authority = Authority::with_limits(alloc, issuer, limits);
    match way {
        "cut" => push_two_runs(alloc, text, authority, commands, words.parse().unwrap_or(0)),
        "direct" => push_direct(alloc, text, authority, commands),
        _ => push_rest(alloc, text, Ok(authority), commands),
    }
}

fn usages(alloc: Global, issuer: &str) -> Result<Vec<KeyUsagePurpose>, AllocError> {
    let mut usages = Vec::new(alloc);
    if issuer == "no-lists" {
        usages.push(KeyUsagePurpose::KeyCertSign)?;
    }
    Ok(usages)
}

fn key_of(alloc: Global, issuer: &str) -> Option<CaseKey> {
    match issuer {
        "refuser" => refusing_key(PKCS_ED25519, Vec::new(alloc)).ok(),
        _ => digest_key(alloc, b"authority"),
    }
}

fn issuer_name(issuer: &str) -> &str {
    match issuer {
        "no-name" => "!",
        _ => "Authority",
    }
}

fn issuer_of<'a>(
    alloc: Global,
    issuer: &str,
    key: &'a CaseKey,
) -> Option<Issuer<'static, &'a CaseKey>> {
    let name = name_of(alloc, issuer_name(issuer))?;
    let usages = usages(alloc, issuer).ok()?;
    Some(Issuer::from_parts(name, KeyIdMethod::Sha256, usages, key))
}

/// A script is parts between semicolons. The first is the issuer: `signer`, which may sign whatever it is asked for;
/// `no-lists`, whose key is for certificates alone; `no-name`, of whose name a type is no object identifier; `refuser`,
/// whose key refuses all; the limit, or that of certificates and that of lists with `/` between them; and the way:
/// `direct` where each command is a call of its own, which issues for a stand-in of a key; `cut` and a number where the
/// authority stops after so many commands, and another goes on from what it handed out; `from` and a register where the
/// authority goes on from that: how many were issued, how many lists were made, and the entries, each the octets of a serial
/// number in hex, a date and maybe the invalidity date, with `:` between them. The others are commands: `issue` with a key, a
/// common name and two dates, `revoke` with a serial number, a date and maybe the number of a reason, `list` with two dates. The
/// date `never` is before the year 0, and the name `!` has a type that is no object identifier.
pub fn script_text(alloc: Global, line: &str) -> Option<String> {
    let (first, rest) = line.split_once(';').unwrap_or((line, ""));
    let (issuer, words) = first.split_once(' ').unwrap_or((first, ""));
    let (limit, way) = words.split_once(' ').unwrap_or((words, ""));
    let limits = limits(limit.trim());
    let commands = commands(alloc, rest).ok()?;
    let key = key_of(alloc, issuer)?;
    let issuer = issuer_of(alloc, issuer, &key)?;
    let mut text = String::new(alloc);
    push_replies(alloc, &mut text, issuer, limits, way, commands.as_slice())?;
    Some(text)
}
