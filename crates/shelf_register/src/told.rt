//! Messages about refusals.
use crate::halt::{Halt, bad_input, refused, refused_with};
use register::{AppendError, CreateError, OpenError};
use register_files::FileError;
use register_lines::OrderError;
use register_record::{ListError, Refusal};
use register_steps::{ListedError, SealError};
use std::alloc::{AllocError, Global};

/// Whether a word is shown as it is: a short one of letters, digits and what file names have besides.
fn is_plain(word: &str) -> bool {
    !word.is_empty()
        && word.len() <= 60
        && word.bytes().all(|byte| byte.is_ascii_alphanumeric() || b"._/-+=:".contains(&byte))
}

/// The word, or a placeholder.
pub(crate) fn shown(word: &str) -> &str {
    if is_plain(word) { word } else { "the value" }
}

/// The name of a file as it is shown.
pub(crate) fn shown_file(name: &str) -> &str {
    if name == "-" {
        "standard input"
    } else if is_plain(name) {
        name
    } else {
        "a file"
    }
}

/// The message about a refusal.
pub(crate) fn refusal_text(refusal: Refusal) -> &'static str {
    match refusal {
        Refusal::NoIssuer => "the register has no issuer: shelf register new makes one",
        Refusal::NoSerialNumber =>
            "the serial number isn't positive, or has more than 20 octets (RFC 5280, 4.1.2.2)",
        Refusal::Taken => "the serial number is reserved already",
        Refusal::Unknown => "the register has no certificate with this serial number",
        Refusal::NotIssued =>
            "no certificate is issued under this serial number yet: seal it first",
        Refusal::AlreadySealed => "it is sealed already",
        Refusal::OtherMessage => "not made from the message that was reserved",
        Refusal::AlreadyRevoked => "the certificate is revoked already",
        Refusal::AlreadyOnHold => "the certificate is on hold already",
        Refusal::NotOnHold => "the certificate is not on hold",
        Refusal::Ahead => "the time is after the clock's",
        Refusal::Full => "there is no higher CRL number",
        Refusal::OldNumber => "the last list has this number or a higher one",
        Refusal::NotLater =>
            "the last CRL has this time or a later one: wait a second, or give a later --time",
        Refusal::EndsBefore => "the next update is not after this update",
        Refusal::NoBase => "a delta CRL needs a complete CRL, and none is sealed yet",
        Refusal::OtherList => "a newer CRL was reserved after this one",
        Refusal::Stale => "an event was recorded after the CRL was made",
    }
}

/// A refusal.
pub(crate) fn halted(alloc: Global, refusal: Refusal) -> Halt {
    let text = refusal_text(refusal);
    refused_with(format!(in alloc; "register: {text}\n"))
}

/// Why there is no next list.
pub(crate) fn no_list(alloc: Global, error: ListError) -> Halt {
    match error {
        ListError::Refused(refusal) => halted(alloc, refusal),
        ListError::OutOfMemory => Halt::OutOfMemory,
    }
}

/// Why there is no order of the next list.
pub(crate) fn no_order(alloc: Global, error: OrderError) -> Halt {
    match error {
        OrderError::Time => refused(alloc, "a time is not in the years 0 to 9999\n"),
        OrderError::OutOfMemory => Halt::OutOfMemory,
    }
}

/// Why nothing is sealed.
pub(crate) fn not_sealed(alloc: Global, error: SealError) -> Halt {
    match error {
        SealError::NoIssuer => refused(alloc, "register: the issuer's certificate can't be read\n"),
        SealError::NotMessage => refused(alloc, "register: the message can't be read\n"),
        SealError::WrongSignature => refused(
            alloc,
            "signature: not the issuer's signature over the message\n",
        ),
        SealError::OtherIssuer => refused(
            alloc,
            "certificate: its issuer is not the register's issuer\n",
        ),
        SealError::OutOfMemory => Halt::OutOfMemory,
    }
}

/// Why a list isn't taken.
fn unlisted_text(error: ListedError) -> &'static str {
    match error {
        ListedError::Unsigned(_) => "the list isn't signed by the register's issuer",
        ListedError::OtherIssuer => "the list's issuer is not the register's issuer",
        ListedError::Delta => "it is a delta list: import the last complete one",
        ListedError::Unknown => "the list has a critical extension that isn't known",
        ListedError::NoNumber => "the list has no CRL number below 2^63",
        ListedError::NoNextUpdate => "the list has no next update",
        ListedError::BadEntry =>
            "an entry of the list has an extension that isn't known, or a reason that no complete list has",
        ListedError::OutOfMemory => "memory was refused",
    }
}

/// Why a list isn't taken.
pub(crate) fn not_listed(alloc: Global, name: &str, error: ListedError) -> Halt {
    if let ListedError::OutOfMemory = error {
        return Halt::OutOfMemory;
    }
    let name = shown_file(name);
    let text = unlisted_text(error);
    refused_with(format!(in alloc; "{name}: {text}\n"))
}

/// The message about a file that isn't opened or made.
pub(crate) fn file_text(error: FileError) -> &'static str {
    match error {
        FileError::NotFound => "no such file",
        FileError::Foreign => "a database, but not a register",
        FileError::InUse => "the register is in use",
        FileError::Damaged => "not a SQLite database, or damaged",
        FileError::Full => "the disk is full",
        FileError::Io => "can't be opened, read or written",
        FileError::OutOfMemory => "memory was refused",
    }
}

/// The message about a store that isn't opened.
pub(crate) fn open_text(error: OpenError) -> &'static str {
    match error {
        OpenError::NoTable => "not a register: it has no table of events",
        OpenError::NoEvent(_) => "a row is not an event",
        OpenError::NotNext(_) => "it has an event that may not follow those before it",
        OpenError::Full => "it has too many events",
        OpenError::Store(_) => "it can't be read",
        OpenError::OutOfMemory => "memory was refused",
    }
}

/// The row to report, counted from 1.
fn row_of(error: OpenError) -> Option<u64> {
    match error {
        OpenError::NoEvent(row) | OpenError::NotNext(row) => row.checked_add(1),
        _ => None,
    }
}

/// A register that isn't opened.
pub(crate) fn unopened(alloc: Global, name: &str, error: OpenError) -> Halt {
    if let OpenError::OutOfMemory = error {
        return Halt::OutOfMemory;
    }
    let name = shown_file(name);
    let text = open_text(error);
    let text = match row_of(error) {
        Some(row) => format!(in alloc; "{name}: {text}: row {row}\n"),
        None => format!(in alloc; "{name}: {text}\n"),
    };
    crate::halt::bad_input_with(text)
}

/// A register that isn't made.
pub(crate) fn uncreated(alloc: Global, name: &str, error: CreateError) -> Halt {
    match error {
        CreateError::Unopened(error) => unopened(alloc, name, error),
        CreateError::NotEmpty => {
            let name = shown_file(name);
            refused_with(format!(in alloc; "{name}: already a register\n"))
        }
        CreateError::Unrecorded(AppendError::OutOfMemory) => Halt::OutOfMemory,
        CreateError::Unrecorded(_) => bad_input(alloc, "the register can't be written\n"),
    }
}

/// A line with a name and a text.
pub(crate) fn line(alloc: Global, name: &str, text: &str) -> Result<Vec<u8>, AllocError> {
    let name = shown_file(name);
    let text = format!(in alloc; "{name}: {text}\n")?;
    Ok(text.into_bytes())
}
