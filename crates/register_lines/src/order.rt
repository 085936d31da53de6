//! The order of the next list, and the lines of its entries.
ghost use Rattle.std.specs.Prelude.{◌≡◌, ◌++◌, IfOk, IfErr, OnOk, Some, true, string_bytes};
ghost use Rattle.std.specs.List.{list_all};
ghost use Rattle.register_lines.specs.Lines.{AreLines, ExplainsOrder, IsBaseLine, IsChangeText, IsEntryLine, IsInvalidText, IsListOrder, IsNumberText, IsOrder, has_change_text, has_texts, has_year_if, key_line, removal_word};
ghost use Rattle.register_lines.specs.Times.{has_year};

use crate::text::time_text;
use crate::time::has_year;
use asn1_core::{Integer, u64_to_contents};
use register_record::{Change, Entry, NextList};
use register_words::reason_word;
use std::alloc::{AllocError, Global};

/// Why a list has no order.
#[derive(Clone, Copy, Debug)]
pub enum OrderError {
    /// The year in UTC of one of its times isn't one from 0 to 9999.
    Time,
    OutOfMemory,
}

impl From<AllocError> for OrderError {
    ghost use Rattle.std.specs.Prelude.{◌≡◌};
    ghost use Rattle.register_lines.specs.declared.order.OrderError.TheVariants.{OutOfMemory as NoMemory};

    ghost from_gives = { λ _ r. r ≡ NoMemory };

    fn from(_: AllocError) -> OrderError {
        OrderError::OutOfMemory
    }
}

/// The order of a list, and the text of its entries.
#[derive(Drop)]
pub struct ListOrder {
    pub order: Vec<u8>,
    /// A line for each entry.
    pub revoked: Vec<u8>,
}

fn has_year_if(seconds: Option<i64>) -> bool
    ensures { result ≡ has_year_if seconds }
{
    match seconds {
        Some(seconds) => has_year(seconds),
        None => true,
    }
}

fn has_change_text(change: Change) -> bool
    ensures { result ≡ has_change_text change }
{
    match change {
        Change::Revoked(revocation) => {
            has_year(revocation.time) && has_year_if(revocation.invalidity_date)
        }
        Change::Released(time) => has_year(time),
    }
}

fn have_texts(entries: &[Entry]) -> bool
    ensures { result ≡ list_all (λ e. has_change_text e.change) entries.now }
{
    entries.iter().all(|entry| has_change_text(entry.change))
}

fn after_space(alloc: Global, seconds: i64) -> Result<Vec<u8>, AllocError>
    requires { has_year seconds ≡ true }
    ensures { IfOk result (λ text. IsInvalidText (Some seconds) text.items) }
{
    let time = time_text(alloc, seconds)?;
    let mut text = Vec::new(alloc);
    text.push(b' ')?;
    text.extend_from_slice(time.as_bytes())?;
    Ok(text)
}

/// A space and the date since which a key is not to be trusted, where there is one.
fn invalid_text(alloc: Global, seconds: Option<i64>) -> Result<Vec<u8>, AllocError>
    requires { has_year_if seconds ≡ true }
    ensures { IfOk result (λ text. IsInvalidText seconds text.items) }
{
    match seconds {
        Some(seconds) => {
            let text = after_space(alloc, seconds)?;
            Ok(text)
        }
        None => Ok(Vec::new(alloc)),
    }
}

/// The line of an entry.
fn entry_line(
    alloc: Global,
    serial: &Integer,
    at: i64,
    reason: &str,
    date: Option<i64>,
) -> Result<Vec<u8>, AllocError>
    requires time { has_year at ≡ true }
    requires invalid { has_year_if date ≡ true }
    ensures { IfOk result (λ line. IsEntryLine serial.now at reason.now date line.items) }
{
    let digits = hex::encode(alloc, serial.as_bytes())?;
    let time = time_text(alloc, at)?;
    let invalid = invalid_text(alloc, date)?;
    let mut line = Vec::from_slice(alloc, digits.as_bytes())?;
    line.push(b' ')?;
    line.extend_from_slice(time.as_bytes())?;
    line.push(b' ')?;
    line.extend_from_slice(reason.as_bytes())?;
    line.extend_from_slice(invalid.as_slice())?;
    line.push(b'\n')?;
    Ok(line)
}

#[tactic(auto, unfolding(crate::specs::Lines::removal_word))]
fn removal_word() -> &'static str
    ensures { result.now ≡ removal_word }
{
    "removeFromCRL"
}

/// The line of a certificate whose status changed.
fn change_text(alloc: Global, serial: &Integer, change: Change) -> Result<Vec<u8>, AllocError>
    requires { has_change_text change ≡ true }
    ensures { IfOk result (λ text. IsChangeText serial.now change text.items) }
{
    match change {
        Change::Revoked(revocation) => {
            let word = reason_word(revocation.reason);
            let line = entry_line(
                alloc,
                serial,
                revocation.time,
                word,
                revocation.invalidity_date,
            )?;
            Ok(line)
        }
        Change::Released(time) => {
            let line = entry_line(alloc, serial, time, removal_word(), None)?;
            Ok(line)
        }
    }
}

fn revoked_text(alloc: Global, entries: &[Entry]) -> Result<Vec<u8>, AllocError>
    requires { list_all (λ e. has_change_text e.change) entries.now ≡ true }
    ensures { IfOk result (λ text. AreLines entries.now text.items) }
{
    let mut text = Vec::new(alloc);
    for entry in entries {
        let line = change_text(alloc, &entry.serial, entry.change)?;
        text.extend_from_slice(line.as_slice())?;
    }
    Ok(text)
}

fn push_key(text: &mut Vec<u8>, key: &[u8], value: &[u8]) -> Result<(), AllocError>
    ensures { OnOk result (text.new.items ≡ text.old.items ++ key_line key.now value.now) }
{
    text.extend_from_slice(key)?;
    text.extend_from_slice(b" = \"")?;
    text.extend_from_slice(value)?;
    text.extend_from_slice(b"\"\n")?;
    Ok(())
}

/// The octets of the number in hexadecimal digits.
fn number_text(alloc: Global, number: u64) -> Result<String, AllocError>
    ensures { IfOk result (λ text. IsNumberText number (string_bytes text)) }
{
    let octets = u64_to_contents(alloc, number)?;
    let digits = hex::encode(alloc, octets.as_slice())?;
    Ok(digits)
}

/// The line of the base, where there is one.
fn base_line(alloc: Global, base: Option<u64>) -> Result<Vec<u8>, AllocError>
    ensures { IfOk result (λ line. IsBaseLine base line.items) }
{
    let mut line = Vec::new(alloc);
    if let Some(number) = base {
        let digits = number_text(alloc, number)?;
        push_key(&mut line, b"base", digits.as_bytes())?;
    }
    Ok(line)
}

fn order_text(alloc: Global, list: &NextList, more: &[u8]) -> Result<Vec<u8>, AllocError>
    requires this { has_year list.now.this_update ≡ true }
    requires next { has_year list.now.next_update ≡ true }
    ensures { IfOk result (λ text. IsOrder list.now more.now text.items) }
{
    let number = number_text(alloc, list.number)?;
    let base = base_line(alloc, list.base)?;
    let this_update = time_text(alloc, list.this_update)?;
    let next_update = time_text(alloc, list.next_update)?;
    let mut text = Vec::new(alloc);
    push_key(&mut text, b"kind", b"list")?;
    push_key(&mut text, b"number", number.as_bytes())?;
    text.extend_from_slice(base.as_slice())?;
    push_key(&mut text, b"this_update", this_update.as_bytes())?;
    push_key(&mut text, b"next_update", next_update.as_bytes())?;
    text.extend_from_slice(more)?;
    Ok(text)
}

/// The order of a list, with further lines as they are, and the lines of its entries.
pub fn list_order(alloc: Global, list: &NextList, more: &[u8]) -> Result<ListOrder, OrderError>
    ensures ok { IfOk result (IsListOrder list.now more.now) }
    ensures times { OnOk result (has_texts list.now ≡ true) }
    ensures why { IfErr result (ExplainsOrder list.now) }
{
    if !has_year(list.this_update) || !has_year(list.next_update) {
        return Err(OrderError::Time);
    }
    if !have_texts(list.entries.as_slice()) {
        return Err(OrderError::Time);
    }
    let order = order_text(alloc, list, more)?;
    let revoked = revoked_text(alloc, list.entries.as_slice())?;
    Ok(ListOrder { order, revoked })
}
