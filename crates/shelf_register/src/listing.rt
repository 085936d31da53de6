//! `list`: the message of the next list.
ghost use Rattle.std.specs.Prelude.{◌≡◌, ◌∷◌, [], None, Some, IfOk, OnOk};
ghost use Rattle.register_lines.specs.Lines.{IsListOrder};
ghost use Rattle.register_record.specs.Decisions.{IsNextList, list_fault_at, next_number};
ghost use Rattle.register_record.specs.declared.event.Event.TheVariants as event;
ghost use Rattle.shelf_core.specs.Answers.{answers};
ghost use Rattle.shelf_register.specs.Listing.{IsListed};
ghost use Rattle.shelf_register.specs.Options.{kind_of};
ghost use Rattle.shelf_register.specs.Steps.{IsList};

use crate::halt::Halt;
use crate::issuing::{Surroundings, copied, issuer_of};
use crate::numbers::days_in;
use crate::options::{Line, Opt};
use crate::requests::list_request;
use crate::times::{later, time_or};
use crate::told::{halted, no_list, no_order};
use asn1_core::OctetString;
use command_run::{Answer, Ending};
use register_driver::Step;
use register_lines::{ListOrder, list_order};
use register_record::{Event, ListKind, NextList, Record};
use shelf_command::Request;
use shelf_core::answer_to;
use std::alloc::{AllocError, Global};

fn kind_of(line: &Line) -> ListKind
    ensures { result ≡ kind_of line.now.given.items }
{
    if line.has(Opt::Delta) {
        ListKind::Delta
    } else {
        ListKind::Complete
    }
}

/// Whether the text may be within quotation marks of TOML as it is.
fn is_quotable(text: &str) -> bool {
    text.bytes().all(|byte| 0x20 <= byte && byte < 0x7f && byte != b'"' && byte != b'\\')
}

/// The line of a key whose value is a text.
fn key_line(
    alloc: Global,
    key: &str,
    option: &str,
    text: &str,
    is_list: bool,
) -> Result<String, Halt> {
    if !is_quotable(text) {
        return Err(crate::halt::bad_input_with(format!(in alloc;
            "{option}: the value isn't a text of printable ASCII characters\n"
        )));
    }
    if is_list {
        Ok(format!(in alloc; "{key} = [\"{text}\"]\n")?)
    } else {
        Ok(format!(in alloc; "{key} = \"{text}\"\n")?)
    }
}

/// The further lines of the order.
fn more_lines(alloc: Global, line: &Line) -> Result<Vec<u8>, Halt> {
    let mut text = Vec::new(alloc);
    if let Some(digest) = line.value(Opt::Digest) {
        let line = key_line(alloc, "digest", "--digest", digest, false)?;
        text.extend_from_slice(line.as_bytes())?;
    }
    if let Some(points) = line.value(Opt::Points) {
        let line = key_line(alloc, "points", "--points", points, true)?;
        text.extend_from_slice(line.as_bytes())?;
    }
    if let Some(scope) = line.value(Opt::Scope) {
        let line = key_line(alloc, "scope", "--scope", scope, false)?;
        text.extend_from_slice(line.as_bytes())?;
    }
    Ok(text)
}

/// What the filter answers to the order of a list and the lines of its entries.
fn answer_of(
    alloc: Global,
    request: &Request,
    order: ListOrder,
    issuer: Vec<u8>,
) -> Result<Answer, AllocError>
    ensures { IfOk result (λ answer. answers request.now (order.order.items ∷ order.revoked.items ∷ issuer.items ∷ [])
        answer.ending answer.text.items answer.complaint.items) }
{
    let mut inputs = Vec::new(alloc);
    inputs.push(order.order)?;
    inputs.push(order.revoked)?;
    inputs.push(issuer)?;
    let answer = answer_to(alloc, request, inputs.as_slice())?;
    Ok(answer)
}

fn number_line(alloc: Global, number: u64) -> Result<Vec<u8>, AllocError> {
    let text = format!(in alloc; "number: {number}\n")?;
    Ok(text.into_bytes())
}

/// The warnings, and then the line with the number.
fn with_number(alloc: Global, complaint: Vec<u8>, number: u64) -> Result<Vec<u8>, AllocError> {
    let line = number_line(alloc, number)?;
    let mut told = complaint;
    told.extend_from_slice(line.as_slice())?;
    Ok(told)
}

/// The event that reserves the number of a list for its message.
fn reservation(
    alloc: Global,
    record: &Record,
    list: &NextList,
    message: OctetString,
    now: i64,
) -> Result<Event, Halt>
    ensures { IfOk result (λ e. e ≡ event.ListReserved (next_number «record».now) list.now.kind list.now.this_update list.now.next_update message) }
{
    match record.reserve_list(list, message, now) {
        Ok(event) => Ok(event),
        Err(refusal) => Err(halted(alloc, refusal)),
    }
}

/// Reserves the number of a list for its message, and reports it.
fn reserve(
    alloc: Global,
    record: &Record,
    list: &NextList,
    text: Vec<u8>,
    complaint: Vec<u8>,
    now: i64,
) -> Result<Step, Halt>
    ensures event { IfOk result (λ step. step.event
        ≡ Some (event.ListReserved (next_number «record».now) list.now.kind list.now.this_update list.now.next_update text.items)) }
    ensures text { IfOk result (λ step. step.answer.text.items ≡ text.items) }
{
    let told = with_number(alloc, complaint, list.number)?;
    let message = copied(alloc, text.as_slice())?;
    let event = reservation(alloc, record, list, message, now)?;
    Ok(Step::recorded(event, text, told))
}

/// The answer as a step: where it is a message, the list's number is reserved for it.
fn reserved(
    alloc: Global,
    record: &Record,
    list: &NextList,
    answer: Answer,
    now: i64,
) -> Result<Step, Halt>
    ensures done { OnOk result (answer.ending ≡ Ending.Done) }
    ensures event { IfOk result (λ step. step.event
        ≡ Some (event.ListReserved (next_number «record».now) list.now.kind list.now.this_update list.now.next_update answer.text.items)) }
    ensures text { IfOk result (λ step. step.answer.text.items ≡ answer.text.items) }
{
    let Answer {
        ending,
        text,
        complaint,
    } = answer;
    let Ending::Done = ending else {
        return Err(Halt::Said(ending, complaint));
    };
    let step = reserve(alloc, record, list, text, complaint, now)?;
    Ok(step)
}

/// A list that is asked for. Times are seconds since 1970.
#[derive(Clone, Copy, Debug)]
pub(crate) struct ListAsked {
    pub(crate) kind: ListKind,
    pub(crate) this_update: i64,
    pub(crate) next_update: i64,
    /// No time may be after it.
    pub(crate) clock: i64,
}

fn next_list(alloc: Global, record: &Record, asked: ListAsked) -> Result<NextList, Halt>
    ensures free { OnOk result (list_fault_at asked.clock asked.kind asked.this_update asked.next_update «record».now ≡ None) }
    ensures list { IfOk result (λ list. IsNextList list asked.kind asked.this_update asked.next_update «record».now) }
{
    match record.next_list(
        alloc,
        asked.kind,
        asked.this_update,
        asked.next_update,
        asked.clock,
    ) {
        Ok(list) => Ok(list),
        Err(error) => Err(no_list(alloc, error)),
    }
}

fn order_of(alloc: Global, list: &NextList, more: &[u8]) -> Result<ListOrder, Halt>
    ensures { IfOk result (IsListOrder list.now more.now) }
{
    match list_order(alloc, list, more) {
        Ok(order) => Ok(order),
        Err(error) => Err(no_order(alloc, error)),
    }
}

/// The step that makes the message of the next list: that of an order of what the record has to list, for
/// which the list's number is reserved.
pub(crate) fn next_list_message(
    alloc: Global,
    record: &Record,
    request: &Request,
    asked: ListAsked,
    more: &[u8],
) -> Result<Step, Halt>
    ensures { IfOk result (λ step. IsListed request.now «record».now asked.kind asked.this_update asked.next_update asked.clock more.now
        step.event step.answer.text.items) }
{
    let issuer = issuer_of(alloc, record)?;
    let list = next_list(alloc, record, asked)?;
    let order = order_of(alloc, &list, more)?;
    let answer = answer_of(alloc, request, order, issuer)?;
    let step = reserved(alloc, record, &list, answer, asked.clock)?;
    Ok(step)
}

fn list_asked(alloc: Global, line: &Line, clock: i64) -> Result<ListAsked, Halt>
    ensures clock { IfOk result (λ asked. asked.clock ≡ clock) }
    ensures kind { IfOk result (λ asked. asked.kind ≡ kind_of line.now.given.items) }
{
    let seconds = days_in(alloc, "--days", line.value(Opt::Days).unwrap_or(""))?;
    let this_update = time_or(alloc, "--time", line.value(Opt::Time), clock)?;
    Ok(ListAsked {
        kind: kind_of(line),
        this_update,
        next_update: later(this_update, seconds),
        clock,
    })
}

/// What `list` comes to.
#[tactic(auto, using(crate::proofs::Steps::list))]
pub(crate) fn listed(
    alloc: Global,
    record: &Record,
    line: &Line,
    around: &Surroundings,
) -> Result<Step, Halt>
    ensures { IfOk result (λ step. IsList line.now.given.items «record».now around.now.clock step.event step.answer.text.items) }
{
    let asked = list_asked(alloc, line, around.clock)?;
    let more = more_lines(alloc, line)?;
    let Some(request) = list_request(alloc, line.has(Opt::Strict))? else {
        return Err(Halt::OutOfMemory);
    };
    let step = next_list_message(alloc, record, &request, asked, more.as_slice())?;
    Ok(step)
}
