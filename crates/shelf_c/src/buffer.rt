//! Answers in a buffer.
ghost use Rattle.std.specs.Prelude.{◌≡◌, ◌≤◌, ◌+◌, ◌↔◌, ◌⊎◌, [], ◌∷◌, ◌++◌, true, false, IfOk, drop, length, map};
ghost use Rattle.command_run.specs.Status.{exit_code};
ghost use Rattle.shelf_c.specs.Outcome.{EndsSo, IsAnsweredOrNot, IsLeftOut, IsPut, IsPutAnswer, IsUnanswered};
ghost use Rattle.shelf_core.specs.Outcome.{Gives, IsAnswer};

use crate::outcome::Outcome;
use command_files::ALL_LIMIT;
use command_run::{Answer, Status};
use shelf_command::{Request, Word};
use shelf_core::answer_to;
use std::alloc::{AllocError, Global};

/// The number of an outcome whose answer doesn't fit.
const NO_ROOM: u32 = 8;

/// Puts octets at the front of the buffer, where they fit.
fn put(octets: &[u8], buffer: &mut [u8]) -> bool
    ensures fits { (result ≡ true) ↔ (length octets.now ≤ length buffer.old) }
    ensures there { result ≡ true → buffer.new ≡ octets.now ++ drop (length octets.now) buffer.old }
    ensures kept { result ≡ false → buffer.new ≡ buffer.old }
{
    if octets.len() > buffer.len() {
        return false;
    }
    buffer[..octets.len()].copy_from_slice(octets);
    true
}

/// The text, and after it the complaint.
fn octets_of(answer: Answer) -> Result<Vec<u8>, AllocError>
    ensures { IfOk result (λ octets. octets.items ≡ answer.text.items ++ answer.complaint.items) }
{
    let Answer {
        ending: _,
        text,
        complaint,
    } = answer;
    let mut octets = text;
    octets.extend_from_slice(&complaint)?;
    Ok(octets)
}

/// The number of an ending whose octets are put into the buffer where they fit.
fn number_of(status: Status, octets: &[u8], buffer: &mut [u8]) -> u32
    ensures put { IsPut octets.now buffer.old buffer.new status result ⊎ IsLeftOut octets.now buffer.old buffer.new result }
{
    if put(octets, buffer) {
        u32::from(status.exit_code())
    } else {
        NO_ROOM
    }
}

/// The outcome without an answer.
fn without_answer(status: Status) -> Outcome
    ensures status { result.status ≡ exit_code status }
    ensures count { result.length ≡ 0 }
    ensures told { result.told ≡ 0 }
{
    Outcome {
        status: u32::from(status.exit_code()),
        length: 0,
        told: 0,
    }
}

/// How an answer ends, with its text, and after it its complaint, at the front of the buffer, where both fit.
fn put_answer(answer: Answer, buffer: &mut [u8]) -> Outcome
    ensures { IsPutAnswer answer.ending answer.text.items answer.complaint.items buffer.old buffer.new result ⊎ IsUnanswered Status.OutOfMemory buffer.old buffer.new result }
{
    let status = answer.ending.status();
    let length = answer.text.len();
    let told = answer.complaint.len();
    match octets_of(answer) {
        Ok(octets) => Outcome {
            status: number_of(status, &octets, buffer),
            length,
            told,
        },
        Err(_) => without_answer(Status::OutOfMemory),
    }
}

/// The answer to a subcommand with inputs of so many octets in all.
fn answer_into(
    alloc: Global,
    word: Word,
    names: &[&'static str],
    inputs: &[Vec<u8>],
    buffer: &mut [u8],
) -> Outcome
    ensures { IsAnsweredOrNot (IsAnswer (Gives word false false false (map (λ input. input.items) inputs.now))) buffer.old buffer.new result }
{
    let Ok(request) = Request::on(alloc, word, names) else {
        return without_answer(Status::OutOfMemory);
    };
    let Ok(answer) = answer_to(alloc, &request, inputs) else {
        return without_answer(Status::OutOfMemory);
    };
    put_answer(answer, buffer)
}

/// The inputs as lists of their own.
fn two(alloc: Global, first: &[u8], second: &[u8]) -> Result<Vec<Vec<u8>>, AllocError>
    ensures { IfOk result (λ list. map (λ input. input.items) list.items ≡ first.now ∷ second.now ∷ []) }
{
    let mut list = Vec::new(alloc);
    list.push(Vec::from_slice(alloc, first)?)?;
    list.push(Vec::from_slice(alloc, second)?)?;
    Ok(list)
}

/// The same of three.
fn three(
    alloc: Global,
    first: &[u8],
    second: &[u8],
    third: &[u8],
) -> Result<Vec<Vec<u8>>, AllocError>
    ensures { IfOk result (λ list. map (λ input. input.items) list.items ≡ first.now ∷ second.now ∷ third.now ∷ []) }
{
    let mut list = Vec::new(alloc);
    list.push(Vec::from_slice(alloc, first)?)?;
    list.push(Vec::from_slice(alloc, second)?)?;
    list.push(Vec::from_slice(alloc, third)?)?;
    Ok(list)
}

/// The same of one.
fn one(alloc: Global, first: &[u8]) -> Result<Vec<Vec<u8>>, AllocError>
    ensures { IfOk result (λ list. map (λ input. input.items) list.items ≡ first.now ∷ []) }
{
    let mut list = Vec::new(alloc);
    list.push(Vec::from_slice(alloc, first)?)?;
    Ok(list)
}

/// The answer to a subcommand with one input.
pub(crate) fn of_one(alloc: Global, word: Word, first: &[u8], buffer: &mut [u8]) -> Outcome
    ensures { EndsSo (IsAnswer (Gives word false false false (first.now ∷ []))) (length first.now) buffer.old buffer.new result }
{
    if first.len() > ALL_LIMIT {
        return without_answer(Status::TooLong);
    }
    let Ok(inputs) = one(alloc, first) else {
        return without_answer(Status::OutOfMemory);
    };
    answer_into(alloc, word, &["files"], &inputs, buffer)
}

/// The answer to a subcommand with two inputs.
pub(crate) fn of_two(
    alloc: Global,
    word: Word,
    first: &[u8],
    second: &[u8],
    buffer: &mut [u8],
) -> Outcome
    ensures { EndsSo (IsAnswer (Gives word false false false (first.now ∷ second.now ∷ []))) (length first.now + length second.now) buffer.old buffer.new result }
{
    if first.len().saturating_add(second.len()) > ALL_LIMIT {
        return without_answer(Status::TooLong);
    }
    let Ok(inputs) = two(alloc, first, second) else {
        return without_answer(Status::OutOfMemory);
    };
    answer_into(alloc, word, &["order", "files"], &inputs, buffer)
}

/// The answer to a subcommand with three inputs.
pub(crate) fn of_three(
    alloc: Global,
    word: Word,
    first: &[u8],
    second: &[u8],
    third: &[u8],
    buffer: &mut [u8],
) -> Outcome
    ensures { EndsSo (IsAnswer (Gives word false false false (first.now ∷ second.now ∷ third.now ∷ [])))
        (length first.now + length second.now + length third.now) buffer.old buffer.new result }
{
    if first
        .len()
        .saturating_add(second.len())
        .saturating_add(third.len())
        > ALL_LIMIT
    {
        return without_answer(Status::TooLong);
    }
    let Ok(inputs) = three(alloc, first, second, third) else {
        return without_answer(Status::OutOfMemory);
    };
    answer_into(
        alloc,
        word,
        &["order", "signature", "files"],
        &inputs,
        buffer,
    )
}
