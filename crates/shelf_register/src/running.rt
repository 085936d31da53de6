//! A run.
ghost use Rattle.std.specs.Prelude.{◌≡◌, ◌≢◌, ◌⊎◌, ◌∷◌, IfOk, IfSome, Ok, map, string_bytes};
ghost use Rattle.std.specs.Io.KnownBytes.{Appends};
ghost use Rattle.command_run.specs.Io.{AppendsFront};
ghost use Rattle.register.specs.Registers.{IsOpenRegister};
ghost use Rattle.register_driver.specs.Recorded.{IsUntouched};
ghost use Rattle.shelf_register.specs.Runs.{Begins, Ends, HasStepped, HasWritten, RunBegins, RunEnds, is_step};
ghost use Rattle.shelf_register.specs.Steps.{IsStep, IsTbs};
ghost use Rattle.shelf_register.specs.Taken.{IsCarriedOut, IsMade};
ghost use Rattle.shelf_register.specs.Texts.{word_help};

use crate::asked::{Asked, Command, command_of};
use crate::checking::checked;
use crate::creating::issuer_in;
use crate::exporting::exported;
use crate::finding::found;
use crate::halt::{Halt, bad_input};
use crate::importing::{
    Found, Lack, Taken, Totals, blocks_of, check_ended, entry_taken, events_of, found_line,
    imported_line, index_text, is_index, is_list, lacking, lacking_list, line_taken, list_of,
};
use crate::issuing::{Surroundings, issued, issuer_of};
use crate::listing::listed;
use crate::opening::{close, created, opened};
use crate::options::Opt;
use crate::reading::{End, read_named, told};
use crate::renewing::renewed_step;
use crate::requests::{names_of, order_request};
use crate::revoking::revoked;
use crate::sealing::sealed_step;
use crate::text::help_on;
use crate::word::Word;
use command_files::{InputName, Inputs, Outputs};
use command_run::{Answer, Sink, Status, write_all};
use pem::Block;
use register::{AppendError, Register};
use register_driver::{Step, append_status, append_text, done, perform, written};
use register_files::Keeper;
use register_record::{Event, Record};
use register_steps::{IssuedList, ListedEntry};
use sqlite_trees::store::Alter;
use std::alloc::{AllocError, Global};

/// The first input, and the others.
fn parted(inputs: Vec<Vec<u8>>) -> Option<(Vec<u8>, Vec<Vec<u8>>)>
    ensures { IfSome result (λ parts. map (λ input. input.items) inputs.items ≡ parts.0.items ∷ map (λ input. input.items) parts.1.items) }
{
    let mut files = inputs;
    if files.is_empty() {
        return None;
    }
    let order = files.remove(0);
    Some((order, files))
}

#[tactic(auto, using(crate::proofs::Steps::tbs))]
fn step_of_tbs(
    alloc: Global,
    record: &Record,
    asked: &Asked,
    inputs: Vec<Vec<u8>>,
    around: &Surroundings,
) -> Result<Step, Halt>
    ensures { IfOk result (λ step. IsTbs «record».now around.now.random (map (λ input. input.items) inputs.items) step.event step.answer.text.items) }
{
    let Some(request) = order_request(alloc, asked)? else {
        return Err(bad_input(alloc, "standard input can be read once\n"));
    };
    let Some((order, files)) = parted(inputs) else {
        return Err(bad_input(alloc, "ORDER: missing\n"));
    };
    let step = issued(alloc, record, &request, order.as_slice(), files, around)?;
    Ok(step)
}

/// The first input.
fn first(inputs: &[Vec<u8>]) -> Option<&[u8]> {
    match inputs {
        [input, ..] => Some(input.as_slice()),
        [] => None,
    }
}

/// What a subcommand comes to on the record.
fn step_of(
    alloc: Global,
    record: &Record,
    asked: &Asked,
    inputs: Vec<Vec<u8>>,
    around: &Surroundings,
) -> Result<Step, Halt>
    ensures { IfOk result (λ step. IsStep asked.now.word asked.now.line.given.items «record».now around.now.random around.now.clock (map (λ input. input.items) inputs.items)
        step.event step.answer.text.items) }
{
    match asked.word {
        Word::Tbs => {
            let step = step_of_tbs(alloc, record, asked, inputs, around)?;
            Ok(step)
        }
        Word::Seal => {
            let step = sealed_step(alloc, record, &asked.line, first(&inputs))?;
            Ok(step)
        }
        Word::Revoke => {
            let step = revoked(alloc, record, &asked.line, inputs, around)?;
            Ok(step)
        }
        Word::List => {
            let step = listed(alloc, record, &asked.line, around)?;
            Ok(step)
        }
        Word::Find => {
            let step = found(alloc, record, &asked.line, around)?;
            Ok(step)
        }
        Word::Renew => {
            let step = renewed_step(alloc, record, &asked.line, inputs, around)?;
            Ok(step)
        }
        Word::New | Word::Import | Word::Export | Word::Check => {
            Ok(Step::written(alloc, Vec::new(alloc)))
        }
    }
}

fn unrecorded(alloc: Global, error: AppendError) -> End {
    told(
        append_status(error),
        String::from_str(alloc, append_text(error)),
    )
}

/// Records an event.
fn record_event<S: Alter>(
    alloc: Global,
    register: &mut Register<S>,
    event: Event,
) -> Result<(), End>
    requires { IsOpenRegister register.old.is_closed (S.Store.view register.old.store) register.old.record }
    ensures { IsOpenRegister register.new.is_closed (S.Store.view register.new.store) register.new.record }
{
    match register.append(alloc, event) {
        Ok(()) => Ok(()),
        Err(error) => Err(unrecorded(alloc, error)),
    }
}

/// Records what is lacking; whether something was.
fn record_lack<S: Alter>(alloc: Global, register: &mut Register<S>, lack: Lack) -> Result<bool, End>
    requires { IsOpenRegister register.old.is_closed (S.Store.view register.old.store) register.old.record }
    ensures { IsOpenRegister register.new.is_closed (S.Store.view register.new.store) register.new.record }
{
    match lack {
        Lack::Nothing => Ok(false),
        Lack::Octets(sealed) => {
            record_event(alloc, register, sealed)?;
            Ok(true)
        }
        Lack::Both(reserved, sealed) => {
            record_event(alloc, register, reserved)?;
            record_event(alloc, register, sealed)?;
            Ok(true)
        }
    }
}

/// Records a certificate, unless it is there; whether it wasn't.
fn import_certificate<S: Alter>(
    alloc: Global,
    register: &mut Register<S>,
    issuer: &[u8],
    octets: &[u8],
) -> Result<bool, End>
    requires { IsOpenRegister register.old.is_closed (S.Store.view register.old.store) register.old.record }
    ensures { IsOpenRegister register.new.is_closed (S.Store.view register.new.store) register.new.record }
{
    let events = events_of(alloc, issuer, octets)?;
    let lack = lacking(alloc, &register.record, events)?;
    let was_lacking = record_lack(alloc, register, lack)?;
    Ok(was_lacking)
}

/// Checks that the record takes each entry of a list.
fn check_entries(
    alloc: Global,
    record: &Record,
    name: &str,
    list: &IssuedList,
    now: i64,
) -> Result<(), End> {
    for entry in list.entries.as_slice() {
        let _taken = entry_taken(alloc, record, name, entry, now)?;
    }
    Ok(())
}

/// Records the revocation of an entry of a list, unless it is there; whether it wasn't.
fn import_entry<S: Alter>(
    alloc: Global,
    register: &mut Register<S>,
    name: &str,
    entry: &ListedEntry,
    now: i64,
) -> Result<bool, End>
    requires { IsOpenRegister register.old.is_closed (S.Store.view register.old.store) register.old.record }
    ensures { IsOpenRegister register.new.is_closed (S.Store.view register.new.store) register.new.record }
{
    match entry_taken(alloc, &register.record, name, entry, now)? {
        Taken::Revocation(event) => {
            record_event(alloc, register, event)?;
            Ok(true)
        }
        _ => Ok(false),
    }
}

/// Records the revocations of a list: how many weren't there.
fn import_entries<S: Alter>(
    alloc: Global,
    register: &mut Register<S>,
    name: &str,
    entries: Vec<ListedEntry>,
    now: i64,
) -> Result<usize, End>
    requires { IsOpenRegister register.old.is_closed (S.Store.view register.old.store) register.old.record }
    ensures { IsOpenRegister register.new.is_closed (S.Store.view register.new.store) register.new.record }
{
    let mut count = 0usize;
    'entries: for entry in entries {
        if import_entry(alloc, register, name, &entry, now)? {
            count = count.saturating_add(1);
        }
    }
    Ok(count)
}

/// Records a list, unless it is there, and then its revocations. A list that isn't taken whole is
/// refused before anything of it is recorded.
fn import_list<S: Alter>(
    alloc: Global,
    register: &mut Register<S>,
    name: &str,
    issuer: &[u8],
    octets: &[u8],
    now: i64,
) -> Result<(bool, usize), End>
    requires { IsOpenRegister register.old.is_closed (S.Store.view register.old.store) register.old.record }
    ensures { IsOpenRegister register.new.is_closed (S.Store.view register.new.store) register.new.record }
{
    let list = list_of(alloc, name, issuer, octets)?;
    let lack = lacking_list(alloc, &register.record, &list, octets, now)?;
    check_ended(alloc, &register.record, name, &lack, list.this_update)?;
    check_entries(alloc, &register.record, name, &list, now)?;
    let was_lacking = record_lack(alloc, register, lack)?;
    let count = import_entries(alloc, register, name, list.entries, now)?;
    Ok((was_lacking, count))
}

/// With one more, where it wasn't there.
fn one_more(count: usize, was_lacking: bool) -> usize {
    if was_lacking {
        count.saturating_add(1)
    } else {
        count
    }
}

/// Records a certificate or a list: what there is then besides what was found.
fn import_block<S: Alter>(
    alloc: Global,
    register: &mut Register<S>,
    name: &str,
    issuer: &[u8],
    block: &Block,
    now: i64,
    found: Found,
) -> Result<Found, End>
    requires { IsOpenRegister register.old.is_closed (S.Store.view register.old.store) register.old.record }
    ensures { IsOpenRegister register.new.is_closed (S.Store.view register.new.store) register.new.record }
{
    if is_list(block) {
        let (was_lacking, count) = import_list(alloc, register, name, issuer, block.octets(), now)?;
        Ok(Found {
            has_lists: true,
            lists: one_more(found.lists, was_lacking),
            revocations: found.revocations.saturating_add(count),
            ..found
        })
    } else {
        let was_lacking = import_certificate(alloc, register, issuer, block.octets())?;
        Ok(Found {
            certificates: one_more(found.certificates, was_lacking),
            ..found
        })
    }
}

/// Records the certificates and lists of a file: how many weren't there.
fn import_blocks<S: Alter>(
    alloc: Global,
    register: &mut Register<S>,
    name: &str,
    blocks: Vec<Block>,
    now: i64,
) -> Result<Found, End>
    requires { IsOpenRegister register.old.is_closed (S.Store.view register.old.store) register.old.record }
    ensures { IsOpenRegister register.new.is_closed (S.Store.view register.new.store) register.new.record }
{
    let issuer = issuer_of(alloc, &register.record)?;
    let mut found = Found {
        certificates: 0,
        has_lists: false,
        lists: 0,
        revocations: 0,
    };
    'blocks: for block in blocks {
        found = import_block(alloc, register, name, issuer.as_slice(), &block, now, found)?;
    }
    Ok(found)
}

/// Records the revocation of a line of an index, if it has one.
fn import_line<S: Alter>(
    alloc: Global,
    register: &mut Register<S>,
    name: &str,
    number: usize,
    line: &str,
    now: i64,
) -> Result<Totals, End>
    requires { IsOpenRegister register.old.is_closed (S.Store.view register.old.store) register.old.record }
    ensures { IsOpenRegister register.new.is_closed (S.Store.view register.new.store) register.new.record }
{
    match line_taken(alloc, &register.record, name, number, line, now)? {
        Taken::Revocation(event) => {
            record_event(alloc, register, event)?;
            Ok(Totals {
                count: 1,
                unknown: 0,
            })
        }
        Taken::Unknown => Ok(Totals {
            count: 0,
            unknown: 1,
        }),
        Taken::Nothing => Ok(Totals {
            count: 0,
            unknown: 0,
        }),
    }
}

/// Records the revocations of an index.
fn import_index<S: Alter>(
    alloc: Global,
    register: &mut Register<S>,
    name: &str,
    text: &str,
    now: i64,
) -> Result<Totals, End>
    requires { IsOpenRegister register.old.is_closed (S.Store.view register.old.store) register.old.record }
    ensures { IsOpenRegister register.new.is_closed (S.Store.view register.new.store) register.new.record }
{
    let mut number = 0usize;
    let mut count = 0usize;
    let mut unknown = 0usize;
    'lines: for line in text.lines() {
        number = number.saturating_add(1);
        let taken = import_line(alloc, register, name, number, line, now)?;
        count = count.saturating_add(taken.count);
        unknown = unknown.saturating_add(taken.unknown);
    }
    Ok(Totals { count, unknown })
}

/// Records what a file has, and returns the message about it.
fn import_file<S: Alter>(
    alloc: Global,
    register: &mut Register<S>,
    name: &str,
    file: Vec<u8>,
    now: i64,
) -> Result<Vec<u8>, End>
    requires { IsOpenRegister register.old.is_closed (S.Store.view register.old.store) register.old.record }
    ensures { IsOpenRegister register.new.is_closed (S.Store.view register.new.store) register.new.record }
{
    if is_index(file.as_slice()) {
        let text = index_text(alloc, name, file.as_slice())?;
        let totals = import_index(alloc, register, name, text, now)?;
        let told = imported_line(alloc, name, totals)?;
        return Ok(told);
    }
    let blocks = blocks_of(alloc, name, file)?;
    let found = import_blocks(alloc, register, name, blocks, now)?;
    let told = found_line(alloc, name, found)?;
    Ok(told)
}

fn name_at(names: &[InputName], place: usize) -> &str {
    match names.get(place) {
        Some(named) => named.name(),
        None => "-",
    }
}

/// A file with its name's place.
#[derive(Drop)]
struct Placed {
    place: usize,
    file: Vec<u8>,
}

/// The files in their order, but for indexes, which come last: a list takes revocations that the register
/// doesn't have yet.
fn indexes_last(alloc: Global, inputs: Vec<Vec<u8>>) -> Result<Vec<Placed>, AllocError> {
    let mut files = Vec::new(alloc);
    let mut indexes = Vec::new(alloc);
    let mut place = 0usize;
    for file in inputs {
        if is_index(file.as_slice()) {
            indexes.push(Placed { place, file })?;
        } else {
            files.push(Placed { place, file })?;
        }
        place = place.saturating_add(1);
    }
    files.append(&mut indexes)?;
    Ok(files)
}

/// Records what each file has.
fn imported<S: Alter>(
    alloc: Global,
    register: &mut Register<S>,
    names: &[InputName],
    inputs: Vec<Vec<u8>>,
    around: &Surroundings,
) -> Result<Answer, End>
    requires { IsOpenRegister register.old.is_closed (S.Store.view register.old.store) register.old.record }
{
    let mut complaint = Vec::new(alloc);
    let placed = indexes_last(alloc, inputs)?;
    'files: for input in placed {
        let Placed { place, file } = input;
        let told = import_file(alloc, register, name_at(names, place), file, around.clock)?;
        if complaint.extend_from_slice(told.as_slice()).is_err() {
            return Err(End::OutOfMemory);
        }
    }
    Ok(done(Vec::new(alloc), complaint))
}

fn read_out<S: Alter>(
    alloc: Global,
    register: &mut Register<S>,
    is_check: bool,
) -> Result<Answer, End> {
    let count = register.record.count();
    let text = if is_check {
        checked(alloc, &mut register.store, count)?
    } else {
        exported(alloc, &mut register.store, count)?
    };
    Ok(done(text, Vec::new(alloc)))
}

/// What the system says.
fn surroundings<R: Keeper>(alloc: Global, keeper: &mut R) -> Result<Surroundings, End> {
    let Some(random) = keeper.random() else {
        return Err(told(
            Status::ReadFault,
            String::from_str(alloc, "the system gives no random octets\n"),
        ));
    };
    let Some(clock) = keeper.now() else {
        return Err(told(
            Status::ReadFault,
            String::from_str(alloc, "the system's clock can't be read\n"),
        ));
    };
    Ok(Surroundings { random, clock })
}

/// Makes the register of an issuer.
fn make<R: Keeper>(
    alloc: Global,
    keeper: &mut R,
    asked: &Asked,
    names: &[InputName],
    inputs: Vec<Vec<u8>>,
) -> Result<Answer, End> {
    let mut inputs = inputs;
    let file = inputs.pop().unwrap_or(Vec::new(alloc));
    let certificate = issuer_in(alloc, name_at(names, 0), file)?;
    let register = created(alloc, keeper, asked.register.as_str(), certificate)?;
    close(alloc, keeper, asked.register.as_str(), register);
    Ok(done(Vec::new(alloc), Vec::new(alloc)))
}

/// What a subcommand of `register` comes to, which has no step.
fn answered<R: Keeper>(
    alloc: Global,
    keeper: &mut R,
    asked: &Asked,
    names: &[InputName],
    inputs: Vec<Vec<u8>>,
) -> Result<Answer, End> {
    if asked.word == Word::New {
        return make(alloc, keeper, asked, names, inputs);
    }
    let around = surroundings(alloc, keeper)?;
    let mut register = opened(alloc, keeper, asked.register.as_str())?;
    let answer = match asked.word {
        Word::Import => imported(alloc, &mut register, names, inputs, &around),
        Word::Export => read_out(alloc, &mut register, false),
        _ => read_out(alloc, &mut register, true),
    };
    close(alloc, keeper, asked.register.as_str(), register);
    answer
}

/// Makes the step of a subcommand on the register, records it, and then writes its answer: nothing is
/// written before the event of the step is recorded.
#[tactic(auto, using(crate::proofs::Taken::made, crate::proofs::Taken::carried))]
fn take_step<S: Alter, O: Outputs, K: Sink, L: Sink>(
    alloc: Global,
    register: &mut Register<S>,
    asked: &Asked,
    inputs: Vec<Vec<u8>>,
    around: &Surroundings,
    outputs: &mut O,
    sink: &mut K,
    complaints: &mut L,
) -> Result<Status, End>
    requires { IsOpenRegister register.old.is_closed (S.Store.view register.old.store) register.old.record }
    ensures kept { IsOpenRegister register.new.is_closed (S.Store.view register.new.store) register.new.record }
    ensures first { IsUntouched (O.held outputs.old) (O.held outputs.new) (K.written sink.old) (K.written sink.new)
        ⊎ IsMade asked.now.word asked.now.line.given.items around.now.random around.now.clock (map (λ input. input.items) inputs.items) register.old.record register.new.record }
    ensures done { result ≡ Ok Status.Done → IsCarriedOut asked.now.word asked.now.line.given.items around.now.random around.now.clock (map (λ input. input.items) inputs.items)
        register.old.record register.new.record (O.held outputs.old) (O.held outputs.new) (K.written sink.old) (K.written sink.new) }
{
    let step = step_of(alloc, &register.record, asked, inputs, around)?;
    let target = asked.line.value(Opt::Out);
    let status = perform(alloc, register, step, outputs, sink, complaints, target);
    Ok(status)
}

/// Opens the register, makes the step of a subcommand, records it, writes its answer and closes the
/// register.
#[tactic(auto, using(crate::proofs::Runs::stepped, crate::proofs::Runs::wrote))]
fn stepped<R: Keeper, O: Outputs, K: Sink, L: Sink>(
    alloc: Global,
    keeper: &mut R,
    asked: &Asked,
    inputs: Vec<Vec<u8>>,
    outputs: &mut O,
    sink: &mut K,
    complaints: &mut L,
) -> Result<Status, End>
    ensures first { IsUntouched (O.held outputs.old) (O.held outputs.new) (K.written sink.old) (K.written sink.new) ⊎ HasStepped asked.now.word }
    ensures done { result ≡ Ok Status.Done → HasWritten asked.now.word (O.held outputs.old) (O.held outputs.new) (K.written sink.old) (K.written sink.new) }
{
    let around = surroundings(alloc, keeper)?;
    let mut register = opened(alloc, keeper, asked.register.as_str())?;
    let status = take_step(
        alloc,
        &mut register,
        asked,
        inputs,
        &around,
        outputs,
        sink,
        complaints,
    );
    close(alloc, keeper, asked.register.as_str(), register);
    status
}

/// Whether the subcommand makes a step on the record.
fn is_step(word: Word) -> bool
    ensures { result ≡ is_step word }
{
    !matches!(word, Word::New | Word::Import | Word::Export | Word::Check)
}

/// Does what is asked of files that were read.
#[tactic(auto, using(crate::proofs::Runs::began, crate::proofs::Runs::began_otherwise, crate::proofs::Runs::not_begun, crate::proofs::Runs::ended, crate::proofs::Runs::ended_otherwise))]
fn carry_out_on<R: Keeper, O: Outputs, K: Sink, L: Sink>(
    alloc: Global,
    asked: &Asked,
    keeper: &mut R,
    names: &[InputName],
    given: Vec<Vec<u8>>,
    outputs: &mut O,
    sink: &mut K,
    complaints: &mut L,
) -> Result<Status, End>
    ensures first { Begins (is_step asked.now.word) asked.now.word (O.held outputs.old) (O.held outputs.new) (K.written sink.old) (K.written sink.new) }
    ensures done { result ≡ Ok Status.Done
        → Ends (is_step asked.now.word) asked.now.word (O.held outputs.old) (O.held outputs.new) (K.written sink.old) (K.written sink.new) }
{
    if is_step(asked.word) {
        let status = stepped(alloc, keeper, asked, given, outputs, sink, complaints)?;
        return Ok(status);
    }
    let answer = answered(alloc, keeper, asked, names, given)?;
    let target = asked.line.value(Opt::Out);
    Ok(written(alloc, outputs, sink, complaints, target, &answer))
}

/// Reads the files, and does what is asked.
#[tactic(auto, using(crate::proofs::Runs::not_begun))]
fn carry_out<R: Keeper, I: Inputs, O: Outputs, K: Sink, L: Sink>(
    alloc: Global,
    asked: &Asked,
    keeper: &mut R,
    inputs: &I,
    outputs: &mut O,
    sink: &mut K,
    complaints: &mut L,
) -> Result<Status, End>
    ensures first { Begins (is_step asked.now.word) asked.now.word (O.held outputs.old) (O.held outputs.new) (K.written sink.old) (K.written sink.new) }
    ensures done { result ≡ Ok Status.Done
        → Ends (is_step asked.now.word) asked.now.word (O.held outputs.old) (O.held outputs.new) (K.written sink.old) (K.written sink.new) }
{
    let names = names_of(alloc, asked)?;
    let given = read_named(alloc, inputs, names.as_slice())?;
    let status = carry_out_on(
        alloc,
        asked,
        keeper,
        names.as_slice(),
        given,
        outputs,
        sink,
        complaints,
    )?;
    Ok(status)
}

/// What standard error is given where memory is refused.
const NO_MEMORY: &[u8] = b"memory was refused\n";

fn tell<L: Sink>(complaints: &mut L, status: Status, text: &[u8]) -> Status
    ensures { result ≡ status }
{
    let _told = write_all(complaints, text);
    status
}

fn write_help<K: Sink>(sink: &mut K, word: Word) -> Status
    ensures front { AppendsFront (K.written sink.old) (K.written sink.new) (word_help word) }
    ensures whole { result ≡ Status.Done → Appends (K.written sink.old) (K.written sink.new) (word_help word) }
{
    match write_all(sink, help_on(word).as_bytes()) {
        Ok(()) => Status::Done,
        Err(_) => Status::WriteFault,
    }
}

/// The status of a run that didn't come to its end: never that of one that did.
fn failure(status: Status) -> Status
    ensures { result ≢ Status.Done }
{
    match status {
        Status::Done => Status::Refused,
        other => other,
    }
}

/// The status of what was done, or that of an error, whose message it writes.
fn ended<L: Sink>(complaints: &mut L, outcome: Result<Status, End>) -> Status
    ensures { result ≡ Status.Done → outcome ≡ Ok Status.Done }
{
    match outcome {
        Ok(status) => status,
        Err(End::Told(status, text)) => tell(complaints, failure(status), text.as_slice()),
        Err(End::OutOfMemory) => tell(complaints, Status::OutOfMemory, NO_MEMORY),
    }
}

/// Does what the words ask for with a register: at any status nothing of a step's answer is written
/// before its event is recorded, and with status 0 the step of the subcommand that the words name is
/// recorded and written, or else the help on a subcommand, or the answer of a subcommand of `register`.
#[tactic(auto, using(crate::proofs::Runs::run_untouched, crate::proofs::Runs::run_helps, crate::proofs::Runs::run_begins, crate::proofs::Runs::run_helped, crate::proofs::Runs::run_ends))]
pub fn run<R: Keeper, I: Inputs, O: Outputs, K: Sink, L: Sink>(
    alloc: Global,
    words: &[String],
    keeper: &mut R,
    inputs: &I,
    outputs: &mut O,
    sink: &mut K,
    complaints: &mut L,
) -> Status
    ensures first { RunBegins (map string_bytes words.now) (O.held outputs.old) (O.held outputs.new) (K.written sink.old) (K.written sink.new) }
    ensures done { result ≡ Status.Done
        → RunEnds (map string_bytes words.now) (O.held outputs.old) (O.held outputs.new) (K.written sink.old) (K.written sink.new) }
{
    let asked = match command_of(alloc, words) {
        Ok(Command::Run(asked)) => asked,
        Ok(Command::HelpOn(word)) => return write_help(sink, word),
        Ok(Command::Wrong(text)) => return tell(complaints, Status::Usage, text.as_bytes()),
        Err(_) => return tell(complaints, Status::OutOfMemory, NO_MEMORY),
    };
    let outcome = carry_out(alloc, &asked, keeper, inputs, outputs, sink, complaints);
    ended(complaints, outcome)
}
