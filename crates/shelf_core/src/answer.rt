//! What the program answers to a request with its inputs.
ghost use Rattle.std.specs.Prelude.{◌≡◌, ◌≢◌, false, true, [], ◌∷◌, Ok, IfOk, IfErr, map};
ghost use Rattle.std.specs.Option.{option_map};
ghost use Rattle.base64.specs.GeneralPurpose.{IsBytes};
ghost use Rattle.pem.specs.Abnf.{is_label};
ghost use Rattle.pem.specs.Text.{pem_text};
ghost use Rattle.shelf_fault.specs.Faults.{Gets};
ghost use Rattle.rule_texts.specs.Lines.{finding_lines};
ghost use Rattle.shelf_fault.specs.declared.fault.Fault.TheVariants.{OutOfMemory};
ghost use Rattle.shelf_input.specs.Signatures.{signature_in};
ghost use Rattle.shelf_path.specs.Asked.{asked_in};
ghost use Rattle.shelf_core.specs.Answers.{answers};
ghost use Rattle.shelf_core.specs.Explaining.{explained_in, explained_json};
ghost use Rattle.shelf_core.specs.Outcome.{Comes, Finds, Gives, IsReadBack, Looks, OfOrder, Seals, Tells, done, ending_of, faulty, first, lint_in, ordered_in, ordered_with, outcome, outcome_or_fault, rest, sealed_text, stops, text_or_fault, unless_stopped};

use crate::explaining::{explained, explained_json};
use crate::linting::linted;
use crate::text::{help_text, version_text, word_help};
use command_run::{Answer, Ending};
use pem::{pem_text, written_is_read};
use revoked_lines::with_revoked;
use rule_table::Rule;
use rule_texts::{finding_lines, has_error};
use shelf_command::{Action, Request, Word};
use shelf_fault::Fault;
use shelf_input::{blocks_in, order_in, signature_in};
use shelf_job::{Job, job_of};
use shelf_path::verdict_of;
use shelf_tell::{Named, OrderForm, complaint};
use std::alloc::{AllocError, Global};

/// The first input; an empty one where there is none.
fn first(inputs: &[Vec<u8>]) -> &[u8]
    ensures { result.now ≡ first (map (λ input. input.items) inputs.now) }
{
    match inputs {
        [input, ..] => input.as_slice(),
        [] => &[],
    }
}

/// The inputs after the first.
fn rest(inputs: &[Vec<u8>]) -> &[Vec<u8>]
    ensures { map (λ input. input.items) result.now ≡ rest (map (λ input. input.items) inputs.now) }
{
    match inputs {
        [_, rest @ ..] => rest,
        [] => &[],
    }
}

/// What an order comes to with the entries of a file of `--revoked`, where one is given, and with the blocks of files.
#[tactic(auto, unfolding(crate::specs::Outcome::ordered_in))]
fn ordered_in(
    alloc: Global,
    order: &[u8],
    revoked: Option<&[u8]>,
    files: &[Vec<u8>],
) -> Result<Job, Fault>
    ensures { Gets (λ j. j) (ordered_in order.now (option_map (λ text. text.now) revoked.entry) (map (λ file. file.items) files.now)) result }
{
    let own = order_in(alloc, order)?;
    let order = with_revoked(alloc, own, revoked)?;
    let blocks = blocks_in(alloc, files)?;
    let job = job_of(alloc, order, blocks)?;
    Ok(job)
}

/// The same of the inputs after an order and a signature: the file of `--revoked`, where it is among them, and the files.
fn ordered_with(
    alloc: Global,
    has_revoked: bool,
    order: &[u8],
    inputs: &[Vec<u8>],
) -> Result<Job, Fault>
    ensures { Gets (λ j. j) (ordered_with has_revoked order.now (map (λ input. input.items) inputs.now)) result }
{
    if has_revoked {
        ordered_in(alloc, order, Some(first(inputs)), rest(inputs))
    } else {
        ordered_in(alloc, order, None, inputs)
    }
}

// A law: octets are below 256.
fn are_octets(octets: &[u8])
    ensures { IsBytes octets.now }
{}

/// The text of a block, in which that block alone is read.
fn block_text(alloc: Global, label: &[u8], octets: &[u8]) -> Result<Vec<u8>, AllocError>
    requires { is_label label.now ≡ true }
    ensures text { IfOk result (λ text. text.items ≡ pem_text label.now octets.now) }
    ensures read_back { IsReadBack label.now octets.now }
{
    are_octets(octets);
    written_is_read();
    pem_text(alloc, label, octets)
}

/// What is issued, as DER or as PEM.
fn sealed_text(
    alloc: Global,
    is_der: bool,
    label: &[u8],
    der: Vec<u8>,
) -> Result<Vec<u8>, AllocError>
    requires { is_label label.now ≡ true }
    ensures text { IfOk result (λ text. text.items ≡ sealed_text is_der label.now der.items) }
    ensures read_back { IsReadBack label.now der.items }
{
    let text = block_text(alloc, label, &der)?;
    if is_der { Ok(der) } else { Ok(text) }
}

/// What is written for a request: the output and the warnings, a fault, or the rules that stop it.
#[derive(Drop)]
pub(crate) enum Text {
    Done(Vec<u8>, Vec<u8>),
    Refused(Vec<u8>),
    Stopped(Vec<u8>),
}

/// What is asked for, with nothing beside it.
fn alone(alloc: Global, text: Vec<u8>) -> Text
    ensures { outcome result ≡ done text.items [] }
{
    Text::Done(text, Vec::new(alloc))
}

/// Whether an order stops at these rules: at an error, and where it is strict at a warning too.
fn stops(is_strict: bool, broken: &[Rule]) -> bool
    ensures { result ≡ stops is_strict broken.now }
{
    has_error(broken) || (is_strict && !broken.is_empty())
}

/// The text with a line for each rule that is broken, unless they stop the order.
fn with_notes(
    alloc: Global,
    is_strict: bool,
    text: Vec<u8>,
    broken: &[Rule],
) -> Result<Text, asn1_core::OutOfMemory>
    ensures { IfOk result (λ t. outcome t ≡ unless_stopped is_strict broken.now text.items (finding_lines broken.now)) }
{
    let lines = finding_lines(alloc, broken)?;
    if stops(is_strict, broken) {
        Ok(Text::Stopped(lines))
    } else {
        Ok(Text::Done(text, lines))
    }
}

/// The text with nothing beside it, unless rules that are broken stop the order.
fn without_notes(
    alloc: Global,
    is_strict: bool,
    text: Vec<u8>,
    broken: &[Rule],
) -> Result<Text, asn1_core::OutOfMemory>
    ensures { IfOk result (λ t. outcome t ≡ unless_stopped is_strict broken.now text.items []) }
{
    if stops(is_strict, broken) {
        let lines = finding_lines(alloc, broken)?;
        Ok(Text::Stopped(lines))
    } else {
        Ok(Text::Done(text, Vec::new(alloc)))
    }
}

/// What `tbs` writes.
fn told(alloc: Global, is_strict: bool, job: Job) -> Result<Text, Fault>
    ensures text { IfOk result (λ text. Tells is_strict job (outcome text)) }
    ensures why { IfErr result (λ fault. fault ≢ OutOfMemory → Tells is_strict job (faulty fault)) }
{
    let message = job.to_be_signed(alloc)?;
    let broken = job.into_broken_rules(alloc, &message)?;
    let text = with_notes(alloc, is_strict, message, &broken)?;
    Ok(text)
}

/// What `lint` writes with an order.
fn looked_at(alloc: Global, is_strict: bool, job: Job) -> Result<Text, Fault>
    ensures text { IfOk result (λ text. Looks is_strict job (outcome text)) }
    ensures why { IfErr result (λ fault. fault ≢ OutOfMemory → Looks is_strict job (faulty fault)) }
{
    let message = job.to_be_signed(alloc)?;
    let broken = job.into_broken_rules(alloc, &message)?;
    let text = with_notes(alloc, is_strict, Vec::new(alloc), &broken)?;
    Ok(text)
}

/// What `seal` writes with a signature.
fn sealed(
    alloc: Global,
    is_strict: bool,
    is_der: bool,
    signature: &[u8],
    job: Job,
) -> Result<Text, Fault>
    ensures text { IfOk result (λ text. Seals is_strict is_der (Ok signature.now) job (outcome text)) }
    ensures why { IfErr result (λ fault. fault ≢ OutOfMemory → Seals is_strict is_der (Ok signature.now) job (faulty fault)) }
{
    let message = job.to_be_signed(alloc)?;
    let der = job.sealed(alloc, &message, signature)?;
    let label = job.label();
    let broken = job.into_broken_rules(alloc, &message)?;
    let text = sealed_text(alloc, is_der, label, der)?;
    let sealed = without_notes(alloc, is_strict, text, &broken)?;
    Ok(sealed)
}

/// What `seal` writes with the signature of a file.
fn sealed_with(
    alloc: Global,
    is_strict: bool,
    is_der: bool,
    file: &[u8],
    job: Job,
) -> Result<Text, Fault>
    ensures text { IfOk result (λ text. Seals is_strict is_der (signature_in file.now) job (outcome text)) }
    ensures why { IfErr result (λ fault. fault ≢ OutOfMemory → Seals is_strict is_der (signature_in file.now) job (faulty fault)) }
{
    let signature = signature_in(alloc, file)?;
    let text = sealed(alloc, is_strict, is_der, signature.as_slice(), job)?;
    Ok(text)
}

/// What `tbs` writes for an order and the inputs after it.
fn tbs(
    alloc: Global,
    is_strict: bool,
    has_revoked: bool,
    order: &[u8],
    inputs: &[Vec<u8>],
) -> Result<Text, Fault>
    ensures text { IfOk result (λ text. OfOrder (Tells is_strict) (ordered_with has_revoked order.now (map (λ input. input.items) inputs.now)) (outcome text)) }
    ensures why { IfErr result (λ fault. fault ≢ OutOfMemory → OfOrder (Tells is_strict) (ordered_with has_revoked order.now (map (λ input. input.items) inputs.now)) (faulty fault)) }
{
    let job = ordered_with(alloc, has_revoked, order, inputs)?;
    let text = told(alloc, is_strict, job)?;
    Ok(text)
}

/// What `lint` writes for an order and the inputs after it.
fn lint_order(
    alloc: Global,
    is_strict: bool,
    has_revoked: bool,
    order: &[u8],
    inputs: &[Vec<u8>],
) -> Result<Text, Fault>
    ensures text { IfOk result (λ text. OfOrder (Looks is_strict) (ordered_with has_revoked order.now (map (λ input. input.items) inputs.now)) (outcome text)) }
    ensures why { IfErr result (λ fault. fault ≢ OutOfMemory → OfOrder (Looks is_strict) (ordered_with has_revoked order.now (map (λ input. input.items) inputs.now)) (faulty fault)) }
{
    let job = ordered_with(alloc, has_revoked, order, inputs)?;
    let text = looked_at(alloc, is_strict, job)?;
    Ok(text)
}

/// What `seal` writes for an order, the file of a signature and the inputs after these.
fn seal(
    alloc: Global,
    is_strict: bool,
    is_der: bool,
    has_revoked: bool,
    file: &[u8],
    order: &[u8],
    inputs: &[Vec<u8>],
) -> Result<Text, Fault>
    ensures text { IfOk result (λ text. OfOrder (Seals is_strict is_der (signature_in file.now)) (ordered_with has_revoked order.now (map (λ input. input.items) inputs.now)) (outcome text)) }
    ensures why { IfErr result (λ fault. fault ≢ OutOfMemory → OfOrder (Seals is_strict is_der (signature_in file.now)) (ordered_with has_revoked order.now (map (λ input. input.items) inputs.now)) (faulty fault)) }
{
    let job = ordered_with(alloc, has_revoked, order, inputs)?;
    let text = sealed_with(alloc, is_strict, is_der, file, job)?;
    Ok(text)
}

/// What `lint` writes of files.
fn lint(alloc: Global, is_json: bool, is_strict: bool, files: &[Vec<u8>]) -> Result<Text, Fault>
    ensures text { IfOk result (λ text. outcome text ≡ outcome_or_fault (lint_in is_json is_strict (map (λ file. file.items) files.now))) }
    ensures why { IfErr result (λ fault. fault ≢ OutOfMemory → faulty fault ≡ outcome_or_fault (lint_in is_json is_strict (map (λ file. file.items) files.now))) }
{
    let text = linted(alloc, is_json, is_strict, files)?;
    Ok(text)
}

/// What `explain` writes.
fn explain(alloc: Global, files: &[Vec<u8>]) -> Result<Text, Fault>
    ensures text { IfOk result (λ text. outcome text ≡ text_or_fault (explained_in (map (λ file. file.items) files.now))) }
    ensures why { IfErr result (λ fault. fault ≢ OutOfMemory → faulty fault ≡ text_or_fault (explained_in (map (λ file. file.items) files.now))) }
{
    let text = explained(alloc, files)?;
    Ok(alone(alloc, text))
}

/// What `explain` writes with `--json`.
fn explain_as_json(alloc: Global, files: &[Vec<u8>]) -> Result<Text, Fault>
    ensures text { IfOk result (λ text. outcome text ≡ text_or_fault (explained_json (map (λ file. file.items) files.now))) }
    ensures why { IfErr result (λ fault. fault ≢ OutOfMemory → faulty fault ≡ text_or_fault (explained_json (map (λ file. file.items) files.now))) }
{
    let text = explained_json(alloc, files)?;
    Ok(alone(alloc, text))
}

/// What `path` writes.
#[tactic(auto, using(crate::proofs::Judged::valid, crate::proofs::Judged::invalid))]
fn judged(alloc: Global, question: &[u8], files: &[Vec<u8>]) -> Result<Text, Fault>
    ensures text { IfOk result (λ text. Finds (asked_in question.now (map (λ file. file.items) files.now)) (outcome text)) }
    ensures why { IfErr result (λ fault. fault ≢ OutOfMemory → Finds (asked_in question.now (map (λ file. file.items) files.now)) (faulty fault)) }
{
    let verdict = verdict_of(alloc, question, files)?;
    let text = verdict.text(alloc)?;
    if verdict.is_valid() {
        Ok(alone(alloc, text))
    } else {
        Ok(Text::Refused(text))
    }
}

/// What a subcommand writes.
fn carried_out(
    alloc: Global,
    word: Word,
    is_strict: bool,
    is_der: bool,
    has_revoked: bool,
    inputs: &[Vec<u8>],
) -> Result<Text, Fault>
    ensures text { IfOk result (λ text. Gives word is_strict is_der has_revoked (map (λ input. input.items) inputs.now) (outcome text)) }
    ensures why { IfErr result (λ fault. fault ≢ OutOfMemory → Gives word is_strict is_der has_revoked (map (λ input. input.items) inputs.now) (faulty fault)) }
{
    match word {
        Word::Tbs => tbs(alloc, is_strict, has_revoked, first(inputs), rest(inputs)),
        Word::Seal => {
            let behind = rest(inputs);
            seal(
                alloc,
                is_strict,
                is_der,
                has_revoked,
                first(behind),
                first(inputs),
                rest(behind),
            )
        }
        Word::LintOrder => lint_order(alloc, is_strict, has_revoked, first(inputs), rest(inputs)),
        Word::Lint => lint(alloc, false, is_strict, inputs),
        Word::LintJson => lint(alloc, true, is_strict, inputs),
        Word::Explain => explain(alloc, inputs),
        Word::ExplainJson => explain_as_json(alloc, inputs),
        Word::Path => judged(alloc, first(inputs), rest(inputs)),
    }
}

/// What is written for a request.
fn written(alloc: Global, request: &Request, inputs: &[Vec<u8>]) -> Result<Text, Fault>
    ensures text { IfOk result (λ text. Comes request.now.action request.now.is_strict request.now.is_der request.now.has_revoked (map (λ input. input.items) inputs.now) (outcome text)) }
    ensures why { IfErr result (λ fault. fault ≢ OutOfMemory → Comes request.now.action request.now.is_strict request.now.is_der request.now.has_revoked (map (λ input. input.items) inputs.now) (faulty fault)) }
{
    match request.action() {
        Action::Run(word) => {
            carried_out(
                alloc,
                word,
                request.is_strict(),
                request.is_der(),
                request.has_revoked(),
                inputs,
            )
        }
        Action::HelpOn(word) => Ok(alone(alloc, word_help(alloc, word)?)),
        Action::Help => Ok(alone(alloc, help_text(alloc)?)),
        Action::Version => Ok(alone(alloc, version_text(alloc)?)),
    }
}

/// The ending of a fault: that the inputs aren't ones that the subcommand takes, or that what they ask for can't be done.
fn ending_of(fault: &Fault) -> Ending
    ensures { result ≡ ending_of fault.now }
{
    match fault {
        Fault::Blocks(_)
        | Fault::NoBlock
        | Fault::NoBlockIn(_)
        | Fault::OtherLabel(_)
        | Fault::NotCertificate(_)
        | Fault::NotList(_)
        | Fault::Repeated(_)
        | Fault::Missing(_)
        | Fault::Unused(_)
        | Fault::Order(_)
        | Fault::RevokedUnused
        | Fault::RevokedText
        | Fault::RevokedLine(..) => Ending::BadProfile,
        _ => Ending::Refused,
    }
}

/// The inputs with their names; a signature as the last of the files.
fn named<'a>(
    alloc: Global,
    request: &'a Request,
    inputs: &'a [Vec<u8>],
) -> Result<Vec<Named<'a>>, AllocError> {
    let mut list = Vec::new(alloc);
    for (name, octets) in request.inputs().iter().zip(inputs) {
        list.push(Named {
            name: name.name(),
            octets: octets.as_slice(),
        })?;
    }
    if let Action::Run(Word::Seal) = request.action()
        && list.len() > 2
    {
        let signature = list.remove(1);
        list.push(signature)?;
    }
    Ok(list)
}

/// The message about a fault.
fn told_of(
    alloc: Global,
    request: &Request,
    inputs: &[Vec<u8>],
    fault: &Fault,
) -> Result<Vec<u8>, AllocError> {
    let mut named = named(alloc, request, inputs)?;
    let revoked = if request.has_revoked() && named.len() > 1 {
        Some(named.remove(1))
    } else {
        None
    };
    let nothing = Named {
        name: "-",
        octets: &[],
    };
    let form = match request.action() {
        Action::Run(Word::Path) => OrderForm::Path,
        _ => OrderForm::Issuing,
    };
    match (request.action(), named.as_slice()) {
        (Action::Run(Word::Explain | Word::ExplainJson | Word::Lint | Word::LintJson), files) =>
            complaint(alloc, form, nothing, None, files, fault),
        (_, [order, files @ ..]) => complaint(alloc, form, *order, revoked, files, fault),
        (_, []) => complaint(alloc, form, nothing, None, &[], fault),
    }
}

/// Whether the fault is that memory ran out.
fn is_out_of_memory(fault: &Fault) -> bool
    ensures { result ≡ false → fault.now ≢ OutOfMemory }
{
    match fault {
        Fault::OutOfMemory => true,
        _ => false,
    }
}

/// The answer where there is a fault.
fn faulted(
    alloc: Global,
    request: &Request,
    inputs: &[Vec<u8>],
    fault: &Fault,
) -> Result<Answer, AllocError>
    ensures { IfOk result (λ answer. (answer.ending ≡ ending_of fault.now) × (answer.text.items ≡ [])) }
{
    let complaint = told_of(alloc, request, inputs, fault)?;
    Ok(Answer {
        ending: ending_of(fault),
        text: Vec::new(alloc),
        complaint,
    })
}

/// The answer to a request with its inputs.
pub fn answer_to(alloc: Global, request: &Request, inputs: &[Vec<u8>]) -> Result<Answer, AllocError>
    ensures { IfOk result (λ answer. answers request.now (map (λ input. input.items) inputs.now) answer.ending answer.text.items answer.complaint.items) }
{
    match written(alloc, request, inputs) {
        Ok(Text::Done(text, complaint)) => Ok(Answer {
            ending: Ending::Done,
            text,
            complaint,
        }),
        Ok(Text::Refused(text)) => Ok(Answer {
            ending: Ending::Refused,
            text,
            complaint: Vec::new(alloc),
        }),
        Ok(Text::Stopped(complaint)) => Ok(Answer {
            ending: Ending::Refused,
            text: Vec::new(alloc),
            complaint,
        }),
        Err(fault) => {
            if is_out_of_memory(&fault) {
                return Err(AllocError);
            }
            faulted(alloc, request, inputs, &fault)
        }
    }
}
