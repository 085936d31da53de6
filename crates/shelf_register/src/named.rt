//! Certificates of the record.
ghost use Rattle.std.specs.Prelude.{◌≡◌, Ok, Some, IfOk, find, map};
ghost use Rattle.std.specs.Option.{option_copied};
ghost use Rattle.shelf_input.specs.Blocks.{blocks_in};
ghost use Rattle.shelf_register.specs.Naming.{IsNamed, IsOfFiles, certificate_of, has_octets};
ghost use Rattle.shelf_register.specs.Options.{IsNumber, value_of};
ghost use Rattle.shelf_register.specs.Steps.{Has};
ghost use Rattle.shelf_register.specs.declared.options.Opt.TheVariants as opt;

use crate::halt::{Halt, bad_input_with, refused, refused_with};
use crate::importing::is_sealed_as;
use crate::numbers::serial_in;
use crate::options::{Line, Opt};
use crate::told::{halted, shown_file};
use asn1_core::{Integer, OctetString, TryClone};
use register_record::{Certificate, Record, Refusal};
use register_words::{Query, Status, find};
use shelf_fault::Fault;
use shelf_input::{Blocks, blocks_in};
use std::alloc::Global;

/// The certificate with the serial number.
#[tactic(auto, using(crate::proofs::Naming::found_has, crate::proofs::Naming::found_serial))]
fn certificate_with<'a>(
    alloc: Global,
    record: &'a Record,
    serial: &Integer,
) -> Result<&'a Certificate, Halt>
    ensures has { IfOk result (λ c. Has c.now «record».now.certificates) }
    ensures number { IfOk result (λ c. c.now.serial ≡ serial.now) }
{
    match record.certificate(serial) {
        Some(certificate) => Ok(certificate),
        None => Err(halted(alloc, Refusal::Unknown)),
    }
}

/// The certificate with the serial number that the word says.
#[tactic(auto, using(crate::proofs::Naming::number))]
pub(crate) fn certificate_named<'a>(
    alloc: Global,
    record: &'a Record,
    text: &str,
) -> Result<&'a Certificate, Halt>
    ensures has { IfOk result (λ c. Has c.now «record».now.certificates) }
    ensures number { IfOk result (λ c. IsNumber text.now c.now.serial) }
{
    let serial = serial_in(alloc, text)?;
    let certificate = certificate_with(alloc, record, &serial)?;
    Ok(certificate)
}

/// The name of the file by which a certificate is named.
fn file_name(line: &Line) -> &str {
    match line.names.first() {
        Some(name) => shown_file(name.as_str()),
        None => "standard input",
    }
}

fn not_certificate(alloc: Global, line: &Line) -> Halt {
    let name = file_name(line);
    bad_input_with(format!(in alloc; "{name}: it isn't one certificate\n"))
}

fn not_recorded(alloc: Global, line: &Line) -> Halt {
    let name = file_name(line);
    refused_with(format!(in alloc; "{name}: the register doesn't have this certificate\n"))
}

fn blocks_read(alloc: Global, line: &Line, files: &[Vec<u8>]) -> Result<Blocks, Halt>
    ensures { IfOk result (λ b. blocks_in (map (λ file. file.items) files.now) ≡ Ok b) }
{
    match blocks_in(alloc, files) {
        Ok(blocks) => Ok(blocks),
        Err(Fault::OutOfMemory) => Err(Halt::OutOfMemory),
        Err(_) => Err(not_certificate(alloc, line)),
    }
}

/// The certificate of files.
#[tactic(auto, using(crate::proofs::Naming::certificate_is))]
fn certificate_in(alloc: Global, line: &Line, files: Vec<Vec<u8>>) -> Result<OctetString, Halt>
    ensures { IfOk result (λ octets. certificate_of (blocks_in (map (λ file. file.items) files.items)) ≡ Some octets) }
{
    let blocks = blocks_read(alloc, line, files.as_slice())?;
    let Blocks {
        public_key: _,
        request: _,
        certificate,
    } = blocks;
    match certificate {
        Some(certificate) => Ok(certificate),
        None => Err(not_certificate(alloc, line)),
    }
}

fn has_octets(certificate: &Certificate, octets: &[u8]) -> bool
    ensures { result ≡ has_octets octets.now certificate.now }
{
    is_sealed_as(Some(&certificate.content), octets)
}

/// The first one with the octets.
fn with_octets<'a>(certificates: &'a [Certificate], octets: &[u8]) -> Option<&'a Certificate>
    ensures { option_copied result ≡ find (has_octets octets.now) certificates.now }
{
    for certificate in certificates {
        if has_octets(certificate, octets) {
            return Some(certificate);
        }
    }
    None
}

/// The certificate that files have.
#[tactic(auto, using(crate::proofs::Naming::octets_has, crate::proofs::Naming::of_files))]
fn certificate_of_files<'a>(
    alloc: Global,
    record: &'a Record,
    line: &Line,
    files: Vec<Vec<u8>>,
) -> Result<&'a Certificate, Halt>
    ensures has { IfOk result (λ c. Has c.now «record».now.certificates) }
    ensures read { IfOk result (λ c. IsOfFiles (map (λ file. file.items) files.items) c.now) }
{
    let octets = certificate_in(alloc, line, files)?;
    match with_octets(record.certificates(), octets.as_slice()) {
        Some(certificate) => Ok(certificate),
        None => Err(not_recorded(alloc, line)),
    }
}

/// The certificate that the arguments name, by its serial number or by its file.
#[tactic(auto, using(crate::proofs::Naming::by_number, crate::proofs::Naming::by_files))]
pub(crate) fn named_certificate<'a>(
    alloc: Global,
    record: &'a Record,
    line: &Line,
    files: Vec<Vec<u8>>,
) -> Result<&'a Certificate, Halt>
    ensures has { IfOk result (λ c. Has c.now «record».now.certificates) }
    ensures named { IfOk result (λ c. IsNamed (value_of opt.Serial line.now.given.items) (map (λ file. file.items) files.items) c.now) }
{
    match line.value(Opt::Serial) {
        Some(text) => {
            let certificate = certificate_named(alloc, record, text)?;
            Ok(certificate)
        }
        None => {
            let certificate = certificate_of_files(alloc, record, line, files)?;
            Ok(certificate)
        }
    }
}

/// The serial number of the only one that is pending.
fn pending_serial(alloc: Global, record: &Record) -> Result<Integer, Halt> {
    let query = Query {
        serial: None,
        status: Some(Status::Pending),
        ends_from: None,
        ends_to: None,
    };
    let found = find(alloc, &query, record.certificates())?;
    match found.as_slice() {
        [certificate] => Ok(certificate.serial.try_clone(alloc)?),
        [] => Err(refused(
            alloc,
            "register: every message is sealed already: give --serial to write one again\n",
        )),
        _ => Err(refused(
            alloc,
            "--serial: required, since more than one message is pending; shelf find --pending shows them\n",
        )),
    }
}

/// The only one that is pending.
pub(crate) fn pending<'a>(alloc: Global, record: &'a Record) -> Result<&'a Certificate, Halt>
    ensures { IfOk result (λ c. Has c.now «record».now.certificates) }
{
    let serial = pending_serial(alloc, record)?;
    let certificate = certificate_with(alloc, record, &serial)?;
    Ok(certificate)
}
