//! Tells which of some serial numbers a revocation list has.
ghost use Rattle.std.specs.Prelude.{◌≡◌, ◌++◌, ◌<◌, flat_map, IfOk, OnOk};
ghost use Rattle.certify_core.specs.LookingUp.{revocation_lines, revocation_list_of, revocation_text, serial_line};

use crate::document::Subcommand;
use crate::listing::{push_decimal, push_hex};
use crate::refusal::Refusal;
use asn1_core::{Integer, OutOfMemory, Steps};
use certify_profile::{HexInput, RevokedProfile};
use crl_index::CrlIndex;
use der_tree::der;
use pkix_cert::CertificateList;
use std::alloc::{AllocError, Global};
use std::marker::Brand;
use std::sync::ledger::{Blank, Ledger};
use toml_format::Reason;

/// The list whose DER is exactly these bytes.
fn revocation_list_of(
    alloc: Global,
    bytes: &[u8],
) -> Result<Result<CertificateList, Reason>, AllocError>
    ensures { IfOk result (λ found. found ≡ revocation_list_of bytes.now) }
{
    match der::value_of(alloc, bytes)? {
        Some(list) => Ok(Ok(list)),
        None => Ok(Err(Reason::NotOneValue)),
    }
}

/// Pushes where a list has a serial number first.
#[tactic(auto, unfolding(crate::specs::LookingUp::revocation_text))]
fn push_place(alloc: Global, lines: &mut Vec<u8>, place: Option<u64>) -> Result<(), AllocError>
    ensures { OnOk result (lines.new.items ≡ lines.old.items ++ revocation_text place) }
{
    match place {
        None => lines.extend_from_slice(b"good"),
        Some(place) => {
            lines.extend_from_slice(b"revoked ")?;
            push_decimal(alloc, lines, place)
        }
    }
}

/// Pushes the line of a serial number.
#[tactic(auto, unfolding(crate::specs::LookingUp::serial_line))]
fn push_serial_line(
    alloc: Global,
    lines: &mut Vec<u8>,
    serial: &[u8],
    place: Option<u64>,
) -> Result<(), AllocError>
    ensures { OnOk result (lines.new.items ≡ lines.old.items ++ serial_line serial.now place) }
{
    push_hex(alloc, lines, serial)?;
    lines.push(b' ')?;
    push_place(alloc, lines, place)?;
    lines.push(b'\n')?;
    Ok(())
}

/// A line for each serial number.
#[tactic(auto, using(crate::proofs::Joined::pushing))]
fn lines_counted<L: Ledger>(
    alloc: Global,
    list: &CertificateList,
    serials: &[HexInput],
    steps: &mut Steps<L>,
) -> Result<Vec<u8>, OutOfMemory>
    ensures { IfOk result (λ lines. lines.items ≡ revocation_lines list.now.tbs_cert_list.revoked_certificates serials.now) }
{
    let index = CrlIndex::new(alloc, list)?;
    let mut lines = Vec::new(alloc);
    for serial in serials {
        let number = Integer::from_unsigned(alloc, serial.as_slice())?;
        let place = index.find(&number, steps);
        push_serial_line(alloc, &mut lines, serial.as_slice(), place)?;
    }
    Ok(lines)
}

/// A line for each serial number, the steps counted by a counter of their own.
fn lines_from<L: Ledger>(
    alloc: Global,
    list: &CertificateList,
    serials: &[HexInput],
    blank: Blank,
) -> Result<Vec<u8>, OutOfMemory>
    requires name { blank.name ≡ L.name }
    requires parts { blank.parts ≡ L.parts }
    requires share { 0 < L.parts }
    ensures { IfOk result (λ lines. lines.items ≡ revocation_lines list.now.tbs_cert_list.revoked_certificates serials.now) }
{
    let mut steps = Steps::<L>::new(blank);
    let lines = lines_counted(alloc, list, serials, &mut steps)?;
    Ok(lines)
}

/// A line for each serial number. The steps of the searches count for nobody.
fn revocation_lines(
    alloc: Global,
    list: &CertificateList,
    serials: &[HexInput],
) -> Result<Vec<u8>, OutOfMemory>
    ensures { IfOk result (λ lines. lines.items ≡ revocation_lines list.now.tbs_cert_list.revoked_certificates serials.now) }
{
    let lines = lines_from::<Brand>(alloc, list, serials, Blank::new(1))?;
    Ok(lines)
}

/// The lines of the serial numbers that are looked up.
pub(crate) struct LookingUp;

impl Subcommand for LookingUp {
    ghost use Rattle.certify_core.specs.LookingUp.{looking_up};

    type Profile = RevokedProfile;

    ghost spec = { looking_up };

    fn text(alloc: Global, profile: RevokedProfile) -> Result<Vec<u8>, Refusal> {
        let RevokedProfile { list, serials } = profile;
        match revocation_list_of(alloc, list.as_slice())? {
            Ok(list) => {
                let serials = serials.into_vec();
                Ok(revocation_lines(alloc, &list, serials.as_slice())?)
            }
            Err(reason) => Err(Refusal::Reason(reason)),
        }
    }
}
