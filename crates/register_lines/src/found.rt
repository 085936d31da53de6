//! Lines on certificates, for people.
ghost use Rattle.std.specs.Prelude.{◌≡◌, ◌++◌, IfOk, OnOk, codes, string_bytes};
ghost use Rattle.register_lines.specs.Found.{IsEndText, IsFoundLine, status_word};
ghost use Rattle.register_lines.specs.Times.{has_year};

use crate::text::time_text;
use crate::time::has_year;
use asn1_core::OutOfMemory;
use register_record::Certificate;
use register_words::{Status, status_of};
use std::alloc::{AllocError, Global};

fn status_word(status: Status) -> &'static str
    ensures { result.now ≡ status_word status }
{
    match status {
        Status::Pending => "pending",
        Status::Issued => "issued",
        Status::OnHold => "on hold",
        Status::Revoked => "revoked",
    }
}

/// The end of a validity, if it has a text.
fn end_text(alloc: Global, seconds: i64) -> Result<String, AllocError>
    ensures { IfOk result (λ text. IsEndText (has_year seconds) seconds (string_bytes text)) }
{
    if has_year(seconds) {
        let text = time_text(alloc, seconds)?;
        Ok(text)
    } else {
        let text = String::from_str(alloc, "-")?;
        Ok(text)
    }
}

/// Pushes a tab and a text.
fn push_column(line: &mut Vec<u8>, text: &[u8]) -> Result<(), AllocError>
    ensures { OnOk result (line.new.items ≡ line.old.items ++ codes "\t" ++ text.now) }
{
    line.push(b'\t')?;
    line.extend_from_slice(text)?;
    Ok(())
}

fn found_text(
    alloc: Global,
    certificate: &Certificate,
    subject: &[u8],
) -> Result<Vec<u8>, AllocError>
    ensures { IfOk result (λ line. IsFoundLine certificate.now subject.now line.items) }
{
    let digits = hex::encode(alloc, certificate.serial.as_bytes())?;
    let end = end_text(alloc, certificate.not_after)?;
    let mut line = Vec::from_slice(alloc, digits.as_bytes())?;
    push_column(&mut line, end.as_bytes())?;
    push_column(&mut line, status_word(status_of(certificate)).as_bytes())?;
    push_column(&mut line, subject)?;
    line.push(b'\n')?;
    Ok(line)
}

/// The line of a certificate: its serial number in hexadecimal digits, the end of its validity, what
/// there is of it, and whom it is for.
pub fn found_line(
    alloc: Global,
    certificate: &Certificate,
    subject: &[u8],
) -> Result<Vec<u8>, OutOfMemory>
    ensures { IfOk result (λ line. IsFoundLine certificate.now subject.now line.items) }
{
    let line = found_text(alloc, certificate, subject)?;
    Ok(line)
}
