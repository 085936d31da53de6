//! Lines on what is wrong with blocks.
ghost use Rattle.std.specs.Prelude.{◌≡◌, ◌++◌, IfOk, OnOk, map};
ghost use Rattle.std.specs.List.{flat_map};
ghost use Rattle.lint_files.specs.Lines.{finding_line, finding_lines, finding_text, shown_character, shown_place};

use crate::finding::{Finding, Located, is_error};
use asn1_core::OutOfMemory;
use rule_texts::severity;
use std::alloc::{AllocError, Global};

/// Its text: a part, a colon and what is wrong with it; the standard and section in parentheses, where there is one, and an identifier in brackets.
pub(crate) fn finding_text(finding: Finding) -> &'static str
    ensures { result.now ≡ finding_text finding }
{
    match finding {
        Finding::Broken(rule) => rule_texts::text(rule),
        Finding::OtherLabel =>
            "not a certificate, request, CRL, attribute certificate or public key (RFC 7468, 5 to 7, 12, 13) [unknown_block]",
        Finding::NotCertificate => "not a certificate (RFC 5280, 4.1) [not_certificate]",
        Finding::NotRequest => "not a request (RFC 2986, 4) [not_request]",
        Finding::NotList => "not a CRL (RFC 5280, 5.1) [not_crl]",
        Finding::NotAttributeCertificate =>
            "not an attribute certificate (RFC 5755, 4.1) [not_attribute_certificate]",
        Finding::NotPublicKey => "not a public key (RFC 5280, 4.1.2.7) [not_public_key]",
        Finding::AlgorithmsDiffer =>
            "signature: the algorithm beside the signed bytes isn't the one within them (RFC 5280, 4.1.1.2, 5.1.1.2) [algorithms_differ]",
        Finding::LargeCertificate =>
            "more than 64 KiB, so not looked at as an issuer's certificate [large_certificate]",
    }
}

/// The octet of a label, or `?` in the place of one that isn't a printable character of ASCII.
pub(crate) fn shown_character(octet: u8) -> u8
    ensures { result ≡ shown_character octet }
{
    if 32 <= octet && octet < 127 {
        octet
    } else {
        b'?'
    }
}

fn push_label(line: &mut Vec<u8>, label: &[u8]) -> Result<(), AllocError>
    ensures { OnOk result (line.new.items ≡ line.old.items ++ map shown_character label.now) }
{
    for octet in label {
        line.push(shown_character(*octet))?;
    }
    Ok(())
}

/// Pushes which block it is.
#[tactic(auto, unfolding(crate::specs::Lines::shown_place))]
fn push_place(
    alloc: Global,
    line: &mut Vec<u8>,
    number: usize,
    label: &[u8],
) -> Result<(), AllocError>
    ensures { OnOk result (line.new.items ≡ line.old.items ++ shown_place number label.now) }
{
    line.extend_from_slice(b"block ")?;
    line.extend_from_slice(number.to_string(alloc)?.as_bytes())?;
    line.extend_from_slice(b" (")?;
    push_label(line, label)?;
    line.extend_from_slice(b"): ")?;
    Ok(())
}

/// Pushes a line on it: its block, whether it is an error, and its text.
#[tactic(auto, unfolding(crate::specs::Lines::finding_line))]
fn push_line(alloc: Global, lines: &mut Vec<u8>, located: &Located<'_>) -> Result<(), AllocError>
    ensures { OnOk result (lines.new.items ≡ lines.old.items ++ finding_line located.now) }
{
    push_place(alloc, lines, located.number, located.label)?;
    lines.extend_from_slice(severity(is_error(located.finding)))?;
    lines.extend_from_slice(finding_text(located.finding).as_bytes())?;
    lines.push(b'\n')?;
    Ok(())
}

/// A line on each, in order.
pub fn finding_lines(alloc: Global, found: &[Located<'_>]) -> Result<Vec<u8>, OutOfMemory>
    ensures { IfOk result (λ lines. lines.items ≡ finding_lines found.now) }
{
    let mut lines = Vec::new(alloc);
    for located in found {
        push_line(alloc, &mut lines, located)?;
    }
    Ok(lines)
}
