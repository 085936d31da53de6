//! What is wrong with blocks as JSON (RFC 8259), for programs.
ghost use Rattle.std.specs.Prelude.{◌≡◌, ◌++◌, IfOk, OnOk};
ghost use Rattle.std.specs.List.{flat_map};
ghost use Rattle.lint_files.specs.Json.{behind, citation, citation_part, cited, ends_section, escaped, finding_json, findings_json, is_citation, is_end, joined, place_part, rule_part, section, section_part, separated, severity_part, severity_word, shown_octet, standard_part, text_part, up_to, words};

use crate::finding::{Finding, Located, is_error};
use crate::line::{finding_text, shown_character};
use asn1_core::OutOfMemory;
use std::alloc::{AllocError, Global};

/// Pushes a character of a string (RFC 8259, 7). None is a control character.
#[tactic(auto, unfolding(crate::specs::Json::escaped))]
fn push_escaped(json: &mut Vec<u8>, octet: u8) -> Result<(), AllocError>
    ensures { OnOk result (json.new.items ≡ json.old.items ++ escaped octet) }
{
    if octet == b'"' || octet == b'\\' {
        json.push(b'\\')?;
    }
    json.push(octet)?;
    Ok(())
}

fn push_label(json: &mut Vec<u8>, label: &[u8]) -> Result<(), AllocError>
    ensures { OnOk result (json.new.items ≡ json.old.items ++ flat_map shown_octet label.now) }
{
    for octet in label {
        push_escaped(json, shown_character(*octet))?;
    }
    Ok(())
}

/// Whether the identifier comes next.
fn is_end(rest: &[u8]) -> bool
    ensures { result ≡ is_end rest.now }
{
    matches!(rest, [b' ', b'[', ..])
}

/// What comes after the octet.
fn behind(text: &[u8], mark: u8) -> &[u8]
    ensures { result.now ≡ behind mark text.now }
{
    let mut rest = text;
    while let [octet, after @ ..] = rest {
        if *octet == mark {
            return after;
        }
        rest = after;
    }
    rest
}

/// Pushes the words of a text, without its identifier.
fn push_words(json: &mut Vec<u8>, text: &[u8]) -> Result<(), AllocError>
    ensures { OnOk result (json.new.items ≡ json.old.items ++ words text.now) }
{
    let mut rest = text;
    while let [octet, after @ ..] = rest {
        if is_end(rest) {
            return Ok(());
        }
        push_escaped(json, *octet)?;
        rest = after;
    }
    Ok(())
}

/// Pushes what comes before the octet.
fn push_up_to(json: &mut Vec<u8>, rest: &[u8], mark: u8) -> Result<(), AllocError>
    ensures { OnOk result (json.new.items ≡ json.old.items ++ up_to mark rest.now) }
{
    for octet in rest {
        if *octet == mark {
            return Ok(());
        }
        push_escaped(json, *octet)?;
    }
    Ok(())
}

/// Whether a standard comes next, after a parenthesis: its name begins with a capital letter.
fn is_citation(rest: &[u8]) -> bool
    ensures { result ≡ is_citation rest.now }
{
    match rest {
        [first, second, ..] => *first == b'(' && 65 <= *second && *second <= 90,
        _ => false,
    }
}

/// What comes after that parenthesis.
fn citation(text: &[u8]) -> &[u8]
    ensures { result.now ≡ citation text.now }
{
    let mut rest = text;
    while let [_, after @ ..] = rest {
        if is_citation(rest) {
            return after;
        }
        rest = after;
    }
    rest
}

/// Whether a section ends here.
fn ends_section(rest: &[u8]) -> bool
    ensures { result ≡ ends_section rest.now }
{
    match rest {
        [] => false,
        [first, after @ ..] => *first == b';' || (*first == b')' && is_end(after)),
    }
}

/// Pushes a section.
fn push_section(json: &mut Vec<u8>, text: &[u8]) -> Result<(), AllocError>
    ensures { OnOk result (json.new.items ≡ json.old.items ++ section text.now) }
{
    let mut rest = text;
    while let [octet, after @ ..] = rest {
        if ends_section(rest) {
            return Ok(());
        }
        push_escaped(json, *octet)?;
        rest = after;
    }
    Ok(())
}

fn severity_word(error: bool) -> &'static [u8]
    ensures { result.now ≡ severity_word error }
{
    if error { b"error" } else { b"warning" }
}

/// Pushes which block it is.
#[tactic(auto, unfolding(crate::specs::Json::place_part))]
fn push_place(
    alloc: Global,
    json: &mut Vec<u8>,
    number: usize,
    label: &[u8],
) -> Result<(), AllocError>
    ensures { OnOk result (json.new.items ≡ json.old.items ++ place_part number label.now) }
{
    json.extend_from_slice(b"{\"block\":")?;
    json.extend_from_slice(number.to_string(alloc)?.as_bytes())?;
    json.extend_from_slice(b",\"label\":\"")?;
    push_label(json, label)?;
    Ok(())
}

/// Pushes whether it is an error.
#[tactic(auto, unfolding(crate::specs::Json::severity_part))]
fn push_severity(json: &mut Vec<u8>, finding: Finding) -> Result<(), AllocError>
    ensures { OnOk result (json.new.items ≡ json.old.items ++ severity_part finding) }
{
    json.extend_from_slice(b"\",\"severity\":\"")?;
    json.extend_from_slice(severity_word(is_error(finding)))?;
    Ok(())
}

/// Pushes its identifier.
#[tactic(auto, unfolding(crate::specs::Json::rule_part))]
fn push_rule(json: &mut Vec<u8>, finding: Finding) -> Result<(), AllocError>
    ensures { OnOk result (json.new.items ≡ json.old.items ++ rule_part finding) }
{
    json.extend_from_slice(b"\",\"rule\":\"")?;
    push_up_to(json, behind(finding_text(finding).as_bytes(), b'['), b']')?;
    Ok(())
}

/// Pushes the standard of a citation.
#[tactic(auto, unfolding(crate::specs::Json::standard_part))]
fn push_standard(json: &mut Vec<u8>, citation: &[u8]) -> Result<(), AllocError>
    ensures { OnOk result (json.new.items ≡ json.old.items ++ standard_part citation.now) }
{
    json.extend_from_slice(b"\",\"standard\":\"")?;
    push_up_to(json, citation, b',')?;
    Ok(())
}

/// Pushes its section.
#[tactic(auto, unfolding(crate::specs::Json::section_part))]
fn push_section_part(json: &mut Vec<u8>, citation: &[u8]) -> Result<(), AllocError>
    ensures { OnOk result (json.new.items ≡ json.old.items ++ section_part citation.now) }
{
    json.extend_from_slice(b"\",\"section\":\"")?;
    push_section(json, behind(behind(citation, b','), b' '))?;
    Ok(())
}

/// Pushes both, where they are there.
fn push_cited(json: &mut Vec<u8>, citation: &[u8]) -> Result<(), AllocError>
    ensures { OnOk result (json.new.items ≡ json.old.items ++ cited citation.now) }
{
    match citation {
        [] => Ok(()),
        [_, ..] => {
            push_standard(json, citation)?;
            push_section_part(json, citation)?;
            Ok(())
        }
    }
}

/// Pushes the first standard that is named, and its section.
#[tactic(auto, unfolding(crate::specs::Json::citation_part))]
fn push_citation(json: &mut Vec<u8>, finding: Finding) -> Result<(), AllocError>
    ensures { OnOk result (json.new.items ≡ json.old.items ++ citation_part finding) }
{
    push_cited(json, citation(finding_text(finding).as_bytes()))
}

/// Pushes its text.
#[tactic(auto, unfolding(crate::specs::Json::text_part))]
fn push_text(json: &mut Vec<u8>, finding: Finding) -> Result<(), AllocError>
    ensures { OnOk result (json.new.items ≡ json.old.items ++ text_part finding) }
{
    json.extend_from_slice(b"\",\"text\":\"")?;
    push_words(json, finding_text(finding).as_bytes())?;
    json.extend_from_slice(b"\"}")?;
    Ok(())
}

/// Pushes an object of it.
#[tactic(auto, unfolding(crate::specs::Json::finding_json))]
fn push_finding(alloc: Global, json: &mut Vec<u8>, located: &Located<'_>) -> Result<(), AllocError>
    ensures { OnOk result (json.new.items ≡ json.old.items ++ finding_json located.now) }
{
    push_place(alloc, json, located.number, located.label)?;
    push_severity(json, located.finding)?;
    push_rule(json, located.finding)?;
    push_citation(json, located.finding)?;
    push_text(json, located.finding)?;
    Ok(())
}

/// Pushes the others, each after a comma.
fn push_others(alloc: Global, json: &mut Vec<u8>, found: &[Located<'_>]) -> Result<(), AllocError>
    ensures { OnOk result (json.new.items ≡ json.old.items ++ flat_map separated found.now) }
{
    for located in found {
        json.extend_from_slice(b",\n")?;
        push_finding(alloc, json, located)?;
    }
    Ok(())
}

fn push_all(alloc: Global, json: &mut Vec<u8>, found: &[Located<'_>]) -> Result<(), AllocError>
    ensures { OnOk result (json.new.items ≡ json.old.items ++ joined found.now) }
{
    let [first, rest @ ..] = found else {
        return Ok(());
    };
    push_finding(alloc, json, first)?;
    push_others(alloc, json, rest)?;
    Ok(())
}

/// An array with an object for each, in order: the number of its block from 1, the block's label, `error` or `warning`, the identifier of the
/// rule, the first standard that it cites and its section, where it cites one, and the text.
#[tactic(auto, unfolding(crate::specs::Json::findings_json))]
pub fn findings_json(alloc: Global, found: &[Located<'_>]) -> Result<Vec<u8>, OutOfMemory>
    ensures { IfOk result (λ json. json.items ≡ findings_json found.now) }
{
    let mut json = Vec::new(alloc);
    json.push(b'[')?;
    push_all(alloc, &mut json, found)?;
    json.extend_from_slice(b"]\n")?;
    Ok(json)
}
