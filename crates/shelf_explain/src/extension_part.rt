//! Extensions that can't be read as a whole.
ghost use Rattle.std.specs.Prelude.{◌≡◌, ◌++◌, OnOk};
ghost use Rattle.shelf_explain.specs.ExtensionParts.{broken_extension, broken_text, contents_at, extension_at, flag_at, known_extension, rest_text};

use crate::block::{BELOW, push_unreadable_part};
use crate::extension::{push_contents_of, push_extension};
use crate::known::push_extension_name;
use crate::line::{next_line, push_key};
use crate::part::{Part, Parts};
use crate::part_text::{ShowPart, push_unreadable_at, push_whole_place};
use asn1_core::{ObjectIdentifier, OctetString};
use der_tree::der;
use pkix_cert::Extension;
use std::alloc::{AllocError, Global};

/// Pushes whether an extension is critical.
#[tactic(auto, unfolding(crate::specs::ExtensionParts::flag_at, crate::specs::ExtensionParts::flag_or_unreadable))]
fn push_flag_at(alloc: Global, lines: &mut Vec<u8>, part: &Part<'_>) -> Result<(), AllocError>
    ensures { OnOk result (lines.new.items ≡ lines.old.items ++ flag_at part.now) }
{
    match der::value_of::<bool>(alloc, part.octets())? {
        None => push_unreadable_at(alloc, lines, part),
        Some(true) => lines.extend_from_slice(b"critical"),
        Some(false) => lines.extend_from_slice(
            b"not critical (the default, which is left out: X.690, 11.5)",
        ),
    }
}

/// Pushes what is in the OCTET STRING of an extension.
#[tactic(auto, unfolding(crate::specs::ExtensionParts::contents_at, crate::specs::ExtensionParts::contents_or_unreadable))]
fn push_contents_at(
    alloc: Global,
    lines: &mut Vec<u8>,
    arcs: &[u32],
    part: &Part<'_>,
) -> Result<(), AllocError>
    ensures { OnOk result (lines.new.items ≡ lines.old.items ++ contents_at arcs.now part.now) }
{
    let Some(contents) = der::value_of::<OctetString>(alloc, part.octets())? else {
        return push_unreadable_at(alloc, lines, part);
    };
    push_contents_of(alloc, lines, arcs, contents.as_slice())?;
    Ok(())
}

/// Pushes the flag, where there is one, and the contents.
#[tactic(auto, unfolding(crate::specs::ExtensionParts::rest_text))]
fn push_rest(
    alloc: Global,
    lines: &mut Vec<u8>,
    arcs: &[u32],
    rest: Parts<'_>,
    part: &Part<'_>,
) -> Result<(), AllocError>
    ensures { OnOk result (lines.new.items ≡ lines.old.items ++ rest_text arcs.now rest.entry part.now) }
{
    let Some((first, left)) = rest.first() else {
        return push_unreadable_at(alloc, lines, part);
    };
    let Some((second, left)) = left.first() else {
        return push_contents_at(alloc, lines, arcs, &first);
    };
    if left.first().is_some() {
        return push_unreadable_at(alloc, lines, part);
    }
    push_flag_at(alloc, lines, &first)?;
    lines.extend_from_slice(next_line())?;
    push_contents_at(alloc, lines, arcs, &second)
}

#[tactic(auto, unfolding(crate::specs::ExtensionParts::broken_text))]
fn push_broken_text(
    alloc: Global,
    lines: &mut Vec<u8>,
    arcs: &[u32],
    rest: Parts<'_>,
    part: &Part<'_>,
) -> Result<(), AllocError>
    ensures { OnOk result (lines.new.items ≡ lines.old.items ++ broken_text arcs.now rest.entry part.now) }
{
    push_whole_place(alloc, lines, part)?;
    lines.extend_from_slice(next_line())?;
    push_rest(alloc, lines, arcs, rest, part)?;
    Ok(())
}

/// Pushes an extension whose identifier can be read.
#[tactic(auto, unfolding(crate::specs::ExtensionParts::known_extension, crate::specs::Lines::line))]
fn push_known_extension(
    alloc: Global,
    lines: &mut Vec<u8>,
    id: &ObjectIdentifier,
    rest: Parts<'_>,
    part: &Part<'_>,
) -> Result<(), AllocError>
    ensures { OnOk result (lines.new.items ≡ lines.old.items ++ known_extension id.now rest.entry part.now) }
{
    let mut key = Vec::new(alloc);
    push_extension_name(alloc, &mut key, id.arcs())?;
    push_key(lines, BELOW, key.as_slice())?;
    push_broken_text(alloc, lines, id.arcs(), rest, part)?;
    lines.push(b'\n')?;
    Ok(())
}

/// Pushes the parts of an extension.
#[tactic(auto, unfolding(crate::specs::ExtensionParts::broken_extension, crate::specs::ExtensionParts::by_parts, crate::specs::ExtensionParts::by_identifier))]
fn push_broken_extension(
    alloc: Global,
    lines: &mut Vec<u8>,
    part: &Part<'_>,
) -> Result<(), AllocError>
    ensures { OnOk result (lines.new.items ≡ lines.old.items ++ broken_extension part.now) }
{
    let Some(parts) = part.parts() else {
        return push_unreadable_part(alloc, lines, BELOW, b"extension", part);
    };
    let Some((first, rest)) = parts.first() else {
        return push_unreadable_part(alloc, lines, BELOW, b"extension", part);
    };
    let Some(id) = der::value_of::<ObjectIdentifier>(alloc, first.octets())? else {
        return push_unreadable_part(alloc, lines, BELOW, b"extension", part);
    };
    push_known_extension(alloc, lines, &id, rest, part)?;
    Ok(())
}

/// An extension of a block.
pub(crate) struct ExtensionPart;

impl ShowPart for ExtensionPart {
    ghost part_text = { extension_at };

    #[tactic(auto, unfolding(crate::specs::ExtensionParts::extension_at, crate::specs::ExtensionParts::line_or_broken))]
    fn push_part(alloc: Global, lines: &mut Vec<u8>, part: &Part<'_>) -> Result<(), AllocError> {
        let Some(extension) = der::value_of::<Extension>(alloc, part.octets())? else {
            return push_broken_extension(alloc, lines, part);
        };
        push_extension(alloc, lines, BELOW, &extension)?;
        Ok(())
    }
}
