//! Signed certificate timestamps in a certificate (RFC 6962, 3.2, 3.3).
ghost use Rattle.std.specs.Prelude.{◌≡◌, ◌++◌, OnOk, take};
ghost use Rattle.std.specs.Option.{option_map};
ghost use Rattle.shelf_explain.specs.Timestamps.{extensions_in, extensions_line, extensions_text, log_text, more_timestamps, none_or_other, other_text, parts_text, rest_text, scheme_text, signed_text, time_text, timestamp_list_text, timestamp_text, timestamps_text, vector, whole_vector};

use crate::line::{after, below_line, first, next_line};
use crate::name::push_hex_value;
use crate::number::push_labelled_number;
use crate::part::{Part, begins_with};
use crate::part_text::push_unreadable_at;
use crate::show::push_labelled_hex;
use asn1_core::OctetString;
use der_tree::der;
use std::alloc::{AllocError, Global};

/// A vector of TLS whose length has two octets, and the octets after it.
#[tactic(auto, unfolding(crate::specs::Timestamps::vector))]
fn vector(octets: &[u8]) -> Option<(&[u8], &[u8])>
    ensures { option_map (λ halves. (halves.0.now, halves.1.now)) result ≡ vector octets.now }
{
    let [high, low, rest @ ..] = octets else {
        return None;
    };
    let count = usize::from(*high) * 256 + usize::from(*low);
    if count <= rest.len() {
        Some(rest.split_at(count))
    } else {
        None
    }
}

/// The vector that the octets are.
#[tactic(auto, unfolding(crate::specs::Timestamps::whole_vector))]
fn whole_vector(octets: &[u8]) -> Option<&[u8]>
    ensures { option_map (λ inner. inner.now) result ≡ whole_vector octets.now }
{
    let (inner, rest) = vector(octets)?;
    if rest.is_empty() { Some(inner) } else { None }
}

/// The extensions of a timestamp of version 1, and the octets after them.
#[tactic(auto, unfolding(crate::specs::Timestamps::extensions_in))]
fn extensions_in(octets: &[u8]) -> Option<(&[u8], &[u8])>
    ensures { option_map (λ halves. (halves.0.now, halves.1.now)) result ≡ extensions_in octets.now }
{
    if begins_with(octets, 0) {
        vector(after(octets, 41))
    } else {
        None
    }
}

#[tactic(auto, unfolding(crate::specs::Timestamps::other_text, crate::specs::Lines::labelled))]
fn push_other(alloc: Global, lines: &mut Vec<u8>, octets: &[u8]) -> Result<(), AllocError>
    ensures { OnOk result (lines.new.items ≡ lines.old.items ++ other_text octets.now) }
{
    lines.extend_from_slice(b"timestamp ")?;
    push_hex_value(alloc, lines, octets)
}

/// Pushes the log.
#[tactic(auto, unfolding(crate::specs::Timestamps::log_text))]
fn push_log(alloc: Global, lines: &mut Vec<u8>, octets: &[u8]) -> Result<(), AllocError>
    ensures { OnOk result (lines.new.items ≡ lines.old.items ++ log_text octets.now) }
{
    push_labelled_hex(alloc, lines, b"log ", first(after(octets, 1), 32))
}

/// Pushes the time, in milliseconds after the start of 1970.
#[tactic(auto, unfolding(crate::specs::Timestamps::time_text))]
fn push_time(alloc: Global, lines: &mut Vec<u8>, octets: &[u8]) -> Result<(), AllocError>
    ensures { OnOk result (lines.new.items ≡ lines.old.items ++ time_text octets.now) }
{
    lines.extend_from_slice(below_line())?;
    push_labelled_number(alloc, lines, b"time ", first(after(octets, 33), 8))?;
    lines.extend_from_slice(b" ms after 1970")?;
    Ok(())
}

#[tactic(auto, unfolding(crate::specs::Timestamps::extensions_line))]
fn push_extensions_line(alloc: Global, lines: &mut Vec<u8>, octets: &[u8]) -> Result<(), AllocError>
    ensures { OnOk result (lines.new.items ≡ lines.old.items ++ extensions_line octets.now) }
{
    lines.extend_from_slice(below_line())?;
    push_labelled_hex(alloc, lines, b"extensions ", octets)?;
    Ok(())
}

#[tactic(auto, unfolding(crate::specs::Timestamps::extensions_text))]
fn push_extensions(alloc: Global, lines: &mut Vec<u8>, octets: &[u8]) -> Result<(), AllocError>
    ensures { OnOk result (lines.new.items ≡ lines.old.items ++ extensions_text octets.now) }
{
    if octets.is_empty() {
        Ok(())
    } else {
        push_extensions_line(alloc, lines, octets)
    }
}

/// Pushes the algorithm of a signature, by the two codes of TLS.
#[tactic(auto, unfolding(crate::specs::Timestamps::scheme_text))]
fn push_scheme(alloc: Global, lines: &mut Vec<u8>, scheme: &[u8]) -> Result<(), AllocError>
    ensures { OnOk result (lines.new.items ≡ lines.old.items ++ scheme_text scheme.now) }
{
    if scheme == [4, 3].as_slice() {
        return lines.extend_from_slice(b"ECDSA with SHA-256");
    }
    if scheme == [4, 1].as_slice() {
        return lines.extend_from_slice(b"RSA with SHA-256");
    }
    push_labelled_hex(alloc, lines, b"algorithm ", scheme)
}

/// Pushes the algorithm of the signature, and the signature.
#[tactic(auto, unfolding(crate::specs::Timestamps::signed_text))]
fn push_signed(
    alloc: Global,
    lines: &mut Vec<u8>,
    scheme: &[u8],
    signature: &[u8],
) -> Result<(), AllocError>
    ensures { OnOk result (lines.new.items ≡ lines.old.items ++ signed_text scheme.now signature.now) }
{
    lines.extend_from_slice(below_line())?;
    push_scheme(alloc, lines, scheme)?;
    push_labelled_hex(alloc, lines, b": ", signature)?;
    Ok(())
}

#[tactic(auto, unfolding(crate::specs::Timestamps::parts_text))]
fn push_parts(
    alloc: Global,
    lines: &mut Vec<u8>,
    octets: &[u8],
    extensions: &[u8],
    scheme: &[u8],
    signature: &[u8],
) -> Result<(), AllocError>
    ensures { OnOk result (lines.new.items ≡ lines.old.items ++ parts_text octets.now extensions.now scheme.now signature.now) }
{
    push_log(alloc, lines, octets)?;
    push_time(alloc, lines, octets)?;
    push_extensions(alloc, lines, extensions)?;
    push_signed(alloc, lines, scheme, signature)?;
    Ok(())
}

/// Pushes the parts of a timestamp, or else its octets.
#[tactic(auto, unfolding(crate::specs::Timestamps::timestamp_text, crate::specs::Timestamps::with_extensions, crate::specs::Timestamps::with_signature))]
fn push_timestamp(alloc: Global, lines: &mut Vec<u8>, octets: &[u8]) -> Result<(), AllocError>
    ensures { OnOk result (lines.new.items ≡ lines.old.items ++ timestamp_text octets.now) }
{
    let Some((extensions, signed)) = extensions_in(octets) else {
        return push_other(alloc, lines, octets);
    };
    let Some(signature) = whole_vector(after(signed, 2)) else {
        return push_other(alloc, lines, octets);
    };
    push_parts(
        alloc,
        lines,
        octets,
        extensions,
        first(signed, 2),
        signature,
    )
}

#[tactic(auto, unfolding(crate::specs::Timestamps::rest_text))]
fn push_rest(alloc: Global, lines: &mut Vec<u8>, octets: &[u8]) -> Result<(), AllocError>
    ensures { OnOk result (lines.new.items ≡ lines.old.items ++ rest_text octets.now) }
{
    if octets.is_empty() {
        return Ok(());
    }
    lines.extend_from_slice(next_line())?;
    push_other(alloc, lines, octets)
}

/// Pushes the next timestamps, each on lines of its own. Each has two octets at least.
fn push_more(alloc: Global, lines: &mut Vec<u8>, octets: &[u8]) -> Result<(), AllocError>
    ensures { OnOk result (lines.new.items ≡ lines.old.items ++ more_timestamps octets.now octets.now) }
{
    let mut left = octets;
    for _step in octets {
        let Some((next, rest)) = vector(left) else {
            push_rest(alloc, lines, left)?;
            return Ok(());
        };
        lines.extend_from_slice(next_line())?;
        push_timestamp(alloc, lines, next)?;
        left = rest;
    }
    Ok(())
}

#[tactic(auto, unfolding(crate::specs::Timestamps::none_or_other))]
fn push_none_or_other(alloc: Global, lines: &mut Vec<u8>, octets: &[u8]) -> Result<(), AllocError>
    ensures { OnOk result (lines.new.items ≡ lines.old.items ++ none_or_other octets.now) }
{
    if octets.is_empty() {
        lines.extend_from_slice(b"none")
    } else {
        push_other(alloc, lines, octets)
    }
}

#[tactic(auto, unfolding(crate::specs::Timestamps::timestamps_text, crate::specs::Timestamps::first_and_more))]
fn push_timestamps(alloc: Global, lines: &mut Vec<u8>, octets: &[u8]) -> Result<(), AllocError>
    ensures { OnOk result (lines.new.items ≡ lines.old.items ++ timestamps_text octets.now) }
{
    let Some((next, rest)) = vector(octets) else {
        return push_none_or_other(alloc, lines, octets);
    };
    push_timestamp(alloc, lines, next)?;
    push_more(alloc, lines, rest)?;
    Ok(())
}

/// Pushes the list of timestamps within an OCTET STRING.
#[tactic(auto, unfolding(crate::specs::Timestamps::timestamp_list_text))]
pub(crate) fn push_timestamp_list(
    alloc: Global,
    lines: &mut Vec<u8>,
    octets: &[u8],
) -> Result<(), AllocError>
    ensures { OnOk result (lines.new.items ≡ lines.old.items ++ timestamp_list_text octets.now) }
{
    let Some(inner) = der::value_of::<OctetString>(alloc, octets)? else {
        return push_unreadable_at(alloc, lines, &Part::in_front(octets));
    };
    let Some(list) = whole_vector(inner.as_slice()) else {
        return push_unreadable_at(alloc, lines, &Part::in_front(octets));
    };
    push_timestamps(alloc, lines, list)?;
    Ok(())
}
