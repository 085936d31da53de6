//! Where octets break a rule of DER, and which.
use crate::begun_blocks::BlockPlace;
use std::alloc::{AllocError, Global};
use std::str;
use strict_der::{Offence, Rule, first_offence};

/// What breaks a rule of X.690.
fn rule_text(rule: Rule) -> &'static str {
    match rule {
        Rule::HighTag =>
            "a tag number above 30, or the length after it, isn't in its shortest form (X.690, 8.1.2.4 and 10.1)",
        Rule::Indefinite => "a length has the indefinite form (X.690, 10.1)",
        Rule::LongLength => "a length has more than 8 octets, which isn't supported",
        Rule::LengthForm => "a length isn't in its shortest form (X.690, 10.1)",
        Rule::Incomplete => "an element goes on past the end of what it is in (X.690, 8.1)",
        Rule::Trailing => "octets come after the outermost element",
        Rule::Depth => "elements are nested more than 64 deep, which isn't supported",
        Rule::Boolean => "a BOOLEAN is neither 00 nor FF (X.690, 11.1)",
        Rule::Integer =>
            "an INTEGER or ENUMERATED is empty, or longer than it needs to be (X.690, 8.3.2)",
        Rule::BitString =>
            "a BIT STRING has unused bits that aren't zero, or a wrong number of them (X.690, 8.6.2 and 11.2.1)",
        Rule::Null => "a NULL isn't empty (X.690, 8.8)",
        Rule::Identifier =>
            "an OBJECT IDENTIFIER is empty, incomplete, or longer than it needs to be (X.690, 8.19.2)",
        Rule::Real => "a REAL with a mantissa, which isn't supported",
        Rule::UtcTime => "a UTCTime isn't YYMMDDHHMMSSZ (X.690, 11.8)",
        Rule::GeneralizedTime =>
            "a GeneralizedTime isn't YYYYMMDDHHMMSSZ, with at most a fraction that doesn't end in 0 (X.690, 11.7)",
        Rule::Characters => "a string has a character that its type lacks (X.690, 8.23)",
        Rule::Constructed => "a string or another simple type is constructed (X.690, 10.2)",
        Rule::Primitive => "a SEQUENCE or SET isn't constructed (X.690, 8.9 and 8.11)",
        Rule::UnknownType => "no type has this universal tag (X.680, 8.4)",
        Rule::Order => "the elements of a SET are out of order (X.690, 10.3 and 11.6)",
    }
}

/// Where octets aren't DER, and why; nothing where they are.
pub(crate) fn offence_text(alloc: Global, octets: &[u8]) -> Result<Option<String>, AllocError> {
    let Some(Offence { at, rule }) = first_offence(octets) else {
        return Ok(None);
    };
    let what = rule_text(rule);
    let text = format!(in alloc; "not DER: at octet {at}: {what}")?;
    Ok(Some(text))
}

/// The same of a block.
pub(crate) fn block_offence(
    alloc: Global,
    place: &BlockPlace<'_>,
) -> Result<Option<String>, AllocError> {
    let Some(number) = place.number else {
        return offence_text(alloc, place.octets);
    };
    let Ok(blocks) = pem::blocks(alloc, place.octets) else {
        return Ok(None);
    };
    match blocks.get(number.saturating_sub(1)) {
        Some(block) => offence_text(alloc, block.octets()),
        None => Ok(None),
    }
}

/// The same of a file without blocks that begins as a SEQUENCE and isn't a text.
pub(crate) fn file_offence(alloc: Global, octets: &[u8]) -> Result<Option<String>, AllocError> {
    if octets.starts_with(b"\x30") && str::from_utf8(octets).is_err() {
        offence_text(alloc, octets)
    } else {
        Ok(None)
    }
}
