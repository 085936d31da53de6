//! A line and its answer.
use crate::attribute::attribute_text;
use crate::issued::issued_text;
use crate::key::{CaseKey, key};
use crate::own::{key_text, own_text};
use crate::params::params;
use crate::plain::plain_text;
use crate::read::read_text;
use crate::replies::script_text;
use crate::restored::restored_text;
use crate::shown::shown_text;
use rcgen_issue::CertificateParams;
use std::alloc::{AllocError, Global};

// What is called with the parameters.
fn called_text(
    alloc: Global,
    word: &str,
    line: &str,
    params: &CertificateParams,
    key: &CaseKey,
) -> Option<String> {
    match word {
        "self_signed" | "certified" | "request" | "request_with" | "key_identifier" => {
            own_text(alloc, word, line, params, key)
        }
        "restore" => restored_text(alloc, line, params, key),
        _ => issued_text(alloc, word, line, params, key),
    }
}

// Whether a copy of the parameters is equal.
fn is_copied(alloc: Global, params: &CertificateParams) -> Option<bool> {
    let copy = params.try_clone(alloc).ok()?;
    Some(copy == *params)
}

// The same; what copies the parameters to others has no other answer.
fn text_with_params(alloc: Global, word: &str, line: &str, key: &CaseKey) -> Option<String> {
    let params = params(alloc, line)?;
    if is_copied(alloc, &params)? {
        called_text(alloc, word, line, &params, key)
    } else {
        "other parameters".to_string(alloc).ok()
    }
}

fn text_with_key(alloc: Global, word: &str, line: &str) -> Option<String> {
    let key = key(alloc, line)?;
    match word {
        "simple" | "key" => key_text(alloc, word, line, &key),
        _ => text_with_params(alloc, word, line, &key),
    }
}

fn answer(alloc: Global, line: &str) -> Option<String> {
    let (word, words) = line.split_once(' ').unwrap_or((line, ""));
    match word {
        "params" | "acme" | "verify" | "printed" => plain_text(alloc, word, line),
        "attribute" => attribute_text(alloc, words),
        "authority" => script_text(alloc, words),
        "read" => read_text(alloc, words),
        "shown" => shown_text(alloc, words),
        _ => text_with_key(alloc, word, line),
    }
}

/// What comes of a line; `no case` where it can't be read.
pub fn answer_to(alloc: Global, line: &str) -> Result<String, AllocError> {
    match answer(alloc, line) {
        Some(text) => Ok(text),
        None => "no case".to_string(alloc),
    }
}
