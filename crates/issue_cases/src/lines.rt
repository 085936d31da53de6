//! What is written of a call.
use rcgen_issue::{Certificate, Error};
use std::alloc::{AllocError, Global};

/// With a further line.
pub fn push_line(text: &mut String, line: &str) -> Result<(), AllocError> {
    if !text.is_empty() {
        text.push('\n')?;
    }
    text.push_str(line)
}

/// The octets in hex.
pub fn digits(alloc: Global, octets: &[u8]) -> Option<String> {
    hex::encode(alloc, octets).ok()
}

/// The text of the error.
pub fn error_text(alloc: Global, error: &Error) -> Option<String> {
    format!(in alloc; "{error}").ok()
}

/// The error and its text.
pub fn refusal(alloc: Global, error: &Error) -> Option<String> {
    format!(in alloc; "{error:?}: {error}").ok()
}

/// The octets in hex, or why there are none.
pub fn told(alloc: Global, answer: Result<Vec<u8>, Error>) -> Option<String> {
    match &answer {
        Ok(octets) => digits(alloc, octets.as_slice()),
        Err(error) => refusal(alloc, error),
    }
}

/// The certificate in hex, or the text of the error.
pub fn shown_certificate(alloc: Global, answer: &Result<Certificate, Error>) -> Option<String> {
    match answer {
        Ok(certificate) => digits(alloc, certificate.der()),
        Err(error) => error_text(alloc, error),
    }
}
