//! Issues certificates, requests, lists and attribute certificates, and reads requests, keys and issuers; writes what comes of
//! each line after it.
//!
//! A line begins with what is called, and its further words say with what. What is issued is written in hex, or why there is
//! nothing: the error, and its text.
//!
//! - what an issuer signs, whose parts are written in the line after it: `signed_by`; `issue_and_read`, with whether
//!   its bytes are read as the value that is answered; `certified_by`, an issuer below it with its own certificate;
//!   `list`; `accept`, of a `request`; `issuer`, which signs nothing;
//! - what a key signs for itself: `self_signed`; `certified`, an issuer with its own certificate; `simple`, of alternative
//!   `names`; `request`, and whether a copy is equal; `request_with`, of attributes; `restore`, an issuer that is read from its
//!   own certificate, and whether it issues the same as the original one;
//! - what a key has: `key_identifier`; `key`, its info and its signature of a `message`;
//! - `verify`, whether a `DigestVerifier` accepts a signature; `params`, what parameters of alternative `names` say; `acme` and
//!   `printed`, which have no further words;
//! - `attribute`, an attribute certificate, and whether its bytes are read as the value that is answered: attribute.rt;
//! - `authority`, what an authority replies to commands: script.rt;
//! - `read`, what is read of a request, a key or an issuer's certificate: read.rt;
//! - `first`, the first program that README.md shows; `shown`, what the documents show else: shown.rt.
//!
//! The key is of the byte AA with the signature BB CC under Ed25519; `public=HEX`, `signature=HEX` and `algorithm=NAME` say
//! otherwise. `secret=HEX` makes it a `DigestKey`, `refusing` one that signs nothing, `device` one of this program's own. The
//! issuer has the parameters' parts and borrows them; with `by=new` it holds a copy of them, and with `by=parts` it is of
//! `issuer=NAME`, `issuer_method=METHOD` and `issuer_usages=LIST`. A certificate that an issuer signs is for the key of
//! `subject=HEX` and `subject_algorithm=NAME`. The functions in params.rt describe the words of parameters, and those
//! in name.rt and words.rt how a name, a method, a list or a moment is written. Without words a certificate is of the
//! name `a` for the year 2025, and a list of the number 1. A line that begins with `#` is written as it is.
#![tactic(auto)]

mod algorithms;
mod attribute;
mod case;
mod chain;
mod device_key;
mod first;
mod held;
mod issued;
mod issuing;
mod key;
mod lines;
mod list;
mod name;
mod own;
mod params;
mod paths;
mod plain;
mod read;
mod reading;
mod replies;
mod restored;
mod script;
mod shown;
mod validation;
mod verifier;
mod words;

use crate::case::answer_to;
use std::io;

fn main(rt: HostRuntime) -> io::Result<()> {
    for line in rt.lines(rt.alloc()) {
        let line = line?;
        println!(rt; "{line}")?;
        if line.as_str() == "first" {
            first::main(rt)?;
        } else if !line.as_str().starts_with("#") {
            let answer = answer_to(rt.alloc(), line.as_str())?;
            println!(rt; "{answer}")?;
        }
    }
    Ok(())
}
