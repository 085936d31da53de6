//! Reads lines of a type and of bytes in hex, and writes after each what the type has to do with them. Other lines stay
//! as they are.
//!
//! A type is named by its crate and its name, as `cert.Time`. Under `made`, `bounded`, `partial`, `emptied` and
//! `constructed` a value of the type is made otherwise than by reading the bytes, as the modules of these names say.
//! Lines `contents`, `text`, `element`, `list`, `time`, `shown`, `registered`, `string`, `printed`, `units`, `address`
//! and `rcgen`, each with a name after a dot, have other words than bytes or another answer: line.rt has the function
//! of each, which says what it asks.
//!
//! A line `window OCTETS` asks for the element at the front of the octets. A line `damaged OCTETS` asks of each front of a
//! certificate and of the certificate with each of its bits turned whether a certificate is read there, and is then the same
//! octets again. A line `view OCTETS` asks for a view of the certificate at the front of the octets, and a line `views OCTETS`
//! whether there is one exactly where a certificate is read: of each front and each turned bit of the octets.
#![tactic(auto)]

mod alg;
mod attr;
mod base;
mod bounded;
mod cert;
mod constructed;
mod contents;
mod damage;
mod elements;
mod emptied;
mod line;
mod lists;
mod made;
mod name;
mod octets;
mod partial;
mod parts;
mod rcgen;
mod reading;
mod registered;
mod strings;
mod texts;
mod times;
mod trust;
mod views;
mod x400;
mod x400_ext;

use crate::line::{answer_of, reading_of};
use crate::reading::Reading;
use std::io;

/// The word for it.
fn word(reading: Option<Reading>) -> &'static str {
    match reading {
        None => "",
        Some(Reading::Same) => " same",
        Some(Reading::Refused) => " refused",
        Some(Reading::OutOfRange) => " out of range",
        Some(Reading::NotOneElement) => " not one element",
        Some(Reading::Neither) => " neither",
        Some(Reading::NoType) => "",
    }
}

fn main(rt: HostRuntime) -> io::Result<()> {
    for line in rt.lines(rt.alloc()) {
        let line = line?;
        let reading = reading_of(rt.alloc(), line.as_str());
        let answer = answer_of(rt.alloc(), line.as_str())?;
        let further = damage::answer_to(rt.alloc(), line.as_str())?;
        let viewed = views::answer_to(rt.alloc(), line.as_str())?;
        println!(rt; "{line}{}{answer}{further}{viewed}", word(reading))?;
    }
    Ok(())
}
