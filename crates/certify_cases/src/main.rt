//! Runs `certify` on the cases of a text, and writes how each run ends and what it writes.
//!
//! A case begins with a line `> WORDS`, the words after the program's name. What follows that line up to the next case,
//! but for the end of its last line, is the input. Further parts may follow the words, each after ` | `: `bytes HEX`
//! before the input; the input `times N`; `unread N` and `unwritten N`, the call of that number fails, counted from 0;
//! `room N`, so many bytes can be written; `dropped`, what is written is not kept; `pieces N`, reads and writes of at
//! most N bytes, each of which fails in turn; `request OCTETS`, a line after the input with the request of those octets
//! (`case_octets`); `lines TEXT`, the lines that begin so are looked at; `# TEXT` says what the cases from here on are
//! about.
#![tactic(auto)]

mod case;
mod faults;
mod pieces;

use crate::case::answer_to;
use std::io;

fn main(rt: HostRuntime) -> io::Result<()> {
    let text = io::read_to_string(rt.alloc(), rt.stdin())?;
    for case in text.split("\n>").skip(1) {
        let answer = answer_to(rt.alloc(), case)?;
        print!(rt; "{answer}")?;
    }
    Ok(())
}
