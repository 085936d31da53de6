//! Serial numbers from octets of a random source.
ghost use Rattle.std.specs.Prelude.{◌≡◌, ◌∷◌, ◌%◌, [], IfOk, IfErr, None};
ghost use Rattle.register_record.specs.Following.{reserved_fault};
ghost use Rattle.register_words.specs.Draw.{ExplainsDraw, drawn};

use asn1_core::{Integer, OctetString, OutOfMemory, TryClone};
use register_record::{Kind, Record, Refusal};
use std::alloc::Global;

/// Why no serial number is drawn.
#[derive(Clone, Copy, Debug)]
pub enum DrawError {
    /// It may not be reserved. Where it is there already, or is no serial number, other octets may do.
    Refused(Refusal),
    OutOfMemory,
}

impl From<OutOfMemory> for DrawError {
    ghost use Rattle.std.specs.Prelude.{◌≡◌};
    ghost use Rattle.register_words.specs.declared.drawing.DrawError.TheVariants.{OutOfMemory as NoMemory};

    ghost from_gives = { λ _ r. r ≡ NoMemory };

    fn from(_: OutOfMemory) -> DrawError {
        DrawError::OutOfMemory
    }
}

/// The number of the octets without the first bit.
fn drawn(alloc: Global, random: &[u8; 16]) -> Result<Integer, OutOfMemory>
    ensures { IfOk result (λ s. s ≡ drawn random.now) }
{
    let mut octets = *random;
    octets[0] %= 128;
    Integer::from_unsigned(alloc, &octets)
}

/// Draws a serial number that may be reserved: that of the octets of a random source, without the
/// first bit.
#[tactic(auto, using(crate::proofs::Reserving::may_reserve, crate::proofs::Reserving::refused))]
pub fn draw(alloc: Global, record: &Record, random: &[u8; 16]) -> Result<Integer, DrawError>
    ensures serial { IfOk result (λ s. s ≡ drawn random.now) }
    ensures free { IfOk result (λ s. reserved_fault s «record».now ≡ None) }
    ensures why { IfErr result (ExplainsDraw (reserved_fault (drawn random.now) «record».now)) }
{
    let serial = drawn(alloc, random)?;
    let copy = serial.try_clone(alloc)?;
    let message = OctetString::new(Vec::new(alloc));
    match record.reserve(copy, Kind::Certificate, 0, message) {
        Ok(_) => Ok(serial),
        Err(why) => Err(DrawError::Refused(why)),
    }
}
