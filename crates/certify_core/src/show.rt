//! Lists what a certificate contains.
ghost use Rattle.std.specs.Prelude.{◌≡◌, IfOk, IfErr};
ghost use Rattle.certify_core.specs.CommandSpec.{IsMade, SpecGives};
ghost use Rattle.certify_core.specs.Outcome.{HasRefusal};
ghost use Rattle.certify_core.specs.Show.{without_line_feed, shown_bytes};
ghost use Rattle.certify_core.specs.Showing.{showing};

use crate::listing::listing;
use crate::refusal::Refusal;
use std::alloc::{AllocError, Global};
use toml_format::{HexBytes, Reason, from_hex};

/// All but one line feed at the end.
fn without_line_feed(input: &[u8]) -> &[u8]
    ensures { result.now ≡ without_line_feed input.now }
{
    match input.strip_suffix(b"\n") {
        Some(front) => front,
        None => input,
    }
}

/// The bytes that are shown. It is `None` where the input isn't hex.
#[tactic(auto, unfolding(crate::specs::Show::shown_bytes))]
fn shown_bytes(alloc: Global, input: &[u8]) -> Result<Option<HexBytes>, AllocError>
    ensures { IfOk result (λ found. found ≡ shown_bytes input.now) }
{
    from_hex(alloc, without_line_feed(input))
}

/// The listing of the certificate whose hex the input is.
pub(crate) fn show(alloc: Global, input: &[u8]) -> Result<Vec<u8>, Refusal>
    ensures text { IfOk result (λ text. IsMade (showing input.now) text.items) }
    ensures why { IfErr result (HasRefusal (SpecGives (showing input.now))) }
{
    let Some(bytes) = shown_bytes(alloc, input)? else {
        return Err(Refusal::Reason(Reason::NotHex));
    };
    let found = listing(alloc, bytes.as_slice())?;
    match found {
        Some(text) => Ok(text),
        None => Err(Refusal::Reason(Reason::NotOneValue)),
    }
}
