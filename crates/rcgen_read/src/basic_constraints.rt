//! Basic constraints (RFC 5280, 4.2.1.9).
ghost use Rattle.std.specs.Prelude.{◌≡◌};
ghost use Rattle.rcgen_read.specs.ExtensionReading.{is_ca_of, read_constraints};
ghost use Rattle.rcgen_read.specs.Reading.{ReadsAs};

use crate::extensions::contents_value;
use rcgen_issue::{BasicConstraints, Error, IsCa};
use std::alloc::Global;

/// Whether the subject is an authority, and how long a path below it may be.
#[tactic(auto, using(crate::proofs::Lengths::lengths))]
fn is_ca_of(constraints: &pkix_cert::BasicConstraints) -> Result<IsCa, Error>
    ensures { ReadsAs (λ c. c) (is_ca_of constraints.now) result }
{
    if !constraints.ca {
        return Ok(IsCa::ExplicitNoCa);
    }
    let Some(length) = &constraints.path_len_constraint else {
        return Ok(IsCa::Ca(BasicConstraints::Unconstrained));
    };
    match length.to_u64() {
        Some(most) if most < 256 => Ok(IsCa::Ca(BasicConstraints::Constrained(most as u8))),
        _ => Err(Error::CouldNotParseCertificate),
    }
}

/// What the contents of the extension say of the subject.
#[tactic(auto, unfolding(crate::specs::ExtensionReading::read_constraints))]
pub(crate) fn is_ca(alloc: Global, contents: &[u8]) -> Result<IsCa, Error>
    ensures { ReadsAs (λ c. c) (read_constraints contents.now) result }
{
    let constraints: pkix_cert::BasicConstraints = contents_value(alloc, contents)?;
    is_ca_of(&constraints)
}
