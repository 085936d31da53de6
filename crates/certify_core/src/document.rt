//! Words that make a text of what a document says.
ghost use Rattle.std.specs.Prelude.{IfOk, IfErr};
ghost use Rattle.toml_format.specs.Document.{document_of};
ghost use Rattle.toml_format.specs.Tables.{fields};
ghost use Rattle.certify_core.specs.CommandSpec.{IsMade, CommandSpec, SpecGives, of_document};
ghost use Rattle.certify_core.specs.Outcome.{HasRefusal};

use crate::refusal::Refusal;
use std::alloc::Global;
use toml_format::{FromTable, read_document};

/// A word that makes a text of what a document says.
pub(crate) trait Subcommand {
    /// What a document says.
    type Profile: FromTable;

    ghost spec: { Self.Profile → CommandSpec };

    /// The text that is made of it.
    fn text(alloc: Global, profile: Self::Profile) -> Result<Vec<u8>, Refusal>
        ensures text { IfOk result (λ text. IsMade (spec profile) text.items) }
        ensures why { IfErr result (HasRefusal (SpecGives (spec profile))) };
}

/// The text that is made of the document that the input is.
pub(crate) fn document_text<W: Subcommand>(alloc: Global, input: &[u8]) -> Result<Vec<u8>, Refusal>
    ensures text { IfOk result (λ text. IsMade (of_document W.spec (document_of (fields W.Profile.keys W.Profile.of_keys).read input.now)) text.items) }
    ensures why { IfErr result (HasRefusal (SpecGives (of_document W.spec (document_of (fields W.Profile.keys W.Profile.of_keys).read input.now)))) }
{
    match read_document::<W::Profile>(alloc, input)? {
        Ok(profile) => W::text(alloc, profile),
        Err(reason) => Err(Refusal::Reason(reason)),
    }
}
