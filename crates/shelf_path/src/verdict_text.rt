//! A verdict as a text.
ghost use Rattle.std.specs.Prelude.{◌≡◌, IfOk};
ghost use Rattle.shelf_path.specs.Verdicts.{reason_name, section, verdict_text};
ghost use Rattle.shelf_path.specs.declared.verdict.Verdict.TheVariants.{Invalid, Valid};

use crate::verdict::Verdict;
use path_validation::PathReason;
use std::alloc::{AllocError, Global};

/// The name of a reason.
fn reason_name(reason: PathReason) -> &'static str
    ensures { result.now ≡ reason_name reason }
{
    match reason {
        PathReason::Empty => "Empty",
        PathReason::BadExtension => "BadExtension",
        PathReason::AlgorithmsDiffer => "AlgorithmsDiffer",
        PathReason::BadSignature => "BadSignature",
        PathReason::NotYetValid => "NotYetValid",
        PathReason::Expired => "Expired",
        PathReason::Revoked => "Revoked",
        PathReason::Undetermined => "Undetermined",
        PathReason::NameMismatch => "NameMismatch",
        PathReason::TooMuchWork => "TooMuchWork",
        PathReason::UnprocessedNameForm => "UnprocessedNameForm",
        PathReason::NotPermitted => "NotPermitted",
        PathReason::Excluded => "Excluded",
        PathReason::NoPolicy => "NoPolicy",
        PathReason::MappedAnyPolicy => "MappedAnyPolicy",
        PathReason::NotCa => "NotCa",
        PathReason::PathTooLong => "PathTooLong",
        PathReason::NoCertSign => "NoCertSign",
        PathReason::UnprocessedCritical => "UnprocessedCritical",
        PathReason::NoUserPolicy => "NoUserPolicy",
    }
}

/// The section of the step that fails.
fn section(block: u64, reason: PathReason) -> &'static str
    ensures { result.now ≡ section block reason }
{
    match reason {
        PathReason::Empty => "6.1.1 (a)",
        PathReason::BadExtension => "4.2",
        PathReason::AlgorithmsDiffer => "4.1.1.2",
        PathReason::BadSignature => "6.1.3 (a) (1)",
        PathReason::NotYetValid => "6.1.3 (a) (2)",
        PathReason::Expired => "6.1.3 (a) (2)",
        PathReason::Revoked => "6.1.3 (a) (3)",
        PathReason::Undetermined => "6.1.3 (a) (3)",
        PathReason::NameMismatch => "6.1.3 (a) (4)",
        PathReason::TooMuchWork => "6.1.3 (b)",
        PathReason::UnprocessedNameForm => "6.1.3 (b)",
        PathReason::NotPermitted => "6.1.3 (b)",
        PathReason::Excluded => "6.1.3 (c)",
        PathReason::NoPolicy => "6.1.3 (f)",
        PathReason::MappedAnyPolicy => "6.1.4 (a)",
        PathReason::NotCa => "6.1.4 (k)",
        PathReason::PathTooLong => "6.1.4 (l)",
        PathReason::NoCertSign => "6.1.4 (n)",
        PathReason::UnprocessedCritical => { if block == 1 { "6.1.5 (f)" } else { "6.1.4 (o)" } }
        PathReason::NoUserPolicy => "6.1.5 (g)",
    }
}

/// The line of a valid path of so many certificates.
#[tactic(auto, unfolding(crate::specs::Verdicts::verdict_text))]
fn valid_text(alloc: Global, count: u64) -> Result<String, AllocError>
    ensures { IfOk result (λ text. text.bytes.items ≡ verdict_text (Valid count)) }
{
    format!(in alloc; "valid {count}\n")
}

/// The line of one that isn't taken.
#[tactic(auto, unfolding(crate::specs::Verdicts::verdict_text))]
fn invalid_text(alloc: Global, block: u64, reason: PathReason) -> Result<String, AllocError>
    ensures { IfOk result (λ text. text.bytes.items ≡ verdict_text (Invalid block reason)) }
{
    let name = reason_name(reason);
    let step = section(block, reason);
    format!(in alloc; "invalid {block} {name} RFC 5280, {step}\n")
}

impl Verdict {
    /// The verdict as a line: `valid` and how many certificates the path has, or `invalid`, the number of
    /// the block, the name of the reason and the step that fails.
    pub fn text(self, alloc: Global) -> Result<Vec<u8>, AllocError>
        ensures { IfOk result (λ text. text.items ≡ verdict_text self) }
    {
        let text = match self {
            Verdict::Valid { count } => valid_text(alloc, count)?,
            Verdict::Invalid { block, reason } => invalid_text(alloc, block, reason)?,
        };
        Ok(text.into_bytes())
    }
}
