//! The document of a question about a certification path.
ghost use Rattle.std.specs.Prelude.{◌≡◌, false};
ghost use Rattle.shelf_fault.specs.Faults.{Gets};
ghost use Rattle.shelf_path.specs.Questions.{question_in, question_of, question_values};

use shelf_fault::Fault;
use std::alloc::{AllocError, Global};
use toml_format::{Arcs, Entries, FromTable, List, Reason, TableReader, UtcInstant, read_document};

/// What a document asks about a certification path (RFC 5280, 6.1.1), with the keys as they are named
/// here.
#[derive(Drop)]
pub struct PathQuestion {
    /// The time (b). Required.
    pub at: UtcInstant,
    /// The arcs of the policies that the user accepts: the user-initial-policy-set (c). None, where the
    /// key isn't there, is any-policy.
    pub policies: Option<List<Arcs>>,
    /// Whether the path has to be valid for a policy of the user's: initial-explicit-policy (f); by
    /// default not.
    pub explicit_policy: bool,
    /// Whether policies may not be mapped: initial-policy-mapping-inhibit (e); by default they may.
    pub inhibit_policy_mapping: bool,
    /// Whether anyPolicy doesn't count in certificates: initial-any-policy-inhibit (g); by default it
    /// counts.
    pub inhibit_any_policy: bool,
    /// Whether each certificate of the path has to be known as not revoked (6.1.3 (a) (3)), by the
    /// revocation lists after the path; by default it isn't asked.
    pub revocation: bool,
}

impl FromTable for PathQuestion {
    type Keys = (
        ((((((), UtcInstant), Option<List<Arcs>>), bool), bool), bool),
        bool,
    );

    ghost keys = { question_values };

    ghost of_keys = { question_of };

    #[tactic(auto, unfolding(crate::specs::Questions::question_values))]
    fn keys<'a>(
        alloc: Global,
        entries: Entries<'a>,
    ) -> Result<TableReader<'a, Self::Keys>, AllocError> {
        let reader = TableReader::new(entries)
            .required(alloc, "at")?
            .optional(alloc, "policies")?
            .defaulted(alloc, "explicit_policy", false)?
            .defaulted(alloc, "inhibit_policy_mapping", false)?
            .defaulted(alloc, "inhibit_any_policy", false)?
            .defaulted(alloc, "revocation", false)?;
        Ok(reader)
    }

    #[tactic(auto, unfolding(crate::specs::Questions::question_of))]
    fn of_keys(values: Self::Keys) -> Result<PathQuestion, Reason> {
        let (
            ((((((), at), policies), explicit_policy), inhibit_policy_mapping), inhibit_any_policy),
            revocation,
        ) = values;
        Ok(PathQuestion {
            at,
            policies,
            explicit_policy,
            inhibit_policy_mapping,
            inhibit_any_policy,
            revocation,
        })
    }
}

/// The question that the text is, as a whole.
#[tactic(auto, unfolding(crate::specs::Questions::question_in))]
pub fn question_in(alloc: Global, text: &[u8]) -> Result<PathQuestion, Fault>
    ensures { Gets (λ q. q) (question_in text.now) result }
{
    match read_document::<PathQuestion>(alloc, text)? {
        Ok(question) => Ok(question),
        Err(reason) => Err(Fault::Order(reason)),
    }
}
