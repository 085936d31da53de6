//! Laws of the answers.
ghost use Rattle.std.specs.Prelude.{ℕ, Bool, List};
ghost use Rattle.command_run.specs.declared.status.Ending.TheVariants.{Done};
ghost use Rattle.command_files.specs.Run.{Decides};
ghost use Rattle.shelf_core.specs.Both.{HasOneMessageForBoth};
ghost use Rattle.shelf_core.specs.NoFault.{HasNoFault};
ghost use Rattle.shelf_core.specs.Outcome.{Comes, HasOneOutcome, IsAnswer};
ghost use Rattle.shelf_command.specs.declared.request.Action.{Action};

use shelf_job::{der_once, message_once};
use shelf_path::one_verdict;

/// A law: the inputs come to one outcome: one text, or one fault.
#[tactic(auto, using(crate::proofs::OneOutcome::one_outcome))]
pub fn one_outcome()
    ensures { (action : Action) (strict is_der has_revoked : Bool) (inputs : List (List ℕ)) → HasOneOutcome action strict is_der has_revoked inputs }
{
    message_once();
    der_once();
    one_verdict();
}

/// A law: where nothing in the inputs prevents what is asked, every answer to them ends with that done, unless memory
/// runs out.
pub fn no_fault_is_done()
    ensures { (action : Action) (strict is_der has_revoked : Bool) (inputs : List (List ℕ)) → HasNoFault action strict has_revoked inputs → Decides (IsAnswer (Comes action strict is_der has_revoked inputs)) Done }
{}

/// A law: with one order and the same files `seal` comes to what it comes to over the message that `tbs` wrote, whatever is handed
/// in as the signature.
#[tactic(auto, using(crate::proofs::Both::one_message_for_both))]
pub fn one_message_for_both()
    ensures { HasOneMessageForBoth }
{
    message_once();
}
