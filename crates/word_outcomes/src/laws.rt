//! Laws: within the limits each request comes to something, and so has an answer.
ghost use Rattle.word_outcomes.specs.Answers.{EachRequestHasOneAnswer, EachRequestHasOneOutcome};

use outcomes::{each_instant_is_civil, each_job_has_one_message, each_signature_has_one_result};
use pem::written_is_read;
use shelf_core::one_outcome;

/// A law: within the limits each request comes to exactly one outcome. For `tbs` it is the message of the
/// order, the rules that stop it, or the first fault. For `seal` it is what is issued over that message,
/// these rules, or the first fault, also of the signature.
pub fn each_request_has_one_outcome()
    ensures { EachRequestHasOneOutcome }
{
    one_outcome();
    each_job_has_one_message();
    each_signature_has_one_result();
    each_instant_is_civil();
    written_is_read();
}

/// A law: so each request has an answer, and exactly one, but for the wording of a fault. No exit status
/// is a promise about nothing.
pub fn each_request_has_one_answer()
    ensures { EachRequestHasOneAnswer }
{
    each_request_has_one_outcome();
}
