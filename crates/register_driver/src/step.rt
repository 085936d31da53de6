//! Steps.
ghost use Rattle.std.specs.Prelude.{◌≡◌, Some, None};

use command_run::{Answer, Ending};
use register_record::Event;
use std::alloc::Global;

/// What a subcommand comes to: an event that is recorded first, and then what is written.
#[derive(Drop)]
pub struct Step {
    pub event: Option<Event>,
    pub answer: Answer,
}

impl Step {
    /// Nothing is recorded.
    pub fn written(alloc: Global, text: Vec<u8>) -> Step
        ensures event { result.event ≡ None }
        ensures text { result.answer.text.items ≡ text.items }
    {
        Step {
            event: None,
            answer: done(text, Vec::new(alloc)),
        }
    }

    /// An event is recorded.
    pub fn recorded(event: Event, text: Vec<u8>, complaint: Vec<u8>) -> Step
        ensures event { result.event ≡ Some event }
        ensures text { result.answer.text.items ≡ text.items }
    {
        Step {
            event: Some(event),
            answer: done(text, complaint),
        }
    }
}

/// An answer that is done.
pub fn done(text: Vec<u8>, complaint: Vec<u8>) -> Answer
    ensures ending { result.ending ≡ Ending.Done }
    ensures text { result.text.items ≡ text.items }
{
    Answer {
        ending: Ending::Done,
        text,
        complaint,
    }
}
