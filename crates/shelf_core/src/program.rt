//! The program's commands.
ghost use Rattle.std.specs.Prelude.{◌≡◌, IfOk, map};
ghost use Rattle.shelf_command.specs.RequestViews.{RequestView};
ghost use Rattle.shelf_core.specs.Answers.{answers};

use crate::answer::answer_to;
use command_files::{FileCommand, InputName, Stop};
use command_run::Answer;
use shelf_command::{Request, request_in, stopped_text, usage_text};
use std::alloc::{AllocError, Global};
use std::marker::Model;

/// What a run is asked to do.
#[derive(Drop)]
pub struct Program {
    request: Request,
}

impl Model for Program {
    ghost use Rattle.shelf_command.specs.RequestViews.{RequestView};

    ghost Value = { RequestView };

    ghost view = { λ p. p.request };
}

impl FileCommand for Program {
    ghost use Rattle.shelf_command.specs.Requests.{requested};
    ghost use Rattle.shelf_core.specs.Answers.{answers};

    ghost command_of = { requested };

    ghost inputs_of = { λ r. r.inputs };

    ghost target_of = { λ r. r.out };

    ghost gives = { answers };

    fn of_words(alloc: Global, words: &[String]) -> Result<Option<Program>, AllocError> {
        match request_in(alloc, words)? {
            Some(request) => Ok(Some(Program { request })),
            None => Ok(None),
        }
    }

    fn inputs(&self) -> &[InputName] {
        self.request.inputs()
    }

    fn target(&self) -> Option<&str> {
        self.request.out()
    }

    fn answer_to(&self, alloc: Global, inputs: &[Vec<u8>]) -> Result<Answer, AllocError> {
        answer_to(alloc, &self.request, inputs)
    }

    fn usage(alloc: Global, words: &[String]) -> Result<Vec<u8>, AllocError> {
        usage_text(alloc, words)
    }

    fn stopped(&self, alloc: Global, stop: Stop) -> Result<Vec<u8>, AllocError> {
        stopped_text(alloc, &self.request, stop)
    }
}
