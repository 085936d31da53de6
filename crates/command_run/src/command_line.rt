ghost use Rattle.std.specs.Prelude.{IfErr};
ghost use Rattle.command_run.specs.Status.{EndsWith};

use crate::status::Status;
use std::env;
use std::io::ErrorKind;

/// The words after the program's name. The error is the status to end with: `Usage` where a word isn't UTF-8.
pub fn words(rt: &HostRuntime) -> Result<Vec<String>, Status>
    ensures { IfErr result (EndsWith Status.Usage) }
{
    let args = match env::args(rt) {
        Ok(args) => args,
        Err(error) if error.kind() == ErrorKind::OutOfMemory => return Err(Status::OutOfMemory),
        Err(_) => return Err(Status::Usage),
    };
    args.skip(1)
        .collect(rt.alloc())
        .map_err(|_| Status::OutOfMemory)
}
