ghost use Rattle.std.specs.Prelude.{◌≡◌};
ghost use Rattle.command_run.specs.Status.{exit_code, status_of};

/// How a run ended.
#[derive(Clone, Copy, Debug, PartialEq, Eq)]
pub enum Status {
    /// The command's text was written whole.
    Done,
    /// A read failed.
    ReadFault,
    /// A write failed. A front of the answer may have been written.
    WriteFault,
    /// The input is longer than its limit.
    TooLong,
    /// The input isn't one that the command takes; the answer that says so was written.
    BadProfile,
    /// The command can't do what the input asks for; the answer that says so was written.
    Refused,
    /// The words aren't a command.
    Usage,
    /// Memory was refused.
    OutOfMemory,
}

impl Status {
    /// The number that the program ends with.
    pub fn exit_code(self) -> u8
        ensures { result ≡ exit_code self }
    {
        match self {
            Status::Done => 0,
            Status::ReadFault => 1,
            Status::WriteFault => 2,
            Status::TooLong => 3,
            Status::BadProfile => 4,
            Status::Refused => 5,
            Status::Usage => 6,
            Status::OutOfMemory => 7,
        }
    }
}

/// What an answer says of its input.
#[derive(Clone, Copy, Debug, PartialEq, Eq)]
pub enum Ending {
    /// The command did what the input asks for.
    Done,
    /// The input isn't one that the command takes.
    BadProfile,
    /// The command can't do what the input asks for.
    Refused,
}

impl Ending {
    /// How a run ends whose answer was written whole.
    pub fn status(self) -> Status
        ensures { result ≡ status_of self }
    {
        match self {
            Ending::Done => Status::Done,
            Ending::BadProfile => Status::BadProfile,
            Ending::Refused => Status::Refused,
        }
    }
}
