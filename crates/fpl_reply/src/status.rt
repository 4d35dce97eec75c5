ghost use Rattle.std.specs.Prelude.{◌≡◌};
ghost use Rattle.fpl_reply.specs.Status.{number_of};

/// How a run ends.
#[derive(Clone, Copy, Debug, PartialEq, Eq)]
pub enum Status {
    /// The view's text was written.
    Done,
    /// The words are no command.
    Usage,
    /// The input is too long, or is no presentation.
    Refused,
    /// The input is no checkpoint, or a stored section fails a test.
    BadCheckpoint,
    /// The symbols up to some weight number more than the command allows.
    Limit,
    /// Over fractions, an operation in computing some weight doesn't fit.
    Overflow,
    /// There was no memory.
    NoMemory,
    /// A read failed.
    ReadFault,
    /// A put to the output failed, after a prefix of the view's text.
    WriteFault,
    /// The view works over primes alone, and the presentation is over fractions.
    Unsupported,
}

impl Status {
    /// The number that the process ends with.
    pub fn number(self) -> u8
        ensures { result ≡ number_of self }
    {
        match self {
            Status::Done => 0,
            Status::Usage => 1,
            Status::Refused => 2,
            Status::BadCheckpoint => 3,
            Status::Limit => 4,
            Status::Overflow => 5,
            Status::NoMemory => 6,
            Status::ReadFault => 7,
            Status::WriteFault => 8,
            Status::Unsupported => 10,
        }
    }
}
