// What a run came to, and how it ended.

/// What a run without a fault came to.
#[derive(Clone, Copy, Debug, PartialEq, Eq)]
pub enum Answer {
    /// What was asked for.
    Done,

    /// A rule that fails.
    Failing,

    /// A refused container, box or store, or a part of a store that isn't supported.
    Refused,

    /// A file without a store.
    NoStore,

    /// Words that fit no command.
    Usage,

    /// Two files with different active claims.
    DifferentClaims,

    /// Evidence that two files differ.
    Evidence,

    /// A refused build of a new store.
    BuildRefused,

    /// One of two files that isn't accepted.
    NotAccepted,

    /// A file whose store isn't taken out, since what follows it would move.
    StripRefused,
}

impl Answer {
    ghost use Rattle.std.specs.Prelude.{◌≡◌};
    ghost use Rattle.c2_cmd_outcome.specs.Status.{status_of};

    /// The status of an answer.
    pub fn status(self) -> Status
        ensures { result ≡ status_of self }
    {
        match self {
            Answer::Done => Status::Done,
            Answer::Failing => Status::Failing,
            Answer::Refused => Status::Refused,
            Answer::NoStore => Status::NoStore,
            Answer::Usage => Status::Usage,
            Answer::DifferentClaims => Status::DifferentClaims,
            Answer::Evidence => Status::Evidence,
            Answer::BuildRefused => Status::BuildRefused,
            Answer::NotAccepted => Status::NotAccepted,
            Answer::StripRefused => Status::StripRefused,
        }
    }
}

/// How a run ended.
#[derive(Clone, Copy, Debug, PartialEq, Eq)]
pub enum Status {
    /// Done.
    Done = 0,

    /// A rule fails.
    Failing = 1,

    /// The container, a box or the store is refused, or has a part that isn't supported.
    Refused = 2,

    /// The file has no store.
    NoStore = 3,

    /// The words don't fit.
    Usage = 4,

    /// A source that the command uses failed.
    InputFault = 5,

    /// The report failed, or the file that the command writes.
    OutputFault = 6,

    /// A judge failed.
    JudgeFault = 7,

    /// Memory ran out.
    NoMemory = 8,

    /// The active claims of two files differ.
    DifferentClaims = 9,

    /// There is evidence that two files differ.
    Evidence = 10,

    /// Nothing is built: an input is refused, or what would be written.
    BuildRefused = 11,

    /// One of two files isn't accepted.
    NotAccepted = 12,

    /// The store isn't taken out, since it stands in the middle of its file.
    StripRefused = 13,
}

impl Status {
    ghost use Rattle.std.specs.Prelude.{◌≡◌};
    ghost use Rattle.c2_cmd_outcome.specs.Status.{exit_status};

    /// The exit status.
    pub fn code(self) -> u8
        ensures { result ≡ exit_status self }
    {
        self as u8
    }
}
