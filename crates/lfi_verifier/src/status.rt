//! The statuses that calls answer.

ghost use Rattle.std.specs.Prelude.{◌≡◌, ◌≤◌};
ghost use Rattle.lfi_verifier.specs.Statuses.{status_number};

/// What a call found, or why it found nothing.
#[derive(Clone, Copy, PartialEq, Eq)]
pub(crate) enum Status {
    /// No word breaks a rule: of a whole module; or none of those that came, of an unfinished one that is added to. Of other
    /// calls: what was asked for is done.
    Lawful,
    /// A word breaks a rule.
    Refused,
    /// Code isn't 1 to 4,194,304 whole words, a module hasn't as many, or a piece isn't whole words or is longer than what
    /// is to come.
    BadLength,
    /// Words are still to come, and those that came break no rule.
    Incomplete,
    /// The numbers can't be a state's, or a fault's.
    BadState,
    /// There is no such profile.
    UnknownProfile,
    /// There is no such module.
    UnknownModule,
    /// A text is longer than the library has room for.
    NoRoom,
}

impl Status {
    /// Its number in C, 0 to 7.
    pub(crate) fn number(self) -> u32
        ensures is { result ≡ status_number self }
        ensures most { result ≤ 7 }
    {
        match self {
            Status::Lawful => 0,
            Status::Refused => 1,
            Status::BadLength => 2,
            Status::Incomplete => 3,
            Status::BadState => 4,
            Status::UnknownProfile => 5,
            Status::UnknownModule => 6,
            Status::NoRoom => 7,
        }
    }
}
