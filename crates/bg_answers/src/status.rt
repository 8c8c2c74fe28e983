//! What an answer says by its status.
ghost use Rattle.std.specs.Prelude.{◌≡◌};

/// What a whole answer says by its status. A failed read, a failed write and want of memory are no answers, and have
/// numbers of their own (3, 4 and 5).
#[derive(Clone, Copy, Debug, PartialEq, Eq)]
pub enum Status {
    /// 0: the text is what the command makes of its input.
    Done,
    /// 1: the input is refused, and the text says why.
    Refused,
    /// 2: the words are refused.
    WrongWords,
    /// 6: there are more occurrences than are asked for, and the text says of which rule.
    TooMany,
    /// 7: the journal that the input begins with is none, or no run of the system, and the text says why.
    NoRun,
    /// 8: the input has more bytes than are read.
    TooLong,
    /// 9: a host or a rule is not as its sorts ask, and the text says which. No command answers it.
    Unsorted,
}

impl Status {
    ghost use Rattle.std.specs.Prelude.{◌≡◌};
    ghost use Rattle.bg_answers.specs.Answer.{status_number};

    /// The exit status of the program.
    pub fn number(self) -> u8
        ensures { result ≡ status_number self }
    {
        match self {
            Status::Done => 0,
            Status::Refused => 1,
            Status::WrongWords => 2,
            Status::TooMany => 6,
            Status::NoRun => 7,
            Status::TooLong => 8,
            Status::Unsorted => 9,
        }
    }
}
