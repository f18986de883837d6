ghost use Rattle.std.specs.Prelude.{◌≡◌, Some};
ghost use Rattle.answers.specs.Numbers.{answer_word, answer_transaction, answer_cause};

use crate::cause::Cause;
use std::fmt;

/// What an accepted call answers, each case with the values that it carries.
#[derive(Clone, Copy, PartialEq, Eq, Debug)]
pub enum Answer {
    Requested { tn: u32 },
    Accepted { tn: u32 },
    Recall { tn: u32 },
    Suspended { tn: u32 },
    Kept { tn: u32 },
    Calling { tn: u32 },
    Stray { tn: u32 },
    Nothing { tn: u32 },
    Stored { tn: u32 },
    Rejected { tn: u32, cause: Cause },
    Freed { tn: u32 },
    Resumed { tn: u32 },
    Ended { tn: u32, cause: Cause },
    Done,
}

impl Answer {
    /// Its word, as the console writes it.
    pub fn word(self) -> &'static str
        ensures { result.now ≡ answer_word self }
    {
        match self {
            Answer::Requested { .. } => "requested",
            Answer::Accepted { .. } => "accepted",
            Answer::Recall { .. } => "recall",
            Answer::Suspended { .. } => "suspended",
            Answer::Kept { .. } => "kept",
            Answer::Calling { .. } => "calling",
            Answer::Stray { .. } => "stray",
            Answer::Nothing { .. } => "nothing",
            Answer::Stored { .. } => "stored",
            Answer::Rejected { .. } => "rejected",
            Answer::Freed { .. } => "freed",
            Answer::Resumed { .. } => "resumed",
            Answer::Ended { .. } => "ended",
            Answer::Done => "done",
        }
    }

    /// The transaction that it tells, 0 at done.
    pub fn transaction(self) -> u32
        ensures { result ≡ answer_transaction self }
    {
        match self {
            Answer::Requested { tn }
            | Answer::Accepted { tn }
            | Answer::Recall { tn }
            | Answer::Suspended { tn }
            | Answer::Kept { tn }
            | Answer::Calling { tn }
            | Answer::Stray { tn }
            | Answer::Nothing { tn }
            | Answer::Stored { tn }
            | Answer::Rejected { tn, .. }
            | Answer::Freed { tn }
            | Answer::Resumed { tn }
            | Answer::Ended { tn, .. } => tn,
            Answer::Done => 0,
        }
    }

    /// The cause that it tells; none is given but at rejected and ended.
    pub fn cause(self) -> Cause
        ensures { result ≡ answer_cause self }
    {
        match self {
            Answer::Rejected { cause, .. } | Answer::Ended { cause, .. } => cause,
            _ => Cause::NotGiven,
        }
    }
}

/// An answer is told by its word.
impl fmt::Display for Answer {
    ghost output = { λ answer. Some (answer_word answer) };

    fn fmt<W: fmt::Write>(&self, f: &mut fmt::Formatter<W>) -> fmt::Result {
        f.write_str(self.word())
    }
}
