ghost use Rattle.std.specs.Prelude.{◌≡◌, Some};
ghost use Rattle.std.specs.Fmt.{decimal};
ghost use Rattle.answers.specs.Numbers.{cause_number, cause_of};

use std::fmt;

/// Why a record ends, or a request is rejected.
#[derive(Clone, Copy, PartialEq, Eq, Debug)]
pub enum Cause {
    NotGiven = 0,
    T3Over = 1,
    T4Over = 2,
    T7Over = 3,
    T9Over = 4,
    Withdrawn = 5,
    ShortTermDenial = 6,
    LongTermDenial = 7,
    Completed = 8,
    BusyAgain = 9,
    CallReturned = 10,
    MessageReturned = 11,
}

/// Its number, 0 to 11.
impl From<Cause> for u8 {
    ghost from_gives = { λ cause number. number ≡ cause_number cause };

    fn from(cause: Cause) -> u8 {
        cause as u8
    }
}

/// The cause that a number tells; one above 11 tells none.
impl From<u8> for Cause {
    ghost from_gives = { λ number cause. cause ≡ cause_of number };

    fn from(number: u8) -> Cause {
        match number {
            1 => Cause::T3Over,
            2 => Cause::T4Over,
            3 => Cause::T7Over,
            4 => Cause::T9Over,
            5 => Cause::Withdrawn,
            6 => Cause::ShortTermDenial,
            7 => Cause::LongTermDenial,
            8 => Cause::Completed,
            9 => Cause::BusyAgain,
            10 => Cause::CallReturned,
            11 => Cause::MessageReturned,
            _ => Cause::NotGiven,
        }
    }
}

/// A cause is told by its number.
impl fmt::Display for Cause {
    ghost output = { λ cause. Some (decimal (cause_number cause)) };

    fn fmt<W: fmt::Write>(&self, f: &mut fmt::Formatter<W>) -> fmt::Result {
        write!(f, "{}", u8::from(*self))
    }
}
