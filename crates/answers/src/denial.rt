ghost use Rattle.std.specs.Prelude.{◌≡◌, Some};
ghost use Rattle.std.specs.Fmt.{decimal};
ghost use Rattle.answers.specs.Numbers.{denial_number};

use std::error::Error;
use std::fmt;

/// Why a call is denied. Of several that apply, the lowest number decides.
#[derive(Clone, Copy, PartialEq, Eq, Debug)]
pub enum Denial {
    /// A setting or given memory is out of range.
    OutOfRange = 1,
    /// There is no such user or destination.
    NoSuchParty = 2,
    /// The service or the forwarding is above 3.
    AboveThree = 3,
    /// The transaction does not stand for this user.
    NotStanding = 4,
    /// The record whose recall is answered is not Recalled.
    NotRecalled = 5,
    /// A record of this user has the same destination and service.
    Identical = 6,
    /// The user has as many records as one may have.
    UserFull = 7,
    /// The originating side has no record place left.
    NoRecordPlace = 8,
    /// Every transaction number has been given out.
    NoNumberLeft = 9,
    /// No message waits, or there is no such place.
    NoneThere = 10,
    /// A running timer of that side is at 0, so that expiry comes first.
    TimerDue = 11,
    /// No running timer of that side is at 0.
    NoneDue = 12,
    /// Too few places are free.
    NoFreePlace = 13,
    /// Seven values are no lawful message.
    NotLawful = 14,
    /// Bytes are no line.
    NotALine = 15,
}

/// Its number, 1 to 15.
impl From<Denial> for u8 {
    ghost from_gives = { λ denial number. number ≡ denial_number denial };

    fn from(denial: Denial) -> u8 {
        denial as u8
    }
}

/// A denial is told by its number.
impl fmt::Display for Denial {
    ghost output = { λ denial. Some (decimal (denial_number denial)) };

    fn fmt<W: fmt::Write>(&self, f: &mut fmt::Formatter<W>) -> fmt::Result {
        write!(f, "{}", u8::from(*self))
    }
}

impl Error for Denial {}
