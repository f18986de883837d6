ghost use Rattle.std.specs.Prelude.{◌≡◌, Some};
ghost use Rattle.messages.specs.Kinds.{letter_of, kind_or_letter, unknown_text};

use std::error::Error;
use std::fmt;

/// The ten kinds of message, each with its letter.
#[derive(Clone, Copy, Debug, PartialEq, Eq)]
pub enum Kind {
    Request = b'Q' as isize,
    Suspend = b'S' as isize,
    Resume = b'M' as isize,
    Call = b'C' as isize,
    Cancel = b'X' as isize,
    Result = b'R' as isize,
    Error = b'E' as isize,
    RemoteUserFree = b'F' as isize,
    CallDone = b'D' as isize,
    CallBusy = b'B' as isize,
}

/// A letter that is no kind's.
#[derive(Clone, Copy, Debug, PartialEq, Eq)]
pub struct UnknownLetter(pub u8);

impl fmt::Display for UnknownLetter {
    ghost output = { λ unknown. Some (unknown_text unknown.0) };

    fn fmt<W: fmt::Write>(&self, f: &mut fmt::Formatter<W>) -> fmt::Result {
        write!(f, "the byte {} is the letter of no kind", self.0)
    }
}

impl Error for UnknownLetter {}

impl From<Kind> for u8 {
    ghost from_gives = { λ kind letter. letter ≡ letter_of kind };

    fn from(kind: Kind) -> u8 {
        kind as u8
    }
}

impl TryFrom<u8> for Kind {
    type Error = UnknownLetter;

    ghost try_from_gives = { λ letter r. r ≡ kind_or_letter letter };

    fn try_from(letter: u8) -> Result<Kind, UnknownLetter> {
        match letter {
            b'Q' => Ok(Kind::Request),
            b'S' => Ok(Kind::Suspend),
            b'M' => Ok(Kind::Resume),
            b'C' => Ok(Kind::Call),
            b'X' => Ok(Kind::Cancel),
            b'R' => Ok(Kind::Result),
            b'E' => Ok(Kind::Error),
            b'F' => Ok(Kind::RemoteUserFree),
            b'D' => Ok(Kind::CallDone),
            b'B' => Ok(Kind::CallBusy),
            _ => Err(UnknownLetter(letter)),
        }
    }
}
