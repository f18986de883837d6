ghost use Rattle.std.specs.Prelude.{◌≡◌};
ghost use Rattle.messages.specs.Wire.{unread_denial};
ghost use Rattle.messages.specs.declared.wire.unread.Unread.TheVariants.{NotALine as not_a_line};

use crate::wire::key::Key;
use answers::Denial;
use lines::LineFault;

/// Why bytes are no message.
#[derive(Clone, Copy, Debug, PartialEq, Eq)]
pub enum Unread {
    /// 14: a line, but its seven values are no lawful message.
    NotLawful,
    /// 15: no line, with the key, the cause and the byte of its fault.
    NotALine(LineFault<Key>),
}

impl From<Unread> for Denial {
    ghost from_gives = { λ unread denial. denial ≡ unread_denial unread };

    fn from(unread: Unread) -> Denial {
        match unread {
            Unread::NotLawful => Denial::NotLawful,
            Unread::NotALine(_) => Denial::NotALine,
        }
    }
}

impl From<LineFault<Key>> for Unread {
    ghost from_gives = { λ fault r. r ≡ not_a_line fault };

    fn from(fault: LineFault<Key>) -> Unread {
        Unread::NotALine(fault)
    }
}
