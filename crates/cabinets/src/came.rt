ghost use Rattle.std.specs.Prelude.{◌≡◌, ◌-◌, length, Some};
ghost use Rattle.cabinets.specs.Page.{came_text};

use answers::Denial;
use channels::Channel;
use std::fmt;

/// What a call on a channel came to: its answer, and what waits and is free after it.
#[derive(Clone, Copy, Debug, PartialEq, Eq)]
pub struct Came {
    pub answer: Result<(), Denial>,
    pub waiting: usize,
    pub free: usize,
}

/// What a call with this answer left of a channel.
pub fn left_by<C: Channel>(answer: Result<(), Denial>, channel: &C) -> Came
    ensures answer { result.answer ≡ answer }
    ensures waiting { result.waiting ≡ length (C.Channel.waiting channel.now) }
    ensures free { result.free ≡ C.Channel.capacity channel.now - length (C.Channel.waiting channel.now) }
{
    Came {
        answer,
        waiting: channel.len(),
        free: channel.free(),
    }
}

impl fmt::Display for Came {
    ghost output = { λ came. Some (came_text came.answer came.waiting came.free) };

    fn fmt<W: fmt::Write>(&self, f: &mut fmt::Formatter<W>) -> fmt::Result {
        match self.answer {
            Ok(()) => write!(f, "done")?,
            Err(denial) => write!(f, "denied with {denial}")?,
        }
        write!(f, ", {} waiting, {} free", self.waiting, self.free)
    }
}
