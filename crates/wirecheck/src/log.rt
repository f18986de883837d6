ghost use Rattle.std.specs.Prelude.{◌≡◌, ◌==◌, nat_lt, length, Some};
ghost use Rattle.wirecheck.specs.Logs.{progress, nothing_read, held_with, ended, told, count_text};
ghost use Rattle.wirecheck.specs.Reports.{told_in};

use crate::report::Report;
use drafts::Draft;
use std::fmt;

// A line longer than any wire line is at fault within its first 47 bytes, so that 64 are enough to hold.
type Held = Draft<64>;

/// A log as far as it has been read.
#[derive(Clone, Copy, Debug)]
pub struct Log {
    held: Held,
    messages: u64,
    refused: u64,
}

impl Log {
    /// A log of which nothing has been read.
    pub fn new() -> Log
        ensures { progress result ≡ nothing_read }
    {
        Log {
            held: Held::new(),
            messages: 0,
            refused: 0,
        }
    }

    /// Holds the next byte, and says whether it ends the line.
    pub fn take(&mut self, byte: u8) -> bool
        ensures log { progress self.new ≡ held_with (progress self.old) byte }
        ensures end { result ≡ (byte == 10) }
    {
        self.held.push(byte);
        byte == b'\n'
    }

    /// Whether a line has been begun that has not ended.
    pub fn is_within_line(&self) -> bool
        ensures { result ≡ nat_lt 0 (length (progress self.now).held) }
    {
        !self.held.as_bytes().is_empty()
    }

    /// Ends the line that is held: counts it, and reports it.
    pub fn end_line(&mut self) -> Report
        ensures log { progress self.new ≡ ended (progress self.old) }
        ensures report { told_in result ≡ told (progress self.old) }
    {
        let read = messages::read(self.held.as_bytes());
        match read {
            Ok(_) => self.messages = self.messages.saturating_add(1),
            Err(_) => self.refused = self.refused.saturating_add(1),
        }
        self.held = Held::new();
        Report::of_line(self.messages.saturating_add(self.refused), read)
    }
}

/// The count of the lines.
impl fmt::Display for Log {
    ghost output = { λ log. Some (count_text (progress log)) };

    fn fmt<W: fmt::Write>(&self, f: &mut fmt::Formatter<W>) -> fmt::Result {
        write!(f, "{} messages, {} refused", self.messages, self.refused)
    }
}
