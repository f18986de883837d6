ghost use Rattle.std.specs.Prelude.{◌≡◌, ◌+◌, ◌-◌, ◌^◌, min, if◌then◌else◌, Some};
ghost use Rattle.cabinets.specs.Page.{tally_text};

use crate::came::Came;
use std::fmt;

/// How often two channels were asked the same, and how often one showed or came to something else.
#[derive(Clone, Copy, Debug, Default, PartialEq, Eq)]
pub struct Tally {
    pub calls: u64,
    pub differences: u64,
}

impl Tally {
    /// Counts a difference if the two are not equal.
    pub fn compare<T: PartialEq>(&mut self, one: &T, other: &T)
        ensures calls { self.new.calls ≡ self.old.calls }
        ensures differences { self.new.differences ≡ (if T.eq one.now other.now then self.old.differences else min (self.old.differences + 1) (2 ^ 64 - 1)) }
    {
        if one != other {
            self.differences = self.differences.saturating_add(1);
        }
    }

    /// Counts a call, and a difference if the two channels did not come to the same.
    pub fn count(&mut self, one: Came, other: Came)
        ensures calls { self.new.calls ≡ min (self.old.calls + 1) (2 ^ 64 - 1) }
        ensures alike { one ≡ other → self.new.differences ≡ self.old.differences }
        ensures otherwise { (one ≡ other → ⊥) → self.new.differences ≡ min (self.old.differences + 1) (2 ^ 64 - 1) }
    {
        self.calls = self.calls.saturating_add(1);
        self.compare(&one, &other);
    }
}

impl fmt::Display for Tally {
    ghost output = { λ tally. Some (tally_text tally.calls tally.differences) };

    fn fmt<W: fmt::Write>(&self, f: &mut fmt::Formatter<W>) -> fmt::Result {
        write!(
            f,
            "{} calls on both cabinets, {} answered otherwise",
            self.calls, self.differences
        )
    }
}
