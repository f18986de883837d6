// Users: whether a line is busy, whether its user is CCBS-busy, and a line that becomes busy or idle.
ghost use Rattle.std.specs.Prelude.{◌≡◌};
ghost use Rattle.a_side.specs.Rules.{line_busy, ccbs_busy, with_line};
ghost use Rattle.originating.specs.Calls.{fit_of, working, Became};
ghost use Rattle.originating.specs.Steps.{with_busy};

use crate::looks::is_engaged;
use crate::side::Fit;

impl Fit<'_> {
    pub(super) fn is_line_busy(&self, user: u8) -> bool
        ensures { result ≡ line_busy (fit_of self.now) user }
    {
        self.busy.get(usize::from(user)).copied().unwrap_or(false)
    }

    // Whether the line is busy, or one of the user's records is Recalled or Calling.
    pub(super) fn is_ccbs_busy(&self, user: u8) -> bool
        ensures { result ≡ ccbs_busy (fit_of self.now) user }
    {
        self.is_line_busy(user) || is_engaged(self.records.all(), user)
    }

    // Makes the user's line busy or idle.
    pub(super) fn set_line(&mut self, user: u8, busy: bool)
        ensures { Became (working self.old) (with_busy (fit_of self.old) (with_line (fit_of self.old) user busy)) (working self.new) }
    {
        if user < 64 {
            self.busy[usize::from(user)] = busy;
        }
    }
}
