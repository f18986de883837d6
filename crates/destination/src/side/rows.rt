// The rows of denials that several calls have: each denies the call, or lets it go on.
ghost use Rattle.std.specs.Prelude.{◌≡◌};
ghost use Rattle.answers.specs.declared.denial.Denial.TheVariants.{NoSuchParty};
ghost use Rattle.answers.specs.Rows.{denied, row};
ghost use Rattle.b_side.specs.Rules.{no_such_destination};
ghost use Rattle.destination.specs.Sides.{fit_of};

use crate::side::Fit;
use answers::Denial;

// How many messages a call may send.
pub(super) const MOST_SENT: usize = 1;

impl Fit<'_> {
    pub(super) fn check_party(&self, destination: u8) -> Result<(), Denial>
        ensures { denied result ≡ row (no_such_destination (fit_of self.now) destination) NoSuchParty }
    {
        if u32::from(destination) >= self.settings.n {
            return Err(Denial::NoSuchParty);
        }
        Ok(())
    }
}
