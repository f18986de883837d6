// The rows of denials that several calls have: each denies the call, or lets it go on.
ghost use Rattle.std.specs.Prelude.{◌≡◌};
ghost use Rattle.answers.specs.declared.denial.Denial.TheVariants.{NoSuchParty};
ghost use Rattle.answers.specs.Rows.{denied, row};
ghost use Rattle.a_side.specs.Rules.{no_such_user};

use answers::Denial;

// How many messages a call may send.
pub(super) const MOST_SENT: usize = 5;

pub(super) fn check_party(party: u8) -> Result<(), Denial>
    ensures { denied result ≡ row (no_such_user party) NoSuchParty }
{
    if party >= 64 {
        return Err(Denial::NoSuchParty);
    }
    Ok(())
}
