// What each call decides first: the rows of denials that apply to it, in their order.
ghost use Rattle.std.specs.Prelude.{◌≡◌, IfOk, Some};
ghost use Rattle.answers.specs.Rows.{denied};
ghost use Rattle.b_side.specs.Forwardings.{forwarding_of};
ghost use Rattle.b_side.specs.Rules.{b_line_refusal, forwarding_refusal, b_tick_refusal, b_expiry_refusal};
ghost use Rattle.destination.specs.Sides.{fit_of};
ghost use Rattle.destination.specs.Dues.{due_of};

use crate::due::Due;
use crate::side::Fit;
use crate::side::rows::MOST_SENT;
use answers::Denial;
use b_side::Forwarding;
use channels::{Channel, check_room, check_sized};

impl Fit<'_> {
    pub(super) fn may_turn(&self, destination: u8) -> Result<(), Denial>
        ensures { denied result ≡ b_line_refusal (fit_of self.now) destination }
    {
        self.check_party(destination)
    }

    // The forwarding of that number.
    pub(super) fn may_forward(&self, destination: u8, forwarding: u8) -> Result<Forwarding, Denial>
        ensures refusal { denied result ≡ forwarding_refusal (fit_of self.now) destination forwarding }
        ensures forwarding { IfOk result (λ f. f ≡ forwarding_of forwarding) }
    {
        self.check_party(destination)?;
        if forwarding > 3 {
            return Err(Denial::AboveThree);
        }
        Ok(Forwarding::from(forwarding))
    }

    // What is due first.
    fn due(&self) -> Option<Due>
        ensures { result ≡ due_of (fit_of self.now) }
    {
        match tables::due(self.records.all()) {
            Some(request) => Some(Due::Record(request)),
            None => self.first_over().map(Due::Guard),
        }
    }

    pub(super) fn may_tick(&self) -> Result<(), Denial>
        ensures { denied result ≡ b_tick_refusal (fit_of self.now) }
    {
        if self.due().is_some() {
            return Err(Denial::TimerDue);
        }
        Ok(())
    }

    // What an expiry handles.
    pub(super) fn may_expire<C: Channel>(&self, to_a: &C) -> Result<Due, Denial>
        ensures refusal { denied result ≡ b_expiry_refusal (fit_of self.now) (C.Channel.capacity to_a.now) (C.Channel.waiting to_a.now) }
        ensures due { IfOk result (λ due. Some due ≡ due_of (fit_of self.now)) }
    {
        check_sized(to_a)?;
        let due = self.due().ok_or(Denial::NoneDue)?;
        check_room(to_a, MOST_SENT)?;
        Ok(due)
    }
}
