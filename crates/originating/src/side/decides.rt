// What the calls that look at records decide first: the rows of denials that apply to each, in their order.
ghost use Rattle.std.specs.Prelude.{◌≡◌, not, IfOk, Some};
ghost use Rattle.answers.specs.declared.denial.Denial.TheVariants.{NotStanding};
ghost use Rattle.answers.specs.Rows.{denied, row};
ghost use Rattle.messages.specs.Services.{service_number};
ghost use Rattle.tables.specs.Tables.{first_by};
ghost use Rattle.a_side.specs.Rules.{a_due, standing, stands_for, user_full, activate_refusal, withdraw_refusal, answer_refusal, a_tick_refusal, a_expiry_refusal};
ghost use Rattle.originating.specs.Calls.{fit_of};

use crate::looks::{count_of, has_same};
use crate::side::Fit;
use crate::side::rows::{MOST_SENT, check_party};
use a_side::{ARecord, AState};
use answers::Denial;
use channels::{Channel, check_room, check_sized};
use messages::Service;
use waiting_line::any_due;

impl Fit<'_> {
    // Whether the user has as many records as one may have.
    fn is_full_for(&self, user: u8) -> bool
        ensures { result ≡ user_full (fit_of self.now) user }
    {
        count_of(self.records.all(), user) >= self.settings.la as usize
    }

    // The number and the service that an activation gets.
    pub(super) fn may_activate<C: Channel>(
        &self,
        to_b: &C,
        user: u8,
        destination: u8,
        service: u8,
    ) -> Result<(u32, Service), Denial>
        ensures refusal { denied result ≡ activate_refusal (fit_of self.now) (C.Channel.capacity to_b.now) (C.Channel.waiting to_b.now) user destination service }
        ensures number { IfOk result (λ p. self.now.next ≡ Some p.0) }
        ensures service { IfOk result (λ p. service_number p.1 ≡ service) }
    {
        check_sized(to_b)?;
        check_party(user)?;
        check_party(destination)?;
        if service > 3 {
            return Err(Denial::AboveThree);
        }
        let service = Service::from(service);
        if has_same(self.records.all(), user, destination, service) {
            return Err(Denial::Identical);
        }
        if self.is_full_for(user) {
            return Err(Denial::UserFull);
        }
        if self.records.is_full() {
            return Err(Denial::NoRecordPlace);
        }
        let tn = self.next.ok_or(Denial::NoNumberLeft)?;
        check_room(to_b, MOST_SENT)?;
        Ok((tn, service))
    }

    // The record of a transaction that stands for this user.
    fn standing_for(&self, user: u8, tn: u32) -> Result<ARecord, Denial>
        ensures refusal { denied result ≡ row (not (stands_for (fit_of self.now) user tn)) NotStanding }
        ensures found { IfOk result (λ x. standing tn (fit_of self.now) ≡ Some x) }
    {
        tables::standing(self.records.all(), tn)
            .filter(|request| request.user == user)
            .ok_or(Denial::NotStanding)
    }

    pub(super) fn may_withdraw<C: Channel>(&self, to_b: &C, user: u8, tn: u32) -> Result<(), Denial>
        ensures { denied result ≡ withdraw_refusal (fit_of self.now) (C.Channel.capacity to_b.now) (C.Channel.waiting to_b.now) user tn }
    {
        check_sized(to_b)?;
        check_party(user)?;
        self.standing_for(user, tn)?;
        check_room(to_b, MOST_SENT)
    }

    // The record whose recall is answered.
    pub(super) fn may_answer<C: Channel>(
        &self,
        to_b: &C,
        user: u8,
        tn: u32,
    ) -> Result<ARecord, Denial>
        ensures refusal { denied result ≡ answer_refusal (fit_of self.now) (C.Channel.capacity to_b.now) (C.Channel.waiting to_b.now) user tn }
        ensures found { IfOk result (λ x. standing tn (fit_of self.now) ≡ Some x) }
    {
        check_sized(to_b)?;
        check_party(user)?;
        let request = self.standing_for(user, tn)?;
        if request.state != AState::Recalled {
            return Err(Denial::NotRecalled);
        }
        check_room(to_b, MOST_SENT)?;
        Ok(request)
    }

    pub(super) fn may_tick(&self) -> Result<(), Denial>
        ensures { denied result ≡ a_tick_refusal (fit_of self.now) }
    {
        if any_due(self.records.all()) {
            return Err(Denial::TimerDue);
        }
        Ok(())
    }

    // The first record that is due.
    #[tactic(auto, using(tables::proofs::Dues::is_some_find))]
    pub(super) fn may_expire<C: Channel>(&self, to_b: &C) -> Result<ARecord, Denial>
        ensures refusal { denied result ≡ a_expiry_refusal (fit_of self.now) (C.Channel.capacity to_b.now) (C.Channel.waiting to_b.now) }
        ensures due { IfOk result (λ x. first_by a_due (fit_of self.now).records ≡ Some x) }
    {
        check_sized(to_b)?;
        let request = tables::due(self.records.all()).ok_or(Denial::NoneDue)?;
        check_room(to_b, MOST_SENT)?;
        Ok(request)
    }
}
