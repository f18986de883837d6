// What accepted calls do of their own, before the resumption.
ghost use Rattle.std.specs.Prelude.{◌≡◌, true, false, [], ◌∷◌, length, nat_le, Some};
ghost use Rattle.answers.specs.declared.answer.Answer.TheVariants.{Suspended};
ghost use Rattle.messages.specs.Services.{service_number};
ghost use Rattle.messages.specs.Sent.{plain as plainly};
ghost use Rattle.tables.specs.Tables.{became};
ghost use Rattle.a_side.specs.Rules.{a_due, becomes, does, line_busy, activating, withdrawing, answering_one, a_expiring_one};
ghost use Rattle.originating.specs.Calls.{fit_of};
ghost use Rattle.originating.specs.Steps.{Did};

use crate::side::Fit;
use a_side::{ARecord, AState};
use answers::{Answer, Cause};
use channels::{Channel, post};
use messages::{Kind, Service, Values};

impl Fit<'_> {
    // Makes a record of the next number, and sends the request.
    pub(super) fn request<C: Channel>(
        &mut self,
        to_b: &mut C,
        user: u8,
        destination: u8,
        service: Service,
        tn: u32,
    ) -> Answer
        requires place { nat_le (fit_of self.old).places (length (fit_of self.old).records) ≡ false }
        requires number { self.old.next ≡ Some tn }
        ensures { Did C.Channel.capacity C.Channel.waiting (activating (fit_of self.old) user destination (service_number service)) result self.old to_b.old self.new to_b.new }
    {
        let settings = self.settings;
        let _ = self.records.put(ARecord {
            tn,
            user,
            destination,
            service,
            state: AState::Requested,
            t2: settings.t2 as u16,
            t3: 0,
            t4: 0,
        });
        self.next = tn.checked_add(1);
        let retention = settings.ra == 1;
        post(
            to_b,
            Values::requesting(tn, user, destination, service, retention),
        );
        Answer::Requested { tn }
    }

    pub(super) fn cancel<C: Channel>(&mut self, to_b: &mut C, tn: u32) -> Answer
        ensures { Did C.Channel.capacity C.Channel.waiting (withdrawing (fit_of self.old) tn) result self.old to_b.old self.new to_b.new }
    {
        post(to_b, Values::cancelling(tn, Cause::NotGiven));
        self.end(tn, Cause::Withdrawn)
    }

    pub(super) fn suspend<C: Channel>(&mut self, to_b: &mut C, request: ARecord) -> Answer
        ensures { Did C.Channel.capacity C.Channel.waiting (does (fit_of self.old) (Suspended request.tn) (became (becomes AState.Suspended request)) (plainly Kind.Suspend request.tn ∷ [])) result self.old to_b.old self.new to_b.new }
    {
        self.update(ARecord {
            state: AState::Suspended,
            ..request
        });
        post(to_b, Values::plain(Kind::Suspend, request.tn));
        Answer::Suspended { tn: request.tn }
    }

    // Answers the recall of a record, by whether the user's line is busy.
    pub(super) fn answer<C: Channel>(&mut self, to_b: &mut C, request: ARecord) -> Answer
        ensures { Did C.Channel.capacity C.Channel.waiting (answering_one (fit_of self.old) request (line_busy (fit_of self.old) request.user)) result self.old to_b.old self.new to_b.new }
    {
        let tn = request.tn;
        if self.is_line_busy(request.user) {
            self.suspend(to_b, ARecord { t4: 0, ..request })
        } else {
            self.update(ARecord {
                state: AState::Calling,
                t4: 0,
                ..request
            });
            post(to_b, Values::plain(Kind::Call, tn));
            Answer::Calling { tn }
        }
    }

    // Ends a record whose timer is over.
    pub(super) fn expire<C: Channel>(&mut self, to_b: &mut C, request: ARecord) -> Answer
        requires { a_due request ≡ true }
        ensures { Did C.Channel.capacity C.Channel.waiting (a_expiring_one (fit_of self.old) request) result self.old to_b.old self.new to_b.new }
    {
        let tn = request.tn;
        if request.state == AState::Requested {
            return self.end(tn, Cause::ShortTermDenial);
        }
        let cause = if request.t3 == 0 {
            Cause::T3Over
        } else {
            Cause::T4Over
        };
        post(to_b, Values::cancelling(tn, cause));
        self.end(tn, cause)
    }
}
