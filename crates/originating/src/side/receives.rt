// What an arriving or a returned message does, before the resumption.
ghost use Rattle.std.specs.Prelude.{◌≡◌};
ghost use Rattle.a_side.specs.Rules.{ccbs_busy, on_free_waiting, on_record, on_stray, on_returned, a_receiving, a_returning};
ghost use Rattle.originating.specs.Calls.{fit_of};
ghost use Rattle.originating.specs.Steps.{Did};

use crate::side::Fit;
use a_side::{ARecord, AState};
use answers::{Answer, Cause};
use channels::{Channel, post};
use messages::{Kind, Message, Values};

impl Fit<'_> {
    // Calls the user of a waiting record back, whose destination is free; that of a CCBS-busy user is suspended.
    fn recall<C: Channel>(&mut self, to_b: &mut C, request: ARecord) -> Answer
        ensures { Did C.Channel.capacity C.Channel.waiting (on_free_waiting (fit_of self.old) request (ccbs_busy (fit_of self.old) request.user)) result self.old to_b.old self.new to_b.new }
    {
        if self.is_ccbs_busy(request.user) {
            return self.suspend(to_b, request);
        }
        self.update(ARecord {
            state: AState::Recalled,
            t4: self.settings.t4 as u16,
            ..request
        });
        Answer::Recall { tn: request.tn }
    }

    // The step of a record at a message, by its state and the message's kind.
    fn step<C: Channel>(&mut self, to_b: &mut C, request: ARecord, values: Values) -> Answer
        ensures { Did C.Channel.capacity C.Channel.waiting (on_record (fit_of self.old) request values values.kind) result self.old to_b.old self.new to_b.new }
    {
        let tn = request.tn;
        match (request.state, values.kind) {
            (AState::Requested, Kind::Result) => {
                self.update(ARecord {
                    state: AState::Waiting,
                    t2: 0,
                    t3: self.settings.t3 as u16,
                    ..request
                });
                Answer::Accepted { tn }
            }
            (AState::Waiting, Kind::RemoteUserFree) => self.recall(to_b, request),
            (_, Kind::Error | Kind::Cancel) => self.end(tn, Cause::from(values.cause)),
            (_, Kind::CallDone) => {
                self.set_line(request.user, true);
                self.end(tn, Cause::Completed)
            }
            (_, Kind::CallBusy) if values.retention == 0 => self.end(tn, Cause::BusyAgain),
            (AState::Calling, Kind::CallBusy) => {
                self.update(ARecord {
                    state: AState::Waiting,
                    ..request
                });
                Answer::Kept { tn }
            }
            _ => Answer::Nothing { tn },
        }
    }

    // A message for a transaction that does not stand.
    fn stray<C: Channel>(&mut self, to_b: &mut C, values: Values) -> Answer
        ensures { Did C.Channel.capacity C.Channel.waiting (on_stray (fit_of self.old) values values.kind) result self.old to_b.old self.new to_b.new }
    {
        let tn = values.tn;
        match values.kind {
            Kind::Result | Kind::RemoteUserFree => {
                post(to_b, Values::cancelling(tn, Cause::NotGiven));
                Answer::Stray { tn }
            }
            _ => Answer::Nothing { tn },
        }
    }

    // Receives a message.
    pub(crate) fn receive<C: Channel>(&mut self, to_b: &mut C, message: &Message) -> Answer
        ensures { Did C.Channel.capacity C.Channel.waiting (a_receiving (fit_of self.old) message.now.values) result self.old to_b.old self.new to_b.new }
    {
        let values = message.values();
        match tables::standing(self.records.all(), values.tn) {
            Some(request) => self.step(to_b, request, values),
            None => self.stray(to_b, values),
        }
    }

    // Takes back a message that was returned, for a record that stands.
    fn take_back_for<C: Channel>(&mut self, to_b: &mut C, request: ARecord, kind: Kind) -> Answer
        ensures { Did C.Channel.capacity C.Channel.waiting (on_returned (fit_of self.old) request kind) result self.old to_b.old self.new to_b.new }
    {
        let tn = request.tn;
        match kind {
            Kind::Request => self.end(tn, Cause::LongTermDenial),
            Kind::Call => {
                post(to_b, Values::cancelling(tn, Cause::NotGiven));
                self.end(tn, Cause::CallReturned)
            }
            _ => Answer::Nothing { tn },
        }
    }

    // Takes back a message that was returned.
    pub(crate) fn take_back<C: Channel>(&mut self, to_b: &mut C, message: &Message) -> Answer
        ensures { Did C.Channel.capacity C.Channel.waiting (a_returning (fit_of self.old) message.now.values) result self.old to_b.old self.new to_b.new }
    {
        let values = message.values();
        match tables::standing(self.records.all(), values.tn) {
            Some(request) => self.take_back_for(to_b, request, values.kind),
            None => Answer::Nothing { tn: values.tn },
        }
    }
}
