// What the messages toward B do, and those that come back from A.
ghost use Rattle.std.specs.Prelude.{◌≡◌, ◌||◌, nat_eq};
ghost use Rattle.tables.specs.Tables.{times};
ghost use Rattle.messages.specs.declared.kind.Kind.TheVariants.{Result, RemoteUserFree};
ghost use Rattle.messages.specs.Sent.{same_kind};
ghost use Rattle.b_side.specs.declared.record.BRecord.{BRecord};
ghost use Rattle.b_side.specs.Rules.{line, turns_away, objection as objection_to, agreed, accept, on_new, on_none, on_record, called_at, b_receiving, b_returning};
ghost use Rattle.destination.specs.Sides.{fit_of};
ghost use Rattle.destination.specs.Calls.{Acted, ActedSending, Did, DidSending};

use crate::side::Fit;
use answers::{Answer, Cause};
use b_side::{BRecord, BState, Forwarding};
use channels::{Channel, post};
use messages::{Kind, Service, Values};

// How many records a destination has.
fn count_at(records: &[BRecord], destination: u8) -> usize
    ensures { result ≡ times (λ (x : BRecord). nat_eq x.destination destination) records.now }
{
    records
        .iter()
        .filter(|request| request.destination == destination)
        .count()
}

// Whether a record cannot go on without this message: a result, or that the line is free.
fn is_awaited(kind: Kind) -> bool
    ensures { result ≡ (same_kind kind Result || same_kind kind RemoteUserFree) }
{
    matches!(kind, Kind::Result | Kind::RemoteUserFree)
}

impl Fit<'_> {
    // Whether a destination is forwarded so that requests are turned away.
    fn turns_away(&self, destination: u8) -> bool
        ensures { result ≡ turns_away (line (fit_of self.now) destination).forwarding }
    {
        matches!(
            self.line(destination).forwarding,
            Forwarding::NoReply | Forwarding::Unconditional
        )
    }

    // Why a request is rejected, if it is.
    fn objection(&self, message: &Values) -> Option<Cause>
        ensures { result ≡ objection_to (fit_of self.now) message.now }
    {
        if u32::from(message.destination) >= self.settings.n {
            return Some(Cause::LongTermDenial);
        }
        if self.turns_away(message.destination) {
            return Some(Cause::ShortTermDenial);
        }
        if count_at(self.records.all(), message.destination) >= self.settings.lb as usize {
            return Some(Cause::ShortTermDenial);
        }
        if self.records.is_full() {
            return Some(Cause::LongTermDenial);
        }
        None
    }

    // Whether both sides have retention.
    fn agrees(&self, message: &Values) -> bool
        ensures { result ≡ agreed (fit_of self.now) message.now }
    {
        message.retention == 1 && self.settings.rb == 1
    }

    // A request of a transaction that does not stand: rejected, or stored last.
    fn request<C: Channel>(&mut self, message: Values, to_a: &mut C) -> Answer
        ensures { ActedSending C.Channel.capacity C.Channel.waiting (on_new (fit_of self.old) message (objection_to (fit_of self.old) message)) result self.old to_a.old self.new to_a.new }
    {
        let tn = message.tn;
        match self.objection(&message) {
            Some(cause) => {
                post(to_a, Values::numbered(Kind::Error, tn, false, cause));
                Answer::Rejected { tn, cause }
            }
            None => {
                let retention = self.agrees(&message);
                self.store(BRecord {
                    tn,
                    destination: message.destination,
                    service: Service::from(message.service).meant(),
                    retention,
                    state: BState::Queued,
                    t7: self.settings.t7 as u16,
                    t9: 0,
                });
                post(
                    to_a,
                    Values::numbered(Kind::Result, tn, retention, Cause::NotGiven),
                );
                Answer::Stored { tn }
            }
        }
    }

    // A message of a transaction that does not stand.
    fn hear_new<C: Channel>(&mut self, message: Values, to_a: &mut C) -> Answer
        ensures { ActedSending C.Channel.capacity C.Channel.waiting (on_none (fit_of self.old) message message.kind) result self.old to_a.old self.new to_a.new }
    {
        match message.kind {
            Kind::Request => self.request(message, to_a),
            _ => Answer::Nothing { tn: message.tn },
        }
    }

    // A call on a recall: it takes the line, or finds it busy, and then the record keeps its place or ends.
    fn called<C: Channel>(&mut self, request: BRecord, to_a: &mut C) -> Answer
        ensures { ActedSending C.Channel.capacity C.Channel.waiting (called_at (fit_of self.old) request (line (fit_of self.old) request.destination).busy) result self.old to_a.old self.new to_a.new }
    {
        let tn = request.tn;
        if !self.line(request.destination).busy {
            let answer = self.end(tn, Cause::Completed);
            self.turn_line(request.destination, true);
            post(to_a, Values::plain(Kind::CallDone, tn));
            answer
        } else if request.retention {
            self.update(BRecord {
                state: BState::Queued,
                t9: 0,
                ..request
            });
            post(
                to_a,
                Values::numbered(Kind::CallBusy, tn, true, Cause::NotGiven),
            );
            Answer::Kept { tn }
        } else {
            post(
                to_a,
                Values::numbered(Kind::CallBusy, tn, false, Cause::NotGiven),
            );
            self.end(tn, Cause::BusyAgain)
        }
    }

    // A message of a record that stands.
    fn hear_standing<C: Channel>(
        &mut self,
        request: BRecord,
        message: Values,
        to_a: &mut C,
    ) -> Answer
        ensures { ActedSending C.Channel.capacity C.Channel.waiting (on_record (fit_of self.old) request message message.kind) result self.old to_a.old self.new to_a.new }
    {
        let tn = request.tn;
        match (request.state, message.kind) {
            (BState::Queued | BState::Recalling, Kind::Suspend) => {
                self.update(BRecord {
                    state: BState::Suspended,
                    t9: 0,
                    ..request
                });
                Answer::Suspended { tn }
            }
            (BState::Suspended, Kind::Resume) => {
                self.update(BRecord {
                    state: BState::Queued,
                    ..request
                });
                Answer::Resumed { tn }
            }
            (BState::Recalling, Kind::Call) => self.called(request, to_a),
            (_, Kind::Cancel) => self.end(tn, Cause::from(message.cause)),
            _ => Answer::Nothing { tn },
        }
    }

    fn hear<C: Channel>(&mut self, message: Values, to_a: &mut C) -> Answer
        ensures { ActedSending C.Channel.capacity C.Channel.waiting (b_receiving (fit_of self.old) message) result self.old to_a.old self.new to_a.new }
    {
        match self.standing(message.tn) {
            Some(request) => self.hear_standing(request, message, to_a),
            None => self.hear_new(message, to_a),
        }
    }

    // Receives a message.
    pub(crate) fn receive<C: Channel>(&mut self, message: Values, to_a: &mut C) -> Answer
        ensures { DidSending C.Channel.capacity C.Channel.waiting (accept (fit_of self.old) (b_receiving (fit_of self.old) message)) result self.old to_a.old self.new to_a.new }
    {
        let ran = self.guards();
        let answer = self.hear(message, to_a);
        self.settle(&ran);
        answer
    }

    // A message that came back: its record ends, if it was a result or told that the line is free.
    fn regain(&mut self, message: &Values) -> Answer
        ensures { Acted (b_returning (fit_of self.old) message.now) result self.old self.new }
    {
        let Some(BRecord { tn, .. }) = self.standing(message.tn) else {
            return Answer::Nothing { tn: message.tn };
        };
        if is_awaited(message.kind) {
            self.end(tn, Cause::MessageReturned)
        } else {
            Answer::Nothing { tn }
        }
    }

    // Takes a returned message back.
    pub(crate) fn take_back(&mut self, message: &Values) -> Answer
        ensures { Did (accept (fit_of self.old) (b_returning (fit_of self.old) message.now)) result self.old self.new }
    {
        let ran = self.guards();
        let answer = self.regain(message);
        self.settle(&ran);
        answer
    }
}
