// What an accepted expiry does, before the guards follow their rule.
ghost use Rattle.std.specs.Prelude.{◌≡◌, [], if◌then◌else◌};
ghost use Rattle.answers.specs.declared.cause.Cause.TheVariants.{T7Over, T9Over};
ghost use Rattle.tables.specs.Tables.{first_by};
ghost use Rattle.b_side.specs.Rules.{due7, queued_at, finishes, b_expiring_one, recalling_one};
ghost use Rattle.destination.specs.Sides.{fit_of};
ghost use Rattle.destination.specs.Dues.{expiring_by};
ghost use Rattle.destination.specs.Calls.{Acted, ActedSending};

use crate::due::Due;
use crate::side::Fit;
use answers::{Answer, Cause};
use b_side::{BRecord, BState};
use channels::{Channel, post};
use messages::{Kind, Values};

// Which timer of a record that is due is over: T7 before T9.
fn overdue(request: &BRecord) -> Cause
    ensures { result ≡ (if due7 request.now then T7Over else T9Over) }
{
    if request.t7 == 0 {
        Cause::T7Over
    } else {
        Cause::T9Over
    }
}

// The first stored Queued record of a destination.
fn first_queued(records: &[BRecord], destination: usize) -> Option<BRecord>
    ensures { result ≡ first_by (queued_at destination) records.now }
{
    records.iter().copied().find(|request| {
        usize::from(request.destination) == destination && request.state == BState::Queued
    })
}

impl Fit<'_> {
    // Ends the record of a transaction.
    pub(super) fn end(&mut self, tn: u32, cause: Cause) -> Answer
        ensures { Acted (finishes (fit_of self.old) tn cause []) result self.old self.new }
    {
        self.remove(tn);
        Answer::Ended { tn, cause }
    }

    // Ends a record whose timer is over, and tells A.
    fn end_due<C: Channel>(&mut self, request: BRecord, to_a: &mut C) -> Answer
        ensures { ActedSending C.Channel.capacity C.Channel.waiting (b_expiring_one (fit_of self.old) request) result self.old to_a.old self.new to_a.new }
    {
        let cause = overdue(&request);
        post(to_a, Values::cancelling(request.tn, cause));
        self.end(request.tn, cause)
    }

    // Recalls the first Queued record of a destination whose guard is over.
    fn recall<C: Channel>(&mut self, destination: usize, to_a: &mut C) -> Answer
        ensures { ActedSending C.Channel.capacity C.Channel.waiting (recalling_one (fit_of self.old) (first_by (queued_at destination) (fit_of self.old).records)) result self.old to_a.old self.new to_a.new }
    {
        let Some(request) = first_queued(self.records.all(), destination) else {
            return Answer::Done;
        };
        let tn = request.tn;
        let t9 = self.settings.t9 as u16;
        self.update(BRecord {
            state: BState::Recalling,
            t9,
            ..request
        });
        post(to_a, Values::plain(Kind::RemoteUserFree, tn));
        Answer::Freed { tn }
    }

    // Handles what is due.
    pub(super) fn expire<C: Channel>(&mut self, due: Due, to_a: &mut C) -> Answer
        ensures { ActedSending C.Channel.capacity C.Channel.waiting (expiring_by (fit_of self.old) due) result self.old to_a.old self.new to_a.new }
    {
        match due {
            Due::Record(request) => self.end_due(request, to_a),
            Due::Guard(destination) => self.recall(destination, to_a),
        }
    }
}
