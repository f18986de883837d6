// The resumption, last in an accepted call.
ghost use Rattle.std.specs.Prelude.{◌≡◌, ℕ, ◌<◌, false, List, slice_index_or};
ghost use Rattle.waiting_line.specs.Searches.{some};
ghost use Rattle.a_side.specs.declared.record.ARecord.{ARecord as Request};
ghost use Rattle.a_side.specs.Rules.{resumable, with_records};
ghost use Rattle.originating.specs.Words.{engages};
ghost use Rattle.originating.specs.Calls.{fit_of};
ghost use Rattle.originating.specs.Steps.{Resumed};

use crate::looks::engaged_users;
use crate::side::Fit;
use a_side::{ARecord, AState};
use channels::{Channel, post};
use messages::{Kind, Values};

impl Fit<'_> {
    // Whether a record is Suspended and its user is not CCBS-busy, where the users engaged by some records are noted.
    fn is_resumable(&self, engaged: &[bool; 256], request: ARecord) -> bool
        ensures { (rs : List Request) → ((u : ℕ) → u < 256 → slice_index_or engaged.now u false ≡ some (engages u) rs) → result ≡ resumable (with_records (fit_of self.now) rs) request }
    {
        request.state == AState::Suspended
            && !self.is_line_busy(request.user)
            && !engaged[usize::from(request.user)]
    }

    // Resumes every record that may be, in their order: one pass to note who is engaged, one to resume.
    pub(super) fn resume<C: Channel>(&mut self, to_b: &mut C)
        ensures { Resumed C.Channel.capacity C.Channel.waiting self.old to_b.old self.new to_b.new }
    {
        let engaged = engaged_users(self.records.all());
        for place in 0..self.records.len() {
            let request = self.records.all()[place];
            if self.is_resumable(&engaged, request) {
                let woken = ARecord {
                    state: AState::Waiting,
                    ..request
                };
                let _ = self.records.replace(place, woken);
                post(to_b, Values::plain(Kind::Resume, request.tn));
            }
        }
    }
}
